//! Workers in threads of their own, beside a loader that publishes.

ghost use Rattle.std.specs.Prelude.{◌≡◌};
ghost use Rattle.std.specs.List.{All};

use super::scripts::play;
use super::stages::{LockedStage, NamedStage, named_stage};
use super::{current_version, new_shelves, publish};
use crate::tests::images::image;
use epochs::*;
use image_verifier::Verified;
use std::alloc::Global;
use std::marker::Brand;
use std::process::Abort;
use std::sync::{Arc, Wait};
use std::test::*;
use std::thread;
use std::thread::Threads;

/// Images whose bases are the seconds from 2 on.
fn images(alloc: Global, count: u32) -> Result<Vec<Arc<Verified, Global>>, Fail> {
    let mut images = Vec::new(alloc);
    for index in 0..count {
        images.push(image(alloc, index.saturating_add(2))?)?;
    }
    Ok(images)
}

/// Whether the versions of a hundred pins never fell.
fn versions_rise<R: Wait>(rt: &R, shelves: &LockedShelves, seat: &mut WorkerSeat) -> bool {
    let mut rising = true;
    let mut last = 0;
    for _ in 0..100 {
        match current_version(rt, shelves, seat) {
            Ok(version) => {
                rising = rising && last <= version;
                last = version;
            }
            Err(_) => rising = false,
        }
    }
    rising
}

fn pins_in_turn<R: Wait>(rt: &R, shelves: &LockedShelves, seats: &mut [WorkerSeat]) -> bool {
    let mut rising = true;
    for seat in seats.iter_mut() {
        rising = versions_rise(rt, shelves, seat) && rising;
    }
    rising
}

fn publishes_in_turn<R: Wait>(
    rt: &R,
    shelves: &LockedShelves,
    loader: &mut LoaderSeat,
    images: Vec<Arc<Verified, Global>>,
) -> bool {
    let mut all = true;
    for image in images {
        all = publish(rt, shelves, loader, image).is_ok() && all;
        shelves.collect(rt, loader);
    }
    all
}

/// One thread pins at each seat in turn, while another publishes images.
fn pin_and_publish<R: Threads + Wait + Sync>(
    rt: &R,
    shelves: &LockedShelves,
    seats: &mut [WorkerSeat],
    loader: &mut LoaderSeat,
    images: Vec<Arc<Verified, Global>>,
) -> (bool, bool) {
    thread::join(
        rt,
        || pins_in_turn(rt, shelves, seats),
        || publishes_in_turn(rt, shelves, loader, images),
    )
}

#[test]
fn workers_beside_a_loader_under_a_lock(rt: HostRuntime) -> Result<(), Fail> {
    let images = images(rt.alloc(), 10)?;
    let mut stage = LockedStage::new(rt.alloc())?;
    let (rising, all) = pin_and_publish(
        &rt,
        &stage.shelves,
        &mut stage.seats,
        &mut stage.loader,
        images,
    );
    assert!(&rt; rising && all);
    play(&rt, &mut stage, "pin 0: ok, 11 at 11")
}

/// Whether an edition's image is that of its version: its base is the version's number.
fn goes_with(edition: &Edition) -> bool {
    match i64::try_from(edition.version) {
        Ok(second) => second == edition.image.base(),
        Err(_) => false,
    }
}

/// Whether the seat holds the image of its version.
fn holds_well<B: ShelvesName>(seat: &NamedSeat<B>) -> bool {
    seat.shows_what_it_knows();
    match NamedShelves::<B>::edition(seat) {
        Some(edition) => goes_with(edition),
        None => false,
    }
}

/// Whether a pin gives the image of its version, and gives it back.
fn pins_well<B: ShelvesName>(shelves: &NamedShelves<B>, seat: &mut NamedSeat<B>) -> bool {
    let pinned = shelves.pin(seat);
    let well = holds_well(seat) && pinned.is_ok();
    let released = shelves.release(seat);
    released.is_ok() && well
}

/// How many of a thousand pins gave the image of their version.
fn pins_of<B: ShelvesName>(shelves: &NamedShelves<B>, seat: &mut NamedSeat<B>) -> u32 {
    let mut held = 0u32;
    for _ in 0..1000u32 {
        if pins_well(shelves, seat) {
            held = held.wrapping_add(1);
        }
    }
    held
}

/// How many of the images became versions, with a collection after each.
fn publishes_of<B: ShelvesName>(
    shelves: &NamedShelves<B>,
    loader: &mut NamedLoader<B>,
    images: Vec<Arc<Verified, Global>>,
) -> u32 {
    let mut published = 0u32;
    for image in images {
        if shelves.publish(loader, image).is_ok() {
            published = published.wrapping_add(1);
        }
        let _found = shelves.collect(loader);
    }
    published
}

/// Two seats pin in parallel.
fn two_pin<B: ShelvesName + Send + Sync, R: Threads + Wait + Sync>(
    rt: &R,
    shelves: &NamedShelves<B>,
    first: &mut NamedSeat<B>,
    second: &mut NamedSeat<B>,
) -> (u32, u32) {
    thread::join(rt, || pins_of(shelves, first), || pins_of(shelves, second))
}

/// A loader publishes while two seats pin.
fn pin_beside_a_loader<B: ShelvesName + Send + Sync, R: Threads + Wait + Sync>(
    rt: &R,
    shelves: &NamedShelves<B>,
    loader: &mut NamedLoader<B>,
    first: &mut NamedSeat<B>,
    second: &mut NamedSeat<B>,
    images: Vec<Arc<Verified, Global>>,
) -> (u32, (u32, u32)) {
    thread::join(
        rt,
        || publishes_of(shelves, loader, images),
        || two_pin(rt, shelves, first, second),
    )
}

fn two_seats<B: ShelvesName>(
    stage: &mut NamedStage<B>,
) -> Result<(NamedSeat<B>, NamedSeat<B>), Fail> {
    match (stage.seats.pop(), stage.seats.pop()) {
        (Some(first), Some(second)) => Ok((first, second)),
        _ => Err("seats".into()),
    }
}

/// After one more publish the version that was current is collected too: no worker is left at it.
fn publishes_the_last<B: ShelvesName, R: Abort>(
    rt: &R,
    stage: &mut NamedStage<B>,
    image: Arc<Verified, Global>,
) {
    let published = stage.shelves.publish(&mut stage.loader, image).is_ok();
    let found = stage.shelves.collect(&mut stage.loader);
    assert!(rt; published && stage.shelves.word(0) / 8 == 52);
    assert!(rt; found.busy == [0; 8]);
}

/// A pin is refused only after it found four versions that were gone, each newer than those before: with fifty versions
/// that go, that is at most twelve times.
fn try_two_workers<B: ShelvesName + Send + Sync, R: Threads + Wait + Sync + Abort>(
    rt: &R,
    stage: &mut NamedStage<B>,
    images: Vec<Arc<Verified, Global>>,
    last: Arc<Verified, Global>,
) -> Result<(), Fail> {
    let (mut first, mut second) = two_seats(stage)?;
    let (published, (held, also_held)) = pin_beside_a_loader(
        rt,
        &stage.shelves,
        &mut stage.loader,
        &mut first,
        &mut second,
        images,
    );
    assert!(rt; published == 50 && held >= 988 && also_held >= 988);
    assert!(rt; stage.shelves.word(0) / 8 == 51);
    publishes_the_last(rt, stage, last);
    Ok(())
}

fn beside_a_loader<B: ShelvesName + Send + Sync, R: Threads + Wait + Sync + Abort>(
    rt: &R,
    alloc: Global,
    shelves: Shelves,
    loader: ShelfLoader,
    seats: Vec<ShelfSeat>,
) -> Result<(), Fail>
    requires { (shelves ≡ B.table) × (loader.table ≡ B.table) × All (λ seat. seat.table ≡ B.table) seats.items }
{
    let mut stage = named_stage::<B>(alloc, shelves, loader, seats)?;
    try_two_workers(rt, &mut stage, images(alloc, 50)?, image(alloc, 52)?)
}

#[test]
fn two_workers_beside_a_loader(rt: HostRuntime) -> Result<(), Fail> {
    let alloc: Global = rt.alloc();
    match new_shelves(alloc) {
        Ok((shelves, loader, seats)) => {
            beside_a_loader::<Brand, _>(&rt, alloc, shelves, loader, seats)
        }
        Err(refused) => Err(refused),
    }
}
