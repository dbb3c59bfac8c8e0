//! Shelves, and the table of versions under a lock and without one: what their calls answer, and which numbers refusals
//! have.

mod scripts;
mod stages;
mod threads;

ghost use Rattle.std.specs.Prelude.{◌≡◌, IfOk};
ghost use Rattle.std.specs.List.{All};

use crate::tests::images::image;
use epochs::*;
use image_verifier::Verified;
use std::alloc::{AllocError, Global};
use std::marker::Model;
use std::process::Abort;
use std::sync::{Arc, Wait};
use std::test::*;

/// Publishes an image: the version, or the fault and the second of the image that came back.
fn publish<R: Wait>(
    rt: &R,
    shelves: &LockedShelves,
    loader: &mut LoaderSeat,
    image: Arc<Verified, Global>,
) -> Result<u64, (i64, PublishFault)> {
    match shelves.publish(rt, loader, image) {
        Ok(version) => Ok(version),
        Err((image, fault)) => Err((image.base(), fault)),
    }
}

/// Pins, reads the version, and releases it.
fn current_version<R: Wait>(
    rt: &R,
    shelves: &LockedShelves,
    seat: &mut WorkerSeat,
) -> Result<u64, PinFault> {
    shelves.pin(rt, seat)?;
    let version = match seat.edition() {
        Some(edition) => edition.version,
        None => return Err(PinFault::NotPinned),
    };
    shelves.release(rt, seat)?;
    Ok(version)
}

/// Whether each call of a new table succeeds once.
fn calls_succeed(
    table: &mut VersionTable,
    seat: &mut WorkerSeat,
    loader: &mut LoaderSeat,
    image: Arc<Verified, Global>,
) -> bool {
    let is_pinned = table.pin(seat).is_ok();
    let is_published = table.publish(loader, image).is_ok();
    let found = table.collect(loader);
    let is_seen = seat.seen() == 1 && seat.is_holding() && found.busy[0] == 1;
    let is_released = table.release(seat).is_ok();
    table.history();
    is_pinned && is_published && is_seen && is_released
}

/// The loader's seat and a worker's, of shelves that are dropped.
fn new_seats(alloc: Global) -> Result<(LoaderSeat, WorkerSeat), Fail> {
    match LockedShelves::new(alloc, image(alloc, 1)?) {
        Ok((_, loader, mut seats)) => match seats.pop() {
            Some(seat) => Ok((loader, seat)),
            None => Err("seats".into()),
        },
        Err(refused) => Err(unmade(refused)),
    }
}

fn new_table(alloc: Global) -> Result<VersionTable, Fail> {
    match VersionTable::new(alloc, image(alloc, 1)?) {
        Ok(table) => Ok(table),
        Err((_, refused)) => Err(refused.into()),
    }
}

/// Whether each call succeeds with new seats, and the image that begins at second 2.
fn calls_of_seats_succeed(alloc: Global, table: &mut VersionTable) -> Result<bool, Fail> {
    let second = image(alloc, 2)?;
    let (mut loader, mut seat) = new_seats(alloc)?;
    Ok(calls_succeed(table, &mut seat, &mut loader, second))
}

/// The table itself, to which the lock passes its calls on.
#[test]
fn the_table_without_a_lock(rt: HostRuntime) -> Result<(), Fail> {
    let mut table = new_table(rt.alloc())?;
    assert!(rt; calls_of_seats_succeed(rt.alloc(), &mut table)?);
    Ok(())
}

/// Why no shelves were made whose version 1 begins at second 1: it must be want of memory, and the image must come
/// back.
fn unmade(refused: (Arc<Verified, Global>, PublishFault)) -> Fail {
    let (first, fault) = refused;
    if first.base() == 1 && fault == PublishFault::OutOfMemory {
        AllocError.into()
    } else {
        fault.into()
    }
}

/// New shelves, the loader's seat and the workers' seats. The image of version 1 begins at second 1.
fn new_shelves(alloc: Global) -> Result<(Shelves, ShelfLoader, Vec<ShelfSeat>), Fail>
    ensures loader { IfOk result (λ made. made.1.table ≡ made.0) }
    ensures seats { IfOk result (λ made. All (λ seat. seat.table ≡ made.0) made.2.items) }
{
    match Shelves::new(alloc, image(alloc, 1)?) {
        Ok(made) => Ok(made),
        Err(refused) => Err(unmade(refused)),
    }
}

/// The same with one worker's seat.
fn open_shelves(alloc: Global) -> Result<(Shelves, ShelfLoader, ShelfSeat), Fail>
    ensures { IfOk result (λ made. (made.1.table ≡ made.0) × (made.2.table ≡ made.0)) }
{
    match new_shelves(alloc) {
        Ok((shelves, loader, mut seats)) => match seats.pop() {
            Some(seat) => Ok((shelves, loader, seat)),
            None => Err("seats".into()),
        },
        Err(refused) => Err(refused),
    }
}

/// Shelves without a lock, with the loader's seat and one worker's. Contracts see which shelves they are.
#[derive(Drop)]
struct Solo {
    shelves: Shelves,
    loader: ShelfLoader,
    seat: ShelfSeat,
}

impl Model for Solo {
    ghost use Rattle.std.specs.Prelude.{◌≡◌};
    ghost use Rattle.atomic_table.specs.Seated.{TableId};

    ghost Value = { TableId };

    ghost view = { λ s. s.shelves };

    ghost invariant = { λ s. (s.loader.table ≡ s.shelves) × (s.seat.table ≡ s.shelves) };
}

impl Solo {
    fn new(alloc: Global) -> Result<Solo, Fail> {
        match open_shelves(alloc) {
            Ok((shelves, loader, seat)) => Ok(Solo {
                shelves,
                loader,
                seat,
            }),
            Err(refused) => Err(refused),
        }
    }

    /// Publishes an image: the version, or the fault and the second of the image that came back.
    fn publish(&mut self, image: Arc<Verified, Global>) -> Result<u64, (i64, PublishFault)> {
        match self.shelves.publish(&mut self.loader, image) {
            Ok((version, _)) => Ok(version),
            Err((image, fault)) => Err((image.base(), fault)),
        }
    }

    /// Pins, and returns the version that is held.
    fn pin(&mut self) -> Option<u64> {
        self.shelves.pin(&mut self.seat).ok()?;
        match self.seat.edition() {
            Some(edition) => Some(edition.version),
            None => None,
        }
    }

    /// The word of the current version, and the word of shelf 0.
    fn two_words(&self) -> (u64, u64) {
        (self.shelves.word(0), self.shelves.word(1))
    }
}

fn words_change<R: Abort>(rt: &R, solo: &mut Solo, image: Arc<Verified, Global>) {
    assert!(rt; solo.pin() == Some(1));
    assert!(rt; solo.two_words() == (8, 65793) && solo.seat.number() == 15);
    assert!(rt; solo.publish(image) == Ok(2));
    assert!(rt; solo.two_words() == (17, 66049));
}

/// The current version with its shelf, and shelf 0 with its count, before and after a version is published.
#[test]
fn words_of_shelves(rt: HostRuntime) -> Result<(), Fail> {
    let image = image(rt.alloc(), 2)?;
    let mut solo = Solo::new(rt.alloc())?;
    words_change(&rt, &mut solo, image);
    Ok(())
}

fn pin_fault_of(fault: PinFault) -> (u8, &'static str) {
    (fault.number(), fault.name())
}

fn publish_fault_of(fault: PublishFault) -> (u8, &'static str) {
    (fault.number(), fault.name())
}

#[test]
fn faults_have_numbers_and_names(rt: HostRuntime) {
    let full = PublishFault::ShelvesFull { counts: [1; 8] };
    let faults = [
        (pin_fault_of(PinFault::Moved { newest: 7 }), 91, "Moved"),
        (pin_fault_of(PinFault::AlreadyPinned), 92, "AlreadyPinned"),
        (pin_fault_of(PinFault::NotPinned), 93, "NotPinned"),
        (pin_fault_of(PinFault::SeatLost), 97, "SeatLost"),
        (pin_fault_of(PinFault::OutOfMemory), 98, "OutOfMemory"),
        (publish_fault_of(full), 94, "ShelvesFull"),
        (
            publish_fault_of(PublishFault::VersionsSpent),
            95,
            "VersionsSpent",
        ),
        (
            publish_fault_of(PublishFault::OutOfMemory),
            96,
            "OutOfMemory",
        ),
    ];
    for (reported, number, name) in faults.iter() {
        assert!(rt; *reported == (*number, *name), "{name}");
    }
}

/// Whether the image of the next second became the next version. Otherwise it must have come back for want of memory,
/// and the version that was current must stay so.
fn publishes_next<R: Wait + Abort>(
    rt: &R,
    shelves: &LockedShelves,
    loader: &mut LoaderSeat,
    seat: &mut WorkerSeat,
    current: u32,
    image: Arc<Verified, Global>,
) -> bool {
    let next = current.saturating_add(1);
    let answer = publish(rt, shelves, loader, image);
    if answer == Ok(u64::from(next)) {
        return true;
    }
    assert_eq!(rt; answer, Err((i64::from(next), PublishFault::OutOfMemory)));
    assert_eq!(rt; current_version(rt, shelves, seat), Ok(u64::from(current)));
    false
}

fn publish_seven<R: Wait + Abort>(
    rt: &R,
    alloc: Global,
    shelves: &LockedShelves,
    loader: &mut LoaderSeat,
    seat: &mut WorkerSeat,
) -> Result<(), Fail> {
    for current in 1..7u32 {
        let image = image(alloc, current.saturating_add(1))?;
        if !publishes_next(rt, shelves, loader, seat, current, image) {
            return Err(AllocError.into());
        }
    }
    Ok(())
}

/// Whichever growth is refused, the image comes back, and the version that was current stays so. A
/// refused growth ends the test with `AllocError`.
#[test]
fn refused_growth_gives_the_image_back(rt: HostRuntime) -> Result<(), Fail> {
    let alloc: Global = rt.alloc();
    match LockedShelves::new(alloc, image(alloc, 1)?) {
        Ok((shelves, mut loader, mut seats)) => match seats.pop() {
            Some(mut seat) => publish_seven(&rt, alloc, &shelves, &mut loader, &mut seat),
            None => Err("seats".into()),
        },
        Err(refused) => Err(unmade(refused)),
    }
}

/// The same for a publish without a lock.
fn publishes_openly<R: Abort>(
    rt: &R,
    solo: &mut Solo,
    image: Arc<Verified, Global>,
) -> Result<(), Fail> {
    let answer = solo.publish(image);
    if answer == Ok(2) {
        return Ok(());
    }
    assert_eq!(rt; answer, Err((2, PublishFault::OutOfMemory)));
    assert_eq!(rt; solo.pin(), Some(1));
    Err(AllocError.into())
}

#[test]
fn a_refused_growth_gives_the_image_back(rt: HostRuntime) -> Result<(), Fail> {
    let image = image(rt.alloc(), 2)?;
    let mut solo = Solo::new(rt.alloc())?;
    publishes_openly(&rt, &mut solo, image)
}
