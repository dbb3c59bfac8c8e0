//! A server whose versions are held by other seats too: what happens when the loader finds no free shelf, and that a
//! client that goes away gives its version back.

ghost use Rattle.std.specs.Prelude.{◌≡◌, All, IfOk};

use super::{EndCounts, Manner, Row, Shared, Visitor, count_ends, visitor_of};
use image_layout::sample_words;
use image_verifier::{Verified, verify};
use load_orders::GhostList;
use orders::OpenGate;
use shelves::{ShelfLoader, ShelfSeat, Shelves};
use std::alloc::{AllocError, Global};
use std::marker::Brand;
use std::process::Abort;
use std::sync::{Arc, Mutex, Wait};
use std::test::Fail;
use std::thread::Threads;
use workers::{PointForm, ReplyForm};

/// Shelves, the loader's seat and the workers' seats.
#[derive(Drop)]
pub(super) struct Stage {
    pub(super) shelves: Shelves,
    pub(super) loader: ShelfLoader,
    pub(super) seats: Vec<ShelfSeat>,
}

fn sample(alloc: Global) -> Result<Arc<Verified, Global>, AllocError> {
    let Ok(image) = verify(alloc, sample_words().to_vec(alloc)?) else {
        return Err(AllocError);
    };
    match Arc::new(alloc, image) {
        Ok(shared) => Ok(shared),
        Err(_) => Err(AllocError),
    }
}

/// New shelves with the sample.
pub(super) fn stage_of(alloc: Global) -> Result<Stage, AllocError>
    ensures loader { IfOk result (λ stage. stage.loader.table ≡ stage.shelves) }
    ensures seats { IfOk result (λ stage. All (λ seat. seat.table ≡ stage.shelves) stage.seats.items) }
{
    match Shelves::new(alloc, sample(alloc)?) {
        Ok((shelves, loader, seats)) => Ok(Stage {
            shelves,
            loader,
            seats,
        }),
        Err(_) => Err(AllocError),
    }
}

/// The seat pins the current version, and the sample becomes the next one; whether both succeeded.
fn hold(
    shelves: &Shelves,
    loader: &mut ShelfLoader,
    seat: &mut ShelfSeat,
    image: Arc<Verified, Global>,
) -> bool
    requires { (loader.old.table ≡ shelves.now) × (seat.old.table ≡ shelves.now) }
    ensures { loader.new.table ≡ shelves.now }
{
    let is_pinned = shelves.pin(seat).is_ok();
    let is_published = shelves.publish(loader, image).is_ok();
    is_pinned && is_published
}

/// Each of these seats holds a version of its own, in order, and goes to `held`; whether all succeeded.
fn hold_all(
    alloc: Global,
    shelves: &Shelves,
    loader: &mut ShelfLoader,
    seats: Vec<ShelfSeat>,
    held: &mut Vec<ShelfSeat>,
) -> Result<bool, AllocError>
    requires loader { loader.old.table ≡ shelves.now }
    requires seats { All (λ seat. seat.table ≡ shelves.now) seats.items }
    ensures { loader.new.table ≡ shelves.now }
{
    let mut is_held = true;
    for mut seat in seats {
        is_held = hold(shelves, loader, &mut seat, sample(alloc)?) && is_held;
        held.push(seat)?;
    }
    Ok(is_held)
}

/// Serves visitors, the last first, at one seat: how their sessions ended, and what was written to the errors.
fn serve_at<R: Threads + Wait + Sync + Abort>(
    rt: &R,
    alloc: Global,
    visitors: Vec<Visitor<'_, R>>,
    shelves: Shelves,
    loader: ShelfLoader,
    seat: ShelfSeat,
) -> Result<(EndCounts, Vec<u8>), Fail>
    requires { (loader.table ≡ shelves) × (seat.table ≡ shelves) }
{
    let seats = vec![in alloc; seat]?;
    let reported = Mutex::new(Vec::new(alloc));
    let row = Row {
        visitors,
        came: GhostList::none(),
    };
    let errors = Shared {
        rt,
        bytes: &reported,
        is_gone: false,
    };
    let counts = count_ends::<Brand, _, _, _, _, _>(
        rt,
        alloc,
        row,
        shelves,
        seats,
        loader,
        &OpenGate,
        ReplyForm::of(PointForm::Bare),
        errors,
    )?;
    Ok((counts, reported.into_inner()))
}

/// The same while so many other seats each hold a version of their own, from version 1 on.
fn serve_beside<R: Threads + Wait + Sync + Abort>(
    rt: &R,
    alloc: Global,
    visitors: Vec<Visitor<'_, R>>,
    count: usize,
) -> Result<(EndCounts, Vec<u8>), Fail> {
    let Stage {
        shelves,
        mut loader,
        mut seats,
    } = stage_of(alloc)?;
    let Some(seat) = seats.pop() else {
        return Err("a seat".into());
    };
    seats.truncate(count);
    let mut held = Vec::new(alloc);
    assert!(rt; hold_all(alloc, &shelves, &mut loader, seats, &mut held)?);
    serve_at(rt, alloc, visitors, shelves, loader, seat)
}

/// Serves clients with these requests and manners, the last first, while so many seats hold versions: how their
/// sessions ended, what was replied, and what was written to the errors.
fn asking_beside<R: Threads + Wait + Sync + Abort>(
    rt: &R,
    alloc: Global,
    asking: &[(&'static str, Manner)],
    count: usize,
) -> Result<(EndCounts, Vec<u8>, Vec<u8>), Fail> {
    let bytes = Mutex::new(Vec::new(alloc));
    let mut visitors = Vec::new(alloc);
    for (requests, manner) in asking {
        visitors.push(visitor_of(rt, *requests, *manner, &bytes))?;
    }
    let (counts, reported) = serve_beside(rt, alloc, visitors, count)?;
    Ok((counts, bytes.into_inner(), reported))
}

const PIN: &str = "{\"do\":\"pin\"}\n";

/// Two loads that are waited for, and then a pin.
const LOADS: &str = "\
{\"do\":\"load\",\"feed\":\"slow\",\"wait\":true}
{\"do\":\"load\",\"feed\":\"slow\",\"wait\":true}
{\"do\":\"pin\"}
";

/// The replies if no shelf is free: version 8 stays current, with the image that it had.
const REFUSED: &str = "\
{\"error\":120,\"name\":\"LoadRefused\",\"refusal\":94}
{\"error\":120,\"name\":\"LoadRefused\",\"refusal\":94}
{\"base\":1705276800,\"ok\":\"pin\",\"version\":8}
";

/// What the loader writes about that: after each of its lines one with the feed's index and the number.
const FULL: &str = "\
load slow refused 94 ShelvesFull 1 1 1 1 1 1 1 0
0: 94
load slow refused 94 ShelvesFull 1 1 1 1 1 1 1 0
0: 94
";

/// Versions 1 to 7 are held by seven seats, and version 8 is current: a load finds no free shelf. Its image isn't
/// published, and a seat that pins then gets version 8 as before.
#[test]
fn a_load_meets_full_shelves(rt: HostRuntime) -> Result<(), Fail> {
    let asking = [(LOADS, Manner::Reads)];
    let (counts, replies, reported) = asking_beside(&rt, rt.alloc(), &asking, 7)?;
    assert_eq!(&rt; counts.ended, 1);
    assert_eq!(&rt; str::from_utf8(&replies).unwrap_or("?"), REFUSED);
    assert_eq!(&rt; str::from_utf8(&reported).unwrap_or("?"), FULL);
    Ok(())
}

/// The replies if one shelf is free, and another once nobody is at version 7. The second load is for 20240116.
const LOADED_TWICE: &str = "\
{\"feed\":\"slow\",\"ok\":\"load\",\"version\":8}
{\"feed\":\"slow\",\"ok\":\"load\",\"version\":9}
{\"base\":1705363200,\"ok\":\"pin\",\"version\":9}
";

/// Versions 1 to 6 are held by six seats. A client pins version 7 and goes away: its session fails, and no worker is at
/// that version any more. So the shelf of version 7 is freed after version 8 took the last free one, and version 9 gets
/// it.
#[test]
fn a_client_that_went_away_holds_nothing(rt: HostRuntime) -> Result<(), Fail> {
    let asking = [(LOADS, Manner::Reads), (PIN, Manner::GoesAway)];
    let (counts, replies, reported) = asking_beside(&rt, rt.alloc(), &asking, 6)?;
    assert_eq!(&rt; counts.ended, 1);
    assert_eq!(&rt; counts.failed, 1);
    assert_eq!(&rt; str::from_utf8(&replies).unwrap_or("?"), LOADED_TWICE);
    assert_eq!(&rt;
        str::from_utf8(&reported).unwrap_or("?"),
        "loaded slow version 8\n0: 8 3 2 3\nloaded slow version 9\n0: 9 3 0 0\n"
    );
    Ok(())
}
