//! Scripts: what is done at shelves, line by line, and after a colon the answer.
//!
//! | line | what is done |
//! |---|---|
//! | `pin SEAT` | the seat pins |
//! | `release SEAT` | the seat releases what it holds |
//! | `publish SECOND` | the image that begins at this second becomes the next version |
//! | `join SEAT` | the seat takes in the oldest notice that no seat took in |
//! | `collect` | each closing shelf is tried |
//! | `round SECOND` | `release 0`, `publish SECOND`, `collect`, `join 0` and `pin 0` |
//! | `each 0..6` | each of these seats pins, and then `publish SEAT + 2`, which makes version SEAT + 2 |
//!
//! Version 1 is the image that begins at second 1.

ghost use Rattle.std.specs.Prelude.{◌≡◌};
ghost use Rattle.std.specs.List.{All};

use super::stages::{Deed, LockedStage, NamedStage, Stage, named_stage};
use super::{new_shelves, open_shelves};
use epochs::*;
use std::alloc::{AllocError, Global};
use std::marker::Brand;
use std::process::Abort;
use std::sync::Wait;
use std::test::*;

/// Seven versions are held, and an eighth is current: no ninth can be published before one of the seven is given back.
const EIGHT_VERSIONS: &str = "\
each 0..6
pin 7: ok, 8 at 8
publish 9: workers are at every shelf but the current one: [1, 1, 1, 1, 1, 1, 1, 0]; 9 back
release 0: ok, nothing
publish 9: 9
pin 0: ok, 9 at 9
release 6: ok, nothing
pin 6: ok, 9 at 9";

/// A version stays while a seat holds it, and is collected once.
const A_HELD_VERSION: &str = "\
release 3: NotPinned, nothing
pin 3: ok, 1 at 1
publish 7: 2
collect: freed [false, false, false, false, false, false, false, false], busy [1, 0, 0, 0, 0, 0, 0, 0]
pin 3: AlreadyPinned, 1 at 1
release 3: ok, nothing
release 3: NotPinned, nothing
collect: freed [true, false, false, false, false, false, false, false], busy [0, 0, 0, 0, 0, 0, 0, 0]
collect: freed [false, false, false, false, false, false, false, false], busy [0, 0, 0, 0, 0, 0, 0, 0]
pin 3: ok, 2 at 7";

/// Two seats take in one notice each, one of them while it holds an older version, and each notice is overtaken by
/// later publishes.
const NOTICES: &str = "\
pin 1: ok, 1 at 1
publish 2: 2
publish 3: 3
publish 4: 4
join 0: notice of 2; ok, nothing
join 1: notice of 3; ok, 1 at 1
pin 0: ok, 4 at 4
release 1: ok, nothing
pin 1: ok, 4 at 4";

/// One worker, which takes in the notice of each version.
const ONE_WORKER: &str = "\
pin 0: ok, 1 at 1
round 2: ok, nothing; 2; freed [true, false, false, false, false, false, false, false], busy [0, 0, 0, 0, 0, 0, 0, 0]; \
notice of 2; ok, nothing; ok, 2 at 2
round 3: ok, nothing; 3; freed [false, true, false, false, false, false, false, false], busy [0, 0, 0, 0, 0, 0, 0, 0]; \
notice of 3; ok, nothing; ok, 3 at 3";

/// A seat that pinned at other shelves.
const OTHER_SHELVES: &str = "\
release 0: SeatLost, nothing
pin 0: SeatLost, nothing
pin 1: ok, 1 at 1";

/// Which script is played at shelves without a lock.
#[derive(Clone, Copy)]
enum Course {
    EightVersions,
    HeldVersion,
    Notices,
}

impl Course {
    fn script(self) -> &'static str {
        match self {
            Course::EightVersions => EIGHT_VERSIONS,
            Course::HeldVersion => A_HELD_VERSION,
            Course::Notices => NOTICES,
        }
    }
}

fn number(text: &str) -> Result<u32, Fail> {
    match text.parse() {
        Ok(number) => Ok(number),
        Err(_) => Err(Fail::new("a number of a script")),
    }
}

/// Adds an answer after those before it.
fn add(reported: &mut String, answer: Result<String, AllocError>) -> Result<(), AllocError> {
    let answer = answer?;
    if !reported.is_empty() {
        reported.push_str("; ")?;
    }
    reported.push_str(answer.as_str())
}

/// Adds what is noted of a round, one answer after another.
fn add_round<S: Stage, R: Wait>(
    rt: &R,
    stage: &mut S,
    second: u32,
    reported: &mut String,
) -> Result<(), AllocError> {
    add(reported, stage.call(rt, Deed::Release, 0))?;
    add(reported, stage.publish(rt, second))?;
    add(reported, stage.collect(rt))?;
    add(reported, stage.join(rt, 0))?;
    add(reported, stage.call(rt, Deed::Pin, 0))
}

fn round<S: Stage, R: Wait>(rt: &R, stage: &mut S, second: u32) -> Result<String, AllocError> {
    let mut reported = String::new(stage.alloc());
    add_round(rt, stage, second, &mut reported)?;
    Ok(reported)
}

/// Does what the text before the colon says, and tells the answer.
fn answer_of<S: Stage, R: Wait>(rt: &R, stage: &mut S, deed: &str) -> Result<String, Fail> {
    let (word, rest) = deed.split_once(' ').unwrap_or((deed, "0"));
    let number = number(rest)?;
    let answer = match word {
        "pin" => stage.call(rt, Deed::Pin, number as usize),
        "release" => stage.call(rt, Deed::Release, number as usize),
        "join" => stage.join(rt, number as usize),
        "publish" => stage.publish(rt, number),
        "round" => round(rt, stage, number),
        _ => stage.collect(rt),
    };
    Ok(answer?)
}

fn play_deed<S: Stage, R: Wait + Abort>(rt: &R, stage: &mut S, line: &str) -> Result<(), Fail> {
    let (deed, expected) = line.split_once(": ").unwrap_or((line, ""));
    let answer = answer_of(rt, stage, deed)?;
    assert_eq!(rt; answer.as_str(), expected, "{line}");
    Ok(())
}

/// The seat pins, and must get the version after its number.
fn play_pin<S: Stage, R: Wait + Abort>(rt: &R, stage: &mut S, seat: u32) -> Result<(), Fail> {
    let version = seat.saturating_add(1);
    let line = format!(in stage.alloc(); "pin {seat}: ok, {version} at {version}")?;
    play_deed(rt, stage, line.as_str())
}

/// Publishes this version.
fn play_publish<S: Stage, R: Wait + Abort>(rt: &R, stage: &mut S, next: u32) -> Result<(), Fail> {
    let line = format!(in stage.alloc(); "publish {next}: {next}")?;
    play_deed(rt, stage, line.as_str())
}

/// Each of these seats pins the version after its number, and then the next version is published.
fn play_each<S: Stage, R: Wait + Abort>(rt: &R, stage: &mut S, seats: &str) -> Result<(), Fail> {
    let (first, last) = seats.split_once("..").unwrap_or((seats, ""));
    for seat in number(first)?..number(last)?.saturating_add(1) {
        play_pin(rt, stage, seat)?;
        play_publish(rt, stage, seat.saturating_add(2))?;
    }
    Ok(())
}

fn play_line<S: Stage, R: Wait + Abort>(rt: &R, stage: &mut S, line: &str) -> Result<(), Fail> {
    let (word, rest) = line.split_once(' ').unwrap_or((line, ""));
    match word {
        "each" => play_each(rt, stage, rest),
        _ => play_deed(rt, stage, line),
    }
}

pub(crate) fn play<S: Stage, R: Wait + Abort>(
    rt: &R,
    stage: &mut S,
    script: &str,
) -> Result<(), Fail> {
    for line in script.split('\n') {
        play_line(rt, stage, line)?;
    }
    Ok(())
}

fn play_under_a_lock<R: Wait + Abort>(rt: &R, alloc: Global, script: &str) -> Result<(), Fail> {
    let mut stage = LockedStage::new(alloc)?;
    play(rt, &mut stage, script)
}

fn play_at<B: ShelvesName, R: Wait + Abort>(
    rt: &R,
    alloc: Global,
    shelves: Shelves,
    loader: ShelfLoader,
    seats: Vec<ShelfSeat>,
    course: Course,
) -> Result<(), Fail>
    requires { (shelves ≡ B.table) × (loader.table ≡ B.table) × All (λ seat. seat.table ≡ B.table) seats.items }
{
    let mut stage = named_stage::<B>(alloc, shelves, loader, seats)?;
    play(rt, &mut stage, course.script())
}

fn play_without_a_lock<R: Wait + Abort>(rt: &R, alloc: Global, course: Course) -> Result<(), Fail> {
    match new_shelves(alloc) {
        Ok((shelves, loader, seats)) => {
            play_at::<Brand, R>(rt, alloc, shelves, loader, seats, course)
        }
        Err(refused) => Err(refused),
    }
}

fn play_alone<B: ShelvesName, R: Wait + Abort>(
    rt: &R,
    alloc: Global,
    shelves: Shelves,
    loader: ShelfLoader,
    seat: ShelfSeat,
) -> Result<(), Fail>
    requires { (shelves ≡ B.table) × (loader.table ≡ B.table) × (seat.table ≡ B.table) }
{
    let (shelves, loader, seat) = NamedShelves::<B>::with_seat(shelves, loader, seat);
    let mut stage = NamedStage::of(alloc, shelves, loader, Vec::new(alloc));
    stage.seats.push(seat)?;
    play(rt, &mut stage, ONE_WORKER)
}

#[test]
fn scripts_under_a_lock(rt: HostRuntime) -> Result<(), Fail> {
    for script in [EIGHT_VERSIONS, A_HELD_VERSION] {
        play_under_a_lock(&rt, rt.alloc(), script)?;
    }
    Ok(())
}

#[test]
fn scripts_without_a_lock(rt: HostRuntime) -> Result<(), Fail> {
    for course in [Course::EightVersions, Course::HeldVersion, Course::Notices] {
        play_without_a_lock(&rt, rt.alloc(), course)?;
    }
    Ok(())
}

#[test]
fn a_script_for_one_worker(rt: HostRuntime) -> Result<(), Fail> {
    let alloc: Global = rt.alloc();
    match open_shelves(alloc) {
        Ok((shelves, loader, seat)) => play_alone::<Brand, _>(&rt, alloc, shelves, loader, seat),
        Err(refused) => Err(refused),
    }
}

/// Two stages under a lock.
fn two_stages(alloc: Global) -> Result<(LockedStage, LockedStage), Fail> {
    let first = LockedStage::new(alloc)?;
    Ok((first, LockedStage::new(alloc)?))
}

fn play_at_others<R: Wait + Abort>(
    rt: &R,
    first: &mut LockedStage,
    second: &mut LockedStage,
) -> Result<(), Fail> {
    play(rt, first, "pin 0: ok, 1 at 1")?;
    first.change_shelves(second);
    play(rt, first, OTHER_SHELVES)
}

/// At other shelves, the worker of a seat is in another state than the seat knows.
#[test]
fn a_seat_of_other_shelves(rt: HostRuntime) -> Result<(), Fail> {
    let (mut first, mut second) = two_stages(rt.alloc())?;
    play_at_others(&rt, &mut first, &mut second)
}

fn pin_at_others<R: Wait + Abort>(
    rt: &R,
    first: &mut LockedStage,
    second: &mut LockedStage,
) -> Result<(), Fail> {
    first.change_shelves(second);
    play(rt, first, "pin 0: ok, 1 at 1")?;
    first.change_shelves(second);
    play(rt, second, "pin 0: SeatLost, nothing")?;
    play(rt, first, "release 0: SeatLost, nothing")
}

/// A seat of the first shelves pins at the second, where its worker is free. So the second's own
/// seat of that worker is lost, and the first shelves know nothing of what their seat holds.
#[test]
fn a_pin_at_other_shelves(rt: HostRuntime) -> Result<(), Fail> {
    let (mut first, mut second) = two_stages(rt.alloc())?;
    pin_at_others(&rt, &mut first, &mut second)
}
