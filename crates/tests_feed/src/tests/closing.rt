//! Small lists of footpaths and their closures.

ghost use Rattle.std.specs.Prelude.{◌≡◌, ℕ, true};
ghost use Rattle.timetable.specs.Legal.{HasFootpath};
ghost use Rattle.footpaths.specs.Closure.{AreInRange, HasLoops};

use super::texts::{Case, Reporter, number, paths_of, paths_text, try_cases};
use footpaths::{FootFault, close, close_within};
use std::alloc::{AllocError, Global};
use std::process::Abort;
use std::test::Fail;
use timetable::Footpath;

// Whether each footpath joins two stops below `stops`.
fn are_in_range(listed: &[Footpath], stops: u32) -> bool
    ensures { result ≡ true → AreInRange listed.now stops }
{
    for path in listed {
        if path.from >= stops || path.to >= stops {
            return false;
        }
    }
    true
}

// Whether a stop has a loop.
fn has_loop(listed: &[Footpath], stop: u32) -> bool
    ensures { result ≡ true → (secs : ℕ) × HasFootpath listed.now stop stop secs }
{
    for path in listed {
        if path.from == stop && path.to == stop {
            return true;
        }
    }
    false
}

// Whether each stop has a loop.
fn has_loops(listed: &[Footpath], stops: u32) -> bool
    ensures { result ≡ true → HasLoops listed.now stops }
{
    for stop in 0..stops {
        if !has_loop(listed, stop) {
            return false;
        }
    }
    true
}

// The closure of footpaths, if they can be closed.
fn closed(
    rt: &impl Abort,
    alloc: Global,
    stops: u32,
    listed: &[Footpath],
) -> Result<Vec<Footpath>, FootFault> {
    assert!(rt; are_in_range(listed, stops));
    assert!(rt; has_loops(listed, stops));
    close(alloc, stops, listed)
}

// The closure within limits: at most `most` footpaths, each of at most 100 s.
fn closed_within(
    rt: &impl Abort,
    alloc: Global,
    stops: u32,
    listed: &[Footpath],
    most: usize,
) -> Result<Vec<Footpath>, FootFault> {
    assert!(rt; are_in_range(listed, stops));
    close_within(alloc, stops, listed, most, 100)
}

// A closure as a text, or its fault.
fn reported(alloc: Global, answer: Result<Vec<Footpath>, FootFault>) -> Result<String, AllocError> {
    match answer {
        Ok(paths) if paths.is_empty() => String::from_str(alloc, "none"),
        Ok(paths) => paths_text(alloc, &paths),
        Err(fault) => format!(in alloc; "{} {}", fault.number(), fault.name()),
    }
}

// The closure of listed footpaths as a text, or its fault. The head has the number of stops, as `3`, or also a bound,
// as `3 within 2`.
fn report_of(
    rt: &impl Abort,
    alloc: Global,
    head: &str,
    listed: &[Footpath],
) -> Result<String, Fail> {
    let answer = match head.split_once(" within ") {
        Some((stops, most)) => {
            let most = number(most)? as usize;
            closed_within(rt, alloc, number(stops)?, listed, most)
        }
        None => closed(rt, alloc, number(head)?, listed),
    };
    Ok(reported(alloc, answer)?)
}

// Numbers of stops with listed footpaths and their closures: among them walks of a million seconds, of one second more,
// and of so many that a 32-bit sum would overflow. If there is a bound, too many footpaths are the first fault.
const CLOSURES: &str = "
= 3
0 0 0, 1 1 0, 2 2 0, 0 1 60, 1 2 60
> 0 0 0, 0 1 60, 1 1 0, 0 2 120, 1 2 60, 2 2 0
= 3
0 0 0, 0 1 60, 1 1 0, 0 2 120, 1 2 60, 2 2 0
> 0 0 0, 0 1 60, 1 1 0, 0 2 120, 1 2 60, 2 2 0
= 2
1 1 0, 0 0 0
> 0 0 0, 1 1 0
= 2
0 0 180, 1 1 0, 0 1 60, 1 0 60
> 0 0 120, 1 0 60, 0 1 60, 1 1 0
= 4
3 3 7, 0 3 200, 0 3 100, 2 3 30, 1 2 20, 0 1 10, 2 2 1, 1 1 0, 0 0 0
> 0 0 0, 0 1 10, 1 1 0, 0 2 30, 1 2 20, 2 2 1, 0 3 60, 1 3 50, 2 3 30, 3 3 7
= 3
0 0 5, 1 1 0, 2 2 5, 0 1 0, 1 2 0, 2 0 0
> 0 0 0, 1 0 0, 2 0 0, 0 1 0, 1 1 0, 2 1 0, 0 2 0, 1 2 0, 2 2 0
= 0
> none
= 3
0 0 0, 1 1 0, 2 2 0, 0 1 400000, 1 2 600000
> 0 0 0, 0 1 400000, 1 1 0, 0 2 1000000, 1 2 600000, 2 2 0
= 3
0 0 0, 1 1 0, 2 2 0, 0 1 400001, 1 2 600000
> 41 WalkTooLong
= 3
0 0 0, 1 1 0, 2 2 0, 0 1 4294967295, 1 2 4294967295
> 41 WalkTooLong
= 3 within 3
0 1 40, 1 2 60
> 0 1 40, 0 2 100, 1 2 60
= 3 within 2
0 1 40, 1 2 60
> 42 TooManyFootpaths
= 3 within 3
0 1 41, 1 2 60
> 41 WalkTooLong
= 3 within 2
0 1 41, 1 2 60
> 42 TooManyFootpaths";

struct Closures;

impl Reporter for Closures {
    fn reported<R: Abort>(&self, rt: &R, alloc: Global, case: Case<'_>) -> Result<String, Fail> {
        let listed = paths_of(alloc, case.given)?;
        report_of(rt, alloc, case.head, &listed)
    }
}

#[test]
fn footpaths_are_closed(rt: HostRuntime) -> Result<(), Fail> {
    try_cases(&rt, rt.alloc(), CLOSURES, &Closures)
}

#[test]
fn faults_are_reported(rt: HostRuntime) -> Result<(), Fail> {
    assert!(rt; FootFault::WalkTooLong.number() == 41);
    assert!(rt; FootFault::TooManyFootpaths.name() == "TooManyFootpaths");
    let text = format!(in rt.alloc(); "{}", FootFault::OutOfMemory)?;
    assert!(rt; text.as_str() == "out of memory");
    Ok(())
}

// Whichever growth is refused, the fault is that memory ran out; otherwise the closure is returned. A refused growth
// ends the test with `AllocError`.
#[test]
fn refused_growth_is_reported(rt: HostRuntime) -> Result<(), Fail> {
    let listed = paths_of(rt.alloc(), "0 0 0, 1 1 0, 2 2 0, 0 1 60, 1 2 60")?;
    match closed(&rt, rt.alloc(), 3, &listed) {
        Ok(closure) => assert_eq!(rt; closure.len(), 6),
        Err(fault) => {
            assert_eq!(rt; fault, FootFault::OutOfMemory);
            return Err(AllocError.into());
        }
    }
    Ok(())
}
