//! Journeys as texts, judged against images. Transcripts of the whole program judge more of them.

use super::images::{REPEATED, image};
use image_verifier::Verified;
use journeys::JourneyFault::*;
use journeys::{JourneyFault, TextFault, check, journey_parse, journey_text};
use std::alloc::{AllocError, Global};
use std::process::Abort;
use std::test::*;
use timetable::{Journey, Query, Times};

fn asked([source, target, from, until, by]: [u32; 5]) -> Query {
    Query {
        source,
        target,
        from,
        until,
        by,
    }
}

fn judged(
    alloc: Global,
    image: &Verified,
    query: [u32; 5],
    text: &[u8],
) -> Result<Result<Times, JourneyFault>, Fail> {
    let journey = journey_parse(alloc, text)?;
    Ok(check(image, &asked(query), &journey))
}

/// Four stops, seven connections of four trips with all kinds of flags, and footpaths from A to B
/// and C and from B to C.
const TOWN: [u32; 83] = [
    0x50415343, 1, 4, 4, 7, 7, 0, 0, 0, 1, 3, 50, 60, 3, 3, 0, 1, 100, 200, 0, 1, 1, 2, 200, 300,
    0, 2, 2, 3, 300, 400, 0, 3, 1, 3, 320, 420, 1, 3, 2, 3, 350, 450, 2, 1, 3, 0, 500, 600, 2, 0,
    0, 1, 3, 6, 7, 0, 0, 0, 90, 1, 30, 0, 140, 1, 60, 2, 20, 3, 0, 0, 0, 0, 0, 0, 0, 0, 0, 0, 0, 0,
    0, 0,
];

/// In a window that ends before it begins, each fault comes before those of the window, as in any other.
#[test]
fn windows_that_end_before_they_begin(rt: HostRuntime) -> Result<(), Fail> {
    let image = image(rt.alloc(), &TOWN)?;
    let table = [
        ([1, 3, 120, 90, 310], "ride 0 0", OutsideWindow),
        ([1, 2, 120, 90, 310], "ride 0 2", TwoTrips(0)),
        ([0, 2, 120, 90, 310], "ride 0 0", WrongEnds),
    ];
    for (query, text, expected) in table.iter() {
        let figures = judged(rt.alloc(), &image, *query, text.as_bytes())?;
        assert_eq!(rt; figures.err(), Some(*expected), "{text}");
    }
    Ok(())
}

/// A leg stays within one repeat; going on with the next repeat is a change.
#[test]
fn from_repeat_to_repeat(rt: HostRuntime) -> Result<(), Fail> {
    let image = image(rt.alloc(), &REPEATED)?;
    let query = [0, 2, 32400, 36000, 39600];
    let through = judged(rt.alloc(), &image, query, b"ride 1 4")?;
    assert_eq!(rt; through, Err(TwoTrips(0)));
    let change = b"ride 1 1 walk 1 1 0 ride 4 4";
    let times = Times {
        dep: 32400,
        arr: 35400,
    };
    assert_eq!(rt; judged(rt.alloc(), &image, query, change)?, Ok(times));
    Ok(())
}

#[test]
fn no_leg_at_all(rt: HostRuntime) -> Result<(), Fail> {
    let image = image(rt.alloc(), &TOWN)?;
    let journey = Journey {
        start: None,
        rides: Vec::new(rt.alloc()),
    };
    assert_eq!(rt;
        check(&image, &asked([0, 2, 25200, 32400, 36000]), &journey),
        Err(LegRange(0))
    );
    Ok(())
}

/// From A to B in the first second, and from B to C up to the last one. A change at B takes 1,000,000 s.
const FAR: [u32; 39] = [
    0x50415343, 1, 3, 2, 2, 3, 0, 0, 0, 0, 1, 0, 1, 0, 3, 1, 2, 1999999000, 1999999999, 1, 3, 0, 1,
    2, 3, 0, 0, 1, 1000000, 2, 0, 0, 0, 0, 0, 0, 0, 0, 0,
];

/// The text of a ride to B, so many loops there, and `last`.
fn loops(alloc: Global, count: u32, last: &[u8]) -> Result<Vec<u8>, Fail> {
    let mut text = Vec::from_slice(alloc, b"ride 0 0")?;
    for _ in 0..count {
        text.extend_from_slice(b" walk 1 1 1000000")?;
    }
    text.extend_from_slice(last)?;
    Ok(text)
}

/// Asserts the verdict of each row on rides with so many loops.
fn assert_loops(
    rt: &impl Abort,
    alloc: Global,
    query: [u32; 5],
    last: &[u8],
    table: &[(u32, Result<Times, JourneyFault>)],
) -> Result<(), Fail> {
    let image = image(alloc, &FAR)?;
    for (count, expected) in table.iter() {
        let text = loops(alloc, *count, last)?;
        assert_eq!(rt; judged(alloc, &image, query, &text)?, *expected, "{count}");
    }
    Ok(())
}

/// The times of a journey from second 0 to this arrival.
fn until(arr: u32) -> Result<Times, JourneyFault> {
    Ok(Times { dep: 0, arr })
}

/// Walks whose sum would overflow 32 bits aren't taken for short ones.
#[test]
fn long_walks(rt: HostRuntime) -> Result<(), Fail> {
    let onward = [0, 2, 0, 4294967295, 4294967295];
    let table = [
        (1999, until(1999999999)),
        (2000, Err(TooEarly(1))),
        (4295, Err(TooEarly(1))),
    ];
    assert_loops(&rt, rt.alloc(), onward, b" ride 1 1", &table)?;
    let stay = [0, 1, 0, 4294967295, 4294967295];
    let table = [(4294, until(4294000001)), (4295, Err(OutsideWindow))];
    assert_loops(&rt, rt.alloc(), stay, b"", &table)
}

#[test]
fn texts_and_back(rt: HostRuntime) -> Result<(), Fail> {
    let table = [
        "ride 0 0",
        "ride 4294967295 10",
        "walk 0 1 90 ride 4 4",
        "ride 0 0 walk 1 1 0 walk 1 2 3 ride 2 2 walk 4 5 6 walk 6 7 4294967295",
    ];
    for text in table.iter() {
        let journey = journey_parse(rt.alloc(), text.as_bytes())?;
        let again = journey_text(rt.alloc(), &journey)?;
        assert_eq!(rt; again.as_slice(), text.as_bytes());
    }
    Ok(())
}

#[test]
fn a_text_has_no_end_of_a_line(rt: HostRuntime) {
    let fault = journey_parse(rt.alloc(), b"ride 0 0\n").err();
    assert_eq!(rt; fault, Some(TextFault::BadText));
}

/// If a growth is refused, the only error is that memory ran out: then the test ends with `AllocError`.
#[test]
fn refused_growth_of_a_text(rt: HostRuntime) -> Result<(), Fail> {
    match journey_parse(rt.alloc(), b"ride 0 0 walk 1 1 0 ride 2 2") {
        Ok(journey) => assert_eq!(rt; journey.rides.len(), 2),
        Err(fault) => {
            assert_eq!(rt; fault, TextFault::OutOfMemory);
            return Err(AllocError.into());
        }
    }
    Ok(())
}
