//! Queries between sets of stops: worked rows.

use super::images::image;
use criteria::{Arrival, ShowsFigures};
use droppable_sources::in_place;
use image_verifier::Verified;
use profile_scan::{FoundBetween, SetQuery, profile_between};
use station_answers::check_between;
use std::alloc::{AllocError, Global};
use std::test::*;
use timetable::Footpath;

/// The query between these stops.
fn between(
    alloc: Global,
    sources: &[u32],
    targets: &[u32],
    window: [u32; 3],
) -> Result<SetQuery, AllocError> {
    Ok(SetQuery {
        sources: sources.to_vec(alloc)?,
        targets: targets.to_vec(alloc)?,
        from: window[0],
        until: window[1],
        by: window[2],
    })
}

/// The answer between the sets, if it can be asked for.
fn found_between(
    alloc: Global,
    image: &Verified,
    asked: &SetQuery,
) -> Result<FoundBetween<Arrival>, Fail> {
    match check_between(asked, image.stops()) {
        Ok(()) => Ok(profile_between(alloc, &mut in_place(image), &Arrival, asked)?),
        Err(_) => Err(Fail::new("it can be asked")),
    }
}

/// From 0 one walks 10 s to 2, and from 1 a minute; a trip goes from 2 to 3.
const NEAR_AND_FAR: [u32; 39] = [
    0x50415343, 1, 4, 1, 1, 6, 0, 0, 0, 2, 3, 100, 200, 0, 3, 0, 1, 2, 5, 6, 0, 0, 1, 0, 0, 10, 1,
    60, 2, 0, 3, 0, 0, 0, 0, 0, 0, 0, 0,
];

/// From 1 one walks a minute to 0; a trip goes from 0 to 2.
const BY_ANOTHER: [u32; 33] = [
    0x50415343, 1, 3, 1, 1, 4, 0, 0, 0, 0, 2, 100, 200, 0, 3, 0, 2, 3, 4, 0, 0, 1, 60, 1, 0, 2, 0,
    0, 0, 0, 0, 0, 0,
];

/// A change at 0 takes a minute, and so does one at 1; a trip goes from 0 to 1, and no footpath to 2.
const WITH_LOOPS: [u32; 31] = [
    0x50415343, 1, 3, 1, 1, 3, 0, 0, 0, 0, 1, 100, 200, 0, 3, 0, 1, 2, 3, 0, 60, 1, 60, 2, 0, 0, 0,
    0, 0, 0, 0,
];

/// From 0 and from 1 one walks to 2 and to 3, in half a minute each.
const EQUAL_WALKS: [u32; 35] = [
    0x50415343, 1, 4, 0, 0, 8, 0, 0, 0, 0, 1, 2, 5, 8, 0, 0, 1, 0, 0, 30, 1, 30, 2, 0, 0, 30, 1,
    30, 3, 0, 0, 0, 0, 0, 0,
];

/// The departures and arrivals between these stops by 300 s.
fn times_between(
    alloc: Global,
    words: &[u32],
    sources: &[u32],
    targets: &[u32],
    until: u32,
) -> Result<Vec<(u32, u32)>, Fail> {
    let image = image(alloc, words)?;
    let asked = between(alloc, sources, targets, [0, until, 300])?;
    let found = found_between(alloc, &image, &asked)?;
    let mut times = Vec::new(alloc);
    for index in 0..found.len() {
        let point = found.point(index);
        times.push((point.departure, Arrival.figures_of(&point.value).arrival))?;
    }
    Ok(times)
}

#[test]
fn each_source_sets_out_by_itself(rt: HostRuntime) -> Result<(), Fail> {
    let alloc = rt.alloc();
    // the nearer source departs too late
    assert_eq!(rt;
        times_between(alloc, &NEAR_AND_FAR, &[0, 1], &[3], 50)?.as_slice(),
        [(40, 200)].as_slice()
    );
    assert_eq!(rt;
        times_between(alloc, &NEAR_AND_FAR, &[0, 1], &[3], 300)?.as_slice(),
        [(90, 200)].as_slice()
    );
    // from one source one may walk to another
    assert_eq!(rt;
        times_between(alloc, &BY_ANOTHER, &[0, 1], &[2], 50)?.as_slice(),
        [(40, 200)].as_slice()
    );
    assert_eq!(rt;
        times_between(alloc, &BY_ANOTHER, &[0, 1], &[2], 300)?.as_slice(),
        [(100, 200)].as_slice()
    );
    // but a loop is no start
    assert_eq!(rt;
        times_between(alloc, &WITH_LOOPS, &[0], &[1], 50)?.as_slice(),
        [].as_slice()
    );
    Ok(())
}

#[test]
fn a_journey_that_is_at_a_target_ends_there(rt: HostRuntime) -> Result<(), Fail> {
    assert_eq!(rt;
        times_between(rt.alloc(), &WITH_LOOPS, &[0], &[2, 1], 300)?.as_slice(),
        [(100, 200)].as_slice()
    );
    Ok(())
}

/// The direct walk between these stops.
fn walk_between(alloc: Global, sources: &[u32], targets: &[u32]) -> Result<Option<Footpath>, Fail> {
    let image = image(alloc, &EQUAL_WALKS)?;
    let asked = between(alloc, sources, targets, [0, 300, 300])?;
    let found = found_between(alloc, &image, &asked)?;
    Ok(found.direct_walk())
}

/// A footpath of half a minute.
fn half_a_minute(from: u32, to: u32) -> Option<Footpath> {
    Some(Footpath { from, to, secs: 30 })
}

#[test]
fn of_equal_walks_the_first_is_told(rt: HostRuntime) -> Result<(), Fail> {
    let alloc = rt.alloc();
    assert_eq!(rt; walk_between(alloc, &[0, 1], &[2, 3])?, half_a_minute(0, 2));
    assert_eq!(rt; walk_between(alloc, &[1, 0], &[3, 2])?, half_a_minute(1, 3));
    assert_eq!(rt; walk_between(alloc, &[0], &[1])?, None);
    Ok(())
}
