//! Both sources over two small images; their answers were worked out by hand.

ghost use Rattle.std.specs.Prelude.{◌<◌};

use super::images::image;
use droppable_sources::{DroppableLog, decoded, in_place};
use image_layout::sample_words;
use image_verifier::{Departures, Verified, first_departure};
use sources::{ConnSource, InPlace};
use std::mem::size_of;
use std::process::Abort;
use std::test::*;
use timetable::{Connection, Footpath};

/// Two stops, two trips, three connections, and walks of 300 and 240 seconds between the stops.
const EARLY: [u32; 48] = [
    0x50415343, 1, 2, 2, 3, 4, 9, 4294880896, 4294967295, 0, 1, 10, 20, 1, 1, 1, 0, 30, 50, 1, 2,
    1, 0, 40, 60, 0, 3, 0, 2, 4, 0, 120, 1, 300, 0, 240, 1, 90, 0, 0, 4, 6, 9, 19691231, 19700101,
    0x74726f50, 0x42413231, 0x00000043,
];

fn footpath(from: u32, to: u32, secs: u32) -> Footpath {
    Footpath { from, to, secs }
}

/// The second connection of the sample.
const SECOND: Connection = Connection {
    from: 1,
    to: 2,
    dep: 29400,
    arr: 30600,
    trip: 0,
    board: true,
    alight: true,
};

/// The departure of the last connection.
fn last_departure<S: ConnSource>(source: &mut S) -> Option<u32> {
    let count = source.len();
    if count == 0 {
        return None;
    }
    Some(source.connection(count - 1).dep)
}

/// The seconds of the footpath from a stop into a stop.
fn seconds<S: ConnSource>(source: &S, from: u32, to: usize) -> Option<u32>
    requires { to < (S.timetable source.now).stops }
{
    let (first, end) = source.walks_into(to);
    for index in first..end {
        let footpath = source.footpath_into(to, index);
        if footpath.from == from {
            return Some(footpath.secs);
        }
    }
    None
}

// Asserts that a source has the sample.
fn assert_sample<S: ConnSource>(rt: &impl Abort, source: &mut S) {
    assert!(rt; source.stops() == 3);
    assert!(rt; source.trips() == 2);
    assert!(rt; source.len() == 3);
    assert!(rt; source.connection(1) == SECOND);
    let (first, end) = source.walks_into(2);
    assert!(rt; first == 2);
    assert!(rt; end == 3);
    assert!(rt; source.footpath(2) == footpath(2, 2, 0));
    assert!(rt; seconds(source, 2, 2) == Some(0) && last_departure(source) == Some(29520));
}

#[test]
fn the_sample_is_read(rt: HostRuntime) -> Result<(), Fail> {
    let image = image(rt.alloc(), &sample_words())?;
    assert_sample(&rt, &mut in_place(&image));
    assert_sample(&rt, &mut decoded(rt.alloc(), &image)?);
    Ok(())
}

#[test]
fn a_log_takes_no_bytes(rt: HostRuntime) {
    assert_eq!(rt;
        size_of::<InPlace<'static, DroppableLog>>(),
        size_of::<(&'static Verified, &'static [u32], &'static [u32])>()
    );
}

// Asserts the footpaths between two stops, and for some times the index of the first connection that departs then or
// later.
fn assert_early<S: ConnSource>(rt: &impl Abort, source: &S) {
    assert!(rt; source.stops() == 2);
    assert!(rt; source.walks_into(0) == (0, 2));
    assert!(rt; seconds(source, 1, 0) == Some(300) && seconds(source, 0, 1) == Some(240));
    for (time, first) in [(0, 0), (10, 0), (11, 1), (30, 1), (31, 2), (40, 2), (41, 3)] {
        assert!(rt; source.first_at(time) == first, "at {time}");
    }
}

#[test]
fn footpaths_and_departures(rt: HostRuntime) -> Result<(), Fail> {
    let image = image(rt.alloc(), &EARLY)?;
    assert_early(&rt, &in_place(&image));
    assert_early(&rt, &decoded(rt.alloc(), &image)?);
    assert!(rt; first_departure(&mut Departures::of(&image), 31) == 2);
    Ok(())
}

/// Whichever growth is refused, the error is that memory ran out; otherwise the lists are returned. A refused growth
/// ends the test with `AllocError`.
#[test]
fn refused_growth_is_reported(rt: HostRuntime) -> Result<(), Fail> {
    let image = image(rt.alloc(), &EARLY)?;
    let mut source = decoded(rt.alloc(), &image)?;
    assert!(rt; source.len() == 3 && last_departure(&mut source) == Some(40));
    Ok(())
}
