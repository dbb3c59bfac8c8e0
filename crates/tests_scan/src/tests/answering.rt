//! Worked queries from stop 0 to stop 2, over images read in place and decoded. Points and journeys were worked out by
//! hand, and each journey is checked against the image.

mod rows;

ghost use Rattle.std.specs.Prelude.{◌<◌, length};
ghost use Rattle.profile_scan.specs.Found.{listed};

use super::images::{REPEATED, image};
use super::in_turn::InTurn;
use criteria::{Arrival, ArrivalTrips, Criterion, Figures, ShowsFigures};
use droppable_sources::{DroppableLog, decoded, in_place};
use image_layout::{sample_words, second_sample_words};
use image_verifier::Verified;
use journeys::{Answer, Window, answer_query, check, extract, journey_text, query_of};
use profile_scan::{Found, Scanned, laws, profile};
use sources::ConnSource;
use std::alloc::{AllocError, Global};
use std::process::Abort;
use std::test::*;
use timetable::{Journey, Query, QueryFault, Times};

/// From 07:00:00 until 09:00:00, by 10:00:00.
const ASKED: Query = Query {
    source: 0,
    target: 2,
    from: 25200,
    until: 32400,
    by: 36000,
};

/// The stops and loops of the sample, and no trips.
const NO_TRIPS: [u32; 24] = [
    0x50415343, 1, 3, 0, 0, 3, 3, 1705276800, 0, 0, 1, 2, 3, 0, 0, 1, 0, 2, 0, 0, 1, 2, 3,
    0x00434241,
];

/// The sample with a footpath of two minutes from stop 0 to stop 1.
pub const WITH_WALK: [u32; 49] = [
    0x50415343, 1, 3, 2, 3, 4, 7, 1705276800, 0, 0, 1, 28800, 29400, 0, 3, 1, 2, 29400, 30600, 0,
    3, 1, 2, 29520, 30000, 1, 3, 0, 1, 3, 4, 0, 0, 0, 120, 1, 0, 2, 0, 0, 1, 2, 3, 5, 7, 20240115,
    20240115, 0x54434241, 0x00325431,
];

/// The sample with footpaths of one minute from stop 0 to stop 1 and from stop 1 to stop 2, and of two minutes from
/// stop 0 to stop 2.
pub const WITH_CHAIN: [u32; 53] = [
    0x50415343, 1, 3, 2, 3, 6, 7, 1705276800, 0, 0, 1, 28800, 29400, 0, 3, 1, 2, 29400, 30600, 0,
    3, 1, 2, 29520, 30000, 1, 3, 0, 1, 3, 6, 0, 0, 0, 60, 1, 0, 0, 120, 1, 60, 2, 0, 0, 1, 2, 3, 5,
    7, 20240115, 20240115, 0x54434241, 0x00325431,
];

/// The sample with a third trip from stop 0 to stop 2, which is as fast as the change.
pub const WITH_DIRECT_TRIP: [u32; 56] = [
    0x50415343, 1, 3, 3, 4, 3, 9, 1705276800, 0, 0, 1, 28800, 29400, 0, 3, 0, 2, 28800, 30000, 2,
    3, 1, 2, 29400, 30600, 0, 3, 1, 2, 29520, 30000, 1, 3, 0, 1, 2, 3, 0, 0, 1, 0, 2, 0, 0, 1, 2,
    3, 5, 7, 9, 20240115, 20240115, 20240115, 0x54434241, 0x54325431, 0x00000033,
];

/// By a change at stop 1.
const CHANGE: &str = "ride 0 0 walk 1 1 0 ride 2 2";

/// By ten trips, one after the other.
const TEN_TRIPS: &str = "\
    ride 0 0 walk 1 1 0 ride 1 1 walk 2 2 0 ride 2 2 walk 3 3 0 ride 3 3 walk 4 4 0 ride 4 4 \
    walk 5 5 0 ride 5 5 walk 6 6 0 ride 6 6 walk 7 7 0 ride 7 7 walk 8 8 0 ride 8 8 walk 9 9 0 \
    ride 9 9";

/// The journey of the point at an index.
fn journey_at<C: Criterion>(alloc: Global, found: &Found<C>, index: usize) -> Result<Journey, Fail>
    requires { index < length (listed found.now) }
{
    Ok(extract(alloc, found, index)?)
}

/// When a journey that counts for a query departs and arrives.
fn times_of(image: &Verified, query: &Query, journey: &Journey) -> Result<Times, Fail> {
    let times = check(image, query, journey)
        .ok()
        .ok_or("the journey counts")?;
    Ok(times)
}

/// When the point at an index departs, and what is reported of its value.
fn figures_at<C: ShowsFigures>(criterion: &C, found: &Found<C>, index: usize) -> (u32, Figures)
    requires { index < length (listed found.now) }
{
    let point = found.point(index);
    (point.departure, criterion.figures_of(&point.value))
}

/// Whether a journey that arrives at this time has this value: its trips, if they are reported, are its rides.
pub fn is_worth(journey: &Journey, arrival: u32, figures: Figures) -> bool {
    let are_reported = match figures.trips {
        Some(trips) => trips as usize == journey.rides.len(),
        None => true,
    };
    figures.arrival == arrival && are_reported
}

/// Asserts that a journey departs and arrives at these times, and has this text.
fn assert_journey(
    rt: &impl Abort,
    alloc: Global,
    journey: &Journey,
    times: Times,
    expected: (u32, u32, &str),
) -> Result<(), Fail> {
    let (departure, arrival, text) = expected;
    assert!(rt; times.dep == departure && times.arr == arrival, "{text}");
    assert!(rt;
        journey_text(alloc, journey)?.as_slice() == text.as_bytes(),
        "{text}"
    );
    Ok(())
}

/// Asserts that the point at an index departs and arrives at these times, and that its journey counts for the query, is
/// worth as much, and has this text.
fn assert_point<C: ShowsFigures>(
    rt: &impl Abort,
    alloc: Global,
    image: &Verified,
    query: &Query,
    criterion: &C,
    found: &Found<C>,
    index: usize,
    expected: (u32, u32, &str),
) -> Result<(), Fail>
    requires { index < length (listed found.now) }
{
    let (departure, figures) = figures_at(criterion, found, index);
    let journey = journey_at(alloc, found, index)?;
    let times = times_of(image, query, &journey)?;
    assert!(rt; times.dep == departure && is_worth(&journey, times.arr, figures));
    assert_journey(rt, alloc, &journey, times, expected)
}

/// Asserts that the query has these points, each with its departure, its arrival and the text of its journey.
fn assert_answer<S: ConnSource, C: ShowsFigures + Scanned>(
    rt: &impl Abort,
    alloc: Global,
    image: &Verified,
    source: &mut S,
    criterion: &C,
    query: &Query,
    expected: &[(u32, u32, &str)],
) -> Result<(), Fail> {
    let stops = source.stops();
    query.check(stops).ok().ok_or("the query can be asked")?;
    let found = profile(alloc, source, criterion, query)?;
    assert!(rt; found.len() == expected.len());
    for (index, point) in expected.iter().enumerate() {
        assert_point(rt, alloc, image, query, criterion, &found, index, *point)?;
    }
    Ok(())
}

/// Asserts the same over an image in place, and over its lists decoded.
fn assert_answers<C: ShowsFigures + Scanned>(
    rt: &impl Abort,
    alloc: Global,
    words: &[u32],
    criterion: &C,
    query: &Query,
    expected: &[(u32, u32, &str)],
) -> Result<(), Fail> {
    let image = image(alloc, words)?;
    let mut words = in_place(&image);
    assert_answer(rt, alloc, &image, &mut words, criterion, query, expected)?;
    let mut lists = decoded(alloc, &image)?;
    assert_answer(rt, alloc, &image, &mut lists, criterion, query, expected)
}

/// The same under earliest arrival alone.
fn assert_arrivals(
    rt: &impl Abort,
    alloc: Global,
    words: &[u32],
    query: &Query,
    expected: &[(u32, u32, &str)],
) -> Result<(), Fail> {
    assert_answers(rt, alloc, words, &Arrival, query, expected)
}

fn until(until: u32) -> Query {
    Query { until, ..ASKED }
}

fn by(by: u32) -> Query {
    Query { by, ..ASKED }
}

/// A change is faster, and takes more trips. An image of the second layout gives the same answer as one of the first.
#[test]
fn by_a_change(rt: HostRuntime) -> Result<(), Fail> {
    let alloc = rt.alloc();
    let first = sample_words();
    let second = second_sample_words();
    let both = [(28800, 30000, CHANGE), (28800, 30600, "ride 0 1")];
    assert_arrivals(&rt, alloc, &first, &ASKED, &[(28800, 30000, CHANGE)])?;
    assert_answers(&rt, alloc, &first, &ArrivalTrips, &ASKED, &both)?;
    assert_answers(&rt, alloc, &second, &ArrivalTrips, &ASKED, &both)
}

/// Each repeat is a trip of its own: from 09:00:00 until 10:00:00 there are three departures, and from a second after
/// the second of them only the last.
#[test]
fn by_repeats(rt: HostRuntime) -> Result<(), Fail> {
    let alloc = rt.alloc();
    let asked = Query {
        from: 32400,
        until: 36000,
        by: 39600,
        ..ASKED
    };
    let legs = [
        (32400, 34200, "ride 1 2"),
        (33600, 35400, "ride 3 4"),
        (34800, 36600, "ride 5 6"),
    ];
    assert_answers(&rt, alloc, &REPEATED, &ArrivalTrips, &asked, &legs)?;
    let later = Query {
        from: 33601,
        ..asked
    };
    assert_answers(
        &rt,
        alloc,
        &REPEATED,
        &ArrivalTrips,
        &later,
        &[(34800, 36600, "ride 5 6")],
    )
}

/// Two minutes are just enough for the change.
#[test]
fn by_a_slow_change(rt: HostRuntime) -> Result<(), Fail> {
    let alloc = rt.alloc();
    let slow = "ride 0 0 walk 1 1 120 ride 2 2";
    let mut words = sample_words();
    words[34] = 120;
    assert_arrivals(&rt, alloc, &words, &ASKED, &[(28800, 30000, slow)])?;
    words[34] = 121;
    assert_arrivals(&rt, alloc, &words, &ASKED, &[(28800, 30600, "ride 0 1")])
}

/// The latest departure and the latest arrival belong to the window. A loop is no start.
#[test]
fn at_the_ends_of_the_window(rt: HostRuntime) -> Result<(), Fail> {
    let alloc = rt.alloc();
    let mut words = sample_words();
    let change = [(28800, 30000, CHANGE)];
    assert_arrivals(&rt, alloc, &words, &until(28799), &[])?;
    assert_arrivals(&rt, alloc, &words, &until(28800), &change)?;
    assert_arrivals(&rt, alloc, &words, &by(30000), &change)?;
    assert_arrivals(&rt, alloc, &words, &by(29999), &[])?;
    words[32] = 60;
    assert_arrivals(&rt, alloc, &words, &until(28799), &[])
}

#[test]
fn by_one_trip(rt: HostRuntime) -> Result<(), Fail> {
    let direct = [(28800, 30000, "ride 1 1")];
    assert_answers(
        &rt,
        rt.alloc(),
        &WITH_DIRECT_TRIP,
        &ArrivalTrips,
        &ASKED,
        &direct,
    )
}

/// Adds the words of ten connections, each of a trip of its own from a stop to the next.
fn add_rides(words: &mut Vec<u32>) -> Result<(), AllocError> {
    for trip in 0..10u32 {
        let departure = 28800 + 600 * trip;
        for word in [trip, trip + 1, departure, departure + 300, trip, 3] {
            words.push(word)?;
        }
    }
    Ok(())
}

/// Adds the words of a loop of no seconds for each of eleven stops.
fn add_loops(words: &mut Vec<u32>) -> Result<(), AllocError> {
    for first in 0..12u32 {
        words.push(first)?;
    }
    for stop in 0..11u32 {
        for word in [stop, 0] {
            words.push(word)?;
        }
    }
    Ok(())
}

/// An image of eleven stops in a row, with a trip from each to the next, and no names.
fn ten_trips(alloc: Global) -> Result<Vec<u32>, AllocError> {
    let mut words = Vec::new(alloc);
    for word in [0x50415343, 1, 11, 10, 10, 11, 0, 1705276800, 0] {
        words.push(word)?;
    }
    add_rides(&mut words)?;
    add_loops(&mut words)?;
    for _ in 0..22 {
        words.push(0)?;
    }
    for _ in 0..10 {
        words.push(20240115)?;
    }
    Ok(words)
}

/// Ten trips are more than there are lanes: labels and points go beyond them.
#[test]
fn by_ten_trips(rt: HostRuntime) -> Result<(), Fail> {
    let alloc = rt.alloc();
    let asked = Query {
        target: 10,
        ..ASKED
    };
    let words = ten_trips(alloc)?;
    let legs = [(28800, 34500, TEN_TRIPS)];
    assert_answers(&rt, alloc, &words, &ArrivalTrips, &asked, &legs)
}

#[test]
fn by_no_trip_at_all(rt: HostRuntime) -> Result<(), Fail> {
    assert_arrivals(&rt, rt.alloc(), &NO_TRIPS, &ASKED, &[])
}

#[test]
fn on_foot_to_the_first_trip(rt: HostRuntime) -> Result<(), Fail> {
    let alloc = rt.alloc();
    let late = [(29400, 30000, "walk 0 1 120 ride 2 2")];
    let early = [
        (28800, 30000, CHANGE),
        (29280, 30600, "walk 0 1 120 ride 1 1"),
    ];
    assert_arrivals(&rt, alloc, &WITH_WALK, &ASKED, &late)?;
    assert_arrivals(&rt, alloc, &WITH_WALK, &until(29399), &early)
}

#[test]
fn on_foot_from_the_last_trip(rt: HostRuntime) -> Result<(), Fail> {
    let walks = [
        (28800, 29460, "ride 0 0 walk 1 2 60"),
        (29460, 30000, "walk 0 1 60 ride 2 2"),
    ];
    assert_arrivals(&rt, rt.alloc(), &WITH_CHAIN, &ASKED, &walks)
}

/// Whether both answers have two points, and these have the same departures.
fn depart_together(found: &Found<ArrivalTrips>, others: &Found<ArrivalTrips>) -> bool {
    let (points, others) = (found.points(), others.points());
    if points.len() != 2 || others.len() != 2 {
        return false;
    }
    points[0].departure == others[0].departure && points[1].departure == others[1].departure
}

/// Whether an image in place and its lists decoded give such answers.
fn give_one_answer(alloc: Global, words: &[u32]) -> Result<bool, Fail> {
    let image = image(alloc, words)?;
    if ASKED.check(image.stops()).is_err() {
        return Ok(false);
    }
    let both = laws::both_sources(
        alloc,
        &image,
        &ArrivalTrips,
        &ASKED,
        DroppableLog::new(),
        DroppableLog::new(),
    )?;
    laws::found_answers(&both.found_in_place);
    Ok(depart_together(&both.found_in_place, &both.found_decoded))
}

/// The image in place and its lists decoded give as many points, with the same departures.
#[test]
fn both_sources_give_one_answer(rt: HostRuntime) -> Result<(), Fail> {
    assert!(rt; give_one_answer(rt.alloc(), &sample_words())?);
    assert!(rt; give_one_answer(rt.alloc(), &WITH_CHAIN)?);
    Ok(())
}

/// The answer of the one call that finds it.
fn answered<S: ConnSource, C: Scanned>(
    alloc: Global,
    source: &mut S,
    criterion: &C,
) -> Result<Answer<C>, Fail> {
    let stops = source.stops();
    ASKED.check(stops).ok().ok_or("the query can be asked")?;
    Ok(answer_query(alloc, source, criterion, &ASKED)?)
}

/// The seconds of the footpath from the source to the target, as an answer has it.
fn walk_beside(alloc: Global, words: &[u32]) -> Result<Option<u32>, Fail> {
    let image = image(alloc, words)?;
    Ok(answered(alloc, &mut in_place(&image), &Arrival)?.walk)
}

#[test]
fn a_walk_stands_beside(rt: HostRuntime) -> Result<(), Fail> {
    assert!(rt; walk_beside(rt.alloc(), &sample_words())? == None);
    assert!(rt; walk_beside(rt.alloc(), &WITH_CHAIN)? == Some(120));
    Ok(())
}

fn assert_named(rt: &impl Abort, image: &Verified) {
    let window = Window {
        from: 25200,
        until: 32400,
        by: 36000,
    };
    assert!(rt; query_of(image, b"A", b"D", window) == Err(QueryFault::UnknownStop));
    assert!(rt; query_of(image, b"A", b"A", window) == Err(QueryFault::SameStop));
    assert!(rt; query_of(image, b"A", b"C", window) == Ok(ASKED));
}

/// A query by the names of stops.
#[test]
fn by_names(rt: HostRuntime) -> Result<(), Fail> {
    assert_named(&rt, &image(rt.alloc(), &sample_words())?);
    Ok(())
}

/// Whether an answer to the sample read its three connections, and its second of two departures is that of the trip
/// without a change.
fn is_answered(alloc: Global, answer: &Answer<ArrivalTrips>) -> Result<bool, AllocError> {
    if answer.read != 3 || answer.departures.len() != 2 {
        return Ok(false);
    }
    let direct = &answer.departures[1];
    let text = journey_text(alloc, &direct.journey)?;
    let is_worth = direct.value.time == 30600 && direct.value.trips == 1;
    Ok(direct.time == 28800 && is_worth && text.as_slice() == b"ride 0 1".as_slice())
}

/// The one call answers with each departure, its value and its journey, and how many connections were read. Whichever
/// growth is refused, the error is that memory ran out: then the test ends with `AllocError`. Either way connections
/// were asked for in turn, from the last one on.
#[test]
fn refused_growth_is_reported(rt: HostRuntime) -> Result<(), Fail> {
    let alloc = rt.alloc();
    let image = image(alloc, &sample_words())?;
    let mut source = InTurn::of(in_place(&image));
    let answer = answered(alloc, &mut source, &ArrivalTrips);
    assert!(rt; source.in_turn);
    let answer = answer?;
    assert!(rt; source.left == 0 && is_answered(alloc, &answer)?);
    Ok(())
}
