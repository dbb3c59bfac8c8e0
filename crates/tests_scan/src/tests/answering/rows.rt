//! Worked queries through the one call that answers them, over an image in place and over its lists decoded. The texts
//! of the answers were worked out by hand.

use super::{ASKED, NO_TRIPS, WITH_CHAIN, WITH_DIRECT_TRIP, WITH_WALK, by, until};
use crate::tests::images::{REPEATED, image};
use criteria::{Arrival, ArrivalTrips, ArrivalTripsWalk, ShowsFigures};
use droppable_sources::{decoded, in_place};
use image_layout::{sample_words, second_sample_words};
use journeys::{Answer, Departure, answer_query, journey_string};
use profile_scan::Scanned;
use sources::ConnSource;
use std::alloc::{AllocError, Global};
use std::process::Abort;
use std::test::*;
use timetable::{Clock, Query};

/// The words of an image, a query, and the text of its answer.
type Row<'a> = (&'a [u32], Query, &'a str);

/// The sample with a footpath of 900 seconds from stop 1 to stop 2.
const WITH_LONG_WALK: [u32; 49] = [
    0x50415343, 1, 3, 2, 3, 4, 7, 1705276800, 0, 0, 1, 28800, 29400, 0, 3, 1, 2, 29400, 30600, 0,
    3, 1, 2, 29520, 30000, 1, 3, 0, 1, 2, 4, 0, 0, 1, 0, 1, 900, 2, 0, 0, 1, 2, 3, 5, 7, 20240115,
    20240115, 0x54434241, 0x00325431,
];

/// By a change at stop 1.
const CHANGE: &str = "\
dep 08:00:00 arr 08:20:00 : ride 0 0 walk 1 1 0 ride 2 2
points 1 read 3 walk none";

/// The same where a change there takes two minutes.
const SLOW_CHANGE: &str = "\
dep 08:00:00 arr 08:20:00 : ride 0 0 walk 1 1 120 ride 2 2
points 1 read 3 walk none";

/// By one trip.
const DIRECT: &str = "\
dep 08:00:00 arr 08:30:00 : ride 0 1
points 1 read 3 walk none";

/// On foot to a trip.
const WALKED_START: &str = "\
dep 08:10:00 arr 08:20:00 : walk 0 1 120 ride 2 2
points 1 read 3 walk none";

/// Two trips that one can still reach in time: the second is reached on foot.
const EARLY_STARTS: &str = "\
dep 08:00:00 arr 08:20:00 : ride 0 0 walk 1 1 0 ride 2 2
dep 08:08:00 arr 08:30:00 : walk 0 1 120 ride 1 1
points 2 read 3 walk none";

/// On foot from a trip, or to one, beside the footpath for the whole way.
const BESIDE_A_WALK: &str = "\
dep 08:00:00 arr 08:11:00 : ride 0 0 walk 1 2 60
dep 08:11:00 arr 08:20:00 : walk 0 1 60 ride 2 2
points 2 read 3 walk 120";

const NONE: &str = "points 0 read 3 walk none";

const NOTHING: &str = "points 0 read 0 walk none";

/// A change is faster, and takes more trips.
const BOTH: &str = "\
dep 08:00:00 arr 08:20:00 trips 2 : ride 0 0 walk 1 1 0 ride 2 2
dep 08:00:00 arr 08:30:00 trips 1 : ride 0 1
points 2 read 3 walk none";

/// A trip that is as fast as the change.
const FAST_TRIP: &str = "\
dep 08:00:00 arr 08:20:00 trips 1 : ride 1 1
points 1 read 4 walk none";

/// Three repeats.
const REPEATS: &str = "\
dep 09:00:00 arr 09:30:00 trips 1 : ride 1 2
dep 09:20:00 arr 09:50:00 trips 1 : ride 3 4
dep 09:40:00 arr 10:10:00 trips 1 : ride 5 6
points 3 read 6 walk none";

/// A long walk saves a trip, and one more trip saves the walk.
const LONG_WALK: &str = "\
dep 08:00:00 arr 08:20:00 trips 2 walked 0 : ride 0 0 walk 1 1 0 ride 2 2
dep 08:00:00 arr 08:25:00 trips 1 walked 900 : ride 0 0 walk 1 2 900
dep 08:00:00 arr 08:30:00 trips 1 walked 0 : ride 0 1
points 3 read 3 walk none";

/// A change on foot.
const WALKED_CHANGE: &str = "\
dep 08:00:00 arr 08:20:00 trips 2 walked 60 : ride 0 0 walk 1 1 60 ride 2 2
dep 08:00:00 arr 08:30:00 trips 1 walked 0 : ride 0 1
points 2 read 3 walk none";

/// From 09:00:00 until 10:00:00, by 11:00:00.
const LATER: Query = Query {
    source: 0,
    target: 2,
    from: 32400,
    until: 36000,
    by: 39600,
};

/// The sample with another word at an offset.
fn changed(index: usize, word: u32) -> [u32; 47] {
    let mut words = sample_words();
    if let Some(at) = words.get_mut(index) {
        *at = word;
    }
    words
}

/// Adds the line of a point: when it departs, what the criterion counts, and its journey.
fn add_point<C: ShowsFigures>(
    alloc: Global,
    criterion: &C,
    point: &Departure<C::V>,
    text: &mut String,
) -> Result<(), AllocError> {
    let figures = criterion.figures_of(&point.value);
    write!(
        text,
        "dep {} arr {}",
        Clock(point.time),
        Clock(figures.arrival)
    )?;
    if let Some(trips) = figures.trips {
        write!(text, " trips {trips}")?;
    }
    if let Some(walked) = figures.walked {
        write!(text, " walked {walked}")?;
    }
    let journey = journey_string(alloc, &point.journey)?;
    write!(text, " : {}\n", journey.as_str())
}

/// The points, and how many there are, how many connections were read, and the footpath to the target.
fn text_of<C: ShowsFigures>(
    alloc: Global,
    criterion: &C,
    answer: &Answer<C>,
) -> Result<String, AllocError> {
    let mut text = String::new(alloc);
    for point in answer.departures.iter() {
        add_point(alloc, criterion, point, &mut text)?;
    }
    write!(
        text,
        "points {} read {} walk ",
        answer.departures.len(),
        answer.read
    )?;
    match answer.walk {
        Some(seconds) => write!(text, "{seconds}")?,
        None => text.push_str("none")?,
    }
    Ok(text)
}

/// The text of the answer to a query.
fn answer_text<S: ConnSource, C: ShowsFigures + Scanned>(
    alloc: Global,
    source: &mut S,
    criterion: &C,
    query: &Query,
) -> Result<String, Fail> {
    let stops = source.stops();
    query.check(stops).ok().ok_or("the query can be asked")?;
    let answer = answer_query(alloc, source, criterion, query)?;
    Ok(text_of(alloc, criterion, &answer)?)
}

/// The answer's text over the image in place, and over its lists decoded.
fn both_texts<C: ShowsFigures + Scanned>(
    alloc: Global,
    words: &[u32],
    criterion: &C,
    query: &Query,
) -> Result<(String, String), Fail> {
    let image = image(alloc, words)?;
    let of_words = answer_text(alloc, &mut in_place(&image), criterion, query)?;
    let of_lists = answer_text(alloc, &mut decoded(alloc, &image)?, criterion, query)?;
    Ok((of_words, of_lists))
}

/// Asserts that each query has its answer over both.
fn try_rows<C: ShowsFigures + Scanned>(
    rt: &impl Abort,
    alloc: Global,
    criterion: &C,
    rows: &[Row<'_>],
) -> Result<(), Fail> {
    for (words, query, expected) in rows {
        let (in_place, decoded) = both_texts(alloc, *words, criterion, query)?;
        assert_eq!(rt; in_place.as_str(), *expected);
        assert_eq!(rt; decoded.as_str(), *expected);
    }
    Ok(())
}

#[test]
fn rows_by_arrival(rt: HostRuntime) -> Result<(), Fail> {
    let sample = sample_words();
    let rows: [Row<'_>; 9] = [
        (&NO_TRIPS, ASKED, NOTHING),
        (&sample, ASKED, CHANGE),
        (&changed(34, 120), ASKED, SLOW_CHANGE),
        (&changed(34, 121), ASKED, DIRECT),
        (&sample, until(28799), NONE),
        (&changed(32, 60), until(28799), NONE),
        (&sample, until(28800), CHANGE),
        (&sample, by(30000), CHANGE),
        (&sample, by(29999), NONE),
    ];
    try_rows(&rt, rt.alloc(), &Arrival, &rows)
}

#[test]
fn rows_on_foot(rt: HostRuntime) -> Result<(), Fail> {
    let rows: [Row<'_>; 3] = [
        (&WITH_WALK, ASKED, WALKED_START),
        (&WITH_WALK, until(29399), EARLY_STARTS),
        (&WITH_CHAIN, ASKED, BESIDE_A_WALK),
    ];
    try_rows(&rt, rt.alloc(), &Arrival, &rows)
}

#[test]
fn rows_by_trips(rt: HostRuntime) -> Result<(), Fail> {
    let rows: [Row<'_>; 4] = [
        (&sample_words(), ASKED, BOTH),
        (&second_sample_words(), ASKED, BOTH),
        (&WITH_DIRECT_TRIP, ASKED, FAST_TRIP),
        (&REPEATED, LATER, REPEATS),
    ];
    try_rows(&rt, rt.alloc(), &ArrivalTrips, &rows)
}

#[test]
fn rows_by_walking(rt: HostRuntime) -> Result<(), Fail> {
    let rows: [Row<'_>; 2] = [
        (&WITH_LONG_WALK, ASKED, LONG_WALK),
        (&changed(34, 60), ASKED, WALKED_CHANGE),
    ];
    try_rows(&rt, rt.alloc(), &ArrivalTripsWalk, &rows)
}

/// Whether the text has one point, which departs at 08:00:00 and arrives at 08:20:00, whatever its journey is.
fn is_one_point(text: &str) -> bool {
    text.starts_with("dep 08:00:00 arr 08:20:00 : ride ")
        && text.ends_with("\npoints 1 read 4 walk none")
        && text.bytes().filter(|byte| *byte == b'\n').count() == 1
}

/// If a trip is as fast as a change, the two journeys are one point by arrival alone.
#[test]
fn equal_journeys_are_one_point(rt: HostRuntime) -> Result<(), Fail> {
    let (in_place, decoded) = both_texts(rt.alloc(), &WITH_DIRECT_TRIP, &Arrival, &ASKED)?;
    assert!(rt;
        is_one_point(in_place.as_str()),
        "in place: {}",
        in_place.as_str()
    );
    assert!(rt;
        is_one_point(decoded.as_str()),
        "decoded: {}",
        decoded.as_str()
    );
    Ok(())
}
