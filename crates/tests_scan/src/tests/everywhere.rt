//! One scan for all sources of a target, compared with the query from each of them, over worked images and random ones.

ghost use Rattle.std.specs.Prelude.{◌≢◌, ◌<◌, IfOk, length};
ghost use Rattle.profile_scan.specs.Found.{listed};
ghost use Rattle.profile_scan.specs.Everywhere.{AnswerAll, destination_of};

use super::answering::{WITH_CHAIN, WITH_DIRECT_TRIP, WITH_WALK, is_worth};
use super::images::{REPEATED, image};
use super::in_turn::InTurn;
use super::random_images::{Dice, random_words};
use bags::Point;
use criteria::{Arrival, ArrivalTrips, ArrivalTripsWalk, ShowsFigures};
use droppable_sources::in_place;
use image_layout::{sample_words, second_sample_words};
use image_verifier::Verified;
use journeys::{check, extract};
use profile_scan::{Destination, Found, Profiles, Scanned, profile, profiles_to};
use sources::ConnSource;
use std::alloc::Global;
use std::process::Abort;
use std::test::*;
use timetable::Query;

/// From 07:00:00 until 09:00:00, by 10:00:00.
const ASKED: Destination = Destination {
    target: 2,
    from: 25200,
    until: 32400,
    by: 36000,
};

/// Asserts that the journey of the point at an index is one of the image, departs when the point does, and is worth as
/// much.
fn assert_attained<C: ShowsFigures>(
    rt: &impl Abort,
    alloc: Global,
    image: &Verified,
    criterion: &C,
    found: &Found<C>,
    asked: &Query,
    index: usize,
) -> Result<(), Fail>
    requires { index < length (listed found.now) }
{
    let journey = extract(alloc, found, index)?;
    let times = check(image, asked, &journey)
        .ok()
        .ok_or("the journey counts")?;
    let point = found.point(index);
    let figures = criterion.figures_of(&point.value);
    assert!(rt; times.dep == point.departure && is_worth(&journey, times.arr, figures));
    Ok(())
}

/// Whether two points depart together and are reported alike.
fn are_alike<C: ShowsFigures>(criterion: &C, point: &Point<C::V>, other: &Point<C::V>) -> bool {
    point.departure == other.departure
        && criterion.figures_of(&point.value) == criterion.figures_of(&other.value)
}

/// Asserts that two answers have the same points, apart from tags, and the same walk; and that each point of the first
/// has a journey.
fn assert_same<C: ShowsFigures>(
    rt: &impl Abort,
    alloc: Global,
    image: &Verified,
    criterion: &C,
    found: &Found<C>,
    alone: &Found<C>,
    asked: &Query,
) -> Result<(), Fail> {
    assert!(rt; found.len() == alone.len());
    for index in 0..found.len() {
        assert!(rt; are_alike(criterion, &found.point(index), &alone.point(index)));
        assert_attained(rt, alloc, image, criterion, found, asked, index)?;
    }
    assert!(rt; found.direct_walk() == alone.direct_walk());
    Ok(())
}

/// Asserts that the points and the walk that the one scan has for a stop are those of the answer from there.
fn assert_listed<C: ShowsFigures + Scanned>(
    rt: &impl Abort,
    image: &Verified,
    criterion: &C,
    profiles: &Profiles<C>,
    alone: &Found<C>,
    stop: u32,
)
    requires stop { stop < image.now.timetable.stops }
    requires answered { AnswerAll C.rules C.Kept.value image.now.timetable profiles.now }
{
    let points = profiles.points(stop);
    assert!(rt; points.len() == alone.len());
    for index in 0..points.len() {
        assert!(rt; are_alike(criterion, &points[index], &alone.point(index)));
    }
    assert!(rt; profiles.direct_walk(stop) == alone.direct_walk());
}

/// Asserts that what the one scan finds from a stop, with its journeys, is what the query from there finds.
fn assert_found<C: ShowsFigures + Scanned>(
    rt: &impl Abort,
    alloc: Global,
    image: &Verified,
    criterion: &C,
    profiles: &Profiles<C>,
    alone: &Found<C>,
    asked: &Query,
) -> Result<(), Fail>
    requires stop { asked.now.source < image.now.timetable.stops }
    requires differ { asked.now.source ≢ (destination_of profiles.now).target }
    requires answered { AnswerAll C.rules C.Kept.value image.now.timetable profiles.now }
{
    let found = profiles.found_from(alloc, &in_place(image), asked.source)?;
    assert_same(rt, alloc, image, criterion, &found, alone, asked)
}

/// The answer of one query.
fn answer_from<S: ConnSource, C: ShowsFigures + Scanned>(
    alloc: Global,
    source: &mut S,
    criterion: &C,
    asked: &Query,
) -> Result<Found<C>, Fail> {
    let stops = source.stops();
    asked.check(stops).ok().ok_or("the query can be asked")?;
    Ok(profile(alloc, source, criterion, asked)?)
}

/// Asserts that what the one scan says of a stop is what the query from there says, and that this query reads as many
/// connections, each in turn.
fn assert_stop<C: ShowsFigures + Scanned>(
    rt: &impl Abort,
    alloc: Global,
    image: &Verified,
    criterion: &C,
    profiles: &Profiles<C>,
    stop: u32,
    left: usize,
) -> Result<(), Fail>
    requires stop { stop < image.now.timetable.stops }
    requires differ { stop ≢ (destination_of profiles.now).target }
    requires answered { AnswerAll C.rules C.Kept.value image.now.timetable profiles.now }
{
    let asked = profiles.destination().query_from(stop);
    let mut source = InTurn::before(in_place(image), asked.by);
    let alone = answer_from(alloc, &mut source, criterion, &asked)?;
    assert!(rt; source.in_turn && source.left == left);
    assert_listed(rt, image, criterion, profiles, &alone, stop);
    assert_found(rt, alloc, image, criterion, profiles, &alone, &asked)
}

/// Runs `assert_stop` for every stop except the target.
fn assert_stops<C: ShowsFigures + Scanned>(
    rt: &impl Abort,
    alloc: Global,
    image: &Verified,
    criterion: &C,
    profiles: &Profiles<C>,
    left: usize,
) -> Result<(), Fail>
    requires { AnswerAll C.rules C.Kept.value image.now.timetable profiles.now }
{
    let target = profiles.destination().target;
    for stop in 0..image.stops() {
        if stop != target {
            assert_stop(rt, alloc, image, criterion, profiles, stop, left)?;
        }
    }
    Ok(())
}

/// The answers from all stops.
fn answers_to<S: ConnSource, C: ShowsFigures + Scanned>(
    alloc: Global,
    source: &mut S,
    criterion: &C,
    asked: &Destination,
) -> Result<Profiles<C>, Fail>
    ensures { IfOk result (λ profiles. AnswerAll C.rules C.Kept.value (S.timetable source.old) profiles) }
{
    let stops = source.stops();
    asked.check(stops).ok().ok_or("it can be asked")?;
    Ok(profiles_to(alloc, source, criterion, asked)?)
}

/// Finds the answers from all stops by one scan, which reads each connection in turn, and runs `assert_stops` on them.
fn assert_answers<C: ShowsFigures + Scanned>(
    rt: &impl Abort,
    alloc: Global,
    image: &Verified,
    criterion: &C,
    asked: &Destination,
) -> Result<(), Fail> {
    let mut source = InTurn::before(in_place(image), asked.by);
    let profiles = answers_to(alloc, &mut source, criterion, asked)?;
    assert!(rt; source.in_turn);
    assert_stops(rt, alloc, image, criterion, &profiles, source.left)
}

/// Runs `assert_answers` under every criterion.
fn assert_criteria(
    rt: &impl Abort,
    alloc: Global,
    image: &Verified,
    asked: &Destination,
) -> Result<(), Fail> {
    assert_answers(rt, alloc, image, &Arrival, asked)?;
    assert_answers(rt, alloc, image, &ArrivalTrips, asked)?;
    assert_answers(rt, alloc, image, &ArrivalTripsWalk, asked)
}

/// Runs `assert_criteria` for every target.
fn assert_targets(
    rt: &impl Abort,
    alloc: Global,
    words: &[u32],
    window: Destination,
) -> Result<(), Fail> {
    let image = image(alloc, words)?;
    for target in 0..image.stops() {
        assert_criteria(rt, alloc, &image, &Destination { target, ..window })?;
    }
    Ok(())
}

#[test]
fn as_each_stop_alone(rt: HostRuntime) -> Result<(), Fail> {
    let alloc = rt.alloc();
    assert_targets(&rt, alloc, &sample_words(), ASKED)?;
    assert_targets(&rt, alloc, &second_sample_words(), ASKED)?;
    assert_targets(&rt, alloc, &WITH_WALK, ASKED)?;
    assert_targets(&rt, alloc, &WITH_CHAIN, ASKED)?;
    assert_targets(&rt, alloc, &WITH_DIRECT_TRIP, ASKED)?;
    let later = Destination {
        from: 32400,
        until: 36000,
        by: 39600,
        ..ASKED
    };
    assert_targets(&rt, alloc, &REPEATED, later)
}

/// Whichever growth is refused, the test ends with `AllocError`. Either way connections were asked for in turn, from
/// the last one on, and once for all stops.
#[test]
fn refused_growth_is_reported_of_all_stops(rt: HostRuntime) -> Result<(), Fail> {
    let alloc = rt.alloc();
    let image = image(alloc, &sample_words())?;
    let mut source = InTurn::of(in_place(&image));
    let profiles = answers_to(alloc, &mut source, &ArrivalTrips, &ASKED);
    assert!(rt; source.in_turn);
    let profiles = profiles?;
    assert_eq!(rt; source.left, 0);
    assert_stops(&rt, alloc, &image, &ArrivalTrips, &profiles, 0)
}

/// A window that begins within 20 minutes after 08:00:00 and takes up to half an hour; the latest arrival is within 90
/// minutes.
fn random_window(dice: &mut Dice) -> Destination {
    let from = 28800 + 60 * dice.roll(20);
    let until = from + 60 * dice.roll(30);
    Destination {
        target: 0,
        from,
        until,
        by: from + 60 * dice.roll(90),
    }
}

#[test]
fn as_each_stop_alone_over_random_images(rt: HostRuntime) -> Result<(), Fail> {
    let alloc = rt.alloc();
    let mut dice = Dice(40);
    for _image in 0..12 {
        let words = random_words(alloc, &mut dice)?;
        let window = random_window(&mut dice);
        assert_targets(&rt, alloc, &words, window)?;
    }
    Ok(())
}
