//! Bags of points, compared with what should be left of a long history of points.

ghost use Rattle.std.specs.Prelude.{◌<◌, ◌≤◌};

use bags::{Bag, Point};
use criteria::{Arrival, ArrivalTrips, TimeTrips};
use std::alloc::{AllocError, Global};
use std::process::Abort;
use std::test::Fail;

// Draws a number below a limit, and moves the generator on.
fn draw(state: &mut u32, limit: u32) -> u32
    requires { 0 < limit }
    ensures { result < limit }
{
    *state = state.wrapping_mul(1_664_525).wrapping_add(1_013_904_223);
    (*state >> 16) % limit
}

// Draws a point from few departures, times and numbers of trips, so that many tie.
fn draw_point(state: &mut u32, tag: usize) -> Point<TimeTrips>
    ensures time { result.value.time < 12 }
    ensures trips { result.value.trips < 4 }
{
    let departure = draw(state, 16);
    let time = draw(state, 12);
    let trips = draw(state, 4) as u16;
    Point {
        departure,
        value: TimeTrips { time, trips },
        tag,
    }
}

// Whether a point departs no earlier, arrives no later and takes no more trips.
fn covers(point: &Point<TimeTrips>, other: &Point<TimeTrips>) -> bool {
    point.departure >= other.departure
        && point.value.time <= other.value.time
        && point.value.trips <= other.value.trips
}

// Whether a point is left of a history: no other point covers it, except that of equal points the one with the least
// tag is left.
fn stands(history: &[Point<TimeTrips>], point: &Point<TimeTrips>) -> bool {
    history.iter().all(|other| {
        !covers(other, point) || (covers(point, other) && other.tag >= point.tag)
    })
}

fn same(point: &Point<TimeTrips>, other: &Point<TimeTrips>) -> bool {
    point.departure == other.departure && point.value == other.value && point.tag == other.tag
}

// How often a bag lists a point.
fn count(bag: &Bag<ArrivalTrips>, point: &Point<TimeTrips>) -> usize {
    let mut count = 0usize;
    for index in 0..bag.len() {
        if same(&bag.point(index), point) {
            count = count.saturating_add(1);
        }
    }
    count
}

// Asserts that a bag lists each point that is left of a history once, and nothing else.
fn assert_stands(rt: &impl Abort, bag: &Bag<ArrivalTrips>, history: &[Point<TimeTrips>]) {
    let mut standing = 0usize;
    for point in history {
        let expected = if stands(history, point) { 1 } else { 0 };
        assert!(rt;
            count(bag, point) == expected,
            "after {} points",
            history.len()
        );
        standing = standing.saturating_add(expected);
    }
    assert!(rt; bag.len() == standing, "after {} points", history.len());
}

// Whether the point at an index departs at a time or later, and no such point of the bag is better.
fn is_best(bag: &Bag<ArrivalTrips>, index: usize, time: u32) -> bool {
    if index >= bag.len() {
        return false;
    }
    let value = bag.point(index).value;
    for i in 0..bag.len() {
        let other = bag.point(i);
        if other.departure >= time
            && other.value != value
            && other.value.time <= value.time
            && other.value.trips <= value.trips
        {
            return false;
        }
    }
    bag.point(index).departure >= time
}

// Asserts that a bag gives the indices of its best points, rising, each once.
fn assert_best(rt: &impl Abort, bag: &Bag<ArrivalTrips>, time: u32) {
    let mut next = 0usize;
    for index in bag.best_from(time) {
        for skipped in next..index {
            assert!(rt; !is_best(bag, skipped, time), "missed {skipped} at {time}");
        }
        assert!(rt;
            index >= next && is_best(bag, index, time),
            "gave {index} at {time}"
        );
        next = index.saturating_add(1);
    }
    for skipped in next..bag.len() {
        assert!(rt; !is_best(bag, skipped, time), "missed {skipped} at {time}");
    }
}

// Asserts that a bag's points are ordered by falling departure, and those of equal departures by arrival and number of
// trips.
fn assert_order(rt: &impl Abort, bag: &Bag<ArrivalTrips>) {
    for index in 1..bag.len() {
        let before = bag.point(index - 1);
        let point = bag.point(index);
        let falls = before.departure > point.departure;
        let together = before.departure == point.departure;
        let rises = before.value.time < point.value.time
            || (before.value.time == point.value.time && before.value.trips < point.value.trips);
        assert!(rt; falls || (together && rises), "at {index}");
    }
}

// Asserts which points a bag keeps of a history, in which order, and which are best at each time.
fn assert_bag(rt: &impl Abort, bag: &Bag<ArrivalTrips>, history: &[Point<TimeTrips>]) {
    assert_stands(rt, bag, history);
    assert_order(rt, bag);
    for time in 0..18 {
        assert_best(rt, bag, time);
    }
}

fn check_run(rt: &impl Abort, alloc: Global, seed: u32) -> Result<(), AllocError> {
    let mut state = seed;
    let mut history = Vec::new(alloc);
    let mut bag = Bag::new(alloc, ArrivalTrips);
    for tag in 0..120 {
        let point = draw_point(&mut state, tag);
        history.push(point)?;
        match bag.insert(point.departure, point.value, point.tag) {
            Ok(newly) => assert!(rt; newly == stands(&history, &point), "point {tag}"),
            Err(AllocError) => {
                history.pop();
                assert_stands(rt, &bag, &history);
                return Err(AllocError);
            }
        }
        assert_bag(rt, &bag, &history);
    }
    Ok(())
}

#[test]
fn a_long_run_keeps_what_stands(rt: HostRuntime) -> Result<(), Fail> {
    for seed in 1..9 {
        check_run(&rt, rt.alloc(), seed)?;
    }
    Ok(())
}

#[test]
fn a_refused_growth_keeps_the_bag(rt: HostRuntime) -> Result<(), Fail> {
    check_run(&rt, rt.alloc(), 9)?;
    Ok(())
}

#[test]
fn of_two_equal_points_the_first_keeps_its_tag(rt: HostRuntime) -> Result<(), Fail> {
    let mut bag = Bag::new(rt.alloc(), Arrival);
    assert!(rt; bag.insert(28_800, 30_000, 1)?);
    assert!(rt; !bag.insert(28_800, 30_000, 2)?);
    assert!(rt; bag.len() == 1);
    assert!(rt; bag.point(0).tag == 1);
    Ok(())
}

// Whether two points of a departure are new, the first of them only once: one takes 50 minutes, the other 10 minutes,
// but two trips.
fn are_new(bag: &mut Bag<ArrivalTrips>, departure: u32, tag: usize) -> Result<bool, AllocError>
    requires { departure ≤ 36000 }
{
    let direct = TimeTrips {
        time: departure + 3_000,
        trips: 1,
    };
    let fast = TimeTrips {
        time: departure + 600,
        trips: 2,
    };
    let is_new = bag.insert(departure, direct, tag)?;
    let is_other = bag.insert(departure, fast, tag)?;
    let is_again = bag.insert(departure, direct, 99)?;
    Ok(is_new && is_other && !is_again)
}

// Whether the points that are best from a time on are the two at these indices.
fn are_two_best(bag: &Bag<ArrivalTrips>, time: u32, first: usize, second: usize) -> bool {
    let mut best = bag.best_from(time);
    best.next() == Some(first) && best.next() == Some(second) && best.next().is_none()
}

fn assert_later(rt: &impl Abort, bag: &Bag<ArrivalTrips>) {
    assert!(rt; bag.len() == 80);
    assert_order(rt, bag);
    assert!(rt; are_two_best(bag, 34_000, 66, 67));
    assert!(rt; bag.best_from(33_660).next() == Some(78));
    assert!(rt; bag.best_from(36_001).next().is_none());
    assert_best(rt, bag, 34_000);
}

#[test]
fn of_points_that_depart_later_the_best_are_reported(rt: HostRuntime) -> Result<(), Fail> {
    let mut bag = Bag::new(rt.alloc(), ArrivalTrips);
    for tag in 0..40 {
        assert!(rt; are_new(&mut bag, 36_000 - tag as u32 * 60, tag)?);
    }
    assert_later(&rt, &bag);
    Ok(())
}

// Whether a bag has a point that is best from a time on.
fn has_best(bag: &Bag<Arrival>, time: u32) -> bool {
    bag.best_from(time).next().is_some()
}

#[test]
fn a_later_departure_with_an_earlier_arrival_drops_the_rest(rt: HostRuntime) -> Result<(), Fail> {
    let mut bag = Bag::new(rt.alloc(), Arrival);
    assert!(rt; bag.insert(28_800, 30_000, 1)?);
    assert!(rt; bag.insert(29_400, 30_600, 2)?);
    assert!(rt; has_best(&bag, 28_800) && has_best(&bag, 29_400) && !has_best(&bag, 29_401));
    assert!(rt; bag.insert(29_400, 29_900, 3)?);
    assert!(rt; bag.len() == 1);
    assert!(rt; bag.point(0).tag == 3);
    Ok(())
}
