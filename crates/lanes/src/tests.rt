//! Lanes, compared with lists of labels and with tables of times under long sequences of offers.

ghost use Rattle.std.specs.Prelude.{◌≡◌, ◌<◌, ◌≤◌, OnOk};
ghost use Rattle.lanes.specs.StopLanes.{AreStopLanes, stops_of};

use crate::{StopLanes, Taken, TripLanes, Words};
use criteria::TimeTrips;
use fronts::{Boarding, Label, copies};
use std::alloc::{AllocError, Global};
use std::process::Abort;
use std::test::Fail;

// Draws a number below a limit, and moves the generator on.
fn draw(state: &mut u32, limit: u32) -> u32
    requires { 0 < limit }
    ensures { result < limit }
{
    *state = state.wrapping_mul(1_664_525).wrapping_add(1_013_904_223);
    (*state >> 16) % limit
}

// Draws up to `most` values from few times, so that many tie; mostly they have few trips.
fn draw_values(state: &mut u32, alloc: Global, most: u32) -> Result<Vec<TimeTrips>, AllocError>
    requires { most < 100 }
{
    let mut values = Vec::new(alloc);
    for _value in 0..draw(state, most + 1) {
        let few = 3 + draw(state, 7);
        let trips = draw(state, few) as u16;
        let late = 20 + 20 * (9 - u32::from(trips.min(9)));
        let time = draw(state, late);
        values.push(TimeTrips { time, trips })?;
    }
    Ok(values)
}

fn no_worse(value: &TimeTrips, other: &TimeTrips) -> bool {
    value.time <= other.time && value.trips <= other.trips
}

fn covers(labels: &[Label<TimeTrips>], value: &TimeTrips) -> bool {
    labels.iter().any(|label| no_worse(&label.value, value))
}

// Whether a bound has a value that is no worse than one with a ride before it. The bound has none of more than eight
// trips.
fn excuses(bound: &[TimeTrips], value: &TimeTrips) -> bool {
    let ridden = TimeTrips {
        time: value.time,
        trips: value.trips.saturating_add(1),
    };
    bound.iter().any(|b| b.trips <= 8 && no_worse(b, &ridden))
}

// Takes a label into a list, unless one of the list is no worse, and drops those than which it is no worse.
fn take(labels: &mut Vec<Label<TimeTrips>>, label: Label<TimeTrips>) -> Result<(), AllocError> {
    if covers(labels, &label.value) {
        return Ok(());
    }
    labels.retain(|other| !no_worse(&label.value, &other.value));
    labels.push(label)?;
    Ok(())
}

// The labels that values of at most eight trips offer, of which none is no worse than another.
fn offered_by(
    alloc: Global,
    values: &[TimeTrips],
    first: u32,
) -> Result<Vec<Label<TimeTrips>>, AllocError> {
    let mut offered = Vec::new(alloc);
    for value in values {
        if value.trips <= 8 {
            let tag = first.saturating_add(u32::from(value.trips));
            take(&mut offered, Label { value: *value, tag })?;
        }
    }
    Ok(offered)
}

// What an offer does to a list of labels of at most seven trips.
fn expected(
    labels: &mut Vec<Label<TimeTrips>>,
    offered: &[Label<TimeTrips>],
    bound: &[TimeTrips],
) -> Result<Taken, AllocError> {
    let mut some = false;
    for label in offered {
        let news = !covers(labels, &label.value) && !excuses(bound, &label.value);
        if news && label.value.trips == 8 {
            return Ok(Taken::Full);
        }
        some |= news;
    }
    if !some {
        return Ok(Taken::NoNews);
    }
    for label in offered {
        if label.value.trips < 8 {
            take(labels, *label)?;
        }
    }
    Ok(Taken::Lowered)
}

fn front_of(values: &[TimeTrips]) -> Words {
    let mut front = Words::none();
    for value in values {
        if value.time < 2_000_000_000 {
            front = front.with(value);
        }
    }
    front
}

fn has(labels: &[Label<TimeTrips>], label: &Label<TimeTrips>) -> bool {
    labels.iter().any(|other| other.value == label.value && other.tag == label.tag)
}

fn are_same(labels: &[Label<TimeTrips>], others: &[Label<TimeTrips>]) -> bool {
    labels.len() == others.len() && labels.iter().all(|label| has(others, label))
}

// Offers a front or an end to a trip, and compares what that does with what it does to a list.
fn check_offer(
    rt: &impl Abort,
    alloc: Global,
    state: &mut u32,
    first: u32,
    trips: &mut TripLanes,
    trip: u32,
    labels: &mut Vec<Label<TimeTrips>>,
) -> Result<Taken, AllocError>
    requires { first ≤ 1000000 }
{
    assert!(rt; (trip as usize) < trips.len());
    if draw(state, 8) == 0 {
        let time = 150 + draw(state, 100);
        let value = TimeTrips { time, trips: 0 };
        let took = trips.end(trip, time, first);
        assert!(rt; took == expected(labels, &[Label { value, tag: first }], &[])?);
        return Ok(took);
    }
    let values = draw_values(state, alloc, 6)?;
    let bound = draw_values(state, alloc, 2)?;
    let took = trips.change(trip, &front_of(&values), &front_of(&bound), first);
    let offered = offered_by(alloc, &values, first)?;
    assert!(rt; took == expected(labels, &offered, &bound)?);
    Ok(took)
}

// Asserts that a trip has the labels of a list.
fn assert_labels(
    rt: &impl Abort,
    trips: &TripLanes,
    trip: u32,
    labels: &[Label<TimeTrips>],
    read: &mut Vec<Label<TimeTrips>>,
) -> Result<(), AllocError> {
    assert!(rt; (trip as usize) < trips.len());
    trips.read(trip, read)?;
    assert!(rt; are_same(read, labels), "trip {trip}");
    Ok(())
}

// How often an offer had no news, was taken in, and found no lane.
#[derive(Clone, Copy, Debug)]
struct Counts {
    none: u32,
    lowered: u32,
    full: u32,
}

fn counted(counts: Counts, took: Taken) -> Counts {
    let mut counts = counts;
    match took {
        Taken::NoNews => counts.none = counts.none.saturating_add(1),
        Taken::Lowered => counts.lowered = counts.lowered.saturating_add(1),
        Taken::Full => counts.full = counts.full.saturating_add(1),
    }
    counts
}

// Offers something to the second of two trips thirty times, and boards it.
fn check_run(
    rt: &impl Abort,
    alloc: Global,
    seed: u32,
    counts: Counts,
) -> Result<Counts, AllocError> {
    let mut state = seed;
    let mut counts = counts;
    let mut trips = TripLanes::new(alloc, 2)?;
    let mut labels = Vec::new(alloc);
    let mut read = Vec::new(alloc);
    for step in 0..30 {
        let took = check_offer(rt, alloc, &mut state, 16 * step, &mut trips, 1, &mut labels)?;
        counts = counted(counts, took);
        assert_labels(rt, &trips, 1, &labels, &mut read)?;
        assert_labels(rt, &trips, 0, &[], &mut read)?;
    }
    Ok(counts)
}

#[test]
fn lanes_are_as_lists_of_labels(rt: HostRuntime) -> Result<(), Fail> {
    let mut counts = Counts {
        none: 0,
        lowered: 0,
        full: 0,
    };
    for seed in 1..300 {
        counts = check_run(&rt, rt.alloc(), seed, counts)?;
    }
    let Counts {
        none,
        lowered,
        full,
    } = counts;
    assert!(rt;
        none > 1000 && lowered > 1000 && full > 20,
        "{none} {lowered} {full}"
    );
    Ok(())
}

const STOPS: u32 = 20;

const TRIPS: u32 = 40;

const TIMES: u32 = 60;

// Of each stop and each time the least time with at most k trips; of each boarding its departure, and of each label
// that was offered its value.
#[derive(Drop)]
struct Table {
    times: Vec<u32>,
    departures: Vec<u32>,
    labels: Vec<TimeTrips>,
}

fn place(stop: u32, time: u32, k: u32) -> usize
    requires stop { stop < 20 }
    requires time { time < 60 }
    requires k { k < 9 }
{
    ((stop * TIMES + time) * 9 + k) as usize
}

// Changes into a trip by a drawn front, whose values get tags by which `table` has them.
fn draw_change(
    rt: &impl Abort,
    alloc: Global,
    state: &mut u32,
    trips: &mut TripLanes,
    table: &mut Table,
) -> Result<(), AllocError> {
    let values = draw_values(state, alloc, 3)?;
    let trip = draw(state, TRIPS);
    let front = front_of(&values);
    assert!(rt; table.labels.len() < 1_000_000);
    assert!(rt; (trip as usize) < trips.len());
    let first = table.labels.len() as u32;
    for k in 0..8 {
        let time = front.times[k];
        table.labels.push(TimeTrips {
            time,
            trips: k as u16,
        })?;
    }
    if draw(state, 30) == 0 {
        let time = 150 + draw(state, 100);
        if let Some(label) = table.labels.get_mut(first as usize) {
            label.time = time;
        }
        trips.end(trip, time, first);
        return Ok(());
    }
    trips.change(trip, &front, &Words::none(), first);
    Ok(())
}

// Notes that a time can be reached with k trips by departing from a stop at a time. If it is no news there, it isn't
// for who departs earlier.
fn lower(table: &mut Table, stop: u32, departure: u32, k: u32, time: u32)
    requires stop { stop < 20 }
    requires departure { departure < 60 }
    requires k { k < 9 }
{
    for early in 0..departure + 1 {
        let Some(least) = table.times.get_mut(place(stop, departure - early, k)) else {
            return;
        };
        if *least <= time {
            return;
        }
        *least = time;
    }
}

// Boards a drawn trip from a drawn stop.
fn draw_boarding(
    rt: &impl Abort,
    state: &mut u32,
    trips: &TripLanes,
    stops: &mut StopLanes,
    table: &mut Table,
    labels: &mut Vec<Label<TimeTrips>>,
) -> Result<(), AllocError>
    requires lists { AreStopLanes stops.old }
    requires long { stops_of stops.old ≡ 20 }
    ensures lists { OnOk result (AreStopLanes stops.new) }
    ensures long { OnOk result (stops_of stops.new ≡ 20) }
{
    let trip = draw(state, TRIPS);
    let stop = draw(state, STOPS);
    let departure = draw(state, TIMES);
    assert!(rt; table.departures.len() < 10_000_000);
    assert!(rt; (trip as usize) < trips.len());
    let boarding = Boarding {
        departure,
        first: table.departures.len() as u32,
        walk: stop,
        secs: 0,
    };
    table.departures.push(departure)?;
    stops.board(stop, boarding, trips, trip, &Words::none())?;
    trips.read(trip, labels)?;
    note_labels(table, stop, departure, labels);
    Ok(())
}

fn note_labels(table: &mut Table, stop: u32, departure: u32, labels: &[Label<TimeTrips>])
    requires stop { stop < 20 }
    requires departure { departure < 60 }
{
    for label in labels {
        for k in u32::from(label.value.trips) + 1..9 {
            lower(table, stop, departure, k, label.value.time);
        }
    }
}

// Asserts that word k of the front of a stop from a time on is that of the table, and that its tag names a boarding
// that departs then or later, with a label of that time and one trip less.
fn assert_word(rt: &impl Abort, stops: &StopLanes, table: &Table, stop: u32, time: u32, k: u32)
    requires lists { AreStopLanes stops.now }
    requires long { stops_of stops.now ≡ 20 }
    requires stop { stop < 20 }
    requires time { time < 60 }
    requires k { k < 8 }
{
    let entry = stops.front_from(stop, time);
    let front = stops.front(entry);
    let Some(least) = table.times.get(place(stop, time, k + 1)).copied() else {
        panic!(rt; "no time")
    };
    let word = front.times[k as usize + 1];
    assert!(rt; word == least, "stop {stop} time {time} word {k}");
    if word == front.times[k as usize] {
        return;
    }
    let tag = stops.tags(entry)[k as usize];
    let Some(step) = stops.step(tag as usize) else {
        panic!(rt; "no step")
    };
    let Some(departure) = table.departures.get(step.first as usize).copied() else {
        panic!(rt; "no boarding")
    };
    let Some(label) = table.labels.get(step.label as usize).copied() else {
        panic!(rt; "no label")
    };
    assert!(rt; departure >= time && step.walk == stop);
    assert!(rt; label.time == least && u32::from(label.trips) == k);
}

fn assert_words(rt: &impl Abort, stops: &StopLanes, table: &Table)
    requires lists { AreStopLanes stops.now }
    requires long { stops_of stops.now ≡ 20 }
{
    for stop in 0..20 {
        for time in 0..60 {
            for k in 0..8 {
                assert_word(rt, stops, table, stop, time, k);
            }
        }
    }
}

// Ten thousand boardings, with a change after each third.
fn check_boardings(rt: &impl Abort, alloc: Global, seed: u32) -> Result<(), AllocError> {
    let mut state = seed;
    let mut labels = Vec::new(alloc);
    let mut table = Table {
        times: copies(alloc, u32::MAX, 20 * 60 * 9)?,
        departures: Vec::new(alloc),
        labels: Vec::new(alloc),
    };
    let mut trips = TripLanes::new(alloc, TRIPS)?;
    let mut stops = StopLanes::new(alloc, STOPS, 1000)?;
    for step in 0..10_000 {
        if step % 3 == 0 {
            draw_change(rt, alloc, &mut state, &mut trips, &mut table)?;
        }
        draw_boarding(rt, &mut state, &trips, &mut stops, &mut table, &mut labels)?;
        if step == 100 {
            assert_words(rt, &stops, &table);
        }
    }
    assert_words(rt, &stops, &table);
    Ok(())
}

#[test]
fn boardings_are_as_a_table(rt: HostRuntime) -> Result<(), Fail> {
    for seed in 1..11 {
        check_boardings(&rt, rt.alloc(), seed)?;
    }
    Ok(())
}
