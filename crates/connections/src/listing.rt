//! Lists the connections of all runs in the order of a timetable: by departure, then by arrival, then by run.

ghost use Rattle.std.specs.Prelude.{◌≡◌, ◌≤◌, ◌<◌, ◌-◌, ◌^◌, ◌⊎◌, ℤ, min, length, map, IfOk, IfErr, OnOk, OnErr};
ghost use Rattle.std.specs.Prelude.{All, Contains, IsPermutation, [], true};
ghost use Rattle.std.specs.Prelude.{slice_index_or};
ghost use Rattle.gtfs_tables.specs.Joined.{HasTimedEnds, makes_connections as makes};
ghost use Rattle.gtfs_tables.specs.Joined.{rows_of as rows_between};
ghost use Rattle.service_days.specs.Zones.{IsDayStart};
ghost use Rattle.service_days.specs.declared.zone.Zone.{Zone as DayZone};
ghost use Rattle.connections.specs.Building.{AddsRun, AreByRun, AreSorted, HasDigits, LeavesRange, order_of};
ghost use Rattle.connections.specs.Faults.{no_memory_for_runs, run_fault};
ghost use Rattle.connections.specs.Listed.{AreListed, AreRunsInside, IsFirstOutside};
ghost use Rattle.connections.specs.Days.{days_from};
ghost use Rattle.connections.specs.Outcome.{IsFirstRefusal, IsListing, IsReport, RanOut};
ghost use Rattle.connections.specs.Runs.{IsTripRun, count_hops, runs_of_days};
ghost use Rattle.connections.specs.Times.{AreTimesOf, AreTripTimes};
ghost use Rattle.connections.specs.declared.runs.Run.{Run as TripRun};

use crate::days::{MAX_DAYS, ServiceDay, service_days};
use crate::fault::{OutOfRange, RunsFault, out_of_memory, too_many};
use crate::hops::{DayClock, RunClock, add_hops, are_inside};
use crate::report::{Report, report_of};
use crate::runs::{Run, makes_connections, runs_on};
use crate::times::{TripTimes, trip_times};
use gtfs_tables::{Day, Feed, StopTimeRow, Table, Trip};
use service_days::Zone;
use std::alloc::{AllocError, Global};
use timetable::Connection;
use timetable::limits::MAX_CONNECTIONS;

// The base of the digits of an order number.
const DIGIT: u128 = 1 << 32;

// Returns the rows of a trip.
fn rows_of<'a>(stop_times: &'a [StopTimeRow], trip: &Trip) -> &'a [StopTimeRow]
    requires rising { trip.now.first ≤ trip.now.end }
    requires within { trip.now.end ≤ length stop_times.now }
    ensures rows { result.now ≡ rows_between stop_times.now trip.now }
    ensures len { length result.now ≡ trip.now.end - trip.now.first }
{
    &stop_times[trip.first..trip.end]
}

// Returns the times of a trip, none if it makes no connections. Memory may run out.
fn times_of(alloc: Global, stop_times: &[StopTimeRow], trip: &Trip) -> Result<TripTimes, AllocError>
    requires rising { trip.now.first ≤ trip.now.end }
    requires within { trip.now.end ≤ length stop_times.now }
    requires timed { makes trip.now ≡ true → HasTimedEnds (rows_between stop_times.now trip.now) }
    ensures { IfOk result (AreTripTimes stop_times.now trip.now) }
{
    if makes_connections(trip) {
        let rows = rows_of(stop_times, trip);
        return trip_times(alloc, rows);
    }
    Ok(TripTimes {
        rows: Vec::new(alloc),
        lifted: false,
    })
}

// Returns the times of each trip. Memory may run out.
fn times_of_trips(alloc: Global, feed: &Feed) -> Result<Vec<TripTimes>, AllocError>
    ensures { IfOk result (λ times. AreTimesOf feed.now.stop_times.items feed.now.trips.items times.items) }
{
    let mut times = Vec::with_capacity(alloc, feed.trips.len())?;
    for trip in &feed.trips {
        let made = times_of(alloc, &feed.stop_times, trip)?;
        times.push(made)?;
    }
    Ok(times)
}

// Returns how many connections the runs make, or the greatest number if there are more.
fn count_connections(trips: &[Trip], runs: &[Run]) -> usize
    requires { All (IsTripRun trips.now) runs.now }
    ensures { result ≡ min (count_hops trips.now runs.now) usize.MAX }
{
    let mut count = 0usize;
    for run in runs {
        let trip = &trips[run.trip as usize];
        count = count.saturating_add(trip.end - trip.first - 1);
    }
    count
}

// Returns the start of a day, which is one of these, in seconds after 1970-01-01T00:00:00Z.
fn start_of(days: &[ServiceDay], day: Day) -> i64
    requires { Contains (map (λ d. d.day) days.now) day }
    ensures { (zone : DayZone) → All (λ d. IsDayStart zone d.day d.start) days.now → IsDayStart zone day result }
{
    for service_day in days {
        if service_day.day == day {
            return service_day.start;
        }
    }
    unreachable!();
}

// Adds the connections of a run, unless one of its times is out of range.
fn list_run(
    connections: &mut Vec<Connection>,
    feed: &Feed,
    times: &[TripTimes],
    day: DayClock,
    run: &Run,
    number: u32,
) -> Result<(), RunsFault>
    requires times { AreTimesOf feed.now.stop_times.items feed.now.trips.items times.now }
    requires trip { IsTripRun feed.now.trips.items run.now }
    ensures ok { (zone : DayZone) → IsDayStart zone run.now.day day.start
        → OnOk result (AddsRun feed.now zone day.base run.now number connections.old.items connections.new.items) }
    ensures err { (zone : DayZone) → IsDayStart zone run.now.day day.start
        → IfErr result (λ fault. (fault ≡ no_memory_for_runs)
        ⊎ ((fault ≡ run_fault run.now) × LeavesRange feed.now zone day.base run.now)) }
{
    let position = run.trip as usize;
    let trip = &feed.trips[position];
    let rows = rows_of(&feed.stop_times, trip);
    let row_times = &times[position].rows;
    let clock = RunClock {
        day,
        start: run.start,
        own: row_times[0].departure,
    };
    if !are_inside(clock, row_times) {
        return Err(RunsFault::Range(OutOfRange::Run(*run)));
    }
    match add_hops(connections, clock, rows, row_times, number) {
        Ok(()) => Ok(()),
        Err(_) => Err(out_of_memory()),
    }
}

// Adds the connections of the runs, by run, to an empty list. Or returns the first run that has a time out of range.
fn connections_by_run(
    mut connections: Vec<Connection>,
    feed: &Feed,
    times: &[TripTimes],
    days: &[ServiceDay],
    runs: &[Run],
) -> Result<Vec<Connection>, RunsFault>
    requires empty { connections.items ≡ [] }
    requires times { AreTimesOf feed.now.stop_times.items feed.now.trips.items times.now }
    requires trips { All (IsTripRun feed.now.trips.items) runs.now }
    requires days { All (λ run. Contains (map (λ d. d.day) days.now) run.day) runs.now }
    requires few { length runs.now < 2 ^ 32 }
    requires some { 0 < length days.now }
    ensures ok { (zone : DayZone) (base : ℤ) (d : ServiceDay) → base ≡ (slice_index_or days.now 0 d).start
        → All (λ d. IsDayStart zone d.day d.start) days.now
        → IfOk result (λ connections. AreByRun feed.now zone base runs.now (length runs.now) connections.items) }
    ensures err { (zone : DayZone) (base : ℤ) (d : ServiceDay) → base ≡ (slice_index_or days.now 0 d).start
        → All (λ d. IsDayStart zone d.day d.start) days.now
        → IfErr result (λ fault. (fault ≡ no_memory_for_runs)
        ⊎ ((run : TripRun) × (fault ≡ run_fault run) × IsFirstOutside feed.now zone base runs.now run)) }
{
    let first = days[0];
    for (number, run) in runs.iter().enumerate() {
        let start = start_of(days, run.day);
        let day = DayClock {
            base: first.start,
            start,
        };
        match list_run(&mut connections, feed, times, day, run, number as u32) {
            Ok(()) => {}
            Err(fault) => return Err(fault),
        }
    }
    Ok(connections)
}

// Returns the number by which connections are sorted: departure, arrival and run, each a digit of 32 bits. One
// number is compared faster than three.
fn order_number(connection: &Connection) -> u128
    ensures { result ≡ order_of connection.now }
{
    (connection.dep as u128 * DIGIT + connection.arr as u128) * DIGIT + connection.trip as u128
}

// Sorts connections by departure, arrival and run.
fn put_in_order(connections: &mut Vec<Connection>)
    requires { All HasDigits connections.old.items }
    ensures permutation { IsPermutation connections.old.items connections.new.items }
    ensures sorted { AreSorted connections.new.items }
{
    connections.sort_unstable_by_key(|connection| order_number(connection));
}

/// Returns the connections and the runs of a feed on `days` days, 1 to [`MAX_DAYS`], from the first one on, and the
/// counts.
///
/// A run is a day and a trip whose service is active on it. A trip that `frequencies.txt` names has one run for each
/// of its starts, its repeats ([`starts_are_theirs`](crate::laws::starts_are_theirs)), and none at the times of its
/// stop times. A flex trip, and one with fewer than two rows, never runs. Runs are numbered by day, then by the order
/// of the trips, then by repeat, from the earliest start on.
///
/// Each row of a run but the last gives a connection to the next row. Its times are those of [`trip_times`], which
/// count from the day's start; those of a repeat are moved so that it departs from its first row at its start. They
/// are given in seconds after the base, the start of the first day. Connections are in order of departure, arrival,
/// run and position in the trip. Passengers may board if they may at the row that the connection leaves, and alight
/// if they may at the row that it reaches.
///
/// Refusals come in this order: the first day without a start, too many runs (`TooMany`, `trips.txt`), too many
/// connections (`TooMany`, `stop_times.txt`), the first run with a time before the base, or at `TIME_END` or later; a
/// repeat's arrival at its first row isn't judged. Memory may run out before any of them: for the days (`Day`), then
/// for the rest (`OutOfMemory`, `stop_times.txt`).
pub fn runs_of(
    alloc: Global,
    feed: &Feed,
    first_day: Day,
    days: u32,
    zone: &Zone,
) -> Result<(Vec<Connection>, Vec<Run>, Report), RunsFault>
    requires some { 1 ≤ days }
    requires few { days ≤ MAX_DAYS }
    ensures ok { IfOk result (λ made. IsListing feed.now zone.now first_day days made.0.items made.1.items) }
    ensures report { IfOk result (λ made. IsReport feed.now (length made.1.items) (length made.0.items) made.2) }
    ensures err { IfErr result (λ fault. RanOut zone.now (days_from first_day days) fault
        ⊎ IsFirstRefusal feed.now zone.now first_day days fault) }
{
    let days = match service_days(alloc, first_day, days, zone) {
        Ok(days) => days,
        Err(fault) => return Err(fault),
    };
    let runs = match runs_on(alloc, feed, &days) {
        Ok(runs) => runs,
        Err(fault) => return Err(fault),
    };
    let count = count_connections(&feed.trips, &runs);
    if count > MAX_CONNECTIONS as usize {
        return Err(too_many(Table::StopTimes));
    }
    // The times are made behind this room, so the memory that they give back is next to what is still free.
    let Ok(room) = Vec::with_capacity(alloc, count) else {
        return Err(out_of_memory());
    };
    let Ok(times) = times_of_trips(alloc, feed) else {
        return Err(out_of_memory());
    };
    let mut connections = match connections_by_run(room, feed, &times, &days, &runs) {
        Ok(connections) => connections,
        Err(fault) => return Err(fault),
    };
    put_in_order(&mut connections);
    let report = report_of(feed, &times, runs.len(), connections.len());
    Ok((connections, runs, report))
}
