//! Runs: which trips run on which service days, and with which repeats.

ghost use Rattle.std.specs.Prelude.{◌≡◌, ◌≤◌, ◌<◌, ◌^◌, ◌-◌, ◌+◌, ◌++◌, ◌&&◌, min, length, map, get_or, false};
ghost use Rattle.std.specs.Prelude.{IfOk, IfErr, OnOk, All};
ghost use Rattle.std.specs.Prelude.{◌⊎◌, ℕ, List};
ghost use Rattle.gtfs_tables.specs.Joined.{makes_connections as makes};
ghost use Rattle.gtfs_rows.specs.declared.values.Day.{Day as RunDay};
ghost use Rattle.gtfs_tables.specs.declared.tables.Feed.{Feed as JoinedFeed};
ghost use Rattle.gtfs_tables.specs.declared.tables.Frequency.{Frequency as Row};
ghost use Rattle.connections.specs.Active.{AreActive, AreNamed, active_among};
ghost use Rattle.connections.specs.Counting.{IsCount};
ghost use Rattle.connections.specs.Faults.{no_memory_for_runs, too_many_of};
ghost use Rattle.connections.specs.Keeping.{AreKept, AreStartsOf, HoldStarts, IsKept};
ghost use Rattle.connections.specs.Repeats.{rows_for, starts_of};
ghost use Rattle.connections.specs.Runs.{repeats_from, runs_at, runs_from, runs_of_days, runs_of_trip};
ghost use Rattle.connections.specs.Runs.{runs_on as runs_then};

use crate::days::ServiceDay;
use crate::fault::{RunsFault, out_of_memory, too_many};
use crate::trip_services::TripServices;
use crate::trip_starts::{TripStarts, starts_by_trip};
use gtfs_tables::{Day, Feed, Table, Trip};
use service_days::Services;
use std::alloc::{AllocError, Global};
use timetable::limits::MAX_TRIPS;

/// A trip on a service day.
#[derive(Clone, Copy, Debug, PartialEq, Eq)]
pub struct Run {
    pub day: Day,
    /// The index of the trip in the feed's trips.
    pub trip: u32,
    /// The number of the run among the runs of its trip on the day, from 0.
    pub repeat: u32,
    /// When the run departs from its first stop, in seconds after the start of the day, if `frequencies.txt` names the
    /// trip. None if the run keeps the times of its stop times.
    pub start: Option<u32>,
}

/// Returns whether a trip makes connections: it isn't a flex trip, and has at least two rows.
pub fn makes_connections(trip: &Trip) -> bool
    ensures { result ≡ makes trip.now }
{
    !trip.flex && trip.end.saturating_sub(trip.first) >= 2
}

// Returns whether a trip runs on a day: it makes connections, and its service (by index) is active on the day.
fn is_running(active: &[bool], service: usize, trip: &Trip) -> bool
    ensures { result ≡ (makes trip.now && get_or active.now service false) }
{
    makes_connections(trip) && active.get(service).copied().unwrap_or(false)
}

// Returns for each trip whether it runs on a day, given which services are active on the day. Memory may run out.
fn running_on(
    alloc: Global,
    active: &[bool],
    indices: &[usize],
    trips: &[Trip],
) -> Result<Vec<bool>, AllocError>
    requires { length indices.now ≡ length trips.now }
    ensures len { IfOk result (λ running. length running.items ≡ length trips.now) }
    ensures marked { (feed : JoinedFeed) (day : RunDay) (names : List (List ℕ)) → AreNamed names trips.now indices.now
        → active.now ≡ active_among feed names day
        → IfOk result (λ running. running.items ≡ map (runs_then feed day) trips.now) }
{
    let mut running = Vec::with_capacity(alloc, trips.len())?;
    for (position, trip) in trips.iter().enumerate() {
        running.push(is_running(active, indices[position], trip))?;
    }
    Ok(running)
}

// Returns how many runs a trip has on a day, given whether it runs on it. Memory may run out.
fn count_trip(
    alloc: Global,
    running: bool,
    trip: &Trip,
    starts: &mut TripStarts,
) -> Result<usize, AllocError>
    ensures kept { OnOk result (IsKept starts.old starts.new) }
    ensures count { (feed : JoinedFeed) (day : RunDay) (t : ℕ) → running ≡ runs_then feed day trip.now
        → AreStartsOf (rows_for feed.frequencies.items t) starts.old
        → IfOk result (λ count. count ≡ length (runs_at feed day t trip.now)) }
{
    if !running {
        return Ok(0);
    }
    if trip.repeats {
        return starts.count(alloc);
    }
    Ok(1)
}

// Returns `before` plus the number of a trip's runs on a day. If `before` is already too many, no more are counted.
fn count_with_trip(
    alloc: Global,
    before: usize,
    running: bool,
    trip: &Trip,
    starts: &mut TripStarts,
) -> Result<usize, AllocError>
    ensures kept { OnOk result (IsKept starts.old starts.new) }
    ensures count { (feed : JoinedFeed) (day : RunDay) (t n : ℕ) → running ≡ runs_then feed day trip.now
        → AreStartsOf (rows_for feed.frequencies.items t) starts.old
        → IsCount MAX_TRIPS before n
        → IfOk result (λ count. IsCount MAX_TRIPS count (n + length (runs_at feed day t trip.now))) }
{
    if before > MAX_TRIPS as usize {
        return Ok(before);
    }
    let more = count_trip(alloc, running, trip, starts)?;
    Ok(before.saturating_add(more))
}

// Returns `before` plus the number of the trips' runs on a day. Counting stops once there are too many.
fn count_with_trips(
    alloc: Global,
    before: usize,
    running: &[bool],
    trips: &[Trip],
    starts: &mut Vec<TripStarts>,
) -> Result<usize, AllocError>
    requires marked { length running.now ≡ length trips.now }
    requires same { length starts.old.items ≡ length trips.now }
    ensures kept { OnOk result (AreKept starts.old.items starts.new.items) }
    ensures count { (feed : JoinedFeed) (day : RunDay) (n : ℕ) → running.now ≡ map (runs_then feed day) trips.now
        → HoldStarts feed.frequencies.items (length trips.now) starts.old.items
        → IsCount MAX_TRIPS before n
        → IfOk result (λ count. IsCount MAX_TRIPS count (n + length (runs_from feed day 0 trips.now))) }
{
    let mut count = before;
    for (position, trip) in trips.iter().enumerate() {
        count = count_with_trip(alloc, count, running[position], trip, &mut starts[position])?;
    }
    Ok(count)
}

// Returns `before` plus the number of runs on a day. Counting stops once there are too many.
fn count_with_day(
    alloc: Global,
    before: usize,
    active: &[bool],
    indices: &[usize],
    trips: &[Trip],
    starts: &mut Vec<TripStarts>,
) -> Result<usize, AllocError>
    requires rising { All (λ trip. trip.first ≤ trip.end) trips.now }
    requires named { length indices.now ≡ length trips.now }
    requires same { length starts.old.items ≡ length trips.now }
    ensures kept { OnOk result (AreKept starts.old.items starts.new.items) }
    ensures count { (feed : JoinedFeed) (day : RunDay) (names : List (List ℕ)) (n : ℕ)
        → HoldStarts feed.frequencies.items (length trips.now) starts.old.items
        → AreNamed names trips.now indices.now → active.now ≡ active_among feed names day
        → IsCount MAX_TRIPS before n
        → IfOk result (λ count. IsCount MAX_TRIPS count (n + length (runs_from feed day 0 trips.now))) }
{
    if before > MAX_TRIPS as usize {
        return Ok(before);
    }
    let running = running_on(alloc, active, indices, trips)?;
    count_with_trips(alloc, before, &running, trips, starts)
}

// Returns how many runs there are on all days. Counting stops once there are too many.
fn count_runs(
    alloc: Global,
    services: &TripServices,
    trips: &[Trip],
    starts: &mut Vec<TripStarts>,
) -> Result<usize, AllocError>
    requires rising { All (λ trip. trip.first ≤ trip.end) trips.now }
    requires named { length services.now.indices.items ≡ length trips.now }
    requires same { length starts.old.items ≡ length trips.now }
    ensures kept { OnOk result (AreKept starts.old.items starts.new.items) }
    ensures count { (feed : JoinedFeed) (days : List RunDay) → feed.trips.items ≡ trips.now
        → HoldStarts feed.frequencies.items (length trips.now) starts.old.items
        → AreActive feed days trips.now services.now
        → IfOk result (λ count. IsCount MAX_TRIPS count (length (runs_of_days feed days))) }
{
    let mut count = 0usize;
    for active in &services.active {
        count = count_with_day(alloc, count, active, &services.indices, trips, starts)?;
    }
    Ok(count)
}

// Adds the repeats of a trip on a day, one for each of its starts, which are listed if they weren't yet.
fn add_repeats(
    alloc: Global,
    runs: &mut Vec<Run>,
    day: Day,
    trip: u32,
    starts: &mut TripStarts,
) -> Result<(), AllocError>
    ensures kept { OnOk result (IsKept starts.old starts.new) }
    ensures runs { (rows : List Row) → AreStartsOf rows starts.old
        → OnOk result (runs.new.items ≡ runs.old.items ++ repeats_from day trip 0 (starts_of rows)) }
{
    starts.list(alloc)?;
    add_starts(runs, day, trip, starts.listed())
}

// Adds the repeats of a trip on a day, one for each of these starts.
fn add_starts(runs: &mut Vec<Run>, day: Day, trip: u32, starts: &[u32]) -> Result<(), AllocError>
    ensures { OnOk result (runs.new.items ≡ runs.old.items ++ repeats_from day trip 0 starts.now) }
{
    for (position, start) in starts.iter().enumerate() {
        let Ok(repeat) = u32::try_from(position) else {
            return Err(AllocError);
        };
        runs.push(Run {
            day,
            trip,
            repeat,
            start: Some(*start),
        })?;
    }
    Ok(())
}

// Adds the runs of a trip on a day, if it runs.
fn add_run(
    alloc: Global,
    runs: &mut Vec<Run>,
    day: Day,
    running: bool,
    trip: &Trip,
    position: usize,
    starts: &mut TripStarts,
) -> Result<(), AllocError>
    ensures kept { OnOk result (IsKept starts.old starts.new) }
    ensures runs { (feed : JoinedFeed) → running ≡ runs_then feed day trip.now
        → AreStartsOf (rows_for feed.frequencies.items position) starts.old
        → OnOk result (runs.new.items ≡ runs.old.items ++ runs_at feed day position trip.now) }
{
    if running {
        let Ok(number) = u32::try_from(position) else {
            return Err(AllocError);
        };
        if trip.repeats {
            return add_repeats(alloc, runs, day, number, starts);
        }
        runs.push(Run {
            day,
            trip: number,
            repeat: 0,
            start: None,
        })?;
    }
    Ok(())
}

// Adds the runs of a day: those of the trips that run on it.
fn add_runs_on(
    alloc: Global,
    runs: &mut Vec<Run>,
    day: Day,
    running: &[bool],
    trips: &[Trip],
    starts: &mut Vec<TripStarts>,
) -> Result<(), AllocError>
    requires marked { length running.now ≡ length trips.now }
    requires same { length starts.old.items ≡ length trips.now }
    ensures kept { OnOk result (AreKept starts.old.items starts.new.items) }
    ensures runs { (feed : JoinedFeed) → running.now ≡ map (runs_then feed day) trips.now
        → HoldStarts feed.frequencies.items (length trips.now) starts.old.items
        → OnOk result (runs.new.items ≡ runs.old.items ++ runs_from feed day 0 trips.now) }
{
    for (position, trip) in trips.iter().enumerate() {
        add_run(
            alloc,
            runs,
            day,
            running[position],
            trip,
            position,
            &mut starts[position],
        )?;
    }
    Ok(())
}

// Returns the runs of the days; room is made for `count` of them.
fn list_runs(
    alloc: Global,
    services: &TripServices,
    days: &[ServiceDay],
    trips: &[Trip],
    starts: &mut Vec<TripStarts>,
    count: usize,
) -> Result<Vec<Run>, AllocError>
    requires rising { All (λ trip. trip.first ≤ trip.end) trips.now }
    requires named { length services.now.indices.items ≡ length trips.now }
    requires active { length services.now.active.items ≡ length days.now }
    requires same { length starts.old.items ≡ length trips.now }
    ensures { (feed : JoinedFeed) → feed.trips.items ≡ trips.now
        → HoldStarts feed.frequencies.items (length trips.now) starts.old.items
        → AreActive feed (map (λ d. d.day) days.now) trips.now services.now
        → IfOk result (λ runs. runs.items ≡ runs_of_days feed (map (λ d. d.day) days.now)) }
{
    let mut runs = Vec::with_capacity(alloc, count)?;
    for (number, day) in days.iter().enumerate() {
        let running = running_on(alloc, &services.active[number], &services.indices, trips)?;
        add_runs_on(alloc, &mut runs, day.day, &running, trips, starts)?;
    }
    Ok(runs)
}

// Returns the runs of the days, by day, then by the order of the trips, then by repeat: `TooMany` if there are more
// than `MAX_TRIPS`. A trip or a repeat whose number doesn't fit in 32 bits counts as memory that ran out.
pub(crate) fn runs_on(
    alloc: Global,
    feed: &Feed,
    days: &[ServiceDay],
) -> Result<Vec<Run>, RunsFault>
    requires { All (λ trip. trip.first ≤ trip.end) feed.now.trips.items }
    ensures ok { IfOk result (λ runs. runs.items ≡ runs_of_days feed.now (map (λ d. d.day) days.now)) }
    ensures few { IfOk result (λ runs. length runs.items ≤ MAX_TRIPS) }
    ensures err { IfErr result (λ fault. (fault ≡ no_memory_for_runs)
        ⊎ ((fault ≡ too_many_of Table.Trips) × (MAX_TRIPS < length
        (runs_of_days feed.now (map (λ d. d.day) days.now))))) }
{
    let Ok(services) = Services::new(alloc, feed.hash, &feed.calendar, &feed.calendar_dates) else {
        return Err(out_of_memory());
    };
    let Ok(mut starts) = starts_by_trip(alloc, &feed.frequencies, feed.trips.len()) else {
        return Err(out_of_memory());
    };
    let Ok(services) = TripServices::new(alloc, &services, days, &feed.trips) else {
        return Err(out_of_memory());
    };
    runs_by(alloc, feed, &services, &mut starts, days)
}

// Returns the runs of the days, given the services of the trips and their starts. The starts of a trip are listed
// when its runs are first counted, so memory never holds the starts of many more runs than are allowed.
fn runs_by(
    alloc: Global,
    feed: &Feed,
    services: &TripServices,
    starts: &mut Vec<TripStarts>,
    days: &[ServiceDay],
) -> Result<Vec<Run>, RunsFault>
    requires rising { All (λ trip. trip.first ≤ trip.end) feed.now.trips.items }
    requires starts { HoldStarts feed.now.frequencies.items (length feed.now.trips.items) starts.old.items }
    requires named { length services.now.indices.items ≡ length feed.now.trips.items }
    requires days { length services.now.active.items ≡ length days.now }
    requires active { AreActive feed.now (map (λ d. d.day) days.now) feed.now.trips.items services.now }
    ensures ok { IfOk result (λ runs. runs.items ≡ runs_of_days feed.now (map (λ d. d.day) days.now)) }
    ensures few { IfOk result (λ runs. length runs.items ≤ MAX_TRIPS) }
    ensures err { IfErr result (λ fault. (fault ≡ no_memory_for_runs)
        ⊎ ((fault ≡ too_many_of Table.Trips) × (MAX_TRIPS < length
        (runs_of_days feed.now (map (λ d. d.day) days.now))))) }
{
    let Ok(count) = count_runs(alloc, services, &feed.trips, starts) else {
        return Err(out_of_memory());
    };
    if count > MAX_TRIPS as usize {
        return Err(too_many(Table::Trips));
    }
    match list_runs(alloc, services, days, &feed.trips, starts, count) {
        Ok(runs) => Ok(runs),
        Err(_) => Err(out_of_memory()),
    }
}
