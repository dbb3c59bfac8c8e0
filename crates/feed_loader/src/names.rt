//! The names of a feed's stops and runs: a stop's stop_id, and a run's trip_id with its day and its repeat.

ghost use Rattle.std.specs.Prelude.{◌≡◌, ◌+◌, min, map, IfOk};
ghost use Rattle.std.specs.String.{string_bytes};
ghost use Rattle.feed_loader.specs.Loaded.{day_number, run_name};
ghost use Rattle.feed_loader.specs.NameBytes.{run_bytes, stop_bytes};

use connections::Run;
use gtfs_tables::{Day, Feed, Stop, Trip};
use std::alloc::{AllocError, Global};
use timetable::TripName;

/// Returns a day as the number YYYYMMDD.
pub fn day_number(day: Day) -> u32
    ensures { result ≡ day_number day }
{
    10_000 * day.year as u32 + 100 * day.month as u32 + day.day as u32
}

// Returns how many bytes the names of stops have together, or the greatest number if they have more.
fn count_stop_bytes(stops: &[Stop]) -> usize
    ensures { result ≡ min (stop_bytes stops.now) usize.MAX }
{
    let mut count = 0usize;
    for stop in stops {
        count = count.saturating_add(stop.id.len());
    }
    count
}

// Returns the trip_id of a run's trip.
fn run_id<'a>(trips: &'a [Trip], run: &Run) -> &'a str
    ensures { result.now ≡ (run_name trips.now run.now).name }
{
    match trips.get(run.trip as usize) {
        Some(trip) => &trip.id,
        None => "",
    }
}

// Returns how many bytes the names of runs have together, or the greatest number if they have more.
fn count_run_bytes(trips: &[Trip], runs: &[Run]) -> usize
    ensures { result ≡ min (run_bytes trips.now runs.now) usize.MAX }
{
    let mut count = 0usize;
    for run in runs {
        count = count.saturating_add(run_id(trips, run).len());
    }
    count
}

/// Returns how many bytes the names of stops and runs have together, or the greatest number if they have more.
pub fn count_name_bytes(feed: &Feed, runs: &[Run]) -> usize
    ensures { result ≡ min (stop_bytes feed.now.stops.items + run_bytes feed.now.trips.items runs.now) usize.MAX }
{
    count_stop_bytes(&feed.stops).saturating_add(count_run_bytes(&feed.trips, runs))
}

/// Returns the names of stops, which are their stop_ids. Memory may run out.
pub fn stop_names(alloc: Global, stops: &[Stop]) -> Result<Vec<String>, AllocError>
    ensures { IfOk result (λ names. map string_bytes names.items ≡ map (λ stop. string_bytes stop.id) stops.now) }
{
    let mut names = Vec::with_capacity(alloc, stops.len())?;
    for stop in stops {
        names.push(String::from_str(alloc, &stop.id)?)?;
    }
    Ok(names)
}

/// Returns the names of runs: each has the trip_id of its trip, its day, and its number among the runs of the trip on
/// that day. Memory may run out.
pub fn run_names(alloc: Global, trips: &[Trip], runs: &[Run]) -> Result<Vec<TripName>, AllocError>
    ensures { IfOk result (λ names. names.items ≡ map (run_name trips.now) runs.now) }
{
    let mut names = Vec::with_capacity(alloc, runs.len())?;
    for run in runs {
        let name = String::from_str(alloc, run_id(trips, run))?;
        let day = day_number(run.day);
        names.push(TripName {
            name,
            day,
            repeat: run.repeat,
        })?;
    }
    Ok(names)
}
