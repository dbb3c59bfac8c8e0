//! The counts of a feed and of its connections.

ghost use Rattle.std.specs.Prelude.{◌≡◌, length, count_by};
ghost use Rattle.connections.specs.Outcome.{IsReport};
ghost use Rattle.connections.specs.Times.{AreTimesOf};

use crate::times::TripTimes;
use gtfs_tables::{Feed, Trip};

/// How much a feed has, and how much was made from it.
#[derive(Clone, Copy, Debug, PartialEq, Eq)]
pub struct Report {
    /// The stops and platforms.
    pub stops: usize,
    pub runs: usize,
    pub connections: usize,
    /// The footpaths of the closure, 0 until it is made.
    pub footpaths: usize,
    /// The trips, running or not, that make connections and that lifting changed.
    pub lifted: usize,
    /// The trips, running or not, that have a row with a blank stop_id.
    pub flex: usize,
    /// The trips, running or not, that `frequencies.txt` names.
    pub frequencies: usize,
    /// The rows of `transfers.txt` that were skipped.
    pub skipped: usize,
}

// Returns how many trips were lifted.
fn lifted_in(times: &[TripTimes]) -> usize
    ensures { result ≡ count_by (λ trip. trip.lifted) times.now }
{
    times.iter().filter(|trip| trip.lifted).count()
}

// Returns how many trips are flex trips.
fn flex_in(trips: &[Trip]) -> usize
    ensures { result ≡ count_by (λ trip. trip.flex) trips.now }
{
    trips.iter().filter(|trip| trip.flex).count()
}

// Returns how many trips repeat.
fn repeats_in(trips: &[Trip]) -> usize
    ensures { result ≡ count_by (λ trip. trip.repeats) trips.now }
{
    trips.iter().filter(|trip| trip.repeats).count()
}

// Returns the counts of a feed whose trips have these times, with this many runs and connections.
pub(crate) fn report_of(feed: &Feed, times: &[TripTimes], runs: usize, connections: usize) -> Report
    requires { AreTimesOf feed.now.stop_times.items feed.now.trips.items times.now }
    ensures { IsReport feed.now runs connections result }
{
    Report {
        stops: feed.stops.len(),
        runs,
        connections,
        footpaths: 0,
        lifted: lifted_in(times),
        flex: flex_in(&feed.trips),
        frequencies: repeats_in(&feed.trips),
        skipped: feed.skipped,
    }
}
