//! Small feeds and the footpaths that they list.

use super::texts::{Case, Reporter, joined, joined_or_refused, number, paths_text, try_cases};
use footpaths::listed;
use gtfs_tables::Feed;
use std::alloc::{AllocError, Global};
use std::fmt::Write;
use std::process::Abort;
use std::test::Fail;
use transfers::{ListingFault, listed_within};

// A is a stop without a station, B and C are stops of the station S, and the station H has no stops. Nothing runs.
const BASE: &str = "\
agency.txt: UTC
stops.txt: A,0,|B,0,S|C,0,S|H,1,|S,1,
trips.txt service_id,trip_id
stop_times.txt trip_id,arrival_time,departure_time,stop_id,stop_sequence
calendar_dates.txt service_id,date,exception_type";

// The feed of these files with rows of transfers, after which there may be lines with other files.
fn feed_with(alloc: Global, transfers: &str) -> Result<Feed, Fail> {
    let files = format!(in alloc; "transfers.txt: {transfers}")?;
    Ok(joined(alloc, files.as_str(), BASE, true)?)
}

// Transfers, each case with what it shows, and the footpaths that are listed.
const TRANSFERS: &str = "
= stops of a station are siblings
> 0 0 0, 1 1 0, 2 1 120, 1 2 120, 2 2 0
= a station without stops
H,A,2,
> 0 0 0, 1 1 0, 2 1 120, 1 2 120, 2 2 0
= a station stands for its stops
S,S,2,180
> 0 0 0, 1 1 180, 2 1 180, 1 2 180, 2 2 180
= two stops of it are kept apart
S,S,2,180|B,C,3,
> 0 0 0, 1 1 180, 2 1 180, 2 2 180
= a loop can't be impossible
B,B,3,|S,S,0,7|S,B,1,9|A,A,3,
> 0 0 0, 1 1 7, 2 1 7, 1 2 7, 2 2 7
= each kind has its times
A,B,2,86401|B,A,1,|A,C,0,|C,A,2,|A,A,0,|B,B,2,|C,C,1,60|C,C,1,50
> 0 0 0, 1 0 0, 2 0 120, 0 1 86400, 1 1 120, 2 1 120, 0 2 120, 1 2 120, 2 2 50
= both stops count before a station
A,S,2,30|A,B,2,300|S,A,2,40|S,A,3,|B,A,2,50
> 0 0 0, 1 0 50, 0 1 300, 1 1 0, 2 1 120, 0 2 30, 1 2 120, 2 2 0
= a station with two stops, and none beside them
S,S,2,180
stops.txt: S,1,|P,0,S|Q,0,S
> 0 0 180, 1 0 180, 0 1 180, 1 1 180
= a station kept apart from itself, but for two stops that a transfer names
S,S,3,|S,S,2,180|B,C,2,60
> 0 0 0, 1 1 180, 1 2 60, 2 2 180
= of a stop's way to its station, which is kept apart from itself, its loop alone is left
C,S,2,50|S,B,2,40|S,S,3,
> 0 0 0, 1 1 40, 2 2 50
= one station is kept apart from another, but not the other from it
S,T,3,|S,T,2,60|P,T,2,30|S,Q,2,20|T,S,2,70
stops.txt: S,1,|T,1,|P,0,S|Q,0,T
> 0 0 0, 1 0 70, 1 1 0
= the same, with a transfer from stop to stop
S,T,3,|P,T,2,30|P,Q,2,40
stops.txt: S,1,|T,1,|P,0,S|Q,0,T
> 0 0 0, 0 1 40, 1 1 0
= rows of the same two places: one forbids, others have times
S,S,2,90|S,S,0,|S,S,3,|S,S,2,30|S,S,4,
> 0 0 0, 1 1 0, 2 2 0";

struct Transfers;

impl Reporter for Transfers {
    fn reported<R: Abort>(&self, _rt: &R, alloc: Global, case: Case<'_>) -> Result<String, Fail> {
        let feed = feed_with(alloc, case.given)?;
        let paths = listed(alloc, &feed)?;
        Ok(paths_text(alloc, &paths)?)
    }
}

#[test]
fn footpaths_are_listed(rt: HostRuntime) -> Result<(), Fail> {
    try_cases(&rt, rt.alloc(), TRANSFERS, &Transfers)
}

// Bounds, each with how many footpaths are listed within it, or the fault.
const BOUNDS: &str = "\
6: 5
5: 5
4: TooMany
0: TooMany";

// How many footpaths are listed within a bound.
fn listed_in(alloc: Global, feed: &Feed, bound: &str) -> Result<Result<usize, ListingFault>, Fail> {
    match listed_within(alloc, feed, number(bound)? as usize) {
        Ok(paths) => Ok(Ok(paths.len())),
        Err(fault) => Ok(Err(fault)),
    }
}

fn try_bounds(rt: &impl Abort, alloc: Global, feed: &Feed, lines: &str) -> Result<(), Fail> {
    for line in lines.split('\n') {
        let (bounds, wanted) = line.split_once(": ").unwrap_or((line, ""));
        let reported = match listed_in(alloc, feed, bounds)? {
            Ok(count) => format!(in alloc; "{count}")?,
            Err(fault) => format!(in alloc; "{fault:?}")?,
        };
        assert_eq!(rt; reported.as_str(), wanted, "{line}");
    }
    Ok(())
}

#[test]
fn no_more_than_allowed(rt: HostRuntime) -> Result<(), Fail> {
    let feed = feed_with(rt.alloc(), "")?;
    try_bounds(&rt, rt.alloc(), &feed, BOUNDS)
}

// A station of so many platforms.
fn platforms(alloc: Global, count: u32) -> Result<String, Fail> {
    let mut stops = String::from_str(alloc, "stops.txt: S,1,")?;
    for platform in 0..count {
        write!(stops, "|P{platform},0,S")?;
    }
    Ok(stops)
}

// A station of so many platforms with these transfers.
fn station(alloc: Global, count: u32, transfers: &str) -> Result<Feed, Fail> {
    let stops = platforms(alloc, count)?;
    let files = format!(in alloc; "transfers.txt: {transfers}\n{stops}")?;
    Ok(joined(alloc, files.as_str(), BASE, true)?)
}

// How many footpaths such a station lists, if there may be as many as it has platforms.
fn listed_at(alloc: Global, count: u32, transfers: &str) -> Result<Option<usize>, Fail> {
    let feed = station(alloc, count, transfers)?;
    match listed_within(alloc, &feed, count as usize) {
        Ok(paths) => Ok(Some(paths.len())),
        Err(_) => Ok(None),
    }
}

// The pairs of such a station aren't gone through: there are 400,000,000 of them.
#[test]
fn a_station_that_forbids_lists_loops(rt: HostRuntime) -> Result<(), Fail> {
    assert_eq!(rt; listed_at(rt.alloc(), 20_000, "S,S,3,")?, Some(20_000));
    assert_eq!(rt; listed_at(rt.alloc(), 20_000, "S,S,2,")?, None);
    Ok(())
}

// Whichever growth is refused, the fault is that memory ran out. A refused growth ends the test with `AllocError`.
#[test]
fn refused_growth_is_reported(rt: HostRuntime) -> Result<(), Fail> {
    let feed = joined_or_refused(&rt, rt.alloc(), "transfers.txt: S,S,2,180", BASE)?;
    match listed(rt.alloc(), &feed) {
        Ok(paths) => assert_eq!(rt; paths.len(), 5),
        Err(_) => return Err(AllocError.into()),
    }
    Ok(())
}
