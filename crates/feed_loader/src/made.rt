//! Makes connections, footpaths and names of a joined feed, and of these an image.

ghost use Rattle.std.specs.Prelude.{◌≡◌, ◌≤◌, ◌<◌, ◌+◌, ◌⊎◌, ℤ, length, IfOk, IfErr};
ghost use Rattle.timetable.specs.declared.limits.TheConstants.{MAX_NAME_BYTES};
ghost use Rattle.image_layout.specs.declared.layout.TheConstants.{LAYOUT};
ghost use Rattle.image_layout.specs.Spelling.{text};
ghost use Rattle.service_days.specs.Zones.{IsDayStart};
ghost use Rattle.connections.specs.declared.days.TheConstants.{MAX_DAYS};
ghost use Rattle.feed_loader.specs.Loaded.{AreNames, IsMade};
ghost use Rattle.feed_loader.specs.Refused.{AreNamesRefused, IsFeedRefusal, RunsOut};

use crate::closed::closed_footpaths;
use crate::fault::{LoadFault, out_of_memory, too_many};
use crate::names::{count_name_bytes, run_names, stop_names};
use crate::plan::Plan;
use crate::writing::written;
use connections::laws::{listing_is_legal, listing_is_within_limits};
use connections::{Report, Run, runs_of};
use gtfs_tables::{Feed, Table};
use image_verifier::Verified;
use service_days::day_start;
use service_days::laws::started_or_not;
use std::alloc::Global;
use timetable::limits::{MAX_NAME_BYTES, MAX_STOPS};
use timetable::{Names, Timetable};

// Returns the names of a feed's stops and runs, and the base, which is the start of the first day: `TooMany` of
// `trips.txt` if the names are too long together.
fn short_names(alloc: Global, feed: &Feed, plan: &Plan, runs: &[Run]) -> Result<Names, LoadFault>
    requires { (base : ℤ) × IsDayStart plan.now.zone plan.now.first_day base }
    ensures ok { IfOk result (AreNames feed.now plan.now runs.now) }
    ensures short { IfOk result (λ names. length (text names) ≤ MAX_NAME_BYTES) }
    ensures err { IfErr result (AreNamesRefused feed.now plan.now runs.now) }
{
    started_or_not();
    let Ok(base) = day_start(&plan.zone, plan.first_day) else {
        unreachable!();
    };
    if count_name_bytes(feed, runs) > MAX_NAME_BYTES as usize {
        return Err(too_many(Table::Trips));
    }
    let Ok(stops) = stop_names(alloc, &feed.stops) else {
        return Err(out_of_memory(Table::Stops));
    };
    let Ok(trips) = run_names(alloc, &feed.trips, runs) else {
        return Err(out_of_memory(Table::Trips));
    };
    Ok(Names { base, stops, trips })
}

/// Returns the image of a joined feed, in the layout that is written, and the counts. The image has the feed's stops,
/// with their stop_ids as names; each run on the days of the plan as a trip, with its trip_id as name, its day, and
/// its number among the runs of its trip on that day; the connections of the runs; and the closure of the footpaths
/// that the feed lists. Times count from the start of the first day.
///
/// # Errors
///
/// The first thing that is wrong: too many stops (`TooMany` of `stops.txt`), then what `runs_of` refuses, then names
/// that are too long together (`TooMany` of `trips.txt`), then a closure with too many footpaths or one that takes too
/// long. Memory may run out at any time: for the days (23), the runs and their connections (17 of `stop_times.txt`),
/// the names (17 of `stops.txt` or `trips.txt`), the footpaths (43), the words of the image (17 of `trips.txt`) and
/// their verification (76), in this order.
pub fn image_of(alloc: Global, feed: &Feed, plan: &Plan) -> Result<(Verified, Report), LoadFault>
    requires some { 1 ≤ plan.now.days }
    requires few { plan.now.days ≤ MAX_DAYS }
    ensures layout { IfOk result (λ made. made.0.layout ≡ LAYOUT) }
    ensures ok { IfOk result (λ made. IsMade feed.now plan.now made.0.timetable made.0.names made.1) }
    ensures err { IfErr result (λ fault. RunsOut feed.now plan.now fault ⊎ IsFeedRefusal feed.now plan.now fault) }
{
    listing_is_legal();
    listing_is_within_limits();
    if feed.stops.len() > MAX_STOPS as usize {
        return Err(too_many(Table::Stops));
    }
    let (connections, runs, report) = runs_of(alloc, feed, plan.first_day, plan.days, &plan.zone)?;
    let names = short_names(alloc, feed, plan, &runs)?;
    let footpaths = closed_footpaths(alloc, feed, feed.stops.len() as u32)?;
    let report = Report {
        footpaths: footpaths.len(),
        ..report
    };
    let timetable = Timetable {
        stops: feed.stops.len() as u32,
        trips: runs.len() as u32,
        connections,
        footpaths,
    };
    let image = written(alloc, &timetable, &names)?;
    Ok((image, report))
}
