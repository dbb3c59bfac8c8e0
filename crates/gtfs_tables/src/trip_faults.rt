//! All faults in the times of trips.

ghost use Rattle.std.specs.Prelude.{◌≡◌, ◌≤◌, ◌++◌, length, option_map, IfOk, IsSortedBy, OnOk};
ghost use Rattle.std.specs.List.{slice_range};
ghost use Rattle.std.specs.Option.{option_to_list};
ghost use Rattle.gtfs_tables.specs.Feeds.{fault_of_row, trip_fault};
ghost use Rattle.gtfs_tables.specs.First.{all_below};
ghost use Rattle.gtfs_tables.specs.Order.{comes_before, sort_keys_by};
ghost use Rattle.gtfs_tables.specs.TimeFaults.{AreTimeFaults};
ghost use Rattle.gtfs_tables.specs.Times.{first_wrong as wrong_first};

use crate::joining::{end_of_trip, fault_at_row};
use crate::links::{RowNames, flex_ids, linked_by_sort_keys};
use crate::names::StopIdTarget;
use crate::order::{RowOrder, sorted_keys};
use crate::times::first_wrong;
use gtfs_rows::{StopTimeRow, TableFault};
use std::alloc::{AllocError, Global};

/// Returns the first fault in the times of each trip that has one, in the order of the trips: `SequenceTwice`,
/// `EndWithoutTime`, `TimeGoesBack`, and if `strict`, `HopWithoutDuration`. `trips` and `stops` say what the trip_ids
/// and the stop_ids name: a row's trip is the number that is named, 0 if there is none; trips with a number of `count`
/// or more aren't judged, nor those with a row whose stop_id names no stop. Memory may run out.
pub fn time_faults(
    alloc: Global,
    rows: &[StopTimeRow],
    trips: Vec<Option<u32>>,
    stops: Vec<Option<StopIdTarget>>,
    count: usize,
    strict: bool,
) -> Result<Vec<TableFault>, AllocError>
    ensures { IfOk result (λ faults. AreTimeFaults trips.items stops.items rows.now count strict faults.items) }
{
    let flex = flex_ids(alloc, rows, trips.len(), true)?;
    let sort_keys = sorted_keys(alloc, rows, &trips)?;
    let names = RowNames { trips, stops, flex };
    let ordered = linked_by_sort_keys(alloc, rows, &sort_keys, &names)?;
    let order = RowOrder::ByKeys(sort_keys);
    faults_of_trips(alloc, &ordered, &order, count, strict)
}

// Returns the first fault of each trip that has one; the rows are in order.
fn faults_of_trips(
    alloc: Global,
    rows: &[StopTimeRow],
    order: &RowOrder,
    count: usize,
    strict: bool,
) -> Result<Vec<TableFault>, AllocError>
    requires len { length rows.now ≡ length (sort_keys_by order.now rows.now) }
    requires rising { IsSortedBy comes_before (sort_keys_by order.now rows.now) }
    ensures { IfOk result (λ faults. faults.items
        ≡ all_below (trip_fault strict (sort_keys_by order.now rows.now) rows.now) count) }
{
    let mut faults = Vec::new(alloc);
    let mut first = 0;
    for trip in 0..count {
        let end = end_of_trip(rows, order, first, trip);
        let fault = fault_of_trip(alloc, rows, order, first, end, strict)?;
        add_fault(&mut faults, fault)?;
        first = end;
    }
    Ok(faults)
}

// Adds a fault, if there is one.
fn add_fault(faults: &mut Vec<TableFault>, fault: Option<TableFault>) -> Result<(), AllocError>
    ensures { OnOk result (faults.new.items ≡ faults.old.items ++ option_to_list fault) }
{
    if let Some(fault) = fault {
        faults.push(fault)?;
    }
    Ok(())
}

// Returns the first fault in the times of a trip, whose rows are those from `first` up to but not including `end`.
pub(crate) fn fault_of_trip(
    alloc: Global,
    rows: &[StopTimeRow],
    order: &RowOrder,
    first: usize,
    end: usize,
    strict: bool,
) -> Result<Option<TableFault>, AllocError>
    requires rising { first ≤ end }
    requires within { end ≤ length rows.now }
    ensures { IfOk result (λ fault. fault
        ≡ option_map (fault_of_row (slice_range (sort_keys_by order.now rows.now) first end))
        (wrong_first strict (slice_range rows.now first end))) }
{
    match first_wrong(alloc, &rows[first..end], strict)? {
        Some((at, kind)) => Ok(Some(fault_at_row(order, first, end, at, kind))),
        None => Ok(None),
    }
}
