//! The times of a trip's rows: spread over the blank rows, then lifted, so that each arrival is after the departure
//! before it.

ghost use Rattle.std.specs.Prelude.{◌≡◌, ◌≤◌, ◌<◌, ◌+◌, ◌-◌, ◌^◌, max, not, ◌&&◌, ◌==◌, length, IfOk, IfSome};
ghost use Rattle.std.specs.Prelude.{MatchOption, IsSome, is_none, unwrap_or};
ghost use Rattle.std.specs.List.{list_any};
ghost use Rattle.gtfs_tables.specs.Spread.{arrival_at, arrival_of, departure_of};
ghost use Rattle.gtfs_tables.specs.Times.{arrives_spread, departs_spread};
ghost use Rattle.connections.specs.Times.{AreSpread, AreTimes, lifted_by};

use gtfs_tables::laws::spread_times;
use gtfs_tables::{StopTimeRow, spread};
use std::alloc::{AllocError, Global};

/// When a trip arrives at a row's stop and departs from it, in seconds after the start of the service day.
#[derive(Clone, Copy, Debug, PartialEq, Eq)]
pub struct RowTimes {
    pub arrival: u64,
    pub departure: u64,
}

/// The times of a trip's rows.
#[derive(Debug, Drop)]
pub struct TripTimes {
    pub rows: Vec<RowTimes>,
    /// Whether lifting changed any of the times.
    pub lifted: bool,
}

/// Returns the times of a trip's rows, which are in order: spread over the blank rows, and then lifted, so that each
/// arrival is after the departure before it. Row by row, an arrival becomes at least one second later than the lifted
/// departure before it, and a departure no earlier than the lifted arrival; the first row's times stay.
///
/// The only error is that memory ran out.
pub fn trip_times(alloc: Global, rows: &[StopTimeRow]) -> Result<TripTimes, AllocError>
    requires first { IsSome (arrival_at rows.now 0) }
    requires last { IsSome (arrival_at rows.now (length rows.now - 1)) }
    ensures { IfOk result (AreTimes rows.now) }
{
    let spread = spread_if_blank(alloc, rows)?;
    let mut times = Vec::with_capacity(alloc, rows.len())?;
    let mut lifted = false;
    let mut left = None;
    for index in 0..rows.len() {
        let (arrival, departure) = time_at(rows, &spread, index);
        let time = lift(left, arrival, departure);
        lifted |= is_lifted(time, arrival, departure);
        left = Some(time.departure);
        times.push(time)?;
    }
    Ok(TripTimes {
        rows: times,
        lifted,
    })
}

// Returns whether any row has no time.
fn has_blank(rows: &[StopTimeRow]) -> bool
    ensures { result ≡ list_any (λ row. is_none (arrival_of row)) rows.now }
{
    rows.iter()
        .any(|row| row.arrival.is_none() && row.departure.is_none())
}

// Returns the arrivals and departures of a trip's rows, spread over the blank rows, or none if no row is blank, as with
// most trips. Memory may run out.
fn spread_if_blank(
    alloc: Global,
    rows: &[StopTimeRow],
) -> Result<Option<Vec<(u32, u32)>>, AllocError>
    requires first { IsSome (arrival_at rows.now 0) }
    requires last { IsSome (arrival_at rows.now (length rows.now - 1)) }
    ensures { IfOk result (AreSpread rows.now) }
{
    if has_blank(rows) {
        let times = spread(alloc, rows)?;
        return Ok(Some(times));
    }
    Ok(None)
}

// Returns the arrival and the departure of the row at an index, once they are spread.
fn time_at(rows: &[StopTimeRow], spread: &Option<Vec<(u32, u32)>>, index: usize) -> (u32, u32)
    requires index { index < length rows.now }
    requires first { IsSome (arrival_at rows.now 0) }
    requires last { IsSome (arrival_at rows.now (length rows.now - 1)) }
    requires spread { AreSpread rows.now spread.now }
    ensures { result ≡ (arrives_spread rows.now index, departs_spread rows.now index) }
{
    spread_times();
    match spread {
        Some(times) => times[index],
        None => given_times(&rows[index]),
    }
}

// Returns the arrival and the departure of a row. If only one is given, it serves for both; if neither is, both are 0.
fn given_times(row: &StopTimeRow) -> (u32, u32)
    ensures { result ≡ (unwrap_or (arrival_of row.now) 0, unwrap_or (departure_of row.now) 0) }
{
    let arrival = row.arrival.or(row.departure);
    let departure = row.departure.or(row.arrival);
    (arrival.unwrap_or(0), departure.unwrap_or(0))
}

// Returns a row's times as lifted, given the lifted departure before it.
fn lift(left: Option<u64>, arrival: u32, departure: u32) -> RowTimes
    requires { IfSome left (λ time. time + 1 < 2 ^ 64) }
    ensures value { result ≡ lifted_by left arrival departure }
    ensures range { (arrival < 2 ^ 32) × (departure < 2 ^ 32) }
{
    match left {
        None => RowTimes {
            arrival: arrival as u64,
            departure: departure as u64,
        },
        Some(left) => {
            let arrival = (arrival as u64).max(left + 1);
            RowTimes {
                arrival,
                departure: (departure as u64).max(arrival),
            }
        }
    }
}

// Returns whether lifting changed a row's times.
fn is_lifted(time: RowTimes, arrival: u32, departure: u32) -> bool
    ensures { result ≡ not ((time.arrival == arrival) && (time.departure == departure)) }
{
    time.arrival != arrival as u64 || time.departure != departure as u64
}
