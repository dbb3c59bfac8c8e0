//! Gives times to the blank rows of a trip.

ghost use Rattle.std.specs.Prelude.{◌≡◌, ◌+◌, ◌-◌, ◌*◌, ◌/◌, ◌<◌, ◌≤◌, ℕ, None, Some, length, slice_index_or, IfOk};
ghost use Rattle.std.specs.Prelude.{IsSome, OnOk};
ghost use Rattle.gtfs_tables.specs.Spread.{IsSpread, arrival_at, departure_at, part_of};

use gtfs_rows::StopTimeRow;
use std::alloc::{AllocError, Global};

/// Returns the arrival and the departure of each of a trip's rows, in seconds after the start of the service day. The
/// rows are in order. The time between the departure before a sequence of blank rows and the arrival after it is cut
/// into equal parts, whose ends are rounded down to whole seconds. Memory may run out.
pub fn spread(alloc: Global, rows: &[StopTimeRow]) -> Result<Vec<(u32, u32)>, AllocError>
    requires first { IsSome (arrival_at rows.now 0) }
    requires last { IsSome (arrival_at rows.now (length rows.now - 1)) }
    ensures { IfOk result (λ times. IsSpread rows.now times.items) }
{
    let mut times = Vec::with_capacity(alloc, rows.len())?;
    let mut at = 0;
    while at < rows.len() {
        let next = next_given(rows, at + 1);
        add_times(&mut times, rows, at, next)?;
        at = next;
    }
    Ok(times)
}

// Returns the index of the first row at or after `from` that has a time, or the number of rows if there is none.
fn next_given(rows: &[StopTimeRow], from: usize) -> usize
    requires { from ≤ length rows.now }
    ensures from { from ≤ result }
    ensures within { result ≤ length rows.now }
    ensures blank { (m : ℕ) → from ≤ m → m < result → arrival_at rows.now m ≡ None }
    ensures given { result < length rows.now → IsSome (arrival_at rows.now result) }
{
    for at in from..rows.len() {
        if arrival(rows, at).is_some() {
            return at;
        }
    }
    rows.len()
}

// Adds the times of a row that has one, and of the blank rows after it, up to the next that has one.
fn add_times(
    times: &mut Vec<(u32, u32)>,
    rows: &[StopTimeRow],
    at: usize,
    next: usize,
) -> Result<(), AllocError>
    requires rising { at < next }
    requires within { next ≤ length rows.now }
    requires from { IsSome (arrival_at rows.now at) }
    requires to { next < length rows.now → IsSome (arrival_at rows.now next) }
    requires end { length rows.now ≤ next → at + 1 ≡ next }
    ensures len { OnOk result (length times.new.items ≡ length times.old.items + (next - at)) }
    ensures kept { OnOk result ((i : ℕ) → i < length times.old.items
        → slice_index_or times.new.items i (0, 0) ≡ slice_index_or times.old.items i (0, 0)) }
    ensures given { (a d : ℕ) → arrival_at rows.now at ≡ Some a → departure_at rows.now at ≡ Some d
        → OnOk result (slice_index_or times.new.items (length times.old.items) (0, 0) ≡ (a, d)) }
    ensures blank { (d b : ℕ) → departure_at rows.now at ≡ Some d → arrival_at rows.now next ≡ Some b
        → OnOk result ((j : ℕ) → 0 < j → j < next - at
        → slice_index_or times.new.items (length times.old.items + j) (0, 0) ≡ (
          part_of d b (next - at) j,
          part_of d b (next - at) j,
        )) }
{
    let Some(arrives) = arrival(rows, at) else {
        unreachable!();
    };
    let Some(departs) = departure(rows, at) else {
        unreachable!();
    };
    times.push((arrives, departs))?;
    if next == rows.len() {
        return Ok(());
    }
    let Some(to) = arrival(rows, next) else {
        unreachable!();
    };
    add_parts(times, departs, to, next - at)
}

// Adds the ends of all parts but the last, each as arrival and departure.
fn add_parts(
    times: &mut Vec<(u32, u32)>,
    from: u32,
    to: u32,
    parts: usize,
) -> Result<(), AllocError>
    requires { 0 < parts }
    ensures len { OnOk result (length times.new.items + 1 ≡ length times.old.items + parts) }
    ensures kept { OnOk result ((i : ℕ) → i < length times.old.items
        → slice_index_or times.new.items i (0, 0) ≡ slice_index_or times.old.items i (0, 0)) }
    ensures parts { OnOk result ((j : ℕ) → 0 < j → j < parts
        → slice_index_or times.new.items (length times.old.items + j - 1) (0, 0) ≡ (
          part_of from to parts j,
          part_of from to parts j,
        )) }
{
    for j in 1..parts {
        let time = part(from, to, parts, j);
        times.push((time, time))?;
    }
    Ok(())
}

// Returns the end of the j-th part, in seconds after the start of the service day.
fn part(from: u32, to: u32, parts: usize, j: usize) -> u32
    requires some { 0 < parts }
    requires within { j ≤ parts }
    ensures { result ≡ part_of from to parts j }
{
    let span = to.saturating_sub(from);
    from + ((j as u128 * span as u128) / parts as u128) as u32
}

// Returns the arrival of the row at an index, or its departure if it has no arrival.
pub(crate) fn arrival(rows: &[StopTimeRow], at: usize) -> Option<u32>
    requires { at < length rows.now }
    ensures { result ≡ arrival_at rows.now at }
{
    let row = &rows[at];
    row.arrival.or(row.departure)
}

// Returns the departure of the row at an index, or its arrival if it has no departure.
pub(crate) fn departure(rows: &[StopTimeRow], at: usize) -> Option<u32>
    requires { at < length rows.now }
    ensures { result ≡ departure_at rows.now at }
{
    let row = &rows[at];
    row.departure.or(row.arrival)
}
