//! The order of the rows of stop_times.txt: by trip, then by stop_sequence, then by record.

ghost use Rattle.std.specs.Prelude.{◌≡◌, ◌<◌, ◌+◌, List, length, map, IfOk, IfSome, IsSortedBy, false};
ghost use Rattle.std.specs.Prelude.{slice_index_or};
ghost use Rattle.gtfs_rows.specs.declared.rows.StopTimeRow.{StopTimeRow as FiledRow};
ghost use Rattle.gtfs_tables.specs.Order.{IsInOrder, comes_before, sort_key_of};
ghost use Rattle.gtfs_tables.specs.Order.{sort_keys_by, sort_keys_from, sort_keys_in};
ghost use Rattle.gtfs_tables.specs.Rows.{lack_stops};

use crate::links::index_at;
use gtfs_rows::StopTimeRow;
use std::alloc::{AllocError, Global};

/// The sort key of a row: the index of its trip, its stop_sequence, and the number of its record.
#[derive(Clone, Copy, Debug, PartialEq, Eq, PartialOrd, Ord)]
pub struct SortKey {
    pub trip: u32,
    pub sequence: u32,
    pub number: u64,
}

/// The order of the rows: that of the file, or that of a list of sort keys.
#[derive(Drop)]
pub enum RowOrder {
    Filed,
    ByKeys(Vec<SortKey>),
}

// Returns the order of the rows, and whether any may lack a stop. A list of sort keys is made only if the rows aren't
// already in order; whether they lack stops isn't known then.
pub(crate) fn order_of_rows(
    alloc: Global,
    rows: &[StopTimeRow],
    trips: &[Option<u32>],
) -> Result<(RowOrder, bool), AllocError>
    ensures order { IfOk result (λ found. IsInOrder trips.now rows.now (sort_keys_in trips.now found.0 rows.now)) }
    ensures stops { IfOk result (λ found. found.1 ≡ false → lack_stops rows.now ≡ false) }
{
    if let Some(lack_stops) = in_file_order(rows, trips) {
        return Ok((RowOrder::Filed, lack_stops));
    }
    let sort_keys = sorted_keys(alloc, rows, trips)?;
    Ok((RowOrder::ByKeys(sort_keys), true))
}

// Returns the sort keys of the rows, in order.
pub(crate) fn sorted_keys(
    alloc: Global,
    rows: &[StopTimeRow],
    trips: &[Option<u32>],
) -> Result<Vec<SortKey>, AllocError>
    ensures { IfOk result (λ sort_keys. IsInOrder trips.now rows.now sort_keys.items) }
{
    let mut sort_keys = sort_keys_of(alloc, rows, trips)?;
    sort_keys.sort()?;
    Ok(sort_keys)
}

// Returns the sort keys of the rows, in the order of the file.
fn sort_keys_of(
    alloc: Global,
    rows: &[StopTimeRow],
    trips: &[Option<u32>],
) -> Result<Vec<SortKey>, AllocError>
    ensures { IfOk result (λ sort_keys. sort_keys.items ≡ sort_keys_from trips.now 1 rows.now) }
{
    let mut sort_keys = Vec::with_capacity(alloc, rows.len())?;
    for (index, row) in rows.iter().enumerate() {
        sort_keys.push(sort_key_of(trips, row, index))?;
    }
    Ok(sort_keys)
}

// Returns the sort key of the row at an index in the file.
fn sort_key_of(trips: &[Option<u32>], row: &StopTimeRow, index: usize) -> SortKey
    requires { index < usize.MAX }
    ensures { result ≡ sort_key_of trips.now (index + 1) row.now }
{
    SortKey {
        trip: index_at(trips, row.trip).unwrap_or(0),
        sequence: row.sequence,
        number: index as u64 + 1,
    }
}

// Returns whether any row lacks a stop, if the rows are already in the order of their sort keys. One pass over the rows
// finds out both.
fn in_file_order(rows: &[StopTimeRow], trips: &[Option<u32>]) -> Option<bool>
    ensures order { IfSome result (λ lack. IsSortedBy comes_before (sort_keys_from trips.now 1 rows.now)) }
    ensures stops { IfSome result (λ lack. lack ≡ lack_stops rows.now) }
{
    if rows.is_empty() {
        return Some(false);
    }
    let mut last = sort_key_of(trips, &rows[0], 0);
    let mut lack_stops = rows[0].stop.is_none();
    for at in 1..rows.len() {
        let sort_key = sort_key_of(trips, &rows[at], at);
        if sort_key < last {
            return None;
        }
        last = sort_key;
        lack_stops |= rows[at].stop.is_none();
    }
    Some(lack_stops)
}

// Returns the trip of the row at an index; the rows are in order.
pub(crate) fn trip_at(rows: &[StopTimeRow], order: &RowOrder, at: usize) -> u32
    requires within { at < length rows.now }
    requires len { length rows.now ≡ length (sort_keys_by order.now rows.now) }
    ensures { (d : SortKey) → result ≡ (slice_index_or (sort_keys_by order.now rows.now) at d).trip }
{
    match order {
        RowOrder::Filed => rows[at].trip,
        RowOrder::ByKeys(sort_keys) => sort_keys[at].trip,
    }
}

pub(crate) fn number_at(order: &RowOrder, at: usize) -> u64
    requires { at < usize.MAX }
    ensures { (rows : List FiledRow) → at < length rows
        → result ≡ slice_index_or (map (λ sort_key. sort_key.number) (sort_keys_by order.now rows)) at 0 }
{
    match order {
        RowOrder::Filed => at as u64 + 1,
        RowOrder::ByKeys(sort_keys) => match sort_keys.get(at) {
            Some(sort_key) => sort_key.number,
            None => 0,
        },
    }
}
