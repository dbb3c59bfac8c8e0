//! Tables with a limit on the number of their rows.

ghost use Rattle.std.specs.Prelude.{◌≡◌, ◌≢◌, ℕ, List, IfOk, IfErr, count_by, length, ⊤};
ghost use Rattle.gtfs_rows.specs.Tables.{HoldsRows, HoldsWithin, IsFaultWithin, is_stop, location_of};
ghost use Rattle.gtfs_rows.specs.Values.{number_of};
ghost use Rattle.gtfs_rows.specs.declared.limited.TheConstants.{MAX_STOPS, MAX_TRIPS};

use crate::fault::{FaultKind, Table, TableFault};
use crate::id_hash::IdHash;
use crate::keyed::Row;
use crate::reader::TableFile;
use crate::rows::{Location, StopRow, TripRow};
use crate::values::number;
use std::alloc::Global;

/// The greatest number of stops of a feed.
pub const MAX_STOPS: usize = 1_000_000;

/// The greatest number of trips of a feed.
pub const MAX_TRIPS: usize = 20_000_000;

/// A row of a table with a limit on the number of its rows.
pub trait LimitedRow: Row {
    ghost LIMIT: { ℕ };

    ghost count: { List Self → ℕ };

    /// How many rows may count at most.
    const LIMIT: usize;

    /// Returns how many of the rows count towards the limit.
    fn count(rows: &[Self]) -> usize
        ensures { result ≡ count rows.now };
}

/// Returns the kind of place that a location_type of `stops.txt` stands for.
pub fn location(text: &[u8]) -> Location
    ensures { result ≡ location_of (number_of text.now) }
{
    match number(text) {
        Some(1) => Location::Station,
        Some(2) => Location::Entrance,
        Some(3) => Location::Node,
        Some(4) => Location::BoardingArea,
        _ => Location::Stop,
    }
}

impl LimitedRow for StopRow {
    ghost LIMIT = { MAX_STOPS };

    ghost count = { count_by is_stop };

    const LIMIT: usize = MAX_STOPS;

    fn count(rows: &[StopRow]) -> usize {
        rows.iter()
            .filter(|row| row.location == Location::Stop)
            .count()
    }
}

impl LimitedRow for TripRow {
    ghost LIMIT = { MAX_TRIPS };

    ghost count = { length };

    const LIMIT: usize = MAX_TRIPS;

    fn count(rows: &[TripRow]) -> usize {
        rows.len()
    }
}

/// The rows of a file, within the limit of its table.
#[derive(Drop)]
pub struct RowsWithinLimit<R> {
    pub rows: Vec<R>,
}

/// Returns the rows of a file, of which at most `limit` may count: in `stops.txt` the stops, in `trips.txt` all rows.
/// Ids are looked up by the hash.
///
/// # Errors
///
/// The first fault of the file. If it has none but more rows count: `TooMany`, with 0 as the record's number.
pub fn rows_up_to<R: LimitedRow>(
    limit: usize,
    alloc: Global,
    hash: IdHash,
    bytes: &[u8],
) -> Result<Vec<R>, TableFault>
    ensures ok { IfOk result (λ rows. HoldsWithin (HoldsRows R.TABLE R.spells) R.count limit bytes.now
        rows.items) }
    ensures file { IfErr result (λ fault. fault.file ≡ R.TABLE) }
    ensures err { IfErr result (λ fault. fault.kind ≢ FaultKind.OutOfMemory
        → IsFaultWithin R.TABLE (HoldsRows R.TABLE R.spells) R.count limit bytes.now fault.row
        fault.kind) }
{
    let rows: Vec<R> = TableFile::read(alloc, hash, bytes)?;
    if R::count(&rows) > limit {
        return Err(R::TABLE.fault(0, FaultKind::TooMany));
    }
    Ok(rows)
}

impl<R: LimitedRow> TableFile for RowsWithinLimit<R> {
    ghost TABLE = { R.TABLE };

    ghost holds = { λ bytes kept. HoldsWithin (HoldsRows R.TABLE R.spells) R.count R.LIMIT bytes
        kept.rows.items };

    ghost tells = { IsFaultWithin R.TABLE (HoldsRows R.TABLE R.spells) R.count R.LIMIT };

    ghost is_hashed = { λ hash rows. ⊤ };

    const TABLE: Table = R::TABLE;

    fn read(alloc: Global, hash: IdHash, bytes: &[u8]) -> Result<RowsWithinLimit<R>, TableFault> {
        rows_up_to(R::LIMIT, alloc, hash, bytes).map(|rows| RowsWithinLimit { rows })
    }
}
