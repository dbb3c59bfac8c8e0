//! Reads the tables of a feed's files, one after another.

ghost use Rattle.std.specs.Prelude.{◌≡◌, ◌≢◌, ℕ, List, [], Option, None, Some, IfOk, IfErr};
ghost use Rattle.std.specs.Prelude.{◌∷◌, option_map, IfSome, OnOk};
ghost use Rattle.gtfs_rows.specs.declared.id_hash.IdHash.{IdHash as Hash};
ghost use Rattle.gtfs_rows.specs.declared.fault.Table.TheVariants as tables;
ghost use Rattle.gtfs_rows.specs.FaultNumber.{file_name};
ghost use Rattle.feed_files.specs.Outcome.{failed_by};
ghost use Rattle.feed_files.specs.Files.{read_also};
ghost use Rattle.feed_files.specs.Reading.{Content, FineBefore, HoldsCalendars, HoldsRequired, HoldsTables, IsHeld};
ghost use Rattle.feed_files.specs.Reading.{NoRows, NoTables, Optional, OptionalFault, Required, RequiredFault};
ghost use Rattle.feed_files.specs.Reading.{earlier};
ghost use Rattle.feed_files.specs.Reads.{AllGave, AllWereRead, AreReadBy, Shows, SomeWereRead, all_tables};
ghost use Rattle.feed_files.specs.Hashed.{AreHashed};

use crate::files::{FeedFiles, FileFault};
use gtfs_tables::{
    AgencyRow, CalendarDateRow, CalendarRow, FaultKind, FrequencyRow, IdHash, RowsWithinLimit,
    StopRow, StopTimes, Table, TableFault, TableFile, Tables, TransferRow, TripRow,
};
use std::alloc::Global;
use thiserror::Error;

/// Why a feed's tables can't be read.
#[derive(Clone, Copy, Debug, PartialEq, Eq, Error)]
pub enum ReadFault {
    /// A file is refused.
    #[error("{0}")]
    Table(TableFault),
    /// A file can't be read.
    #[error("{0} can't be read")]
    FileFailed(Table),
}

// Returns the bytes of the file of a table, if there is such a file.
fn bytes_of<F: FeedFiles, T: TableFile>(
    alloc: Global,
    files: &mut F,
) -> Result<Option<Vec<u8>>, ReadFault>
    ensures read { AreReadBy F.words (T.TABLE ∷ []) files.old result files.new }
    ensures gave { (content : Content) → AllGave F.words files.old files.new content
        → IfOk result (λ file. option_map (λ bytes. bytes.items) file ≡ content T.TABLE) }
    ensures err { IfErr result (NoRows T.TABLE (λ row kind. ⊥)) }
{
    match files.read(alloc, T::TABLE.file_name()) {
        Ok(bytes) => Ok(bytes),
        Err(FileFault::Failed) => Err(ReadFault::FileFailed(T::TABLE)),
        Err(FileFault::OutOfMemory) => Err(ReadFault::Table(TableFault {
            file: T::TABLE,
            row: 0,
            kind: FaultKind::OutOfMemory,
        })),
    }
}

// Returns the rows of a file's bytes, or the first fault of the file.
fn rows_of<T: TableFile>(alloc: Global, hash: IdHash, bytes: &[u8]) -> Result<Option<T>, ReadFault>
    ensures ok { IfOk result (λ rows. IsHeld T.holds (Some bytes.now) rows) }
    ensures hashed { IfOk result (λ rows. IfSome rows (T.is_hashed hash)) }
    ensures failed { (before : List (List ℕ)) → failed_by before result ≡ before }
    ensures err { IfErr result (NoRows T.TABLE (OptionalFault T.tells (Some bytes.now))) }
{
    match T::read(alloc, hash, bytes) {
        Ok(rows) => Ok(Some(rows)),
        Err(fault) => Err(ReadFault::Table(fault)),
    }
}

// Returns the rows of a file, none if the file is missing.
fn optional<F: FeedFiles, T: TableFile>(
    alloc: Global,
    files: &mut F,
) -> Result<Option<T>, ReadFault>
    ensures read { AreReadBy F.words (T.TABLE ∷ []) files.old result files.new }
    ensures ok { (content : Content) → AllGave F.words files.old files.new content
        → IfOk result (λ rows. IsHeld T.holds (content T.TABLE) rows) }
    ensures err { (content : Content) → AllGave F.words files.old files.new content
        → IfErr result (NoRows T.TABLE (OptionalFault T.tells (content T.TABLE))) }
    ensures hashed { (hash : Hash) → F.words.hash files.old ≡ Some hash
        → IfOk result (λ rows. IfSome rows (T.is_hashed hash)) }
{
    match bytes_of::<F, T>(alloc, files) {
        Ok(Some(bytes)) => rows_of(alloc, files.id_hash(), &bytes),
        Ok(None) => Ok(None),
        Err(fault) => Err(fault),
    }
}

// Returns the rows of a required file: `MissingFile` if it is missing.
fn required<F: FeedFiles, T: TableFile>(alloc: Global, files: &mut F) -> Result<T, ReadFault>
    ensures read { AreReadBy F.words (T.TABLE ∷ []) files.old result files.new }
    ensures ok { (content : Content) → AllGave F.words files.old files.new content
        → IfOk result (λ rows. Required (λ held. T.holds held rows) (content T.TABLE)) }
    ensures err { (content : Content) → AllGave F.words files.old files.new content
        → IfErr result (NoRows T.TABLE (RequiredFault T.tells (content T.TABLE))) }
    ensures hashed { (hash : Hash) → F.words.hash files.old ≡ Some hash → IfOk result (T.is_hashed hash) }
{
    match optional::<F, T>(alloc, files) {
        Ok(Some(rows)) => Ok(rows),
        Ok(None) => Err(ReadFault::Table(T::TABLE.missing())),
        Err(fault) => Err(fault),
    }
}

// Returns the rows of a file, an empty list if the file is missing.
fn rows_or_none<F: FeedFiles, R: Drop>(alloc: Global, files: &mut F) -> Result<Vec<R>, ReadFault>
where
    Vec<R>: TableFile,
    ensures read { AreReadBy F.words (⟦<Vec<R> as TableFile>⟧.TABLE ∷ []) files.old result files.new }
    ensures ok { (content : Content) → AllGave F.words files.old files.new content
        → IfOk result (λ rows. Optional (rows.items ≡ []) (λ held. ⟦<Vec<R> as TableFile>⟧.holds held rows)
        (content ⟦<Vec<R> as TableFile>⟧.TABLE)) }
    ensures err { (content : Content) → AllGave F.words files.old files.new content
        → IfErr result (NoRows ⟦<Vec<R> as TableFile>⟧.TABLE (OptionalFault ⟦<Vec<R> as TableFile>⟧.tells
        (content ⟦<Vec<R> as TableFile>⟧.TABLE))) }
{
    match optional::<F, Vec<R>>(alloc, files) {
        Ok(Some(rows)) => Ok(rows),
        Ok(None) => Ok(Vec::new(alloc)),
        Err(fault) => Err(fault),
    }
}

// Returns the rows of the two calendars: `MissingFile` of calendar.txt if both are missing.
fn calendars<F: FeedFiles>(
    alloc: Global,
    files: &mut F,
) -> Result<(Vec<CalendarRow>, Vec<CalendarDateRow>), ReadFault>
    ensures read { AreReadBy F.words (tables.Calendar ∷ tables.CalendarDates ∷ []) files.old result files.new }
    ensures ok { (content : Content) → AllGave F.words files.old files.new content
        → IfOk result (λ rows. HoldsCalendars content rows.0.items rows.1.items) }
    ensures err { (content : Content) → AllGave F.words files.old files.new content
        → FineBefore content tables.Calendar → IfErr result (NoTables content) }
{
    let calendar = optional::<F, Vec<CalendarRow>>(alloc, files)?;
    let dates = optional::<F, Vec<CalendarDateRow>>(alloc, files)?;
    match (calendar, dates) {
        (None, None) => Err(ReadFault::Table(Table::Calendar.missing())),
        (None, Some(dates)) => Ok((Vec::new(alloc), dates)),
        (Some(calendar), None) => Ok((calendar, Vec::new(alloc))),
        (Some(calendar), Some(dates)) => Ok((calendar, dates)),
    }
}

// The rows of the required files.
#[derive(Drop)]
struct RequiredTables {
    agencies: Vec<AgencyRow>,
    stops: RowsWithinLimit<StopRow>,
    trips: RowsWithinLimit<TripRow>,
    stop_times: StopTimes,
}

fn required_tables<F: FeedFiles>(alloc: Global, files: &mut F) -> Result<RequiredTables, ReadFault>
    ensures read { AreReadBy F.words (earlier tables.Calendar) files.old result files.new }
    ensures ok { (content : Content) → AllGave F.words files.old files.new content
        → IfOk result (λ t. HoldsRequired content t.agencies.items t.stops.rows.items t.trips.rows.items
        t.stop_times) }
    ensures err { (content : Content) → AllGave F.words files.old files.new content
        → IfErr result (NoTables content) }
    ensures hashed { (hash : Hash) → F.words.hash files.old ≡ Some hash
        → IfOk result (λ t. AreHashed hash t.stop_times) }
{
    let agencies = required(alloc, files)?;
    let stops = required(alloc, files)?;
    let trips = required(alloc, files)?;
    let stop_times = required(alloc, files)?;
    Ok(RequiredTables {
        agencies,
        stops,
        trips,
        stop_times,
    })
}

// Returns the tables of a feed's files, as `read_tables` does.
fn tables_of<F: FeedFiles>(alloc: Global, files: &mut F) -> Result<Tables, ReadFault>
    ensures read { AreReadBy F.words all_tables files.old result files.new }
    ensures ok { (content : Content) → AllGave F.words files.old files.new content
        → IfOk result (HoldsTables content) }
    ensures err { (content : Content) → AllGave F.words files.old files.new content
        → IfErr result (NoTables content) }
    ensures hashed { (hash : Hash) → F.words.hash files.old ≡ Some hash
        → IfOk result (λ t. AreHashed hash t.stop_times) }
{
    let required = required_tables(alloc, files)?;
    let (calendar, calendar_dates) = calendars(alloc, files)?;
    let transfers = rows_or_none(alloc, files)?;
    let frequencies = rows_or_none(alloc, files)?;
    Ok(Tables {
        agencies: required.agencies,
        stops: required.stops.rows,
        trips: required.trips.rows,
        stop_times: required.stop_times,
        calendar,
        calendar_dates,
        transfers,
        frequencies,
    })
}

/// Returns the tables of a feed's files (GTFS Schedule Reference), or the first thing that is wrong with them. Each
/// file is read and judged before the next is read, in the order of [`Table`]. `transfers.txt`, `frequencies.txt`
/// and one of the two calendars may be missing. `FileFailed` means that nothing is wrong with the files before
/// that one, and that no other read failed; with any other result, no read failed.
///
/// The result is that of the bytes that were read in this call, whatever the files hold later.
pub fn read_tables<F: FeedFiles>(alloc: Global, files: &mut F) -> Result<Tables, ReadFault>
    ensures read { AreReadBy F.words all_tables files.old result files.new }
    ensures all_read { OnOk result (AllWereRead (F.words.reads files.old) (F.words.reads files.new)) }
    ensures first_read { SomeWereRead (F.words.reads files.old) (F.words.reads files.new) }
    ensures ok { (content : Content) → Shows F.words files.old files.new content → IfOk result (HoldsTables content) }
    ensures err { (content : Content) → Shows F.words files.old files.new content → IfErr result (NoTables content) }
    ensures hashed { (hash : Hash) → F.words.hash files.old ≡ Some hash
        → IfOk result (λ t. AreHashed hash t.stop_times) }
{
    tables_of(alloc, files)
}
