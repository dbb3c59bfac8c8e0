//! All faults of a feed that is refused, file by file.
//!
//! Each file is read once more. First its records are judged by themselves and by their keys, then the ids that they
//! name are looked up. The times of trips are judged if no record of `stop_times.txt` is at fault by itself.

ghost use Rattle.feed_files.specs.Reads.{all_tables};
ghost use Rattle.feed_messages.specs.Asking.{AreAskedFor, IsAskedFor};

use crate::file_faults::FileFaults;
use crate::folders::explain_failed;
use crate::known_ids::{Keys, Wanted};
use crate::table_fault::message;
use crate::words::explain;
use feed_files::{FeedFiles, FileFault, ReadFault};
use gtfs_rows::{
    FaultKind, IdHash, Key, Location, MAX_STOPS, MAX_TRIPS, Records, StopTimes, Table, TableFault,
    TableFile, TransferKind, location, transfer_kind,
};
use gtfs_tables::{StopIdTarget, stop_fault, time_faults};
use indexmap::{IndexMap, IndexSet};
use std::alloc::{AllocError, Global};
use std::io::Write;
use std::rt::Files;

/// The files of a feed, in the order in which they are read.
const TABLES: [Table; 8] = [
    Table::Agency,
    Table::Stops,
    Table::Trips,
    Table::StopTimes,
    Table::Calendar,
    Table::CalendarDates,
    Table::Transfers,
    Table::Frequencies,
];

/// Says what else is wrong with a feed that is refused, besides the first fault, for which it is refused. The files are
/// those of the folder; each is read once. If `strict`, each arrival must be later than the departure before it.
pub fn explain_further<H: Files + AllocGlobal, F: FeedFiles, E: Write>(
    rt: &H,
    folder: &str,
    files: &mut F,
    first: Option<ReadFault>,
    strict: bool,
    errors: &mut E,
)
    ensures once { AreAskedFor F.words all_tables files.old files.new }
{
    let mut found = FoundFaults::none(rt.alloc(), files.id_hash(), first, strict);
    found.explain_files(rt, folder, files, errors);
}

/// Ids that aren't found, each with the index of the line about it, if it has one.
type UnknownIds = IndexMap<String, Option<usize>, IdHash>;

/// What the files read so far say about those that are read next.
#[derive(Drop)]
struct FoundFaults {
    alloc: Global,
    hash: IdHash,
    first: Option<ReadFault>,
    strict: bool,
    stop_keys: Keys,
    trips: Keys,
    /// The trip_ids of which a record of `stop_times.txt` has a blank stop_id: the stops of these trips aren't judged.
    flex: IndexSet<String, IdHash>,
    lacks_calendar: bool,
}

impl FoundFaults {
    fn none(alloc: Global, hash: IdHash, first: Option<ReadFault>, strict: bool) -> FoundFaults {
        FoundFaults {
            alloc,
            hash,
            first,
            strict,
            stop_keys: Keys::none(alloc, hash, false),
            trips: Keys::none(alloc, hash, false),
            flex: IndexSet::with_hasher(alloc, hash),
            lacks_calendar: false,
        }
    }

    /// Reads the files of all tables, and says what is wrong with each, until memory runs out.
    fn explain_files<H: Files + AllocGlobal, F: FeedFiles, E: Write>(
        &mut self,
        rt: &H,
        folder: &str,
        files: &mut F,
        errors: &mut E,
    )
        ensures { AreAskedFor F.words all_tables files.old files.new }
    {
        let mut left: &[Table] = &TABLES;
        while let [table, behind @ ..] = left {
            if self
                .explain_file(rt, folder, files, *table, errors)
                .is_none()
            {
                return;
            }
            left = behind;
        }
    }

    /// Reads a file, and says what is wrong with it. `None` if memory runs out.
    fn explain_file<H: Files + AllocGlobal, F: FeedFiles, E: Write>(
        &mut self,
        rt: &H,
        folder: &str,
        files: &mut F,
        table: Table,
        errors: &mut E,
    ) -> Option<()>
        ensures { IsAskedFor F.words table files.old files.new }
    {
        let answer = files.read(self.alloc, table.file_name());
        self.explain_answer(rt, folder, table, answer, errors)
    }

    /// Says what is wrong with a file that was asked for. `None` if memory runs out.
    fn explain_answer<H: Files + AllocGlobal, E: Write>(
        &mut self,
        rt: &H,
        folder: &str,
        table: Table,
        answer: Result<Option<Vec<u8>>, FileFault>,
        errors: &mut E,
    ) -> Option<()> {
        match answer {
            Ok(Some(bytes)) => {
                let mut faults = FileFaults::none(self.alloc, table, &bytes, self.refused());
                let whole = self.judge(table, &bytes, &mut faults);
                faults.tell(errors);
                if let Some(kind) = whole? {
                    let fault = TableFault {
                        file: table,
                        row: 0,
                        kind,
                    };
                    self.explain_whole(rt, folder, fault, &bytes, errors);
                }
            }
            Ok(None) => {
                if let Some(missed) = self.missed(table) {
                    self.explain_whole(rt, folder, missed.missing(), &[], errors);
                }
            }
            Err(FileFault::Failed) => {
                if self.first != Some(ReadFault::FileFailed(table)) {
                    explain_failed(rt, folder, table, errors);
                }
            }
            Err(FileFault::OutOfMemory) => return None,
        }
        Some(())
    }

    /// The fault for which the feed is refused, if it is one of a table.
    fn refused(&self) -> Option<TableFault> {
        match self.first {
            Some(ReadFault::Table(fault)) => Some(fault),
            _ => None,
        }
    }

    /// Says what is wrong with a file as a whole.
    fn explain_whole<H: Files + AllocGlobal, E: Write>(
        &self,
        rt: &H,
        folder: &str,
        fault: TableFault,
        bytes: &[u8],
        errors: &mut E,
    ) {
        if self.refused() != Some(fault)
            && let Some(line) = message(rt, folder, &fault, bytes)
        {
            explain(errors, &["csa: ", line.as_str()]);
        }
    }

    /// The file that the feed lacks, if it lacks that of a table.
    fn missed(&mut self, table: Table) -> Option<Table> {
        match table {
            Table::Calendar => {
                self.lacks_calendar = true;
                None
            }
            Table::CalendarDates if self.lacks_calendar => Some(Table::Calendar),
            Table::CalendarDates | Table::Transfers | Table::Frequencies => None,
            _ => Some(table),
        }
    }

    /// Judges a file: notes what is wrong with its records, and returns what is wrong with it as a whole. `None` if
    /// memory runs out.
    fn judge(
        &mut self,
        table: Table,
        bytes: &[u8],
        faults: &mut FileFaults,
    ) -> Option<Option<FaultKind>> {
        match Records::of_table(self.alloc, table, bytes) {
            Ok(mut records) => {
                let keys = self.judge_records(table, &mut records, faults)?;
                if self.has_too_many(table, keys) {
                    return Some(Some(FaultKind::TooMany));
                }
            }
            Err(FaultKind::OutOfMemory) => return None,
            Err(kind) => return Some(Some(kind)),
        }
        if ids_of(table).is_empty() {
            return Some(None);
        }
        let late = self.judge_times(table, bytes)?;
        let mut records = Records::of_table(self.alloc, table, bytes).ok()?;
        self.judge_ids(table, &mut records, faults, &late)?;
        Some(None)
    }

    /// Judges the times of each trip_id of `stop_times.txt`, and returns the faults by rising record. There are none if
    /// a record is at fault by itself, nor in another table. `None` if memory runs out.
    fn judge_times(&self, table: Table, bytes: &[u8]) -> Option<Vec<TableFault>> {
        if table != Table::StopTimes {
            return Some(Vec::new(self.alloc));
        }
        let times: Result<StopTimes, TableFault> = TableFile::read(self.alloc, self.hash, bytes);
        match times {
            Ok(times) => self.late_rows(&times),
            Err(fault) if fault.kind == FaultKind::OutOfMemory => None,
            Err(_) => Some(Vec::new(self.alloc)),
        }
    }

    /// The faults in the times of trips, by rising record.
    fn late_rows(&self, times: &StopTimes) -> Option<Vec<TableFault>> {
        let numbers = self.trip_numbers(times)?;
        let count = self.trips.len().checked_add(numbers.len())?;
        let stops = self.stops_named(times)?;
        let mut late = time_faults(
            self.alloc,
            &times.rows,
            numbers,
            stops,
            count,
            self.strict,
        ).ok()?;
        late.sort_by_key(|fault| fault.row).ok()?;
        Some(late)
    }

    /// The stop that each stop_id of `stop_times.txt` names. One that names none counts as a stop here, so that the
    /// times of its trip are judged all the same.
    fn stops_named(&self, times: &StopTimes) -> Option<Vec<Option<StopIdTarget>>> {
        let mut stops = Vec::with_capacity(self.alloc, times.stops.len()).ok()?;
        for id in &times.stops {
            let stop = match self.stop_keys.find(id.as_str()) {
                Some(seen) if stop_fault(Some(seen.target)).is_none() => seen.target,
                _ => StopIdTarget::Stop(0),
            };
            stops.push(Some(stop)).ok()?;
        }
        Some(stops)
    }

    /// The number of the trip of each trip_id of `stop_times.txt`. Those that `trips.txt` lacks come behind its trips.
    fn trip_numbers(&self, times: &StopTimes) -> Option<Vec<Option<u32>>> {
        let mut numbers = Vec::with_capacity(self.alloc, times.trips.len()).ok()?;
        let mut unknown = self.trips.len();
        for id in &times.trips {
            let number = match self.trips.number(id.as_str()) {
                Some(number) => number,
                None => {
                    let behind = unknown;
                    unknown = unknown.checked_add(1)?;
                    behind
                }
            };
            numbers.push(Some(u32::try_from(number).ok()?)).ok()?;
        }
        Some(numbers)
    }

    /// Judges each record by itself, and its key, and returns the keys.
    fn judge_records(
        &mut self,
        table: Table,
        records: &mut Records<'_>,
        faults: &mut FileFaults,
    ) -> Option<Keys> {
        let mut keys = Keys::none(self.alloc, self.hash, true);
        for _ in 0..u64::MAX {
            if !records.advance().ok()? {
                return Some(keys);
            }
            let fault = records.fault(table);
            if fault != Some(FaultKind::RowLength) {
                self.keep_flex(table, records)?;
            }
            if let Some(kind) = fault {
                keys.are_all = false;
                let _ = faults.note(records, kind, None, None);
            } else if let Some(key) = key_text(self.alloc, table.key(), records).ok()? {
                judge_key(table, key, &mut keys, records, faults)?;
            }
        }
        None
    }

    /// Keeps the keys of a table if other files name them, and returns whether a feed may not have so many.
    fn has_too_many(&mut self, table: Table, keys: Keys) -> bool {
        match table {
            Table::Stops => {
                self.stop_keys = keys;
                self.stop_keys.stops() > MAX_STOPS
            }
            Table::Trips => {
                self.trips = keys;
                self.trips.len() > MAX_TRIPS
            }
            _ => false,
        }
    }

    /// Keeps the trip_id of a record of `stop_times.txt` with a blank stop_id.
    fn keep_flex(&mut self, table: Table, records: &Records<'_>) -> Option<()> {
        if table == Table::StopTimes && records.get(3).is_empty() {
            let id = String::from_str(self.alloc, text_in(records, 0)).ok()?;
            self.flex.insert_full(id).ok()?;
        }
        Some(())
    }

    /// Judges the ids that records name, and notes the faults in the times of trips, which are in the order of the
    /// records.
    fn judge_ids(
        &self,
        table: Table,
        records: &mut Records<'_>,
        faults: &mut FileFaults,
        late: &[TableFault],
    ) -> Option<()> {
        let mut left = late;
        let mut stop_keys: UnknownIds = IndexMap::with_hasher(self.alloc, self.hash);
        let mut trips: UnknownIds = IndexMap::with_hasher(self.alloc, self.hash);
        for _ in 0..u64::MAX {
            if !records.advance().ok()? {
                return Some(());
            }
            for (column, wanted) in ids_of(table) {
                let unknown = match wanted {
                    Wanted::Trip => &mut trips,
                    _ => &mut stop_keys,
                };
                self.judge_id(table, records, faults, unknown, (*column, *wanted))?;
            }
            left = note_times(records, faults, left);
        }
        None
    }

    /// Judges an id of a record. One that isn't found is reported once, with the number of further records that name
    /// it.
    fn judge_id(
        &self,
        table: Table,
        records: &mut Records<'_>,
        faults: &mut FileFaults,
        unknown: &mut UnknownIds,
        (column, wanted): (usize, Wanted),
    ) -> Option<()> {
        let id = text_in(records, column);
        if column == 1 && id == text_in(records, 0) {
            return Some(());
        }
        if !unknown.is_empty()
            && let Some(line) = unknown.get(id)
        {
            faults.name_again(*line);
            return Some(());
        }
        let home = match wanted {
            Wanted::Trip => &self.trips,
            _ => &self.stop_keys,
        };
        let Some(kind) = home.fault_of(wanted, id) else {
            return Some(());
        };
        if !self.is_judged(table, records, wanted) {
            return Some(());
        }
        let id = String::from_str(self.alloc, id).ok()?;
        let line = faults.note(records, kind, Some(column), None);
        if kind == FaultKind::UnknownId {
            unknown.insert(id, line).ok()?;
        }
        Some(())
    }

    /// Whether an id of a record must be found: nothing else is wrong with the record, and what it says isn't left out.
    fn is_judged(&self, table: Table, records: &Records<'_>, wanted: Wanted) -> bool {
        if records.fault(table).is_some() {
            return false;
        }
        match wanted {
            Wanted::Trip => true,
            Wanted::Parent => {
                location(records.get(1)) == Location::Stop && !records.get(2).is_empty()
            }
            Wanted::Stop => self.flex.is_empty() || !self.flex.contains(text_in(records, 0)),
            Wanted::End => transfer_kind(records) != TransferKind::Skipped,
        }
    }
}

/// The columns of a table that name a record of `stops.txt` or `trips.txt`, by index.
fn ids_of(table: Table) -> &'static [(usize, Wanted)] {
    match table {
        Table::Stops => &[(2, Wanted::Parent)],
        Table::StopTimes => &[(0, Wanted::Trip), (3, Wanted::Stop)],
        Table::Transfers => &[(0, Wanted::End), (1, Wanted::End)],
        Table::Frequencies => &[(0, Wanted::Trip)],
        _ => &[],
    }
}

/// Notes what is wrong with the times of a trip in the record that was read last, and returns the faults behind it.
fn note_times<'a>(
    records: &mut Records<'_>,
    faults: &mut FileFaults,
    late: &'a [TableFault],
) -> &'a [TableFault] {
    match late {
        [fault, behind @ ..] if fault.row == records.number() => {
            let _ = faults.note(records, fault.kind, None, None);
            behind
        }
        _ => late,
    }
}

/// A record's value in a column of its table. Its file is UTF-8, and so is each value.
fn text_in<'a>(records: &'a Records<'_>, column: usize) -> &'a str {
    str::from_utf8(records.get(column)).unwrap_or("")
}

/// What no two records may have in common, or what all must have; none if records may repeat each other.
fn key_text(alloc: Global, key: Key, records: &Records<'_>) -> Result<Option<String>, AllocError> {
    match key {
        Key::Nothing => Ok(None),
        Key::Column(column) | Key::Shared(column) => {
            let key = String::from_str(alloc, text_in(records, column))?;
            Ok(Some(key))
        }
        Key::Columns(first, second) => {
            let mut key = String::from_str(alloc, text_in(records, first))?;
            key.push_str(text_in(records, second))?;
            Ok(Some(key))
        }
    }
}

/// Judges the key of a record, and keeps it. `None` if memory runs out.
fn judge_key(
    table: Table,
    key: String,
    keys: &mut Keys,
    records: &mut Records<'_>,
    faults: &mut FileFaults,
) -> Option<()> {
    let is_shared = matches!(table.key(), Key::Shared(_));
    match keys.find(key.as_str()) {
        Some(_) if is_shared => {}
        Some(there) => {
            let _ = faults.note(records, FaultKind::IdTwice, None, Some(there.line));
        }
        None if is_shared && keys.len() > 0 => {
            let _ = faults.note(records, FaultKind::ZonesDiffer, None, None);
        }
        None => {
            let line = records.reach().line;
            keys.add(key, line, location(records.get(1)))?;
        }
    }
    Some(())
}
