//! stop_times.txt, the longest table: rows have numbers in place of ids, and each id is kept once.

ghost use Rattle.std.specs.Prelude.{◌≡◌, ◌∷◌, [], map, IfOk, IfErr, OnOk, None, Some};
ghost use Rattle.std.specs.Result.{result_err};
ghost use Rattle.std.specs.String.{string_bytes};
ghost use Rattle.gtfs_rows.specs.Tables.{IsFaultOf, AreStopTimes, IsStopId, given_time, is_available, stop_time_fault};
ghost use Rattle.gtfs_rows.specs.Tables.{of_last, shown, time_fault, HoldsStopTimes};
ghost use Rattle.gtfs_rows.specs.Ids.{given_also};
ghost use Rattle.indexmap.specs.IndexSet.{hasher_of};
ghost use Rattle.gtfs_rows.specs.Values.{number_of};
ghost use Rattle.gtfs_rows.specs.declared.fault.Table.TheVariants as files;

use crate::fault::{FaultKind, Table, TableFault};
use crate::id_hash::IdHash;
use crate::ids::{Ids, index_of};
use crate::reader::{TableFile, TableRows, add_row, read_table};
use crate::records::Records;
use crate::rows::StopTimeRow;
use crate::values::{clock_time, number};
use indexmap::IndexSet;
use std::alloc::Global;

/// The rows of `stop_times.txt`, and the trip_ids and stop_ids that rows name by index. Each id occurs once, in the
/// order in which they are first seen.
#[derive(Drop)]
pub struct StopTimes {
    pub trips: IndexSet<String, IdHash>,
    pub stops: IndexSet<String, IdHash>,
    pub rows: Vec<StopTimeRow>,
}

// Returns the time of a text, in seconds after the start of the service day; none if it is blank.
#[inline(always)]
fn given(text: &[u8]) -> Result<Option<u32>, FaultKind>
    ensures ok { IfOk result (λ t. t ≡ given_time text.now) }
    ensures fault { result_err result ≡ time_fault text.now }
{
    if text.is_empty() {
        return Ok(None);
    }
    clock_time(text).map(Some)
}

// Returns whether a pickup_type or a drop_off_type lets passengers board or alight: any but 1 does.
fn available(text: &[u8]) -> bool
    ensures { result ≡ is_available (number_of text.now) }
{
    number(text) != Some(1)
}

// Returns the index of a stop_id, which is added if it isn't there yet; none if it is blank. The likely index is
// tried first. Memory may run out.
fn stop_index(
    alloc: Global,
    stops: &mut Ids,
    likely: Option<u32>,
    id: &str,
) -> Result<Option<u32>, FaultKind>
    ensures more { OnOk result (map string_bytes stops.new.keys ≡ given_also (map string_bytes stops.old.keys) id.now) }
    ensures ok { IfOk result (λ index. IsStopId (map string_bytes stops.new.keys) index id.now) }
    ensures err { IfErr result (λ kind. kind ≡ FaultKind.OutOfMemory) }
    ensures hash { OnOk result (hasher_of stops.new ≡ hasher_of stops.old) }
{
    if id.is_empty() {
        return Ok(None);
    }
    index_of(alloc, stops, likely, id).map(Some)
}

// Returns the arrival, the departure and the stop_sequence of a record, or what is wrong with them.
#[inline(always)]
pub(crate) fn stop_time(records: &Records<'_>) -> Result<(Option<u32>, Option<u32>, u32), FaultKind>
    ensures arrival { IfOk result (λ v. v.0 ≡ given_time (shown records.now 1)) }
    ensures departure { IfOk result (λ v. v.1 ≡ given_time (shown records.now 2)) }
    ensures sequence { IfOk result (λ v. number_of (shown records.now 4) ≡ Some v.2) }
    ensures fault { result_err result ≡ of_last stop_time_fault records.now }
{
    let arrival = given(records.get(1))?;
    let departure = given(records.get(2))?;
    let sequence = number(records.get(4)).ok_or(FaultKind::BadNumber)?;
    Ok((arrival, departure, sequence))
}

// The stop times read so far, and what is needed to guess the next row's stop: trips of a line are usually listed
// together, so a trip probably has the stops of the one before it.
#[derive(Drop)]
struct StopTimesRead {
    times: StopTimes,
    // the index of the earlier row whose stop the next row probably has
    repeated: usize,
    // for the index of each stop_id, the index of its last row
    last_rows: Vec<usize>,
    // how many rows in sequence weren't guessed right
    wrong: u8,
}

impl StopTimesRead {
    // Returns the stop that the next row probably has. After two wrong guesses, only two rows of eight are guessed.
    fn likely_stop(&self) -> Option<u32> {
        if self.wrong & 7 > 1 {
            return None;
        }
        self.times.rows.get(self.repeated)?.stop
    }

    // Notes a row's stop, if it has one, and whether it was guessed: if not, the rows behind the stop's last row are
    // those that the next rows probably repeat. Each index but the newest has a last row, so a missing one is added at
    // the end.
    fn follow(&mut self, likely: Option<u32>, stop: Option<u32>) -> Result<(), FaultKind>
        ensures same { OnOk result (self.new.times ≡ self.old.times) }
        ensures err { IfErr result (λ kind. kind ≡ FaultKind.OutOfMemory) }
    {
        self.repeated = self.repeated.saturating_add(1);
        let Some(stop) = stop else {
            return Ok(());
        };
        let at = stop as usize;
        let row = self.times.rows.len();
        let is_new = at >= self.last_rows.len();
        if likely == Some(stop) {
            self.wrong = 0;
        } else {
            self.wrong = self.wrong.wrapping_add(1);
            let last = if is_new { row } else { self.last_rows[at] };
            self.repeated = last.saturating_add(1);
        }
        if is_new {
            return add_row(&mut self.last_rows, row);
        }
        self.last_rows[at] = row;
        Ok(())
    }
}

impl TableRows for StopTimesRead {
    ghost TABLE = { files.StopTimes };

    ghost holds = { λ indices records read. AreStopTimes indices records read.times };

    ghost hashes = { λ read. hasher_of read.times.trips ∷ hasher_of read.times.stops ∷ [] };

    const TABLE: Table = Table::StopTimes;

    fn add(&mut self, alloc: Global, records: &Records<'_>) -> Result<(), FaultKind> {
        let (arrival, departure, sequence) = stop_time(records)?;
        let likely_trip = self.times.rows.last().map(|row| row.trip);
        let likely_stop = self.likely_stop();
        let trip = index_of(alloc, &mut self.times.trips, likely_trip, records.text(0))?;
        let stop = stop_index(alloc, &mut self.times.stops, likely_stop, records.text(3))?;
        self.follow(likely_stop, stop)?;
        let row = StopTimeRow {
            trip,
            arrival,
            departure,
            stop,
            sequence,
            board: available(records.get(5)),
            alight: available(records.get(6)),
        };
        add_row(&mut self.times.rows, row)
    }
}

impl TableFile for StopTimes {
    ghost TABLE = { files.StopTimes };

    ghost holds = { HoldsStopTimes };

    ghost tells = { IsFaultOf files.StopTimes };

    ghost is_hashed = { λ hash times. (hasher_of times.trips ≡ hash) × (hasher_of times.stops ≡ hash) };

    const TABLE: Table = Table::StopTimes;

    fn read(alloc: Global, hash: IdHash, bytes: &[u8]) -> Result<StopTimes, TableFault> {
        let read = StopTimesRead {
            times: StopTimes {
                trips: IndexSet::with_hasher(alloc, hash),
                stops: IndexSet::with_hasher(alloc, hash),
                rows: Vec::new(alloc),
            },
            repeated: 0,
            last_rows: Vec::new(alloc),
            wrong: 0,
        };
        read_table(read, alloc, bytes).map(|read| read.times)
    }
}
