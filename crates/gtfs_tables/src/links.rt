//! Replaces each id in the rows of the tables by what it names, or finds the first row with a wrong id.

ghost use Rattle.std.specs.Prelude.{◌≡◌, ◌≢◌, ◌<◌, ℕ, length, map, filter, IfOk, IfErr, IfSome, None, Some};
ghost use Rattle.std.specs.Prelude.{is_some, slice_index_or, slice_set, true, false, not, count_by};
ghost use Rattle.std.specs.List.{AllZip};
ghost use Rattle.gtfs_tables.specs.First.{fault_at as fault_of, first_fault_of, no_memory};
ghost use Rattle.gtfs_tables.specs.Names.{held_at, named_at};
ghost use Rattle.gtfs_tables.specs.Order.{row_of, sort_keys_in};
ghost use Rattle.gtfs_tables.specs.Rows.{IsTransferOf, ends_fault, end_fault, frequency_fault, frequency_of};
ghost use Rattle.gtfs_tables.specs.Rows.{is_flex_id, is_kept, is_repeated, lack_stops, linked_fault, linked_row};
ghost use Rattle.gtfs_tables.specs.Rows.{named_by, parent_fault, station_of, stop_number, stop_of};
ghost use Rattle.gtfs_tables.specs.Rows.{transfer_fault};

use crate::names::{StopIdTarget, stop_fault};
use crate::order::{RowOrder, SortKey};
use crate::tables::{Frequency, Transfer, TransferEnd};
use gtfs_rows::{
    FaultKind, FrequencyRow, IdHash, Location, StopRow, StopTimeRow, Table, TableFault,
    TransferKind, TransferRow,
};
use indexmap::IndexMap;
use std::alloc::{AllocError, Global};

// What the trip_ids and the stop_ids of stop_times.txt name, and which of the trip_ids have a row without
// a stop.
#[derive(Drop)]
pub(crate) struct RowNames {
    pub(crate) trips: Vec<Option<u32>>,
    pub(crate) stops: Vec<Option<StopIdTarget>>,
    pub(crate) flex: Vec<bool>,
}

// Returns the fault of the row at an index; records are numbered from 1.
pub(crate) fn fault_at(table: Table, index: usize, kind: FaultKind) -> TableFault
    requires { index < usize.MAX }
    ensures { result ≡ fault_of table index kind }
{
    TableFault {
        file: table,
        row: index as u64 + 1,
        kind,
    }
}

// Returns the fault that memory ran out while tables were joined.
pub(crate) fn out_of_memory() -> TableFault
    ensures { result ≡ no_memory }
{
    TableFault {
        file: Table::StopTimes,
        row: 0,
        kind: FaultKind::OutOfMemory,
    }
}

// Returns the index in trips.txt of the trip that the trip_id of an index names, if it names one.
pub(crate) fn index_at(trips: &[Option<u32>], index: u32) -> Option<u32>
    ensures { result ≡ named_at trips.now index }
{
    let index = index as usize;
    if index < trips.len() {
        trips[index]
    } else {
        None
    }
}

// Returns what the stop_id of a row names, if it names anything.
fn stop_at(stops: &[Option<StopIdTarget>], row: &StopTimeRow) -> Option<StopIdTarget>
    ensures { result ≡ stop_of stops.now row.now }
{
    let index = row.stop? as usize;
    if index < stops.len() {
        stops[index]
    } else {
        None
    }
}

// Returns the station of each row of stops.txt, or the fault of the first stop whose parent isn't a station.
pub(crate) fn stations(
    alloc: Global,
    stops: &[StopRow],
    names: &IndexMap<&str, StopIdTarget, IdHash>,
) -> Result<Vec<Option<u32>>, TableFault>
    ensures fine { IfOk result (λ found. first_fault_of Table.Stops (parent_fault (held_at names.now)) stops.now
        ≡ None) }
    ensures ok { IfOk result (λ found. found.items ≡ map (station_of (held_at names.now)) stops.now) }
    ensures err { IfErr result (λ fault. fault ≢ no_memory
        → first_fault_of Table.Stops (parent_fault (held_at names.now)) stops.now ≡ Some fault) }
{
    let Ok(mut found) = Vec::with_capacity(alloc, stops.len()) else {
        return Err(out_of_memory());
    };
    for (index, row) in stops.iter().enumerate() {
        match station(row, names) {
            Ok(parent) => {
                if found.push(parent).is_err() {
                    return Err(out_of_memory());
                }
            }
            Err(kind) => return Err(fault_at(Table::Stops, index, kind)),
        }
    }
    Ok(found)
}

// Returns the index in stops.txt of the station that a stop names as its parent: `UnknownId` if the parent isn't a
// station. Parents of other places aren't looked up.
fn station(
    row: &StopRow,
    names: &IndexMap<&str, StopIdTarget, IdHash>,
) -> Result<Option<u32>, FaultKind>
    ensures fine { IfOk result (λ index. parent_fault (held_at names.now) row.now ≡ None) }
    ensures ok { IfOk result (λ index. index ≡ station_of (held_at names.now) row.now) }
    ensures err { IfErr result (λ kind. parent_fault (held_at names.now) row.now ≡ Some kind) }
{
    if row.location != Location::Stop || row.parent.is_empty() {
        return Ok(None);
    }
    match names.get(row.parent.as_str()) {
        Some(StopIdTarget::Station(index)) => Ok(Some(*index)),
        _ => Err(FaultKind::UnknownId),
    }
}

// Returns for each trip_id whether some row with it has a blank stop_id. If no row may lack a stop, none is looked at.
pub(crate) fn flex_ids(
    alloc: Global,
    rows: &[StopTimeRow],
    ids: usize,
    may_lack_stops: bool,
) -> Result<Vec<bool>, AllocError>
    requires { may_lack_stops ≡ false → lack_stops rows.now ≡ false }
    ensures { IfOk result (λ flex. (id : ℕ) → id < ids → slice_index_or flex.items id false ≡ is_flex_id rows.now id) }
{
    let mut flex = vec![in alloc; false; ids]?;
    if !may_lack_stops {
        return Ok(flex);
    }
    for row in rows {
        let id = row.trip as usize;
        if row.stop.is_none() && id < flex.len() {
            flex[id] = true;
        }
    }
    Ok(flex)
}

// Returns whether the trip_id of an index is marked.
pub(crate) fn flex_at(flex: &[bool], id: usize) -> bool
    ensures { result ≡ slice_index_or flex.now id false }
{
    id < flex.len() && flex[id]
}

// Returns the fault of the first row whose trip or stop is wrong, if there is one.
pub(crate) fn judge_rows(
    rows: &[StopTimeRow],
    trips: &[Option<u32>],
    stops: &[Option<StopIdTarget>],
    flex: &[bool],
) -> Result<(), TableFault>
    requires { (id : ℕ) → id < length trips.now → slice_index_or flex.now id false ≡ is_flex_id rows.now id }
    ensures ok { IfOk result (λ _. first_fault_of Table.StopTimes
        (λ row. linked_fault trips.now stops.now (is_flex_id rows.now row.trip) row) rows.now ≡ None) }
    ensures err { IfErr result (λ fault. first_fault_of Table.StopTimes
        (λ row. linked_fault trips.now stops.now (is_flex_id rows.now row.trip) row) rows.now ≡ Some fault) }
{
    for (index, row) in rows.iter().enumerate() {
        if let Some(kind) = wrong_link(row, trips, stops, flex_at(flex, row.trip as usize)) {
            return Err(fault_at(Table::StopTimes, index, kind));
        }
    }
    Ok(())
}

// Returns what is wrong with the trip or the stop of a row, if anything. Stops of flex trips aren't judged.
fn wrong_link(
    row: &StopTimeRow,
    trips: &[Option<u32>],
    stops: &[Option<StopIdTarget>],
    flex: bool,
) -> Option<FaultKind>
    ensures { result ≡ linked_fault trips.now stops.now flex row.now }
{
    if index_at(trips, row.trip).is_none() {
        return Some(FaultKind::UnknownId);
    }
    if flex {
        return None;
    }
    stop_fault(stop_at(stops, row))
}

// Returns a row with the index of its trip and the number of its stop; rows of flex trips get no stop.
fn linked(
    row: &StopTimeRow,
    trips: &[Option<u32>],
    stops: &[Option<StopIdTarget>],
    flex: bool,
) -> StopTimeRow
    ensures { result ≡ linked_row trips.now stops.now flex row.now }
{
    let trip = index_at(trips, row.trip);
    let stop = match stop_at(stops, row) {
        Some(StopIdTarget::Stop(number)) if !flex && trip.is_some() => Some(number),
        _ => None,
    };
    StopTimeRow {
        trip: trip.unwrap_or(0),
        arrival: row.arrival,
        departure: row.departure,
        stop,
        sequence: row.sequence,
        board: row.board,
        alight: row.alight,
    }
}

// Returns the rows in order, each with the index of its trip and the number of its stop. Rows that are already
// in order stay where they are.
pub(crate) fn linked_rows(
    alloc: Global,
    rows: Vec<StopTimeRow>,
    order: &RowOrder,
    names: &RowNames,
) -> Result<Vec<StopTimeRow>, AllocError>
    requires { (id : ℕ) → id < length names.now.trips.items
        → slice_index_or names.now.flex.items id false ≡ is_flex_id rows.items id }
    ensures { IfOk result (λ ordered. ordered.items ≡ map (λ sort_key. let row = row_of rows.items sort_key.number in
        linked_row names.now.trips.items names.now.stops.items (is_flex_id rows.items row.trip) row)
        (sort_keys_in names.now.trips.items order.now rows.items)) }
{
    match order {
        RowOrder::Filed => Ok(linked_in_place(rows, names)),
        RowOrder::ByKeys(sort_keys) => linked_by_sort_keys(alloc, &rows, sort_keys, names),
    }
}

// Returns the rows, each with the index of its trip and the number of its stop.
fn linked_in_place(mut rows: Vec<StopTimeRow>, names: &RowNames) -> Vec<StopTimeRow>
    requires { (id : ℕ) → id < length names.now.trips.items
        → slice_index_or names.now.flex.items id false ≡ is_flex_id rows.items id }
    ensures { result.items ≡ map (λ row. linked_row names.now.trips.items names.now.stops.items
        (is_flex_id rows.items row.trip) row) rows.items }
{
    for at in 0..rows.len() {
        let row = rows[at];
        rows[at] = linked_marked(&row, names);
    }
    rows
}

// Returns a row with the index of its trip and the number of its stop, given the marks of flex trips.
fn linked_marked(row: &StopTimeRow, names: &RowNames) -> StopTimeRow
    ensures { result ≡ linked_row names.now.trips.items names.now.stops.items
        (slice_index_or names.now.flex.items row.now.trip false) row.now }
{
    let flex = flex_at(&names.flex, row.trip as usize);
    linked(row, &names.trips, &names.stops, flex)
}

// Copies the rows into a new list, in the order of their sort keys, each with the index of its trip and the number of
// its stop.
pub(crate) fn linked_by_sort_keys(
    alloc: Global,
    rows: &[StopTimeRow],
    sort_keys: &[SortKey],
    names: &RowNames,
) -> Result<Vec<StopTimeRow>, AllocError>
    requires { (id : ℕ) → id < length names.now.trips.items
        → slice_index_or names.now.flex.items id false ≡ is_flex_id rows.now id }
    ensures { IfOk result (λ ordered. ordered.items ≡ map (λ sort_key. let row = row_of rows.now sort_key.number in
        linked_row names.now.trips.items names.now.stops.items (is_flex_id rows.now row.trip) row) sort_keys.now) }
{
    let mut ordered = Vec::with_capacity(alloc, sort_keys.len())?;
    for sort_key in sort_keys {
        let row = row_numbered(rows, sort_key.number);
        ordered.push(linked_marked(&row, names))?;
    }
    Ok(ordered)
}

// Returns the row of the record of this number, or a row without stop and times if there is none.
fn row_numbered(rows: &[StopTimeRow], number: u64) -> StopTimeRow
    ensures { result ≡ row_of rows.now number }
{
    let index = number.saturating_sub(1) as usize;
    if index < rows.len() {
        rows[index]
    } else {
        StopTimeRow {
            trip: 0,
            arrival: None,
            departure: None,
            stop: None,
            sequence: 0,
            board: false,
            alight: false,
        }
    }
}

// Returns for each trip whether frequencies.txt names it, or the fault of the first row whose trip is unknown.
pub(crate) fn repeating(
    alloc: Global,
    frequencies: &[FrequencyRow],
    indices: &IndexMap<&str, u32, IdHash>,
    trips: usize,
) -> Result<Vec<bool>, TableFault>
    ensures fine { IfOk result (λ repeats. first_fault_of Table.Frequencies (frequency_fault (held_at indices.now))
        frequencies.now ≡ None) }
    ensures ok { IfOk result (λ repeats. (t : ℕ) → t < trips
        → slice_index_or repeats.items t false ≡ is_repeated (held_at indices.now) frequencies.now t) }
    ensures len { IfOk result (λ repeats. length repeats.items ≡ trips) }
    ensures err { IfErr result (λ fault. fault ≢ no_memory
        → first_fault_of Table.Frequencies (frequency_fault (held_at indices.now)) frequencies.now ≡ Some fault) }
{
    let Ok(mut repeats) = vec![in alloc; false; trips] else {
        return Err(out_of_memory());
    };
    for (at, row) in frequencies.iter().enumerate() {
        let Some(index) = indices.get(row.trip.as_str()) else {
            return Err(fault_at(Table::Frequencies, at, FaultKind::UnknownId));
        };
        mark(&mut repeats, *index as usize);
    }
    Ok(repeats)
}

// Returns a row of frequencies.txt with the index of its trip, 0 if the trip is unknown.
fn frequency(row: &FrequencyRow, indices: &IndexMap<&str, u32, IdHash>) -> Frequency
    ensures { result ≡ frequency_of (held_at indices.now) row.now }
{
    let index = indices.get(row.trip.as_str()).copied();
    Frequency {
        trip: index.unwrap_or(0),
        start: row.start,
        end: row.end,
        headway: row.headway,
    }
}

// Returns the rows of frequencies.txt with the indices of their trips.
pub(crate) fn linked_frequencies(
    alloc: Global,
    rows: &[FrequencyRow],
    indices: &IndexMap<&str, u32, IdHash>,
) -> Result<Vec<Frequency>, AllocError>
    ensures { IfOk result (λ linked. linked.items ≡ map (frequency_of (held_at indices.now)) rows.now) }
{
    let mut linked = Vec::with_capacity(alloc, rows.len())?;
    for row in rows {
        linked.push(frequency(row, indices))?;
    }
    Ok(linked)
}

// Marks an index, unless it is past the end.
fn mark(marks: &mut Vec<bool>, index: usize)
    ensures { marks.new.items ≡ slice_set marks.old.items index true }
{
    if index < marks.len() {
        marks[index] = true;
    }
}

// Returns the transfers that aren't skipped, or the first fault of one of them.
pub(crate) fn transfers(
    alloc: Global,
    rows: &[TransferRow],
    names: &IndexMap<&str, StopIdTarget, IdHash>,
) -> Result<Vec<Transfer>, TableFault>
    ensures fine { IfOk result (λ kept. first_fault_of Table.Transfers (transfer_fault (held_at names.now)) rows.now
        ≡ None) }
    ensures ok { IfOk result (λ kept. AllZip (IsTransferOf (held_at names.now)) (filter is_kept rows.now) kept.items) }
    ensures err { IfErr result (λ fault. fault ≢ no_memory
        → first_fault_of Table.Transfers (transfer_fault (held_at names.now)) rows.now ≡ Some fault) }
{
    let mut kept = Vec::new(alloc);
    for (index, row) in rows.iter().enumerate() {
        let found = match transfer(row, names) {
            Ok(found) => found,
            Err(kind) => return Err(fault_at(Table::Transfers, index, kind)),
        };
        if let Some(found) = found {
            if kept.push(found).is_err() {
                return Err(out_of_memory());
            }
        }
    }
    Ok(kept)
}

// Returns the transfer between the places that the row's ids name, or what is wrong with an id; none if the row is
// skipped.
fn transfer(
    row: &TransferRow,
    names: &IndexMap<&str, StopIdTarget, IdHash>,
) -> Result<Option<Transfer>, FaultKind>
    ensures fine { IfOk result (λ found. transfer_fault (held_at names.now) row.now ≡ None) }
    ensures kept { IfOk result (λ found. is_some found ≡ is_kept row.now) }
    ensures ok { IfOk result (λ found. IfSome found (IsTransferOf (held_at names.now) row.now)) }
    ensures err { IfErr result (λ kind. transfer_fault (held_at names.now) row.now ≡ Some kind) }
{
    if !is_counted(row) {
        return Ok(None);
    }
    let from = names.get(row.from.as_str()).copied();
    let to = names.get(row.to.as_str()).copied();
    match ends(from, to) {
        Ok((from, to)) => Ok(Some(Transfer {
            from,
            to,
            kind: row.kind,
            seconds: row.seconds,
        })),
        Err(kind) => Err(kind),
    }
}

// Returns whether a transfer isn't skipped.
fn is_counted(row: &TransferRow) -> bool
    ensures { result ≡ is_kept row.now }
{
    row.kind != TransferKind::Skipped
}

// Returns both ends of a transfer: first `UnknownId` if either is unknown, then `NotAStop` if either is neither a
// stop nor a station.
fn ends(
    from: Option<StopIdTarget>,
    to: Option<StopIdTarget>,
) -> Result<(TransferEnd, TransferEnd), FaultKind>
    ensures fine { IfOk result (λ indices. ends_fault from to ≡ None) }
    ensures from { IfOk result (λ indices. from ≡ Some (named_by indices.0)) }
    ensures to { IfOk result (λ indices. to ≡ Some (named_by indices.1)) }
    ensures err { IfErr result (λ kind. ends_fault from to ≡ Some kind) }
{
    let Some(from) = from else {
        return Err(FaultKind::UnknownId);
    };
    let Some(to) = to else {
        return Err(FaultKind::UnknownId);
    };
    match (end_of(from), end_of(to)) {
        (Some(from), Some(to)) => Ok((from, to)),
        _ => Err(FaultKind::NotAStop),
    }
}

// Returns a stop or a station as an end of a transfer; none for another place.
fn end_of(named: StopIdTarget) -> Option<TransferEnd>
    ensures some { IfSome result (λ index. (named ≡ named_by index) × (end_fault (Some named) ≡ None)) }
    ensures none { result ≡ None → end_fault (Some named) ≡ Some FaultKind.NotAStop }
{
    match named {
        StopIdTarget::Stop(number) => Some(TransferEnd::Stop(number)),
        StopIdTarget::Station(index) => Some(TransferEnd::Station(index)),
        StopIdTarget::Elsewhere => None,
    }
}

// Returns how many rows are skipped.
pub(crate) fn skipped_in(rows: &[TransferRow]) -> usize
    ensures { result ≡ count_by (λ row. not (is_kept row)) rows.now }
{
    rows.iter()
        .filter(|row| row.kind == TransferKind::Skipped)
        .count()
}
