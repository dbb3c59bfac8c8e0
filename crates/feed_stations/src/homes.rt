//! The row by which each stop is listed: that of its station, or its own if it has none.

ghost use Rattle.std.specs.Prelude.{◌≡◌, ◌≢◌, ◌<◌, ℕ, List, IfErr, IfOk, OnOk, None, Some};
ghost use Rattle.std.specs.Prelude.{if◌then◌else◌};
ghost use Rattle.std.specs.Option.{option_or};
ghost use Rattle.std.specs.Str.{bytes_eq};
ghost use Rattle.indexmap.specs.IndexMap.{hasher_of};
ghost use Rattle.gtfs_rows.specs.declared.fault.Table.TheVariants.{Stops};
ghost use Rattle.gtfs_tables.specs.First.{fault_at as fault_of, first_fault_of};
ghost use Rattle.gtfs_tables.specs.Names.{held_at};
ghost use Rattle.feed_stations.specs.Homes.{AreHomes, home_of, is_station, orphan_fault, station_named};

use gtfs_rows::{FaultKind, IdHash, Location, StopRow, Table, TableFault};
use indexmap::IndexMap;
use std::alloc::{AllocError, Global};

// The row of each station, by its id.
type StationsById<'a> = IndexMap<&'a str, usize, IdHash>;

/// For each row of `stops.txt` the index of the row by which it is listed: that of its station for a stop that has one,
/// and its own for any other stop. Entrances, nodes, boarding areas and stations themselves have none. Or the fault of
/// the first stop whose parent isn't a station.
pub fn homes_in(
    alloc: Global,
    hash: IdHash,
    rows: &[StopRow],
) -> Result<Vec<Option<usize>>, TableFault>
    ensures fine { IfOk result (λ _. first_fault_of Stops (orphan_fault (station_named rows.now)) rows.now ≡ None) }
    ensures homes { IfOk result (λ homes. AreHomes rows.now homes.items) }
    ensures err { IfErr result (λ fault. fault.kind ≢ FaultKind.OutOfMemory
        → first_fault_of Stops (orphan_fault (station_named rows.now)) rows.now ≡ Some fault) }
{
    let Ok(stations) = stations_by_id(alloc, hash, rows) else {
        return Err(out_of_memory());
    };
    let Ok(mut homes) = Vec::with_capacity(alloc, rows.len()) else {
        return Err(out_of_memory());
    };
    for row_index in 0..rows.len() {
        match home_of(&stations, &rows[row_index], row_index) {
            Ok(home) => {
                if homes.push(home).is_err() {
                    return Err(out_of_memory());
                }
            }
            Err(kind) => return Err(fault_at(row_index, kind)),
        }
    }
    Ok(homes)
}

// The index of the first row of each station's id, looked up by this hash.
fn stations_by_id(
    alloc: Global,
    hash: IdHash,
    rows: &[StopRow],
) -> Result<StationsById<'_>, AllocError>
    ensures holds { IfOk result (λ stations. (id : List ℕ) → held_at stations id ≡ station_named rows.now id) }
    ensures hash { IfOk result (λ stations. hasher_of stations ≡ hash) }
{
    let mut stations = IndexMap::with_capacity_and_hasher(alloc, 0, hash)?;
    for row_index in 0..rows.len() {
        let row = &rows[row_index];
        if is_station(row) {
            add_first(&mut stations, row.id.as_str(), row_index)?;
        }
    }
    Ok(stations)
}

fn is_station(row: &StopRow) -> bool
    ensures { result ≡ is_station row.now }
{
    row.location == Location::Station
}

// Keeps the row of an id, unless an earlier row has the id.
fn add_first<'a>(
    stations: &mut StationsById<'a>,
    id: &'a str,
    row_index: usize,
) -> Result<(), AllocError>
    ensures adds { OnOk result ((q : List ℕ) → held_at stations.new q
        ≡ option_or (held_at stations.old q) (if bytes_eq q id.now then Some row_index else None)) }
    ensures hash { OnOk result (hasher_of stations.new ≡ hasher_of stations.old) }
{
    if let Some(first) = stations.insert(id, row_index)? {
        stations.insert(id, first)?;
    }
    Ok(())
}

// The index of the row by which the row at an index is listed, if it is that of a stop: `UnknownId` if the parent isn't
// a station.
fn home_of(
    stations: &StationsById<'_>,
    row: &StopRow,
    row_index: usize,
) -> Result<Option<usize>, FaultKind>
    ensures fine { IfOk result (λ _. orphan_fault (held_at stations.now) row.now ≡ None) }
    ensures home { IfOk result (λ home. home ≡ home_of (held_at stations.now) row_index row.now) }
    ensures err { IfErr result (λ kind. orphan_fault (held_at stations.now) row.now ≡ Some kind) }
{
    if row.location != Location::Stop {
        return Ok(None);
    }
    if row.parent.is_empty() {
        return Ok(Some(row_index));
    }
    match stations.get(row.parent.as_str()) {
        Some(station) => Ok(Some(*station)),
        None => Err(FaultKind::UnknownId),
    }
}

// The fault of the row at an index; records are numbered from 1.
fn fault_at(row_index: usize, kind: FaultKind) -> TableFault
    requires { row_index < usize.MAX }
    ensures { result ≡ fault_of Stops row_index kind }
{
    TableFault {
        file: Table::Stops,
        row: row_index as u64 + 1,
        kind,
    }
}

fn out_of_memory() -> TableFault
    ensures { result.kind ≡ FaultKind.OutOfMemory }
{
    TableFault {
        file: Table::Stops,
        row: 0,
        kind: FaultKind::OutOfMemory,
    }
}
