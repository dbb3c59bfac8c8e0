//! What the ids of the tables name.

ghost use Rattle.std.specs.Prelude.{◌≡◌, ◌≤◌, ◌<◌, ℕ, List, length, map, IfOk, OnOk, Some, None, if◌then◌else◌};
ghost use Rattle.std.specs.Option.{option_or};
ghost use Rattle.std.specs.Str.{bytes_eq};
ghost use Rattle.std.specs.String.{string_bytes};
ghost use Rattle.indexmap.specs.IndexMap.{hasher_of};
ghost use Rattle.gtfs_rows.specs.Faults.{fault_unless, or_fault};
ghost use Rattle.gtfs_tables.specs.Rows.{end_fault as fault_of_end, station_index, stop_fault as fault_of_stop};
ghost use Rattle.gtfs_tables.specs.Names.{held_at, named_as as name_of, stop_named, trip_named};

use gtfs_rows::{FaultKind, IdHash, Location, StopRow, TripRow};
use indexmap::{IndexMap, IndexSet};
use std::alloc::{AllocError, Global};

/// What an id of `stops.txt` names.
#[derive(Clone, Copy, Debug, PartialEq, Eq)]
pub enum StopIdTarget {
    /// A stop, by its number.
    Stop(u32),
    /// A station, by the index of its row.
    Station(u32),
    /// A place of another kind.
    Elsewhere,
}

impl StopIdTarget {
    /// Returns what a row of `stops.txt` stands for, given how many stops (`number`) and how many rows (`index`) come
    /// before it.
    pub fn of(location: Location, number: u32, index: u32) -> StopIdTarget
        ensures { result ≡ name_of location number index }
    {
        match location {
            Location::Stop => StopIdTarget::Stop(number),
            Location::Station => StopIdTarget::Station(index),
            Location::Entrance | Location::Node | Location::BoardingArea => StopIdTarget::Elsewhere,
        }
    }
}

/// Returns what is wrong with a parent_station that names this, or nothing: it must name a station.
pub fn parent_fault(named: Option<StopIdTarget>) -> Option<FaultKind>
    ensures { result ≡ fault_unless (station_index named) FaultKind.UnknownId }
{
    match named {
        Some(StopIdTarget::Station(_)) => None,
        Some(StopIdTarget::Stop(_)) | Some(StopIdTarget::Elsewhere) | None => {
            Some(FaultKind::UnknownId)
        }
    }
}

/// Returns what is wrong with a stop_id of `stop_times.txt` that names this, or nothing: it must name a stop.
pub fn stop_fault(named: Option<StopIdTarget>) -> Option<FaultKind>
    ensures { result ≡ fault_of_stop named }
{
    match named {
        None => Some(FaultKind::UnknownId),
        Some(StopIdTarget::Stop(_)) => None,
        Some(StopIdTarget::Station(_)) | Some(StopIdTarget::Elsewhere) => Some(FaultKind::NotAStop),
    }
}

/// Returns what is wrong with one end of a transfer that names this, or nothing: it must name a stop or a station.
pub fn end_fault(named: Option<StopIdTarget>) -> Option<FaultKind>
    ensures { result ≡ or_fault (fault_unless named FaultKind.UnknownId) (fault_of_end named) }
{
    match named {
        None => Some(FaultKind::UnknownId),
        Some(StopIdTarget::Stop(_)) | Some(StopIdTarget::Station(_)) => None,
        Some(StopIdTarget::Elsewhere) => Some(FaultKind::NotAStop),
    }
}

// What each id names. Memory may run out.
type ById<'a, T> = Result<IndexMap<&'a str, T, IdHash>, AllocError>;

// Returns what each id of stops.txt names.
pub(crate) fn stops_by_id(alloc: Global, hash: IdHash, stops: &[StopRow]) -> ById<'_, StopIdTarget>
    requires { length stops.now ≤ u32.MAX }
    ensures holds { IfOk result (λ names. (id : List ℕ) → held_at names id ≡ stop_named stops.now id) }
    ensures hash { IfOk result (λ names. hasher_of names ≡ hash) }
{
    let mut names = IndexMap::with_capacity_and_hasher(alloc, stops.len(), hash)?;
    let mut number = 0;
    for (index, row) in stops.iter().enumerate() {
        let name = StopIdTarget::of(row.location, number, index as u32);
        if row.location == Location::Stop {
            number += 1;
        }
        add_first(&mut names, row.id.as_str(), name)?;
    }
    Ok(names)
}

// Returns the index of the row of each id of trips.txt.
pub(crate) fn trips_by_id(alloc: Global, hash: IdHash, trips: &[TripRow]) -> ById<'_, u32>
    requires { length trips.now ≤ u32.MAX }
    ensures holds { IfOk result (λ indices. (id : List ℕ) → held_at indices id ≡ trip_named trips.now id) }
    ensures hash { IfOk result (λ indices. hasher_of indices ≡ hash) }
{
    let mut indices = IndexMap::with_capacity_and_hasher(alloc, trips.len(), hash)?;
    for (index, row) in trips.iter().enumerate() {
        add_first(&mut indices, row.id.as_str(), index as u32)?;
    }
    Ok(indices)
}

// Keeps what an id names, unless an earlier row has the id.
fn add_first<'a, T: Copy>(
    names: &mut IndexMap<&'a str, T, IdHash>,
    id: &'a str,
    name: T,
) -> Result<(), AllocError>
    ensures adds { OnOk result ((q : List ℕ) → held_at names.new q
        ≡ option_or (held_at names.old q) (if bytes_eq q id.now then Some name else None)) }
    ensures hash { OnOk result (hasher_of names.new ≡ hasher_of names.old) }
{
    if let Some(first) = names.insert(id, name)? {
        names.insert(id, first)?;
    }
    Ok(())
}

// Returns what each of the ids names, if anything.
pub(crate) fn named_each<T: Copy>(
    alloc: Global,
    ids: &IndexSet<String, IdHash>,
    names: &IndexMap<&str, T, IdHash>,
) -> Result<Vec<Option<T>>, AllocError>
    ensures { IfOk result (λ named. named.items ≡ map (λ id. held_at names.now (string_bytes id)) ids.now.keys) }
{
    let mut named = Vec::with_capacity(alloc, ids.len())?;
    let mut likely = 0;
    for id in ids {
        named.push(named_near(names, &mut likely, id.as_str()))?;
    }
    Ok(named)
}

// Returns what an id names, if anything. The likely index is tried first, and becomes the one behind the id's: ids
// often come in the order of the rows that they name.
fn named_near<T: Copy>(names: &IndexMap<&str, T, IdHash>, likely: &mut usize, id: &str) -> Option<T>
    ensures { result ≡ held_at names.now id.now }
{
    if let Some((there, name)) = names.get_index(*likely) {
        if *there == id {
            *likely = likely.saturating_add(1);
            return Some(*name);
        }
    }
    let (index, _, name) = names.get_full(id)?;
    *likely = index.saturating_add(1);
    Some(*name)
}
