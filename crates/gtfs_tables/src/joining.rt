//! Joins the tables of a feed, or finds the first thing that is wrong with them.

ghost use Rattle.std.specs.Prelude.{◌≡◌, ◌≢◌, ◌≤◌, ◌<◌, ◌+◌, ℕ, List, length, map, filter, Ok, Err, ◌⊎◌, IfOk};
ghost use Rattle.std.specs.Prelude.{IfErr, IsSortedBy, Some, None, Option, false, slice_index_or, option_map};
ghost use Rattle.std.specs.List.{AllWithin, slice_range};
ghost use Rattle.indexmap.specs.IndexMap.{hasher_of as hash_of_names};
ghost use Rattle.indexmap.specs.IndexSet.{hasher_of};
ghost use Rattle.gtfs_rows.specs.declared.rows.StopTimeRow.{StopTimeRow as LinkedRow};
ghost use Rattle.gtfs_rows.specs.Tables.{is_stop};
ghost use Rattle.gtfs_tables.specs.First.{first_below, first_fault_of, no_memory};
ghost use Rattle.gtfs_tables.specs.Names.{held_at, stop_named, trip_named};
ghost use Rattle.gtfs_tables.specs.Order.{comes_before, first_row_of, sort_keys_by, sort_keys_in};
ghost use Rattle.gtfs_tables.specs.Rows.{is_flex_id, lack_stops, linked_fault, linked_row, station_of};
ghost use Rattle.std.specs.String.{string_bytes};
ghost use Rattle.gtfs_tables.specs.Times.{first_wrong as wrong_first};
ghost use Rattle.gtfs_tables.specs.Feeds.{IsFirstFault, IsJoined, IsLinked, IsNamingFault, feed_stop, feed_trips};
ghost use Rattle.gtfs_tables.specs.Feeds.{linked_by, fault_of_row, trip_fault};
ghost use Rattle.gtfs_tables.specs.declared.names.StopIdTarget.{StopIdTarget as NamedBy};

use crate::links::{
    RowNames, flex_at, flex_ids, judge_rows, linked_frequencies, linked_rows, out_of_memory,
    repeating, skipped_in, stations, transfers as linked_transfers,
};
use crate::names::{StopIdTarget, named_each, stops_by_id, trips_by_id};
use crate::order::{RowOrder, number_at, order_of_rows, trip_at};
use crate::tables::{Feed, Frequency, Stop, Tables, Transfer, Trip};
use crate::times::is_flex;
use crate::trip_faults::fault_of_trip;
use gtfs_rows::{
    FaultKind, IdHash, Location, StopRow, StopTimeRow, StopTimes, Table, TableFault, TripRow,
};
use indexmap::IndexMap;
use std::alloc::{AllocError, Global};

// The tables with their ids looked up, before the times of trips are judged. A fault of the transfers is kept here,
// since it comes after those of the times.
#[derive(Drop)]
struct Links {
    order: RowOrder,
    stations: Vec<Option<u32>>,
    names: RowNames,
    repeats: Vec<bool>,
    frequencies: Vec<Frequency>,
    transfers: Result<Vec<Transfer>, TableFault>,
}

/// Returns the feed of the tables, or their first fault. These are judged in turn: the parents of stops, the trip and
/// the stop of each stop time, the trips of frequencies, the times of each trip, and the transfers; each in the order
/// of its file, times by trip in the order of `trips.txt`. An id stands for the first row that has it. If `strict`,
/// each arrival must be later than the departure before it. The feed's ids are looked up by the hash of the tables.
/// Memory may run out at any time: `OutOfMemory` of `stop_times.txt`.
#[tactic(none)]
pub fn join(alloc: Global, tables: Tables, strict: bool) -> Result<Feed, TableFault>
    ensures ok { IfOk result (IsJoined strict tables) }
    ensures hash { IfOk result (λ feed. feed.hash ≡ hasher_of tables.stop_times.trips) }
    ensures err { IfErr result (λ fault. fault ≢ no_memory → IsFirstFault strict tables fault) }
{
    let most = u32::MAX as usize;
    if tables.stops.len() > most || tables.trips.len() > most {
        return Err(out_of_memory());
    }
    match link(alloc, &tables) {
        Ok(links) => feed_of(alloc, tables, links, strict),
        Err(fault) => Err(fault),
    }
}

// Looks up the ids of the tables, or returns the first fault of an id.
#[tactic(none)]
fn link(alloc: Global, tables: &Tables) -> Result<Links, TableFault>
    requires stops { length tables.now.stops.items ≤ u32.MAX }
    requires trips { length tables.now.trips.items ≤ u32.MAX }
    ensures ok { IfOk result (IsLinked (stop_named tables.now.stops.items) (trip_named tables.now.trips.items)
        tables.now) }
    ensures err { IfErr result (λ fault. fault ≢ no_memory
        → IsNamingFault (stop_named tables.now.stops.items) (trip_named tables.now.trips.items) tables.now fault) }
{
    let hash = *tables.stop_times.trips.hasher();
    let Ok(names) = stops_by_id(alloc, hash, &tables.stops) else {
        return Err(out_of_memory());
    };
    let Ok(indices) = trips_by_id(alloc, hash, &tables.trips) else {
        return Err(out_of_memory());
    };
    link_by(alloc, tables, &names, &indices)
}

// Looks up the ids of the tables in maps of what they name, or returns the first fault of an id.
#[tactic(none)]
fn link_by(
    alloc: Global,
    tables: &Tables,
    names: &IndexMap<&str, StopIdTarget, IdHash>,
    indices: &IndexMap<&str, u32, IdHash>,
) -> Result<Links, TableFault>
    requires hashed { hash_of_names names.now ≡ hasher_of tables.now.stop_times.trips }
    requires hashed_indices { hash_of_names indices.now ≡ hasher_of tables.now.stop_times.trips }
    ensures ok { IfOk result (IsLinked (held_at names.now) (held_at indices.now) tables.now) }
    ensures err { IfErr result (λ fault. fault ≢ no_memory
        → IsNamingFault (held_at names.now) (held_at indices.now) tables.now fault) }
{
    let Ok(trips) = named_each(alloc, &tables.stop_times.trips, indices) else {
        return Err(out_of_memory());
    };
    let Ok((order, may_lack_stops)) = order_of_rows(alloc, &tables.stop_times.rows, &trips) else {
        return Err(out_of_memory());
    };
    let stations = match stations(alloc, &tables.stops, names) {
        Ok(stations) => stations,
        Err(fault) => return Err(fault),
    };
    let judged = judged_times(alloc, &tables.stop_times, names, &trips, may_lack_stops);
    let (stops, flex) = match judged {
        Ok(judged) => judged,
        Err(fault) => return Err(fault),
    };
    let repeats = match repeating(alloc, &tables.frequencies, indices, tables.trips.len()) {
        Ok(repeats) => repeats,
        Err(fault) => return Err(fault),
    };
    let Ok(frequencies) = linked_frequencies(alloc, &tables.frequencies, indices) else {
        return Err(out_of_memory());
    };
    let transfers = linked_transfers(alloc, &tables.transfers, names);
    Ok(Links {
        order,
        stations,
        names: RowNames { trips, stops, flex },
        repeats,
        frequencies,
        transfers,
    })
}

// Returns what the stop_ids of stop_times.txt name, and which of its trip_ids have a row without a stop; or the fault
// of the first row whose trip or stop is wrong.
fn judged_times(
    alloc: Global,
    stop_times: &StopTimes,
    names: &IndexMap<&str, StopIdTarget, IdHash>,
    trips: &[Option<u32>],
    may_lack_stops: bool,
) -> Result<(Vec<Option<StopIdTarget>>, Vec<bool>), TableFault>
    requires { may_lack_stops ≡ false → lack_stops stop_times.now.rows.items ≡ false }
    ensures fine { IfOk result (λ judged. first_fault_of Table.StopTimes (λ row. linked_fault trips.now
        (map (λ id. held_at names.now (string_bytes id)) stop_times.now.stops.keys)
        (is_flex_id stop_times.now.rows.items row.trip) row) stop_times.now.rows.items ≡ None) }
    ensures stops { IfOk result (λ judged. judged.0.items
        ≡ map (λ id. held_at names.now (string_bytes id)) stop_times.now.stops.keys) }
    ensures flex { IfOk result (λ judged. (id : ℕ) → id < length trips.now
        → slice_index_or judged.1.items id false ≡ is_flex_id stop_times.now.rows.items id) }
    ensures err { IfErr result (λ fault. fault ≢ no_memory
        → first_fault_of Table.StopTimes (λ row. linked_fault trips.now
        (map (λ id. held_at names.now (string_bytes id)) stop_times.now.stops.keys)
        (is_flex_id stop_times.now.rows.items row.trip) row) stop_times.now.rows.items ≡ Some fault) }
{
    let Ok(stops) = named_each(alloc, &stop_times.stops, names) else {
        return Err(out_of_memory());
    };
    let Ok(flex) = flex_ids(alloc, &stop_times.rows, trips.len(), may_lack_stops) else {
        return Err(out_of_memory());
    };
    match judge_rows(&stop_times.rows, trips, &stops, &flex) {
        Ok(()) => Ok((stops, flex)),
        Err(fault) => Err(fault),
    }
}

// Returns the feed of tables whose ids are looked up, or the first fault of its trips' times or its transfers.
#[tactic(none)]
fn feed_of(alloc: Global, tables: Tables, links: Links, strict: bool) -> Result<Feed, TableFault>
    requires { IsLinked (stop_named tables.stops.items) (trip_named tables.trips.items) tables links }
    ensures ok { IfOk result (IsJoined strict tables) }
    ensures hash { IfOk result (λ feed. feed.hash ≡ hasher_of tables.stop_times.trips) }
    ensures err { IfErr result (λ fault. fault ≢ no_memory → IsFirstFault strict tables fault) }
{
    let hash = *tables.stop_times.trips.hasher();
    let skipped = skipped_in(&tables.transfers);
    let Tables {
        stops,
        trips,
        stop_times,
        calendar,
        calendar_dates,
        ..
    } = tables;
    let StopTimes { rows, .. } = stop_times;
    match made_of(alloc, stops, trips, rows, links, strict) {
        Ok(made) => Ok(Feed {
            stops: made.stops,
            trips: made.trips,
            stop_times: made.stop_times,
            frequencies: made.frequencies,
            transfers: made.transfers,
            skipped,
            calendar,
            calendar_dates,
            hash,
        }),
        Err(fault) => Err(fault),
    }
}

// The parts of a feed that are made from rows and links.
#[derive(Drop)]
struct FeedParts {
    stops: Vec<Stop>,
    trips: Vec<Trip>,
    stop_times: Vec<StopTimeRow>,
    frequencies: Vec<Frequency>,
    transfers: Vec<Transfer>,
}

// Makes the parts of a feed from rows and links, or returns the first fault of the trips' times or the transfers.
#[tactic(none)]
fn made_of(
    alloc: Global,
    stops: Vec<StopRow>,
    trips: Vec<TripRow>,
    rows: Vec<StopTimeRow>,
    links: Links,
    strict: bool,
) -> Result<FeedParts, TableFault>
    requires flex { (id : ℕ) → id < length links.names.trips.items
        → slice_index_or links.names.flex.items id false ≡ is_flex_id rows.items id }
    requires rising { IsSortedBy comes_before (sort_keys_in links.names.trips.items links.order rows.items) }
    ensures rows { IfOk result (λ made. made.stop_times.items
        ≡ linked_by links.names.trips.items links.names.stops.items links.order rows.items) }
    ensures fine { IfOk result (λ made. first_below
        (trip_fault strict (sort_keys_in links.names.trips.items links.order rows.items)
        (linked_by links.names.trips.items links.names.stops.items links.order rows.items)) (length trips.items)
        ≡ None) }
    ensures trips { IfOk result (λ made. made.trips.items
        ≡ feed_trips (sort_keys_in links.names.trips.items links.order rows.items)
        (linked_by links.names.trips.items links.names.stops.items links.order rows.items)
        (λ t. slice_index_or links.repeats.items t false) 0 trips.items) }
    ensures stops { (named : List ℕ → Option NamedBy) → links.stations.items ≡ map (station_of named) stops.items
        → IfOk result (λ made. made.stops.items ≡ map (feed_stop named) (filter is_stop stops.items)) }
    ensures frequencies { IfOk result (λ made. made.frequencies ≡ links.frequencies) }
    ensures transfers { IfOk result (λ made. links.transfers ≡ Ok made.transfers) }
    ensures err { IfErr result (λ fault. fault ≢ no_memory
        → (first_below (trip_fault strict (sort_keys_in links.names.trips.items links.order rows.items)
        (linked_by links.names.trips.items links.names.stops.items links.order rows.items)) (length trips.items)
        ≡ Some fault)
        ⊎ ((first_below (trip_fault strict (sort_keys_in links.names.trips.items links.order rows.items)
        (linked_by links.names.trips.items links.names.stops.items links.order rows.items)) (length trips.items) ≡ None)
        × (links.transfers ≡ Err fault))) }
{
    let (stop_times, trips) = match timed_rows(alloc, rows, trips, &links, strict) {
        Ok(timed) => timed,
        Err(fault) => return Err(fault),
    };
    let Ok(stops) = feed_stops(alloc, stops, &links.stations) else {
        return Err(out_of_memory());
    };
    let Links {
        frequencies,
        transfers,
        ..
    } = links;
    match transfers {
        Ok(transfers) => Ok(FeedParts {
            stops,
            trips,
            stop_times,
            frequencies,
            transfers,
        }),
        Err(fault) => Err(fault),
    }
}

// Returns the rows in order, each with its trip and stop, and the trips with their rows; or the first fault of a
// trip's times.
#[tactic(none)]
fn timed_rows(
    alloc: Global,
    rows: Vec<StopTimeRow>,
    trips: Vec<TripRow>,
    links: &Links,
    strict: bool,
) -> Result<(Vec<StopTimeRow>, Vec<Trip>), TableFault>
    requires flex { (id : ℕ) → id < length links.now.names.trips.items
        → slice_index_or links.now.names.flex.items id false ≡ is_flex_id rows.items id }
    requires rising { IsSortedBy comes_before (sort_keys_in links.now.names.trips.items links.now.order rows.items) }
    ensures rows { IfOk result (λ timed. timed.0.items
        ≡ linked_by links.now.names.trips.items links.now.names.stops.items links.now.order rows.items) }
    ensures fine { IfOk result (λ timed. first_below
        (trip_fault strict (sort_keys_in links.now.names.trips.items links.now.order rows.items)
        (linked_by links.now.names.trips.items links.now.names.stops.items links.now.order rows.items))
        (length trips.items) ≡ None) }
    ensures trips { IfOk result (λ timed. timed.1.items
        ≡ feed_trips (sort_keys_in links.now.names.trips.items links.now.order rows.items)
        (linked_by links.now.names.trips.items links.now.names.stops.items links.now.order rows.items)
        (λ t. slice_index_or links.now.repeats.items t false) 0 trips.items) }
    ensures err { IfErr result (λ fault. fault ≢ no_memory
        → first_below (trip_fault strict (sort_keys_in links.now.names.trips.items links.now.order rows.items)
        (linked_by links.now.names.trips.items links.now.names.stops.items links.now.order rows.items))
        (length trips.items) ≡ Some fault) }
{
    let Ok(stop_times) = linked_rows(alloc, rows, &links.order, &links.names) else {
        return Err(out_of_memory());
    };
    match timed_trips(
        alloc,
        trips,
        &stop_times,
        &links.order,
        &links.repeats,
        strict,
    ) {
        Ok(trips) => Ok((stop_times, trips)),
        Err(fault) => Err(fault),
    }
}

// Returns the trips with their rows, or the first fault of a trip's times.
fn timed_trips(
    alloc: Global,
    trips: Vec<TripRow>,
    rows: &[StopTimeRow],
    order: &RowOrder,
    repeats: &[bool],
    strict: bool,
) -> Result<Vec<Trip>, TableFault>
    requires len { length rows.now ≡ length (sort_keys_by order.now rows.now) }
    requires rising { IsSortedBy comes_before (sort_keys_by order.now rows.now) }
    ensures fine { IfOk result (λ timed. first_below (trip_fault strict (sort_keys_by order.now rows.now) rows.now)
        (length trips.items) ≡ None) }
    ensures ok { IfOk result (λ timed. timed.items
        ≡ feed_trips (sort_keys_by order.now rows.now) rows.now (λ t. slice_index_or repeats.now t false) 0
        trips.items) }
    ensures err { IfErr result (λ fault. fault ≢ no_memory
        → first_below (trip_fault strict (sort_keys_by order.now rows.now) rows.now) (length trips.items)
        ≡ Some fault) }
{
    let Ok(mut timed) = Vec::with_capacity(alloc, trips.len()) else {
        return Err(out_of_memory());
    };
    let mut first = 0;
    let mut index = 0;
    for row in trips {
        let end = end_of_trip(rows, order, first, index);
        match judge_trip(alloc, rows, order, first, end, strict) {
            Ok(()) => {}
            Err(fault) => return Err(fault),
        }
        let trip = Trip {
            id: row.id,
            service: row.service,
            first,
            end,
            repeats: flex_at(repeats, index),
            flex: is_flex(&rows[first..end]),
        };
        match timed.push(trip) {
            Ok(()) => {}
            Err(_) => return Err(out_of_memory()),
        }
        first = end;
        index += 1;
    }
    Ok(timed)
}

// Returns the index after the last row of a trip.
pub(crate) fn end_of_trip(
    rows: &[StopTimeRow],
    order: &RowOrder,
    first: usize,
    trip: usize,
) -> usize
    requires len { length rows.now ≡ length (sort_keys_by order.now rows.now) }
    requires rising { IsSortedBy comes_before (sort_keys_by order.now rows.now) }
    requires within { first ≤ length rows.now }
    requires before { AllWithin (λ sort_key. sort_key.trip < trip) (sort_keys_by order.now rows.now) 0 first }
    ensures from { first ≤ result }
    ensures within { result ≤ length rows.now }
    ensures before { AllWithin (λ sort_key. sort_key.trip < trip + 1) (sort_keys_by order.now rows.now) 0 result }
    ensures end { result ≡ first_row_of (sort_keys_by order.now rows.now) (trip + 1) }
{
    for at in first..rows.len() {
        if trip_at(rows, order, at) as usize > trip {
            return at;
        }
    }
    rows.len()
}

// Judges the times of a trip, whose rows are those from `first` up to but not including `end`.
fn judge_trip(
    alloc: Global,
    rows: &[StopTimeRow],
    order: &RowOrder,
    first: usize,
    end: usize,
    strict: bool,
) -> Result<(), TableFault>
    requires rising { first ≤ end }
    requires within { end ≤ length rows.now }
    ensures ok { IfOk result (λ _. option_map (fault_of_row (slice_range (sort_keys_by order.now rows.now) first end))
        (wrong_first strict (slice_range rows.now first end)) ≡ None) }
    ensures err { IfErr result (λ fault. fault ≢ no_memory
        → option_map (fault_of_row (slice_range (sort_keys_by order.now rows.now) first end))
        (wrong_first strict (slice_range rows.now first end)) ≡ Some fault) }
{
    match fault_of_trip(alloc, rows, order, first, end, strict) {
        Ok(None) => Ok(()),
        Ok(Some(fault)) => Err(fault),
        Err(_) => Err(out_of_memory()),
    }
}

// Returns the fault of one of a trip's rows, with the number of its record.
pub(crate) fn fault_at_row(
    order: &RowOrder,
    first: usize,
    end: usize,
    at: usize,
    kind: FaultKind,
) -> TableFault
    requires { first ≤ end }
    ensures { (rows : List LinkedRow) → end ≤ length rows
        → result ≡ fault_of_row (slice_range (sort_keys_by order.now rows) first end) (at, kind) }
{
    let row = if at < end - first {
        number_at(order, first + at)
    } else {
        0
    };
    TableFault {
        file: Table::StopTimes,
        row,
        kind,
    }
}

// Returns the stops among the rows, with their stations.
fn feed_stops(
    alloc: Global,
    rows: Vec<StopRow>,
    stations: &[Option<u32>],
) -> Result<Vec<Stop>, AllocError>
    ensures { (named : List ℕ → Option NamedBy) → stations.now ≡ map (station_of named) rows.items
        → IfOk result (λ stops. stops.items ≡ map (feed_stop named) (filter is_stop rows.items)) }
{
    let mut stops = Vec::new(alloc);
    let mut index = 0;
    for row in rows {
        if row.location == Location::Stop {
            stops.push(Stop {
                id: row.id,
                station: station_at(stations, index),
            })?;
        }
        index += 1;
    }
    Ok(stops)
}

// Returns the station at an index, if there is one.
fn station_at(stations: &[Option<u32>], index: usize) -> Option<u32>
    ensures { result ≡ slice_index_or stations.now index None }
{
    if index < stations.len() {
        stations[index]
    } else {
        None
    }
}
