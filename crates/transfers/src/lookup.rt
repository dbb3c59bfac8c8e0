//! Looks up the stops that the ends of transfers stand for, and the transfers that lead to a stop or a station.

ghost use Rattle.std.specs.Prelude.{◌≡◌, ◌<◌, ◌≤◌, ◌+◌, ◌^◌, true, false, List, length, map, IfOk};
ghost use Rattle.gtfs_tables.specs.declared.tables.Stop.{Stop as TheStop};
ghost use Rattle.gtfs_tables.specs.declared.tables.Transfer.{Transfer as TheTransfer};
ghost use Rattle.transfers.specs.Bans.{IsBannedRow, IsVoid, station_at};
ghost use Rattle.transfers.specs.Claims.{AreStoodFor, AreChildren};
ghost use Rattle.transfers.specs.Counting.{KeepsWhatCounts};
ghost use Rattle.transfers.specs.Listed.{NamesBelow, is_station, stands_for, station_of};
ghost use Rattle.transfers.specs.Lookup.{EndsBelow, IsKnown, IsLookup, end_stop, end_station, stops_in};
ghost use Rattle.transfers.specs.Lookup.{transfers_in};

use crate::bans::{Ban, bans_of, is_ban};
use crate::claims::{Source, source_of};
use crate::counting::rows_that_count;
use crate::groups::Groups;
use gtfs_tables::{Feed, Stop, Transfer, TransferEnd};
use std::alloc::{AllocError, Global};
use std::slice;

/// The indices by which a feed's stops and transfers are looked up.
#[derive(Drop)]
pub(crate) struct Lookup {
    /// The feed's transfers, without those that say nothing that counts.
    pub transfers: Vec<Transfer>,
    /// The pairs of stations between which one of these transfers says that none is possible.
    pub bans: Vec<Ban>,
    /// The stops, grouped by station.
    pub children: Groups,
    /// The transfers that lead to a stop itself, grouped by that stop.
    pub into_stops: Groups,
    /// The transfers that lead to a station, grouped by that station.
    pub into_stations: Groups,
}

/// A feed with its lookup.
#[derive(Drop)]
pub(crate) struct FeedLookup<'a> {
    pub feed: &'a Feed,
    pub lookup: &'a Lookup,
}

// Returns the station of each stop.
fn stations(alloc: Global, stops: &[Stop]) -> Result<Vec<Option<u32>>, AllocError>
    ensures { IfOk result (λ v. v.items ≡ map (λ stop. stop.station) stops.now) }
{
    let mut stations = Vec::with_capacity(alloc, stops.len())?;
    for stop in stops {
        stations.push(stop.station)?;
    }
    Ok(stations)
}

// Returns the stop, if the end is one.
fn end_stop(transfer_end: &TransferEnd) -> Option<u32>
    ensures { result ≡ end_stop transfer_end.now }
{
    match transfer_end {
        TransferEnd::Stop(stop) => Some(*stop),
        TransferEnd::Station(_) => None,
    }
}

// Returns the station, if the end is one.
fn end_station(transfer_end: &TransferEnd) -> Option<u32>
    ensures { result ≡ end_station transfer_end.now }
{
    match transfer_end {
        TransferEnd::Stop(_) => None,
        TransferEnd::Station(station) => Some(*station),
    }
}

// Returns for each transfer the stop that it leads to, if any, and the station that it leads to, if any.
fn ends_named(
    alloc: Global,
    transfers: &[Transfer],
) -> Result<(Vec<Option<u32>>, Vec<Option<u32>>), AllocError>
    ensures stops { IfOk result (λ ends. ends.0.items ≡ map (λ row. end_stop row.to) transfers.now) }
    ensures stations { IfOk result (λ ends. ends.1.items ≡ map (λ row. end_station row.to) transfers.now) }
{
    let mut stops = Vec::with_capacity(alloc, transfers.len())?;
    let mut stations = Vec::with_capacity(alloc, transfers.len())?;
    for row in transfers {
        stops.push(end_stop(&row.to))?;
        stations.push(end_station(&row.to))?;
    }
    Ok((stops, stations))
}

impl Lookup {
    /// Makes the lookup of a feed. Memory may run out.
    pub fn new(alloc: Global, feed: &Feed) -> Result<Lookup, AllocError>
        ensures lookup { IfOk result (λ l. IsLookup feed.now.stops.items l.transfers.items l) }
        ensures counting { IfOk result (λ l. KeepsWhatCounts feed.now.transfers.items l.transfers.items) }
    {
        let transfers = rows_that_count(alloc, &feed.transfers)?;
        let bans = bans_of(alloc, &transfers)?;
        let children = Groups::new(alloc, &stations(alloc, &feed.stops)?)?;
        let (stops, stations) = ends_named(alloc, &transfers)?;
        let into_stops = Groups::new(alloc, &stops)?;
        let into_stations = Groups::new(alloc, &stations)?;
        Ok(Lookup {
            transfers,
            bans,
            children,
            into_stops,
            into_stations,
        })
    }

    /// Returns the stops of a station.
    pub fn children_of(&self, station: u32) -> &[u32]
        ensures { (all : List TheStop) (rows : List TheTransfer) → IsLookup all rows self.now
            → AreChildren all station result.now }
    {
        self.children.group(station)
    }

    /// Returns the stops that an end of a transfer stands for.
    pub fn stood_for<'a>(&'a self, transfer_end: &'a TransferEnd) -> &'a [u32]
        ensures { (all : List TheStop) (rows : List TheTransfer) → IsLookup all rows self.now
            → AreStoodFor all transfer_end.now result.now }
    {
        match transfer_end {
            TransferEnd::Stop(stop) => slice::from_ref(stop),
            TransferEnd::Station(station) => self.children_of(*station),
        }
    }
}

impl<'a> FeedLookup<'a> {
    /// Returns the station of a stop, if it has one.
    pub fn station_of(&self, stop: u32) -> Option<u32>
        ensures { result ≡ station_of (stops_in self.now) stop }
    {
        match self.feed.stops.get(stop as usize) {
            Some(stop) => stop.station,
            None => None,
        }
    }

    // Returns the station that an end of a transfer is, or the station of the stop that it is.
    fn station_at(&self, transfer_end: &TransferEnd) -> Option<u32>
        ensures { result ≡ station_at (stops_in self.now) transfer_end.now }
    {
        match transfer_end {
            TransferEnd::Stop(stop) => self.station_of(*stop),
            TransferEnd::Station(station) => Some(*station),
        }
    }

    /// Returns whether an end of a transfer stands for a stop.
    pub fn stands_for(&self, transfer_end: &TransferEnd, stop: u32) -> bool
        ensures { result ≡ stands_for (stops_in self.now) transfer_end.now stop }
    {
        match transfer_end {
            TransferEnd::Stop(named) => *named == stop,
            TransferEnd::Station(station) => is_station(self.station_of(stop), *station),
        }
    }

    /// Returns whether both stations are there and a transfer says that none is possible between them.
    pub fn is_void(&self, from: Option<u32>, to: Option<u32>) -> bool
        requires { IsKnown self.now }
        ensures void { result ≡ true → IsVoid (transfers_in self.now) from to }
        ensures fine { result ≡ false → ¬ IsVoid (transfers_in self.now) from to }
    {
        match (from, to) {
            (Some(from), Some(to)) => is_ban(&self.lookup.bans, from, to),
            (Some(_), None) => false,
            (None, _) => false,
        }
    }

    /// Returns whether a transfer says nothing about the ways into a stop, except perhaps about its loop: it doesn't
    /// name both stops itself, and no transfer is possible between its stations.
    pub fn is_banned_row(&self, row: &Transfer, to: u32) -> bool
        requires { IsKnown self.now }
        ensures banned { result ≡ true → IsBannedRow (stops_in self.now) (transfers_in self.now) row.now to }
        ensures unbanned { result ≡ false → ¬ IsBannedRow (stops_in self.now) (transfers_in self.now) row.now to }
    {
        match source_of(row) {
            Source::Stops => false,
            Source::Station => self.is_void(self.station_at(&row.from), self.station_of(to)),
            Source::Default => self.is_void(self.station_at(&row.from), self.station_of(to)),
        }
    }
}

// Returns whether the station is there and is `wanted`.
fn is_station(station: Option<u32>, wanted: u32) -> bool
    ensures { result ≡ is_station station wanted }
{
    match station {
        Some(station) => station == wanted,
        None => false,
    }
}

// Returns the greater of `end` and the number after the stop, if the end of the transfer is a stop.
fn end_with(end: usize, transfer_end: &TransferEnd) -> usize
    ensures more { end ≤ result }
    ensures below { NamesBelow result transfer_end.now }
    ensures small { end ≤ 2 ^ 32 → result ≤ 2 ^ 32 }
{
    match transfer_end {
        TransferEnd::Stop(stop) => end.max(*stop as usize + 1),
        TransferEnd::Station(_) => end,
    }
}

/// Returns a number above those of all stops that a feed has or that its transfers name.
pub(crate) fn end_of_stops(feed: &Feed) -> usize
    requires { length feed.now.stops.items < 2 ^ 32 }
    ensures below { EndsBelow feed.now result }
    ensures small { result ≤ 2 ^ 32 }
{
    let mut end = feed.stops.len();
    for row in &feed.transfers {
        end = end_with(end, &row.from);
        end = end_with(end, &row.to);
    }
    end
}
