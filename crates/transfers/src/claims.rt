//! Claims: what a feed says about footpaths between pairs of stops, and what in the feed says it.

ghost use Rattle.std.specs.Prelude.{◌≡◌, OnOk};
ghost use Rattle.transfers.specs.Bans.{Unbanned, IsOwnInto};
ghost use Rattle.transfers.specs.declared.claims.Claim.{Claim};
ghost use Rattle.transfers.specs.Listed.{source_of, given_or, verdict_of};
ghost use Rattle.transfers.specs.Claims.{Adds, ForOneOf, IsPairClaim, IsRowInto, IsNumberedClaim, IsSiblingPair};
ghost use Rattle.transfers.specs.Claims.{IsSiblingInto};
ghost use Rattle.transfers.specs.Claims.{IsStationClaim, IsLoopOf, IsStopClaim, IsClaimInto};
ghost use Rattle.transfers.specs.Lookup.{IsKnown, stops_in, transfers_in};

use crate::lookup::FeedLookup;
use gtfs_tables::{Transfer, TransferEnd, TransferKind};
use std::alloc::AllocError;

/// The time of a transfer that gives none, in seconds.
pub const USUAL_SECS: u32 = 120;

/// The longest time of a transfer, in seconds. A longer one counts as this.
pub const MAX_SECS: u32 = 86_400;

/// What in the feed makes a claim. If several sources make claims about an ordered pair of stops, the first of them
/// in this order counts.
#[derive(Clone, Copy, Debug, PartialEq, Eq, PartialOrd, Ord)]
pub enum Source {
    /// A transfer that names both stops themselves.
    Stops,
    /// A transfer that names a station.
    Station,
    /// The default, if no transfer counts.
    Default,
}

/// What a claim says about an ordered pair of stops. If one source makes several claims, the least in this order
/// counts.
#[derive(Clone, Copy, Debug, PartialEq, Eq, PartialOrd, Ord)]
pub enum Verdict {
    /// There is no direct footpath.
    Never,
    /// There is a footpath that takes so many seconds.
    Takes(u32),
}

/// A claim about an ordered pair of stops. Claims are ordered by the stop that the way leads to, the stop that it
/// leaves, the source and the verdict, so the claim that counts for a pair comes first.
#[derive(Clone, Copy, Debug, PartialEq, Eq, PartialOrd, Ord)]
pub struct Claim {
    pub to: u32,
    pub from: u32,
    pub source: Source,
    pub verdict: Verdict,
}

/// The claims made so far.
#[derive(Drop)]
pub(crate) struct Claims {
    pub made: Vec<Claim>,
}

// Returns whether a transfer names both stops themselves, or a station.
pub(crate) fn source_of(row: &Transfer) -> Source
    ensures { result ≡ source_of row.now }
{
    match (row.from, row.to) {
        (TransferEnd::Stop(_), TransferEnd::Stop(_)) => Source::Stops,
        _ => Source::Station,
    }
}

// Returns the given time, at most a day, or `secs` if none is given, in seconds.
fn given_or(given: Option<u32>, secs: u32) -> u32
    ensures { result ≡ given_or given secs }
{
    match given {
        Some(given) => given.min(MAX_SECS),
        None => secs,
    }
}

// Returns what a transfer says about a pair of stops that its ends stand for, if anything.
pub(crate) fn verdict_of(row: &Transfer, is_loop: bool) -> Option<Verdict>
    ensures { result ≡ verdict_of row.now is_loop }
{
    match row.kind {
        TransferKind::Recommended => {
            let usual = if is_loop { 0 } else { USUAL_SECS };
            Some(Verdict::Takes(given_or(row.seconds, usual)))
        }
        TransferKind::Timed => Some(Verdict::Takes(given_or(row.seconds, 0))),
        TransferKind::Minimum => Some(Verdict::Takes(given_or(row.seconds, USUAL_SECS))),
        TransferKind::Impossible => { if is_loop { None } else { Some(Verdict::Never) } }
        TransferKind::Skipped => None,
    }
}

// Adds the claim of a transfer about a pair of stops, if it makes one.
fn claim_pair(claims: &mut Vec<Claim>, row: &Transfer, from: u32, to: u32) -> Result<(), AllocError>
    ensures { OnOk result (Adds claims.old.items claims.new.items (IsPairClaim row.now from to)) }
{
    if let Some(verdict) = verdict_of(row, from == to) {
        let source = source_of(row);
        claims.push(Claim {
            to,
            from,
            source,
            verdict,
        })?;
    }
    Ok(())
}

// Adds the claims of a transfer about the ways into a stop.
fn claim_into(
    claims: &mut Vec<Claim>,
    row: &Transfer,
    froms: &[u32],
    to: u32,
) -> Result<(), AllocError>
    ensures { OnOk result (Adds claims.old.items claims.new.items
        (ForOneOf froms.now (λ from. IsPairClaim row.now from to))) }
{
    for from in froms {
        claim_pair(claims, row, *from, to)?;
    }
    Ok(())
}

// Adds the default claim about the way from one stop to another of the same station.
fn claim_sibling(claims: &mut Vec<Claim>, from: u32, to: u32) -> Result<(), AllocError>
    ensures { OnOk result (Adds claims.old.items claims.new.items (IsSiblingPair from to)) }
{
    if from != to {
        claims.push(Claim {
            to,
            from,
            source: Source::Default,
            verdict: Verdict::Takes(USUAL_SECS),
        })?;
    }
    Ok(())
}

// Adds the default claims about the ways to a stop from the other stops of its station.
fn claim_siblings_of(claims: &mut Vec<Claim>, children: &[u32], to: u32) -> Result<(), AllocError>
    ensures { OnOk result (Adds claims.old.items claims.new.items
        (ForOneOf children.now (λ from. IsSiblingPair from to))) }
{
    for from in children {
        claim_sibling(claims, *from, to)?;
    }
    Ok(())
}

impl Claims {
    // Adds the claim of a transfer about a stop's loop, if the transfer begins at the stop or its station.
    fn add_own(&mut self, known: &FeedLookup, row: &Transfer, to: u32) -> Result<(), AllocError>
        requires { IsKnown known.now }
        ensures { OnOk result (Adds self.old.made.items self.new.made.items
            (IsOwnInto (stops_in known.now) to row.now)) }
    {
        if known.stands_for(&row.from, to) {
            claim_pair(&mut self.made, row, to, to)
        } else {
            Ok(())
        }
    }

    // Adds the claims of a transfer about the ways into a stop, except those that don't count.
    fn add_claims_of(
        &mut self,
        known: &FeedLookup,
        row: &Transfer,
        to: u32,
    ) -> Result<(), AllocError>
        requires { IsKnown known.now }
        ensures { OnOk result (Adds self.old.made.items self.new.made.items
            (Unbanned (stops_in known.now) (transfers_in known.now) (IsRowInto (stops_in known.now) to row.now))) }
    {
        if known.is_banned_row(row, to) {
            self.add_own(known, row, to)
        } else {
            claim_into(&mut self.made, row, known.lookup.stood_for(&row.from), to)
        }
    }

    // Adds the claims of the transfer with this number about the ways into a stop.
    fn add_row(&mut self, known: &FeedLookup, number: u32, to: u32) -> Result<(), AllocError>
        requires { IsKnown known.now }
        ensures { OnOk result (Adds self.old.made.items self.new.made.items
            (Unbanned (stops_in known.now) (transfers_in known.now)
            (IsNumberedClaim (stops_in known.now) (transfers_in known.now) to number))) }
    {
        match known.lookup.transfers.get(number as usize) {
            Some(row) => self.add_claims_of(known, row, to),
            None => Ok(()),
        }
    }

    // Adds the claims of the transfers with these numbers about the ways into a stop.
    fn add_rows(&mut self, known: &FeedLookup, numbers: &[u32], to: u32) -> Result<(), AllocError>
        requires { IsKnown known.now }
        ensures { OnOk result (Adds self.old.made.items self.new.made.items
            (Unbanned (stops_in known.now) (transfers_in known.now)
            (ForOneOf numbers.now (IsNumberedClaim (stops_in known.now) (transfers_in known.now) to)))) }
    {
        for number in numbers {
            self.add_row(known, *number, to)?;
        }
        Ok(())
    }

    // Adds the default claims about the ways to a stop from the other stops of its station, unless there is a ban.
    fn add_siblings(&mut self, known: &FeedLookup, station: u32, to: u32) -> Result<(), AllocError>
        requires { IsKnown known.now }
        ensures { OnOk result (Adds self.old.made.items self.new.made.items
            (Unbanned (stops_in known.now) (transfers_in known.now) (IsSiblingInto (stops_in known.now) station to))) }
    {
        if known.is_void(Some(station), known.station_of(to)) {
            Ok(())
        } else {
            claim_siblings_of(&mut self.made, known.lookup.children_of(station), to)
        }
    }

    // Adds the claims about the ways into a stop that it has as a stop of a station.
    fn add_station(&mut self, known: &FeedLookup, station: u32, to: u32) -> Result<(), AllocError>
        requires { IsKnown known.now }
        ensures { OnOk result (Adds self.old.made.items self.new.made.items
            (Unbanned (stops_in known.now) (transfers_in known.now)
            (IsStationClaim (stops_in known.now) (transfers_in known.now) station to))) }
    {
        self.add_rows(known, known.lookup.into_stations.group(station), to)?;
        self.add_siblings(known, station, to)
    }

    // Adds the default claim about the loop of a stop.
    fn add_loop(&mut self, stop: u32) -> Result<(), AllocError>
        ensures { OnOk result (Adds self.old.made.items self.new.made.items (IsLoopOf stop)) }
    {
        self.made.push(Claim {
            to: stop,
            from: stop,
            source: Source::Default,
            verdict: Verdict::Takes(0),
        })?;
        Ok(())
    }

    // Adds the claims about the ways into a stop of the feed, except those of transfers that lead to the stop itself.
    fn add_stop(
        &mut self,
        known: &FeedLookup,
        station: Option<u32>,
        to: u32,
    ) -> Result<(), AllocError>
        requires { IsKnown known.now }
        ensures { OnOk result (Adds self.old.made.items self.new.made.items
            (Unbanned (stops_in known.now) (transfers_in known.now)
            (IsStopClaim (stops_in known.now) (transfers_in known.now) station to))) }
    {
        match station {
            Some(station) => {
                self.add_station(known, station, to)?;
                self.add_loop(to)
            }
            None => self.add_loop(to),
        }
    }

    /// Adds all claims about the ways into a stop, except those that don't count because no transfer is possible
    /// between the stations.
    pub fn add_ways(&mut self, known: &FeedLookup, to: u32) -> Result<(), AllocError>
        requires { IsKnown known.now }
        ensures { OnOk result (Adds self.old.made.items self.new.made.items
            (Unbanned (stops_in known.now) (transfers_in known.now)
            (IsClaimInto (stops_in known.now) (transfers_in known.now) to))) }
    {
        self.add_rows(known, known.lookup.into_stops.group(to), to)?;
        match known.feed.stops.get(to as usize) {
            Some(stop) => self.add_stop(known, stop.station, to),
            None => Ok(()),
        }
    }
}
