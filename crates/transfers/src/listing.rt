//! Lists the footpaths of a feed: for each pair of stops the time of the claim that counts, in the order of
//! a timetable.

ghost use Rattle.std.specs.Prelude.{◌≡◌, ◌<◌, ◌≤◌, ◌++◌, ◌+◌, ◌^◌, length, IfOk, IfErr, OnOk, true, false};
ghost use Rattle.timetable.specs.Legal.{AreInOrder};
ghost use Rattle.transfers.specs.Listed.{AreAllListed, AreListed, LeadBelow, ListsMore, ListsMoreBelow};
ghost use Rattle.transfers.specs.Claims.{AreSorted, IsFirstAt, ArePathsBelow, path_of};
ghost use Rattle.transfers.specs.Lookup.{HasWhatCounts, IsKnown};
ghost use Rattle.transfers.specs.declared.fault.ListingFault.TheVariants.{TooMany};

use crate::claims::{Claim, Claims, Verdict};
use crate::fault::ListingFault;
use crate::lookup::{FeedLookup, Lookup, end_of_stops};
use gtfs_tables::Feed;
use std::alloc::{AllocError, Global};
use timetable::Footpath;

// Returns whether the claim at an index is the first about its pair of stops.
fn is_first(claims: &[Claim], index: usize) -> bool
    requires { index < length claims.now }
    ensures first { result ≡ true → IsFirstAt claims.now index }
    ensures later { result ≡ false → ¬ IsFirstAt claims.now index }
{
    if index == 0 {
        return true;
    }
    let before = &claims[index - 1];
    let claim = &claims[index];
    before.to != claim.to || before.from != claim.from
}

// Adds the footpath of a claim, if the claim gives one.
fn add_path(paths: &mut Vec<Footpath>, claim: &Claim) -> Result<(), AllocError>
    ensures { OnOk result (paths.new.items ≡ paths.old.items ++ path_of claim.now.from claim.now.to claim.now.verdict) }
{
    if let Verdict::Takes(secs) = claim.verdict {
        paths.push(Footpath {
            from: claim.from,
            to: claim.to,
            secs,
        })?;
    }
    Ok(())
}

// Adds the footpath of the claim at an index, if the claim is the first about its pair and gives a footpath.
fn add_first(paths: &mut Vec<Footpath>, claims: &[Claim], index: usize) -> Result<(), AllocError>
    requires { index < length claims.now }
    ensures paths { ArePathsBelow claims.now index paths.old.items
        → OnOk result (ArePathsBelow claims.now (index + 1) paths.new.items) }
    ensures order { AreSorted claims.now → ArePathsBelow claims.now index paths.old.items → AreInOrder paths.old.items
        → OnOk result (AreInOrder paths.new.items) }
{
    if is_first(claims, index) {
        add_path(paths, &claims[index])?;
    }
    Ok(())
}

// Returns the footpaths of the first claims about each pair of stops.
fn paths_of(alloc: Global, claims: &[Claim]) -> Result<Vec<Footpath>, AllocError>
    requires { AreSorted claims.now }
    ensures paths { IfOk result (λ v. ArePathsBelow claims.now (length claims.now) v.items) }
    ensures order { IfOk result (λ v. AreInOrder v.items) }
{
    let mut paths = Vec::new(alloc);
    for index in 0..claims.len() {
        add_first(&mut paths, claims, index)?;
    }
    Ok(paths)
}

// Adds the footpaths into a stop, after those into the stops before it.
fn add_ways(
    alloc: Global,
    paths: &mut Vec<Footpath>,
    known: &FeedLookup,
    to: u32,
) -> Result<(), AllocError>
    requires lookup { IsKnown known.now }
    requires counting { HasWhatCounts known.now }
    ensures { AreListed known.now.feed.now (LeadBelow to) paths.old.items
        → OnOk result (AreListed known.now.feed.now (LeadBelow (to + 1)) paths.new.items) }
{
    let mut claims = Claims {
        made: Vec::new(alloc),
    };
    claims.add_ways(known, to)?;
    claims.made.sort()?;
    let ways = paths_of(alloc, &claims.made)?;
    paths.extend_from_slice(&ways)
}

// Adds the footpaths into a stop: `TooMany` if there are more than `most` footpaths then.
fn add_within(
    alloc: Global,
    paths: &mut Vec<Footpath>,
    known: &FeedLookup,
    to: u32,
    most: usize,
) -> Result<(), ListingFault>
    requires lookup { IsKnown known.now }
    requires counting { HasWhatCounts known.now }
    requires before { AreListed known.now.feed.now (LeadBelow to) paths.old.items }
    ensures listed { OnOk result (AreListed known.now.feed.now (LeadBelow (to + 1)) paths.new.items) }
    ensures few { OnOk result (length paths.new.items ≤ most) }
    ensures many { IfErr result (λ fault. fault ≡ TooMany
        → AreListed known.now.feed.now (LeadBelow (to + 1)) paths.new.items × (most < length paths.new.items)) }
{
    add_ways(alloc, paths, known, to)?;
    if paths.len() > most {
        return Err(ListingFault::TooMany);
    }
    Ok(())
}

// Returns the footpaths into the stops below `end`, or `TooMany` if there are more than `most`.
fn paths_below(
    alloc: Global,
    known: &FeedLookup,
    end: usize,
    most: usize,
) -> Result<Vec<Footpath>, ListingFault>
    requires lookup { IsKnown known.now }
    requires counting { HasWhatCounts known.now }
    requires small { end ≤ 2 ^ 32 }
    ensures listed { IfOk result (λ v. AreListed known.now.feed.now (LeadBelow end) v.items) }
    ensures few { IfOk result (λ v. length v.items ≤ most) }
    ensures many { IfErr result (λ fault. fault ≡ TooMany → ListsMoreBelow known.now.feed.now end most) }
{
    let mut paths = Vec::new(alloc);
    for to in 0..end {
        if let Err(fault) = add_within(alloc, &mut paths, known, to as u32, most) {
            return Err(fault);
        }
    }
    Ok(paths)
}

/// Returns the footpaths that a feed lists by the GTFS Schedule Reference, with their times in seconds: ordered by
/// the stop that they lead to, then by the stop that they leave.
///
/// A transfer that names a station stands for each stop of it. For an ordered pair of stops the transfers that
/// name both stops themselves count, if there are any, or else those that name a station. If one of them says that
/// no transfer is possible, there is no footpath; otherwise the footpath takes the least of their times. If no
/// transfer counts, two stops of one station are 120 seconds apart, and a stop's loop takes no time.
///
/// A transfer takes its min_transfer_time, but at most a day. If none is given, a timed transfer takes no time, nor
/// does a recommended one from a stop to itself; any other takes 120 seconds. A transfer that says that none is
/// possible is ignored for a stop's loop, and skipped transfers are ignored.
///
/// The footpaths join stops of the feed, and each stop has a loop.
///
/// # Errors
///
/// `TooMany` if the feed lists more than `most` footpaths. It is returned as soon as more are found, stop by stop,
/// so memory never holds more than `most` and the footpaths into one stop. `OutOfMemory` if memory ran out, or if
/// the feed has more stops than a `u32` can number.
pub fn listed_within(alloc: Global, feed: &Feed, most: usize) -> Result<Vec<Footpath>, ListingFault>
    ensures all { IfOk result (λ v. AreAllListed feed.now v.items) }
    ensures few { IfOk result (λ v. length v.items ≤ most) }
    ensures many { IfErr result (λ fault. fault ≡ TooMany → ListsMore feed.now most) }
{
    if feed.stops.len() > u32::MAX as usize {
        return Err(ListingFault::OutOfMemory);
    }
    let lookup = Lookup::new(alloc, feed)?;
    let end = end_of_stops(feed);
    let known = FeedLookup {
        feed,
        lookup: &lookup,
    };
    paths_below(alloc, &known, end, most)
}
