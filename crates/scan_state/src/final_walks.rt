//! The footpaths to a query's targets.

ghost use Rattle.std.specs.Prelude.{◌≡◌, ◌+◌, ◌<◌, ℕ, IfOk, Contains, MatchBool, None, length, map, slice_index_or};
ghost use Rattle.criteria.specs.Laws.{IsSecs};
ghost use Rattle.scan_state.specs.ScanState.{AreFinalWalks, final_walk_in, final_walks_of};
ghost use Rattle.scan_state.specs.FinalWalkEntries.{is_walk};
ghost use Rattle.scan_state.specs.Nearest.{AreNearest, IsDoneTo, Replaces, TakesWalk, shorter_of};

use crate::final_walk_table::FinalWalks;
use fronts::copies;
use sources::ConnSource;
use std::alloc::{AllocError, Global};
use timetable::Footpath;
use timetable::limits::MAX_WALK_SECS;

/// The footpath from a stop to a target: where it leads, and its seconds.
#[derive(Clone, Copy, Drop)]
pub struct FinalWalk {
    pub to: u32,
    pub secs: u32,
}

// No footpath takes as long.
const NO_WALK: FinalWalk = FinalWalk {
    to: 0,
    secs: u32::MAX,
};

impl FinalWalks {
    ghost use Rattle.scan_state.specs.ScanState.{walk_by};
    ghost use Rattle.scan_state.specs.Nearest.{IsShortestWalk};

    /// What is kept for a stop. `final_walk_of` says which footpath it is, if any.
    #[inline(always)]
    pub fn entry_of(&self, stop: u32) -> FinalWalk
        requires { stop < length (final_walks_of self.now) }
        ensures { final_walk_in result ≡ slice_index_or (final_walks_of self.now) stop None }
    {
        if !self.ends[stop as usize] {
            return NO_WALK;
        }
        self.entries[stop as usize]
    }

    /// The footpath from a stop to the nearest target, if there is one.
    pub fn final_walk_from(&self, stop: u32) -> Option<FinalWalk>
        requires { stop < length (final_walks_of self.now) }
        ensures { result ≡ slice_index_or (final_walks_of self.now) stop None }
    {
        final_walk_of(self.entry_of(stop))
    }

    /// The same as a footpath.
    pub fn walk_from(&self, stop: u32) -> Option<Footpath>
        requires { stop < length (final_walks_of self.now) }
        ensures { result ≡ walk_by stop (slice_index_or (final_walks_of self.now) stop None) }
    {
        let way = self.final_walk_from(stop)?;
        Some(Footpath {
            from: stop,
            to: way.to,
            secs: way.secs,
        })
    }

    /// Of the ways from these stops the shortest, and of equally short ones that of the first stop; `None` if no stop
    /// has one. It is called for sources, none of which is a target.
    pub fn direct_walk(&self, sources: &[u32]) -> Option<Footpath>
        requires { (stop : ℕ) → Contains sources.now stop → stop < length (final_walks_of self.now) }
        ensures { IsShortestWalk (final_walks_of self.now) sources.now (length sources.now) result }
    {
        let mut best = None;
        for k in 0..sources.len() {
            let stop = sources[k];
            let way = self.final_walk_from(stop);
            best = shorter(best, stop, way);
        }
        best
    }
}

// The footpath `best`, or, if it is shorter, the way from a stop.
fn shorter(best: Option<Footpath>, stop: u32, way: Option<FinalWalk>) -> Option<Footpath>
    ensures { result ≡ shorter_of best stop way }
{
    let Some(way) = way else {
        return best;
    };
    let walk = Footpath {
        from: stop,
        to: way.to,
        secs: way.secs,
    };
    match best {
        None => Some(walk),
        Some(first) => if walk.secs < first.secs {
            Some(walk)
        } else {
            Some(first)
        },
    }
}

/// What an entry says: a way, or that there is none, if it is longer than a footpath can be.
#[inline(always)]
pub fn final_walk_of(entry: FinalWalk) -> Option<FinalWalk>
    ensures { result ≡ final_walk_in entry }
{
    if entry.secs <= MAX_WALK_SECS {
        return Some(entry);
    }
    None
}

// Whether a footpath takes the place of the way from the stop where it begins: always, if there is none yet or the
// footpath is a loop; otherwise if it is shorter, unless the old way is the loop.
fn replaces(old: Option<FinalWalk>, walk: &Footpath) -> bool
    ensures { MatchBool result (Replaces old walk.now) (Replaces old walk.now → ⊥) }
{
    match old {
        None => true,
        Some(way) => walk.to == walk.from || (way.to != walk.from && walk.secs < way.secs),
    }
}

// Takes a footpath to a target in.
fn take_walk(entries: &mut Vec<FinalWalk>, walk: &Footpath)
    requires from { walk.now.from < length entries.old.items }
    requires secs { IsSecs walk.now.secs }
    ensures { TakesWalk walk.now (map final_walk_in entries.old.items) (map final_walk_in entries.new.items) }
{
    let from = walk.from as usize;
    let entry = entries[from];
    let old = final_walk_of(entry);
    if !replaces(old, walk) {
        return;
    }
    entries[from] = FinalWalk {
        to: walk.to,
        secs: walk.secs,
    };
}

// Takes in the footpaths to the target at index `k`, after those to the targets before it.
fn take_target<S: ConnSource>(source: &S, targets: &[u32], k: usize, entries: &mut Vec<FinalWalk>)
    requires k { k < length targets.now }
    requires targets { (stop : ℕ) → Contains targets.now stop → stop < (S.timetable source.now).stops }
    requires before { AreNearest (S.timetable source.now) (IsDoneTo (S.timetable source.now) targets.now k)
        (map final_walk_in entries.old.items) }
    ensures { AreNearest (S.timetable source.now) (IsDoneTo (S.timetable source.now) targets.now (k + 1))
        (map final_walk_in entries.new.items) }
{
    let target = targets[k];
    let (begin, end) = source.walks_into(target as usize);
    for walk_index in begin..end {
        let walk = source.footpath_into(target as usize, walk_index);
        take_walk(entries, &walk);
    }
}

// Whether each entry is a footpath.
fn which_are_walks(alloc: Global, entries: &[FinalWalk]) -> Result<Vec<bool>, AllocError>
    ensures { IfOk result (λ ends. ends.items ≡ map is_walk entries.now) }
{
    let mut ends = Vec::with_capacity(alloc, entries.len())?;
    for k in 0..entries.len() {
        ends.push(entries[k].secs <= MAX_WALK_SECS)?;
    }
    Ok(ends)
}

/// Finds for each stop the footpath from it to the nearest target, if there is one.
pub fn final_walks_to<S: ConnSource>(
    alloc: Global,
    source: &S,
    targets: &[u32],
) -> Result<FinalWalks, AllocError>
    requires { (stop : ℕ) → Contains targets.now stop → stop < (S.timetable source.now).stops }
    ensures { IfOk result (λ final_walks. AreFinalWalks (S.timetable source.now) targets.now
        (final_walks_of final_walks)) }
{
    let mut entries = copies(alloc, NO_WALK, source.stops() as usize)?;
    for k in 0..targets.len() {
        take_target(source, targets, k, &mut entries);
    }
    let ends = which_are_walks(alloc, &entries)?;
    Ok(FinalWalks { entries, ends })
}
