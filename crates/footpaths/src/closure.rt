//! The closure of listed footpaths: a footpath for each ordered pair of stops that a walk over listed
//! ones joins, with the least time of such a walk.

ghost use Rattle.std.specs.Prelude.{◌≡◌, ◌<◌, ◌≤◌, ◌+◌, ◌^◌, [], ◌∷◌, ◌++◌, ℕ, length, true, false, None, All};
ghost use Rattle.std.specs.Prelude.{Contains, IfOk, IfErr, OnOk, slice_set};
ghost use Rattle.std.specs.List.Sorted.{IsNonDecreasing};
ghost use Rattle.footpaths.specs.Closure.{IsClosure, IsFault, AreInRange, HasLoops, HasLegalFootpaths};
ghost use Rattle.footpaths.specs.Collected.{IsClosedInto, taken, IsTakeFault, IsAddFault, IsCountFault};
ghost use Rattle.footpaths.specs.Search.{time_at, AreReached, AreCappedLeast};

use crate::fault::FootFault;
use crate::index::Index;
use crate::search::Search;
use std::alloc::Global;
use timetable::Footpath;
use timetable::limits::{MAX_FOOTPATHS, MAX_WALK_SECS};

// Moves a stop's time, if it has one, from the table into the closure, as a footpath into the target.
fn take_time(
    times: &mut [Option<u32>],
    stop: u32,
    target: u32,
    closed: &mut Vec<Footpath>,
    most: usize,
) -> Result<(), FootFault>
    requires { stop < length times.old }
    ensures times { times.new ≡ slice_set times.old stop None }
    ensures closed { OnOk result (closed.new.items ≡ closed.old.items ++ taken (time_at times.old stop) stop target) }
    ensures few { length closed.old.items ≤ most → OnOk result (length closed.new.items ≤ most) }
    ensures fault { IfErr result (IsTakeFault (time_at times.old stop) (length closed.old.items) most) }
{
    match times[stop as usize].take() {
        Some(secs) => add(
            closed,
            Footpath {
                from: stop,
                to: target,
                secs,
            },
            most,
        ),
        None => Ok(()),
    }
}

// Adds a footpath, unless there are `most` already.
fn add(closed: &mut Vec<Footpath>, path: Footpath, most: usize) -> Result<(), FootFault>
    ensures closed { OnOk result (closed.new.items ≡ closed.old.items ++ path ∷ []) }
    ensures few { OnOk result (length closed.new.items ≤ most) }
    ensures fault { IfErr result (IsAddFault (length closed.old.items) most) }
{
    if closed.len() >= most {
        return Err(FootFault::TooManyFootpaths);
    }
    match closed.push(path) {
        Ok(()) => Ok(()),
        Err(_) => Err(FootFault::OutOfMemory),
    }
}

// Moves the times of the stops reached from the table into the closure, as footpaths into the target.
fn collect(
    times: &mut [Option<u32>],
    reached: &[u32],
    target: u32,
    closed: &mut Vec<Footpath>,
    most: usize,
) -> Result<(), FootFault>
    requires reached { AreReached times.old reached.now }
    requires sorted { IsNonDecreasing reached.now }
    ensures cleared { OnOk result ((stop : ℕ) → time_at times.new stop ≡ None) }
    ensures closed { (listed : _) (cap : ℕ) → IsClosedInto listed cap target closed.old.items
        → AreCappedLeast listed cap target times.old
        → OnOk result (IsClosedInto listed cap (target + 1) closed.new.items) }
    ensures few { length closed.old.items ≤ most → OnOk result (length closed.new.items ≤ most) }
    ensures fault { (listed : _) (cap : ℕ) → IsClosedInto listed cap target closed.old.items
        → AreCappedLeast listed cap target times.old
        → IfErr result (IsCountFault listed most) }
{
    for stop in reached {
        take_time(times, *stop, target, closed, most)?;
    }
    Ok(())
}

// The closure, with greater times cut to `cap`.
fn close_to(
    alloc: Global,
    stops: u32,
    listed: &[Footpath],
    most: usize,
    cap: u32,
) -> Result<Vec<Footpath>, FootFault>
    requires { AreInRange listed.now stops }
    ensures closed { IfOk result (λ v. IsClosedInto listed.now cap stops v.items) }
    ensures few { IfOk result (λ v. length v.items ≤ most) }
    ensures fault { IfErr result (IsCountFault listed.now most) }
{
    let index = Index::new(alloc, stops, listed)?;
    let mut search = Search::new(alloc, stops)?;
    let mut closed = Vec::with_capacity(alloc, listed.len().min(most))?;
    for target in 0..stops {
        search.fill(&index, target, cap)?;
        collect(
            &mut search.times,
            &search.reached,
            target,
            &mut closed,
            most,
        )?;
        search.reached.clear();
    }
    Ok(closed)
}

// Whether some footpath takes longer than `longest` seconds.
fn has_longer(closed: &[Footpath], longest: u32) -> bool
    ensures longer { result ≡ true → (f : _) × Contains closed.now f × (longest < f.secs) }
    ensures short { result ≡ false → All (λ f. f.secs ≤ longest) closed.now }
{
    for path in closed {
        if path.secs > longest {
            return true;
        }
    }
    false
}

/// The closure of listed footpaths, as [`close`] gives it, with other limits: at most `most`
/// footpaths, none of which takes longer than `longest` seconds.
///
/// # Errors
///
/// `TooManyFootpaths` if the closure has more, else `WalkTooLong` if one of them takes longer;
/// `OutOfMemory`.
pub fn close_within(
    alloc: Global,
    stops: u32,
    listed: &[Footpath],
    most: usize,
    longest: u32,
) -> Result<Vec<Footpath>, FootFault>
    requires in_range { AreInRange listed.now stops }
    requires room { longest + 1 < 2 ^ 32 }
    ensures closure { IfOk result (λ v. IsClosure listed.now v.items) }
    ensures few { IfOk result (λ v. length v.items ≤ most) }
    ensures short { IfOk result (λ v. All (λ f. f.secs ≤ longest) v.items) }
    ensures fault { IfErr result (IsFault listed.now most longest) }
{
    let closed = close_to(alloc, stops, listed, most, longest + 1)?;
    if has_longer(&closed, longest) {
        return Err(FootFault::WalkTooLong);
    }
    Ok(closed)
}

/// The closure of listed footpaths: one footpath for each ordered pair of stops that a non-empty
/// walk over them joins, with the least time in seconds of such a walk, in the order of the stop
/// that it leads into, then of the stop that it leaves. A legal timetable asks for closed
/// footpaths, as the Connection Scan Algorithm does (Dibbelt, Pajor, Strasser, Wagner, ACM JEA
/// 2018). A loop is a footpath like any other here: a way there and back may undercut it. Each of
/// the `stops` stops has a listed loop.
///
/// # Errors
///
/// `TooManyFootpaths` if the closure has more than `MAX_FOOTPATHS` footpaths, else `WalkTooLong` if
/// one of them takes more than `MAX_WALK_SECS`; `OutOfMemory`.
pub fn close(alloc: Global, stops: u32, listed: &[Footpath]) -> Result<Vec<Footpath>, FootFault>
    requires in_range { AreInRange listed.now stops }
    requires loops { HasLoops listed.now stops }
    ensures closure { IfOk result (λ v. IsClosure listed.now v.items) }
    ensures legal { IfOk result (λ v. HasLegalFootpaths stops v.items) }
    ensures stays { HasLegalFootpaths stops listed.now → IfOk result (λ v. v.items ≡ listed.now) }
    ensures few { IfOk result (λ v. length v.items ≤ MAX_FOOTPATHS) }
    ensures short { IfOk result (λ v. All (λ f. f.secs ≤ MAX_WALK_SECS) v.items) }
    ensures fault { IfErr result (IsFault listed.now MAX_FOOTPATHS MAX_WALK_SECS) }
{
    close_within(alloc, stops, listed, MAX_FOOTPATHS as usize, MAX_WALK_SECS)
}
