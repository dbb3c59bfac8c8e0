//! The least times of walks into one stop, found from that stop backwards, the nearest stop first.

ghost use Rattle.std.specs.Prelude.{◌≡◌, ◌<◌, ◌≤◌, ◌+◌, ◌*◌, true, false, ℕ, [], None, Some, is_none, Contains};
ghost use Rattle.std.specs.Prelude.{All, length, min, IfOk, OnOk, ◌⊎◌};
ghost use Rattle.std.specs.BinaryHeap.{heap_items, heap_len};
ghost use Rattle.std.specs.List.Sorted.{IsNonDecreasing};
ghost use Rattle.timetable.specs.declared.network.Footpath.{Footpath};
ghost use Rattle.footpaths.specs.Index.{IsIndex, IsOver};
ghost use Rattle.footpaths.specs.Search.{time_at, IsWithin, IsUndercut, IsBackFrom, TakesTime, AreWalked};
ghost use Rattle.footpaths.specs.Search.{AreReached, ArePendingInside, Grows, IsFollowed};
ghost use Rattle.footpaths.specs.Search.{AreFollowed, ArePendingOrFollowed, weight, AreCappedLeast};

use crate::index::Index;
use std::alloc::{AllocError, Global};
use std::cmp::Reverse;
use std::collections::BinaryHeap;
use timetable::Footpath;

/// A time that was found for a stop. In the order of this type, the greatest has the least time.
#[derive(Clone, Copy, Debug, PartialEq, Eq, PartialOrd, Ord)]
pub(crate) struct HeapEntry {
    pub secs: Reverse<u32>,
    pub stop: u32,
}

/// What is known of the walks into one stop.
#[derive(Drop)]
pub(crate) struct Search {
    /// By stop: the least time found of a walk from there. Times above a cap are cut to it.
    pub times: Vec<Option<u32>>,
    /// The stops that have a time.
    pub reached: Vec<u32>,
    /// Times that were found and not followed back yet. Those that are no longer in the table are obsolete.
    pub pending: BinaryHeap<HeapEntry>,
}

// Whether `secs` is less than the known time, or no time is known.
#[inline(always)]
fn is_lower(known: Option<u32>, secs: u32) -> bool
    ensures lower { result ≡ true → (d : ℕ) → known ≡ Some d → secs < d }
    ensures kept { result ≡ false → (d : ℕ) × (known ≡ Some d) × (d ≤ secs) }
{
    match known {
        Some(time) => secs < time,
        None => true,
    }
}

impl Search {
    /// A search in which nothing is known yet.
    pub fn new(alloc: Global, stops: u32) -> Result<Search, AllocError>
        ensures times { IfOk result (λ s. (stop : ℕ) → time_at s.times.items stop ≡ None) }
        ensures count { IfOk result (λ s. length s.times.items ≡ stops) }
        ensures reached { IfOk result (λ s. s.reached.items ≡ []) }
        ensures pending { IfOk result (λ s. heap_items s.pending ≡ []) }
    {
        Ok(Search {
            times: vec![in alloc; None; stops as usize]?,
            reached: Vec::new(alloc),
            pending: BinaryHeap::new(alloc),
        })
    }

    // Takes in that some walk from `stop` takes `secs` seconds.
    #[inline(always)]
    fn offer(&mut self, stop: u32, secs: u32) -> Result<(), AllocError>
        requires in_table { stop < length self.old.times.items }
        ensures { OnOk result (TakesTime self.old stop secs self.new) }
    {
        let known = self.times[stop as usize];
        if is_lower(known, secs) {
            self.note(stop, secs, known.is_none())?;
        }
        Ok(())
    }

    // Writes down a lower time for a stop. If the stop is new, it is also added to those reached.
    #[inline(never)]
    fn note(&mut self, stop: u32, secs: u32, is_new: bool) -> Result<(), AllocError>
        requires in_table { stop < length self.old.times.items }
        requires lower { IsUndercut self.old.times.items stop secs }
        requires new { is_new ≡ is_none (time_at self.old.times.items stop) }
        ensures { OnOk result (TakesTime self.old stop secs self.new) }
    {
        self.times[stop as usize] = Some(secs);
        self.pending.push(HeapEntry {
            secs: Reverse(secs),
            stop,
        })?;
        if is_new {
            self.reached.push(stop)?;
        }
        Ok(())
    }

    // Goes back along a footpath that leads to where a walk of `secs` seconds begins.
    #[inline(always)]
    fn step(&mut self, path: Footpath, secs: u32, cap: u32) -> Result<(), AllocError>
        requires in_table { path.from < length self.old.times.items }
        ensures grows { OnOk result (Grows self.old.times.items (heap_items self.old.pending) self.new.times.items
            (heap_items self.new.pending)) }
        ensures within { OnOk result (IsWithin self.new.times.items path.from (path.secs + secs)) }
        ensures walked { (listed : _) (target : ℕ) → IsBackFrom listed cap target path secs
            → AreWalked listed cap target self.old.times.items
            → OnOk result (AreWalked listed cap target self.new.times.items) }
        ensures reached { AreReached self.old.times.items self.old.reached.items
            → OnOk result (AreReached self.new.times.items self.new.reached.items) }
        ensures falls { OnOk result (2 * weight cap self.new.times.items + heap_len self.new.pending ≤ 2 * weight
            cap self.old.times.items + heap_len
            self.old.pending) }
    {
        self.offer(path.from, path.secs.saturating_add(secs).min(cap))
    }

    // Goes back along footpaths that lead to where a walk of `secs` seconds begins.
    fn spread(&mut self, paths: &[Footpath], secs: u32, cap: u32) -> Result<(), AllocError>
        requires in_table { All (λ f. f.from < length self.old.times.items) paths.now }
        ensures grows { OnOk result (Grows self.old.times.items (heap_items self.old.pending) self.new.times.items
            (heap_items self.new.pending)) }
        ensures within { OnOk result (All (λ f. IsWithin self.new.times.items f.from (f.secs + secs)) paths.now) }
        ensures walked { (listed : _) (target : ℕ) → All (λ f. IsBackFrom listed cap target f secs) paths.now
            → AreWalked listed cap target self.old.times.items
            → OnOk result (AreWalked listed cap target self.new.times.items) }
        ensures reached { AreReached self.old.times.items self.old.reached.items
            → OnOk result (AreReached self.new.times.items self.new.reached.items) }
        ensures falls { OnOk result (2 * weight cap self.new.times.items + heap_len self.new.pending ≤ 2 * weight
            cap self.old.times.items + heap_len
            self.old.pending) }
    {
        for path in paths {
            self.step(*path, secs, cap)?;
        }
        Ok(())
    }

    // Follows a time back, unless a lower one was found since.
    fn follow(&mut self, index: &Index, next: HeapEntry, cap: u32) -> Result<(), AllocError>
        requires over { IsOver (length self.old.times.items) index.now.first.items index.now.paths.items }
        requires in_table { next.stop < length self.old.times.items }
        ensures grows { OnOk result (Grows self.old.times.items (heap_items self.old.pending) self.new.times.items
            (heap_items self.new.pending)) }
        ensures followed { (listed : _) → IsIndex listed index.now.first.items index.now.paths.items
            → time_at self.new.times.items next.stop ≡ Some next.secs.0
            → OnOk result (IsFollowed listed self.new.times.items next.stop next.secs.0) }
        ensures walked { (listed : _) (target : ℕ) → IsIndex listed index.now.first.items index.now.paths.items
            → AreWalked listed cap target self.old.times.items
            → OnOk result (AreWalked listed cap target self.new.times.items) }
        ensures reached { AreReached self.old.times.items self.old.reached.items
            → OnOk result (AreReached self.new.times.items self.new.reached.items) }
        ensures falls { OnOk result (2 * weight cap self.new.times.items + heap_len self.new.pending ≤ 2 * weight
            cap self.old.times.items + heap_len
            self.old.pending) }
    {
        if self.times[next.stop as usize] == Some(next.secs.0) {
            self.spread(index.into(next.stop), next.secs.0, cap)?;
        }
        Ok(())
    }

    // Follows times back until none is pending.
    fn settle(&mut self, index: &Index, cap: u32) -> Result<(), AllocError>
        requires over { IsOver (length self.old.times.items) index.now.first.items index.now.paths.items }
        requires inside { ArePendingInside self.old.times.items (heap_items self.old.pending) }
        ensures count { OnOk result (length self.new.times.items ≡ length self.old.times.items) }
        ensures lower { (stop secs : ℕ) → IsWithin self.old.times.items stop secs
            → OnOk result (IsWithin self.new.times.items stop secs) }
        ensures followed { (listed : _) → IsIndex listed index.now.first.items index.now.paths.items
            → ArePendingOrFollowed listed self.old.times.items (heap_items self.old.pending)
            → OnOk result (AreFollowed listed self.new.times.items) }
        ensures walked { (listed : _) (target : ℕ) → IsIndex listed index.now.first.items index.now.paths.items
            → AreWalked listed cap target self.old.times.items
            → OnOk result (AreWalked listed cap target self.new.times.items) }
        ensures reached { AreReached self.old.times.items self.old.reached.items
            → OnOk result (AreReached self.new.times.items self.new.reached.items) }
        ensures pending { OnOk result (heap_items self.new.pending ≡ []) }
    {
        while let Some(next) = self.pending.pop() {
            self.follow(index, next, cap)?;
        }
        Ok(())
    }

    /// Finds the least time of a walk from each stop into the target, with greater times cut to
    /// `cap`, and sorts the stops reached.
    pub fn fill(&mut self, index: &Index, target: u32, cap: u32) -> Result<(), AllocError>
        requires over { IsOver (length self.old.times.items) index.now.first.items index.now.paths.items }
        requires in_table { target < length self.old.times.items }
        requires empty { (stop : ℕ) → time_at self.old.times.items stop ≡ None }
        requires nothing { self.old.reached.items ≡ [] }
        requires idle { heap_items self.old.pending ≡ [] }
        ensures count { OnOk result (length self.new.times.items ≡ length self.old.times.items) }
        ensures least { (listed : _) → IsIndex listed index.now.first.items index.now.paths.items
            → OnOk result (AreCappedLeast listed cap target self.new.times.items) }
        ensures reached { OnOk result (AreReached self.new.times.items self.new.reached.items) }
        ensures sorted { OnOk result (IsNonDecreasing self.new.reached.items) }
        ensures idle { OnOk result (heap_items self.new.pending ≡ []) }
    {
        self.spread(index.into(target), 0, cap)?;
        self.settle(index, cap)?;
        self.reached.sort_unstable();
        Ok(())
    }
}
