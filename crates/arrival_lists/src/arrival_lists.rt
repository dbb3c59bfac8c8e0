//! Lists of arrivals: the best point from a time on, and insertions.

use crate::entry::{Entry, FirstPoint, NEVER};
use fronts::{Step, append, index_of};
use std::alloc::{AllocError, Global};

// There is room from the start for an entry for each so many connections that are expected.
const ROOM_SHARE: usize = 4;

/// Lists of points by arrival alone. A list is named by its head, the index of its first entry; 0 names the empty list.
///
/// A list is never changed: an insertion makes a new one of it.
#[derive(Drop)]
pub struct ArrivalLists {
    entries: Vec<Entry>,
    // scratch memory of an insertion: entries that depart before the new point
    passed: Vec<Entry>,
}

impl ArrivalLists {
    ghost use Rattle.std.specs.Prelude.{◌≡◌, IfOk, OnOk, OnErr, MatchResult, Ok, length, slice_get};
    ghost use Rattle.criteria.specs.Laws.{IsTime};
    ghost use Rattle.arrival_lists.specs.Lists.{AreAllPassed, AreMoreLists, HasFirst, HasList, HasNoRoomLeft, HasTaken};
    ghost use Rattle.arrival_lists.specs.Lists.{IsEmptyAlone, IsFirstFrom, IsFirstOf, IsJoined, IsLate, IsPut, MayJoin};
    ghost use Rattle.arrival_lists.specs.Lists.{MayPut, Reaches, entries_of, list_points, point_before, steps_of};

    /// Makes the empty list, and no other, with room for what a scan of `expected` connections mostly adds.
    pub fn new(alloc: Global, expected: usize) -> Result<Self, AllocError>
        ensures { IfOk result IsEmptyAlone }
    {
        let mut entries = Vec::with_capacity(alloc, expected / ROOM_SHARE)?;
        let step = Step {
            first: 0,
            label: 0,
            walk: 0,
        };
        entries.push(Entry {
            departure: NEVER,
            time: NEVER,
            next: 0,
            tag: 0,
            step,
        })?;
        Ok(ArrivalLists {
            entries,
            passed: Vec::new(alloc),
        })
    }

    /// The step of a number, or `None` if there is no such step.
    pub fn step(&self, tag: usize) -> Option<Step>
        ensures { result ≡ slice_get (steps_of self.now) tag }
    {
        match self.entries.get(tag) {
            None => None,
            Some(entry) => Some(entry.step),
        }
    }

    /// Of the points of a list that depart at a time or later, the one that arrives first, as the first of the list of
    /// them all; `first` is the list's first point. Mostly that one departs late enough.
    #[inline(always)]
    pub fn best_from(&self, first: FirstPoint, time: u32) -> FirstPoint
        requires { HasFirst self.now first }
        ensures { IsFirstFrom self.now first.head time result }
    {
        if first.departure >= time {
            return first;
        }
        self.later_from(first.head, time)
    }

    // The same by the list's entries. It is rare, so it is a call and never inlined.
    #[inline(never)]
    fn later_from(&self, head: u32, time: u32) -> FirstPoint
        requires { HasList self.now head }
        ensures { IsFirstFrom self.now head time result }
    {
        let index = self.late(head, time);
        self.first_at(index)
    }

    // The index of a list's first entry that departs at a time or later.
    fn late(&self, head: u32, time: u32) -> u32
        requires { HasList self.now head }
        ensures { IsLate self.now.entries.items head time result }
    {
        let mut index = head;
        let mut entry = self.entries[index as usize];
        while entry.departure < time {
            index = entry.next;
            entry = self.entries[index as usize];
        }
        index
    }

    // The first point of the list that begins at an index.
    fn first_at(&self, index: u32) -> FirstPoint
        requires { HasList self.now index }
        ensures { IsFirstOf self.now index result }
    {
        let entry = self.entries[index as usize];
        FirstPoint {
            time: entry.time,
            departure: entry.departure,
            tag: entry.tag,
            head: index,
        }
    }

    /// Takes a point into a list, given the list's first point. Returns the first point of the list that has it. All
    /// lists stay as they were, also if memory runs out; then there is no new one. If a point of the list departs no
    /// earlier and arrives no later, nothing is added, and no memory is needed.
    #[inline(always)]
    pub fn insert(
        &mut self,
        first: FirstPoint,
        departure: u32,
        time: u32,
        step: Step,
    ) -> Result<FirstPoint, AllocError>
        requires first { HasFirst self.old first }
        requires time { IsTime time }
        ensures more { AreMoreLists self.old self.new }
        ensures taken { IfOk result (HasTaken departure time step self.old first.head self.new) }
        ensures known { Reaches (list_points self.old first.head) departure time
            → (result ≡ Ok first) × (self.new ≡ self.old) }
        ensures full { OnErr result (HasNoRoomLeft self.new) }
    {
        // In most insertions the list begins no earlier, and then no entry has to be passed.
        if first.departure < departure {
            return self.insert_behind(first, departure, time, step);
        }
        if first.time <= time {
            return Ok(first);
        }
        self.put_new(departure, time, step, first.head)
    }

    // The same where the list begins earlier. It is rare, so it is a call and never inlined.
    #[inline(never)]
    fn insert_behind(
        &mut self,
        first: FirstPoint,
        departure: u32,
        time: u32,
        step: Step,
    ) -> Result<FirstPoint, AllocError>
        requires first { HasFirst self.old first }
        requires time { IsTime time }
        ensures more { AreMoreLists self.old self.new }
        ensures taken { IfOk result (HasTaken departure time step self.old first.head self.new) }
        ensures known { Reaches (list_points self.old first.head) departure time
            → (result ≡ Ok first) × (self.new ≡ self.old) }
        ensures full { OnErr result (HasNoRoomLeft self.new) }
    {
        let after = self.late(first.head, departure);
        let next = self.entries[after as usize];
        if next.time <= time {
            return Ok(first);
        }
        self.pass(first.head, departure, time)?;
        let new = self.put_new(departure, time, step, after)?;
        self.join(new)
    }

    // Puts a point, with its step, before a list.
    #[inline(always)]
    fn put_new(
        &mut self,
        departure: u32,
        time: u32,
        step: Step,
        next: u32,
    ) -> Result<FirstPoint, AllocError>
        requires { MayPut self.old (point_before departure time step next (length (entries_of self.old))) }
        ensures passed { self.new.passed ≡ self.old.passed }
        ensures put { MatchResult result
            (IsPut self.old (point_before departure time step next (length (entries_of self.old))) self.new)
            (λ _. entries_of self.new ≡ entries_of self.old) }
        ensures full { OnErr result (HasNoRoomLeft self.new) }
    {
        let tag = index_of(self.entries.len())?;
        self.put(Entry {
            departure,
            time,
            next,
            tag,
            step,
        })
    }

    // Puts an entry before a list.
    #[inline(always)]
    fn put(&mut self, entry: Entry) -> Result<FirstPoint, AllocError>
        requires { MayPut self.old entry }
        ensures passed { self.new.passed ≡ self.old.passed }
        ensures put { MatchResult result (IsPut self.old entry self.new)
            (λ _. entries_of self.new ≡ entries_of self.old) }
        ensures full { OnErr result (HasNoRoomLeft self.new) }
    {
        let head = index_of(self.entries.len())?;
        append(&mut self.entries, entry)?;
        Ok(FirstPoint {
            time: entry.time,
            departure: entry.departure,
            tag: entry.tag,
            head,
        })
    }

    // Notes the entries of a list that depart and arrive before a point, in the list's order.
    fn pass(&mut self, head: u32, departure: u32, time: u32) -> Result<(), AllocError>
        requires { HasList self.old head }
        ensures entries { self.new.entries ≡ self.old.entries }
        ensures all { OnOk result
            (AreAllPassed self.old.entries.items head departure time self.new.passed.items) }
        ensures full { OnErr result (HasNoRoomLeft self.new) }
    {
        self.passed.clear();
        let mut index = head;
        let mut entry = self.entries[index as usize];
        while comes_before(entry, departure, time) {
            append(&mut self.passed, entry)?;
            index = entry.next;
            entry = self.entries[index as usize];
        }
        Ok(())
    }

    // Puts the entries noted before a list, the last first.
    fn join(&mut self, first: FirstPoint) -> Result<FirstPoint, AllocError>
        requires { MayJoin self.old first }
        ensures more { AreMoreLists self.old self.new }
        ensures joined { IfOk result (IsJoined self.old first.head self.new) }
        ensures full { OnErr result (HasNoRoomLeft self.new) }
    {
        let mut new = first;
        while let Some(entry) = self.passed.pop() {
            new = self.put(Entry {
                departure: entry.departure,
                time: entry.time,
                next: new.head,
                tag: entry.tag,
                step: entry.step,
            })?;
        }
        Ok(new)
    }
}

ghost use Rattle.std.specs.Prelude.{◌<◌, ◌≤◌, ◌⊎◌, MatchBool};

// Whether an entry departs and arrives before a point.
fn comes_before(entry: Entry, departure: u32, time: u32) -> bool
    ensures { MatchBool result ((entry.departure < departure) × (entry.time < time))
        ((departure ≤ entry.departure) ⊎ (time ≤ entry.time)) }
{
    if entry.departure >= departure {
        return false;
    }
    entry.time < time
}
