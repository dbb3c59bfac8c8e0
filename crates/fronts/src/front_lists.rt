//! Lists of fronts: the front from a time on, its points, and insertions.

use crate::entry::{Arena, Boarding, FrontEntry, Item, RiddenLabel, Step};
use crate::insertion::insert;
use crate::putting::{index_of, put, put_alone};
use crate::search::{front_betters, late, outdoes};
use crate::vectors::append;
use bags::Point;
use criteria::Criterion;
use std::alloc::{AllocError, Global};

// There is room from the start for an entry and a step for each so many connections that are expected.
const ROOM_SHARE: usize = 4;

/// Lists of points under a criterion. A list is named by its head, the index of its first entry; 0 names the empty
/// list.
///
/// A list is never changed: an insertion makes a new one of it.
#[derive(Drop)]
pub struct FrontLists<C: Criterion> {
    criterion: C,
    entries: Vec<FrontEntry<C::V>>,
    items: Vec<Item<C::V>>,
    steps: Vec<Step>,
    // scratch memory of an insertion
    passed: Vec<u32>,
    kept: Vec<Item<C::V>>,
    // scratch memory: one ridden value as a list, for the general insertion
    alone: Vec<RiddenLabel<C::V>>,
}

impl<C: Criterion> FrontLists<C> {
    ghost use Rattle.std.specs.Prelude.{◌≡◌, [], ◌∷◌, ◌<◌, ◌≤◌, IfOk, length, slice_get, Some};
    ghost use Rattle.fronts.specs.Front.{departure_of};
    ghost use Rattle.fronts.specs.Lists.{entries_of, steps_of, front_at};
    ghost use Rattle.fronts.specs.Lists.{HasList, IsEmptyAlone, IsFrontFrom, MayTake, AreMoreLists, HasTaken};

    /// Makes the empty list, and no other, with room for what a scan of `expected` connections mostly adds.
    pub fn new(alloc: Global, criterion: C, expected: usize) -> Result<Self, AllocError>
        ensures { IfOk result (IsEmptyAlone C.rules criterion) }
    {
        let room = expected / ROOM_SHARE;
        let steps = Vec::with_capacity(alloc, room)?;
        let mut entries = Vec::with_capacity(alloc, room)?;
        entries.push(FrontEntry {
            departure: u32::MAX,
            next: 0,
            rest: 0,
            count: 0,
            tag: 0,
            value: criterion.arrive(0),
        })?;
        Ok(FrontLists {
            criterion,
            entries,
            items: Vec::new(alloc),
            steps,
            passed: Vec::new(alloc),
            kept: Vec::new(alloc),
            alone: Vec::new(alloc),
        })
    }

    /// The index of an entry whose front stands for the list from a time on: it has only points of the list that
    /// depart at the time or later, and for each of these one that is no worse.
    pub fn front_from(&self, head: u32, time: u32) -> u32
        requires { HasList C.rules self.now head }
        ensures { IsFrontFrom C.rules self.now head time result }
    {
        let arena = Arena {
            entries: &self.entries,
            items: &self.items,
        };
        late(&self.criterion, arena, head, time)
    }

    /// The number of points that the front of entry `index` has.
    pub fn front_len(&self, index: u32) -> usize
        requires { HasList C.rules self.now index }
        ensures { result ≡ length (front_at self.now index) }
    {
        if index == 0 {
            return 0;
        }
        let entry = self.entries[index as usize];
        entry.count as usize + 1
    }

    /// The point at index `k` of the front of entry `index`.
    pub fn front_point(&self, index: u32, k: usize) -> Point<C::V>
        requires entry { HasList C.rules self.now index }
        requires point { k < length (front_at self.now index) }
        ensures { slice_get (front_at self.now index) k ≡ Some result }
    {
        let entry = self.entries[index as usize];
        if k == 0 {
            return point(entry.departure, entry.value, entry.tag);
        }
        let item = item_at(&self.items, entry.rest, k - 1);
        point(item.departure, item.value, item.tag)
    }

    /// The step by which one goes on from a point with this tag, or `None` if there is no such step.
    pub fn step(&self, tag: usize) -> Option<Step>
        ensures { result ≡ slice_get (steps_of self.now) tag }
    {
        self.steps.get(tag).copied()
    }

    /// Takes the ridden values, after a footpath, into a list, and returns the head of the list that has them. All
    /// lists stay as they were, also if memory runs out; then there is no new one.
    #[inline(always)]
    pub fn insert(
        &mut self,
        head: u32,
        boarding: Boarding,
        ridden: &[RiddenLabel<C::V>],
    ) -> Result<u32, AllocError>
        requires may { MayTake C.rules self.old head boarding.secs ridden.now }
        ensures more { AreMoreLists C.rules self.old self.new }
        ensures taken { IfOk result (HasTaken C.rules boarding ridden.now self.old head self.new) }
    {
        if ridden.len() == 1 {
            return self.insert_one(head, boarding, ridden[0]);
        }
        insert(
            &self.criterion,
            &mut self.entries,
            &mut self.items,
            &mut self.steps,
            &mut self.passed,
            &mut self.kept,
            head,
            boarding,
            ridden,
        )
    }

    // Takes one ridden value, after a footpath, into a list, as `FrontLists::insert` takes several.
    #[inline(always)]
    fn insert_one(
        &mut self,
        head: u32,
        boarding: Boarding,
        ride: RiddenLabel<C::V>,
    ) -> Result<u32, AllocError>
        requires may { MayTake C.rules self.old head boarding.secs (ride ∷ []) }
        ensures more { AreMoreLists C.rules self.old self.new }
        ensures taken { IfOk result (HasTaken C.rules boarding (ride ∷ []) self.old head self.new) }
    {
        // In most insertions the list begins no earlier, so that is tested first. If it begins earlier, the front from
        // the departure on mostly betters the value, and then no entry has to be passed.
        if self.entries[head as usize].departure >= boarding.departure {
            return self.insert_ahead(head, boarding, ride);
        }
        let value = self.criterion.walk(boarding.secs, &ride.value);
        let arena = Arena {
            entries: &self.entries,
            items: &self.items,
        };
        let index = late(&self.criterion, arena, head, boarding.departure);
        if front_betters(&self.criterion, arena, index, &value) {
            return Ok(head);
        }
        self.insert_behind(
            head,
            boarding.departure,
            boarding.first,
            boarding.walk,
            boarding.secs,
            ride,
        )
    }

    // The general insertion, for one value. It is rare, so it is a call and never inlined. A `Boarding` as its argument
    // would be written to memory also where it isn't called.
    #[inline(never)]
    fn insert_behind(
        &mut self,
        head: u32,
        departure: u32,
        first: u32,
        walk: u32,
        secs: u32,
        ride: RiddenLabel<C::V>,
    ) -> Result<u32, AllocError>
        requires may { MayTake C.rules self.old head secs (ride ∷ []) }
        ensures more { AreMoreLists C.rules self.old self.new }
        ensures taken { IfOk result (HasTaken C.rules (record {
          departure = departure;
          first = first;
          walk = walk;
          secs = secs;
        }) (ride ∷ []) self.old head self.new) }
    {
        let boarding = Boarding {
            departure,
            first,
            walk,
            secs,
        };
        self.alone.clear();
        self.alone.push(ride)?;
        insert(
            &self.criterion,
            &mut self.entries,
            &mut self.items,
            &mut self.steps,
            &mut self.passed,
            &mut self.kept,
            head,
            boarding,
            &self.alone,
        )
    }

    // Takes one ridden value in before a list whose first entry departs no earlier: no entry is passed, and only this
    // value can be kept. Mostly it betters all of the list's front, and then it is put alone.
    #[inline(always)]
    fn insert_ahead(
        &mut self,
        head: u32,
        boarding: Boarding,
        ride: RiddenLabel<C::V>,
    ) -> Result<u32, AllocError>
        requires may { MayTake C.rules self.old head boarding.secs (ride ∷ []) }
        requires ahead { boarding.departure ≤ departure_of (entries_of self.old) head }
        ensures more { AreMoreLists C.rules self.old self.new }
        ensures taken { IfOk result (HasTaken C.rules boarding (ride ∷ []) self.old head self.new) }
    {
        let value = self.criterion.walk(boarding.secs, &ride.value);
        let arena = Arena {
            entries: &self.entries,
            items: &self.items,
        };
        if front_betters(&self.criterion, arena, head, &value) {
            return Ok(head);
        }
        let tag = index_of(self.steps.len())?;
        append(
            &mut self.steps,
            Step {
                first: boarding.first,
                label: ride.label,
                walk: boarding.walk,
            },
        )?;
        let point = Item {
            departure: boarding.departure,
            value,
            tag,
        };
        if outdoes(&self.criterion, arena, head, &point.value) {
            return put_alone(&self.criterion, &mut self.entries, &self.items, point, head);
        }
        self.kept.clear();
        append(&mut self.kept, point)?;
        put(
            &self.criterion,
            &mut self.entries,
            &mut self.items,
            &self.kept,
            head,
            point.departure,
        )
    }
}

ghost use Rattle.std.specs.Prelude.{◌≡◌, ◌+◌, ◌<◌, length, slice_get, Some};

// A point of a front as callers see it: its tag is a `usize`.
fn point<V>(departure: u32, value: V, tag: u32) -> Point<V>
    ensures { result ≡ record { departure = departure; value = value; tag = tag } }
{
    Point {
        departure,
        value,
        tag: tag as usize,
    }
}

// The item at index `rest + k`.
fn item_at<V: Copy>(items: &[Item<V>], rest: u32, k: usize) -> Item<V>
    requires { rest + k < length items.now }
    ensures { slice_get items.now (rest + k) ≡ Some result }
{
    items[rest as usize + k]
}
