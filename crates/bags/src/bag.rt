//! A bag: points under a criterion, none of which dominates another; how they are read, and how one is added.

ghost use Rattle.std.specs.Prelude.{length};
ghost use Rattle.bags.specs.Dominance.{IsBag};
ghost use Rattle.bags.specs.Arrangement.{points_in, AreListed, AreLinked};

use crate::Point;
use crate::entry::BagEntry;
use crate::insertion::insert_point;
use crate::search::{count_late, some_no_worse};
use criteria::Criterion;
use std::alloc::{AllocError, Global};

/// Points, none of which dominates another.
#[derive(Drop)]
pub struct Bag<C: Criterion> {
    criterion: C,
    // by falling departure; of equal departures by the criterion's order
    entries: Vec<BagEntry<C::V>>,
    pub ghost kept: { IsBag (C.rules criterion) (points_in entries.items) },
    pub ghost listed: { AreListed (C.rules criterion) (points_in entries.items) },
    ghost linked: { AreLinked (C.rules criterion) entries.items (length entries.items) },
}

impl<C: Criterion> Bag<C> {
    ghost use Rattle.std.specs.Prelude.{◌≡◌, [], ℕ, ◌<◌, ◌≤◌, slice_get, Some, IfOk, OnErr, true, false};
    ghost use Rattle.criteria.specs.Laws.{Admits};
    ghost use Rattle.bags.specs.Dominance.{Stands, Inserted};
    ghost use Rattle.bags.specs.Arrangement.{AreLate};
    ghost use Rattle.bags.specs.Best.{is_best};
    ghost use Rattle.bags.specs.Bag.{IsFull, criterion_of, points_of};

    /// An empty bag under a criterion. It takes no memory.
    pub fn new(alloc: Global, criterion: C) -> Self
        ensures criterion { criterion_of result ≡ criterion }
        ensures empty { points_of result ≡ [] }
    {
        Bag {
            criterion,
            entries: Vec::new(alloc),
        }
    }

    /// The number of points.
    pub fn len(&self) -> usize
        ensures { result ≡ length (points_of self.now) }
    {
        self.entries.len()
    }

    /// The point at an index.
    pub fn point(&self, i: usize) -> Point<C::V>
        requires { i < length (points_of self.now) }
        ensures { slice_get (points_of self.now) i ≡ Some result }
    {
        self.entries[i].point
    }

    /// Adds a point, unless one of the bag dominates it, and drops those that it dominates. Returns whether it was
    /// added: a point of the same departure and value that is there already stays, with its tag. If memory runs out,
    /// the bag was full and stays as it was; a point that isn't added needs none. The value must be one that the
    /// criterion admits, as all values of journeys are.
    #[inline(always)]
    pub fn insert(&mut self, departure: u32, value: C::V, tag: usize) -> Result<bool, AllocError>
        requires { Admits (C.rules (criterion_of self.old)) value }
        ensures criterion { criterion_of self.new ≡ criterion_of self.old }
        ensures stands { IfOk result (Stands (C.rules (criterion_of self.old)) (points_of self.old)
            (record { departure = departure; value = value; tag = tag })) }
        ensures inserted { IfOk result (λ stands.
            Inserted (C.rules (criterion_of self.old)) (points_of self.old) (record {
              departure = departure;
              value =
                  value;
              tag = tag;
            }) stands (points_of self.new)) }
        ensures err { OnErr result (points_of self.new ≡ points_of self.old) }
        ensures err_stands { OnErr result (Stands (C.rules (criterion_of self.old)) (points_of self.old)
            (record { departure = departure; value = value; tag = tag }) true) }
        ensures full { OnErr result (IsFull self.old) }
    {
        let point = Point {
            departure,
            value,
            tag,
        };
        insert_point(&self.criterion, &mut self.entries, point)
    }

    // Whether the point at an index is a best one from a time on, if the first `late` points are those that depart
    // then or later: no other of these behind it has a value no worse.
    pub(crate) fn is_best_before(&self, index: usize, late: usize) -> bool
        requires index { index < late }
        requires late { late ≤ length (points_of self.now) }
        ensures { (time : ℕ) → AreLate self.now.entries.items time late → (p : _)
            → slice_get (points_of self.now) index ≡ Some p
            → result ≡ is_best (C.rules (criterion_of self.now)) (points_of self.now) time p }
    {
        let value = self.entries[index].point.value;
        !some_no_worse(&self.criterion, &self.entries, index + 1, late, &value)
    }

    // The number of points that depart at a time or later.
    pub(crate) fn count_late(&self, time: u32) -> usize
        ensures { AreLate self.now.entries.items time result }
    {
        count_late(&self.entries, time)
    }

    // An index such that no point from there on, before the one at `index`, is a best one from a time on at which the
    // one at `index` hasn't departed.
    pub(crate) fn skip(&self, index: usize) -> usize
        requires index { index < length (points_of self.now) }
        ensures back { result ≤ index }
        ensures passed { (time late : ℕ) → index < late → AreLate self.now.entries.items time late → (k : ℕ) (p : _)
            → result ≤ k → k < index → slice_get (points_of self.now) k ≡ Some p
            → is_best (C.rules (criterion_of self.now)) (points_of self.now) time p ≡ false }
    {
        self.entries[index].skip
    }
}
