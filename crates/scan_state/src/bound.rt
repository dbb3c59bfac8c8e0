//! The bound: values of points found. A stop's point isn't carried on to labels, nor a label to stops, if one of these
//! values is no worse than its own value with the ride.

ghost use Rattle.std.specs.Prelude.{◌≡◌, ◌≤◌, not, filter, length, Contains, OnOk};
ghost use Rattle.criteria.specs.Laws.{Admits};
ghost use Rattle.bags.specs.Bag.{criterion_of, points_of};
ghost use Rattle.scan_state.specs.Bound.{AreLateUntil, TakesPoints, TakesValue, any_no_worse};

use bags::Bag;
use criteria::Criterion;
use fronts::some_no_worse;
use std::alloc::{AllocError, Global};
use std::ops::Range;

/// Values of points found that depart no earlier than the connections to come.
///
/// A bound stays right as the scan goes on: connections read later depart no later, and a point is dropped only for one
/// that departs no earlier and is no worse. So some point found always outdoes each value here.
#[derive(Drop)]
pub struct Bound<C: Criterion> {
    pub values: Vec<C::V>,
    // how many points had ever been found at the last reading: the list of the points found may grow shorter
    count: usize,
    // where the next reading begins. The points before this index depart later than the last `time`. New points depart
    // at that time or earlier, so none is inserted before it
    index: usize,
    // the departure of the first point that wasn't late enough at the last reading, or 0 if all were read
    next: u32,
}

impl<C: Criterion> Bound<C> {
    ghost use Rattle.std.specs.Prelude.{[]};
    ghost use Rattle.criteria.specs.Laws.{RidingWorsens};
    ghost use Rattle.scan_state.specs.Bound.{IsRenewed};

    /// Makes a bound without values.
    pub fn new(alloc: Global) -> Self
        ensures { result.values.items ≡ [] }
    {
        Bound {
            values: Vec::new(alloc),
            count: 0,
            index: 0,
            next: 0,
        }
    }

    /// Adds the values of points found that depart at `time` or later and weren't read yet. `count` is how many points
    /// were ever found: if it hasn't changed since the last call, there are no new ones. What the bound excluded stays
    /// excluded. Nothing is added unless the criterion says `riding_worsens`. Returns whether points were looked at, so
    /// that the values may be others.
    #[inline(always)]
    pub fn renew(
        &mut self,
        criterion: &C,
        found: &Bag<C>,
        count: usize,
        time: u32,
    ) -> Result<bool, AllocError>
        requires found { criterion_of found.now ≡ criterion.now }
        requires values { (b : _) → Contains self.old.values.items b → Admits (C.rules criterion.now) b }
        ensures { OnOk result (IsRenewed (C.rules criterion.now) (points_of found.now) time
            self.old.values.items self.new.values.items) }
    {
        if !criterion.riding_worsens() {
            return Ok(false);
        }
        // Nothing new was found, and the next point, if there is one, still departs too early.
        if count == self.count && self.next < time {
            return Ok(false);
        }
        self.read(criterion, found, count, time)?;
        Ok(true)
    }

    // Reads the points for `renew`. The next reading begins at the first point that departs at `time` or earlier, since
    // one found later may be put among those that depart at `time`. Most connections read nothing, so it is a call and
    // never inlined.
    #[inline(never)]
    fn read(
        &mut self,
        criterion: &C,
        found: &Bag<C>,
        count: usize,
        time: u32,
    ) -> Result<(), AllocError>
        requires worsens { RidingWorsens (C.rules criterion.now) }
        requires found { criterion_of found.now ≡ criterion.now }
        requires values { (b : _) → Contains self.old.values.items b → Admits (C.rules criterion.now) b }
        ensures { OnOk result (IsRenewed (C.rules criterion.now) (points_of found.now) time
            self.old.values.items self.new.values.items) }
    {
        let from = self.index.min(found.len());
        let until = late_until(found, from, time);
        take_points(criterion, found, from..until, &mut self.values)?;
        self.index = late_until(found, from, time.saturating_add(1));
        self.next = if until < found.len() {
            found.point(until).departure
        } else {
            0
        };
        self.count = count;
        Ok(())
    }
}

/// Whether one of some values is no worse than a value (an equal one counts, unlike in `is_bettered_by` of `bags`,
/// which asks for a strictly better one). It is `some_no_worse` of bare values, under the name of its definition in
/// specs/Bound.antt.
pub fn any_no_worse<C: Criterion>(criterion: &C, values: &[C::V], value: &C::V) -> bool
    requires values { (b : _) → Contains values.now b → Admits (C.rules criterion.now) b }
    requires value { Admits (C.rules criterion.now) value.now }
    ensures { result ≡ any_no_worse (C.rules criterion.now) values.now value.now }
{
    some_no_worse(criterion, values, value)
}

// Drops each value that the given one is no worse than.
fn drop_no_better<C: Criterion>(criterion: &C, values: &mut Vec<C::V>, value: &C::V)
    requires values { (b : _) → Contains values.old.items b → Admits (C.rules criterion.now) b }
    requires value { Admits (C.rules criterion.now) value.now }
    ensures { values.new.items ≡ filter (λ b. not ((C.rules criterion.now).no_worse value.now b)) values.old.items }
{
    let mut kept = 0;
    for i in 0..values.len() {
        let other = values[i];
        if !criterion.no_worse(value, &other) {
            values[kept] = other;
            kept += 1;
        }
    }
    values.truncate(kept);
}

// Adds a value, unless one that is there is no worse, and drops each that it is no worse than.
fn take_value<C: Criterion>(
    criterion: &C,
    value: C::V,
    values: &mut Vec<C::V>,
) -> Result<(), AllocError>
    requires values { (b : _) → Contains values.old.items b → Admits (C.rules criterion.now) b }
    requires value { Admits (C.rules criterion.now) value }
    ensures { OnOk result (TakesValue (C.rules criterion.now) value values.old.items values.new.items) }
{
    if any_no_worse(criterion, values, &value) {
        return Ok(());
    }
    drop_no_better(criterion, values, &value);
    values.push(value)?;
    Ok(())
}

// The least index, at `from` or after it, such that all points there and after it depart before a time. A bag's
// points are in order of falling departure.
fn late_until<C: Criterion>(found: &Bag<C>, from: usize, time: u32) -> usize
    requires { from ≤ length (points_of found.now) }
    ensures { AreLateUntil (points_of found.now) from time result }
{
    for index in from..found.len() {
        if found.point(index).departure < time {
            return index;
        }
    }
    found.len()
}

// Adds the values of the points at some indices.
fn take_points<C: Criterion>(
    criterion: &C,
    found: &Bag<C>,
    indices: Range<usize>,
    values: &mut Vec<C::V>,
) -> Result<(), AllocError>
    requires found { criterion_of found.now ≡ criterion.now }
    requires order { indices.start ≤ indices.end }
    requires until { indices.end ≤ length (points_of found.now) }
    requires values { (b : _) → Contains values.old.items b → Admits (C.rules criterion.now) b }
    ensures { OnOk result
        (TakesPoints (C.rules criterion.now)
        (points_of found.now) indices.start indices.end values.old.items values.new.items) }
{
    for index in indices.start..indices.end {
        let point = found.point(index);
        take_value(criterion, point.value, values)?;
    }
    Ok(())
}
