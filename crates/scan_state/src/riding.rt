//! The labels of a trip as points, and their values with the ride in the trip.

ghost use Rattle.std.specs.Prelude.{◌≡◌, ◌<◌, ◌≤◌, ◌++◌, ◌∷◌, [], OnOk, IfOk, IfSome};
ghost use Rattle.std.specs.Prelude.{Contains, slice_get, Some, length, take};
ghost use Rattle.criteria.specs.Laws.{Admits, IsSecs};
ghost use Rattle.scan_state.specs.Values.{started};
ghost use Rattle.bags.specs.declared.point.Point.{Point};
ghost use Rattle.scan_state.specs.Adding.{label_points};
ghost use Rattle.scan_state.specs.Bound.{IsBehind, carried_on};

use crate::bound::any_no_worse;
use bags::Point;
use criteria::Criterion;
use fronts::{Label, RiddenLabel, index_of};
use std::alloc::AllocError;
use timetable::Footpath;

/// A value with a start, or a last footpath, before it.
pub fn started<C: Criterion>(criterion: &C, walk: Option<Footpath>, value: &C::V) -> C::V
    requires secs { IfSome walk (λ walk. IsSecs walk.secs) }
    requires admitted { Admits (C.rules criterion.now) value.now }
    ensures { result ≡ started (C.rules criterion.now) walk value.now }
{
    match walk {
        None => *value,
        Some(walk) => criterion.walk(walk.secs, value),
    }
}

// A label's point.
fn label_point<V>(value: V, tag: u32) -> Point<V>
    ensures { result ≡ record { departure = 0; value = value; tag = tag } }
{
    Point {
        departure: 0,
        value,
        tag: tag as usize,
    }
}

/// The label at an index, as a point.
pub fn label_at<V: Copy>(labels: &[Label<V>], k: usize) -> Point<V>
    requires { k < length labels.now }
    ensures { slice_get (label_points labels.now) k ≡ Some result }
{
    let label = labels[k];
    label_point(label.value, label.tag)
}

// Puts an item behind the first `count` of a list, in place of what stands there. Mostly something does, and an item
// that is replaced costs less than one that is pushed.
#[inline(always)]
fn put_behind<T: Copy>(items: &mut Vec<T>, count: usize, item: T) -> Result<(), AllocError>
    requires { count ≤ length items.old.items }
    ensures { OnOk result (IsBehind items.old.items count item items.new.items) }
{
    if count < items.len() {
        items[count] = item;
        return Ok(());
    }
    items.push(item)?;
    Ok(())
}

// Puts a label's value with the ride behind the first `count` values of a list, unless a value of the bound is no
// worse. Returns how many there are then.
#[inline(always)]
fn ride_label<C: Criterion>(
    criterion: &C,
    bound: &[C::V],
    label: &Point<C::V>,
    ridden: &mut Vec<RiddenLabel<C::V>>,
    count: usize,
) -> Result<usize, AllocError>
    requires bound { (b : _) → Contains bound.now b → Admits (C.rules criterion.now) b }
    requires label { Admits (C.rules criterion.now) label.now.value }
    requires count { count ≤ length ridden.old.items }
    ensures { IfOk result (λ new. (new ≤ length ridden.new.items) × (take new ridden.new.items
        ≡ take count ridden.old.items ++ carried_on (C.rules criterion.now) bound.now (label.now ∷ []))) }
{
    let value = criterion.ride(&label.value);
    if any_no_worse(criterion, bound, &value) {
        return Ok(count);
    }
    let number = index_of(label.tag)?;
    let ride = RiddenLabel {
        value,
        label: number,
    };
    put_behind(ridden, count, ride)?;
    Ok(count + 1)
}

/// Fills `ridden` with each label's value with the ride, except where a value of the bound is no worse.
#[inline(always)]
pub fn ride_labels<C: Criterion>(
    criterion: &C,
    bound: &[C::V],
    labels: &[Label<C::V>],
    ridden: &mut Vec<RiddenLabel<C::V>>,
) -> Result<(), AllocError>
    requires bound { (b : _) → Contains bound.now b → Admits (C.rules criterion.now) b }
    requires labels { (l : Point _) → Contains (label_points labels.now) l → Admits (C.rules criterion.now) l.value }
    ensures { OnOk result
        (ridden.new.items ≡ carried_on (C.rules criterion.now) bound.now (label_points labels.now)) }
{
    let mut count = 0;
    for k in 0..labels.len() {
        let label = label_at(labels, k);
        count = ride_label(criterion, bound, &label, ridden, count)?;
    }
    ridden.truncate(count);
    Ok(())
}
