//! Things with a value, and whether one of them is good enough.

ghost use Rattle.std.specs.Prelude.{◌≡◌, Contains};
ghost use Rattle.std.specs.List.{list_any};
ghost use Rattle.criteria.specs.Laws.{Admits};

use crate::entry::Item;
use crate::labels::Label;
use criteria::Criterion;

/// A thing with a value.
pub trait HasValue<V> {
    // its value
    ghost value_of: { Self → V };

    /// Its value.
    fn value(&self) -> &V
        ensures { result.now ≡ value_of self.now };
}

impl<V> HasValue<V> for V {
    ghost value_of = { λ value. value };

    #[inline(always)]
    fn value(&self) -> &V {
        self
    }
}

impl<V> HasValue<V> for Item<V> {
    ghost value_of = { λ item. item.value };

    #[inline(always)]
    fn value(&self) -> &V {
        &self.value
    }
}

impl<V> HasValue<V> for Label<V> {
    ghost value_of = { λ label. label.value };

    #[inline(always)]
    fn value(&self) -> &V {
        &self.value
    }
}

/// Whether one of some values, items or labels is no worse than a value (an equal one counts). In this crate points
/// then *better* the value, and labels *beat* it. The loop goes over all of them, without a branch.
pub fn some_no_worse<C: Criterion, T: HasValue<C::V>>(
    criterion: &C,
    points: &[T],
    value: &C::V,
) -> bool
    requires points { (p : _) → Contains points.now p → Admits (C.rules criterion.now) (T.value_of p) }
    requires value { Admits (C.rules criterion.now) value.now }
    ensures { result ≡ list_any (λ p. (C.rules criterion.now).no_worse (T.value_of p) value.now) points.now }
{
    let mut any = false;
    for point in points {
        any = criterion.no_worse(point.value(), value) | any;
    }
    any
}
