//! Points: a departure, a value and a tag.

ghost use Rattle.std.specs.Prelude.{◌≡◌, ◌||◌, ◌&&◌, ◌==◌, nat_lt};
ghost use Rattle.std.specs.Ordering.{is_lt};
ghost use Rattle.criteria.specs.Laws.{Admits};

use criteria::Criterion;

/// A departure, in seconds, and a value, with a tag that dominance ignores.
#[derive(Clone, Copy, Debug, Drop)]
pub struct Point<V> {
    pub departure: u32,
    pub value: V,
    pub tag: usize,
}

/// Whether a point comes before another: its time is earlier, or their times are equal and the criterion lists its
/// value first. The times are arguments of their own, since some lists begin with the first departure and some with
/// the last.
pub fn comes_first<C: Criterion>(
    criterion: &C,
    time: u32,
    other_time: u32,
    point: &Point<C::V>,
    other: &Point<C::V>,
) -> bool
    requires point { Admits (C.rules criterion.now) point.now.value }
    requires other { Admits (C.rules criterion.now) other.now.value }
    ensures { result ≡ (nat_lt time other_time ||
        (time == other_time && is_lt ((C.rules criterion.now).list_order point.now.value other.now.value))) }
{
    time < other_time
        || (time == other_time && criterion.list_order(&point.value, &other.value).is_lt())
}
