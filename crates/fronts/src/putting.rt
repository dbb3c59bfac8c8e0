//! Fronts put before lists.

ghost use Rattle.std.specs.Prelude.{◌≡◌, ◌∷◌, [], ◌<◌, ◌≤◌, drop, length, true};
ghost use Rattle.std.specs.Prelude.{Contains, MatchResult};
ghost use Rattle.criteria.specs.Laws.{Admits};
ghost use Rattle.fronts.specs.Front.{front};
ghost use Rattle.fronts.specs.Entries.{HasEntry, AreMore};
ghost use Rattle.fronts.specs.Putting.{Follows, left_by, outdoes_alone, MayPut, IsPut, Pushes};

use crate::entry::{FrontEntry, Item};
use crate::valued::some_no_worse;
use crate::vectors::append;
use criteria::Criterion;
use std::alloc::AllocError;

/// Returns a length as a 32-bit index. Past 2^32 - 1 it fails, as if memory had run out.
pub fn index_of(len: usize) -> Result<u32, AllocError>
    ensures { MatchResult result (λ index. index ≡ len) (λ _. 4294967295 < len) }
{
    if len > u32::MAX as usize {
        return Err(AllocError);
    }
    Ok(len as u32)
}

// Pushes a point unless one of `points` is no worse.
#[inline(always)]
fn leave<C: Criterion>(
    criterion: &C,
    items: &mut Vec<Item<C::V>>,
    points: &[Item<C::V>],
    point: Item<C::V>,
) -> Result<(), AllocError>
    requires points { (p : _) → Contains points.now p → Admits (C.rules criterion.now) p.value }
    requires point { Admits (C.rules criterion.now) point.value }
    ensures { Pushes result items.old.items (left_by (C.rules criterion.now) points.now (point ∷ [])) items.new.items }
{
    if !some_no_worse(criterion, points, &point.value) {
        append(items, point)?;
    }
    Ok(())
}

// Pushes the points of the front of entry `index` that `points` don't better.
#[inline(always)]
fn leave_front<C: Criterion>(
    criterion: &C,
    entries: &[FrontEntry<C::V>],
    items: &mut Vec<Item<C::V>>,
    points: &[Item<C::V>],
    index: u32,
) -> Result<(), AllocError>
    requires entry { HasEntry (C.rules criterion.now) entries.now items.old.items index }
    requires points { (p : _) → Contains points.now p → Admits (C.rules criterion.now) p.value }
    ensures { Pushes result items.old.items
        (left_by (C.rules criterion.now) points.now (front entries.now items.old.items index)) items.new.items }
{
    if index == 0 {
        return Ok(());
    }
    let entry = entries[index as usize];
    let own = Item {
        departure: entry.departure,
        value: entry.value,
        tag: entry.tag,
    };
    leave(criterion, items, points, own)?;
    let begin = entry.rest as usize;
    for k in begin..begin + entry.count as usize {
        let item = items[k];
        leave(criterion, items, points, item)?;
    }
    Ok(())
}

// Pushes all points but the first. Mostly there are no others, and then the vector isn't touched.
#[inline(always)]
fn push_others<V: Copy>(items: &mut Vec<Item<V>>, points: &[Item<V>]) -> Result<(), AllocError>
    requires some { 0 < length points.now }
    ensures { Pushes result items.old.items (drop 1 points.now) items.new.items }
{
    if points.len() > 1 {
        items.extend_from_slice(&points[1..])?;
    }
    Ok(())
}

// The entry that follows a front which is put before the list of `entry`: `entry` itself, at `index`, or the next one
// if `entry` departs together with that front.
fn follow<V: Copy>(entry: &FrontEntry<V>, index: u32, departure: u32) -> u32
    requires { departure ≤ entry.now.departure }
    ensures { Follows entry.now.departure entry.now.next index departure result }
{
    if entry.departure == departure {
        entry.next
    } else {
        index
    }
}

/// Puts a front before a list: points of one departure, and those of the list's front that they don't better. Returns
/// the index of the new entry.
#[inline(always)]
pub fn put<C: Criterion>(
    criterion: &C,
    entries: &mut Vec<FrontEntry<C::V>>,
    items: &mut Vec<Item<C::V>>,
    points: &[Item<C::V>],
    index: u32,
    departure: u32,
) -> Result<u32, AllocError>
    requires may { MayPut (C.rules criterion.now) entries.old.items items.old.items departure index points.now }
    ensures { MatchResult result
        (IsPut (C.rules criterion.now) entries.old.items entries.new.items items.old.items items.new.items departure
        index points.now)
        (λ _. AreMore (C.rules criterion.now) entries.old.items items.old.items entries.new.items items.new.items) }
{
    let new = index_of(entries.len())?;
    let rest = index_of(items.len())?;
    push_others(items, points)?;
    leave_front(criterion, entries, items, points, index)?;
    let count = index_of(items.len() - rest as usize)?;
    let next = follow(&entries[index as usize], index, departure);
    let first = points[0];
    let entry = FrontEntry {
        departure,
        next,
        rest,
        count,
        tag: first.tag,
        value: first.value,
    };
    append(entries, entry)?;
    Ok(new)
}

/// Puts a front of only one point before a list whose front is empty, or has a single point that the new one is no
/// worse than. Returns the index of the new entry.
#[inline(always)]
pub fn put_alone<C: Criterion>(
    criterion: &C,
    entries: &mut Vec<FrontEntry<C::V>>,
    items: &[Item<C::V>],
    point: Item<C::V>,
    index: u32,
) -> Result<u32, AllocError>
    requires may { MayPut (C.rules criterion.now) entries.old.items items.now point.departure index (point ∷ []) }
    requires outdone { outdoes_alone (C.rules criterion.now) point.value (front entries.old.items items.now index)
        ≡ true }
    ensures { MatchResult result
        (IsPut (C.rules criterion.now) entries.old.items entries.new.items items.now items.now point.departure index
        (point ∷ []))
        (λ _. AreMore (C.rules criterion.now) entries.old.items items.now entries.new.items items.now) }
{
    let new = index_of(entries.len())?;
    let next = follow(&entries[index as usize], index, point.departure);
    let entry = FrontEntry {
        departure: point.departure,
        next,
        rest: 0,
        count: 0,
        tag: point.tag,
        value: point.value,
    };
    append(entries, entry)?;
    Ok(new)
}
