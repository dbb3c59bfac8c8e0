//! Searches in lists of entries.

ghost use Rattle.std.specs.Prelude.{◌≡◌, ◌≤◌, ◌+◌, take, drop, length, IfOk};
ghost use Rattle.criteria.specs.Laws.{Admits};
ghost use Rattle.fronts.specs.Front.{front, departure_of};
ghost use Rattle.fronts.specs.Entries.{HasEntry};
ghost use Rattle.fronts.specs.Putting.{betters, outdoes_alone, IsLate, ArePassed};

use crate::entry::Arena;
use crate::valued::some_no_worse;
use criteria::Criterion;
use std::alloc::AllocError;

/// Whether a point of the front of entry `index` is no worse than a value (an equal one counts).
pub fn front_betters<C: Criterion>(
    criterion: &C,
    arena: Arena<'_, '_, C::V>,
    index: u32,
    value: &C::V,
) -> bool
    requires entry { HasEntry (C.rules criterion.now) arena.entries.now arena.items.now index }
    requires value { Admits (C.rules criterion.now) value.now }
    ensures { result ≡ betters (C.rules criterion.now) (front arena.entry.entries.now arena.entry.items.now index)
        value.now }
{
    if index == 0 {
        return false;
    }
    let entry = arena.entries[index as usize];
    if criterion.no_worse(&entry.value, value) {
        return true;
    }
    if entry.count == 0 {
        return false;
    }
    some_no_worse(criterion, part(arena.items, entry.rest, entry.count), value)
}

/// Whether the front of entry `index` is empty, or has a single point and the value is no worse than that point's.
#[inline(always)]
pub fn outdoes<C: Criterion>(
    criterion: &C,
    arena: Arena<'_, '_, C::V>,
    index: u32,
    value: &C::V,
) -> bool
    requires entry { HasEntry (C.rules criterion.now) arena.entries.now arena.items.now index }
    requires value { Admits (C.rules criterion.now) value.now }
    ensures { result ≡ outdoes_alone (C.rules criterion.now) value.now
        (front arena.entry.entries.now arena.entry.items.now index) }
{
    if index == 0 {
        return true;
    }
    let entry = arena.entries[index as usize];
    if entry.count > 0 {
        return false;
    }
    criterion.no_worse(value, &entry.value)
}

/// The `count` items from index `rest` on.
pub fn part<T>(items: &[T], rest: u32, count: u32) -> &[T]
    requires { rest + count ≤ length items.now }
    ensures { result.now ≡ take count (drop rest items.now) }
{
    &items[rest as usize..rest as usize + count as usize]
}

/// The index of the first entry, on the list from `head` on, that departs at a time or later; 0 if there is none.
pub fn late<C: Criterion>(criterion: &C, arena: Arena<'_, '_, C::V>, head: u32, time: u32) -> u32
    requires entry { HasEntry (C.rules criterion.now) arena.entries.now arena.items.now head }
    ensures { IsLate arena.entry.entries.now arena.entry.items.now head time result }
{
    let mut index = head;
    while arena.entries[index as usize].departure < time {
        index = arena.entries[index as usize].next;
    }
    index
}

/// Returns the index of the first entry on a list that departs at a time or later, as [`late`] does. In `passed` it
/// leaves the indices of the entries before it, in the order of the list, and no others.
pub fn pass<C: Criterion>(
    criterion: &C,
    arena: Arena<'_, '_, C::V>,
    head: u32,
    time: u32,
    passed: &mut Vec<u32>,
) -> Result<u32, AllocError>
    requires entry { HasEntry (C.rules criterion.now) arena.entries.now arena.items.now head }
    ensures { IfOk result (ArePassed arena.entry.entries.now arena.entry.items.now head time passed.new.items) }
{
    passed.clear();
    let mut index = head;
    while arena.entries[index as usize].departure < time {
        passed.push(index)?;
        index = arena.entries[index as usize].next;
    }
    Ok(index)
}
