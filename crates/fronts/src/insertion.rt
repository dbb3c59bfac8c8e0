//! Insertions into a list, each of which makes a new list.

ghost use Rattle.std.specs.Prelude.{◌<◌, length, IfOk, MatchResult};
ghost use Rattle.fronts.specs.Front.{points_from, Extends};
ghost use Rattle.fronts.specs.Entries.{AreMore};
ghost use Rattle.fronts.specs.Putting.{HasJoined, IsJoined, MayJoin, MayJoinAll};
ghost use Rattle.fronts.specs.Walking.{MayInsert, TakesBoardings};

use crate::entry::{Arena, Boarding, FrontEntry, Item, RiddenLabel, Step};
use crate::keeping::{keep_front, keep_walked};
use crate::putting::put;
use crate::search::pass;
use criteria::Criterion;
use std::alloc::AllocError;

// Before the list that begins at `index`, puts those points of entry `from`'s front that the list's first front doesn't
// better; if there are none, the list stays. That list must cover the entries after `from`'s. Returns the head of
// the list that has both.
#[inline(always)]
fn join_one<C: Criterion>(
    criterion: &C,
    entries: &mut Vec<FrontEntry<C::V>>,
    items: &mut Vec<Item<C::V>>,
    kept: &mut Vec<Item<C::V>>,
    from: u32,
    index: u32,
) -> Result<u32, AllocError>
    requires may { MayJoin (C.rules criterion.now) entries.old.items items.old.items from index }
    ensures { MatchResult result
        (HasJoined (C.rules criterion.now) entries.old.items entries.new.items items.old.items items.new.items from
        index)
        (λ _. AreMore (C.rules criterion.now) entries.old.items items.old.items entries.new.items items.new.items) }
{
    keep_front(criterion, Arena { entries, items }, from, index, kept)?;
    if kept.len() == 0 {
        return Ok(index);
    }
    let departure = entries[from as usize].departure;
    let new = put(criterion, entries, items, kept, index, departure)?;
    Ok(new)
}

// Before the list that begins at `index`, puts what remains of the passed entries, from the last to the first, as
// `join_one` does. Returns the head of the list that has all of it.
#[inline(always)]
fn join<C: Criterion>(
    criterion: &C,
    entries: &mut Vec<FrontEntry<C::V>>,
    items: &mut Vec<Item<C::V>>,
    kept: &mut Vec<Item<C::V>>,
    passed: &mut Vec<u32>,
    head: u32,
    after: u32,
    index: u32,
) -> Result<u32, AllocError>
    requires may { MayJoinAll (C.rules criterion.now) entries.old.items items.old.items head passed.old.items after
        index }
    ensures { MatchResult result
        (IsJoined (C.rules criterion.now) (points_from entries.old.items items.old.items head)
        (points_from entries.old.items items.old.items index) entries.old.items entries.new.items items.old.items
        items.new.items)
        (λ _. AreMore (C.rules criterion.now) entries.old.items items.old.items entries.new.items items.new.items) }
{
    let mut new = index;
    while let Some(from) = passed.pop() {
        new = join_one(criterion, entries, items, kept, from, new)?;
    }
    Ok(new)
}

/// Takes the ridden values, after a footpath, into a list. Returns the head of the list that has them.
#[inline(always)]
pub fn insert<C: Criterion>(
    criterion: &C,
    entries: &mut Vec<FrontEntry<C::V>>,
    items: &mut Vec<Item<C::V>>,
    steps: &mut Vec<Step>,
    passed: &mut Vec<u32>,
    kept: &mut Vec<Item<C::V>>,
    head: u32,
    boarding: Boarding,
    ridden: &[RiddenLabel<C::V>],
) -> Result<u32, AllocError>
    requires may { MayInsert (C.rules criterion.now) entries.old.items items.old.items head boarding.secs ridden.now }
    ensures more { AreMore (C.rules criterion.now) entries.old.items items.old.items entries.new.items items.new.items }
    ensures steps { Extends steps.old.items steps.new.items }
    ensures takes { IfOk result (λ new. (new < length entries.new.items)
        × TakesBoardings (C.rules criterion.now) steps.new.items boarding ridden.now
        (points_from entries.old.items items.old.items head) (points_from entries.new.items items.new.items new)) }
{
    let after = pass(
        criterion,
        Arena { entries, items },
        head,
        boarding.departure,
        passed,
    )?;
    keep_walked(
        criterion,
        Arena { entries, items },
        after,
        steps,
        kept,
        boarding,
        ridden,
    )?;
    if kept.len() == 0 {
        return Ok(head);
    }
    let index = put(criterion, entries, items, kept, after, boarding.departure)?;
    let new = join(criterion, entries, items, kept, passed, head, after, index)?;
    Ok(new)
}
