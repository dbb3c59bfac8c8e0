//! Points kept for a front that is to be put before a list.

ghost use Rattle.std.specs.Prelude.{◌≡◌, ◌++◌, ◌∷◌, [], OnOk, MatchResult};
ghost use Rattle.criteria.specs.Laws.{Admits};
ghost use Rattle.fronts.specs.Front.{front, Extends};
ghost use Rattle.fronts.specs.Entries.{HasEntry};
ghost use Rattle.fronts.specs.Putting.{left_by, MayJoin};
ghost use Rattle.fronts.specs.Walking.{IsKept, MayInsert, AreKept};

use crate::entry::{Arena, Boarding, Item, RiddenLabel, Step};
use crate::putting::index_of;
use crate::search::{front_betters, part};
use crate::vectors::append;
use criteria::Criterion;
use std::alloc::AllocError;

// Adds a point to those kept, unless the front of entry `index` betters it.
#[inline(always)]
fn keep_point<C: Criterion>(
    criterion: &C,
    arena: Arena<'_, '_, C::V>,
    index: u32,
    kept: &mut Vec<Item<C::V>>,
    point: Item<C::V>,
) -> Result<(), AllocError>
    requires entry { HasEntry (C.rules criterion.now) arena.entries.now arena.items.now index }
    requires point { Admits (C.rules criterion.now) point.value }
    ensures { OnOk result (kept.new.items ≡ kept.old.items
        ++ left_by (C.rules criterion.now) (front arena.entry.entries.now arena.entry.items.now index) (point
        ∷ [])) }
{
    if !front_betters(criterion, arena, index, &point.value) {
        append(kept, point)?;
    }
    Ok(())
}

/// Keeps the points of the front of entry `from` that the front of entry `index` doesn't better, instead of those
/// kept before.
#[inline(always)]
pub fn keep_front<C: Criterion>(
    criterion: &C,
    arena: Arena<'_, '_, C::V>,
    from: u32,
    index: u32,
    kept: &mut Vec<Item<C::V>>,
) -> Result<(), AllocError>
    requires may { MayJoin (C.rules criterion.now) arena.entries.now arena.items.now from index }
    ensures { OnOk result (kept.new.items ≡ left_by (C.rules criterion.now)
        (front arena.entry.entries.now arena.entry.items.now index)
        (front arena.entry.entries.now arena.entry.items.now from)) }
{
    kept.clear();
    let entry = arena.entries[from as usize];
    let own = Item {
        departure: entry.departure,
        value: entry.value,
        tag: entry.tag,
    };
    keep_point(criterion, arena, index, kept, own)?;
    let others = part(arena.items, entry.rest, entry.count);
    for k in 0..others.len() {
        let point = others[k];
        keep_point(criterion, arena, index, kept, point)?;
    }
    Ok(())
}

// Adds a value: its step to `steps`, and to `kept` a point of this departure and value whose tag is that step's index.
#[inline(always)]
fn keep_value<V: Copy>(
    steps: &mut Vec<Step>,
    kept: &mut Vec<Item<V>>,
    departure: u32,
    value: V,
    step: Step,
) -> Result<(), AllocError>
    ensures { MatchResult result
        (λ _. IsKept steps.old.items kept.old.items departure value step steps.new.items kept.new.items)
        (λ _. Extends steps.old.items steps.new.items) }
{
    let tag = index_of(steps.len())?;
    append(steps, step)?;
    append(
        kept,
        Item {
            departure,
            value,
            tag,
        },
    )?;
    Ok(())
}

/// Keeps the ridden values, each after the footpath, that the front of entry `index` doesn't better, instead of the
/// points kept before.
#[inline(always)]
pub fn keep_walked<C: Criterion>(
    criterion: &C,
    arena: Arena<'_, '_, C::V>,
    index: u32,
    steps: &mut Vec<Step>,
    kept: &mut Vec<Item<C::V>>,
    boarding: Boarding,
    ridden: &[RiddenLabel<C::V>],
) -> Result<(), AllocError>
    requires may { MayInsert (C.rules criterion.now) arena.entries.now arena.items.now index boarding.secs ridden.now }
    ensures { MatchResult result
        (λ _. Extends steps.old.items steps.new.items × AreKept (C.rules criterion.now)
        (front arena.entry.entries.now arena.entry.items.now index) steps.new.items boarding ridden.now kept.new.items)
        (λ _. Extends steps.old.items steps.new.items) }
{
    kept.clear();
    for i in 0..ridden.len() {
        let ride = ridden[i];
        let value = criterion.walk(boarding.secs, &ride.value);
        if !front_betters(criterion, arena, index, &value) {
            let step = Step {
                first: boarding.first,
                label: ride.label,
                walk: boarding.walk,
            };
            keep_value(steps, kept, boarding.departure, value, step)?;
        }
    }
    Ok(())
}
