//! Lists of entries, each with the front of what can be reached by departing at its time or later.
//!
//! Entries are only pushed, never changed, so the index of an entry names the same list for ever. Entry 0 ends each
//! list.

ghost use Rattle.std.specs.Prelude.{◌+◌, ◌≤◌, IfOk, MatchResult, OnOk};
ghost use Rattle.fronts.specs.Vectors.{HasNoRoom};
ghost use Rattle.lanes.specs.LanesWithTags.{AreTagged};
ghost use Rattle.lanes.specs.LaneLists.{AreJoined, ArePassed, HasList, IsLate, IsOnePut, IsPushed, MayJoin, MayJoinAll};
ghost use Rattle.lanes.specs.LaneLists.{MayPut, IsOneJoined};

use crate::trip_lanes::Lanes;
use crate::words::{Words, are_adding, boarded, boarded_tags, least_tags, least_words};
use std::alloc::AllocError;

/// What can be reached from a stop by departing at a time or later: a front, with a tag for each word but the first.
/// A word that isn't less than the next entry's has that entry's tag.
#[derive(Clone, Copy, Drop)]
pub struct LaneEntry {
    pub(crate) departure: u32,
    // the index of the next entry on the list
    pub(crate) next: u32,
    pub(crate) front: Words,
    pub(crate) tags: [u32; 8],
}

/// The index of the first entry, on the list from `head` on, that departs at a time or later; 0 if there is none.
#[inline(always)]
pub fn late(entries: &[LaneEntry], head: u32, time: u32) -> u32
    requires { HasList entries.now head }
    ensures { IsLate entries.now head time result }
{
    let mut index = head;
    while entries[index as usize].departure < time {
        index = entries[index as usize].next;
    }
    index
}

// Leaves in `passed` the indices of the entries that `late` passes, in the order of the list, and no others.
fn pass(
    entries: &[LaneEntry],
    head: u32,
    time: u32,
    passed: &mut Vec<u32>,
) -> Result<(), AllocError>
    requires { HasList entries.now head }
    ensures { OnOk result (ArePassed entries.now head time passed.new.items) }
{
    passed.clear();
    let mut index = head;
    while entries[index as usize].departure < time {
        passed.push(index)?;
        index = entries[index as usize].next;
    }
    Ok(())
}

// Adds an entry, and returns its index. Past 2^32 entries it fails, as if memory had run out.
#[inline(always)]
fn push(entries: &mut Vec<LaneEntry>, entry: LaneEntry) -> Result<u32, AllocError>
    ensures { MatchResult result (IsPushed entries.old.items entry entries.new.items) (λ _. HasNoRoom entries.old) }
{
    let index = entries.len();
    if index > u32::MAX as usize {
        return Err(AllocError);
    }
    entries.push(entry)?;
    Ok(index as u32)
}

/// Puts an entry before the list that begins at `after`, for passengers who board a trip with these lanes. Lane k, with
/// the ride, has the tag `first + k`. Returns the index of the entry.
#[inline(always)]
pub fn put(
    entries: &mut Vec<LaneEntry>,
    after: u32,
    departure: u32,
    lanes: &Lanes,
    first: u32,
) -> Result<u32, AllocError>
    requires may { MayPut entries.old.items after departure }
    requires lanes { AreTagged lanes.now }
    requires tags { first + 7 ≤ 4294967295 }
    ensures { MatchResult result (IsOnePut entries.old.items after departure lanes.now first entries.new.items)
        (λ _. HasNoRoom entries.old) }
{
    let behind = entries[after as usize];
    let entry = LaneEntry {
        departure,
        next: after,
        front: Words {
            times: boarded(&lanes.times, &behind.front.times),
        },
        tags: boarded_tags(&lanes.times, &behind.front.times, &behind.tags, first),
    };
    push(entries, entry)
}

// Before the list that begins at `index`, puts what entry `from` has and that list's first front doesn't better; if
// there is nothing, the list stays. That list must cover the entries after `from`. Returns the head of the list that
// has both.
#[inline(always)]
fn join_one(entries: &mut Vec<LaneEntry>, from: u32, index: u32) -> Result<u32, AllocError>
    requires { MayJoin entries.old.items from index }
    ensures { MatchResult result (IsOneJoined entries.old.items from index entries.new.items)
        (λ _. HasNoRoom entries.old) }
{
    let old = entries[from as usize];
    let behind = entries[index as usize];
    if !are_adding(&old.front.times, &behind.front.times) {
        return Ok(index);
    }
    let entry = LaneEntry {
        departure: old.departure,
        next: index,
        front: Words {
            times: least_words(&old.front.times, &behind.front.times),
        },
        tags: least_tags(
            &old.front.times,
            &old.tags,
            &behind.front.times,
            &behind.tags,
        ),
    };
    push(entries, entry)
}

/// Before the list that begins at `index`, puts what remains of the entries from `head` on that depart before a time,
/// from the last to the first. Returns the head of the list that has all of it. It is rare, so it is a call and never
/// inlined.
#[inline(never)]
pub fn join(
    entries: &mut Vec<LaneEntry>,
    passed: &mut Vec<u32>,
    head: u32,
    time: u32,
    index: u32,
) -> Result<u32, AllocError>
    requires { MayJoinAll entries.old.items head time index }
    ensures { IfOk result (AreJoined entries.old.items head index entries.new.items) }
{
    pass(entries, head, time, passed)?;
    let mut new = index;
    while let Some(from) = passed.pop() {
        new = join_one(entries, from, new)?;
    }
    Ok(new)
}
