//! Groups the indices of a list of keys by key.

ghost use Rattle.std.specs.Prelude.{◌≡◌, ◌≤◌, ◌++◌, List, Option, ℕ, length, map, slice_range, IfOk, OnOk};
ghost use Rattle.std.specs.List.Sorted.{IsNonDecreasing};
ghost use Rattle.transfers.specs.Groups.{AreGroups, AreMembers, IsGroup, member_of};

use std::alloc::{AllocError, Global};

// An index and its key.
#[derive(Clone, Copy, Debug, PartialEq, Eq)]
struct Member {
    key: u32,
    number: u32,
}

/// The indices of a list at which there is a key, grouped by key.
#[derive(Drop)]
pub(crate) struct Groups {
    /// The key at each of these indices, the lowest key first.
    pub keys: Vec<u32>,
    /// The indices, in the same order.
    pub numbers: Vec<u32>,
    ghost same_length: { length keys.items ≡ length numbers.items },
    ghost rising: { IsNonDecreasing keys.items },
}

// Adds an index if it has a key. An index that doesn't fit in 32 bits counts as memory that ran out.
fn add_member(members: &mut Vec<Member>, key: Option<u32>, number: usize) -> Result<(), AllocError>
    ensures { OnOk result (members.new.items ≡ members.old.items ++ member_of key number) }
{
    if let Some(key) = key {
        let Ok(number) = u32::try_from(number) else {
            return Err(AllocError);
        };
        members.push(Member { key, number })?;
    }
    Ok(())
}

// Returns the indices that have a key, in order.
fn members_of(alloc: Global, keys: &[Option<u32>]) -> Result<Vec<Member>, AllocError>
    ensures { IfOk result (λ v. AreMembers keys.now (length keys.now) v.items) }
{
    let mut members = Vec::new(alloc);
    for (number, key) in keys.iter().enumerate() {
        add_member(&mut members, *key, number)?;
    }
    Ok(members)
}

// Returns the keys of members, and their indices.
fn parts_of(alloc: Global, members: &[Member]) -> Result<(Vec<u32>, Vec<u32>), AllocError>
    ensures keys { IfOk result (λ parts. parts.0.items ≡ map (λ m. m.key) members.now) }
    ensures numbers { IfOk result (λ parts. parts.1.items ≡ map (λ m. m.number) members.now) }
{
    let mut keys = Vec::with_capacity(alloc, members.len())?;
    let mut numbers = Vec::with_capacity(alloc, members.len())?;
    for member in members {
        keys.push(member.key)?;
        numbers.push(member.number)?;
    }
    Ok((keys, numbers))
}

// Returns the numbers from `first` up to but not including `end`.
fn part(numbers: &[u32], first: usize, end: usize) -> &[u32]
    requires order { first ≤ end }
    requires inside { end ≤ length numbers.now }
    ensures { result.now ≡ slice_range numbers.now first end }
{
    &numbers[first..end]
}

impl Groups {
    /// Groups the indices that have a key. An index that doesn't fit in 32 bits counts as memory that ran out.
    pub fn new(alloc: Global, keys: &[Option<u32>]) -> Result<Groups, AllocError>
        ensures { IfOk result (λ g. AreGroups keys.now g.keys.items g.numbers.items) }
    {
        let mut members = members_of(alloc, keys)?;
        members.sort_by_key(|member| member.key)?;
        let (keys, numbers) = parts_of(alloc, &members)?;
        Ok(Groups { keys, numbers })
    }

    /// Returns the indices with this key.
    pub fn group(&self, key: u32) -> &[u32]
        ensures { (all : List (Option ℕ)) → AreGroups all self.now.keys.items self.now.numbers.items
            → IsGroup all key result.now }
    {
        let first = self.keys.partition_point(|other| *other < key);
        let end = self.keys.partition_point(|other| *other <= key);
        part(&self.numbers, first, end)
    }
}
