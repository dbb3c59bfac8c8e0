//! The stops of each row by which some are listed.

ghost use Rattle.std.specs.Prelude.{◌≡◌, [], ℕ, length, IfOk, OnOk, Some};
ghost use Rattle.std.specs.Global.{Vec};
ghost use Rattle.std.specs.List.{slice_get};
ghost use Rattle.feed_stations.specs.Grouping.{AreGroups, IsPutInto};

use std::alloc::{AllocError, Global};

/// For each of `count` rows the indices of the rows that are listed by it, in order.
pub(crate) fn grouped(
    alloc: Global,
    homes: &[Option<usize>],
    count: usize,
) -> Result<Vec<Vec<usize>>, AllocError>
    ensures { IfOk result (λ groups. AreGroups homes.now count groups.items) }
{
    let mut groups = empty_lists(alloc, count)?;
    for row_index in 0..homes.len() {
        if let Some(home) = homes[row_index] {
            put_into(&mut groups, home, row_index)?;
        }
    }
    Ok(groups)
}

fn empty_lists(alloc: Global, count: usize) -> Result<Vec<Vec<usize>>, AllocError>
    ensures count { IfOk result (λ lists. length lists.items ≡ count) }
    ensures empty { IfOk result (λ lists. (k : ℕ) (list : Vec ℕ) → slice_get lists.items k ≡ Some list
        → list.items ≡ []) }
{
    let mut lists = Vec::with_capacity(alloc, count)?;
    for made in 0..count {
        lists.push(Vec::new(alloc))?;
    }
    Ok(lists)
}

// Adds a row to the end of a group, if there is that group.
fn put_into(groups: &mut Vec<Vec<usize>>, home: usize, stop: usize) -> Result<(), AllocError>
    ensures { OnOk result (IsPutInto home stop groups.old.items groups.new.items) }
{
    if home < groups.len() {
        groups[home].push(stop)?;
    }
    Ok(())
}
