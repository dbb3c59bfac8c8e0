//! A name that a list has twice.

ghost use Rattle.std.specs.Prelude.{◌≡◌, ℕ, List, Some, IfOk, OnOk, map};
ghost use Rattle.std.specs.Prelude.{if◌then◌else◌};
ghost use Rattle.std.specs.Str.{bytes_eq};
ghost use Rattle.matrix_rows.specs.Repeated.{AreTheRepeated, first_index_at};

use std::alloc::{AllocError, Global};
use std::collections::BTreeMap;

/// The names of a list's first lines, each with the index of its line. This is a tree and not a hash table, since a
/// feed could choose its stop_ids so that their hashes collide.
type FirstIndices<'a> = BTreeMap<&'a str, usize>;

/// The index of the first line that has the name of an earlier one, after that of the earlier one.
pub(crate) fn named_twice(
    alloc: Global,
    listed: &[&str],
) -> Result<Option<(usize, usize)>, AllocError>
    ensures { IfOk result (AreTheRepeated (map (λ name. name.now) listed.now)) }
{
    let mut list_indices = BTreeMap::new(alloc);
    for index in 0..listed.len() {
        let name = listed[index];
        if let Some(first) = first_index_of(&list_indices, name) {
            return Ok(Some((first, index)));
        }
        add_index(&mut list_indices, name, index)?;
    }
    Ok(None)
}

fn first_index_of(list_indices: &FirstIndices<'_>, name: &str) -> Option<usize>
    ensures { result ≡ first_index_at list_indices.now name.now }
{
    match list_indices.get(name) {
        Some(list_index) => Some(*list_index),
        None => None,
    }
}

fn add_index<'a>(
    list_indices: &mut FirstIndices<'a>,
    name: &'a str,
    list_index: usize,
) -> Result<(), AllocError>
    ensures { OnOk result ((q : List ℕ) → first_index_at list_indices.new q
        ≡ (if bytes_eq name.now q then Some list_index else first_index_at list_indices.old q)) }
{
    list_indices.insert(name, list_index)?;
    Ok(())
}
