//! Sets of ids, in the order in which they were first seen.

ghost use Rattle.std.specs.Prelude.{◌≡◌, map, not, IfErr, IfOk, IfSome, OnOk};
ghost use Rattle.std.specs.String.{string_bytes};
ghost use Rattle.std.specs.List.{list_any};
ghost use Rattle.std.specs.Str.{bytes_eq};
ghost use Rattle.indexmap.specs.IndexSet.{hasher_of};
ghost use Rattle.gtfs_rows.specs.Ids.{seen_also, StandsAt};

use crate::fault::FaultKind;
use crate::id_hash::IdHash;
use indexmap::IndexSet;
use std::alloc::Global;

// Distinct texts, in the order in which they were added.
pub(crate) type Ids = IndexSet<String, IdHash>;

// Returns the index of a key, and whether it is new; it is added at the end then. Memory may run out.
#[tactic(auto, using(crate::proofs::KeyLemmas::insertion))]
pub(crate) fn add_key(keys: &mut Ids, key: String) -> Result<(usize, bool), FaultKind>
    ensures more { OnOk result (map string_bytes keys.new.keys
        ≡ seen_also (map string_bytes keys.old.keys) (string_bytes key)) }
    ensures new { IfOk result (λ added. added.1 ≡ not (list_any (bytes_eq (string_bytes key))
        (map string_bytes keys.old.keys))) }
    ensures index { IfOk result (λ added. StandsAt (map string_bytes keys.new.keys) added.0 (string_bytes key)) }
    ensures err { IfErr result (λ kind. kind ≡ FaultKind.OutOfMemory) }
    ensures hash { OnOk result (hasher_of keys.new ≡ hasher_of keys.old) }
{
    keys.insert_full(key).map_err(|_| FaultKind::OutOfMemory)
}

// Returns the index of an id, which is added at the end if it isn't there yet. The likely index is tried first.
// Memory may run out.
#[inline(always)]
#[tactic(auto, using(crate::proofs::KeyLemmas::stands_among))]
pub(crate) fn index_of(
    alloc: Global,
    ids: &mut Ids,
    likely: Option<u32>,
    id: &str,
) -> Result<u32, FaultKind>
    ensures more { OnOk result (map string_bytes ids.new.keys ≡ seen_also (map string_bytes ids.old.keys) id.now) }
    ensures ok { IfOk result (λ index. StandsAt (map string_bytes ids.new.keys) index id.now) }
    ensures err { IfErr result (λ kind. kind ≡ FaultKind.OutOfMemory) }
    ensures hash { OnOk result (hasher_of ids.new ≡ hasher_of ids.old) }
{
    if let Some(index) = id_at(ids, likely, id) {
        return Ok(index);
    }
    looked_up(alloc, ids, id)
}

// Returns the index of an id, which is added at the end if it isn't there yet. Memory may run out. This is never
// inlined, so that a likely index costs no more than its comparison.
#[inline(never)]
#[tactic(auto, using(crate::proofs::KeyLemmas::stands_among))]
fn looked_up(alloc: Global, ids: &mut Ids, id: &str) -> Result<u32, FaultKind>
    ensures more { OnOk result (map string_bytes ids.new.keys ≡ seen_also (map string_bytes ids.old.keys) id.now) }
    ensures ok { IfOk result (λ index. StandsAt (map string_bytes ids.new.keys) index id.now) }
    ensures err { IfErr result (λ kind. kind ≡ FaultKind.OutOfMemory) }
    ensures hash { OnOk result (hasher_of ids.new ≡ hasher_of ids.old) }
{
    if let Some(index) = find_id(ids, id) {
        return as_index(index);
    }
    let owned = String::from_str(alloc, id).map_err(|_| FaultKind::OutOfMemory)?;
    as_index(add_key(ids, owned)?.0)
}

// Returns the given index if the id is there.
#[inline(always)]
#[tactic(auto, using(crate::proofs::KeyLemmas::stands))]
fn id_at(ids: &Ids, index: Option<u32>, id: &str) -> Option<u32>
    ensures { IfSome result (λ index. StandsAt (map string_bytes ids.now.keys) index id.now) }
{
    let index = index?;
    let there = ids.get_index(index as usize)?;
    (id == there.as_str()).then_some(index)
}

// Returns the index of an id, if the set has it.
#[tactic(auto, using(crate::proofs::KeyLemmas::stands, crate::proofs::KeyLemmas::find_passes))]
fn find_id(ids: &Ids, id: &str) -> Option<usize>
    ensures { IfSome result (λ index. StandsAt (map string_bytes ids.now.keys) index id.now) }
{
    let (index, _) = ids.get_full(id)?;
    Some(index)
}

// Returns an index as rows keep it: `OutOfMemory` if it has more than 32 bits.
fn as_index(index: usize) -> Result<u32, FaultKind>
    ensures ok { IfOk result (λ n. n ≡ index) }
    ensures err { IfErr result (λ kind. kind ≡ FaultKind.OutOfMemory) }
{
    u32::try_from(index).map_err(|_| FaultKind::OutOfMemory)
}
