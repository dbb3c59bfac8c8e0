//! Tables with one row for each record; some of them have keys.

ghost use Rattle.std.specs.Prelude.{◌≡◌, ◌≢◌, ◌++◌, ◌∷◌, List, [], map, None, Some, IfOk, IfErr, OnOk, ⊤, true, false};
ghost use Rattle.std.specs.List.{AllZip, list_any};
ghost use Rattle.std.specs.String.{string_bytes};
ghost use Rattle.csv.specs.Records.{AllText};
ghost use Rattle.indexmap.specs.IndexSet.{hasher_of};
ghost use Rattle.std.specs.Str.{bytes_eq};
ghost use Rattle.gtfs_rows.specs.Source.{Record, last_of};
ghost use Rattle.gtfs_rows.specs.Cells.{ColumnIndices};
ghost use Rattle.gtfs_rows.specs.Tables.{HoldsRows, IsFaultOf, IsRefusal, AreKept, key_fault, values_of, key_of};
ghost use Rattle.gtfs_rows.specs.declared.fault.Table.{Table as File};

use crate::columns::Key;
use crate::fault::{FaultKind, Table, TableFault};
use crate::id_hash::IdHash;
use crate::ids::{Ids, add_key};
use crate::reader::{TableFile, TableRows, add_row, read_table};
use crate::records::Records;
use indexmap::IndexSet;
use std::alloc::Global;

/// A row of a table.
pub trait Row: Sized + Drop {
    ghost TABLE: { File };
    // The row has the values that the record spells.
    ghost spells: { ColumnIndices → Record → Self → Type 0 };

    // The table to which the row belongs.
    const TABLE: Table;

    // Returns the row of the record that was read last, or what is wrong with the record's values.
    fn read(alloc: Global, records: &Records<'_>) -> Result<Self, FaultKind>
        requires { AllText (last_of records.now) }
        ensures ok { IfOk result (λ row. (values_of TABLE records.now.indices.items (last_of records.now)
            ≡ None) × spells records.now.indices.items (last_of records.now) row) }
        ensures err { IfErr result (λ kind. kind ≢ FaultKind.OutOfMemory
            → values_of TABLE records.now.indices.items (last_of records.now) ≡ Some kind) };
}

// Keeps a record's text: `IdTwice` if an earlier record has it.
fn keep_new(kept: &mut Ids, text: String) -> Result<(), FaultKind>
    ensures ok { OnOk result ((list_any (bytes_eq (string_bytes text)) (map string_bytes kept.old.keys) ≡ false)
        × (map string_bytes kept.new.keys ≡ map string_bytes kept.old.keys ++ string_bytes text ∷ [])) }
    ensures err { IfErr result (λ kind. kind ≢ FaultKind.OutOfMemory → (kind ≡ FaultKind.IdTwice)
        × (list_any (bytes_eq (string_bytes text)) (map string_bytes kept.old.keys) ≡ true)) }
    ensures hash { OnOk result (hasher_of kept.new ≡ hasher_of kept.old) }
{
    match add_key(kept, text)? {
        (_, true) => Ok(()),
        (_, false) => Err(FaultKind::IdTwice),
    }
}

// Keeps a record's key, or the text that all records share, or returns what is wrong with it: `ZonesDiffer` if its
// text isn't that of the first record.
#[tactic(auto, using(crate::proofs::KeyLemmas::shared_more, crate::proofs::KeyLemmas::texts_more))]
fn keep(alloc: Global, kept: &mut Ids, key: Key, records: &Records<'_>) -> Result<(), FaultKind>
    requires { AllText (last_of records.now) }
    ensures ok { (before : List Record) → AreKept key records.now.indices.items before kept.old.keys → OnOk result
        ((key_fault key records.now.indices.items before (last_of records.now) ≡ None)
        × AreKept key records.now.indices.items (before ++ last_of records.now ∷ []) kept.new.keys) }
    ensures err { (before : List Record) → AreKept key records.now.indices.items before kept.old.keys
        → IfErr result (λ kind. kind ≢ FaultKind.OutOfMemory
        → key_fault key records.now.indices.items before (last_of records.now) ≡ Some kind) }
    ensures hash { OnOk result (hasher_of kept.new ≡ hasher_of kept.old) }
{
    match key {
        Key::Nothing => Ok(()),
        Key::Column(column) => keep_new(kept, records.owned_text(alloc, column)?),
        Key::Columns(first, second) => {
            let mut text = records.owned_text(alloc, first)?;
            text.push_str(records.text(second))
                .map_err(|_| FaultKind::OutOfMemory)?;
            keep_new(kept, text)
        }
        Key::Shared(column) => {
            add_key(kept, records.owned_text(alloc, column)?)?;
            if kept.len() > 1 {
                return Err(FaultKind::ZonesDiffer);
            }
            Ok(())
        }
    }
}

// Rows with their keys, or with the text that they share.
#[derive(Drop)]
struct KeyedRows<R> {
    rows: Vec<R>,
    kept: Ids,
}

impl<R: Row> TableRows for KeyedRows<R> {
    ghost TABLE = { R.TABLE };

    ghost holds = { λ indices records t. AllZip (R.spells indices) records t.rows.items
        × AreKept (key_of R.TABLE) indices records t.kept.keys };

    ghost hashes = { λ t. hasher_of t.kept ∷ [] };

    const TABLE: Table = R::TABLE;

    fn add(&mut self, alloc: Global, records: &Records<'_>) -> Result<(), FaultKind> {
        let row = R::read(alloc, records)?;
        keep(alloc, &mut self.kept, R::TABLE.key(), records)?;
        add_row(&mut self.rows, row)
    }
}

// Returns the rows of a file with their keys, which are looked up by the hash, or the first fault of the file.
fn keyed_rows<R: Row>(alloc: Global, hash: IdHash, bytes: &[u8]) -> Result<KeyedRows<R>, TableFault>
    ensures ok { IfOk result (λ keyed. HoldsRows R.TABLE R.spells bytes.now keyed.rows.items) }
    ensures hash { IfOk result (λ keyed. hasher_of keyed.kept ≡ hash) }
    ensures err { IfErr result (IsRefusal R.TABLE bytes.now) }
{
    let keyed = KeyedRows {
        rows: Vec::new(alloc),
        kept: IndexSet::with_hasher(alloc, hash),
    };
    read_table(keyed, alloc, bytes)
}

impl<R: Row> TableFile for Vec<R> {
    ghost TABLE = { R.TABLE };

    ghost holds = { λ bytes rows. HoldsRows R.TABLE R.spells bytes rows.items };

    ghost tells = { IsFaultOf R.TABLE };

    ghost is_hashed = { λ hash rows. ⊤ };

    const TABLE: Table = R::TABLE;

    fn read(alloc: Global, hash: IdHash, bytes: &[u8]) -> Result<Vec<R>, TableFault> {
        keyed_rows(alloc, hash, bytes).map(|keyed| keyed.rows)
    }
}
