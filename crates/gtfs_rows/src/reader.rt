//! Reads any file: its header, then record by record until the first fault.

ghost use Rattle.std.specs.Prelude.{◌≡◌, ◌≢◌, ◌+◌, ◌++◌, ◌∷◌, [], ℕ, List, Some, None, IfOk, IfErr, OnOk};
ghost use Rattle.csv.specs.Records.{AllText};
ghost use Rattle.gtfs_rows.specs.Faults.{first_fault};
ghost use Rattle.gtfs_rows.specs.Source.{AllRecordsText, IsReading, Record, last_of, left_of};
ghost use Rattle.gtfs_rows.specs.Cells.{ColumnIndices};
ghost use Rattle.gtfs_rows.specs.Tables.{HoldsFile, IsRefusal, judge_by, judge_of};
ghost use Rattle.gtfs_rows.specs.declared.fault.FaultKind.{FaultKind as Kind};
ghost use Rattle.gtfs_rows.specs.declared.fault.Table.{Table as File};
ghost use Rattle.gtfs_rows.specs.declared.id_hash.IdHash.{IdHash as Hash};

use crate::fault::{FaultKind, Table, TableFault};
use crate::id_hash::IdHash;
use crate::records::Records;
use std::alloc::Global;

/// The rows of one of the files.
pub trait TableFile: Sized + Drop {
    ghost TABLE: { File };
    // The rows are those of the bytes.
    ghost holds: { List ℕ → Self → Type 0 };
    // The bytes have this fault at the record of this number.
    ghost tells: { List ℕ → ℕ → Kind → Type 0 };
    // The ids that the rows keep are looked up by the hash.
    ghost is_hashed: { Hash → Self → Type 0 };

    /// Which file it is.
    const TABLE: Table;

    /// Returns the rows of the file's bytes, or their first fault. Ids are looked up by the hash.
    fn read(alloc: Global, hash: IdHash, bytes: &[u8]) -> Result<Self, TableFault>
        ensures ok { IfOk result (λ rows. holds bytes.now rows) }
        ensures hashed { IfOk result (λ rows. is_hashed hash rows) }
        ensures file { IfErr result (λ fault. fault.file ≡ TABLE) }
        ensures err { IfErr result (λ fault. fault.kind ≢ FaultKind.OutOfMemory
            → tells bytes.now fault.row fault.kind) };
}

// The rows of a table that were read so far.
pub(crate) trait TableRows: Sized + Drop {
    ghost TABLE: { File };
    // The rows are those of the records.
    ghost holds: { ColumnIndices → List Record → Self → Type 0 };
    // The hashes by which the table's ids are looked up.
    ghost hashes: { Self → List Hash };

    // Which table it is.
    const TABLE: Table;

    // Adds the record that was read last, or returns what is wrong with it.
    fn add(&mut self, alloc: Global, records: &Records<'_>) -> Result<(), FaultKind>
        requires { AllText (last_of records.now) }
        ensures ok { (before : List Record) → holds records.now.indices.items before self.old → OnOk result
            ((judge_of TABLE records.now.indices.items before (last_of records.now) ≡ None)
            × holds records.now.indices.items (before ++ last_of records.now ∷ []) self.new) }
        ensures err { (before : List Record) → holds records.now.indices.items before self.old
            → IfErr result (λ kind. kind ≢ FaultKind.OutOfMemory
            → judge_of TABLE records.now.indices.items before (last_of records.now) ≡ Some kind) }
        ensures hashes { OnOk result (hashes self.new ≡ hashes self.old) };
}

// Adds a row at the end. Memory may run out.
pub(crate) fn add_row<R: Drop>(rows: &mut Vec<R>, row: R) -> Result<(), FaultKind>
    ensures ok { OnOk result (rows.new.items ≡ rows.old.items ++ row ∷ []) }
    ensures err { IfErr result (λ kind. kind ≡ FaultKind.OutOfMemory) }
{
    rows.push(row).map_err(|_| FaultKind::OutOfMemory)
}

// Adds the record that was read last, or returns what is wrong with it: first `RowLength` if it hasn't as many fields
// as the header.
fn add_record<T: TableRows>(
    rows: &mut T,
    alloc: Global,
    records: &Records<'_>,
) -> Result<(), FaultKind>
    requires { AllText (last_of records.now) }
    ensures ok { (before : List Record) → T.holds records.now.indices.items before rows.old → OnOk result
        ((judge_by T.TABLE records.now before (last_of records.now) ≡ None)
        × T.holds records.now.indices.items (before ++ last_of records.now ∷ []) rows.new) }
    ensures err { (before : List Record) → T.holds records.now.indices.items before rows.old
        → IfErr result (λ kind. kind ≢ FaultKind.OutOfMemory
        → judge_by T.TABLE records.now before (last_of records.now) ≡ Some kind) }
    ensures hashes { OnOk result (T.hashes rows.new ≡ T.hashes rows.old) }
{
    if records.last().len() != records.width() {
        return Err(FaultKind::RowLength);
    }
    rows.add(alloc, records)
}

// Adds the records that are left, or returns their first fault.
fn add_records<T: TableRows>(
    mut rows: T,
    alloc: Global,
    records: &mut Records<'_>,
) -> Result<T, TableFault>
    requires reading { IsReading records.old }
    requires text { AllRecordsText (left_of records.old) }
    requires starts { T.holds records.old.indices.items [] rows }
    ensures ok { IfOk result (λ t. (first_fault (judge_by T.TABLE records.old) [] (left_of records.old) ≡ None)
        × T.holds records.old.indices.items (left_of records.old) t) }
    ensures err { IfErr result (λ fault. (fault.file ≡ T.TABLE) × (fault.kind ≢ FaultKind.OutOfMemory
        → first_fault (judge_by T.TABLE records.old) [] (left_of records.old) ≡ Some (fault.row, fault.kind))) }
    ensures hashes { IfOk result (λ t. T.hashes t ≡ T.hashes rows) }
{
    for taken in 0..u64::MAX {
        match records.advance() {
            Err(_) => return Err(T::TABLE.fault(0, FaultKind::OutOfMemory)),
            Ok(false) => return Ok(rows),
            Ok(true) => {}
        }
        if let Err(kind) = add_record(&mut rows, alloc, records) {
            return Err(T::TABLE.fault(taken + 1, kind));
        }
    }
    Err(T::TABLE.fault(0, FaultKind::OutOfMemory))
}

// Returns the rows of a file, or its first fault: the whole file must be UTF-8, then the required columns must be
// there, then the records are added in order.
pub(crate) fn read_table<T: TableRows>(
    rows: T,
    alloc: Global,
    bytes: &[u8],
) -> Result<T, TableFault>
    requires { (indices : ColumnIndices) → T.holds indices [] rows }
    ensures ok { IfOk result (λ t. HoldsFile T.TABLE T.holds bytes.now t) }
    ensures err { IfErr result (IsRefusal T.TABLE bytes.now) }
    ensures hashes { IfOk result (λ t. T.hashes t ≡ T.hashes rows) }
{
    match Records::of_table(alloc, T::TABLE, bytes) {
        Err(kind) => Err(T::TABLE.fault(0, kind)),
        Ok(mut records) => add_records(rows, alloc, &mut records),
    }
}
