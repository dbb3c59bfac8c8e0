//! The columns of a table, and the values that a record has in them.

ghost use Rattle.std.specs.Prelude.{◌≡◌, ◌≤◌, length, map, IfOk};
ghost use Rattle.std.specs.Str.{is_utf8};
ghost use Rattle.csv.specs.Records.{fields_of};
ghost use Rattle.gtfs_rows.specs.Cells.{cell as cell_of, column as column_of, has_required as are_there, indices_of};
ghost use Rattle.gtfs_rows.specs.Cells.{trim_back, trim_front};

use csv::ByteRecord;
use std::alloc::{AllocError, Global};

/// The index of a column in the header, if the header has it.
pub type ColumnIndex = Option<usize>;

// Returns the text without the spaces at its start.
fn trim_start(mut text: &[u8]) -> &[u8]
    ensures { result.now ≡ trim_front text.entry.now }
{
    while let [b' ', rest @ ..] = text {
        text = rest;
    }
    text
}

// Returns the text without the spaces at its end.
fn trim_end(mut text: &[u8]) -> &[u8]
    ensures { result.now ≡ trim_back text.entry.now }
{
    while let [rest @ .., b' '] = text {
        text = rest;
    }
    text
}

/// Returns a record's value in the column of an index, without spaces around it; blank if the column is absent.
pub fn cell<'a>(fields: &'a ByteRecord, index: ColumnIndex) -> &'a [u8]
    ensures { result.now ≡ cell_of index (fields_of fields.entry.now) }
{
    let Some(index) = index else {
        return &[];
    };
    match fields.get(index) {
        Some(field) => trim_end(trim_start(field)),
        None => &[],
    }
}

/// Returns the index of the first column with this name, if the header has one.
#[tactic(auto, using(reasoning::proofs::FirstLemmas::searches))]
pub fn column(header: &ByteRecord, name: &[u8]) -> ColumnIndex
    ensures { result ≡ column_of name.now (fields_of header.now) }
{
    for index in 0..header.len() {
        if name == cell(header, Some(index)) {
            return Some(index);
        }
    }
    None
}

// Returns the index of each named column in the header.
#[tactic(auto, using(crate::proofs::CellLemmas::indices_taken))]
pub(crate) fn indices(
    alloc: Global,
    header: &ByteRecord,
    names: &[&str],
) -> Result<Vec<ColumnIndex>, AllocError>
    ensures { IfOk result (λ v. v.items ≡ indices_of (map (λ name. name.now) names.now) (fields_of header.now)) }
{
    let mut indices = Vec::with_capacity(alloc, names.len())?;
    for name in names {
        indices.push(column(header, name.as_bytes()))?;
    }
    Ok(indices)
}

// Returns whether all required columns, which come first, are there.
pub(crate) fn has_required(indices: &[ColumnIndex], required: usize) -> bool
    requires { required ≤ length indices.now }
    ensures { result ≡ are_there required indices.now }
{
    indices[..required].iter().all(|index| index.is_some())
}

// Returns whether the bytes are UTF-8.
#[tactic(auto, using(crate::proofs::CellLemmas::is_text))]
pub(crate) fn is_text(bytes: &[u8]) -> bool
    ensures { result ≡ is_utf8 bytes.now }
{
    str::from_utf8(bytes).is_ok()
}
