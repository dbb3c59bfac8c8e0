//! What a rider reads of a stop: its name, and the code of its platform.

ghost use Rattle.std.specs.Prelude.{◌≡◌, IfOk, string_bytes};
ghost use Rattle.std.specs.List.{AllZip};
ghost use Rattle.csv.specs.Records.{fields_of};
ghost use Rattle.gtfs_rows.specs.Source.{IsReading, left_of};
ghost use Rattle.feed_stations.specs.Labels.{AreLabels, IsStopLabel, IsTextOf, name_column, platform_column};

use csv::ByteRecord;
use gtfs_rows::{Records, cell, column};
use std::alloc::{AllocError, Global};

/// What a rider reads of a row of `stops.txt`.
#[derive(Drop)]
pub struct StopLabel {
    /// The stop_name.
    pub name: String,
    /// The platform_code.
    pub platform: String,
}

/// The columns of a header that have labels, if it has them.
#[derive(Clone, Copy)]
struct LabelColumns {
    name: Option<usize>,
    platform: Option<usize>,
}

fn columns_of(header: &ByteRecord) -> LabelColumns
    ensures name { result.name ≡ name_column (fields_of header.now) }
    ensures platform { result.platform ≡ platform_column (fields_of header.now) }
{
    LabelColumns {
        name: column(header, "stop_name".as_bytes()),
        platform: column(header, "platform_code".as_bytes()),
    }
}

/// The label of each record of the bytes of `stops.txt`, in order. Without its column, a name or a code is blank.
pub fn labels_in(alloc: Global, bytes: &[u8]) -> Result<Vec<StopLabel>, AllocError>
    ensures { IfOk result (λ labels. AreLabels bytes.now labels.items) }
{
    let mut records = Records::open(alloc, bytes);
    let found = records.advance()?;
    if !found {
        return Ok(Vec::new(alloc));
    }
    let columns = columns_of(records.last());
    labels_left(alloc, &mut records, columns)
}

// The labels of the records that are left.
fn labels_left(
    alloc: Global,
    records: &mut Records<'_>,
    columns: LabelColumns,
) -> Result<Vec<StopLabel>, AllocError>
    requires { IsReading records.old }
    ensures { IfOk result (λ labels. AllZip (IsStopLabel columns.name columns.platform) (left_of records.old)
        labels.items) }
{
    let mut labels = Vec::new(alloc);
    for taken in 0..u64::MAX {
        let found = records.advance()?;
        if !found {
            return Ok(labels);
        }
        let label = label_of(alloc, records.last(), columns)?;
        labels.push(label)?;
    }
    Err(AllocError)
}

fn label_of(
    alloc: Global,
    line: &ByteRecord,
    columns: LabelColumns,
) -> Result<StopLabel, AllocError>
    ensures { IfOk result (IsStopLabel columns.name columns.platform (fields_of line.now)) }
{
    let name = text_of(alloc, cell(line, columns.name))?;
    let platform = text_of(alloc, cell(line, columns.platform))?;
    Ok(StopLabel { name, platform })
}

// The text of bytes; blank if they aren't UTF-8, which those of a file whose rows were read are.
fn text_of(alloc: Global, bytes: &[u8]) -> Result<String, AllocError>
    ensures { IfOk result (λ text. IsTextOf bytes.now (string_bytes text)) }
{
    match str::from_utf8(bytes) {
        Ok(text) => String::from_str(alloc, text),
        Err(_) => Ok(String::new(alloc)),
    }
}
