//! Random tables: their records are those that the crate `csv` reads from the same bytes.

use super::texts::fault_text;
use csv::{ByteRecord, Reader, ReaderBuilder};
use gtfs_rows::{TableFault, TransferRow};
use gtfs_tables::read_transfers;
use std::alloc::{AllocError, Global};
use std::fmt::Write;
use std::process::Abort;
use std::test::Fail;

const TABLES: u32 = 300;

// The pieces that a table is made of after its header.
const PIECES: [&str; 16] = [
    "A",
    "B",
    "two words",
    " ",
    ",",
    ",",
    ",",
    "\n",
    "\r",
    "\r\n",
    "\"",
    "\"",
    "\"\"",
    "é",
    "\u{FEFF}",
    "12:00:00",
];

// The headers, each of which has both required columns.
const HEADERS: [&str; 8] = [
    "from_stop_id,to_stop_id\n",
    "from_stop_id,to_stop_id,x\r\n",
    "\r\n\nfrom_stop_id,to_stop_id\r",
    "\u{FEFF}from_stop_id,to_stop_id\n",
    "\u{FEFF}\"from_stop_id\",\"to_stop_id\"\n",
    "\"from_stop_id\" ,to_stop_id,\"x\"\"\n,y\"\n",
    "\"from_\"stop_id,to_stop_id\r\r\n",
    " from_stop_id , to_stop_id ,,\n",
];

#[derive(Drop)]
struct Draws(u64);

impl Draws {
    // The next number, of 31 bits.
    fn next(&mut self) -> usize {
        self.0 = self.0.wrapping_mul(6_364_136_223_846_793_005);
        self.0 = self.0.wrapping_add(1_442_695_040_888_963_407);
        (self.0 >> 33) as usize
    }

    // A table of up to 40 pieces.
    fn table(&mut self, alloc: Global) -> Result<String, AllocError> {
        let mut text = String::from_str(alloc, HEADERS[self.next() % 8])?;
        for _ in 0..self.next() % 40 {
            text.push_str(PIECES[self.next() % 16])?;
        }
        Ok(text)
    }
}

// Adds a field without the spaces at its ends, in brackets.
fn add_field(text: &mut String, field: &str) -> Result<(), AllocError> {
    write!(text, "[{}]", field.trim_matches(' '))
}

// The text of a field, blank if there is no such field.
fn field(record: &ByteRecord, index: usize) -> &str {
    match record.get(index) {
        Some(bytes) => str::from_utf8(bytes).unwrap_or("no text"),
        None => "",
    }
}

// Reads the next record, if there is one.
fn take(reader: &mut Reader<&[u8]>, record: &mut ByteRecord) -> Result<bool, Fail> {
    match reader.read_byte_record(record) {
        Ok(found) => Ok(found),
        Err(_) => Err(Fail::new("a record that can't be read")),
    }
}

// Adds the first two fields of each record after the header. Returns the number of the first record of another length.
fn add_records(
    reader: &mut Reader<&[u8]>,
    record: &mut ByteRecord,
    text: &mut String,
) -> Result<Option<u32>, Fail> {
    take(reader, record)?;
    let width = record.len();
    for row in 1..1_000 {
        if !take(reader, record)? {
            break;
        }
        if record.len() != width {
            return Ok(Some(row));
        }
        add_field(text, field(record, 0))?;
        add_field(text, field(record, 1))?;
    }
    Ok(None)
}

// The first two fields of each record after the header, as `csv` reads them, or the first record of another length.
fn report_by_csv(alloc: Global, bytes: &[u8]) -> Result<String, Fail> {
    let mut reader = ReaderBuilder::new()
        .has_headers(false)
        .flexible(true)
        .from_reader(alloc, bytes);
    let mut record = ByteRecord::new(alloc);
    let mut text = String::new(alloc);
    match add_records(&mut reader, &mut record, &mut text)? {
        None => Ok(text),
        Some(row) => Ok(format!(in alloc; "4 RowLength transfers.txt {row}")?),
    }
}

// The same, as `gtfs_rows` reads them.
fn reported(
    alloc: Global,
    answer: Result<Vec<TransferRow>, TableFault>,
) -> Result<String, AllocError> {
    let mut text = String::new(alloc);
    match answer {
        Ok(rows) => {
            for row in &rows {
                add_field(&mut text, &row.from)?;
                add_field(&mut text, &row.to)?;
            }
            Ok(text)
        }
        Err(fault) => fault_text(alloc, fault),
    }
}

fn try_table(rt: &impl Abort, alloc: Global, table: &str) -> Result<(), Fail> {
    let wanted = report_by_csv(alloc, table.as_bytes())?;
    let given = reported(alloc, read_transfers(alloc, table.as_bytes()))?;
    assert_eq!(rt; given.as_str(), wanted.as_str(), "{table}");
    Ok(())
}

#[test]
fn tables_are_read_as_csv_reads_them(rt: HostRuntime) -> Result<(), Fail> {
    let alloc = rt.alloc();
    let mut draws = Draws(7);
    for _table in 0..TABLES {
        try_table(&rt, alloc, draws.table(alloc)?.as_str())?;
    }
    Ok(())
}
