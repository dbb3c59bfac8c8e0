//! Reads the records of a file's bytes, one at a time, by the crate `csv`.

ghost use Rattle.std.specs.Prelude.{◌≡◌, ◌≢◌, ◌≤◌, ◌+◌, ◌-◌, ◌==◌, ◌∷◌, [], if◌then◌else◌, length, IfErr, IfOk};
ghost use Rattle.std.specs.Prelude.{MatchBool, MatchOption, None, OnOk, Some};
ghost use Rattle.std.specs.String.{string_bytes};
ghost use Rattle.csv.specs.Records.{AllText, fields_of};
ghost use Rattle.gtfs_rows.specs.Tables.{IsFaultOf, of_last, shown, values_of, IsOpened};
ghost use Rattle.gtfs_rows.specs.Positions.{line_at};
ghost use Rattle.gtfs_rows.specs.Source.{IsFound, IsReading, IsSame, last_of, left_of, table_records};

use crate::cells::{ColumnIndex, cell, has_required, indices, is_text};
use crate::fault::{FaultKind, Table};
use crate::position::{LineCount, Position};
use crate::rows::{dated, repeated, weekly};
use crate::stop_times::stop_time;
use csv::{ByteRecord, Reader, ReaderBuilder};
use std::alloc::{AllocError, Global};

/// The records of a file's bytes, the header first. One record is filled again and again.
#[derive(Drop)]
pub struct Records<'a> {
    reader: Reader<&'a [u8]>,
    record: ByteRecord,
    // how many records were read
    count: u64,
    lines: LineCount<'a>,
    // the index in the header of each column that was looked for there, and how many fields the header has
    indices: Vec<ColumnIndex>,
    width: usize,
}

impl<'a> Records<'a> {
    /// Returns the records of a file's bytes. A byte order mark at their start isn't part of the header.
    pub fn open(alloc: Global, bytes: &'a [u8]) -> Records<'a>
        ensures reading { IsReading result }
        ensures left { left_of result ≡ table_records bytes.entry.now }
        ensures count { result.count ≡ 0 }
        ensures lines { result.lines ≡ bytes.entry.now }
        ensures columns { result.indices.items ≡ [] }
        ensures width { result.width ≡ 0 }
    {
        let reader = ReaderBuilder::new()
            .has_headers(false)
            .flexible(true)
            .from_reader(alloc, bytes);
        Records {
            reader,
            record: ByteRecord::new(alloc),
            count: 0,
            lines: LineCount::new(bytes),
            indices: Vec::new(alloc),
            width: 0,
        }
    }

    /// Returns the records of a table's file behind its header, or what is wrong with the file as a whole: `BadUtf8`,
    /// or `MissingColumn` if the header isn't there or lacks a required column.
    pub fn of_table(alloc: Global, table: Table, bytes: &'a [u8]) -> Result<Records<'a>, FaultKind>
        ensures ok { IfOk result (IsOpened table bytes.entry.now) }
        ensures err { IfErr result (λ kind. kind ≢ FaultKind.OutOfMemory
            → IsFaultOf table bytes.entry.now 0 kind) }
    {
        if !is_text(bytes) {
            return Err(FaultKind::BadUtf8);
        }
        let mut records = Records::open(alloc, bytes);
        match records.advance() {
            Err(_) => return Err(FaultKind::OutOfMemory),
            Ok(false) => return Err(FaultKind::MissingColumn),
            Ok(true) => {}
        }
        let Ok(indices) = indices(alloc, &records.record, table.columns()) else {
            return Err(FaultKind::OutOfMemory);
        };
        if !has_required(&indices, table.required()) {
            return Err(FaultKind::MissingColumn);
        }
        records.indices = indices;
        records.width = records.record.len();
        Ok(records)
    }

    /// Reads the next record and returns true, or returns false if no record is left. Memory may run out; there are no
    /// further records then.
    pub fn advance(&mut self) -> Result<bool, AllocError>
        ensures reads { IsReading self.old → IfOk result (λ found. MatchBool found
            (left_of self.old ≡ last_of self.new ∷ left_of self.new) (left_of self.old ≡ [])) }
        ensures reading { IsReading self.old → OnOk result (IsReading self.new) }
        ensures count { IfOk result (λ found. MatchBool found (self.new.count ≡ self.old.count + 1)
            (self.new.count ≡ self.old.count)) }
        ensures same { IsSame self.old self.new }
    {
        let Ok(found) = self.reader.read_byte_record(&mut self.record) else {
            return Err(AllocError);
        };
        if !found {
            return Ok(false);
        }
        self.count = self.count.checked_add(1).ok_or(AllocError)?;
        Ok(true)
    }

    /// Returns the fields of the record that was read last.
    pub fn last(&self) -> &ByteRecord
        ensures { fields_of result.now ≡ last_of self.now }
    {
        &self.record
    }

    /// Returns how many fields the header has, or 0 if the records aren't those of a table.
    pub fn width(&self) -> usize
        ensures { result ≡ self.now.width }
    {
        self.width
    }

    /// Returns the last record's value in the column of this index among those that were looked for, without spaces
    /// around it; blank if the column is absent.
    pub fn get(&self, column: usize) -> &[u8]
        ensures { result.now ≡ shown self.now column }
    {
        cell(&self.record, self.indices.get(column).copied().flatten())
    }

    // Returns the same value as text. The whole file was found to be UTF-8, so a cell isn't checked again.
    pub(crate) fn text(&self, column: usize) -> &str
        requires { AllText (last_of self.now) }
        ensures { result.now ≡ shown self.now column }
    {
        unsafe { str::from_utf8_unchecked(self.get(column)) }
    }

    // Returns a copy of the same text.
    pub(crate) fn owned_text(&self, alloc: Global, column: usize) -> Result<String, FaultKind>
        requires { AllText (last_of self.now) }
        ensures ok { IfOk result (λ s. string_bytes s ≡ shown self.now column) }
        ensures err { IfErr result (λ kind. kind ≡ FaultKind.OutOfMemory) }
    {
        String::from_str(alloc, self.text(column)).map_err(|_| FaultKind::OutOfMemory)
    }

    /// Returns what is wrong with the record that was read last by itself, if anything is: `RowLength` if it hasn't as
    /// many fields as the header; otherwise what is wrong with its values, as a record of this table. Its key and its
    /// ids aren't looked up.
    pub fn fault(&self, table: Table) -> Option<FaultKind>
        ensures { result ≡ (if length (last_of self.now) == self.now.width
            then of_last (values_of table) self.now else Some FaultKind.RowLength) }
    {
        if self.record.len() != self.width {
            return Some(FaultKind::RowLength);
        }
        match table {
            Table::StopTimes => stop_time(self).err(),
            Table::Calendar => weekly(self).err(),
            Table::CalendarDates => dated(self).err(),
            Table::Frequencies => repeated(self).err(),
            Table::Agency | Table::Stops | Table::Trips | Table::Transfers => None,
        }
    }

    /// Returns the number of the record that was read last; 0 is the header.
    pub fn number(&self) -> u64
        ensures { result ≡ self.now.count - 1 }
    {
        self.count.saturating_sub(1)
    }

    /// Returns where the record that was read last begins. The crate `csv` promises nothing of the byte that it names,
    /// so no clause does: here it is that byte, behind the byte order mark and the ends of lines that come there. Its
    /// line is counted, and the number is that of the record.
    pub fn position(&self) -> Position
        ensures number { result.«record» ≡ self.now.count - 1 }
        ensures line { result.line ≡ line_at self.now.lines result.byte }
    {
        let byte = self.begin();
        Position {
            record: self.number(),
            line: self.lines.line_of(byte),
            byte: byte as u64,
        }
    }

    /// Returns the same. The lines before this record aren't counted again for those behind it.
    pub fn reach(&mut self) -> Position
        ensures number { result.«record» ≡ self.old.count - 1 }
        ensures line { result.line ≡ line_at self.old.lines result.byte }
        ensures rest { self.new ≡ self.old }
    {
        let position = self.position();
        self.lines.note(position.byte as usize, position.line);
        position
    }

    // Returns how many bytes of the file come before the record that was read last: before the byte that `csv` names,
    // and the byte order mark and the ends of lines there.
    fn begin(&self) -> usize {
        let bytes = self.lines.bytes;
        let from = self.record.position().map_or(0, |at| at.byte as usize);
        let rest = bytes.get(from..).unwrap_or(&[]);
        let text = match rest {
            [0xEF, 0xBB, 0xBF, text @ ..] if from == 0 => text,
            _ => rest,
        };
        match text
            .iter()
            .position(|byte| *byte != b'\r' && *byte != b'\n')
        {
            Some(blank) => bytes.len() - text.len() + blank,
            None => bytes.len(),
        }
    }
}

/// The header of a file and one of its records.
#[derive(Drop)]
pub struct FoundRecord {
    pub header: ByteRecord,
    pub record: ByteRecord,
    /// Where the record begins.
    pub position: Position,
}

/// Returns the record of a number, with the header, or none if the file's bytes have fewer records. 0 is the header, 1
/// the first record after it. So for a fault of a table, `find_record(alloc, bytes, fault.row)` returns the record that
/// was refused, or the header if the file as a whole was. Memory may run out.
pub fn find_record(
    alloc: Global,
    bytes: &[u8],
    number: u64,
) -> Result<Option<FoundRecord>, AllocError>
    ensures { IfOk result (λ found. MatchOption found (length (table_records bytes.now) ≤ number)
        (IsFound bytes.now number)) }
{
    let mut records = Records::open(alloc, bytes);
    if !records.advance()? {
        return Ok(None);
    }
    let header = records.last().clone()?;
    for taken in 0..number {
        if !records.advance()? {
            return Ok(None);
        }
    }
    let record = records.last().clone()?;
    Ok(Some(FoundRecord {
        header,
        record,
        position: records.position(),
    }))
}
