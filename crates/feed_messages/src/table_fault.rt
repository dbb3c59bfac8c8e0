//! Which line, column and value of a feed's file is refused.

use crate::file_faults::{append_quote, describe};
use crate::files::{advance, file_bytes, record_with};
use crate::folders::missing_file;
use crate::quotes::{lines_of, quote_before};
use crate::suspects::{FieldForm, home_of, index_of, key_of, suspects_of, value_in};
use crate::wording::further_text;
use crate::words::{explain, quoted};
use csv::ByteRecord;
use gtfs_rows::values::number;
use gtfs_rows::{
    FaultKind, FoundRecord, Location, Records, Table, TableFault, cell, column, find_record,
    location,
};
use std::alloc::{AllocError, Global};
use std::io::Write;
use std::rt::Files;

/// Says in which line of which file a fault is, in which column, and what is there.
pub fn explain_table<H: Files + AllocGlobal, E: Write>(
    rt: &H,
    folder: &str,
    fault: &TableFault,
    errors: &mut E,
) {
    let bytes = match fault.kind {
        FaultKind::MissingFile | FaultKind::TooMany => Some(Vec::new(rt.alloc())),
        _ => file_bytes(rt, folder, fault.file.file_name()),
    };
    if let Some(bytes) = bytes
        && let Some(line) = message(rt, folder, fault, &bytes)
    {
        explain(errors, &["csa: ", line.as_str()]);
    }
}

/// The message about a fault of a file that has these bytes.
pub fn message<H: Files + AllocGlobal>(
    rt: &H,
    folder: &str,
    fault: &TableFault,
    bytes: &[u8],
) -> Option<String> {
    let alloc = rt.alloc();
    match fault.kind {
        FaultKind::MissingFile => missing_file(rt, folder, fault.file),
        FaultKind::TooMany => too_many(alloc, fault.file),
        FaultKind::BadUtf8 => not_utf8(alloc, fault.file.file_name(), bytes),
        FaultKind::MissingColumn => missing_column(alloc, fault.file, bytes),
        _ => FaultLocation {
            rt,
            folder,
            fault,
            bytes,
        }
        .line(),
    }
}

fn too_many(alloc: Global, table: Table) -> Option<String> {
    let name = table.file_name();
    let most = match table {
        Table::Stops => "a feed may have at most 1000000 stops",
        Table::Trips => {
            "a feed may have at most 20000000 trips and as many runs on the days asked for, \
and 400000000 bytes of names: try fewer days"
        }
        Table::StopTimes => {
            "the days asked for may have at most 20000000 connections: try fewer days"
        }
        _ => return None,
    };
    format!(in alloc; "{name}: {most}").ok()
}

/// The message about the first bytes that aren't UTF-8: those between two commas or ends of lines.
fn not_utf8(alloc: Global, file: &str, bytes: &[u8]) -> Option<String> {
    let mut begin = 0usize;
    for piece in bytes.split(|byte| is_between(*byte)) {
        let end = begin.saturating_add(piece.len());
        if str::from_utf8(piece).is_err() {
            let shown = quoted(alloc, piece).ok()?;
            let line = lines_of(bytes.get(..end)?);
            return format!(in alloc; "{file}, line {line}: {shown} isn't UTF-8").ok();
        }
        begin = end.saturating_add(1);
    }
    None
}

/// Whether a byte stands between two fields or two lines.
fn is_between(byte: u8) -> bool {
    byte == b',' || byte == b'\n' || byte == b'\r'
}

/// The message about the required columns that the header lacks; it shows the header.
fn missing_column(alloc: Global, table: Table, bytes: &[u8]) -> Option<String> {
    let file = table.file_name();
    let Some(found) = find_record(alloc, bytes, 0).ok()? else {
        return format!(in alloc; "{file}: there is no header").ok();
    };
    let line = found.position.line;
    let mut text = format!(in alloc; "{file}, line {line}: the header lacks").ok()?;
    let mut is_first = true;
    for name in table.columns().iter().take(table.required()) {
        if column(&found.header, name.as_bytes()).is_none() {
            text.push_str(if is_first { " " } else { ", " }).ok()?;
            text.push_str(name).ok()?;
            is_first = false;
        }
    }
    let shown = shown_header(alloc, &found.header).ok()?;
    text.push_str(": it is ").ok()?;
    text.push_str(shown.as_str()).ok()?;
    Some(text)
}

/// A header as it is shown: its fields with commas between them.
fn shown_header(alloc: Global, header: &ByteRecord) -> Result<String, AllocError> {
    let mut text = Vec::new(alloc);
    for index in 0..header.len() {
        if index > 0 {
            text.push(b',')?;
        }
        text.extend_from_slice(cell(header, Some(index)))?;
    }
    quoted(alloc, &text)
}

/// A fault of a record, and where to look for its cause.
#[derive(Drop)]
struct FaultLocation<'a, H> {
    rt: &'a H,
    folder: &'a str,
    fault: &'a TableFault,
    bytes: &'a [u8],
}

impl<'a, H: Files + AllocGlobal> FaultLocation<'a, H> {
    /// The message: the line, and what is wrong there, if that can be found.
    fn line(&self) -> Option<String> {
        let alloc = self.rt.alloc();
        let mut records = Records::of_table(alloc, self.fault.file, self.bytes).ok()?;
        for _ in 0..self.fault.row {
            advance(&mut records)?;
        }
        let (file, line) = (self.fault.file.file_name(), records.position().line);
        let what = self.what_is_wrong(&records).unwrap_or(String::new(alloc));
        format!(in alloc; "{file}, line {line}{what}").ok()
    }

    /// What is wrong with a record: of a key that is there twice the line of the first record that has it, and of an id
    /// that isn't found also where it is, or how many further rows name it. A double quote is named if it is the cause.
    fn what_is_wrong(&self, records: &Records<'_>) -> Option<String> {
        let alloc = self.rt.alloc();
        let mut text = String::new(alloc);
        let column = self.wrong_column(records);
        let earlier = self.earlier_line(records);
        if describe(alloc, &mut text, records, self.fault, column, earlier)? {
            append_quote(alloc, &mut text, records, lines_of(self.bytes))?;
        } else if self.fault.kind == FaultKind::UnknownId {
            let name = self.fault.file.columns().get(column?)?;
            self.append_cause(&mut text, name, records.get(column?))?;
        }
        Some(text)
    }

    /// The column that isn't as it must be; none also if an id's file can't be read.
    fn wrong_column(&self, records: &Records<'_>) -> Option<usize> {
        let (names, form) = suspects_of(self.fault);
        for name in names {
            let column = index_of(self.fault.file, name)?;
            if self.is_wrong(name, form, records.get(column))? {
                return Some(column);
            }
        }
        None
    }

    /// Appends to the message about an id that isn't found in which field it is hidden, or how many further rows name
    /// it.
    fn append_cause(&self, text: &mut String, name: &str, id: &[u8]) -> Option<()> {
        let file = home_of(name).0.file_name();
        let bytes = file_bytes(self.rt, self.folder, file)?;
        if let Some(quote) = quote_before(self.rt.alloc(), &bytes, file, id) {
            return text.push_str(quote.as_str()).ok();
        }
        let further = further_text(self.rt.alloc(), self.further_rows(name, id)?).ok()?;
        text.push_str(further.as_str()).ok()
    }

    /// How many rows after the faulty one name the same id, in a column whose ids are looked up as those of this one.
    fn further_rows(&self, name: &str, id: &[u8]) -> Option<u64> {
        let mut records = Records::of_table(self.rt.alloc(), self.fault.file, self.bytes).ok()?;
        let mut rows = 0u64;
        for _ in 0..u64::MAX {
            if advance(&mut records).is_none() {
                return Some(rows);
            }
            let is_named = suspects_of(self.fault).0.iter().any(|other| home_of(other)
                == home_of(name)
                && value_in(&records, self.fault.file, other) == id);
            if is_named && records.number() > self.fault.row {
                rows = rows.saturating_add(1);
            }
        }
        None
    }

    /// The line of the first record with the key of the faulty one, if that is the fault.
    fn earlier_line(&self, later: &Records<'_>) -> Option<u64> {
        let table = self.fault.file;
        let names = key_of(self.fault);
        let mut records = Records::of_table(self.rt.alloc(), table, self.bytes).ok()?;
        for _ in 1..self.fault.row {
            advance(&mut records)?;
            if !names.is_empty()
                && names
                    .iter()
                    .all(|name| is_same(&records, later, table, name))
            {
                return Some(records.position().line);
            }
        }
        None
    }

    /// Whether a value isn't as it must be; an id is looked up in its file. None if that file can't be read.
    fn is_wrong(&self, name: &str, form: FieldForm, value: &[u8]) -> Option<bool> {
        if form != FieldForm::Id && form != FieldForm::End {
            return Some(form.is_missed_by(value));
        }
        let (table, id) = home_of(name);
        let bytes = file_bytes(self.rt, self.folder, table.file_name())?;
        match record_with(self.rt.alloc(), &bytes, id, value) {
            Some(stop) => Some(form == FieldForm::End && is_inside(&stop)),
            None => Some(form == FieldForm::Id),
        }
    }
}

/// Whether a record of `stops.txt` is an entrance, a node or a boarding area.
fn is_inside(stop: &FoundRecord) -> bool {
    let kind = cell(&stop.record, column(&stop.header, b"location_type"));
    !matches!(location(kind), Location::Stop | Location::Station)
}

/// Whether two records have the same value in a column; in that of a number `1` and `01.0` are the same.
fn is_same(record: &Records<'_>, later: &Records<'_>, table: Table, name: &str) -> bool {
    let (value, other) = (value_in(record, table, name), value_in(later, table, name));
    value == other || (name == "stop_sequence" && number(value) == number(other))
}
