//! Double quotes that aren't closed in their line, so that the lines after it are part of a field.

use crate::files::advance;
use csv::ByteRecord;
use gtfs_rows::Records;
use std::alloc::Global;

/// What to say of a record that begins in a line, in a file of so many lines, if a double quote in its first line opens
/// a field of several lines.
pub fn quote_at(alloc: Global, record: &ByteRecord, line: u64, lines: u64) -> Option<String> {
    let field = long_field(record)?;
    let last = line.saturating_add(line_ends(field)).min(lines);
    format!(in alloc;
        "; a double quote in line {line} opens a field that goes on to line {last}"
    ).ok()
}

/// What to say of a file in which an id wasn't found, if it is in a field of several lines.
pub fn quote_before(alloc: Global, bytes: &[u8], file: &str, id: &[u8]) -> Option<String> {
    let mut records = Records::open(alloc, bytes);
    for _ in 0..u64::MAX {
        advance(&mut records)?;
        if let Some(before) = text_before(records.last(), id) {
            let first = records.position().line;
            let line = first.saturating_add(line_ends(before));
            return format!(in alloc;
                "; line {line} of {file} has it, in a field that a double quote in line {first} opens"
            ).ok();
        }
    }
    None
}

/// Whether a text has several lines.
pub fn is_long(text: &[u8]) -> bool {
    text.iter().any(|byte| is_line_end(*byte))
}

fn long_field(record: &ByteRecord) -> Option<&[u8]> {
    record.iter().find(|field| is_long(field))
}

/// What comes before an id in a field of several lines, if the id is there.
fn text_before<'a>(record: &'a ByteRecord, id: &[u8]) -> Option<&'a [u8]> {
    let field = long_field(record)?;
    for position in 0..field.len() {
        let (before, rest) = (field.get(..position)?, field.get(position..)?);
        if !id.is_empty()
            && is_at_end(before.last())
            && let Some(behind) = rest.strip_prefix(id)
            && is_at_end(behind.first())
        {
            return Some(before);
        }
    }
    None
}

/// Whether a field may end at this byte, or at the end of the file.
fn is_at_end(byte: Option<&u8>) -> bool {
    byte.is_none_or(|byte| is_line_end(*byte) || *byte == b',')
}

fn is_line_end(byte: u8) -> bool {
    byte == b'\n' || byte == b'\r'
}

/// How many lines a file has.
pub fn lines_of(bytes: &[u8]) -> u64 {
    let text = bytes.strip_suffix(b"\n").unwrap_or(bytes);
    line_ends(text.strip_suffix(b"\r").unwrap_or(text)).saturating_add(1)
}

/// How many lines end in a text, with LF, CR LF or CR.
fn line_ends(text: &[u8]) -> u64 {
    let mut ends = 0u64;
    let mut is_behind_return = false;
    for byte in text {
        if *byte == b'\r' || (*byte == b'\n' && !is_behind_return) {
            ends = ends.saturating_add(1);
        }
        is_behind_return = *byte == b'\r';
    }
    ends
}
