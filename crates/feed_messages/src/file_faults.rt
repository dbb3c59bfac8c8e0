//! The lines about the faults of one file.

use crate::quotes::{is_long, lines_of, quote_at};
use crate::suspects::{index_of, suspects_of};
use crate::wording::{further_text, lengths_text, twice_text, value_text};
use crate::words::explain;
use gtfs_rows::{FaultKind, Records, Table, TableFault};
use std::alloc::Global;
use std::io::Write;

/// How many faults of one kind have a line in a file.
const MOST_LINES: u64 = 100;

/// The kinds of which a file may have more faults.
const KINDS: [FaultKind; 13] = [
    FaultKind::RowLength,
    FaultKind::BadTime,
    FaultKind::BadDate,
    FaultKind::BadNumber,
    FaultKind::IdTwice,
    FaultKind::UnknownId,
    FaultKind::ZonesDiffer,
    FaultKind::SequenceTwice,
    FaultKind::EndWithoutTime,
    FaultKind::TimeGoesBack,
    FaultKind::HopWithoutDuration,
    FaultKind::NotAStop,
    FaultKind::BadHeadway,
];

/// What is said of one fault.
#[derive(Drop)]
struct FaultLine {
    text: String,
    /// How many further rows name the id that isn't found.
    further: u64,
}

/// The lines about a file's faults, and how many faults of each kind there are. The fault for which the feed is refused
/// counts, and has no line here.
#[derive(Drop)]
pub struct FileFaults {
    alloc: Global,
    table: Table,
    refused: Option<TableFault>,
    lines: Vec<FaultLine>,
    counts: [u64; 19],
    file_lines: u64,
}

impl FileFaults {
    /// No fault was found yet in the file of a table with these bytes; the feed is refused for the given fault.
    pub fn none(
        alloc: Global,
        table: Table,
        bytes: &[u8],
        refused: Option<TableFault>,
    ) -> FileFaults {
        FileFaults {
            alloc,
            table,
            refused,
            lines: Vec::new(alloc),
            counts: [0; 19],
            file_lines: lines_of(bytes),
        }
    }

    /// Counts a fault, and returns whether it gets a line: it is one of the first of its kind, and not the one for
    /// which the feed is refused.
    fn has_line(&mut self, fault: TableFault) -> bool {
        let Some(count) = self.counts.get_mut(fault.kind.number() as usize) else {
            return false;
        };
        *count = count.saturating_add(1);
        let is_among_first = *count <= MOST_LINES;
        if self.refused == Some(fault) {
            self.refused = None;
            return false;
        }
        is_among_first
    }

    /// Notes what is wrong with the record that was read last: in the column of an index, or in the first column that
    /// can be at fault. For a key that an earlier record has, the line of that one is given. Returns the index of the
    /// fault's line, if it has one to which further rows may be added.
    pub fn note(
        &mut self,
        records: &mut Records<'_>,
        kind: FaultKind,
        column: Option<usize>,
        earlier: Option<u64>,
    ) -> Option<usize> {
        let fault = TableFault {
            file: self.table,
            row: records.number(),
            kind,
        };
        if !self.has_line(fault) {
            return None;
        }
        let (file, line) = (fault.file.file_name(), records.reach().line);
        let mut text = format!(in self.alloc; "{file}, line {line}").ok()?;
        let column = column.or(suspect_in(records, &fault));
        let is_long = describe(self.alloc, &mut text, records, &fault, column, earlier).unwrap_or(
            false,
        );
        if is_long {
            append_quote(self.alloc, &mut text, records, self.file_lines)?;
        }
        let index = self.lines.len();
        self.lines.push(FaultLine { text, further: 0 }).ok()?;
        if is_long { None } else { Some(index) }
    }

    /// Counts a further row that names the id of a line, if there is a line about it.
    pub fn name_again(&mut self, index: Option<usize>) {
        if let Some(index) = index
            && let Some(line) = self.lines.get_mut(index)
        {
            line.further = line.further.saturating_add(1);
        }
    }

    /// Writes the lines, and how many further faults of each kind there are.
    pub fn tell<E: Write>(&self, errors: &mut E) {
        for line in &self.lines {
            if let Ok(further) = further_text(self.alloc, line.further) {
                explain(errors, &["csa: ", line.text.as_str(), further.as_str()]);
            }
        }
        for kind in &KINDS {
            self.tell_further(*kind, errors);
        }
    }

    fn tell_further<E: Write>(&self, kind: FaultKind, errors: &mut E) {
        let count = self
            .counts
            .get(kind.number() as usize)
            .copied()
            .unwrap_or(0);
        let further = count.saturating_sub(MOST_LINES);
        if further == 0 {
            return;
        }
        let (file, number, name) = (self.table.file_name(), kind.number(), kind.name());
        let line = format!(in self.alloc;
            "csa: {file}: {further} more faults of kind {number} {name}"
        );
        if let Ok(line) = line {
            explain(errors, &[line.as_str()]);
        }
    }
}

/// Appends what is wrong with a record: how many fields it has, or else the value of this column. For a key that an
/// earlier record has, the line of that one is given. Returns whether a double quote may be the cause.
pub fn describe(
    alloc: Global,
    text: &mut String,
    records: &Records<'_>,
    fault: &TableFault,
    column: Option<usize>,
    earlier: Option<u64>,
) -> Option<bool> {
    if fault.kind == FaultKind::RowLength {
        let what = lengths_text(alloc, records.last().len(), records.width()).ok()?;
        text.push_str(what.as_str()).ok()?;
        return Some(true);
    }
    let name = fault.file.columns().get(column?)?;
    let value = records.get(column?);
    let what = match earlier {
        Some(line) => twice_text(alloc, fault.file, name, value, line),
        None => value_text(alloc, fault, name, value),
    };
    text.push_str(what.ok()?.as_str()).ok()?;
    Some(earlier.is_none() && is_long(value))
}

/// Appends that a double quote is the cause, if one opens a field of several lines in a record of a file of so many
/// lines.
pub fn append_quote(
    alloc: Global,
    text: &mut String,
    records: &Records<'_>,
    lines: u64,
) -> Option<()> {
    if let Some(quote) = quote_at(alloc, records.last(), records.position().line, lines) {
        text.push_str(quote.as_str()).ok()?;
    }
    Some(())
}

/// The first column of a record that can be at fault, and isn't as it must be.
fn suspect_in(records: &Records<'_>, fault: &TableFault) -> Option<usize> {
    let (names, form) = suspects_of(fault);
    for name in names {
        let column = index_of(fault.file, name)?;
        if form.is_missed_by(records.get(column)) {
            return Some(column);
        }
    }
    None
}
