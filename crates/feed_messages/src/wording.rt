//! What messages say of a record that is at fault, behind its file and its line.

use crate::suspects::{reason_of, whose_key};
use crate::words::quoted;
use gtfs_rows::{Table, TableFault};
use std::alloc::{AllocError, Global};

/// How many fields a record has, and how many columns the header.
pub fn lengths_text(alloc: Global, fields: usize, columns: usize) -> Result<String, AllocError> {
    format!(in alloc; ": the number of fields is {fields}, in the header {columns}")
}

/// A column, its value, and what is wrong with it.
pub fn value_text(
    alloc: Global,
    fault: &TableFault,
    name: &str,
    value: &[u8],
) -> Result<String, AllocError> {
    let shown = quoted(alloc, value)?;
    let reason = reason_of(fault, name);
    format!(in alloc; ": {name} {shown} {reason}")
}

/// A column, its value, and the line of the first record that has this key.
pub fn twice_text(
    alloc: Global,
    table: Table,
    name: &str,
    value: &[u8],
    line: u64,
) -> Result<String, AllocError> {
    let shown = quoted(alloc, value)?;
    let whose = whose_key(table);
    format!(in alloc; ": {name} {shown}{whose} is in line {line} too")
}

/// How many further rows name an id; nothing if none does.
pub fn further_text(alloc: Global, rows: u64) -> Result<String, AllocError> {
    match rows {
        0 => Ok(String::new(alloc)),
        1 => format!(in alloc; "; 1 further row names it too"),
        _ => format!(in alloc; "; {rows} further rows name it too"),
    }
}
