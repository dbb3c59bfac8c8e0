//! Reads a file of a feed again, to say where a fault is.
//!
//! No contract says that the file still is as it was when the fault was found.

use feed_files::{LONGEST_FILE, file_up_to, state_at};
use gtfs_rows::{FoundRecord, Records, cell, column, find_record};
use std::alloc::Global;
use std::rt::Files;

/// The bytes of a file of a feed; none if it can't be read again.
pub fn file_bytes<H: Files + AllocGlobal>(rt: &H, folder: &str, file: &str) -> Option<Vec<u8>> {
    let state = state_at(rt, folder);
    file_up_to(LONGEST_FILE, rt, rt.alloc(), folder, &state, file).ok()?
}

/// Reads the next record; none if no record is left, or memory ran out.
pub fn advance(records: &mut Records<'_>) -> Option<()> {
    if records.advance().ok()? {
        Some(())
    } else {
        None
    }
}

/// The first record with this text in the column of this name, with the header.
pub fn record_with(alloc: Global, bytes: &[u8], name: &str, text: &[u8]) -> Option<FoundRecord> {
    let mut records = Records::open(alloc, bytes);
    advance(&mut records)?;
    let column = Some(column(records.last(), name.as_bytes())?);
    for number in 1..u64::MAX {
        advance(&mut records)?;
        if cell(records.last(), column) == text {
            return find_record(alloc, bytes, number).ok()?;
        }
    }
    None
}
