//! How a message names a day or a run that is out of range.

use feed_loader::{Run, day_number};
use feed_messages::{file_bytes, quoted};
use gtfs_rows::{Day, FoundRecord, Table, cell, column, find_record};
use std::alloc::{AllocError, Global};
use std::rt::Files;

/// A day.
pub fn day_text(alloc: Global, day: Day) -> Result<String, AllocError> {
    format!(in alloc; "day is {:08}", day_number(day))
}

/// A run: its trip, its day, and when it starts if `frequencies.txt` says it.
pub fn run_text<H: Files + AllocGlobal>(
    rt: &H,
    folder: &str,
    run: &Run,
) -> Result<String, AllocError> {
    let alloc = rt.alloc();
    let trip = trip_text(rt, folder, run.trip)?;
    let day = day_number(run.day);
    match run.start {
        None => format!(in alloc; "trip is {trip}, on {day:08}"),
        Some(start) => {
            let (hours, minutes, seconds) = (start / 3600, start / 60 % 60, start % 60);
            format!(in alloc;
                "trip is {trip}, on {day:08} at {hours:02}:{minutes:02}:{seconds:02} (frequencies.txt)"
            )
        }
    }
}

/// The trip of an index: its trip_id and the line of `trips.txt`; or only its record, if the file can't be read again.
fn trip_text<H: Files + AllocGlobal>(
    rt: &H,
    folder: &str,
    trip: u32,
) -> Result<String, AllocError> {
    let alloc = rt.alloc();
    let record = trip as u64 + 1;
    match found_trip(rt, folder, record) {
        Some(found) => found_text(alloc, &found),
        None => format!(in alloc; "that of record {record} of trips.txt"),
    }
}

fn found_trip<H: Files + AllocGlobal>(rt: &H, folder: &str, record: u64) -> Option<FoundRecord> {
    let bytes = file_bytes(rt, folder, Table::Trips.file_name())?;
    find_record(rt.alloc(), &bytes, record).ok()?
}

fn found_text(alloc: Global, found: &FoundRecord) -> Result<String, AllocError> {
    let id = cell(&found.record, column(&found.header, b"trip_id"));
    let shown = quoted(alloc, id)?;
    let line = found.position.line;
    format!(in alloc; "{shown} (trips.txt, line {line})")
}
