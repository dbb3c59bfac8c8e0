//! What standard error says besides a refusal: enough for a person to mend what is wrong.
//!
//! If a line can't be written, or there is no memory for it, nothing else changes.

ghost use Rattle.std.specs.Prelude.{◌≡◌};
ghost use Rattle.command_requests.specs.declared.statuses.TheConstants.{INPUT_OUTPUT};

use crate::naming::{day_text, run_text};
use crate::warnings::{ZONES, ZoneFile, zone_file};
use command_endings::status;
use feed_files::{Disk, FolderFiles, ReadFault};
use feed_loader::{LoadFault, OutOfRange};
use feed_messages::{
    explain, explain_failed, explain_folder, explain_further, explain_table, is_folder,
};
use std::convert::AsStr;
use std::io::Write;
use std::rt::Files;

/// Explains the refusal of a feed: what is wrong with its folder, where a fault of a table is, or which day or trip is
/// out of range. Nothing is said if memory ran out.
pub fn explain_refused<H: Files + AllocGlobal, E: Write>(
    rt: &H,
    folder: &str,
    fault: &LoadFault,
    errors: &mut E,
) {
    if fault.is_want_of_memory() {
        return;
    }
    match fault {
        LoadFault::Table(fault) => {
            if is_folder(rt, folder) {
                explain_table(rt, folder, fault, errors);
            } else {
                explain_folder(rt, folder, errors);
            }
        }
        LoadFault::FileFailed(table) => explain_failed(rt, folder, *table, errors),
        LoadFault::Range(range) => {
            explain_load(fault, errors);
            explain_range(rt, folder, range, errors);
        }
        LoadFault::Day(_) | LoadFault::Footpaths(_) | LoadFault::Image(_) => {
            explain_load(fault, errors)
        }
    }
}

/// Explains the refusal of a feed, and then, if `all` is set, what else is wrong with the files of its folder; if
/// `strict`, also where a trip arrives no later than it departed before.
pub fn explain_faults<H: Files + Disk + AllocGlobal, E: Write>(
    rt: &H,
    folder: &str,
    fault: &LoadFault,
    errors: &mut E,
    all: bool,
    strict: bool,
) {
    explain_refused(rt, folder, fault, errors);
    if all && !fault.is_want_of_memory() && is_folder(rt, folder) {
        let mut files = FolderFiles::new(rt, folder);
        explain_further(
            rt,
            folder,
            &mut files,
            fault_of_files(fault),
            strict,
            errors,
        );
    }
}

/// The fault, if it is one of the feed's files.
fn fault_of_files(fault: &LoadFault) -> Option<ReadFault> {
    match fault {
        LoadFault::Table(fault) => Some(ReadFault::Table(*fault)),
        LoadFault::FileFailed(table) => Some(ReadFault::FileFailed(*table)),
        _ => None,
    }
}

/// Explains a fault of the zone, the days, the times of trips or the footpaths; says nothing of other faults.
pub fn explain_load<E: Write>(fault: &LoadFault, errors: &mut E) {
    let reason = match fault.number() {
        21 =>
            "--zone: file:PATH must be a time zone file (TZif), posix:TEXT a rule such as CET-1CEST,M3.5.0,M10.5.0/3",
        22 =>
            "--first, --days: a day is outside the years 1 to 9999 or has no noon in the zone, the clock can't be read, \
or a trip has a time that no image can have",
        41 => "transfers.txt: walks that follow one another take more than 1000000 seconds",
        42 =>
            "transfers.txt, stops.txt: there are more than 5000000 footpaths, counting those that follow from others",
        _ => return,
    };
    explain(errors, &["csa: ", reason]);
}

/// Names the first day without a start, or the first trip with a time out of range and its day.
fn explain_range<H: Files + AllocGlobal, E: Write>(
    rt: &H,
    folder: &str,
    range: &OutOfRange,
    errors: &mut E,
) {
    let named = match range {
        OutOfRange::Day(day) => day_text(rt.alloc(), *day),
        OutOfRange::Run(run) => run_text(rt, folder, run),
    };
    if let Ok(named) = named {
        explain(errors, &["csa: the first such ", named.as_str()]);
    }
}

/// Says how to write the zone, if `--zone` has only the name or the path of a zone file that the system has.
pub fn explain_zone<H: Files + AllocGlobal, S: AsStr, E: Write>(
    rt: &H,
    words: &[S],
    errors: &mut E,
) {
    if let Some(zone) = value_of(words, "--zone") {
        explain_zone_named(rt, zone_name(zone), errors);
    }
}

/// Reports a zone's file that can't be read; and if the system has a zone of this name, how to write that zone. Returns
/// `INPUT_OUTPUT`.
pub fn report_unread_zone<H: Files + AllocGlobal, E: Write>(
    rt: &H,
    errors: &mut E,
    path: &str,
) -> u8
    ensures { result ≡ INPUT_OUTPUT }
{
    let status = status::report_unreadable(rt, errors, path);
    explain_zone_named(rt, path, errors);
    status
}

/// Says how to write the zone of this name, if the system has a file of it.
fn explain_zone_named<H: Files + AllocGlobal, E: Write>(rt: &H, name: &str, errors: &mut E) {
    if let ZoneFile::At(path) = zone_file(rt, name) {
        let parts = ["csa: for this zone write --zone file:", path.as_str()];
        explain(errors, &parts);
    }
}

/// A path without the system's folder of zone files; the whole text if it doesn't begin with that folder.
fn zone_name(zone: &str) -> &str {
    match zone.strip_prefix(ZONES) {
        Some(rest) => rest.strip_prefix('/').unwrap_or(zone),
        None => zone,
    }
}

/// The value of an option: the word after it, or what follows `=` in its own word.
fn value_of<'a, S: AsStr>(words: &'a [S], option: &str) -> Option<&'a str> {
    let mut is_next = false;
    for word in words {
        let word = word.as_str();
        if is_next {
            return Some(word);
        }
        if let Some((name, value)) = word.split_once('=')
            && name == option
        {
            return Some(value);
        }
        is_next = word == option;
    }
    None
}
