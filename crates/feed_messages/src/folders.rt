//! What is wrong with a feed's folder: it is no folder, or lacks a file, which may be found elsewhere, or has one that
//! can't be read.

use crate::words::{explain, is_file, is_folder, missing_reason, shown_path, unread_reason};
use feed_files::LONGEST_FILE;
use gtfs_rows::Table;
use std::alloc::Global;
use std::fs;
use std::io::{Read, Write};
use std::path::Path;
use std::rt::Files;

/// How many bytes of a folder's names are read at once.
const PIECE_BYTES: usize = 4096;

/// How many pieces of a folder's names are read at most.
const MOST_PIECES: usize = 64;

/// Says why the path of a feed is no folder, if that is so.
pub fn explain_folder<H: Files, E: Write>(rt: &H, folder: &str, errors: &mut E) {
    if let Some(reason) = folder_fault(rt, folder) {
        explain_path(errors, folder, reason);
    }
}

fn explain_path<'a, E: Write>(errors: &mut E, path: &'a str, reason: &'a str) {
    explain(errors, &["csa: ", shown_path(path), ": ", reason]);
}

/// Why the path of a feed is no folder; `None` if it is one.
pub fn folder_fault<H: Files>(rt: &H, folder: &str) -> Option<&'static str> {
    match fs::metadata(rt, folder) {
        Ok(metadata) if metadata.is_dir() => None,
        Ok(_) if folder.ends_with(".zip") => Some("a zip file: unpack it, and name the folder"),
        Ok(_) => Some("not a folder"),
        Err(error) => Some(missing_reason(rt, folder, error.kind())),
    }
}

/// Says why a file of a feed can't be read.
pub fn explain_failed<H: Files + AllocGlobal, E: Write>(
    rt: &H,
    folder: &str,
    table: Table,
    errors: &mut E,
) {
    if let Ok(path) = Path::new(folder).join(rt.alloc(), table.file_name()) {
        let path = path.as_str();
        explain(
            errors,
            &["csa: ", path, " can't be read: ", failed_reason(rt, path)],
        );
    }
}

/// Why a file couldn't be read. A file that can be opened now, or isn't there, was changed meanwhile, as far as one can
/// tell.
fn failed_reason<H: Files>(rt: &H, path: &str) -> &'static str {
    let is_there = match fs::metadata(rt, path) {
        Ok(metadata) if metadata.is_file() && metadata.len() > u64::from(LONGEST_FILE) => {
            return "it has more than 2000000000 bytes";
        }
        Ok(metadata) => metadata.is_file(),
        Err(_) => false,
    };
    let is_readable = is_there && fs::File::open(rt, path).is_ok();
    let is_gone = !is_there && fs::symlink_metadata(rt, path).is_err();
    if is_readable || is_gone {
        "it or its folder was changed while the feed was read (or an input or output error)"
    } else {
        unread_reason(rt, path)
    }
}

/// The message that a folder lacks a file. For `agency.txt` it names a folder below that has the file, or a zip file
/// that may be the feed. `None` if memory runs out.
pub fn missing_file<H: Files + AllocGlobal>(rt: &H, folder: &str, table: Table) -> Option<String> {
    let alloc = rt.alloc();
    let name = table.file_name();
    match table {
        Table::Calendar => {
            format!(in alloc; "{folder}: neither calendar.txt nor calendar_dates.txt is there").ok()
        }
        Table::Agency => match found_elsewhere(rt, folder) {
            Some(OtherLocation::Below(below)) => {
                format!(in alloc;
                    "{folder}: no file {name}, but {below} has one: name that folder"
                ).ok()
            }
            Some(OtherLocation::Zipped(zip)) => {
                format!(in alloc; "{folder}: no file {name}; if {zip} is the feed, unpack it").ok()
            }
            None => format!(in alloc; "{folder}: no file {name}").ok(),
        },
        _ => format!(in alloc; "{folder}: no file {name}").ok(),
    }
}

/// Where a feed may be, if it isn't in the folder itself.
#[derive(Drop)]
enum OtherLocation {
    /// In this folder, one level below.
    Below(String),
    /// Perhaps in this zip file.
    Zipped(String),
}

/// Where else the feed may be: the first folder with an `agency.txt`, or zip file, among the folder's names.
fn found_elsewhere<H: Files + AllocGlobal>(rt: &H, folder: &str) -> Option<OtherLocation> {
    let mut names = rt.open_dir(folder).ok()?;
    let mut piece = new_piece(rt.alloc(), PIECE_BYTES)?;
    for _ in 0..MOST_PIECES {
        let count = names.read(&mut piece).ok()?;
        if count == 0 {
            return None;
        }
        let found = elsewhere_in(rt, folder, piece.get(..count)?);
        if found.is_some() {
            return found;
        }
    }
    None
}

fn new_piece(alloc: Global, bytes: usize) -> Option<Vec<u8>> {
    vec![in alloc; 0u8; bytes].ok()
}

/// The first folder with an `agency.txt`, or zip file, among these names, each of which ends with a zero byte.
fn elsewhere_in<H: Files + AllocGlobal>(
    rt: &H,
    folder: &str,
    names: &[u8],
) -> Option<OtherLocation> {
    for name in names.split(|byte| *byte == 0) {
        let found = elsewhere_at(rt, folder, name);
        if found.is_some() {
            return found;
        }
    }
    None
}

/// The folder of this name, if it has an `agency.txt`, or the zip file of this name.
fn elsewhere_at<H: Files + AllocGlobal>(
    rt: &H,
    folder: &str,
    name: &[u8],
) -> Option<OtherLocation> {
    let name = str::from_utf8(name).ok()?;
    if name.is_empty() || name == "." || name == ".." {
        return None;
    }
    let root = folder.strip_suffix('/').unwrap_or(folder);
    let path = format!(in rt.alloc(); "{root}/{name}").ok()?;
    if name.ends_with(".zip") {
        return Some(OtherLocation::Zipped(path));
    }
    let agency = format!(in rt.alloc(); "{path}/agency.txt").ok()?;
    if is_folder(rt, path.as_str()) && is_file(rt, agency.as_str()) {
        return Some(OtherLocation::Below(path));
    }
    None
}
