//! The stops from which departures are wanted: all, or those that a file names.

ghost use Rattle.std.specs.Prelude.{IfErr, IfOk, MatchResult};
ghost use Rattle.std.specs.Str.Lines.{lines};
ghost use Rattle.departure_lines.specs.Naming.{AreWanted};
ghost use Rattle.image_commands.specs.Departing.{IsListed, IsNoListAt, IsNoListFrom, IsUnknown, IsUnlisted};
ghost use Rattle.image_commands.specs.Departing.{IsWantedFrom};

use crate::question::explain_line;
use departure_lines::{ListFault, WantedStops};
use image_files::{ImageDisk, text_at};
use image_verifier::Verified;
use std::alloc::Global;
use std::io::{ErrorKind, Write};

/// Why it isn't known from which stops departures are wanted.
#[derive(Drop)]
pub enum NoList {
    /// The line with this number, counted from 1, is no stop_id of the image.
    UnknownStop(usize),
    Unreadable,
    /// The file isn't UTF-8.
    NotText,
    OutOfMemory,
}

/// All stops, or those that the file at the path names. If a line of the file is no stop_id, the first such line is
/// shown in `errors`, and the error has its number.
pub fn wanted_from<H: ImageDisk + AllocGlobal, E: Write>(
    rt: &H,
    image: &Verified,
    path: Option<&str>,
    errors: &mut E,
) -> Result<WantedStops, NoList>
    ensures { MatchResult result (IsWantedFrom (H.may_hold rt.now) path.entry image.now.names)
        (IsNoListFrom (H.may_hold rt.now) (H.may_fail rt.now) path.entry image.now.names) }
{
    match path {
        None => Ok(WantedStops::All),
        Some(path) => wanted_at(rt, image, path, errors),
    }
}

// The stops that the file at a path names.
fn wanted_at<H: ImageDisk + AllocGlobal, E: Write>(
    rt: &H,
    image: &Verified,
    path: &str,
    errors: &mut E,
) -> Result<WantedStops, NoList>
    ensures { MatchResult result (IsListed (H.may_hold rt.now) path.now image.now.names)
        (IsNoListAt (H.may_hold rt.now) (H.may_fail rt.now) path.now image.now.names) }
{
    match text_at(rt, path) {
        Ok(text) => {
            let wanted = wanted_of(rt.alloc(), image, text.as_str());
            explain_unknown(rt.alloc(), path, text.as_str(), &wanted, errors);
            wanted
        }
        Err(error) => Err(unlisted(error.kind())),
    }
}

// Shows the first line of a list that is no stop_id, if there is one.
fn explain_unknown<E: Write>(
    alloc: Global,
    path: &str,
    list: &str,
    wanted: &Result<WantedStops, NoList>,
    errors: &mut E,
) {
    if let Err(NoList::UnknownStop(number)) = wanted {
        let line = list.lines().nth((*number).saturating_sub(1)).unwrap_or("");
        explain_line(alloc, "--from", path, *number, line, errors);
    }
}

// Why a list can't be read, by the kind of the error.
fn unlisted(kind: ErrorKind) -> NoList
    ensures { IsUnlisted kind result }
{
    match kind {
        ErrorKind::OutOfMemory => NoList::OutOfMemory,
        ErrorKind::InvalidData => NoList::NotText,
        _ => NoList::Unreadable,
    }
}

// The stops that a list names.
fn wanted_of(alloc: Global, image: &Verified, list: &str) -> Result<WantedStops, NoList>
    ensures wanted { IfOk result (AreWanted image.now.names (lines list.now)) }
    ensures unknown { IfErr result (λ failure. IsUnknown image.now.names failure list.now) }
{
    match WantedStops::listed(alloc, image, list) {
        Ok(wanted) => Ok(wanted),
        Err(ListFault::UnknownStop(line)) => Err(NoList::UnknownStop(line)),
        Err(ListFault::OutOfMemory) => Err(NoList::OutOfMemory),
    }
}
