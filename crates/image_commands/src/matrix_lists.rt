//! The sets of stops of a table, which files list.

ghost use Rattle.std.specs.Prelude.{◌≡◌, ◌⊎◌, ◌∷◌, [], IfErr, IfOk, MatchResult};
ghost use Rattle.std.specs.List.{AllZip, range_with_len};
ghost use Rattle.std.specs.declared.io.ErrorKind.TheVariants.{OutOfMemory as WasOutOfMemory};
ghost use Rattle.command_requests.specs.declared.statuses.TheConstants.{INPUT_OUTPUT, OUT_OF_MEMORY};
ghost use Rattle.image_commands.specs.Matrices.{AreListedIn, AreOfList, IsUnlisted, IsUnlistedIn, fault_status};

use crate::question::explain_line;
use command_endings::status;
use feed_messages::{explain, quoted};
use image_files::{ImageDisk, text_at};
use image_verifier::Verified;
use matrix_rows::{SetListFault, sets_listed};
use std::alloc::{AllocError, Global};
use std::io::{ErrorKind, Write};
use std::rt::Files;

/// An option with a file that lists stops.
#[derive(Clone, Copy)]
pub struct ListOption<'a> {
    pub name: &'a str,
    pub path: &'a str,
}

/// The sets of stops that the file of an option lists, in its order. If it doesn't list any, or says what can't be
/// asked, explains why in `errors`, and returns the status.
pub fn sets_of_file<H: Files + ImageDisk<Image = H::File> + AllocGlobal, E: Write>(
    rt: &H,
    image: &Verified,
    option: ListOption<'_>,
    errors: &mut E,
) -> Result<Vec<Vec<u32>>, u8>
    ensures { MatchResult result
        (λ sets. AreOfList (H.may_hold rt.now) option.entry.path.now image.now sets.items)
        (IsUnlisted (H.may_hold rt.now) (H.may_fail rt.now) option.entry.path.now image.now) }
{
    match text_at(rt, option.path) {
        Ok(text) => sets_of_list(rt.alloc(), image, option, text.as_str(), errors),
        Err(error) => Err(unread(rt, option, error.kind(), errors)),
    }
}

// The sets of stops of the text of a list.
fn sets_of_list<E: Write>(
    alloc: Global,
    image: &Verified,
    option: ListOption<'_>,
    list: &str,
    errors: &mut E,
) -> Result<Vec<Vec<u32>>, u8>
    ensures sets { IfOk result (λ sets. AreListedIn image.now sets.items list.now) }
    ensures status { IfErr result (IsUnlistedIn image.now list.now) }
{
    match sets_listed(alloc, image, list) {
        Ok(sets) => Ok(sets),
        Err(fault) => Err(refused(alloc, image, option, list, fault, errors)),
    }
}

// Says why a list isn't accepted, and returns the status.
fn refused<E: Write>(
    alloc: Global,
    image: &Verified,
    option: ListOption<'_>,
    list: &str,
    fault: SetListFault,
    errors: &mut E,
) -> u8
    ensures { result ≡ fault_status fault }
{
    match fault {
        SetListFault::UnknownStop(number) => {
            explain_unknown(alloc, image, option, list, number, errors);
            status::REFUSED
        }
        SetListFault::StopTwice(number) => {
            let reason = "it has a stop_id twice";
            explain_at(alloc, option, list, number, reason, errors);
            status::COMMAND_LINE
        }
        SetListFault::LineTwice(first, second) => {
            explain_twice(alloc, option, list, first, second, errors);
            status::COMMAND_LINE
        }
        SetListFault::Empty => {
            explain(
                errors,
                &["csa: ", option.name, " ", option.path, ": it has no line"],
            );
            status::COMMAND_LINE
        }
        SetListFault::OutOfMemory => status::OUT_OF_MEMORY,
    }
}

// Says what in a line isn't a stop_id.
fn explain_unknown<E: Write>(
    alloc: Global,
    image: &Verified,
    option: ListOption<'_>,
    list: &str,
    number: usize,
    errors: &mut E,
) {
    let line = line_at(list, number);
    let id = first_unknown(image, line);
    if id.is_empty() && !line.is_empty() {
        let reason = "a tab has no stop_id before it or after it";
        explain_at(alloc, option, list, number, reason, errors);
    } else {
        explain_line(alloc, option.name, option.path, number, id, errors);
    }
}

// The first part of a line, between its tabs, that isn't a stop_id; the line if each is.
fn first_unknown<'a>(image: &Verified, line: &'a str) -> &'a str {
    for id in line.split('\t') {
        if image.find(id.as_bytes()).is_none() {
            return id;
        }
    }
    line
}

// Says that a line is there again.
fn explain_twice<E: Write>(
    alloc: Global,
    option: ListOption<'_>,
    list: &str,
    first: usize,
    second: usize,
    errors: &mut E,
) {
    match format!(in alloc; "line {first} is the same") {
        Ok(reason) => explain_at(alloc, option, list, second, reason.as_str(), errors),
        Err(_) => explain_at(
            alloc,
            option,
            list,
            second,
            "a line before is the same",
            errors,
        ),
    }
}

// Says what is wrong with a line, and shows it, if there is memory for that.
fn explain_at<E: Write>(
    alloc: Global,
    option: ListOption<'_>,
    list: &str,
    number: usize,
    reason: &str,
    errors: &mut E,
) {
    let (name, path) = (option.name, option.path);
    let line = line_at(list, number);
    let _ = match quoted(alloc, line.as_bytes()) {
        Ok(shown) => write!(
            errors,
            "csa: {name} {path}, line {number}: {shown}: {reason}\n"
        ),
        Err(_) => write!(errors, "csa: {name} {path}, line {number}: {reason}\n"),
    };
}

// The line with a number, from 1 on.
fn line_at(list: &str, number: usize) -> &str {
    list.lines().nth(number.saturating_sub(1)).unwrap_or("")
}

// Says why the file can't be read, and returns the status.
fn unread<H: Files, E: Write>(rt: &H, option: ListOption<'_>, kind: ErrorKind, errors: &mut E) -> u8
    ensures either { (result ≡ INPUT_OUTPUT) ⊎ (result ≡ OUT_OF_MEMORY) }
    ensures memory { kind ≡ WasOutOfMemory → result ≡ OUT_OF_MEMORY }
{
    match kind {
        ErrorKind::OutOfMemory => status::OUT_OF_MEMORY,
        ErrorKind::InvalidData => {
            explain(
                errors,
                &["csa: ", option.name, " ", option.path, ": it isn't UTF-8"],
            );
            status::INPUT_OUTPUT
        }
        _ => status::report_unreadable(rt, errors, option.path),
    }
}

/// A set of each stop of an image, in its order.
pub fn all_stops(alloc: Global, image: &Verified) -> Result<Vec<Vec<u32>>, AllocError>
    ensures { IfOk result (λ sets. AllZip (λ stop set. set.items ≡ stop ∷ [])
        (range_with_len 0 image.now.timetable.stops) sets.items) }
{
    let stops = image.stops();
    let mut all = Vec::with_capacity(alloc, stops as usize)?;
    for stop in 0..stops {
        let set = set_of(alloc, stop)?;
        all.push(set)?;
    }
    Ok(all)
}

fn set_of(alloc: Global, stop: u32) -> Result<Vec<u32>, AllocError>
    ensures { IfOk result (λ set. set.items ≡ stop ∷ []) }
{
    let mut set = Vec::with_capacity(alloc, 1)?;
    set.push(stop)?;
    Ok(set)
}
