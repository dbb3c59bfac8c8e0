//! `csa matrix IMAGE OUT --to FILE [--from FILE] --after .. --until .. --by .. --criterion NAME [--each] [--workers N]
//! [--progress] [--no-warnings]`.

ghost use Rattle.std.specs.Prelude.{◌≡◌, ◌≢◌, ℕ, List, Contains, IfErr, IfOk, OnErr, OnOk};
ghost use Rattle.std.specs.Prelude.{MatchBool, MatchOption, MatchResult, codes, string_bytes};
ghost use Rattle.std.specs.Global.{Vec};
ghost use Rattle.std.specs.Io.KnownBytes.{Appends};
ghost use Rattle.command_requests.specs.declared.statuses.TheConstants.{ACCEPTED, COMMAND_LINE, INPUT_OUTPUT};
ghost use Rattle.command_requests.specs.declared.statuses.TheConstants.{OUT_OF_MEMORY, REFUSED};
ghost use Rattle.image_files.specs.Writing.{IsPut, IsUnwritable};
ghost use Rattle.image_files.specs.Watching.{HasFault, IsBegun};
ghost use Rattle.std.specs.IoError.{error_kind};
ghost use Rattle.std.specs.declared.io.ErrorKind.TheVariants.{OutOfMemory as WasOutOfMemory};
ghost use Rattle.matrix_rows.specs.Tables.{CanBeMade, IsTable, IsTableBegun};
ghost use Rattle.image_commands.specs.Matrices.{AreNoSources, AreOfList, AreSources, EndsTable, EndsWritten};
ghost use Rattle.image_commands.specs.Matrices.{HasNoWindow, HasWindow, IsCutShort, IsOverNone, IsOverRead};
ghost use Rattle.image_commands.specs.Matrices.{IsSpent, IsTableCutShort, IsTablePrinted, IsTableSpent};
ghost use Rattle.image_commands.specs.Matrices.{IsTableRefused, IsTableShown, IsTableUnlisted, IsUnasked, IsUnlisted};
ghost use Rattle.image_commands.specs.Matrices.{IsWrittenAt, counts_of, counts_text};

use crate::matrix_lists::{ListOption, all_stops, sets_of_file};
use crate::matrix_progress::TableProgress;
use crate::question::window_reason;
use crate::refusal::{CommandRefusal, print_refusal};
use crate::windows::{DepartureRange, warn_of_window};
use command_endings::status;
use command_requests::{MatrixRequest, TableWorkers};
use feed_messages::{explain, shown_path};
use image_files::{ImageDisk, NameForm, OutDisk, Watched, new_file, settle};
use image_verifier::Verified;
use matrix_rows::{TravelTable, write_table};
use std::alloc::{AllocError, Global};
use std::io;
use std::io::{ErrorKind, Write};
use std::rt::Files;
use std::thread::{Threads, available_parallelism};
use std::time::Clock;
use text_pieces::{put_number, put_text};
use timetable::QueryFault;
use timetable::limits::TIME_END;

/// What goes to standard error besides explanations.
#[derive(Clone, Copy, Drop)]
pub struct TableNotes {
    /// Whether it is a terminal: then progress is shown, in one line that is rewritten.
    pub is_terminal: bool,
    /// Whether a window that goes beyond the image's connections is warned of.
    pub warnings: bool,
}

/// Writes the table to the file that is asked for, once it is whole, and then prints how many sets of stops it has; or
/// writes it to `output`, with stop_ids in the form `names`. The window is judged first, then the lists; nothing is
/// scanned before the file is made. Explanations go to `errors`, and so do progress, if it is asked for or shown on a
/// terminal, and the warning. Returns `ACCEPTED`; `REFUSED` if a line has what is no stop_id, or if the window is bad,
/// which `output` says; `COMMAND_LINE` if a list can't be asked for; `INPUT_OUTPUT`; or `OUT_OF_MEMORY`, with nothing
/// printed unless the table itself is.
pub fn run<
    H: OutDisk + ImageDisk<Image = H::File> + AllocGlobal + Clock + Threads + Sync,
    O: Watched,
    E: Write,
>(
    rt: &H,
    image: &Verified,
    request: MatrixRequest<'_>,
    names: NameForm,
    output: &mut O,
    errors: &mut E,
    notes: TableNotes,
) -> u8
    ensures status { EndsTable result }
    ensures printed { result ≡ ACCEPTED → IsTablePrinted (H.may_hold rt.now) (H.files rt.now) names
        image.now request.entry (O.contents output.old) (O.contents output.new) }
    ensures refused { result ≡ REFUSED → IsTableRefused (H.may_hold rt.now) image.now request.entry
        (O.contents output.old) (O.contents output.new) }
    ensures unlisted { result ≡ COMMAND_LINE → IsTableUnlisted (H.may_hold rt.now) image.now request.entry
        (O.contents output.old) (O.contents output.new) }
    ensures cut { result ≡ INPUT_OUTPUT → IsTableCutShort (H.may_hold rt.now) (H.may_fail rt.now) (H.files rt.now)
        names image.now request.entry (O.noted output.new) (O.contents output.old) (O.contents output.new) }
    ensures spent { result ≡ OUT_OF_MEMORY → IsTableSpent (H.may_hold rt.now) names image.now request.entry
        (O.contents output.old) (O.contents output.new) }
{
    if !has_window(&request) {
        let refusal = CommandRefusal::Query(QueryFault::BadWindow);
        let status = print_refusal(rt.alloc(), output, refusal);
        if status == status::REFUSED {
            let reason = window_reason(request.after, request.until, request.by);
            explain(errors, &["csa: ", reason]);
        }
        return status;
    }
    match stops_asked(rt, image, request, errors) {
        Ok(stops) => {
            let table = table_of(image, &stops.targets, &stops.sources, request, names);
            write_unread(rt, &table, request, output, errors, notes)
        }
        Err(status) => status,
    }
}

// Whether the times make a window: neither the latest departure nor the latest arrival is before the earliest
// departure, and none is `TIME_END` or later.
fn has_window(request: &MatrixRequest<'_>) -> bool
    ensures { MatchBool result (HasWindow request.now) (HasNoWindow request.now) }
{
    if request.until < request.after {
        return false;
    }
    if request.by < request.after {
        return false;
    }
    if request.until >= TIME_END {
        return false;
    }
    if request.by >= TIME_END {
        return false;
    }
    true
}

// The sets of stops of a table.
#[derive(Drop)]
struct AskedStops {
    targets: Vec<Vec<u32>>,
    sources: Vec<Vec<u32>>,
}

// The sets of stops that are asked for, or the status that says why they aren't known.
fn stops_asked<H: Files + ImageDisk<Image = H::File> + AllocGlobal, E: Write>(
    rt: &H,
    image: &Verified,
    request: MatrixRequest<'_>,
    errors: &mut E,
) -> Result<AskedStops, u8>
    ensures targets { IfOk result (λ stops. AreOfList (H.may_hold rt.now) request.entry.to.now image.now
        stops.targets.items) }
    ensures sources { IfOk result (λ stops. AreSources (H.may_hold rt.now) request.entry.from image.now
        stops.sources.items) }
    ensures status { IfErr result (IsUnasked (H.may_hold rt.now) (H.may_fail rt.now) request.entry image.now) }
{
    let targets = targets_asked(rt, image, request, errors)?;
    let sources = sources_asked(rt, image, request, errors)?;
    Ok(AskedStops { targets, sources })
}

// Writes the table, if its file isn't one that is read.
fn write_unread<H: OutDisk + AllocGlobal + Clock + Threads + Sync, O: Watched, E: Write>(
    rt: &H,
    table: &TravelTable<'_>,
    request: MatrixRequest<'_>,
    output: &mut O,
    errors: &mut E,
    notes: TableNotes,
) -> u8
    requires can { (targets : Vec ℕ) → Contains table.now.targets.now targets
        → CanBeMade table.now targets.items }
    ensures status { EndsWritten result }
    ensures shown { result ≡ ACCEPTED
        → IsTableShown (H.files rt.now) table.now request.entry.out.now (O.contents output.old)
        (O.contents output.new) }
    ensures apart { result ≡ ACCEPTED → request.entry.out.now ≢ codes "-"
        → IsOverNone (H.files rt.now) request.entry }
    ensures cut { result ≡ INPUT_OUTPUT → IsCutShort (H.files rt.now) request.entry table.now (O.noted output.new)
        (O.contents output.old) (O.contents output.new) }
    ensures spent { result ≡ OUT_OF_MEMORY → IsSpent table.now request.entry.out.now (O.contents output.old)
        (O.contents output.new) }
{
    if let Some(reason) = read_at_out(rt, request) {
        explain_over(errors, request.out, reason);
        return status::INPUT_OUTPUT;
    }
    if notes.warnings {
        warn_of_table(table, errors);
    }
    write_asked(rt, table, request, output, errors, notes.is_terminal)
}

fn explain_over<'a, E: Write>(errors: &mut E, path: &'a str, reason: &'a str) {
    let path = shown_path(path);
    explain(errors, &["csa: ", path, " can't be written: ", reason]);
}

// Why the table isn't written, if what is at its path is a file that is read.
fn read_at_out<H: OutDisk>(rt: &H, request: MatrixRequest<'_>) -> Option<&'static str>
    ensures { MatchOption result (request.entry.out.now ≢ codes "-" → IsOverNone (H.files rt.now) request.entry)
        (λ _. (request.entry.out.now ≢ codes "-") × IsOverRead (H.files rt.now) request.entry) }
{
    if request.out == "-" {
        return None;
    }
    if request.image != "-" && rt.is_one(request.image, request.out) {
        return Some("it is the image");
    }
    if rt.is_one(request.to, request.out) {
        return Some("it is the list of --to");
    }
    match request.from {
        Some(from) => if rt.is_one(from, request.out) {
            Some("it is the list of --from")
        } else {
            None
        },
        None => None,
    }
}

fn warn_of_table<E: Write>(table: &TravelTable<'_>, errors: &mut E) {
    let departures = DepartureRange {
        first: table.after,
        last: table.until,
    };
    warn_of_window(table.image, departures, errors);
}

fn table_of<'a>(
    image: &'a Verified,
    targets: &'a [Vec<u32>],
    sources: &'a [Vec<u32>],
    request: MatrixRequest<'_>,
    names: NameForm,
) -> TravelTable<'a>
    ensures image { result.image.now ≡ image.now }
    ensures stops { (result.targets.now ≡ targets.now) × (result.sources.now ≡ sources.now) }
    ensures times { (result.after ≡ request.entry.after) × (result.until ≡ request.entry.until)
        × (result.by ≡ request.entry.by) }
    ensures form { (result.criterion ≡ request.entry.criterion) × (result.each ≡ request.entry.each) }
    ensures names { IsWrittenAt request.entry.out.now names result.names }
{
    TravelTable {
        image,
        targets,
        sources,
        after: request.after,
        until: request.until,
        by: request.by,
        criterion: request.criterion,
        each: request.each,
        names: names_at(request.out, names),
    }
}

// How stop_ids are written in a table that goes there, if names are written to the output in this form.
fn names_at(out: &str, names: NameForm) -> NameForm
    ensures { IsWrittenAt out.now names result }
{
    if out == "-" { names } else { NameForm::Raw }
}

// The sets of stops where journeys end.
fn targets_asked<H: Files + ImageDisk<Image = H::File> + AllocGlobal, E: Write>(
    rt: &H,
    image: &Verified,
    request: MatrixRequest<'_>,
    errors: &mut E,
) -> Result<Vec<Vec<u32>>, u8>
    ensures { MatchResult result
        (λ sets. AreOfList (H.may_hold rt.now) request.entry.to.now image.now sets.items)
        (IsUnlisted (H.may_hold rt.now) (H.may_fail rt.now) request.entry.to.now image.now) }
{
    let option = ListOption {
        name: "--to",
        path: request.to,
    };
    sets_of_file(rt, image, option, errors)
}

// The sets of stops where they begin.
fn sources_asked<H: Files + ImageDisk<Image = H::File> + AllocGlobal, E: Write>(
    rt: &H,
    image: &Verified,
    request: MatrixRequest<'_>,
    errors: &mut E,
) -> Result<Vec<Vec<u32>>, u8>
    ensures sets { IfOk result (λ sets. AreSources (H.may_hold rt.now) request.entry.from image.now sets.items) }
    ensures status { IfErr result (AreNoSources (H.may_hold rt.now) (H.may_fail rt.now) request.entry.from image.now) }
{
    match request.from {
        Some(path) => {
            let option = ListOption {
                name: "--from",
                path,
            };
            sets_of_file(rt, image, option, errors)
        }
        None => match all_stops(rt.alloc(), image) {
            Ok(stops) => Ok(stops),
            Err(AllocError) => Err(status::OUT_OF_MEMORY),
        },
    }
}

// Writes the table to where it is asked for, and says how that ended.
fn write_asked<H: OutDisk + AllocGlobal + Clock + Threads + Sync, O: Watched, E: Write>(
    rt: &H,
    table: &TravelTable<'_>,
    request: MatrixRequest<'_>,
    output: &mut O,
    errors: &mut E,
    is_terminal: bool,
) -> u8
    requires can { (targets : Vec ℕ) → Contains table.now.targets.now targets
        → CanBeMade table.now targets.items }
    ensures status { EndsWritten result }
    ensures shown { result ≡ ACCEPTED
        → IsTableShown (H.files rt.now) table.now request.entry.out.now (O.contents output.old)
        (O.contents output.new) }
    ensures cut { result ≡ INPUT_OUTPUT → IsCutShort (H.files rt.now) request.entry table.now (O.noted output.new)
        (O.contents output.old) (O.contents output.new) }
    ensures spent { result ≡ OUT_OF_MEMORY → IsSpent table.now request.entry.out.now (O.contents output.old)
        (O.contents output.new) }
{
    let log = if request.progress || is_terminal {
        Some(&mut *errors)
    } else {
        None
    };
    if request.out == "-" {
        return printed(print_table(rt, table, request, output, log, is_terminal));
    }
    match put_table(rt, table, request, log, is_terminal) {
        Ok(()) => print_counts(rt.alloc(), table, output),
        Err(error) => status::report_unwritten(errors, request.out, error.kind()),
    }
}

// Writes the table to `output`, which may be its file, and reports progress to `log`, if there is one.
fn print_table<'c, H: AllocGlobal + Clock + Threads + Sync, O: Watched, E: Write>(
    rt: &'c H,
    table: &TravelTable<'_>,
    request: MatrixRequest<'_>,
    output: &mut O,
    log: Option<&'c mut E>,
    is_terminal: bool,
) -> io::Result<()>
    requires can { (targets : Vec ℕ) → Contains table.now.targets.now targets
        → CanBeMade table.now targets.items }
    ensures shown { OnOk result ((text : List ℕ) × IsTable table.now text
        × Appends (O.contents output.old) (O.contents output.new) text) }
    ensures begun { OnErr result (IsTableBegun table.now (O.contents output.old) (O.contents output.new)) }
    ensures failed { IfErr result (λ error. error_kind error ≢ WasOutOfMemory → HasFault (O.noted output.new)) }
{
    let mut progress = TableProgress::new(rt.alloc(), rt, log, is_terminal, table.targets.len());
    let workers = workers_of(rt, request.workers);
    let outcome = write_table(rt, table, workers.number, output, &mut progress);
    progress.close();
    outcome
}

// Puts the table at its path, and reports progress to `log`, if there is one.
fn put_table<'c, H: OutDisk + AllocGlobal + Clock + Threads + Sync, E: Write>(
    rt: &'c H,
    table: &TravelTable<'_>,
    request: MatrixRequest<'_>,
    log: Option<&'c mut E>,
    is_terminal: bool,
) -> io::Result<()>
    requires can { (targets : Vec ℕ) → Contains table.now.targets.now targets
        → CanBeMade table.now targets.items }
    ensures put { OnOk result ((text : List ℕ) × IsTable table.now text
        × IsPut (H.files rt.now) request.entry.out.now text) }
    ensures unwritten { IfErr result (λ error. error_kind error ≢ WasOutOfMemory
        → IsUnwritable (H.files rt.now) request.entry.out.now) }
{
    let mut file = new_file(rt, request.out)?;
    let outcome = print_table(rt, table, request, &mut file.file, log, is_terminal);
    settle(rt, file, outcome)
}

// How many threads work: as many as are asked for, or one for each processor.
fn workers_of<R: Threads>(rt: &R, asked: Option<TableWorkers>) -> TableWorkers {
    match asked {
        Some(workers) => workers,
        None => TableWorkers::for_processors(processors(rt)),
    }
}

// How many processors the program may use; 1 if that isn't known.
fn processors<R: Threads>(rt: &R) -> usize {
    match available_parallelism(rt) {
        Ok(count) => count.get(),
        Err(_) => 1,
    }
}

// The status of a table on standard output.
fn printed(outcome: io::Result<()>) -> u8
    ensures status { EndsWritten result }
    ensures done { IfOk outcome (λ _. result ≡ ACCEPTED) }
    ensures failed { IfErr outcome (λ _. result ≢ ACCEPTED) }
    ensures cause { IfErr outcome (λ error. result ≡ INPUT_OUTPUT → error_kind error ≢ WasOutOfMemory) }
{
    match outcome {
        Ok(()) => status::ACCEPTED,
        Err(error) => match error.kind() {
            ErrorKind::OutOfMemory => status::OUT_OF_MEMORY,
            _ => status::INPUT_OUTPUT,
        },
    }
}

// Prints how many sets of stops a table has.
fn print_counts<O: Watched>(alloc: Global, table: &TravelTable<'_>, output: &mut O) -> u8
    ensures status { EndsWritten result }
    ensures printed { result ≡ ACCEPTED
        → Appends (O.contents output.old) (O.contents output.new) (counts_of table.now) }
    ensures begun { result ≡ INPUT_OUTPUT
        → IsBegun (O.contents output.old) (O.contents output.new) (counts_of table.now) }
    ensures silent { result ≡ OUT_OF_MEMORY → O.contents output.new ≡ O.contents output.old }
    ensures failed { result ≡ INPUT_OUTPUT → HasFault (O.noted output.new) }
{
    let line = counts_line(alloc, table.targets.len(), table.sources.len());
    status::write_line(output, line, status::ACCEPTED)
}

fn counts_line(alloc: Global, targets: usize, sources: usize) -> Result<String, AllocError>
    ensures { IfOk result (λ line. string_bytes line ≡ counts_text targets sources) }
{
    let mut line = String::new(alloc);
    put_number(&mut line, "targets ", targets as u64)?;
    put_number(&mut line, " sources ", sources as u64)?;
    put_text(&mut line, "\n")?;
    Ok(line)
}
