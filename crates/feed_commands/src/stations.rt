//! `csa stations FOLDER [TEXT] [--json]`.

ghost use Rattle.std.specs.Prelude.{◌≡◌, ◌≢◌, IfErr, IfOk, string_bytes};
ghost use Rattle.feed_loader.specs.Refused.{IsWantOfMemory};
ghost use Rattle.gtfs_rows.specs.declared.fault.FaultKind.{FaultKind as Kind};
ghost use Rattle.command_endings.specs.Ending.{IsOutcome};
ghost use Rattle.feed_commands.specs.Refusing.{PrintsOfFeed};
ghost use Rattle.feed_commands.specs.Stations.{IsStopTableOf, IsStopTableIn};
ghost use Rattle.feed_commands.specs.Stations.{IsFaultIn, IsStopsRefusal, IsTextAsked, IsTextOf, MayHoldStops};

use crate::explaining::explain_refused;
use crate::refusing::refuse_feed;
use command_endings::status;
use command_requests::StationsRequest;
use feed_files::{Disk, FileFault};
use feed_loader::LoadFault;
use feed_messages::{explain, quoted};
use feed_stations::{StopTable, homes_in, json_text, labels_in, lines_text};
use gtfs_rows::{FaultKind, IdHash, MAX_STOPS, StopRow, Table, TableFault, rows_up_to};
use image_files::Watched;
use std::alloc::{AllocError, Global};
use std::io::Write;
use std::rt::Files;

/// Reads the folder's `stops.txt`, and prints the stations and the stops without one that have the text in an id or a
/// name, each with its stops; or the first fault of that file, which it explains in `errors`. Returns `ACCEPTED`,
/// `REFUSED`, `INPUT_OUTPUT` if a file or a line can't be read or written, or `OUT_OF_MEMORY`, with nothing printed to
/// `output`.
pub fn run<H: Files + Disk + AllocGlobal, O: Watched, E: Write>(
    rt: &H,
    request: StationsRequest<'_>,
    output: &mut O,
    errors: &mut E,
) -> u8
    ensures { IsOutcome (PrintsOfFeed (IsTextOf H.gives request.entry.folder.now request.entry)
        (IsStopsRefusal H.gives request.entry.folder.now)) ⊥ (O.noted output.new) result
        (O.contents output.old) (O.contents output.new) }
{
    let alloc = rt.alloc();
    match text_of(rt, request) {
        Ok(text) => {
            explain_none(alloc, text.as_str(), request.text, errors);
            status::write_text(output, text.as_str(), status::ACCEPTED)
        }
        Err(fault) => {
            explain_refused(rt, request.folder, &fault, errors);
            refuse_feed(alloc, output, fault)
        }
    }
}

// Says that no id and no name has the text, or that there are none, if nothing is listed.
fn explain_none<E: Write>(alloc: Global, listed: &str, text: &str, errors: &mut E) {
    if !listed.is_empty() && listed != "[]\n" {
        return;
    }
    if text.is_empty() {
        explain(errors, &["csa: stops.txt has no station and no stop"]);
    } else if let Ok(shown) = quoted(alloc, text.as_bytes()) {
        let parts = [
            "csa: no id or name of a station or stop contains ",
            shown.as_str(),
        ];
        explain(errors, &parts);
    }
}

// The text that is asked for, or why there is none.
fn text_of<H: Disk + AllocGlobal>(rt: &H, request: StationsRequest<'_>) -> Result<String, LoadFault>
    ensures text { IfOk result (λ text. IsTextOf H.gives request.entry.folder.now request.entry (string_bytes text)) }
    ensures refused { IfErr result (λ fault. ¬ (IsWantOfMemory fault)
        → IsStopsRefusal H.gives request.entry.folder.now fault) }
{
    let stop_table = match stop_table_of(rt, request.folder) {
        Ok(stop_table) => stop_table,
        Err(fault) => return Err(fault),
    };
    match text_asked(rt.alloc(), &stop_table, request) {
        Ok(text) => Ok(text),
        Err(AllocError) => Err(LoadFault::Table(out_of_memory())),
    }
}

fn text_asked(
    alloc: Global,
    stop_table: &StopTable,
    request: StationsRequest<'_>,
) -> Result<String, AllocError>
    ensures { IfOk result (λ text. IsTextAsked request.entry.json stop_table.now request.entry.text.now
        (string_bytes text)) }
{
    match request.json {
        true => json_text(alloc, stop_table, request.text),
        false => lines_text(alloc, stop_table, request.text),
    }
}

// What the folder's `stops.txt` has, or why that isn't known.
fn stop_table_of<H: Disk + AllocGlobal>(rt: &H, folder: &str) -> Result<StopTable, LoadFault>
    ensures stop_table { IfOk result (IsStopTableIn H.gives folder.now) }
    ensures refused { IfErr result (λ fault. ¬ (IsWantOfMemory fault) → IsStopsRefusal H.gives folder.now fault) }
{
    let bytes = match stops_file(rt, folder) {
        Ok(bytes) => bytes,
        Err(fault) => return Err(fault),
    };
    match stop_table_in(rt.alloc(), rt.id_hash(), &bytes) {
        Ok(stop_table) => Ok(stop_table),
        Err(fault) => Err(LoadFault::Table(fault)),
    }
}

// The bytes of the folder's `stops.txt`.
fn stops_file<H: Disk + AllocGlobal>(rt: &H, folder: &str) -> Result<Vec<u8>, LoadFault>
    ensures bytes { IfOk result (λ bytes. MayHoldStops H.gives folder.now bytes.items) }
    ensures refused { IfErr result (λ fault. ¬ (IsWantOfMemory fault) → IsStopsRefusal H.gives folder.now fault) }
{
    let state = rt.folder_state(folder);
    match rt.feed_file(rt.alloc(), folder, &state, Table::Stops.file_name()) {
        Ok(Some(bytes)) => Ok(bytes),
        Ok(None) => Err(LoadFault::Table(Table::Stops.missing())),
        Err(FileFault::Failed) => Err(LoadFault::FileFailed(Table::Stops)),
        Err(FileFault::OutOfMemory) => Err(LoadFault::Table(out_of_memory())),
    }
}

// What the bytes of `stops.txt` have, or their first fault.
fn stop_table_in(alloc: Global, hash: IdHash, bytes: &[u8]) -> Result<StopTable, TableFault>
    ensures stop_table { IfOk result (IsStopTableOf bytes.now) }
    ensures fault { IfErr result (λ fault. fault.kind ≢ Kind.OutOfMemory → IsFaultIn bytes.now fault) }
{
    let rows: Vec<StopRow> = match rows_up_to(MAX_STOPS, alloc, hash, bytes) {
        Ok(rows) => rows,
        Err(fault) => return Err(fault),
    };
    let homes = match homes_in(alloc, hash, &rows) {
        Ok(homes) => homes,
        Err(fault) => return Err(fault),
    };
    match labels_in(alloc, bytes) {
        Ok(labels) => Ok(StopTable {
            rows,
            labels,
            homes,
        }),
        Err(AllocError) => Err(out_of_memory()),
    }
}

fn out_of_memory() -> TableFault
    ensures { result.kind ≡ Kind.OutOfMemory }
{
    TableFault {
        file: Table::Stops,
        row: 0,
        kind: FaultKind::OutOfMemory,
    }
}
