//! `csa tables FOLDER [--all-faults] [--json]`.

ghost use Rattle.std.specs.Prelude.{◌≡◌, ◌≢◌, ◌++◌, false, IfErr, IfOk, OnOk, string_bytes};
ghost use Rattle.command_requests.specs.declared.statuses.TheConstants.{ACCEPTED};
ghost use Rattle.feed_loader.specs.Refused.{IsWantOfMemory};
ghost use Rattle.gtfs_tables.specs.Feeds.{IsFirstFault};
ghost use Rattle.gtfs_tables.specs.First.{no_memory};
ghost use Rattle.command_endings.specs.Ending.{IsOutcome, PrintsOnly};
ghost use Rattle.feed_commands.specs.Folders.{IsTablesRefusalOf};
ghost use Rattle.feed_commands.specs.Tabling.{AreCountsOf, AreCountsOfJoined, IsCounts, counts_asked, counts_json};
ghost use Rattle.feed_commands.specs.Refusing.{PrintsOfFeed};
ghost use Rattle.feed_commands.specs.Tabling.{counts_of, counts_text, services_json, services_text, trips_json};
ghost use Rattle.feed_commands.specs.Tabling.{trips_text};

use crate::explaining::explain_faults;
use crate::reading::tables_in;
use crate::refusing::refuse_feed;
use command_endings::status;
use command_requests::TablesRequest;
use feed_files::Disk;
use feed_loader::LoadFault;
use gtfs_rows::TableFault;
use gtfs_tables::{Tables, join};
use image_files::Watched;
use std::alloc::{AllocError, Global};
use std::io::Write;
use std::rt::Files;
use text_pieces::{put_number, put_text};

/// How many records each table of a feed has.
#[derive(Clone, Copy, Drop)]
struct TableCounts {
    agencies: usize,
    stops: usize,
    trips: usize,
    stop_times: usize,
    calendar: usize,
    calendar_dates: usize,
    transfers: usize,
}

/// Reads and joins the tables of the folder's files, and prints to `output` how many records each has; or the first
/// fault, which it explains in `errors`, with all others if they are asked for. Returns `ACCEPTED`, with nothing
/// explained; `REFUSED`; `INPUT_OUTPUT` if a file or a line can't be read or written; or `OUT_OF_MEMORY`, with nothing
/// printed to `output`.
pub fn run<H: Files + Disk + AllocGlobal, O: Watched, E: Write>(
    rt: &H,
    request: TablesRequest<'_>,
    output: &mut O,
    errors: &mut E,
) -> u8
    ensures printed { IsOutcome (PrintsOfFeed (IsCounts H.gives request.entry)
        (IsTablesRefusalOf H.gives request.entry.folder.now)) ⊥ (O.noted output.new) result
        (O.contents output.old) (O.contents output.new) }
    ensures unexplained { result ≡ ACCEPTED → E.contents errors.new ≡ E.contents errors.old }
{
    let alloc = rt.alloc();
    let folder = request.folder;
    match count_records(rt, folder) {
        Ok(counts) => print_counts(alloc, counts, request.json, output),
        Err(fault) => {
            explain_faults(rt, folder, &fault, errors, request.all_faults, false);
            refuse_feed(alloc, output, fault)
        }
    }
}

// Counts the records of the folder's tables, if they can be read and joined; or returns their first fault.
fn count_records<H: Disk + AllocGlobal>(rt: &H, folder: &str) -> Result<TableCounts, LoadFault>
    ensures counts { IfOk result (AreCountsOf H.gives folder.now) }
    ensures refused { IfErr result (λ fault. ¬ (IsWantOfMemory fault) → IsTablesRefusalOf H.gives folder.now fault) }
{
    let tables = tables_in(rt, folder)?;
    let counts = count_joined(rt.alloc(), tables)?;
    Ok(counts)
}

// Counts the records of tables, if they can be joined; or returns their first fault.
fn count_joined(alloc: Global, tables: Tables) -> Result<TableCounts, TableFault>
    ensures counts { IfOk result (AreCountsOfJoined tables) }
    ensures refused { IfErr result (λ fault. fault ≢ no_memory → IsFirstFault false tables fault) }
{
    let counts = counts_of(&tables);
    let _feed = join(alloc, tables, false)?;
    Ok(counts)
}

fn counts_of(tables: &Tables) -> TableCounts
    ensures { result ≡ counts_of tables.now }
{
    TableCounts {
        agencies: tables.agencies.len(),
        stops: tables.stops.len(),
        trips: tables.trips.len(),
        stop_times: tables.stop_times.rows.len(),
        calendar: tables.calendar.len(),
        calendar_dates: tables.calendar_dates.len(),
        transfers: tables.transfers.len(),
    }
}

// Prints the counts. Never returns `REFUSED`.
fn print_counts<O: Watched>(alloc: Global, counts: TableCounts, json: bool, output: &mut O) -> u8
    ensures { IsOutcome (PrintsOnly (λ text. text ≡ counts_asked json counts)) ⊥ (O.noted output.new) result
        (O.contents output.old) (O.contents output.new) }
{
    match text_of(alloc, counts, json) {
        Ok(text) => status::write_text(output, text.as_str(), status::ACCEPTED),
        Err(_) => status::OUT_OF_MEMORY,
    }
}

fn text_of(alloc: Global, counts: TableCounts, json: bool) -> Result<String, AllocError>
    ensures { IfOk result (λ text. string_bytes text ≡ counts_asked json counts) }
{
    match json {
        true => json_of(alloc, counts),
        false => line_of(alloc, counts),
    }
}

fn line_of(alloc: Global, counts: TableCounts) -> Result<String, AllocError>
    ensures { IfOk result (λ line. string_bytes line ≡ counts_text counts) }
{
    let mut line = String::new(alloc);
    append_trips(&mut line, counts)?;
    append_services(&mut line, counts)?;
    put_text(&mut line, "\n")?;
    Ok(line)
}

fn append_trips(line: &mut String, counts: TableCounts) -> Result<(), AllocError>
    ensures { OnOk result (string_bytes line.new ≡ string_bytes line.old ++ trips_text counts) }
{
    put_number(line, "tables agencies ", counts.agencies as u64)?;
    put_number(line, " stops ", counts.stops as u64)?;
    put_number(line, " trips ", counts.trips as u64)?;
    put_number(line, " stop_times ", counts.stop_times as u64)?;
    Ok(())
}

fn append_services(line: &mut String, counts: TableCounts) -> Result<(), AllocError>
    ensures { OnOk result (string_bytes line.new ≡ string_bytes line.old ++ services_text counts) }
{
    put_number(line, " calendar ", counts.calendar as u64)?;
    put_number(line, " calendar_dates ", counts.calendar_dates as u64)?;
    put_number(line, " transfers ", counts.transfers as u64)?;
    Ok(())
}

fn json_of(alloc: Global, counts: TableCounts) -> Result<String, AllocError>
    ensures { IfOk result (λ json. string_bytes json ≡ counts_json counts) }
{
    let mut json = String::new(alloc);
    append_services_json(&mut json, counts)?;
    append_trips_json(&mut json, counts)?;
    put_text(&mut json, "}\n")?;
    Ok(json)
}

fn append_services_json(json: &mut String, counts: TableCounts) -> Result<(), AllocError>
    ensures { OnOk result (string_bytes json.new ≡ string_bytes json.old ++ services_json counts) }
{
    put_number(json, "{\"agencies\":", counts.agencies as u64)?;
    put_number(json, ",\"calendar\":", counts.calendar as u64)?;
    put_number(json, ",\"calendar_dates\":", counts.calendar_dates as u64)?;
    Ok(())
}

fn append_trips_json(json: &mut String, counts: TableCounts) -> Result<(), AllocError>
    ensures { OnOk result (string_bytes json.new ≡ string_bytes json.old ++ trips_json counts) }
{
    put_number(json, ",\"stop_times\":", counts.stop_times as u64)?;
    put_number(json, ",\"stops\":", counts.stops as u64)?;
    put_number(json, ",\"transfers\":", counts.transfers as u64)?;
    put_number(json, ",\"trips\":", counts.trips as u64)?;
    Ok(())
}
