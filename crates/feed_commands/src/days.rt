//! `csa days FOLDER [--json]`.

ghost use Rattle.std.specs.Prelude.{IfErr, IfOk, string_bytes};
ghost use Rattle.feed_loader.specs.Refused.{IsWantOfMemory};
ghost use Rattle.command_endings.specs.Ending.{IsOutcome, PrintsOnly};
ghost use Rattle.feed_commands.specs.Folders.{AreDaysOf, IsDays, IsFeedOf, IsTablesRefusalOf};
ghost use Rattle.feed_commands.specs.Refusing.{PrintsOfFeed};

use crate::explaining::explain_refused;
use crate::reading::tables_in;
use crate::refusing::refuse_feed;
use command_endings::status;
use command_requests::DaysRequest;
use feed_days::{days_json, days_text};
use feed_files::Disk;
use feed_loader::LoadFault;
use gtfs_tables::{Feed, join};
use image_files::Watched;
use std::alloc::{AllocError, Global};
use std::io::Write;
use std::rt::Files;

/// Reads and joins the tables of the folder's files, and prints to `output` which service days the feed has; or the
/// first fault, which it explains in `errors`. Returns `ACCEPTED`, `REFUSED`, `INPUT_OUTPUT` if a file or a line can't
/// be read or written, or `OUT_OF_MEMORY`, with nothing printed to `output`.
pub fn run<H: Files + Disk + AllocGlobal, O: Watched, E: Write>(
    rt: &H,
    request: DaysRequest<'_>,
    output: &mut O,
    errors: &mut E,
) -> u8
    ensures { IsOutcome (PrintsOfFeed (AreDaysOf H.gives request.entry.folder.now request.entry.json)
        (IsTablesRefusalOf H.gives request.entry.folder.now)) ⊥ (O.noted output.new) result
        (O.contents output.old) (O.contents output.new) }
{
    let alloc = rt.alloc();
    let folder = request.folder;
    match read_feed(rt, folder) {
        Ok(feed) => print_days(alloc, &feed, request.json, output),
        Err(fault) => {
            explain_refused(rt, folder, &fault, errors);
            refuse_feed(alloc, output, fault)
        }
    }
}

// Reads and joins the tables of the folder's files.
fn read_feed<H: Disk + AllocGlobal>(rt: &H, folder: &str) -> Result<Feed, LoadFault>
    ensures feed { IfOk result (IsFeedOf H.gives folder.now) }
    ensures refused { IfErr result (λ fault. ¬ (IsWantOfMemory fault) → IsTablesRefusalOf H.gives folder.now fault) }
{
    let tables = tables_in(rt, folder)?;
    let feed = join(rt.alloc(), tables, false)?;
    Ok(feed)
}

// Prints which service days a feed has. Never returns `REFUSED`.
fn print_days<O: Watched>(alloc: Global, feed: &Feed, json: bool, output: &mut O) -> u8
    ensures { IsOutcome (PrintsOnly (IsDays json feed.now)) ⊥ (O.noted output.new) result
        (O.contents output.old) (O.contents output.new) }
{
    match text_of(alloc, feed, json) {
        Ok(text) => status::write_text(output, text.as_str(), status::ACCEPTED),
        Err(_) => status::OUT_OF_MEMORY,
    }
}

fn text_of(alloc: Global, feed: &Feed, json: bool) -> Result<String, AllocError>
    ensures { IfOk result (λ text. IsDays json feed.now (string_bytes text)) }
{
    match json {
        true => days_json(alloc, feed),
        false => days_text(alloc, feed),
    }
}
