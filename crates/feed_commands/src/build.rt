//! `csa build FOLDER OUT --first DAY --days N --zone ZONE [--strict] [--progress] [--all-faults] [--json]
//! [--no-warnings]`.

ghost use Rattle.std.specs.Prelude.{◌≡◌, ◌≤◌, ◌++◌, IfErr, IfOk, OnOk, string_bytes};
ghost use Rattle.connections.specs.declared.days.TheConstants.{MAX_DAYS};
ghost use Rattle.connections.specs.declared.report.Report.{Report as ReportValue};
ghost use Rattle.timetable.specs.NamesValue.{NamesValue};
ghost use Rattle.timetable.specs.TimetableValue.{TimetableValue};
ghost use Rattle.feed_files.specs.Reading.{Content};
ghost use Rattle.feed_files.specs.Reads.{AreRead, Shows, SomeWereRead, all_tables};
ghost use Rattle.feed_loader.specs.Refused.{IsLoadRefusal, IsLoaded};
ghost use Rattle.image_files.specs.Writing.{IsImagePut, IsUnwritable};
ghost use Rattle.feed_commands.specs.Building.{IfRefused, IfUnusable, IsReport, IsUnusable, changed_text, json_head};
ghost use Rattle.feed_commands.specs.Building.{json_tail, made_text};
ghost use Rattle.feed_commands.specs.Building.{report_asked, report_json, report_line};
ghost use Rattle.command_endings.specs.Ending.{IsOutcome, PrintsOnly};
ghost use Rattle.feed_commands.specs.Folders.{IsBuildRefusal, IsBuiltFrom, failed_as};
ghost use Rattle.feed_commands.specs.Refusing.{PrintsOfFeed};

use crate::explaining::{explain_faults, report_unread_zone};
use crate::progress::{BuildReports, Progress, ReportedFiles, load_reported};
use crate::refusing::refuse_feed;
use crate::warnings::{BuiltImage, warn};
use command_endings::status;
use command_requests::BuildRequest;
use feed_files::{Disk, FeedFiles, FolderFiles};
use feed_loader::{LoadFault, Plan, Report};
use feed_plans::{PlanFailure, WallClock, plan_of};
use image_files::{ImageDisk, OutDisk, Watched, put_image};
use std::alloc::{AllocError, Global};
use std::io::{ErrorKind, Write};
use std::time::Clock;
use text_pieces::{put_number, put_text};

/// Why no image is written.
enum BuildFailure<'a> {
    /// The feed isn't loaded, or the text or the file of the zone is wrong.
    Refused(LoadFault),
    /// The zone's file, at this path, can't be read.
    Unreadable(&'a str),
    /// The file at this path can't be written, because of an error of this kind.
    Unwritten(&'a str, ErrorKind),
    OutOfMemory,
}

/// Builds the image of the folder's feed, writes it, and prints its counts to `output`; or prints the first fault. A
/// plain file at the path is replaced once the image is whole. Explanations go to `errors`; so do warnings, if
/// `warnings` is set, and progress, if the request asks for it or `is_terminal` is set. Returns `ACCEPTED`, `REFUSED`,
/// `INPUT_OUTPUT` if a file or a line can't be read or written, or `OUT_OF_MEMORY`, with nothing printed to `output`.
pub fn run<
    H: OutDisk + ImageDisk<Image = H::File> + Disk + AllocGlobal + Clock + WallClock,
    O: Watched,
    E: Write,
>(
    rt: &H,
    request: BuildRequest<'_>,
    output: &mut O,
    errors: &mut E,
    is_terminal: bool,
    warnings: bool,
) -> u8
    ensures { IsOutcome (PrintsOfFeed
        (IsReport H.gives (H.may_hold rt.now) (H.may_show rt.now) (H.files rt.now) request.entry)
        (IsBuildRefusal H.gives request.entry.folder.now (H.may_hold rt.now) (H.may_show rt.now) request.entry.plan))
        (IsUnusable H.gives (H.may_hold rt.now) (H.may_fail rt.now) (H.may_show rt.now) (H.files rt.now) request.entry)
        (O.noted output.new) result (O.contents output.old) (O.contents output.new) }
{
    let alloc = rt.alloc();
    let folder = request.folder;
    let log = if request.progress || is_terminal {
        Some(&mut *errors)
    } else {
        None
    };
    match build(rt, &request, log, is_terminal) {
        Ok(built) => {
            if warnings {
                warn(rt, folder, &request.plan.zone, &built, errors);
            }
            print_counts(alloc, &built.report, request.json, output)
        }
        Err(BuildFailure::Refused(fault)) => {
            let (all, strict) = (request.all_faults, request.plan.strict);
            explain_faults(rt, folder, &fault, errors, all, strict);
            refuse_feed(alloc, output, fault)
        }
        Err(BuildFailure::Unreadable(path)) => report_unread_zone(rt, errors, path),
        Err(BuildFailure::Unwritten(path, kind)) => status::report_unwritten(errors, path, kind),
        Err(BuildFailure::OutOfMemory) => status::OUT_OF_MEMORY,
    }
}

// Builds the image and writes it, and reports progress to `log`, if there is one.
fn build<
    'a,
    'c,
    H: OutDisk + ImageDisk<Image = H::File> + Disk + AllocGlobal + Clock + WallClock,
    E: Write,
>(
    rt: &'c H,
    request: &BuildRequest<'a>,
    log: Option<&'c mut E>,
    is_terminal: bool,
) -> Result<BuiltImage, BuildFailure<'a>>
    ensures built { IfOk result (λ built. IsBuiltFrom H.gives request.now.folder.now (H.may_hold rt.now)
        (H.may_show rt.now) request.now.plan built.image.timetable built.image.names built.report) }
    ensures put { IfOk result (λ built. IsImagePut (H.files rt.now) request.now.out.now built.image.timetable
        built.image.names) }
    ensures refused { IfErr result (λ failure. IfRefused failure
        (IsBuildRefusal H.gives request.now.folder.now (H.may_hold rt.now) (H.may_show rt.now) request.now.plan)) }
    ensures unusable { IfErr result (λ failure. IfUnusable failure
        (IsUnusable H.gives (H.may_hold rt.now) (H.may_fail rt.now) (H.may_show rt.now) (H.files rt.now)
        request.now)) }
{
    let plan = match plan_of(rt, &request.plan) {
        Ok(plan) => plan,
        Err(PlanFailure::Refused(fault)) => return Err(BuildFailure::Refused(fault)),
        Err(PlanFailure::Unreadable(path)) => return Err(BuildFailure::Unreadable(path)),
        Err(PlanFailure::OutOfMemory) => return Err(BuildFailure::OutOfMemory),
    };
    let progress = Progress::new(rt.alloc(), rt, log, is_terminal);
    let mut files = ReportedFiles::new(FolderFiles::new(rt, request.folder), progress);
    let built = build_reported(rt, request.out, &mut files, plan);
    files.close();
    built
}

// Builds the image of the files, and writes it to the path `out`.
fn build_reported<'a, H: OutDisk + AllocGlobal, F: FeedFiles, R: BuildReports>(
    rt: &H,
    out: &'a str,
    files: &mut ReportedFiles<F, R>,
    plan: Plan,
) -> Result<BuiltImage, BuildFailure<'a>>
    requires some { 1 ≤ plan.days }
    requires few { plan.days ≤ MAX_DAYS }
    ensures built { IfOk result (λ built. (content : Content)
        × AreRead content all_tables (F.words.reads files.old.files) (F.words.reads files.new.files)
        × IsLoaded content plan built.image.timetable built.image.names built.report) }
    ensures put { IfOk result (λ built. IsImagePut (H.files rt.now) out.now built.image.timetable built.image.names) }
    ensures refused { IfErr result (λ failure. IfRefused failure (λ fault.
        SomeWereRead (F.words.reads files.old.files) (F.words.reads files.new.files)
        × (F.words.failed files.new.files ≡ failed_as (F.words.failed files.old.files) fault)
        × ((content : Content) → Shows F.words files.old.files files.new.files content
        → IsLoadRefusal content plan fault))) }
    ensures unusable { IfErr result (λ failure. IfUnusable failure (IsUnwritable (H.files rt.now) out.now
        × ((t : TimetableValue) × (names : NamesValue) × (report : ReportValue) × (content : Content)
        × AreRead content all_tables (F.words.reads files.old.files) (F.words.reads files.new.files)
        × IsLoaded content plan t names report))) }
{
    let (image, report) = match load_reported(rt.alloc(), files, &plan) {
        Ok(loaded) => loaded,
        Err(fault) => return Err(BuildFailure::Refused(fault)),
    };
    files.report_writing(out);
    if let Err(error) = put_image(rt, out, image.words()) {
        return Err(BuildFailure::Unwritten(out, error.kind()));
    }
    files.report_written(out, image.words().len());
    Ok(BuiltImage {
        image,
        plan,
        report,
    })
}

// Prints the counts. Never returns `REFUSED`.
fn print_counts<O: Watched>(alloc: Global, report: &Report, json: bool, output: &mut O) -> u8
    ensures { IsOutcome (PrintsOnly (λ text. text ≡ report_asked json report.now)) ⊥ (O.noted output.new) result
        (O.contents output.old) (O.contents output.new) }
{
    match text_of(alloc, report, json) {
        Ok(text) => status::write_text(output, text.as_str(), status::ACCEPTED),
        Err(_) => status::OUT_OF_MEMORY,
    }
}

fn text_of(alloc: Global, report: &Report, json: bool) -> Result<String, AllocError>
    ensures { IfOk result (λ text. string_bytes text ≡ report_asked json report.now) }
{
    match json {
        true => json_of(alloc, report),
        false => line_of(alloc, report),
    }
}

fn line_of(alloc: Global, report: &Report) -> Result<String, AllocError>
    ensures { IfOk result (λ line. string_bytes line ≡ report_line report.now) }
{
    let mut line = String::new(alloc);
    append_made(&mut line, report)?;
    append_changed(&mut line, report)?;
    put_text(&mut line, "\n")?;
    Ok(line)
}

// Adds how many stops, runs, connections and footpaths the image has.
fn append_made(line: &mut String, report: &Report) -> Result<(), AllocError>
    ensures { OnOk result (string_bytes line.new ≡ string_bytes line.old ++ made_text report.now) }
{
    put_number(line, "stops ", report.stops as u64)?;
    put_number(line, " runs ", report.runs as u64)?;
    put_number(line, " connections ", report.connections as u64)?;
    put_number(line, " footpaths ", report.footpaths as u64)?;
    Ok(())
}

// Adds how many trips were lifted, how many are flex trips, how many `frequencies.txt` names, and how many rows of
// `transfers.txt` were skipped.
fn append_changed(line: &mut String, report: &Report) -> Result<(), AllocError>
    ensures { OnOk result (string_bytes line.new ≡ string_bytes line.old ++ changed_text report.now) }
{
    put_number(line, " lifted ", report.lifted as u64)?;
    put_number(line, " flex ", report.flex as u64)?;
    put_number(line, " frequencies ", report.frequencies as u64)?;
    put_number(line, " skipped ", report.skipped as u64)?;
    Ok(())
}

fn json_of(alloc: Global, report: &Report) -> Result<String, AllocError>
    ensures { IfOk result (λ json. string_bytes json ≡ report_json report.now) }
{
    let mut json = String::new(alloc);
    append_json_head(&mut json, report)?;
    append_json_tail(&mut json, report)?;
    Ok(json)
}

fn append_json_head(json: &mut String, report: &Report) -> Result<(), AllocError>
    ensures { OnOk result (string_bytes json.new ≡ string_bytes json.old ++ json_head report.now) }
{
    put_number(json, "{\"connections\":", report.connections as u64)?;
    put_number(json, ",\"flex\":", report.flex as u64)?;
    put_number(json, ",\"footpaths\":", report.footpaths as u64)?;
    put_number(json, ",\"frequencies\":", report.frequencies as u64)?;
    Ok(())
}

fn append_json_tail(json: &mut String, report: &Report) -> Result<(), AllocError>
    ensures { OnOk result (string_bytes json.new ≡ string_bytes json.old ++ json_tail report.now) }
{
    put_number(json, ",\"lifted\":", report.lifted as u64)?;
    put_number(json, ",\"runs\":", report.runs as u64)?;
    put_number(json, ",\"skipped\":", report.skipped as u64)?;
    put_number(json, ",\"stops\":", report.stops as u64)?;
    put_text(json, "}\n")?;
    Ok(())
}
