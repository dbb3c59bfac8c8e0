//! Warnings on standard error that an image which was built may not be what was wanted.

ghost use Rattle.std.specs.Prelude.{◌≡◌, true, IfSome};
ghost use Rattle.gtfs_rows.specs.Values.{is_civil};

use command_requests::ZoneText;
use csv::ByteRecord;
use feed_loader::{Plan, Report, day_number};
use feed_messages::{advance, explain, file_bytes, is_folder, quoted};
use gtfs_rows::values::number;
use gtfs_rows::{Day, Records, cell, column, find_record};
use image_verifier::Verified;
use service_days::{Zone, day_after, day_start};
use std::alloc::{AllocError, Global};
use std::fmt::Write as _;
use std::fs;
use std::io::{ErrorKind, Write};
use std::rt::Files;

/// Where systems have their time zone files.
pub const ZONES: &str = "/usr/share/zoneinfo";

/// How many bytes a time zone file may have at most.
const LONGEST_ZONE: u64 = 1_000_000;

/// An image, the plan by which it was made, and its counts.
#[derive(Drop)]
pub struct BuiltImage {
    pub image: Verified,
    pub plan: Plan,
    pub report: Report,
}

/// Warns of days without a trip, of transfers that were left out, and of a zone that isn't the feed's.
pub fn warn<H: Files + AllocGlobal, E: Write>(
    rt: &H,
    folder: &str,
    zone: &ZoneText<'_>,
    built: &BuiltImage,
    errors: &mut E,
) {
    if built.report.runs == 0 {
        let line = "no trip runs on these days, so no query has a departure \
(`csa days FOLDER` prints the days on which trips run)";
        warn_of(errors, line);
    } else if let Some(line) = idle_days(rt.alloc(), built) {
        warn_of(errors, line.as_str());
    }
    if built.report.skipped > 0 {
        warn_of_transfers(rt, folder, errors);
    }
    if let Some(line) = of_zone(rt, folder, zone, &built.plan) {
        warn_of(errors, line.as_str());
    }
}

fn warn_of<E: Write>(errors: &mut E, line: &str) {
    explain(errors, &["csa: warning: ", line]);
}

/// The warning of the days of the plan on which no trip runs; `None` if there are none.
fn idle_days(alloc: Global, built: &BuiltImage) -> Option<String> {
    let mut text = format!(in alloc; "no trip runs on").ok()?;
    let mut is_first = true;
    let mut day = built.plan.first_day;
    for _ in 0..built.plan.days {
        if is_idle(built, day)? {
            append_day(&mut text, is_first, day)?;
            is_first = false;
        }
        day = day_after(day);
    }
    if is_first { None } else { Some(text) }
}

/// Whether no trip runs on a day. `None` if it is no day of the calendar or has no start in the zone.
fn is_idle(built: &BuiltImage, day: Day) -> Option<bool>
    ensures { IfSome result (λ _. is_civil day ≡ true) }
{
    day_start(&built.plan.zone, day).ok()?;
    Some(!has_trip_on(&built.image, day_number(day)))
}

/// Appends a day, behind a comma if it isn't the first.
fn append_day(text: &mut String, is_first: bool, day: Day) -> Option<()> {
    let number = day_number(day);
    if is_first {
        write!(text, " {number:08}").ok()
    } else {
        write!(text, ", {number:08}").ok()
    }
}

/// Whether a trip of the image runs on a day, given as the number YYYYMMDD.
fn has_trip_on(image: &Verified, day: u32) -> bool {
    for trip in 0..image.trips() {
        if image.trip_day(trip as usize) == day {
            return true;
        }
    }
    false
}

/// Rows that are left out for one reason.
#[derive(Drop)]
struct RowsLeftOut {
    count: u64,
    /// The line of the first one, 0 if there is none.
    first: u64,
}

impl RowsLeftOut {
    fn none() -> RowsLeftOut {
        RowsLeftOut { count: 0, first: 0 }
    }

    fn add(&mut self, records: &Records<'_>) {
        if self.count == 0 {
            self.first = records.position().line;
        }
        self.count = self.count.saturating_add(1);
    }

    /// Appends how many rows there are, why they are left out, and the line of the first, if there are any.
    fn append(&self, text: &mut String, between: &str, reason: &str) -> Result<(), AllocError> {
        let (count, first) = (self.count, self.first);
        match count {
            0 => Ok(()),
            1 => write!(text, "{between}1 {reason} (line {first})"),
            _ => write!(
                text,
                "{between}{count} {reason} (the first in line {first})"
            ),
        }
    }
}

/// The transfers that are left out, by reason.
#[derive(Drop)]
struct TransfersLeftOut {
    between_trips: RowsLeftOut,
    of_other_types: RowsLeftOut,
}

/// The columns of `transfers.txt` that restrict a row to trips or routes.
const TRIPS_AND_ROUTES: [&str; 4] = ["from_route_id", "to_route_id", "from_trip_id", "to_trip_id"];

/// The indices of the columns that say whether a transfer is left out.
#[derive(Clone, Copy, Drop)]
struct TransferColumns {
    trips_and_routes: [Option<usize>; 4],
    transfer_type: Option<usize>,
}

impl TransferColumns {
    fn of(header: &ByteRecord) -> TransferColumns {
        let [from_route, to_route, from_trip, to_trip] = TRIPS_AND_ROUTES;
        TransferColumns {
            trips_and_routes: [
                column(header, from_route.as_bytes()),
                column(header, to_route.as_bytes()),
                column(header, from_trip.as_bytes()),
                column(header, to_trip.as_bytes()),
            ],
            transfer_type: column(header, b"transfer_type"),
        }
    }
}

impl TransfersLeftOut {
    /// Takes note of a record, if it is left out.
    fn note(&mut self, columns: &TransferColumns, records: &Records<'_>) {
        let record = records.last();
        let transfer_type = cell(record, columns.transfer_type);
        if has_any(record, &columns.trips_and_routes) {
            self.between_trips.add(records);
        } else if !transfer_type.is_empty() && number(transfer_type).unwrap_or(4) > 3 {
            self.of_other_types.add(records);
        }
    }
}

fn has_any(record: &ByteRecord, columns: &[Option<usize>]) -> bool {
    columns.iter().any(|place| !cell(record, *place).is_empty())
}

/// The transfers of a file that are left out; none if memory runs out.
fn left_out_of(alloc: Global, bytes: &[u8]) -> Option<TransfersLeftOut> {
    let mut left_out = TransfersLeftOut {
        between_trips: RowsLeftOut::none(),
        of_other_types: RowsLeftOut::none(),
    };
    let mut records = Records::open(alloc, bytes);
    advance(&mut records)?;
    let columns = TransferColumns::of(records.last());
    for _ in 0..u64::MAX {
        if advance(&mut records).is_none() {
            return Some(left_out);
        }
        left_out.note(&columns, &records);
    }
    None
}

fn warn_of_transfers<H: Files + AllocGlobal, E: Write>(rt: &H, folder: &str, errors: &mut E) {
    match transfers_line(rt, folder) {
        Some(line) => warn_of(errors, line.as_str()),
        None => warn_of(errors, "rows of transfers.txt are left out"),
    }
}

fn transfers_line<H: Files + AllocGlobal>(rt: &H, folder: &str) -> Option<String> {
    let bytes = file_bytes(rt, folder, "transfers.txt")?;
    let left_out = left_out_of(rt.alloc(), &bytes)?;
    text_of(rt.alloc(), &left_out).ok()
}

fn text_of(alloc: Global, left_out: &TransfersLeftOut) -> Result<String, AllocError> {
    let mut text = format!(in alloc; "rows of transfers.txt are left out")?;
    let other_type = "of a transfer_type that isn't one of 0, 1, 2, 3";
    let (trips, others) = (&left_out.between_trips, &left_out.of_other_types);
    trips.append(&mut text, ": ", "between trips or routes")?;
    if trips.count == 0 {
        others.append(&mut text, ": ", other_type)?;
    } else {
        others.append(&mut text, ", ", other_type)?;
    }
    text.push_str("; a change there may need more time than answers give it")?;
    Ok(text)
}

/// The warning about the feed's own zone. There is none if the zone that is asked for is a file of that name, which may
/// be newer than the system's.
fn of_zone<H: Files + AllocGlobal>(
    rt: &H,
    folder: &str,
    asked: &ZoneText<'_>,
    plan: &Plan,
) -> Option<String> {
    let bytes = file_bytes(rt, folder, "agency.txt")?;
    let found = find_record(rt.alloc(), &bytes, 1).ok()??;
    let place = column(&found.header, b"agency_timezone");
    let name = str::from_utf8(cell(&found.record, place)).ok()?;
    if is_file_of(asked, name) {
        return None;
    }
    match zone_file(rt, name) {
        ZoneFile::At(path) => other_days(rt, name, path.as_str(), plan),
        ZoneFile::Missing => no_zone(rt, name),
        ZoneFile::Unknown => None,
    }
}

/// The warning that the feed's own zone is none of the system's, if the system has any.
fn no_zone<H: Files + AllocGlobal>(rt: &H, name: &str) -> Option<String> {
    if !is_folder(rt, ZONES) {
        return None;
    }
    let name = quoted(rt.alloc(), name.as_bytes()).ok()?;
    format!(in rt.alloc(); "agency_timezone {name} in agency.txt is no zone of {ZONES}").ok()
}

/// The warning that days begin at other instants in the feed's own zone, by the system's file of that zone.
fn other_days<H: Files + AllocGlobal>(
    rt: &H,
    name: &str,
    path: &str,
    plan: &Plan,
) -> Option<String> {
    let bytes = fs::read(rt, path).ok()?;
    let zone = Zone::file_bytes(rt.alloc(), &bytes).ok()?;
    if is_same_on_days(&zone, plan) {
        return None;
    }
    format!(in rt.alloc();
        "days begin at another time in the feed's agency_timezone, {name}: for that zone write --zone file:{path}"
    ).ok()
}

/// Whether a zone is a file with this name, in whatever folder.
fn is_file_of(asked: &ZoneText<'_>, name: &str) -> bool {
    match asked {
        ZoneText::File(path) => match path.strip_suffix(name) {
            Some(folder) => folder.ends_with('/'),
            None => false,
        },
        ZoneText::Fixed(_) => false,
        ZoneText::Posix(_) => false,
    }
}

/// The system's file of a zone.
#[derive(Drop)]
pub enum ZoneFile {
    /// It is at this path.
    At(String),
    /// The system has none.
    Missing,
    /// It isn't known: memory ran out, the system can't say, or the file is too long to be one.
    Unknown,
}

/// Looks for the system's file of the zone of this name.
pub fn zone_file<H: Files + AllocGlobal>(rt: &H, name: &str) -> ZoneFile {
    if !is_zone_name(name) {
        return ZoneFile::Missing;
    }
    match format!(in rt.alloc(); "{ZONES}/{name}") {
        Ok(path) => zone_file_at(rt, path),
        Err(_) => ZoneFile::Unknown,
    }
}

fn zone_file_at<H: Files>(rt: &H, path: String) -> ZoneFile {
    match fs::metadata(rt, path.as_str()) {
        Ok(metadata) => {
            if !metadata.is_file() {
                ZoneFile::Missing
            } else if metadata.len() <= LONGEST_ZONE {
                ZoneFile::At(path)
            } else {
                ZoneFile::Unknown
            }
        }
        Err(error) => match error.kind() {
            ErrorKind::NotFound | ErrorKind::NotADirectory => ZoneFile::Missing,
            _ => ZoneFile::Unknown,
        },
    }
}

fn is_zone_name(name: &str) -> bool {
    !name.is_empty() && !name.contains(':') && !name.contains('.') && !name.starts_with('/')
}

/// Whether the days of the plan begin at the same instants in another zone. From the first day that has no start in
/// either zone, none is compared.
fn is_same_on_days(zone: &Zone, plan: &Plan) -> bool {
    let mut day = plan.first_day;
    for _ in 0..plan.days {
        let (Ok(planned), Ok(other)) = (day_start(&plan.zone, day), day_start(zone, day)) else {
            return true;
        };
        if planned != other {
            return false;
        }
        day = day_after(day);
    }
    true
}
