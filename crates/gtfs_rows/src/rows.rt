//! The rows of all tables but `stop_times.txt`, and how a record is read as one.

ghost use Rattle.std.specs.Prelude.{◌≡◌, None, Some, IfOk};
ghost use Rattle.std.specs.Result.{result_err};
ghost use Rattle.gtfs_rows.specs.Faults.{fault_unless};
ghost use Rattle.gtfs_rows.specs.Source.{last_of};
ghost use Rattle.gtfs_rows.specs.Tables.{SpellsAgency, SpellsCalendar, SpellsCalendarDate, SpellsFrequency, SpellsStop};
ghost use Rattle.gtfs_rows.specs.Tables.{SpellsTransfer, SpellsTrip, calendar_date_fault, calendar_fault, exception_of};
ghost use Rattle.gtfs_rows.specs.Tables.{frequency_row_fault, of_last, shown, transfer_of, weekday, weekdays_of};
ghost use Rattle.gtfs_rows.specs.Values.{day_of, number_of, time_of};
ghost use Rattle.gtfs_rows.specs.declared.fault.Table.TheVariants as files;

use crate::fault::{FaultKind, Table};
use crate::keyed::Row;
use crate::limited::location;
use crate::records::Records;
use crate::values::{Day, clock_time, date, number};
use std::alloc::Global;

/// An agency of `agency.txt`.
#[derive(Debug, Drop)]
pub struct AgencyRow {
    /// The agency_timezone.
    pub zone: String,
}

impl Row for AgencyRow {
    ghost TABLE = { files.Agency };

    ghost spells = { SpellsAgency };

    const TABLE: Table = Table::Agency;

    fn read(alloc: Global, records: &Records<'_>) -> Result<Self, FaultKind> {
        records.owned_text(alloc, 0).map(|zone| AgencyRow { zone })
    }
}

/// What a row of `stops.txt` stands for.
#[derive(Clone, Copy, Debug, PartialEq, Eq)]
pub enum Location {
    /// A stop or platform.
    Stop,
    /// A station, which stops may name as their parent.
    Station,
    /// An entrance or exit.
    Entrance,
    /// A generic node.
    Node,
    /// A boarding area.
    BoardingArea,
}

/// A stop, a station or another place of `stops.txt`.
#[derive(Debug, Drop)]
pub struct StopRow {
    pub id: String,
    pub location: Location,
    /// The parent_station, blank if there is none.
    pub parent: String,
}

impl Row for StopRow {
    ghost TABLE = { files.Stops };

    ghost spells = { SpellsStop };

    const TABLE: Table = Table::Stops;

    fn read(alloc: Global, records: &Records<'_>) -> Result<Self, FaultKind> {
        Ok(StopRow {
            id: records.owned_text(alloc, 0)?,
            location: location(records.get(1)),
            parent: records.owned_text(alloc, 2)?,
        })
    }
}

/// A trip of `trips.txt`.
#[derive(Debug, Drop)]
pub struct TripRow {
    pub service: String,
    pub id: String,
}

impl Row for TripRow {
    ghost TABLE = { files.Trips };

    ghost spells = { SpellsTrip };

    const TABLE: Table = Table::Trips;

    fn read(alloc: Global, records: &Records<'_>) -> Result<Self, FaultKind> {
        Ok(TripRow {
            service: records.owned_text(alloc, 0)?,
            id: records.owned_text(alloc, 1)?,
        })
    }
}

/// A row of `stop_times.txt`. Its trip and its stop are indices of the table's trip_ids and stop_ids.
#[derive(Clone, Copy, Debug, PartialEq, Eq)]
pub struct StopTimeRow {
    pub trip: u32,
    /// Seconds after the start of the service day.
    pub arrival: Option<u32>,
    /// Seconds after the start of the service day.
    pub departure: Option<u32>,
    /// None if the stop_id is blank.
    pub stop: Option<u32>,
    pub sequence: u32,
    /// Whether passengers may board here.
    pub board: bool,
    /// Whether passengers may alight here.
    pub alight: bool,
}

/// A service of `calendar.txt`: it runs on these weekdays, Monday first, from the start to the end day, both included.
#[derive(Debug, Drop)]
pub struct CalendarRow {
    pub service: String,
    pub weekdays: [bool; 7],
    pub start: Day,
    pub end: Day,
}

// Returns the date in a column: `BadDate` if it isn't one.
fn day_in(records: &Records<'_>, column: usize) -> Result<Day, FaultKind>
    ensures ok { IfOk result (λ d. day_of (shown records.now column) ≡ Some d) }
    ensures fault { result_err result ≡ fault_unless (day_of (shown records.now column)) FaultKind.BadDate }
{
    date(records.get(column)).ok_or(FaultKind::BadDate)
}

// Returns whether a service runs on the weekday of a column; none if the value is neither 0 nor 1.
fn weekday_in(records: &Records<'_>, column: usize) -> Option<bool>
    ensures { result ≡ weekday records.now.indices.items (last_of records.now) column }
{
    match number(records.get(column))? {
        0 => Some(false),
        1 => Some(true),
        _ => None,
    }
}

// Returns on which weekdays a service runs, Monday first; none if a value is neither 0 nor 1.
fn weekdays(records: &Records<'_>) -> Option<[bool; 7]>
    ensures { result ≡ of_last weekdays_of records.now }
{
    Some([
        weekday_in(records, 1)?,
        weekday_in(records, 2)?,
        weekday_in(records, 3)?,
        weekday_in(records, 4)?,
        weekday_in(records, 5)?,
        weekday_in(records, 6)?,
        weekday_in(records, 7)?,
    ])
}

// Returns the weekdays, the first and the last day of a record, or what is wrong with them.
pub(crate) fn weekly(records: &Records<'_>) -> Result<([bool; 7], Day, Day), FaultKind>
    ensures weekdays { IfOk result (λ v. of_last weekdays_of records.now ≡ Some v.0) }
    ensures start { IfOk result (λ v. day_of (shown records.now 8) ≡ Some v.1) }
    ensures end { IfOk result (λ v. day_of (shown records.now 9) ≡ Some v.2) }
    ensures fault { result_err result ≡ of_last calendar_fault records.now }
{
    let weekdays = weekdays(records).ok_or(FaultKind::BadNumber)?;
    let start = day_in(records, 8)?;
    let end = day_in(records, 9)?;
    Ok((weekdays, start, end))
}

impl Row for CalendarRow {
    ghost TABLE = { files.Calendar };

    ghost spells = { SpellsCalendar };

    const TABLE: Table = Table::Calendar;

    fn read(alloc: Global, records: &Records<'_>) -> Result<Self, FaultKind> {
        let (weekdays, start, end) = weekly(records)?;
        Ok(CalendarRow {
            service: records.owned_text(alloc, 0)?,
            weekdays,
            start,
            end,
        })
    }
}

/// Whether a day is added to a service or removed from it.
#[derive(Clone, Copy, Debug, PartialEq, Eq)]
pub enum Exception {
    Added,
    Removed,
}

/// A day of `calendar_dates.txt` that is added to a service or removed from it.
#[derive(Debug, Drop)]
pub struct CalendarDateRow {
    pub service: String,
    pub day: Day,
    pub exception: Exception,
}

// Returns the day of a record and what happens on it, or what is wrong with them.
pub(crate) fn dated(records: &Records<'_>) -> Result<(Day, Exception), FaultKind>
    ensures day { IfOk result (λ v. day_of (shown records.now 1) ≡ Some v.0) }
    ensures exception { IfOk result (λ v. exception_of (number_of (shown records.now 2)) ≡ Some v.1) }
    ensures fault { result_err result ≡ of_last calendar_date_fault records.now }
{
    let day = day_in(records, 1)?;
    match number(records.get(2)) {
        Some(1) => Ok((day, Exception::Added)),
        Some(2) => Ok((day, Exception::Removed)),
        _ => Err(FaultKind::BadNumber),
    }
}

impl Row for CalendarDateRow {
    ghost TABLE = { files.CalendarDates };

    ghost spells = { SpellsCalendarDate };

    const TABLE: Table = Table::CalendarDates;

    fn read(alloc: Global, records: &Records<'_>) -> Result<Self, FaultKind> {
        let (day, exception) = dated(records)?;
        Ok(CalendarDateRow {
            service: records.owned_text(alloc, 0)?,
            day,
            exception,
        })
    }
}

/// What kind of transfer a row of `transfers.txt` describes.
#[derive(Clone, Copy, Debug, PartialEq, Eq)]
pub enum TransferKind {
    /// Type blank or 0.
    Recommended,
    /// Type 1: the departing vehicle waits.
    Timed,
    /// Type 2: a minimum time is needed.
    Minimum,
    /// Type 3: no transfer is possible.
    Impossible,
    /// Another type, or a transfer between routes or trips.
    Skipped,
}

/// Returns the kind of transfer of a record of `transfers.txt`: `Skipped` if it names a route or a trip.
pub fn transfer_kind(records: &Records<'_>) -> TransferKind
    ensures { result ≡ of_last transfer_of records.now }
{
    let of_stops = records.get(4).is_empty()
        && records.get(5).is_empty()
        && records.get(6).is_empty()
        && records.get(7).is_empty();
    if !of_stops {
        return TransferKind::Skipped;
    }
    if records.get(2).is_empty() {
        return TransferKind::Recommended;
    }
    match number(records.get(2)) {
        Some(0) => TransferKind::Recommended,
        Some(1) => TransferKind::Timed,
        Some(2) => TransferKind::Minimum,
        Some(3) => TransferKind::Impossible,
        _ => TransferKind::Skipped,
    }
}

/// A row of `transfers.txt`.
#[derive(Debug, Drop)]
pub struct TransferRow {
    pub from: String,
    pub to: String,
    pub kind: TransferKind,
    /// The min_transfer_time in seconds, if it is a number.
    pub seconds: Option<u32>,
}

impl Row for TransferRow {
    ghost TABLE = { files.Transfers };

    ghost spells = { SpellsTransfer };

    const TABLE: Table = Table::Transfers;

    fn read(alloc: Global, records: &Records<'_>) -> Result<Self, FaultKind> {
        Ok(TransferRow {
            from: records.owned_text(alloc, 0)?,
            to: records.owned_text(alloc, 1)?,
            kind: transfer_kind(records),
            seconds: number(records.get(3)),
        })
    }
}

/// A row of `frequencies.txt`: the trip starts at the start time, and again after each headway, before the end
/// time. Whether the starts are exact makes no difference.
#[derive(Debug, Drop)]
pub struct FrequencyRow {
    pub trip: String,
    /// Seconds after the start of the service day.
    pub start: u32,
    /// Seconds after the start of the service day.
    pub end: u32,
    /// Seconds from one start to the next.
    pub headway: u32,
}

// Returns the start, the end and the headway of a record, or what is wrong with them.
pub(crate) fn repeated(records: &Records<'_>) -> Result<(u32, u32, u32), FaultKind>
    ensures start { IfOk result (λ v. time_of (shown records.now 1) ≡ Some v.0) }
    ensures end { IfOk result (λ v. time_of (shown records.now 2) ≡ Some v.1) }
    ensures headway { IfOk result (λ v. number_of (shown records.now 3) ≡ Some v.2) }
    ensures fault { result_err result ≡ of_last frequency_row_fault records.now }
{
    let start = clock_time(records.get(1))?;
    let end = clock_time(records.get(2))?;
    match number(records.get(3)) {
        None => Err(FaultKind::BadNumber),
        Some(0) => Err(FaultKind::BadHeadway),
        Some(headway) => Ok((start, end, headway)),
    }
}

impl Row for FrequencyRow {
    ghost TABLE = { files.Frequencies };

    ghost spells = { SpellsFrequency };

    const TABLE: Table = Table::Frequencies;

    fn read(alloc: Global, records: &Records<'_>) -> Result<Self, FaultKind> {
        let (start, end, headway) = repeated(records)?;
        Ok(FrequencyRow {
            trip: records.owned_text(alloc, 0)?,
            start,
            end,
            headway,
        })
    }
}
