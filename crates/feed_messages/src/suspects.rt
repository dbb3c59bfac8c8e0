//! Which columns of a record can be at fault, by the kind of fault, and what a message says about their values.

use gtfs_rows::values::{date, number, time};
use gtfs_rows::{FaultKind, Key, Records, Table, TableFault};

/// What the text of a field must be.
#[derive(Clone, Copy, PartialEq, Eq)]
pub enum FieldForm {
    Time,
    TimeOrBlank,
    Date,
    /// A number from the first to the second.
    Number(u32, u32),
    /// The id of a record of [`home_of`] the column.
    Id,
    /// The stop_id of a stop or a station.
    End,
    /// Anything: the column is at fault whatever its text is.
    Other,
}

impl FieldForm {
    /// Whether a text isn't as it must be, as far as the text alone can tell.
    pub fn is_missed_by(self, text: &[u8]) -> bool {
        match self {
            FieldForm::Time => time(text).is_none(),
            FieldForm::TimeOrBlank => !text.is_empty() && time(text).is_none(),
            FieldForm::Date => date(text).is_none(),
            FieldForm::Number(least, most) => {
                !number(text).is_some_and(|number| least <= number && number <= most)
            }
            FieldForm::Id | FieldForm::End | FieldForm::Other => true,
        }
    }
}

/// The file in which the ids of a column are looked up, and the column that has them there.
pub fn home_of(column: &str) -> (Table, &'static str) {
    if column == "trip_id" {
        (Table::Trips, "trip_id")
    } else {
        (Table::Stops, "stop_id")
    }
}

const ANY_NUMBER: FieldForm = FieldForm::Number(0, 999_999_999);

/// The columns of a transfer's two ends.
const ENDS: &[&str] = &["from_stop_id", "to_stop_id"];

/// The columns that can be at fault, in order: the first whose text isn't of this form is the one that is at fault.
pub fn suspects_of(fault: &TableFault) -> (&'static [&'static str], FieldForm) {
    match (fault.kind, fault.file) {
        (FaultKind::BadTime, Table::StopTimes) => {
            (&["arrival_time", "departure_time"], FieldForm::TimeOrBlank)
        }
        (FaultKind::BadTime, _) => (&["start_time", "end_time"], FieldForm::Time),
        (FaultKind::BadDate, Table::Calendar) => (&["start_date", "end_date"], FieldForm::Date),
        (FaultKind::BadDate, _) => (&["date"], FieldForm::Date),
        (FaultKind::BadNumber, Table::StopTimes) => (&["stop_sequence"], ANY_NUMBER),
        (FaultKind::BadNumber, Table::Calendar) => (
            columns_in(fault.file, 1, 7),
            FieldForm::Number(0, 1),
        ),
        (FaultKind::BadNumber, Table::CalendarDates) => {
            (&["exception_type"], FieldForm::Number(1, 2))
        }
        (FaultKind::BadNumber, _) => (&["headway_secs"], ANY_NUMBER),
        (FaultKind::UnknownId, Table::Transfers) => (ENDS, FieldForm::Id),
        (FaultKind::NotAStop, Table::Transfers) => (ENDS, FieldForm::End),
        (FaultKind::UnknownId, Table::Stops) => (&["parent_station"], FieldForm::Other),
        (FaultKind::UnknownId, _) => (&["trip_id", "stop_id"], FieldForm::Id),
        _ => (one_suspect(fault), FieldForm::Other),
    }
}

/// The only column that can be at fault.
fn one_suspect(fault: &TableFault) -> &'static [&'static str] {
    match fault.kind {
        FaultKind::IdTwice => match fault.file.key() {
            Key::Column(last) | Key::Columns(_, last) => columns_in(fault.file, last, last),
            _ => &[],
        },
        FaultKind::NotAStop => &["stop_id"],
        FaultKind::ZonesDiffer => &["agency_timezone"],
        FaultKind::SequenceTwice => &["stop_sequence"],
        FaultKind::BadHeadway => &["headway_secs"],
        _ => &["trip_id"],
    }
}

/// The index of a column among those of its table.
pub fn index_of(table: Table, name: &str) -> Option<usize> {
    table.columns().iter().position(|column| *column == name)
}

/// A record's value in a column of its table.
pub fn value_in<'a>(records: &'a Records<'_>, table: Table, name: &str) -> &'a [u8] {
    match index_of(table, name) {
        Some(column) => records.get(column),
        None => &[],
    }
}

/// The columns of a table from the first index to the last.
fn columns_in(table: Table, first: usize, last: usize) -> &'static [&'static str] {
    table.columns().get(first..=last).unwrap_or(&[])
}

/// The columns that may not have the same values in two records, if that is the fault.
pub fn key_of(fault: &TableFault) -> &'static [&'static str] {
    match (fault.kind, fault.file.key()) {
        (FaultKind::SequenceTwice, _) => &["trip_id", "stop_sequence"],
        (FaultKind::IdTwice, Key::Column(column)) => columns_in(fault.file, column, column),
        (FaultKind::IdTwice, Key::Columns(first, last)) => columns_in(fault.file, first, last),
        _ => &[],
    }
}

/// The words that say whose key is there twice.
pub fn whose_key(table: Table) -> &'static str {
    match table {
        Table::StopTimes => " of this trip",
        Table::CalendarDates => " of this service",
        _ => "",
    }
}

/// What is wrong with the value of a column.
pub fn reason_of(fault: &TableFault, column: &str) -> &'static str {
    match fault.kind {
        FaultKind::BadTime => {
            "isn't a time, H:MM:SS or HH:MM:SS with minutes and seconds below 60"
        }
        FaultKind::BadDate => "isn't a date of the calendar, YYYYMMDD",
        FaultKind::BadNumber if fault.file == Table::Calendar => "is neither 0 nor 1",
        FaultKind::BadNumber if fault.file == Table::CalendarDates => "is neither 1 nor 2",
        FaultKind::BadNumber => "isn't a number of at most nine digits",
        FaultKind::UnknownId if fault.file == Table::Stops => {
            "isn't a station in stops.txt (the field may be left blank)"
        }
        FaultKind::UnknownId if column == "trip_id" => "isn't in trips.txt",
        FaultKind::UnknownId => "isn't in stops.txt",
        FaultKind::NotAStop if fault.file == Table::Transfers => {
            "is neither a stop nor a station: its location_type in stops.txt is 2 to 4"
        }
        FaultKind::NotAStop => {
            "isn't a stop or platform: its location_type in stops.txt is 1 to 4"
        }
        FaultKind::ZonesDiffer => "isn't that of the first agency",
        FaultKind::SequenceTwice => "is in an earlier row of this trip too",
        FaultKind::EndWithoutTime => "begins or ends with this row, which has no time",
        FaultKind::TimeGoesBack => "has a time in this row that is earlier than the one before it",
        FaultKind::HopWithoutDuration => {
            "arrives in this row no later than it departed from the stop before"
        }
        FaultKind::BadHeadway => "must not be 0",
        _ => "is in an earlier record too",
    }
}
