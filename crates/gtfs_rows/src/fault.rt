//! What can be wrong with a feed: the kinds of faults, their numbers and names, and the file and record in which
//! a fault was found.

ghost use Rattle.std.specs.Prelude.{◌≡◌};
ghost use Rattle.gtfs_rows.specs.FaultNumber.{numbered_fault, file_name as name_of_file};

use reasoning::variant_name;
use std::fmt;
use thiserror::Error;

/// The files of a feed that are read, in the order in which they are read.
#[derive(Clone, Copy, Debug, PartialEq, Eq)]
pub enum Table {
    Agency,
    Stops,
    Trips,
    StopTimes,
    Calendar,
    CalendarDates,
    Transfers,
    Frequencies,
}

/// What is wrong with a table, each kind with its message. Columns are named as in the GTFS Schedule Reference.
#[derive(Clone, Copy, Debug, PartialEq, Eq, Error)]
pub enum FaultKind {
    /// A required file is missing, or both `calendar.txt` and `calendar_dates.txt` are.
    #[error("the file is missing")]
    MissingFile = 1,
    /// The file lacks a required column, or has no header at all.
    #[error("a required column is missing")]
    MissingColumn = 2,
    #[error("the file isn't UTF-8")]
    BadUtf8 = 3,
    #[error("the record has more or fewer fields than the header")]
    RowLength = 4,
    /// A field isn't a time: `H:MM:SS` or `HH:MM:SS`, minutes and seconds below 60. In `stop_times.txt` it may
    /// be blank.
    #[error("a field isn't a time")]
    BadTime = 5,
    /// A field isn't a date: `YYYYMMDD`, of the years 1 to 9999.
    #[error("a field isn't a date")]
    BadDate = 6,
    /// A `stop_sequence`, a weekday, an `exception_type` or a `headway_secs` isn't a number of at most nine digits,
    /// or is one that isn't allowed there.
    #[error("a field isn't a number, or isn't one that is allowed")]
    BadNumber = 7,
    /// An earlier record has the same id, or in `calendar_dates.txt` the same service and date.
    #[error("an earlier record has the same id")]
    IdTwice = 8,
    /// No trip or place has the id that the record names, or a `parent_station` names a place that isn't a station.
    #[error("no record has the id")]
    UnknownId = 9,
    #[error("the time zone differs from that of the first agency")]
    ZonesDiffer = 10,
    #[error("the trip has the stop_sequence twice")]
    SequenceTwice = 11,
    #[error("the trip begins or ends without a time")]
    EndWithoutTime = 12,
    /// A trip arrives at a stop before the last departure given earlier in the trip, or after it departs from there.
    #[error("the times of the trip go back")]
    TimeGoesBack = 13,
    /// A trip, once its blank rows have times, arrives at a stop no later than it departed from the previous one.
    /// This is a fault only if tables are joined strictly.
    #[error("an arrival isn't after the departure before it")]
    HopWithoutDuration = 14,
    /// The record names a place that isn't a stop; in `transfers.txt`, one that is neither a stop nor a station.
    #[error("the place isn't a stop")]
    NotAStop = 15,
    /// There are more of something than are allowed, such as stops in `stops.txt` or trips in `trips.txt`.
    #[error("there are too many")]
    TooMany = 16,
    #[error("out of memory")]
    OutOfMemory = 17,
    #[error("the headway is 0")]
    BadHeadway = 18,
}

/// A fault of a feed: the file, the record's number and what is wrong. The first record after the header is 1; 0 is
/// the file as a whole.
#[derive(Clone, Copy, Debug, PartialEq, Eq, Error)]
#[error("{file}, record {row}: {kind}")]
pub struct TableFault {
    pub file: Table,
    pub row: u64,
    pub kind: FaultKind,
}

impl FaultKind {
    /// Returns the number of the kind, from 1 to 18 in the order of the enum.
    pub fn number(self) -> u8
        ensures { result ≡ (numbered_fault self).0 }
    {
        self as u8
    }

    /// Returns the name of the kind, such as `MissingFile`.
    pub fn name(self) -> &'static str
        ensures { result.now ≡ (numbered_fault self).1 }
    {
        variant_name!(
            self, FaultKind:
            MissingFile, MissingColumn, BadUtf8, RowLength, BadTime, BadDate, BadNumber, IdTwice,
            UnknownId, ZonesDiffer, SequenceTwice, EndWithoutTime, TimeGoesBack, HopWithoutDuration,
            NotAStop, TooMany, OutOfMemory, BadHeadway
        )
    }
}

impl Table {
    /// Returns the name of the table's file, such as `agency.txt`.
    pub fn file_name(self) -> &'static str
        ensures { result.now ≡ name_of_file self }
    {
        match self {
            Table::Agency => "agency.txt",
            Table::Stops => "stops.txt",
            Table::Trips => "trips.txt",
            Table::StopTimes => "stop_times.txt",
            Table::Calendar => "calendar.txt",
            Table::CalendarDates => "calendar_dates.txt",
            Table::Transfers => "transfers.txt",
            Table::Frequencies => "frequencies.txt",
        }
    }

    // Returns a fault of a record of this table, or of the file if `row` is 0.
    pub(crate) fn fault(self, row: u64, kind: FaultKind) -> TableFault
        ensures file { result.file ≡ self }
        ensures row { result.row ≡ row }
        ensures kind { result.kind ≡ kind }
    {
        TableFault {
            file: self,
            row,
            kind,
        }
    }

    /// Returns the fault that this table's file is missing.
    pub fn missing(self) -> TableFault
        ensures file { result.file ≡ self }
        ensures row { result.row ≡ 0 }
        ensures kind { result.kind ≡ FaultKind.MissingFile }
    {
        self.fault(0, FaultKind::MissingFile)
    }
}

impl fmt::Display for Table {
    fn fmt<W: fmt::Write>(&self, f: &mut fmt::Formatter<W>) -> fmt::Result {
        f.write_str(self.file_name())
    }
}
