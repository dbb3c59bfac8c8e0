//! The columns of each table, and which of them must be different in each record, or the same in all.

ghost use Rattle.std.specs.Prelude.{◌≡◌, ◌≤◌, length, map};
ghost use Rattle.gtfs_rows.specs.Tables.{columns_of, key_of, required_of};

use crate::fault::Table;

/// The columns, by index, that must be different in any two records of a table, or the same in all of them.
#[derive(Clone, Copy)]
pub enum Key {
    /// Records may repeat each other.
    Nothing,
    /// No two records have the same text in this column.
    Column(usize),
    /// No two records have the same pair of texts in these columns.
    Columns(usize, usize),
    /// All records have the same text in this column.
    Shared(usize),
}

impl Table {
    /// Returns the names of the columns that are read, the required ones first.
    pub fn columns(self) -> &'static [&'static str]
        ensures { map (λ name. name.now) result.now ≡ columns_of self }
    {
        match self {
            Table::Agency => &["agency_timezone"],
            Table::Stops => &["stop_id", "location_type", "parent_station"],
            Table::Trips => &["service_id", "trip_id"],
            Table::StopTimes => &[
                "trip_id",
                "arrival_time",
                "departure_time",
                "stop_id",
                "stop_sequence",
                "pickup_type",
                "drop_off_type",
            ],
            Table::Calendar => &[
                "service_id",
                "monday",
                "tuesday",
                "wednesday",
                "thursday",
                "friday",
                "saturday",
                "sunday",
                "start_date",
                "end_date",
            ],
            Table::CalendarDates => &["service_id", "date", "exception_type"],
            Table::Transfers => &[
                "from_stop_id",
                "to_stop_id",
                "transfer_type",
                "min_transfer_time",
                "from_route_id",
                "to_route_id",
                "from_trip_id",
                "to_trip_id",
            ],
            Table::Frequencies => &["trip_id", "start_time", "end_time", "headway_secs"],
        }
    }

    /// Returns how many of the columns are required; they come first.
    pub fn required(self) -> usize
        ensures number { result ≡ required_of self }
        ensures within { result ≤ length (columns_of self) }
    {
        match self {
            Table::Agency | Table::Stops => 1,
            Table::Trips | Table::Transfers => 2,
            Table::CalendarDates => 3,
            Table::Frequencies => 4,
            Table::StopTimes => 5,
            Table::Calendar => 10,
        }
    }

    /// Returns which columns must be different in each record, or the same in all.
    pub fn key(self) -> Key
        ensures { result ≡ key_of self }
    {
        match self {
            Table::Agency => Key::Shared(0),
            Table::Stops | Table::Calendar => Key::Column(0),
            Table::Trips => Key::Column(1),
            Table::CalendarDates => Key::Columns(0, 1),
            Table::StopTimes | Table::Transfers | Table::Frequencies => Key::Nothing,
        }
    }
}
