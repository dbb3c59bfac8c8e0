//! Joins the tables of a GTFS feed: trips with their stop times in order, stops with their stations, transfers with
//! both ends found; or finds the first thing that is wrong with them.
//!
//! The files and their columns are those of the GTFS Schedule Reference.
#![tactic(auto)]

mod joining;
pub mod laws;
mod links;
mod names;
mod order;
pub mod outcome;
mod reading;
mod spreading;
mod tables;
mod times;
mod trip_faults;

pub use gtfs_rows::{
    AgencyRow, CalendarDateRow, CalendarRow, Day, Exception, FaultKind, FrequencyRow, IdHash,
    Location, MAX_STOPS, MAX_TRIPS, RowsWithinLimit, StopRow, StopTimeRow, StopTimes, Table,
    TableFault, TableFile, TransferKind, TransferRow, TripRow,
};
pub use joining::join;
pub use names::{StopIdTarget, end_fault, parent_fault, stop_fault};
pub use reading::{
    read_agency, read_calendar, read_calendar_dates, read_frequencies, read_stop_times, read_stops,
    read_transfers, read_trips,
};
pub use spreading::spread;
pub use tables::{Feed, Frequency, Stop, Tables, Transfer, TransferEnd, Trip};
pub use trip_faults::time_faults;
