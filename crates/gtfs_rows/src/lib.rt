//! The rows of each file of a GTFS feed, or the first thing that is wrong with it.
//!
//! The files and their columns are those of the GTFS Schedule Reference.
#![tactic(auto)]

mod cells;
mod columns;
mod fault;
mod id_hash;
mod ids;
mod keyed;
pub mod laws;
mod limited;
mod position;
mod reader;
mod records;
mod rows;
mod stop_times;
pub mod values;

pub use cells::{cell, column};
pub use columns::Key;
pub use fault::{FaultKind, Table, TableFault};
pub use id_hash::IdHash;
pub use keyed::Row;
pub use limited::{LimitedRow, MAX_STOPS, MAX_TRIPS, RowsWithinLimit, location, rows_up_to};
pub use position::Position;
pub use reader::TableFile;
pub use records::{FoundRecord, Records, find_record};
pub use rows::{
    AgencyRow, CalendarDateRow, CalendarRow, Exception, FrequencyRow, Location, StopRow,
    StopTimeRow, TransferKind, TransferRow, TripRow, transfer_kind,
};
pub use stop_times::StopTimes;
pub use values::Day;
