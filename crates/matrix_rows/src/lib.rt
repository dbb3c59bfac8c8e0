//! A table of travel times: a row for each pair of sets of stops, or for each of its best departures, for one set of
//! targets after the other, by several threads at once.
#![tactic(auto)]

mod best;
mod listed_names;
mod lists;
mod named_table;
mod repeated;
mod set_names;
mod table;
mod target;
mod turns;
mod whole;

pub use lists::{SetListFault, sets_listed};
pub use table::TravelTable;
pub use whole::{TableReports, write_table};
