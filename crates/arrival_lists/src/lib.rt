//! Lists of points by arrival alone. Along a list the departures rise, and the arrivals with them.
//!
//! Entries are only pushed, never changed, so the index of an entry names the same list for ever. Entry 0 ends each
//! list.
#![tactic(auto)]

mod arrival_lists;
mod entry;

pub use arrival_lists::ArrivalLists;
pub use entry::{Entry, FirstPoint, NEVER};
