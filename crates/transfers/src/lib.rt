//! The footpaths that a feed lists: those of its transfers, those between the stops of a station, and the loop of
//! each stop.
#![tactic(auto)]

mod bans;
mod claims;
mod counting;
mod fault;
mod groups;
pub mod laws;
mod listing;
mod lookup;

pub use fault::ListingFault;
pub use listing::listed_within;
