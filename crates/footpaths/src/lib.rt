//! The footpaths that a feed lists, and their closure: for each ordered pair of stops, the least time of a walk over
//! them.
#![tactic(auto)]

mod closure;
mod fault;
mod index;
pub mod laws;
mod listing;
mod search;

pub use closure::{close, close_within};
pub use fault::FootFault;
pub use listing::listed;
