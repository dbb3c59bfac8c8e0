//! The runs of a feed's trips on some days, and the connections that they make.
//!
//! Times are those of the GTFS Schedule Reference. It is our own addition that a trip's times are lifted, so that
//! each connection takes time.
#![tactic(auto)]

mod days;
mod fault;
mod hops;
pub mod laws;
mod listing;
mod marks;
mod repeats;
mod report;
mod runs;
mod times;
mod trip_services;
mod trip_starts;

pub use days::MAX_DAYS;
pub use fault::{OutOfRange, RunsFault};
pub use listing::runs_of;
pub use report::Report;
pub use runs::{Run, makes_connections};
pub use times::{RowTimes, TripTimes, trip_times};
pub use trip_services::service_indices;
