//! Lanes: what can be reached by arrival and trips, kept as one time for each number of trips.
//!
//! Lane k is the least arrival with at most k trips. It stands for a value if it is less than all lanes before it, so
//! that an offer of several values compares and lowers all lanes at once, without a jump for each. Trips have lanes of
//! the values without the ride in the trip, stops have lists of fronts.
#![tactic(auto)]

mod lane_lists;
mod laws;
mod stop_lanes;
mod trip_lanes;
mod words;

pub use laws::{labels_are_admitted, points_are_admitted, rules_of_lanes};
pub use stop_lanes::StopLanes;
pub use trip_lanes::{Taken, TripLanes};
pub use words::Words;

#[cfg(test)]
mod tests;
