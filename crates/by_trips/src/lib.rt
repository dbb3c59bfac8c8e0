//! What a scan keeps of trips and stops by arrival and trips: in lanes, and beyond them.
//!
//! The *front* of a stop at a time, the points from then on that no other betters, is nine *lanes*: lane k has the
//! earliest arrival with at most k trips. A trip has eight. So all values are compared at once: `InLanes::change`
//! lowers a trip's lanes to those of the stop's front, and `InLanes::board` those of a stop's front to the trip's, with
//! one trip more. What has more trips than there are lanes is kept beside them, in bags (`Beyond`), and offered to
//! these one by one. A record stands for the eight values of an offer: a tag is eight times the record's index, and the
//! lane.
#![tactic(auto)]

mod by_trips;
mod by_trips_taking;
mod in_lanes;

pub use by_trips::ByTrips;
