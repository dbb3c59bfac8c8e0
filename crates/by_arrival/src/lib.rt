//! What a scan keeps of trips and stops by arrival alone.
//!
//! A trip then has one label, and no point of a stop's list arrives earlier than the list's first. So the first points
//! of all stops are at hand (`FirstPoint`): `ByArrival::change` compares one with the trip's label and with the bound,
//! and mostly reads nothing else; so does `ByArrival::board`, with the departure, at each stop that it offers to. A
//! point's tag is an index into the entries of `ByArrival::lists`.
#![tactic(auto)]

mod by_arrival;
mod by_arrival_taking;

pub use by_arrival::ByArrival;
