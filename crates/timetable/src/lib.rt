//! Timetables, journeys and queries: the words in which every other crate makes its promises.
#![tactic(auto)]

mod clocks;
mod journey;
pub mod laws;
pub mod limits;
mod names;
mod network;
mod query;

pub use clocks::{CLOCK_END, Clock, clock_parse, clock_text};
pub use journey::{Journey, Leg, Ride, Times};
pub use names::{Names, TripName};
pub use network::{Connection, Footpath, Timetable};
pub use query::{Query, QueryFault};
pub use reasoning::{GhostValue, Trace};
