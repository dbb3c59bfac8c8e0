//! The days on which services run, and the instant at which a day starts in a time zone.
//!
//! The times of a service day count from noon minus twelve hours, so that they are also right on days of 23 or 25
//! hours, on which the clocks change (GTFS Schedule Reference, field type Time).
#![tactic(auto)]

mod day;
mod fault;
pub mod laws;
mod named;
mod services;
mod zone;

pub use day::{DatedDay, civil_date, day_after, day_start};
pub use fault::DayFault;
pub use named::NamedServices;
pub use services::{Service, Services, active};
pub use zone::Zone;
