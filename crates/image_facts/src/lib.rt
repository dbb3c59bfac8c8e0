//! What an image has, as text: a line `WORD VALUE` for each fact, or an object of JSON with a member for
//! each; the names of its stops and trips, and its connections by their index.
#![tactic(auto)]

mod base;
mod days;
mod facts;
mod json;
mod naming;
mod putting;

pub use base::begin_with_base;
pub use facts::facts_of;
pub use json::json_of;
pub use naming::{connection_at, stop_name, trip_name};
