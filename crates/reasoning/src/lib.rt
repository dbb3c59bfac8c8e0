//! What any proof may use: first indices, lists, options, orders, digits. What only contracts see: traces and kept
//! values. And the names of variants.
//!
//! Nothing here is about timetables: definitions and lemmas use nothing but std.
#![tactic(auto)]

mod ghost_value;
mod trace;
mod variant_name;

pub use ghost_value::GhostValue;
pub use trace::Trace;

#[cfg(test)]
mod tests;
