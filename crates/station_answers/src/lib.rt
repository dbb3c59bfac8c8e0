//! Queries from any of several stops to any of several others, as between the platforms of two stations: all best
//! departures of all pairs in one answer, each point with a journey between two of these stops.
#![tactic(auto)]

mod answering;
mod by_targets;
mod merging;
mod naming;
mod query;
mod walking;

pub use answering::answer_between;
pub use by_targets::answer_by_targets;
pub use naming::{NoQuestion, question_between};
pub use query::check_between;
pub use walking::direct_walk;
