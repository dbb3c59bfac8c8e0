//! A session's requests and replies as texts: lines of JSON.
#![tactic(auto)]

mod judging;
pub mod laws;
mod legs;
mod members;
mod names;
mod refusals;
mod replies;
mod requests;

pub use judging::{LineFault, read_line};
pub use legs::{JourneyLegs, RideLeg, WalkLeg};
pub use names::{MOST_STOPS, RequestFault};
pub use refusals::{Refusal, load_refused_line, moved_line};
pub use replies::{Points, load_line, loaded_line, pin_line, release_line};
pub use requests::{Ask, Request, request_of};
