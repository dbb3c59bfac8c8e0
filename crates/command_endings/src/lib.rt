//! How commands end: their exit statuses, the texts that they print then, the line of a refusal, and how long something
//! took.
#![tactic(auto)]

mod elapsed;
mod newlines;
mod refusing;
pub mod status;

pub use elapsed::{StartInstant, put_seconds};
pub use newlines::line_ends;
pub use refusing::begin_refusal;
