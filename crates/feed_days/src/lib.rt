//! The service days of a feed, and how many of its trips run on each of them, as lines and as JSON.
//!
//! A feed may have service on every day of 9999 years, so at most [`MAX_LISTED_DAYS`] days are listed.
#![tactic(auto)]

mod counting;
mod dates;
mod listing;
mod putting;
mod span;

pub use counting::trips_on_days;
pub use listing::{MAX_LISTED_DAYS, days_json, days_text};
pub use span::{DaySpan, span_of};
