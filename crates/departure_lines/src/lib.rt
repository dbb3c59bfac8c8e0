//! The best departures from all stops to one, as text: lines, a summary, or JSON, of every stop or of those that a list
//! names.
#![tactic(auto)]

mod listed_names;
mod listing;
mod names;
mod stop_json;
mod stop_lines;
mod stop_lists;
mod stop_words;
mod whole;

pub use listing::{append_by_numbers, append_direct, append_point, append_times};
pub use names::{printed_stop_name, printed_trip_name};
pub use stop_lists::{ListFault, WantedStops};
pub use whole::departures_text;
