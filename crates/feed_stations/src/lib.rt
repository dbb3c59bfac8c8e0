//! The stations of a feed, each with its stops, and the stops without a station; found by a part of an id or a name.
#![tactic(auto)]

mod finding;
mod folding;
mod grouping;
mod homes;
mod json;
mod labels;
mod listing;
mod stop_table;
mod texts;

pub use finding::is_in;
pub use homes::homes_in;
pub use labels::{StopLabel, labels_in};
pub use stop_table::StopTable;
pub use texts::{json_text, lines_text};
