//! Queries by the names of stops and their answers, each point with its journey; journeys as texts;
//! and whether a journey of an image counts for a query.
#![tactic(auto)]

mod answering;
mod counts;
mod departures;
mod destinations;
mod ends;
mod extraction;
mod fault;
mod footpaths;
mod legs;
mod question;
mod reading;
mod text;
mod text_fault;
mod walks;
mod way;

pub use answering::{Answer, Departure, answer_query, window_len};
pub use counts::{check, faultless_counts};
pub use departures::{departures_between, departures_from};
pub use destinations::destination_named;
pub use extraction::{extract, extract_between};
pub use fault::JourneyFault;
pub use question::{Window, query_of};
pub use text::{journey_parse, journey_string, journey_text, one_text, plain_texts};
pub use text_fault::TextFault;
