//! Parses the words of a command line into a request, or a message about them; and the help.
#![tactic(auto)]

mod commands;
mod joining;
mod messages;
mod options;
mod reading;
mod requests;
mod texts;
mod tips;
mod values;

pub use reading::{NoCommand, read, wants_warnings};
