//! Texts made of pieces: words, numbers, clocks and parts of JSON, each added to what is there.
#![tactic(auto)]

mod form;
mod json;
mod putting;

pub use form::Form;
pub use json::{put_comma, put_quoted};
pub use putting::{put_clock, put_number, put_text, put_two, put_word};
