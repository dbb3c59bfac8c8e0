//! Where a profile scan gets its connections and footpaths from: an image in place, or its lists decoded.
#![tactic(auto)]

mod decoded;
mod in_place;
mod source;

pub use decoded::Decoded;
pub use image_verifier::{Departures, first_departure};
pub use in_place::InPlace;
pub use source::{ConnSource, ReadLog};
