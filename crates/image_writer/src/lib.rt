//! Writes the image of a timetable and its names.
#![tactic(auto)]

mod image;
mod names;
mod network;
mod text;

pub use image::write;
