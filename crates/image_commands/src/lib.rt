//! The commands over an image, over readers and writers: `csa verify`, `info`, `journey`, `profile`, `departures`,
//! `matrix`, `stops` and `upgrade`.
#![tactic(auto)]

mod asked;
mod departures;
mod info;
mod journey;
pub mod laws;
mod line_feeds;
mod listing;
pub mod matrix;
mod matrix_lists;
mod matrix_progress;
mod naming;
mod opening;
mod pictured;
mod profile;
mod question;
mod refusal;
mod replying;
mod stops;
mod upgrade;
mod verify;
mod wanted_stops;
mod windows;

pub use asked::answer;
pub use opening::open_image;
