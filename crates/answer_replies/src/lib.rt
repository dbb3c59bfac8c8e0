//! The line that replies to a profile: a query's answer over an image, bare or with the legs of its journeys.
#![tactic(auto)]

pub mod laws;
mod legs;
mod point_form;
mod replying;

pub use point_form::PointForm;
pub use replying::{profile_reply, reply_by_name};
