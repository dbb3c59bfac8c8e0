//! The commands over the folder of a feed, over writers: `csa build`, `days`, `stations` and `tables`; and what
//! standard error says of a feed's faults.
#![tactic(auto)]

pub mod build;
pub mod days;
mod explaining;
mod naming;
mod progress;
mod reading;
mod refusing;
pub mod stations;
pub mod tables;
mod warnings;

pub use explaining::{explain_load, explain_refused, explain_zone, report_unread_zone};
pub use refusing::refuse_feed;
