//! The table of timetable versions as a state machine: which version is current, which worker holds which, and when a
//! shelf may be used again.
//!
//! A loader opens a free shelf with an edition, as the next version, publishes that version, closes the shelf of the
//! version before, and collects that shelf once no worker is there. A worker looks at the current version, takes its
//! shelf, and later drops it. If the version was closed between the look and the take, the worker is late: it drops the
//! shelf and looks again.
//!
//! A notice of the current version may go out at any time, to whoever waits for that version. A worker that takes it in
//! has seen the version: no later look of the worker finds an older one.
#![tactic(auto)]

mod event;
mod laws;
mod machine;
mod sequence;
mod state;

pub use event::{Event, Reply};
pub use laws::{at_rest, every_run, every_step, holding, notices, runs_in_parts};
pub use machine::Core;
pub use sequence::run;
pub use state::{MOST_VERSIONS, Shelf, Worker};
