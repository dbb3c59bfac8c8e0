//! The plan of a load: the service days and the zone that a command line asks for, the bytes of the zone's file, and
//! the day that a zone's clocks show.
#![tactic(auto)]

mod clock;
mod plans;
mod zones;

pub use clock::{WallClock, instant, today, yesterday};
pub use plans::plan_at;
pub use zones::{PlanFailure, plan_of, zone_and_plan};
