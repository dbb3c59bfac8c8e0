//! What is judged of a journey.

use timetable::{Footpath, Ride};

/// The start and the rides of a journey.
#[derive(Clone, Copy)]
pub struct JourneyParts<'a> {
    pub start: Option<Footpath>,
    pub rides: &'a [Ride],
}
