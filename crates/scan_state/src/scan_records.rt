//! What a scan writes down about how one goes on, in numbered records.

use timetable::Footpath;

/// How one leaves the trip of a label. `last` is the index of the connection at whose end one gets off.
#[derive(Clone, Copy, Drop)]
pub enum Exit {
    /// At the target, or one footpath before it.
    Ends { last: u32, walk: Option<Footpath> },
    /// To change there: `step` is the index, in the lists of the stops, of the step by which one goes on.
    Changes { last: u32, step: usize },
}

/// How one sets out from the source: a start, the index of the connection that is boarded, and the tag of the label
/// by which one rides on.
#[derive(Clone, Copy, Drop)]
pub struct SetOut {
    pub start: Option<Footpath>,
    pub first: u32,
    pub label: usize,
}
