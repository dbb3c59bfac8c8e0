//! How one goes on from each label and each point: nodes that name earlier ones by number.

use timetable::Footpath;

/// How one goes on, from here to the target. `first` and `last` are indices of connections, where a leg begins and
/// where it ends; `next` is the index of a node that is earlier in the list and comes later in the journey.
#[derive(Clone, Copy, Drop)]
pub enum Node {
    /// Leaves the trip where a connection ends: at the target, or one footpath before it.
    Ends {
        last: u32,
        walk: Option<Footpath>,
    },
    /// Leaves the trip where a connection ends, and goes on from that stop.
    Changes {
        last: u32,
        next: usize,
    },
    /// Walks to a connection, boards it, and goes on in its trip.
    Boards {
        walk: Footpath,
        first: u32,
        next: usize,
    },
    /// Sets out from the source, boards a connection, and goes on in its trip.
    SetsOut {
        start: Option<Footpath>,
        first: u32,
        next: usize,
    },
}
