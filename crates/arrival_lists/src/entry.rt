//! What lists of arrivals are made of.

use fronts::Step;

/// No time: it is later than all times.
pub const NEVER: u32 = u32::MAX;

/// A departure and an arrival, with how one goes on in between, and the index of the next entry on the list.
#[derive(Clone, Copy, Drop)]
pub struct Entry {
    pub departure: u32,
    pub time: u32,
    // the index of the next entry on the list: an older one
    pub next: u32,
    // the number of the step: the index of the entry that has it, which is this one or that of which this is a copy
    pub tag: u32,
    pub step: Step,
}

/// The first point of a list, and the list's head, the index of its first entry. If the list is empty, the head is 0,
/// and the departure and the time are [`NEVER`].
#[derive(Clone, Copy, Drop)]
pub struct FirstPoint {
    pub time: u32,
    pub departure: u32,
    pub tag: u32,
    pub head: u32,
}
