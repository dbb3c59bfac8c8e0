//! What contracts see of the end where clients are put.

use std::collections::LinkedList;

/// What the end where clients are put knows. No value of it is made.
pub struct DealerView<C> {
    /// The clients that were put, in order.
    pub sent: LinkedList<C>,
    /// How often the queue was closed, once for each taker.
    pub closings: u64,
    /// How many takers are out.
    pub out: u64,
    /// What the takers that came back had taken.
    pub taken: LinkedList<C>,
    /// For how many of the takers that came back the queue had been closed.
    pub ended: u64,
}
