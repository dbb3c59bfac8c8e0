//! What workers return.

use crate::served::Served;
use client_queue::Taker;
use load_orders::{GhostList, UsedOrders};

/// What a worker returns: its clients' sessions, its end of the queue of clients, and its seat.
#[derive(Drop)]
pub(crate) struct Share<C: Drop, I, O, S> {
    pub served: Served<I, O, S>,
    pub taker: Taker<C>,
    pub seat: S,
}

/// What several workers return: their clients' sessions, their seats, and the orders of each.
#[derive(Drop)]
pub(crate) struct Work<I, O, S, N: Drop> {
    pub served: Served<I, O, S>,
    pub seats: Vec<S>,
    pub asked: GhostList<UsedOrders<N>>,
}
