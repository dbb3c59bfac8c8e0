//! What is left of a server.

use crate::served::Served;
use feed_loads::UsedFiles;
use load_orders::{GhostList, UsedLoader, UsedOrders};

/// What is left once all clients were served.
#[derive(Drop)]
pub struct ServingOutcome<R, W, K, S, L, N: Drop, D> {
    /// The sessions, seat after seat.
    pub served: Served<R, W, S>,
    /// The clients' source.
    pub clients: K,
    /// The workers' seats, in their order.
    pub seats: Vec<S>,
    /// What the loader took and answered.
    pub loader_orders: UsedLoader<N>,
    /// The loader's seat.
    pub loader: L,
    /// The workers' orders, seat after seat: only contracts see them.
    pub worker_orders: GhostList<UsedOrders<N>>,
    /// The files that the loader used, order after order: only contracts see them.
    pub used: UsedFiles<D, N>,
}
