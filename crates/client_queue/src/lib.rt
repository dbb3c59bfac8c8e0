//! Clients, who come one after the other, and the queue in which they wait for a worker. Each client that is put there
//! is taken once, by one worker. The end where clients are put knows this once the queue was closed for all other ends
//! and they have come back.
#![tactic(auto)]

mod clients;
mod dealing;
mod ends;
mod queue;

pub use clients::Clients;
pub use dealing::deal_all;
pub use ends::{Dealer, Taker, client_queue};
pub use queue::DealerView;
