//! What takes orders to load a feed, and what is notified of scans.
#![tactic(auto)]

mod fault;
mod ordered;
mod scans;
mod taking;

pub use fault::OrderFault;
pub use ordered::{OrderOutcome, OrderRecord};
pub use scans::{Gate, OpenGate};
pub use taking::Orders;
