//! A queue under a rule. Each item that is put there is taken once, at one of the ends at which items are taken. The
//! end that keeps the queue knows this once it has closed the queue and all other ends have come back.
#![tactic(auto)]

mod keeper;
pub mod laws;
mod putting;
mod queue;
mod taking;

pub use keeper::{Keeper, empty_queue};
pub use putting::{NotPut, PutEnd, UsedPutEnd};
pub use queue::{EachItemOnce, EndView, KeeperView, Message, PutRule, TakeRule};
pub use taking::{TakeEnd, UsedTakeEnd};
