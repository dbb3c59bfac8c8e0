//! Orders to load feeds, on their way from the workers to the one loader: a queue of four.
#![tactic(auto)]

mod answer_channels;
mod ghost_list;
mod keeper;
pub mod laws;
mod loader;
mod names;
mod queue;
mod taking;

pub use answer_channels::{AnswerSender, LoadAnswer};
pub use ghost_list::GhostList;
pub use keeper::{OrderKeeper, order_queue};
pub use loader::{DrawPermit, LoaderOrders, UsedLoader};
pub use orders::{OrderFault, Orders};
pub use queue::{Order, OrderEnd, OrderRule};
pub use taking::{UsedOrders, WorkerOrders};
