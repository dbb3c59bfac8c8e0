//! Workers that serve sessions concurrently, each at a seat of its own, and the one loader beside them.
#![tactic(auto)]

mod clients;
mod headline;
mod outcome;
mod posts;
mod running;
mod served;
mod serving;
mod shares;

pub use client_queue::Clients;
pub use clients::{Client, ConnFault};
pub use feed_loads::{DrawnFiles, Feeds, LoadRefusal, LoadedVersion, UsedFiles, load_one};
pub use headline::run_shelves;
pub use load_orders::{DrawPermit, UsedLoader};
pub use outcome::ServingOutcome;
pub use running::{WorkersFault, run_workers};
pub use served::{Served, SessionEnd};
pub use serving::SessionWorker;
pub use session::{PointForm, ReplyForm, SessionServer, Streams};
