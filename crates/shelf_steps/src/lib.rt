//! Shelves of versions as nine words and 128 slots. Each step on a word keeps one rule and is one event of the table of
//! versions, whatever other seats do meanwhile.
//!
//! The first word has the current version and its shelf, and each other word a shelf: what it is for, its version, and
//! how many workers are at it. For each shelf and worker there is a slot, in which that worker's edition lies.
//!
//! No other crate reaches the table itself: a word changes only by the steps that the module `laws` lists.
#![tactic(auto)]

mod blocks;
mod edition;
pub mod laws;
mod loader_steps;
mod loading;
mod noting;
mod opening;
mod pinning;
mod rule;
mod table_seats;
mod views;
mod worker_steps;

pub use blocks::{editions_of, fill_block};
pub use edition::Edition;
pub use loading::{load, try_shelf};
pub use noting::{join, note};
pub use pinning::{pin, release};
pub use table_seats::{ShelfTable, TableSeat};
pub use views::{KnownHistory, LoaderView, View, WorkerView};
