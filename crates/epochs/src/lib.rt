//! The same versions as in `shelves`, which stands here too, and under one lock.
#![tactic(auto)]

pub mod laws;
mod locked;
mod seats;
mod table;

pub use locked::LockedShelves;
pub use seats::{LoaderSeat, WorkerSeat};
pub use shelves::{
    Branded, Collected, Edition, HasTable, LoaderAnswer, Loads, NamedLoader, NamedNotice,
    NamedSeat, NamedShelves, Notice, PinFault, PublishFault, SeatAnswer, ShelfLoader, ShelfSeat,
    Shelves, ShelvesName, Versions,
};
pub use table::VersionTable;
