//! Versions of images, which workers pin and one loader publishes, on shelves without a lock.
#![tactic(auto)]

mod answers;
mod collected;
mod faults;
pub mod laws;
mod named;
mod notice;
mod shelf_loader;
mod shelf_seats;
mod shelves;
mod versions;

pub use answers::{LoaderAnswer, SeatAnswer};
pub use collected::Collected;
pub use faults::{PinFault, PublishFault};
pub use named::{
    Branded, HasTable, NamedLoader, NamedNotice, NamedSeat, NamedShelves, ShelvesName,
};
pub use notice::Notice;
pub use shelf_loader::ShelfLoader;
pub use shelf_seats::ShelfSeat;
pub use shelf_steps::Edition;
pub use shelves::Shelves;
pub use versions::{Loads, Versions};
