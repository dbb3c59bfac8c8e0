//! Fronts: lists of entries in one vector, each with the front of the points that depart at its time or later; and the
//! labels of trips.
//!
//! Entries and items are only pushed, never changed, so the index of an entry names the same list for ever. Entry 0
//! ends each list.
#![tactic(auto)]

mod entry;
mod front_lists;
mod insertion;
mod keeping;
mod labels;
mod putting;
mod search;
mod valued;
mod vectors;

pub use entry::{Boarding, FrontEntry, Item, RiddenLabel, Step};
pub use front_lists::FrontLists;
pub use labels::{Label, Labels, offer_label};
pub use putting::index_of;
pub use valued::{HasValue, some_no_worse};
pub use vectors::{append, copies};
