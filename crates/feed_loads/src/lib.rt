//! Loads of feeds: each order that comes to the loader's end of the queue is carried out once, from files that are
//! drawn for it.
#![tactic(auto)]

mod carrying;
mod drawing;
mod feeds;
mod loader_post;
mod loading;
mod refusal;

pub use carrying::LoadContext;
pub use drawing::{DrawnFiles, UsedFiles};
pub use feeds::Feeds;
pub use load_orders::DrawPermit;
pub use loader_post::{LoaderPost, close_and_join, start_loader};
pub use loading::{LoadedVersion, load_one};
pub use refusal::LoadRefusal;
