//! From a feed's files to the image of its stops, runs, connections and footpaths.
#![tactic(auto)]

mod closed;
mod fault;
mod loading;
mod made;
mod names;
mod plan;
mod writing;

pub use connections::{OutOfRange, Report, Run};
pub use fault::LoadFault;
pub use feed_files::{FailedNames, FeedFiles, FileFault, FolderFiles, MemoryFiles};
pub use loading::load;
pub use made::image_of;
pub use names::day_number;
pub use plan::Plan;
