//! The files of a feed, by name, and the tables that are read from them.
#![tactic(auto)]

mod asked;
mod disk;
mod failed;
mod file;
mod files;
mod folder;
pub mod laws;
mod memory;
mod reading;
mod reads;

pub use asked::AskedDisk;
pub use disk::{FoundNode, NodeState, OpenDisk, state_at};
pub use failed::FailedNames;
pub use files::{FeedFiles, FileFault, LONGEST_FILE};
pub use folder::{Disk, FolderFiles, ReadPermit, file_up_to};
pub use memory::MemoryFiles;
pub use reading::{ReadFault, read_tables};
pub use reads::FileReads;
