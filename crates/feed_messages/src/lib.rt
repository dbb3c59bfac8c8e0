//! What a person reads of a feed that is refused: what is wrong with its folder, or which line, column and value of
//! which file. The file is read again for this, with the reader by which its tables are read.
//!
//! No contract says that a message is right; transcripts show it.
#![tactic(auto)]

mod every_fault;
mod file_faults;
mod files;
mod folders;
mod known_ids;
mod quotes;
mod suspects;
mod table_fault;
mod wording;
mod words;

pub use every_fault::explain_further;
pub use files::{advance, file_bytes};
pub use folders::{explain_failed, explain_folder, folder_fault};
pub use table_fault::explain_table;
pub use words::{
    explain, is_file, is_folder, missing_reason, quoted, reason_of, shown_path, unread_reason,
};
