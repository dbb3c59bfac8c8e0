//! The lines of any reader, cut at LF, however the reads divide the bytes; readers and writers whose failures are
//! counted.
#![tactic(auto)]

mod block;
mod counted;
pub mod laws;
mod line_reads;
mod reader;
mod streams;
mod text;

pub use counted::Counted;
pub use line_reads::LineReads;
pub use reader::{LONGEST_LINE, LineReader, NextLine};
pub use streams::{ReadFailed, ReadStream, WriteFailed, WriteStream};
pub use text::{LINE_BYTES, Line};
