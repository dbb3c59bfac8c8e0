//! The files of images: their words, from a file or a reader, and how they are written.
#![tactic(auto)]

mod disk;
mod fault;
mod names;
mod out;
mod reading;
mod texts;
mod watching;
mod writing;

pub use disk::ImageDisk;
pub use fault::ImageFileFault;
pub use names::NameForm;
pub use out::OutDisk;
pub use reading::image_words;
pub use texts::{bytes_at, text_at};
pub use watching::{HeardWrite, Watched, WatchedRead, WatchedWriter, write_all};
pub use writing::{NewFile, new_file, put_image, put_text_into, settle};
