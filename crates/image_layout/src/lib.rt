//! The words of an image: where each field stands, and words as bytes.
#![tactic(auto)]

mod fields;
mod header;
pub mod laws;
pub mod layout;
mod sample;
mod words;

pub use fields::{
    arr_at, base_at, connection_at, day_at, dep_at, flags_at, foot_from_at, foot_index_at,
    foot_secs_at, from_at, layout_at, magic_at, name_byte_at, name_index_at, repeat_at, to_at,
    trip_at,
};
pub use header::Header;
pub use sample::{sample_names, sample_timetable, sample_words, second_sample_words};
pub use words::{Words, WordsFault};
