//! Writes an image, section by section.

ghost use Rattle.std.specs.Prelude.{FitsSigned, ◌≡◌, ◌++◌, IfOk, OnOk};
ghost use Rattle.std.specs.Int.{w64};
ghost use Rattle.timetable.specs.TimetableValue.{TimetableValue};
ghost use Rattle.image_layout.specs.Fields.{layout_of};
ghost use Rattle.image_layout.specs.Spelling.{header};
ghost use Rattle.image_layout.specs.Image.{IsImage};
ghost use Rattle.image_writer.specs.Writable.{IsWritable};
ghost use Rattle.image_writer.specs.Header.{counts_of};

use crate::names::{text_len, write_days_and_repeats, write_name_index};
use crate::network::{write_connections, write_foot_index, write_footpaths};
use crate::text::write_text;
use image_layout::Header;
use image_layout::layout::{LAYOUT, MAGIC};
use std::alloc::{AllocError, Global};
use timetable::{Names, Timetable};

/// The image of a timetable and its names in the layout that is written. There is exactly one.
///
/// The timetable is legal and within the limits. There is a name for each stop and each trip, and
/// together the names have at most `MAX_NAME_BYTES` bytes. All memory is taken before the first
/// word is written. The only error is that memory runs out.
pub fn write(alloc: Global, timetable: &Timetable, names: &Names) -> Result<Vec<u32>, AllocError>
    requires { IsWritable timetable.now names.now }
    ensures image { IfOk result (λ words. IsImage words.items timetable.now names.now) }
    ensures layout { IfOk result (λ words. layout_of words.items ≡ LAYOUT) }
{
    let counts = counts(timetable, names);
    let mut words = Vec::with_capacity(alloc, counts.word_count())?;
    write_header(&mut words, counts, names)?;
    write_connections(&mut words, &timetable.connections)?;
    write_foot_index(&mut words, timetable.stops, &timetable.footpaths)?;
    write_footpaths(&mut words, &timetable.footpaths)?;
    write_name_index(&mut words, names)?;
    write_days_and_repeats(&mut words, &names.trips)?;
    write_text(&mut words, names)?;
    Ok(words)
}

/// The header: the layout that is written, and the counts of the timetable and its names.
fn counts(timetable: &Timetable, names: &Names) -> Header
    requires { IsWritable timetable.now names.now }
    ensures { result ≡ counts_of timetable.now names.now }
{
    Header {
        layout: LAYOUT,
        stops: timetable.stops,
        trips: timetable.trips,
        connections: timetable.connections.len() as u32,
        footpaths: timetable.footpaths.len() as u32,
        name_bytes: text_len(names) as u32,
    }
}

/// Adds the header: the magic word, the layout, the counts, and the base as two words, the lower one first.
fn write_header(words: &mut Vec<u32>, counts: Header, names: &Names) -> Result<(), AllocError>
    ensures fits { FitsSigned w64 names.now.base }
    ensures written { (t : TimetableValue) → counts ≡ counts_of t names.now
        → OnOk result (words.new.items ≡ words.old.items ++ header LAYOUT t names.now) }
{
    let base = names.base.cast_unsigned();
    words.extend_from_slice(&[
        MAGIC,
        counts.layout,
        counts.stops,
        counts.trips,
        counts.connections,
        counts.footpaths,
        counts.name_bytes,
        (base % 4294967296) as u32,
        (base / 4294967296) as u32,
    ])
}
