//! What an image has.

ghost use Rattle.std.specs.Prelude.{◌≡◌, ◌++◌, IfOk, OnOk, length, string_bytes};
ghost use Rattle.std.specs.List.Sorted.{IsNonDecreasing, IsPermutation};
ghost use Rattle.image_layout.specs.Spelling.{text};
ghost use Rattle.image_facts.specs.Days.{trip_days};
ghost use Rattle.image_facts.specs.Facts.{AreFacts, counts_text, file_bytes, file_text};

use crate::base::append_base;
use crate::days::append_days;
use crate::putting::put_line;
use image_layout::Header;
use image_verifier::Verified;
use std::alloc::{AllocError, Global};
use text_pieces::Form;

/// The lines of an image: its layout, its bytes, its base as a number and as a date and a time of
/// UTC, how many stops, trips, connections and footpaths it has, the bytes of its names, and how
/// many trips each of its service days has, the earliest first.
pub fn facts_of(alloc: Global, image: &Verified) -> Result<String, AllocError>
    ensures { IfOk result (λ lines. AreFacts image.now (string_bytes lines)) }
{
    let mut lines = String::new(alloc);
    append_file(&mut lines, image)?;
    append_base(&mut lines, image.base())?;
    append_counts(&mut lines, image)?;
    let days = days_of(alloc, image)?;
    append_days(&mut lines, Form::Lines, &days)?;
    Ok(lines)
}

// Adds the layout and the size of the image's file.
fn append_file(lines: &mut String, image: &Verified) -> Result<(), AllocError>
    ensures { OnOk result (string_bytes lines.new ≡ string_bytes lines.old ++ file_text image.now) }
{
    put_line(lines, "layout ", header_of(image).layout as u64)?;
    put_line(lines, "bytes ", byte_count(image))?;
    Ok(())
}

// Adds the counts of the image.
fn append_counts(lines: &mut String, image: &Verified) -> Result<(), AllocError>
    ensures { OnOk result (string_bytes lines.new ≡ string_bytes lines.old ++ counts_text image.now) }
{
    put_line(lines, "stops ", image.stops() as u64)?;
    put_line(lines, "trips ", image.trips() as u64)?;
    put_line(lines, "connections ", image.len() as u64)?;
    put_line(lines, "footpaths ", image.footpath_count() as u64)?;
    put_line(lines, "name-bytes ", header_of(image).name_bytes as u64)?;
    Ok(())
}

/// The header, which has the layout and the bytes of all names.
pub fn header_of(image: &Verified) -> Header
    ensures layout { result.layout ≡ image.now.layout }
    ensures names { result.name_bytes ≡ length (text image.now.names) }
{
    Header::of(image.words())
}

/// The size of the image's file in bytes.
pub fn byte_count(image: &Verified) -> u64
    ensures { result ≡ file_bytes image.now }
{
    4 * image.words().len() as u64
}

/// The service day of each trip, the earliest first.
pub fn days_of(alloc: Global, image: &Verified) -> Result<Vec<u32>, AllocError>
    ensures same { IfOk result (λ days. IsPermutation (trip_days image.now.names) days.items) }
    ensures rising { IfOk result (λ days. IsNonDecreasing days.items) }
{
    let mut days = unsorted_days(alloc, image)?;
    days.sort_unstable();
    Ok(days)
}

// The service day of each trip, in the order of the trips.
fn unsorted_days(alloc: Global, image: &Verified) -> Result<Vec<u32>, AllocError>
    ensures { IfOk result (λ days. days.items ≡ trip_days image.now.names) }
{
    image.stops();
    let trips = image.trips() as usize;
    let mut days = Vec::with_capacity(alloc, trips)?;
    for trip in 0..trips {
        days.push(image.trip_day(trip))?;
    }
    Ok(days)
}
