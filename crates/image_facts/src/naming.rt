//! The names of stops and trips as texts, and connections by their index.

ghost use Rattle.std.specs.Prelude.{◌≡◌, ◌<◌, ◌+◌, ℕ, List, slice_get, string_bytes, IfOk};
ghost use Rattle.timetable.specs.Legal.{At};
ghost use Rattle.image_layout.specs.Spelling.{name_list};
ghost use Rattle.image_facts.specs.Naming.{stop_bytes, trip_bytes};

use image_verifier::Verified;
use std::alloc::{AllocError, Global};
use timetable::Connection;

/// The connection at index `position`, if the image has it.
pub fn connection_at(image: &Verified, position: u32) -> Option<Connection>
    ensures { result ≡ slice_get image.now.timetable.connections position }
{
    if (position as usize) < image.len() {
        Some(image.connection(position as usize))
    } else {
        None
    }
}

// The bytes of a name. Names are numbered: those of the stops, and then those of the trips.
fn bytes_of_name(alloc: Global, image: &Verified, i: usize) -> Result<Vec<u8>, AllocError>
    requires { i < image.now.timetable.stops + image.now.timetable.trips }
    ensures { (name : List ℕ) → At (name_list image.now.names) i name → IfOk result (λ bytes. bytes.items ≡ name) }
{
    let len = image.name_len(i);
    let mut bytes = Vec::with_capacity(alloc, len)?;
    for j in 0..len {
        bytes.push(image.name_byte(i, j))?;
    }
    Ok(bytes)
}

// A name as a text, as the image has it. The only error is that memory ran out.
fn text_of_name(alloc: Global, image: &Verified, i: usize) -> Result<String, AllocError>
    requires { i < image.now.timetable.stops + image.now.timetable.trips }
    ensures { (name : List ℕ) → At (name_list image.now.names) i name
        → IfOk result (λ text. string_bytes text ≡ name) }
{
    image.stops();
    let bytes = bytes_of_name(alloc, image, i)?;
    match String::from_utf8(bytes) {
        Ok(text) => Ok(text),
        Err(_) => unreachable!(),
    }
}

/// The name of a stop, or an empty text if there is no such stop.
pub fn stop_name(alloc: Global, image: &Verified, stop: u32) -> Result<String, AllocError>
    ensures { IfOk result (λ name. string_bytes name ≡ stop_bytes image.now.names stop) }
{
    if stop < image.stops() {
        text_of_name(alloc, image, stop as usize)
    } else {
        Ok(String::new(alloc))
    }
}

/// The name of a trip, or an empty text if there is no such trip.
pub fn trip_name(alloc: Global, image: &Verified, trip: u32) -> Result<String, AllocError>
    ensures { IfOk result (λ name. string_bytes name ≡ trip_bytes image.now.names trip) }
{
    let stops = image.stops() as usize;
    if trip < image.trips() {
        text_of_name(alloc, image, stops + trip as usize)
    } else {
        Ok(String::new(alloc))
    }
}
