//! Copies an image's timetable and names, so that the image can be written again.

ghost use Rattle.std.specs.Prelude.{◌≡◌, ◌<◌, ◌++◌, map, string_bytes, IfOk, OnOk};
ghost use Rattle.image_layout.specs.Offsets.{header_of};
ghost use Rattle.image_layout.specs.Shown.{name_count, connections_of, footpath_of, footpaths_into, footpaths_of};
ghost use Rattle.image_layout.specs.Shown.{name_of, names_of, timetable_of};
ghost use Rattle.image_verifier.specs.Accepted.{IsAccepted};

use crate::find::name_len_at;
use image_layout::{
    Header, base_at, connection_at, day_at, foot_from_at, foot_index_at, foot_secs_at,
    name_byte_at, repeat_at,
};
use std::alloc::{AllocError, Global};
use timetable::{Connection, Footpath, Names, Timetable, TripName};

fn unpack_connections(alloc: Global, words: &[u32]) -> Result<Vec<Connection>, AllocError>
    requires { IsAccepted words.now }
    ensures { IfOk result (λ connections. connections.items ≡ connections_of words.now) }
{
    let count = Header::of(words).connections as usize;
    let mut connections = Vec::with_capacity(alloc, count)?;
    for i in 0..count {
        connections.push(connection_at(words, i))?;
    }
    Ok(connections)
}

// Adds the footpaths into a stop.
fn unpack_walks_into(
    words: &[u32],
    stop: usize,
    footpaths: &mut Vec<Footpath>,
) -> Result<(), AllocError>
    requires accepted { IsAccepted words.now }
    requires within { stop < (header_of words.now).stops }
    ensures { OnOk result (footpaths.new.items ≡ footpaths.old.items ++ footpaths_into words.now stop) }
{
    let first = foot_index_at(words, stop) as usize;
    let end = foot_index_at(words, stop + 1) as usize;
    for position in first..end {
        footpaths.push(Footpath {
            from: foot_from_at(words, position),
            to: stop as u32,
            secs: foot_secs_at(words, position),
        })?;
    }
    Ok(())
}

fn unpack_footpaths(alloc: Global, words: &[u32]) -> Result<Vec<Footpath>, AllocError>
    requires { IsAccepted words.now }
    ensures { IfOk result (λ footpaths. footpaths.items ≡ footpaths_of words.now) }
{
    let header = Header::of(words);
    let mut footpaths = Vec::with_capacity(alloc, header.footpaths as usize)?;
    for stop in 0..header.stops as usize {
        unpack_walks_into(words, stop, &mut footpaths)?;
    }
    Ok(footpaths)
}

/// The timetable that accepted words show.
pub fn unpack_timetable(alloc: Global, words: &[u32]) -> Result<Timetable, AllocError>
    requires { IsAccepted words.now }
    ensures { IfOk result (λ timetable. timetable ≡ timetable_of words.now) }
{
    let header = Header::of(words);
    let connections = unpack_connections(alloc, words)?;
    let footpaths = unpack_footpaths(alloc, words)?;
    Ok(Timetable {
        stops: header.stops,
        trips: header.trips,
        connections,
        footpaths,
    })
}

// The bytes of a name.
fn unpack_name_bytes(alloc: Global, words: &[u32], name: usize) -> Result<Vec<u8>, AllocError>
    requires accepted { IsAccepted words.now }
    requires within { name < name_count words.now }
    ensures { IfOk result (λ bytes. bytes.items ≡ name_of words.now name) }
{
    let len = name_len_at(words, name);
    let mut bytes = Vec::with_capacity(alloc, len)?;
    for i in 0..len {
        bytes.push(name_byte_at(words, name, i))?;
    }
    Ok(bytes)
}

// A name.
fn unpack_name(alloc: Global, words: &[u32], name: usize) -> Result<String, AllocError>
    requires accepted { IsAccepted words.now }
    requires within { name < name_count words.now }
    ensures { IfOk result (λ text. string_bytes text ≡ name_of words.now name) }
{
    let bytes = unpack_name_bytes(alloc, words, name)?;
    match String::from_utf8(bytes) {
        Ok(text) => Ok(text),
        Err(_) => unreachable!(),
    }
}

fn unpack_stop_names(alloc: Global, words: &[u32]) -> Result<Vec<String>, AllocError>
    requires { IsAccepted words.now }
    ensures { IfOk result (λ stops. map string_bytes stops.items ≡ (names_of words.now).stops) }
{
    let count = Header::of(words).stops as usize;
    let mut stops = Vec::with_capacity(alloc, count)?;
    for stop in 0..count {
        stops.push(unpack_name(alloc, words, stop)?)?;
    }
    Ok(stops)
}

fn unpack_trip_names(alloc: Global, words: &[u32]) -> Result<Vec<TripName>, AllocError>
    requires { IsAccepted words.now }
    ensures { IfOk result (λ trips. trips.items ≡ (names_of words.now).trips) }
{
    let header = Header::of(words);
    let count = header.trips as usize;
    let mut trips = Vec::with_capacity(alloc, count)?;
    for trip in 0..count {
        trips.push(TripName {
            name: unpack_name(alloc, words, header.stops as usize + trip)?,
            day: day_at(words, trip),
            repeat: repeat_at(words, trip),
        })?;
    }
    Ok(trips)
}

/// The names that accepted words show.
pub fn unpack_names(alloc: Global, words: &[u32]) -> Result<Names, AllocError>
    requires { IsAccepted words.now }
    ensures { IfOk result (λ names. names ≡ names_of words.now) }
{
    let stops = unpack_stop_names(alloc, words)?;
    let trips = unpack_trip_names(alloc, words)?;
    Ok(Names {
        base: base_at(words),
        stops,
        trips,
    })
}
