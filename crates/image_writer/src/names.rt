//! Writes the name index, and the service days and repeats of trips.

ghost use Rattle.std.specs.Prelude.{◌≡◌, ◌<◌, ◌≤◌, ◌^◌, ◌++◌, ℕ, length, map, slice_index, OnOk};
ghost use Rattle.std.specs.Str.{IsUtf8};
ghost use Rattle.timetable.specs.declared.limits.TheConstants.{MAX_NAME_BYTES};
ghost use Rattle.timetable.specs.NamesValue.{TripNameValue};
ghost use Rattle.timetable.specs.Legal.{At};
ghost use Rattle.image_layout.specs.Spelling.{name_list, name_index, text};

use std::alloc::AllocError;
use timetable::{Names, TripName};

/// The number of names, of stops and of trips.
pub fn name_count(names: &Names) -> usize
    ensures { result ≡ length (name_list names.now) }
{
    names.stops.len() + names.trips.len()
}

/// The bytes of name `i`. The names of stops come first, then those of trips.
pub fn name_at(names: &Names, i: usize) -> &[u8]
    requires { i < length (name_list names.now) }
    ensures name { At (name_list names.now) i result.now }
    ensures utf8 { IsUtf8 result.now }
{
    let stops = names.stops.len();
    if i < stops {
        let name = &names.stops[i];
        return name.as_bytes();
    }
    let trip = &names.trips[i - stops];
    trip.name.as_bytes()
}

/// The number of bytes of all names together.
pub fn text_len(names: &Names) -> usize
    requires { length (text names.now) ≤ MAX_NAME_BYTES }
    ensures { result ≡ length (text names.now) }
{
    let mut bytes = 0;
    for i in 0..name_count(names) {
        bytes += name_at(names, i).len();
    }
    bytes
}

/// Adds the name index: for each name the number of bytes before it, and then the number of all bytes.
pub fn write_name_index(words: &mut Vec<u32>, names: &Names) -> Result<(), AllocError>
    requires { length (text names.now) ≤ MAX_NAME_BYTES }
    ensures { OnOk result (words.new.items ≡ words.old.items ++ name_index names.now) }
{
    let mut bytes = 0;
    for i in 0..name_count(names) {
        words.push(bytes as u32)?;
        bytes += name_at(names, i).len();
    }
    words.push(bytes as u32)?;
    Ok(())
}

/// Adds the service day of each trip, and then the repeat of each. The contract also says that all words
/// fit 32 bits.
pub fn write_days_and_repeats(words: &mut Vec<u32>, trips: &[TripName]) -> Result<(), AllocError>
    ensures written { OnOk result (words.new.items
        ≡ (words.old.items ++ map (λ (t : TripNameValue). t.day) trips.now)
        ++ map (λ (t : TripNameValue). t.repeat) trips.now) }
    ensures fits { OnOk result ((i : ℕ) → slice_index words.new.items i < 2 ^ 32) }
{
    for trip in trips {
        words.push(trip.day)?;
    }
    for trip in trips {
        words.push(trip.repeat)?;
    }
    Ok(())
}
