//! The names of a list, found among the stops of an image.

ghost use Rattle.std.specs.Prelude.{◌≡◌, ℕ, List, None, Some, IfOk, MatchOption, OnOk, map, if◌then◌else◌};
ghost use Rattle.std.specs.Str.{bytes_eq};
ghost use Rattle.matrix_rows.specs.Sought.{AreFound, AreFoundBelow, AreSought, IsOneMissing, first_of, found_at};
ghost use Rattle.matrix_rows.specs.Sought.{now_found, stop_in};

use image_facts::stop_name;
use image_verifier::Verified;
use std::alloc::{AllocError, Global};
use std::collections::BTreeMap;

/// The names of a list, each with the lowest stop that was found to have it. This is a tree and not a hash table, since
/// a feed could choose its stop_ids so that their hashes collide.
pub(crate) type FoundStops<'a> = BTreeMap<&'a str, Option<u32>>;

/// The names of a list, before any stop was found.
pub(crate) fn names_of<'a>(alloc: Global, listed: &[&'a str]) -> Result<FoundStops<'a>, AllocError>
    ensures { IfOk result (λ found. AreSought (map (λ name. name.now) listed.now) found) }
{
    let mut found = BTreeMap::new(alloc);
    for name in listed {
        add_name(&mut found, name)?;
    }
    Ok(found)
}

fn add_name<'a>(found: &mut FoundStops<'a>, name: &'a str) -> Result<(), AllocError>
    ensures { OnOk result ((q : List ℕ) → found_at found.new q
        ≡ (if bytes_eq name.now q then Some None else found_at found.old q)) }
{
    found.insert(name, None)?;
    Ok(())
}

/// Notes for each listed name the lowest stop that has it.
pub(crate) fn find_stops(
    alloc: Global,
    image: &Verified,
    found: &mut FoundStops<'_>,
) -> Result<(), AllocError>
    ensures { (listed : List (List ℕ)) → AreSought listed found.old
        → OnOk result (AreFoundBelow image.now.names listed image.now.timetable.stops found.new) }
{
    let stops = image.stops();
    for stop in 0..stops {
        let name = stop_name(alloc, image, stop)?;
        note_stop(found, name.as_str(), stop);
    }
    Ok(())
}

// Notes that a stop has a name, if the name is listed and no stop was found before.
fn note_stop(found: &mut FoundStops<'_>, name: &str, stop: u32)
    ensures { (q : List ℕ) → found_at found.new q
        ≡ (if bytes_eq name.now q then now_found stop (found_at found.old q) else found_at found.old q) }
{
    match found.get_mut(name) {
        Some(first) => keep_first(first, stop),
        None => {}
    }
}

fn keep_first(first: &mut Option<u32>, stop: u32)
    ensures { first.new ≡ Some (first_of first.old stop) }
{
    if first.is_none() {
        *first = Some(stop);
    }
}

/// The stop of each name, if one was found for each.
pub(crate) fn stops_found(
    alloc: Global,
    listed: &[&str],
    found: &FoundStops<'_>,
) -> Result<Option<Vec<u32>>, AllocError>
    ensures { IfOk result (λ stops. MatchOption stops (IsOneMissing found.now (map (λ name. name.now) listed.now))
        (λ stops. AreFound found.now (map (λ name. name.now) listed.now) stops.items)) }
{
    let mut stops = Vec::with_capacity(alloc, listed.len())?;
    for name in listed {
        match stop_found(found, name) {
            None => return Ok(None),
            Some(stop) => stops.push(stop)?,
        }
    }
    Ok(Some(stops))
}

fn stop_found(found: &FoundStops<'_>, name: &str) -> Option<u32>
    ensures { result ≡ stop_in (found_at found.now name.now) }
{
    match found.get(name) {
        Some(stop) => *stop,
        None => None,
    }
}
