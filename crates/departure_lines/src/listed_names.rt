//! The names of a list, found among the stops of an image.

ghost use Rattle.std.specs.Prelude.{◌≡◌, ℕ, List, Some, true, false, not, Contains, IfNone, IfOk, IfSome, OnOk};
ghost use Rattle.std.specs.Prelude.{map, if◌then◌else◌};
ghost use Rattle.std.specs.Str.{bytes_eq};
ghost use Rattle.departure_lines.specs.Naming.{is_set};
ghost use Rattle.departure_lines.specs.Sought.{AreFoundBelow, AreMarkedBelow, AreSought, IsFirstMissing, found_at};
ghost use Rattle.departure_lines.specs.Sought.{is_missing, now_found};

use image_facts::stop_name;
use image_verifier::Verified;
use std::alloc::{AllocError, Global};
use std::collections::BTreeMap;

/// The names of a list, each with whether a stop was found that has it. This is a tree and not a hash table, since
/// a feed could choose its stop_ids so that their hashes collide.
pub(crate) type FoundNames<'a> = BTreeMap<&'a str, bool>;

/// The names of a list, before any was found.
pub(crate) fn names_of<'a>(alloc: Global, listed: &[&'a str]) -> Result<FoundNames<'a>, AllocError>
    ensures { IfOk result (λ found. AreSought (map (λ name. name.now) listed.now) found) }
{
    let mut found = BTreeMap::new(alloc);
    for name in listed {
        add_name(&mut found, name)?;
    }
    Ok(found)
}

fn add_name<'a>(found: &mut FoundNames<'a>, name: &'a str) -> Result<(), AllocError>
    ensures { OnOk result ((q : List ℕ) → found_at found.new q
        ≡ (if bytes_eq name.now q then Some false else found_at found.old q)) }
{
    found.insert(name, false)?;
    Ok(())
}

/// For each stop whether it is the lowest one that has a listed name. Notes which listed names were found.
pub(crate) fn mark_stops(
    alloc: Global,
    image: &Verified,
    found: &mut FoundNames<'_>,
) -> Result<Vec<bool>, AllocError>
    ensures found { (listed : List (List ℕ)) → AreSought listed found.old
        → OnOk result (AreFoundBelow image.now.names listed image.now.timetable.stops found.new) }
    ensures marks { (listed : List (List ℕ)) → AreSought listed found.old
        → IfOk result (λ marks. AreMarkedBelow image.now.names listed image.now.timetable.stops marks.items) }
{
    let stops = image.stops();
    let mut marks = Vec::with_capacity(alloc, stops as usize)?;
    for stop in 0..stops {
        let name = stop_name(alloc, image, stop)?;
        marks.push(is_first_found(found, name.as_str()))?;
    }
    Ok(marks)
}

// Whether a name is listed and wasn't found before. If it is listed, it is found from now on.
fn is_first_found(found: &mut FoundNames<'_>, name: &str) -> bool
    ensures first { result ≡ is_missing (found_at found.old name.now) }
    ensures found { (q : List ℕ) → found_at found.new q
        ≡ (if bytes_eq name.now q then now_found (found_at found.old q) else found_at found.old q) }
{
    match found.get_mut(name) {
        Some(is_found) => find_now(is_found),
        None => false,
    }
}

fn find_now(is_found: &mut bool) -> bool
    ensures first { result ≡ not is_found.old }
    ensures found { is_found.new ≡ true }
{
    let is_first = !*is_found;
    *is_found = true;
    is_first
}

/// The number of the first line, from 1 on, whose name wasn't found.
pub(crate) fn first_missing(listed: &[&str], found: &FoundNames<'_>) -> Option<usize>
    ensures missing { IfSome result (IsFirstMissing found.now (map (λ name. name.now) listed.now)) }
    ensures all { IfNone result ((name : List ℕ) → Contains (map (λ name. name.now) listed.now) name
        → found_at found.now name ≡ Some true) }
{
    for index in 0..listed.len() {
        let name = listed[index];
        if !was_found(found, name) {
            return Some(index + 1);
        }
    }
    None
}

fn was_found(found: &FoundNames<'_>, name: &str) -> bool
    ensures { result ≡ is_set (found_at found.now name.now) }
{
    match found.get(name) {
        Some(is_found) => *is_found,
        None => false,
    }
}
