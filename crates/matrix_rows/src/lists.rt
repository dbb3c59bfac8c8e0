//! Lists of sets of stops: on each line a stop_id, or several with a tab between two of them.

ghost use Rattle.std.specs.Prelude.{◌≡◌, ◌<◌, ◌+◌, ◌++◌, ◌∷◌, [], ℕ, Contains, IfErr, IfOk, OnOk};
ghost use Rattle.std.specs.Prelude.{MatchBool, MatchOption, map, vec_len};
ghost use Rattle.std.specs.Global.{Vec};
ghost use Rattle.std.specs.List.{AllZip, flat_map};
ghost use Rattle.std.specs.Str.Lines.{lines};
ghost use Rattle.journeys.specs.Questions.{IsNamed};
ghost use Rattle.matrix_rows.specs.Listed.{AreDifferent, AreListed, HasStopTwice, IsListFault, IsUnnamed, ids_in};
ghost use Rattle.matrix_rows.specs.Sought.{AreFound, IsMissing};

use crate::listed_names::{FoundStops, find_stops, names_of, stops_found};
use crate::repeated::named_twice;
use image_verifier::Verified;
use std::alloc::{AllocError, Global};

/// Why a list doesn't say which sets of stops are meant. Lines are numbered from 1 on.
#[derive(Drop)]
pub enum SetListFault {
    /// In the line with this number is what isn't a stop_id of the image.
    UnknownStop(usize),
    /// The line with this number has a stop_id twice.
    StopTwice(usize),
    /// The line with the second number is that with the first.
    LineTwice(usize, usize),
    /// The list has no line.
    Empty,
    OutOfMemory,
}

impl From<AllocError> for SetListFault {
    ghost use Rattle.std.specs.Prelude.{◌≡◌};
    ghost use Rattle.matrix_rows.specs.declared.lists.SetListFault.TheVariants.{OutOfMemory};

    ghost from_gives = { λ _ fault. fault ≡ OutOfMemory };

    fn from(_error: AllocError) -> SetListFault {
        SetListFault::OutOfMemory
    }
}

/// The sets of stops that a list names, in the order of its lines: of stops with the same stop_id, the lowest. The
/// error is that it has no line, or the first line that has what isn't a stop_id of the image, or else the first that
/// has a stop_id twice, or else the first that is there again; or that memory runs out.
pub fn sets_listed(
    alloc: Global,
    image: &Verified,
    list: &str,
) -> Result<Vec<Vec<u32>>, SetListFault>
    ensures sets { IfOk result (λ sets. AreListed image.now.names (lines list.now) sets.items) }
    ensures within { IfOk result (λ sets. (set : Vec ℕ) → Contains sets.items set
        → (stop : ℕ) → Contains set.items stop → stop < image.now.timetable.stops) }
    ensures some { IfOk result (λ sets. 0 < vec_len sets) }
    ensures fault { IfErr result (IsListFault image.now.names (lines list.now)) }
{
    let listed = lines_of(alloc, list)?;
    if listed.len() == 0 {
        return Err(SetListFault::Empty);
    }
    let sets = sets_of_lines(alloc, image, &listed)?;
    // The contract of this call says that the image has as many names of stops as it has stops.
    image.stops();
    if let Some(number) = stop_twice(alloc, &listed)? {
        return Err(SetListFault::StopTwice(number));
    }
    match named_twice(alloc, &listed)? {
        Some(list_indices) => Err(SetListFault::LineTwice(list_indices.0 + 1, list_indices.1 + 1)),
        None => Ok(sets),
    }
}

fn lines_of(alloc: Global, list: &str) -> Result<Vec<&str>, AllocError>
    ensures { IfOk result (λ names. map (λ name. name.now) names.items ≡ lines list.now) }
{
    list.lines().collect(alloc)
}

fn ids_of(alloc: Global, line: &str) -> Result<Vec<&str>, AllocError>
    ensures { IfOk result (λ ids. map (λ id. id.now) ids.items ≡ ids_in line.now) }
{
    line.split('\t').collect(alloc)
}

// The stops of each line, or the number of the first that has what isn't a stop_id.
fn sets_of_lines(
    alloc: Global,
    image: &Verified,
    listed: &[&str],
) -> Result<Vec<Vec<u32>>, SetListFault>
    ensures sets { IfOk result (λ sets. AllZip
        (λ line set. AllZip (IsNamed image.now.names) (ids_in line) set.items)
        (map (λ line. line.now) listed.now) sets.items) }
    ensures fault { IfErr result (IsUnnamed image.now.names (map (λ line. line.now) listed.now)) }
{
    let ids = ids_of_lines(alloc, listed)?;
    let mut found = names_of(alloc, &ids)?;
    find_stops(alloc, image, &mut found)?;
    image.stops();
    sets_found(alloc, listed, &found)
}

// The stop_ids of all lines.
fn ids_of_lines<'a>(alloc: Global, listed: &[&'a str]) -> Result<Vec<&'a str>, AllocError>
    ensures { IfOk result (λ ids. map (λ id. id.now) ids.items
        ≡ flat_map ids_in (map (λ line. line.now) listed.now)) }
{
    let mut ids = Vec::new(alloc);
    for line in listed {
        let more = ids_of(alloc, line)?;
        ids.extend_from_slice(&more)?;
    }
    Ok(ids)
}

// The stops of each line, or the number of the first for one of whose stop_ids none was found.
fn sets_found(
    alloc: Global,
    listed: &[&str],
    found: &FoundStops<'_>,
) -> Result<Vec<Vec<u32>>, SetListFault>
    ensures sets { IfOk result (λ sets. AllZip (λ line set. AreFound found.now (ids_in line) set.items)
        (map (λ line. line.now) listed.now) sets.items) }
    ensures missing { IfErr result (IsMissing found.now (map (λ line. line.now) listed.now)) }
{
    let mut sets = Vec::with_capacity(alloc, listed.len())?;
    for index in 0..listed.len() {
        let ids = ids_of(alloc, listed[index])?;
        match stops_found(alloc, &ids, found)? {
            Some(set) => push_set(&mut sets, set)?,
            None => return Err(SetListFault::UnknownStop(index + 1)),
        }
    }
    Ok(sets)
}

fn push_set(sets: &mut Vec<Vec<u32>>, set: Vec<u32>) -> Result<(), AllocError>
    ensures { OnOk result (sets.new.items ≡ sets.old.items ++ set ∷ []) }
{
    sets.push(set)?;
    Ok(())
}

// The number, from 1 on, of the first line that has a stop_id twice.
fn stop_twice(alloc: Global, listed: &[&str]) -> Result<Option<usize>, AllocError>
    ensures { IfOk result (λ number. MatchOption number
        ((line : _) → Contains (map (λ line. line.now) listed.now) line → AreDifferent (ids_in line))
        (HasStopTwice (map (λ line. line.now) listed.now))) }
{
    for index in 0..listed.len() {
        let ids = ids_of(alloc, listed[index])?;
        let repeated = has_repeat(alloc, &ids)?;
        if repeated {
            return Ok(Some(index + 1));
        }
    }
    Ok(None)
}

// Whether a text is there twice.
fn has_repeat(alloc: Global, texts: &[&str]) -> Result<bool, AllocError>
    ensures { IfOk result (λ has. MatchBool has (AreDifferent (map (λ text. text.now) texts.now) → ⊥)
        (AreDifferent (map (λ text. text.now) texts.now))) }
{
    match named_twice(alloc, texts)? {
        Some(_indices) => Ok(true),
        None => Ok(false),
    }
}
