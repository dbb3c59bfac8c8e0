//! Lists that name stops, one stop_id on each line.

ghost use Rattle.std.specs.Prelude.{◌≡◌, ℕ, IfErr, IfOk, map, slice_get};
ghost use Rattle.std.specs.Str.Lines.{lines};
ghost use Rattle.departure_lines.specs.Naming.{AreMarked, IsUnknownLine, is_set};
ghost use Rattle.departure_lines.specs.declared.stop_lists.ListFault.TheVariants.{UnknownStop};

use crate::listed_names::{first_missing, mark_stops, names_of};
use image_verifier::Verified;
use std::alloc::{AllocError, Global};

/// Which stops are wanted.
#[derive(Drop)]
pub enum WantedStops {
    All,
    /// For each stop whether it is wanted.
    Of(Vec<bool>),
}

/// Why it isn't known which stops are wanted.
#[derive(Drop)]
pub enum ListFault {
    /// The line with this number, from 1 on, isn't a stop_id of the image.
    UnknownStop(usize),
    OutOfMemory,
}

impl From<AllocError> for ListFault {
    ghost use Rattle.std.specs.Prelude.{◌≡◌};
    ghost use Rattle.departure_lines.specs.declared.stop_lists.ListFault.TheVariants.{OutOfMemory};

    ghost from_gives = { λ _ fault. fault ≡ OutOfMemory };

    fn from(_error: AllocError) -> ListFault {
        ListFault::OutOfMemory
    }
}

impl WantedStops {
    ghost use Rattle.std.specs.Prelude.{◌≡◌, ℕ, IfOk, IfErr};
    ghost use Rattle.std.specs.Str.Lines.{lines};
    ghost use Rattle.departure_lines.specs.Naming.{AreWanted, IsUnknownLine, is_wanted};
    ghost use Rattle.departure_lines.specs.declared.stop_lists.ListFault.TheVariants.{UnknownStop};

    /// The stops that a list names, one stop_id on each line: of stops with the same stop_id, the lowest. The error is
    /// the first line that isn't a stop_id of the image, or that memory runs out. Lines and stops are gone through once
    /// each, and each is looked up in a tree.
    pub fn listed(alloc: Global, image: &Verified, list: &str) -> Result<WantedStops, ListFault>
        ensures wanted { IfOk result (λ wanted. AreWanted image.now.names (lines list.now) wanted) }
        ensures unknown { IfErr result (λ fault. (number : ℕ) → fault ≡ UnknownStop number
            → IsUnknownLine image.now.names (lines list.now) number) }
    {
        match marks_of(alloc, image, list) {
            Ok(marks) => Ok(WantedStops::Of(marks)),
            Err(fault) => Err(fault),
        }
    }

    /// Whether a stop is wanted.
    pub fn has(&self, stop: u32) -> bool
        ensures { result ≡ is_wanted self.now stop }
    {
        match self {
            WantedStops::All => true,
            WantedStops::Of(marks) => is_marked(marks, stop),
        }
    }
}

fn is_marked(marks: &[bool], stop: u32) -> bool
    ensures { result ≡ is_set (slice_get marks.now stop) }
{
    match marks.get(stop as usize) {
        Some(mark) => *mark,
        None => false,
    }
}

// For each stop whether it is the lowest one that has a listed name; or the first line that isn't a stop_id.
fn marks_of(alloc: Global, image: &Verified, list: &str) -> Result<Vec<bool>, ListFault>
    ensures marks { IfOk result (λ marks. AreMarked image.now.names (lines list.now) marks.items) }
    ensures unknown { IfErr result (λ fault. (number : ℕ) → fault ≡ UnknownStop number
        → IsUnknownLine image.now.names (lines list.now) number) }
{
    let listed = lines_of(alloc, list)?;
    let mut found = names_of(alloc, &listed)?;
    let marks = mark_stops(alloc, image, &mut found)?;
    // The contract of this call says that the image has as many names of stops as it has stops.
    image.stops();
    match first_missing(&listed, &found) {
        Some(number) => Err(ListFault::UnknownStop(number)),
        None => Ok(marks),
    }
}

fn lines_of(alloc: Global, list: &str) -> Result<Vec<&str>, AllocError>
    ensures { IfOk result (λ names. map (λ name. name.now) names.items ≡ lines list.now) }
{
    list.lines().collect(alloc)
}
