//! Judges whether two footpaths end to end are ever shorter than the direct one.
//!
//! For each stop, a table gets the seconds of the footpaths into it, each at the stop that the
//! footpath leaves. Then, for each of these, every footpath into the stop that it leaves is compared
//! with one entry. So the time is proportional to the number of pairs of footpaths end to end, and
//! the table has a word for each stop.

ghost use Rattle.std.specs.Prelude.{◌≡◌, ◌<◌, ◌+◌, replicate, IfNone};
ghost use Rattle.image_layout.specs.Offsets.{IsWhole, header_of};
ghost use Rattle.image_layout.specs.Fields.{foot_from_of, foot_index_of};
ghost use Rattle.image_verifier.specs.declared.closure.TheConstants.{NEVER};
ghost use Rattle.image_verifier.specs.FootFaults.{HasFootRanges, IsInto};
ghost use Rattle.image_verifier.specs.ClosureFaults.{way_fault, into_fault, closure_fault, HasSecs};

use crate::fault::ImageFault;
use image_layout::{Header, foot_from_at, foot_index_at, foot_secs_at};

/// The entry of a stop that no footpath leaves: more seconds than any two footpaths take together.
pub const NEVER: u32 = 4_294_967_295;

// Enters the seconds of the footpaths into stop `into` in an empty table.
fn enter_row(words: &[u32], into: usize, secs: &mut [u32])
    requires whole { IsWhole words.now }
    requires ranges { HasFootRanges words.now }
    requires into { into < (header_of words.now).stops }
    requires empty { secs.old ≡ replicate (header_of words.now).stops NEVER }
    ensures { HasSecs words.now (foot_index_of words.now into) (foot_index_of words.now (into + 1)) secs.new }
{
    for k in foot_index_at(words, into) as usize..foot_index_at(words, into + 1) as usize {
        secs[foot_from_at(words, k) as usize] = foot_secs_at(words, k);
    }
}

// Empties the table again.
fn clear_row(words: &[u32], into: usize, secs: &mut [u32])
    requires whole { IsWhole words.now }
    requires ranges { HasFootRanges words.now }
    requires into { into < (header_of words.now).stops }
    requires entered { HasSecs words.now (foot_index_of words.now into) (foot_index_of words.now (into + 1)) secs.old }
    ensures { secs.new ≡ replicate (header_of words.now).stops NEVER }
{
    for k in foot_index_at(words, into) as usize..foot_index_at(words, into + 1) as usize {
        secs[foot_from_at(words, k) as usize] = NEVER;
    }
}

// The first fault of two footpaths end to end into stop `into`, of which the second is at index `second`.
fn way_fault(words: &[u32], into: usize, second: usize, secs: &[u32]) -> Option<ImageFault>
    requires whole { IsWhole words.now }
    requires ranges { HasFootRanges words.now }
    requires second { IsInto words.now into second }
    requires entered { HasSecs words.now (foot_index_of words.now into) (foot_index_of words.now (into + 1)) secs.now }
    ensures { result ≡ way_fault words.now (foot_from_of words.now second) into }
{
    let middle = foot_from_at(words, second) as usize;
    let second_secs = foot_secs_at(words, second);
    for first in foot_index_at(words, middle) as usize..foot_index_at(words, middle + 1) as usize {
        let from = foot_from_at(words, first) as usize;
        if secs[from] > foot_secs_at(words, first) + second_secs {
            return Some(ImageFault::NotClosed(from, middle, into));
        }
    }
    None
}

// The first fault of two footpaths end to end into stop `into`. The table is empty before and, if
// there is no fault, afterwards.
fn into_fault(words: &[u32], into: usize, secs: &mut [u32]) -> Option<ImageFault>
    requires whole { IsWhole words.now }
    requires ranges { HasFootRanges words.now }
    requires into { into < (header_of words.now).stops }
    requires empty { secs.old ≡ replicate (header_of words.now).stops NEVER }
    ensures fault { result ≡ into_fault words.now into }
    ensures empty { IfNone result (secs.new ≡ replicate (header_of words.now).stops NEVER) }
{
    enter_row(words, into, secs);
    for second in foot_index_at(words, into) as usize..foot_index_at(words, into + 1) as usize {
        if let Some(fault) = way_fault(words, into, second, secs) {
            return Some(fault);
        }
    }
    clear_row(words, into, secs);
    None
}

/// The first fault of the closure: two footpaths end to end that are shorter than the direct one, or
/// without a direct one. The table `secs` is empty.
pub fn closure_fault(words: &[u32], secs: &mut [u32]) -> Option<ImageFault>
    requires whole { IsWhole words.now }
    requires ranges { HasFootRanges words.now }
    requires empty { secs.old ≡ replicate (header_of words.now).stops NEVER }
    ensures { result ≡ closure_fault words.now }
{
    for into in 0..Header::of(words).stops as usize {
        if let Some(fault) = into_fault(words, into, secs) {
            return Some(fault);
        }
    }
    None
}
