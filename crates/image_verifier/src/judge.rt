//! Judges words, step by step.

ghost use Rattle.std.specs.Prelude.{◌≡◌, MatchResult, replicate, IfNone, ℕ, ◌<◌, ◌^◌, slice_index};
ghost use Rattle.image_layout.specs.Offsets.{IsWhole, header_of};
ghost use Rattle.image_layout.specs.Text.{padded_text_of};
ghost use Rattle.image_verifier.specs.Accepted.{IsAccepted};
ghost use Rattle.image_verifier.specs.declared.closure.TheConstants.{NEVER};
ghost use Rattle.image_verifier.specs.FirstFault.{header_fault, section_fault, Tells, is_too_large};

use crate::closure::{NEVER, closure_fault};
use crate::connections::{TripEnd, connections_fault};
use crate::fault::ImageFault;
use crate::footpaths::footpaths_fault;
use crate::names::names_fault;
use image_layout::layout::{HEADER_WORDS, MAGIC, is_layout};
use image_layout::{Header, Words};
use std::alloc::{AllocError, Global};
use timetable::limits::{MAX_CONNECTIONS, MAX_FOOTPATHS, MAX_NAME_BYTES, MAX_STOPS, MAX_TRIPS};

fn is_too_large(header: Header) -> bool
    ensures { result ≡ is_too_large header }
{
    header.stops > MAX_STOPS
        || header.trips > MAX_TRIPS
        || header.connections > MAX_CONNECTIONS
        || header.footpaths > MAX_FOOTPATHS
        || header.name_bytes > MAX_NAME_BYTES
}

#[tactic(auto, unfolding(crate::specs::FirstFault::header_fault))]
fn header_fault(words: &[u32]) -> Option<ImageFault>
    ensures fault { result ≡ header_fault words.now }
    ensures whole { IfNone result (IsWhole words.now) }
{
    if words.len() < HEADER_WORDS {
        return Some(ImageFault::BadLength);
    }
    if words[0] != MAGIC {
        return Some(ImageFault::BadMagic);
    }
    if !is_layout(words[1]) {
        return Some(ImageFault::BadLayout);
    }
    let header = Header::of(words);
    if is_too_large(header) || words.len() != header.word_count() {
        return Some(ImageFault::BadLength);
    }
    None
}

// The first fault after the header. All memory has been taken: `ends` and `secs` are empty tables for
// trips and stops, and `text` is the bytes of the names, with the spare ones.
#[tactic(auto, unfolding(crate::specs::FirstFault::section_fault))]
fn section_fault(
    words: &[u32],
    ends: &mut [TripEnd],
    secs: &mut [u32],
    text: &[u8],
) -> Option<ImageFault>
    requires whole { IsWhole words.now }
    requires table { ends.old ≡ replicate (header_of words.now).trips (record { stop = 0; arr = 0 }) }
    requires empty { secs.old ≡ replicate (header_of words.now).stops NEVER }
    requires text { text.now ≡ padded_text_of words.now }
    ensures { result ≡ section_fault words.now }
{
    if let Some(fault) = connections_fault(words, ends) {
        return Some(fault);
    }
    if let Some(fault) = footpaths_fault(words) {
        return Some(fault);
    }
    if let Some(fault) = closure_fault(words, secs) {
        return Some(fault);
    }
    names_fault(words, text)
}

/// Judges the words. The error is their first fault, or `OutOfMemory`, which comes only if the header has
/// no fault.
#[tactic(auto, unfolding(crate::specs::FirstFault::first_fault))]
pub fn judge(alloc: Global, words: &[u32]) -> Result<(), ImageFault>
    ensures judged { MatchResult result (λ _. IsAccepted words.now) (Tells words.now) }
    ensures fits { (i : ℕ) → slice_index words.now i < 2 ^ 32 }
{
    if let Some(fault) = header_fault(words) {
        return Err(fault);
    }
    let header = Header::of(words);
    let mut ends = vec![in alloc; TripEnd::none(); header.trips as usize]?;
    let mut secs = vec![in alloc; NEVER; header.stops as usize]?;
    let text = Words::to_bytes(alloc, &words[header.text_offset()..])?;
    match section_fault(words, &mut ends, &mut secs, &text) {
        Some(fault) => Err(fault),
        None => Ok(()),
    }
}
