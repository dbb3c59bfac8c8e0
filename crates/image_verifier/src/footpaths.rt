//! Judges the footpaths, stop by stop.

ghost use Rattle.std.specs.Prelude.{◌≡◌, ◌<◌, ◌≤◌, ◌+◌};
ghost use Rattle.image_layout.specs.Offsets.{IsWhole, header_of};
ghost use Rattle.image_layout.specs.Fields.{foot_from_of, foot_index_of, foot_secs_of};
ghost use Rattle.timetable.specs.First.{any_between};
ghost use Rattle.image_verifier.specs.FootFaults.{is_bad_footpath, is_fall, is_from, is_bad_index, foot_fault};
ghost use Rattle.image_verifier.specs.FootFaults.{footpaths_fault};

use crate::fault::ImageFault;
use image_layout::{Header, foot_from_at, foot_index_at, foot_secs_at};
use timetable::limits::MAX_WALK_SECS;

fn is_bad_footpath(words: &[u32], position: usize) -> bool
    requires whole { IsWhole words.now }
    requires within { position < (header_of words.now).footpaths }
    ensures { result ≡ is_bad_footpath words.now position }
{
    foot_from_at(words, position) >= Header::of(words).stops
        || foot_secs_at(words, position) > MAX_WALK_SECS
}

fn is_fall(words: &[u32], position: usize) -> bool
    requires whole { IsWhole words.now }
    requires within { position < (header_of words.now).footpaths }
    requires after { 0 < position }
    ensures { result ≡ is_fall words.now position }
{
    foot_from_at(words, position) <= foot_from_at(words, position - 1)
}

fn is_from(words: &[u32], stop: usize, position: usize) -> bool
    requires whole { IsWhole words.now }
    requires within { position < (header_of words.now).footpaths }
    ensures { result ≡ is_from words.now stop position }
{
    foot_from_at(words, position) as usize == stop
}

#[tactic(auto, using(timetable::proofs::FirstLemmas::searches))]
fn has_bad_footpath(words: &[u32], start: usize, end: usize) -> bool
    requires whole { IsWhole words.now }
    requires within { end ≤ (header_of words.now).footpaths }
    ensures { result ≡ any_between (is_bad_footpath words.now) start end }
{
    for k in start..end {
        if is_bad_footpath(words, k) {
            return true;
        }
    }
    false
}

#[tactic(auto, using(timetable::proofs::FirstLemmas::searches))]
fn has_fall(words: &[u32], start: usize, end: usize) -> bool
    requires whole { IsWhole words.now }
    requires within { end ≤ (header_of words.now).footpaths }
    requires room { start ≤ end }
    ensures { result ≡ any_between (is_fall words.now) (start + 1) end }
{
    for k in start + 1..end {
        if is_fall(words, k) {
            return true;
        }
    }
    false
}

#[tactic(auto, using(timetable::proofs::FirstLemmas::searches))]
fn has_footpath_from(words: &[u32], stop: usize, start: usize, end: usize) -> bool
    requires whole { IsWhole words.now }
    requires within { end ≤ (header_of words.now).footpaths }
    ensures { result ≡ any_between (is_from words.now stop) start end }
{
    for k in start..end {
        if is_from(words, stop, k) {
            return true;
        }
    }
    false
}

#[tactic(auto, unfolding(crate::specs::FootFaults::foot_fault))]
fn foot_fault(words: &[u32], stop: usize) -> Option<ImageFault>
    requires whole { IsWhole words.now }
    requires within { stop < (header_of words.now).stops }
    ensures { result ≡ foot_fault words.now stop }
{
    let start = foot_index_at(words, stop);
    let end = foot_index_at(words, stop + 1);
    if stop == 0 && foot_index_at(words, 0) != 0
        || end < start
        || end > Header::of(words).footpaths
    {
        return Some(ImageFault::FootRange(stop));
    }
    let (start, end) = (start as usize, end as usize);
    if has_bad_footpath(words, start, end) {
        Some(ImageFault::FootRange(stop))
    } else if has_fall(words, start, end) {
        Some(ImageFault::FootUnsorted(stop))
    } else if !has_footpath_from(words, stop, start, end) {
        Some(ImageFault::NoLoop(stop))
    } else {
        None
    }
}

/// The first fault of the footpaths, apart from those of the closure.
#[tactic(auto, using(timetable::proofs::FirstLemmas::searches))]
pub fn footpaths_fault(words: &[u32]) -> Option<ImageFault>
    requires { IsWhole words.now }
    ensures { result ≡ footpaths_fault words.now }
{
    let header = Header::of(words);
    let stops = header.stops as usize;
    for stop in 0..stops {
        if let Some(fault) = foot_fault(words, stop) {
            return Some(fault);
        }
    }
    if foot_index_at(words, stops) != header.footpaths || foot_index_at(words, 0) != 0 {
        return Some(ImageFault::FootRange(stops));
    }
    None
}
