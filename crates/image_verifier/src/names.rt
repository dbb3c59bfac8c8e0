//! Judges the names, one by one.

ghost use Rattle.std.specs.Prelude.{◌≡◌, ◌<◌, ◌≤◌, ◌+◌, ◌==◌, drop, length};
ghost use Rattle.std.specs.List.{list_all};
ghost use Rattle.std.specs.Str.{is_utf8};
ghost use Rattle.image_layout.specs.Offsets.{IsWhole, header_of};
ghost use Rattle.image_layout.specs.Text.{padded_text_of};
ghost use Rattle.image_layout.specs.Shown.{name_count};
ghost use Rattle.image_verifier.specs.NameFaults.{is_bad_name_range, name_fault, names_end_fault, names_fault};

use crate::fault::ImageFault;
use image_layout::{Header, name_index_at};

#[tactic(auto, using(crate::proofs::NameLemmas::text_tests))]
fn is_text(bytes: &[u8]) -> bool
    ensures { result ≡ is_utf8 bytes.now }
{
    str::from_utf8(bytes).is_ok()
}

fn is_all_zero(bytes: &[u8]) -> bool
    ensures { result ≡ list_all (λ b. b == 0) bytes.now }
{
    bytes.iter().all(|b| *b == 0)
}

fn is_bad_name_range(words: &[u32], name: usize) -> bool
    requires whole { IsWhole words.now }
    requires within { name < name_count words.now }
    ensures { result ≡ is_bad_name_range words.now name }
{
    let start = name_index_at(words, name);
    let end = name_index_at(words, name + 1);
    name == 0 && name_index_at(words, 0) != 0 || end < start || end > Header::of(words).name_bytes
}

#[tactic(auto, unfolding(crate::specs::NameFaults::name_fault), using(image_layout::proofs::Whole::text_is_long))]
fn name_fault(words: &[u32], text: &[u8], name: usize) -> Option<ImageFault>
    requires whole { IsWhole words.now }
    requires text { text.now ≡ padded_text_of words.now }
    requires within { name < name_count words.now }
    ensures { result ≡ name_fault words.now name }
{
    if is_bad_name_range(words, name) {
        return Some(ImageFault::BadNames(name));
    }
    let start = name_index_at(words, name) as usize;
    let end = name_index_at(words, name + 1) as usize;
    if !is_text(&text[start..end]) {
        return Some(ImageFault::BadNames(name));
    }
    None
}

#[tactic(auto, unfolding(crate::specs::NameFaults::names_end_fault), using(image_layout::proofs::Whole::text_is_long))]
fn names_end_fault(words: &[u32], text: &[u8]) -> Option<ImageFault>
    requires whole { IsWhole words.now }
    requires text { text.now ≡ padded_text_of words.now }
    ensures { result ≡ names_end_fault words.now }
{
    let header = Header::of(words);
    let names = header.stops as usize + header.trips as usize;
    if name_index_at(words, names) != header.name_bytes
        || name_index_at(words, 0) != 0
        || !is_all_zero(&text[header.name_bytes as usize..])
    {
        return Some(ImageFault::BadNames(names));
    }
    None
}

/// The first fault of the names. The text is the bytes of all names, with the spare bytes of the last word.
#[tactic(auto, using(timetable::proofs::FirstLemmas::searches))]
pub fn names_fault(words: &[u32], text: &[u8]) -> Option<ImageFault>
    requires whole { IsWhole words.now }
    requires text { text.now ≡ padded_text_of words.now }
    ensures { result ≡ names_fault words.now }
{
    let header = Header::of(words);
    for name in 0..header.stops as usize + header.trips as usize {
        if let Some(fault) = name_fault(words, text, name) {
            return Some(fault);
        }
    }
    names_end_fault(words, text)
}
