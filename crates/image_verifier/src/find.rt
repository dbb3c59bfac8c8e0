//! The lengths of an image's names, and the stop that has a name.

ghost use Rattle.std.specs.Prelude.{◌≡◌, ◌≢◌, ◌<◌, ◌↔◌, ℕ, length, IsTrue, IfSome, IfNone};
ghost use Rattle.image_layout.specs.Offsets.{header_of};
ghost use Rattle.image_layout.specs.Shown.{name_count, name_of};
ghost use Rattle.image_verifier.specs.Accepted.{IsAccepted};

use image_layout::{Header, name_byte_at, name_index_at};

/// The number of bytes of a name.
pub fn name_len_at(words: &[u32], name: usize) -> usize
    requires accepted { IsAccepted words.now }
    requires within { name < name_count words.now }
    ensures { result ≡ length (name_of words.now name) }
{
    (name_index_at(words, name + 1) - name_index_at(words, name)) as usize
}

// Whether a name is these bytes. Most other names differ in their length or their first byte.
fn is_name(words: &[u32], name: usize, bytes: &[u8]) -> bool
    requires accepted { IsAccepted words.now }
    requires within { name < name_count words.now }
    ensures { IsTrue result ↔ (name_of words.now name ≡ bytes.now) }
{
    if name_len_at(words, name) != bytes.len() {
        return false;
    }
    for (i, byte) in bytes.iter().enumerate() {
        if name_byte_at(words, name, i) != *byte {
            return false;
        }
    }
    true
}

/// The lowest stop whose name is these bytes, if there is one.
pub fn stop_named(words: &[u32], bytes: &[u8]) -> Option<u32>
    requires { IsAccepted words.now }
    ensures found { IfSome result (λ s. (s < (header_of words.now).stops) × (name_of words.now s ≡ bytes.now)) }
    ensures least { IfSome result (λ s. (k : ℕ) → k < s → name_of words.now k ≢ bytes.now) }
    ensures none { IfNone result ((k : ℕ) → k < (header_of words.now).stops → name_of words.now k ≢ bytes.now) }
{
    for stop in 0..Header::of(words).stops {
        if is_name(words, stop as usize, bytes) {
            return Some(stop);
        }
    }
    None
}
