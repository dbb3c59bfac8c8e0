//! Writes the text of the names, four bytes to a word.

ghost use Rattle.std.specs.Prelude.{◌≡◌, ◌++◌, ◌∷◌, [], ℕ, List, IfOk, OnOk};
ghost use Rattle.std.specs.Str.{IsUtf8};
ghost use Rattle.timetable.specs.Legal.{At};
ghost use Rattle.image_layout.specs.Spelling.{name_list, text, text_words};
ghost use Rattle.image_writer.specs.Packing.{full_words, rest_of, waiting_bytes};

use crate::names::{name_at, name_count};
use std::alloc::AllocError;
use timetable::Names;

/// Bytes of the text that don't fill a word yet.
#[derive(Clone, Copy)]
enum PartialWord {
    Empty,
    One(u8),
    Two(u8, u8),
    Three(u8, u8, u8),
}

impl PartialWord {
    /// Takes one more byte and returns the bytes that wait then. The fourth fills a word, which is added.
    fn push(self, words: &mut Vec<u32>, byte: u8) -> Result<PartialWord, AllocError>
        ensures written { OnOk result (words.new.items ≡ words.old.items
            ++ full_words (waiting_bytes self ++ byte ∷ [])) }
        ensures rest { IfOk result (λ waiting. waiting_bytes waiting ≡ rest_of (waiting_bytes self ++ byte ∷ [])) }
    {
        match self {
            PartialWord::Empty => Ok(PartialWord::One(byte)),
            PartialWord::One(a) => Ok(PartialWord::Two(a, byte)),
            PartialWord::Two(a, b) => Ok(PartialWord::Three(a, b, byte)),
            PartialWord::Three(a, b, c) => {
                words.push(u32::from_le_bytes([a, b, c, byte]))?;
                Ok(PartialWord::Empty)
            }
        }
    }

    /// Adds the bytes that wait at the end of the text as a word, filled up with bytes of 0. If none wait, it
    /// adds nothing.
    fn finish(self, words: &mut Vec<u32>) -> Result<(), AllocError>
        ensures { OnOk result (words.new.items ≡ words.old.items ++ text_words (waiting_bytes self)) }
    {
        let last = match self {
            PartialWord::Empty => return Ok(()),
            PartialWord::One(a) => [a, 0, 0, 0],
            PartialWord::Two(a, b) => [a, b, 0, 0],
            PartialWord::Three(a, b, c) => [a, b, c, 0],
        };
        words.push(u32::from_le_bytes(last))?;
        Ok(())
    }
}

/// Adds the bytes of a name after those that wait, and returns the bytes that wait then.
fn write_name(
    words: &mut Vec<u32>,
    waiting: PartialWord,
    name: &[u8],
) -> Result<PartialWord, AllocError>
    ensures written { OnOk result (words.new.items ≡ words.old.items
        ++ full_words (waiting_bytes waiting ++ name.now)) }
    ensures rest { IfOk result (λ after. waiting_bytes after ≡ rest_of (waiting_bytes waiting ++ name.now)) }
{
    let mut waiting = waiting;
    for byte in name {
        waiting = waiting.push(words, *byte)?;
    }
    Ok(waiting)
}

/// Adds the bytes of all names, one name after the other.
pub fn write_text(words: &mut Vec<u32>, names: &Names) -> Result<(), AllocError>
    ensures written { OnOk result (words.new.items ≡ words.old.items ++ text_words (text names.now)) }
    ensures utf8 { OnOk result ((i : ℕ) (name : List ℕ) → At (name_list names.now) i name → IsUtf8 name) }
{
    let mut waiting = PartialWord::Empty;
    for i in 0..name_count(names) {
        waiting = write_name(words, waiting, name_at(names, i))?;
    }
    waiting.finish(words)?;
    Ok(())
}
