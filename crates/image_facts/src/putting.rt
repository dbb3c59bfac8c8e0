//! Texts and numbers, added to lines.

ghost use Rattle.std.specs.Prelude.{◌≡◌, ◌++◌, OnOk, string_bytes};
ghost use Rattle.std.specs.Fmt.{signed_decimal};
ghost use Rattle.image_facts.specs.Facts.{number_line};

use std::alloc::AllocError;
use std::fmt::Write as _;
use text_pieces::{put_number, put_text};

/// Adds a word and a number that may be negative.
pub fn put_signed(lines: &mut String, word: &str, number: i64) -> Result<(), AllocError>
    ensures { OnOk result (string_bytes lines.new ≡ string_bytes lines.old ++ (word.now ++ signed_decimal number)) }
{
    put_text(lines, word)?;
    write!(lines, "{number}")
}

/// Adds a line of a word and a number.
pub fn put_line(lines: &mut String, word: &str, number: u64) -> Result<(), AllocError>
    ensures { OnOk result (string_bytes lines.new ≡ string_bytes lines.old ++ number_line word.now number) }
{
    put_number(lines, word, number)?;
    put_text(lines, "\n")?;
    Ok(())
}
