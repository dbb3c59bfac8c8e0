//! Words, numbers and clocks, added to a text.

ghost use Rattle.std.specs.Prelude.{◌≡◌, ◌<◌, ◌++◌, ◌∷◌, codes, decimal, OnOk, string_bytes};
ghost use Rattle.timetable.specs.Clocks.{clock_bytes, two_digits};

use std::alloc::AllocError;
use std::fmt::Write as _;
use timetable::Clock;

/// Adds a text as it is.
pub fn put_text(out: &mut String, text: &str) -> Result<(), AllocError>
    ensures { OnOk result (string_bytes out.new ≡ string_bytes out.old ++ text.now) }
{
    out.push_str(text)
}

/// Adds a word and a number.
pub fn put_number(out: &mut String, word: &str, number: u64) -> Result<(), AllocError>
    ensures { OnOk result (string_bytes out.new ≡ string_bytes out.old ++ (word.now ++ decimal number)) }
{
    put_text(out, word)?;
    write!(out, "{number}")
}

/// Adds a word and a time in seconds, as a clock text.
pub fn put_clock(out: &mut String, word: &str, time: u32) -> Result<(), AllocError>
    ensures { OnOk result (string_bytes out.new ≡ string_bytes out.old ++ (word.now ++ clock_bytes time)) }
{
    let clock = Clock(time);
    put_text(out, word)?;
    write!(out, "{clock}")
}

/// Adds a space and a word.
pub fn put_word(out: &mut String, word: &str) -> Result<(), AllocError>
    ensures { OnOk result (string_bytes out.new ≡ string_bytes out.old ++ (codes " " ++ word.now)) }
{
    put_text(out, " ")?;
    put_text(out, word)
}

/// Adds a number with at least two digits.
pub fn put_two(out: &mut String, number: u64) -> Result<(), AllocError>
    ensures { OnOk result (string_bytes out.new ≡ string_bytes out.old ++ two_digits number) }
{
    if number < 10 {
        return put_number(out, "0", number);
    }
    put_number(out, "", number)
}
