//! Times as clients read and write them: `HH:MM:SS`, in which the hours may have more than two digits.

ghost use Rattle.std.specs.Prelude.{◌≡◌, ◌<◌, ◌≤◌, ℕ, Some, length, IfOk, IfSome, MatchOption, string_bytes};
ghost use Rattle.std.specs.Option.{SomeIff};
ghost use Rattle.std.specs.Str.Parse.{IsNumeral, digits_value};
ghost use Rattle.timetable.specs.Clocks.{SpellsClock, clock_bytes};

use std::alloc::{AllocError, Global};
use std::fmt;

/// The first time, in seconds, that no clock text spells: a text's hours have six digits at most.
pub const CLOCK_END: u32 = 3_600_000_000;

// The minutes of an hour: a clock text has fewer.
const MINUTES_END: u32 = 60;

// The seconds of a minute: a clock text has fewer.
const SECONDS_END: u32 = 60;

/// A time in seconds, which is shown as a clock text.
#[derive(Clone, Copy, Debug, PartialEq, Eq)]
pub struct Clock(pub u32);

impl fmt::Display for Clock {
    ghost output = { λ clock. Some (clock_bytes clock.0) };

    fn fmt<W: fmt::Write>(&self, f: &mut fmt::Formatter<W>) -> fmt::Result {
        let hours = self.0 / 3600;
        let minutes = self.0 / 60 % 60;
        let seconds = self.0 % 60;
        write!(f, "{hours:02}:{minutes:02}:{seconds:02}")
    }
}

/// Returns a time in seconds as a clock text: at least two digits of hours, two of minutes and two of seconds.
pub fn clock_text(alloc: Global, seconds: u32) -> Result<String, AllocError>
    ensures { IfOk result (λ text. string_bytes text ≡ clock_bytes seconds) }
{
    Clock(seconds).to_string(alloc)
}

/// Returns the seconds that a clock text spells, or `None` if the text is something else. A clock text has one to six
/// digits of hours, then `:` and two digits of minutes, then `:` and two digits of seconds; minutes and seconds are
/// below 60.
pub fn clock_parse(text: &[u8]) -> Option<u32>
    ensures { MatchOption result ((time : ℕ) → ¬ SpellsClock text.now time) (SpellsClock text.now) }
{
    if text.len() < 7 || text.len() > 12 {
        return None;
    }
    let (hours, rest) = text.split_at(text.len() - 6);
    if rest[0] != b':' || rest[3] != b':' {
        return None;
    }
    let hours = numeral(hours)?;
    let minutes = numeral(&rest[1..3])?;
    let seconds = numeral(&rest[4..6])?;
    if minutes < MINUTES_END && seconds < SECONDS_END {
        Some(hours * 3600 + minutes * 60 + seconds)
    } else {
        None
    }
}

// Returns the number that decimal digits spell, or `None` if there are none, or a byte is no digit.
fn numeral(digits: &[u8]) -> Option<u32>
    requires { length digits.now ≤ 9 }
    ensures { SomeIff result (IsNumeral 10 digits.now) (digits_value 10 digits.now) }
{
    if digits.is_empty() {
        return None;
    }
    let mut number = 0;
    for byte in digits {
        let digit = (*byte as char).to_digit(10)?;
        number = number * 10 + digit;
    }
    Some(number)
}
