//! What one word says: numbers, clocks, days and zones.

ghost use Rattle.std.specs.Prelude.{◌≡◌, ◌≢◌, ◌<◌, ◌^◌, ◌++◌, ℕ, ℤ, List, MatchOption, pos};
ghost use Rattle.std.specs.Option.{SomeIff};
ghost use Rattle.jiff_core.specs.Calendar.{IsWithin};
ghost use Rattle.std.specs.Str.Parse.{IsNumeral, digits_value};
ghost use Rattle.timetable.specs.Clocks.{SpellsClock};
ghost use Rattle.command_requests.specs.declared.plans.ZoneText.{ZoneText};
ghost use Rattle.command_requests.specs.declared.requests.NamedFolder.{NamedFolder};
ghost use Rattle.command_line.specs.Values.{SpellsFolder, SpellsSigned, SpellsZone};

use command_requests::{NamedFolder, UtcOffset, ZoneText};
use timetable::clock_parse;

/// Seconds of a clock `HH:MM:SS`.
pub(crate) fn clock(text: &str) -> Option<u32>
    ensures { MatchOption result ((time : ℕ) → ¬ SpellsClock text.now time) (SpellsClock text.now) }
{
    clock_parse(text.as_bytes())
}

/// A number of 16 bits.
pub(crate) fn port(text: &str) -> Option<u16>
    ensures { SomeIff result (IsNumeral 10 text.now × (digits_value 10 text.now < 2 ^ 16)) (digits_value 10 text.now) }
{
    u16::try_from(number(text)?).ok()
}

/// The number that decimal digits spell, below 2^64; `None` of any other text.
pub(crate) fn count(text: &str) -> Option<u64>
    ensures { SomeIff result (IsNumeral 10 text.now × (digits_value 10 text.now < 2 ^ 64)) (digits_value 10 text.now) }
{
    match text.as_bytes() {
        [b'+', ..] => None,
        _ => text.parse().ok(),
    }
}

/// The number that decimal digits spell, below 2^32; `None` of any other text.
pub(crate) fn number(text: &str) -> Option<u32>
    ensures { SomeIff result (IsNumeral 10 text.now × (digits_value 10 text.now < 2 ^ 32)) (digits_value 10 text.now) }
{
    u32::try_from(count(text)?).ok()
}

/// The year, the month and the day of eight digits, whether or not the calendar has that date; `None` of any other
/// text, and for year 0.
pub(crate) fn spelled_date(text: &str) -> Option<(u32, u32, u32)> {
    if text.len() != 8 {
        return None;
    }
    let digits = number(text)?;
    if digits < 10_000 {
        return None;
    }
    Some((digits / 10_000, digits / 100 % 100, digits % 100))
}

/// The name of a month, from 1 on.
pub(crate) fn month_name(month: u32) -> Option<&'static str> {
    match month {
        1 => Some("January"),
        2 => Some("February"),
        3 => Some("March"),
        4 => Some("April"),
        5 => Some("May"),
        6 => Some("June"),
        7 => Some("July"),
        8 => Some("August"),
        9 => Some("September"),
        10 => Some("October"),
        11 => Some("November"),
        12 => Some("December"),
        _ => None,
    }
}

/// A name and a folder, neither of them empty.
pub(crate) fn named_folder(word: &str) -> Option<NamedFolder<'_>>
    ensures { MatchOption result ((feed : NamedFolder) → ¬ (SpellsFolder word.now feed)) (SpellsFolder word.now) }
{
    let (name, folder) = word.split_once('=')?;
    if name.is_empty() || folder.is_empty() {
        return None;
    }
    Some(NamedFolder { name, folder })
}

/// `fixed:SECS`, `posix:TEXT` or `file:PATH`.
pub(crate) fn zone(text: &str) -> Option<ZoneText<'_>>
    ensures { MatchOption result ((zone : ZoneText) → ¬ (SpellsZone text.now zone)) (SpellsZone text.now) }
{
    if let Some(seconds) = after(text, "fixed:") {
        return Some(ZoneText::Fixed(UtcOffset::of(offset(seconds)?)?));
    }
    if let Some(rule) = after(text, "posix:") {
        return Some(ZoneText::Posix(rule));
    }
    match after(text, "file:") {
        Some(path) => Some(ZoneText::File(path)),
        None => None,
    }
}

// What follows these first bytes of a text.
fn after<'a>(text: &'a str, first: &str) -> Option<&'a str>
    ensures { MatchOption result ((rest : List ℕ) → text.entry.now ≢ first.now ++ rest)
        (λ rest. text.entry.now ≡ first.now ++ rest.now) }
{
    text.strip_prefix(first)
}

// Decimal digits, with a hyphen before them for a zone west of Greenwich.
fn offset(text: &str) -> Option<i32>
    ensures { MatchOption result ((number : ℤ) → IsWithin 86_399 number → ¬ (SpellsSigned text.now number))
        (SpellsSigned text.now) }
{
    match after(text, "-") {
        Some(digits) => seconds(digits)?.checked_neg(),
        None => seconds(text),
    }
}

fn seconds(digits: &str) -> Option<i32>
    ensures { MatchOption result (¬ (IsNumeral 10 digits.now × (digits_value 10 digits.now < 2 ^ 31)))
        (λ number. IsNumeral 10 digits.now × (number ≡ pos (digits_value 10 digits.now))) }
{
    i32::try_from(number(digits)?).ok()
}
