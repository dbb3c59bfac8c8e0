//! The value of one argument of a command, by its id.

ghost use Rattle.std.specs.Prelude.{◌≡◌, ◌<◌, ◌^◌, ℕ, MatchOption, map, option_map};
ghost use Rattle.clap.specs.Words.{all_of, first_of, found_of, rows_of};
ghost use Rattle.criteria.specs.Names.{name_text};
ghost use Rattle.criteria.specs.declared.name.CriterionName.{CriterionName};
ghost use Rattle.command_requests.specs.Naming.{IsWordOf};
ghost use Rattle.command_requests.specs.declared.plans.FirstDay.{FirstDay};
ghost use Rattle.command_requests.specs.declared.plans.ZoneText.{ZoneText};
ghost use Rattle.command_line.specs.Options.{HasClock, HasNumber, Spells, is_given};
ghost use Rattle.command_line.specs.Values.{SpellsZone};

use crate::values::{clock, count, number, port, zone};
use clap::ArgMatches;
use command_requests::{FirstDay, ZoneText};
use criteria::CriterionName;

/// The value of an argument, if it has one.
pub(crate) fn text_at<'a>(matches: &ArgMatches<'a>, id: &str) -> Option<&'a str>
    ensures { option_map (λ text. text.now) result ≡ first_of id.now (rows_of (found_of matches.now)) }
{
    matches.get_str(id)
}

/// All values of an argument, if it has any.
pub(crate) fn texts_at<'b, 'a: 'b>(matches: &'b ArgMatches<'a>, id: &str) -> Option<&'b [&'a str]>
    ensures { option_map (λ texts. map (λ text. text.now) texts.now) result
        ≡ all_of id.now (rows_of (found_of matches.entry.now)) }
{
    matches.get_strs(id)
}

/// Whether an option without a value was given.
pub(crate) fn is_given(matches: &ArgMatches<'_>, id: &str) -> bool
    ensures { result ≡ is_given (rows_of (found_of matches.now)) id.now }
{
    match text_at(matches, id) {
        Some(text) => text == "true",
        None => false,
    }
}

/// The seconds of a clock; `None` if the value is no clock.
pub(crate) fn clock_at(matches: &ArgMatches<'_>, id: &str) -> Option<u32>
    ensures { MatchOption result ((time : ℕ) → ¬ (HasClock (rows_of (found_of matches.now)) id.now time))
        (HasClock (rows_of (found_of matches.now)) id.now) }
{
    clock(text_at(matches, id)?)
}

/// The number below 2^32 that the value spells; `None` if it spells none.
pub(crate) fn number_at(matches: &ArgMatches<'_>, id: &str) -> Option<u32>
    ensures { MatchOption result ((n : ℕ) → n < 2 ^ 32 → ¬ (HasNumber (rows_of (found_of matches.now)) id.now n))
        (HasNumber (rows_of (found_of matches.now)) id.now) }
{
    number(text_at(matches, id)?)
}

/// The same below 2^16.
pub(crate) fn port_at(matches: &ArgMatches<'_>, id: &str) -> Option<u16>
    ensures { MatchOption result ((n : ℕ) → n < 2 ^ 16 → ¬ (HasNumber (rows_of (found_of matches.now)) id.now n))
        (HasNumber (rows_of (found_of matches.now)) id.now) }
{
    port(text_at(matches, id)?)
}

/// The same below 2^64.
pub(crate) fn count_at(matches: &ArgMatches<'_>, id: &str) -> Option<u64>
    ensures { MatchOption result ((n : ℕ) → n < 2 ^ 64 → ¬ (HasNumber (rows_of (found_of matches.now)) id.now n))
        (HasNumber (rows_of (found_of matches.now)) id.now) }
{
    count(text_at(matches, id)?)
}

/// The criterion that the value names; `None` if it names none.
pub(crate) fn criterion_at(matches: &ArgMatches<'_>, id: &str) -> Option<CriterionName>
    ensures { MatchOption result ((criterion : CriterionName)
        → ¬ (Spells (rows_of (found_of matches.now)) id.now (λ text. text ≡ name_text criterion)))
        (λ criterion. Spells (rows_of (found_of matches.now)) id.now (λ text. text ≡ name_text criterion)) }
{
    CriterionName::of(text_at(matches, id)?)
}

/// The day that the value means; `None` if it means none.
pub(crate) fn day_at(matches: &ArgMatches<'_>, id: &str) -> Option<FirstDay>
    ensures { MatchOption result ((first : FirstDay)
        → ¬ (Spells (rows_of (found_of matches.now)) id.now (λ text. IsWordOf text first)))
        (λ first. Spells (rows_of (found_of matches.now)) id.now (λ text. IsWordOf text first)) }
{
    FirstDay::of(text_at(matches, id)?)
}

/// The zone that the value spells; `None` if it spells none.
pub(crate) fn zone_at<'a>(matches: &ArgMatches<'a>, id: &str) -> Option<ZoneText<'a>>
    ensures { MatchOption result ((zone : ZoneText)
        → ¬ (Spells (rows_of (found_of matches.now)) id.now (λ text. SpellsZone text zone)))
        (λ zone. Spells (rows_of (found_of matches.now)) id.now (λ text. SpellsZone text zone)) }
{
    zone(text_at(matches, id)?)
}
