//! What is wrong with a question between several stops.

ghost use Rattle.std.specs.Prelude.{◌<◌, ◌≤◌, ℕ, Contains, MatchBool, MatchResult};
ghost use Rattle.scan_state.specs.SetQuery.{IsAskableBetween, question};
ghost use Rattle.station_answers.specs.Asking.{IsFirstFault};

use profile_scan::SetQuery;
use timetable::QueryFault;
use timetable::limits::TIME_END;

/// Checks that a question can be asked of a timetable with this many stops. If it can't, the error is its first fault:
/// `UnknownStop` if a source or a target is no stop, `SameStop` if a source is a target too, `BadWindow` if the times
/// can't be. A side without stops is no fault: then there are no departures.
pub fn check_between(query: &SetQuery, stops: u32) -> Result<(), QueryFault>
    ensures { MatchResult result (λ _. IsAskableBetween stops (question query.now))
        (IsFirstFault stops (question query.now)) }
{
    if !are_below(&query.sources, stops) {
        return Err(QueryFault::UnknownStop);
    }
    if !are_below(&query.targets, stops) {
        return Err(QueryFault::UnknownStop);
    }
    if share_one(&query.sources, &query.targets) {
        return Err(QueryFault::SameStop);
    }
    let latest = query.until.max(query.by);
    if query.from > query.until || query.from > query.by || latest >= TIME_END {
        return Err(QueryFault::BadWindow);
    }
    Ok(())
}

// Whether all of these numbers are below another.
fn are_below(numbers: &[u32], end: u32) -> bool
    ensures { MatchBool result ((n : ℕ) → Contains numbers.now n → n < end)
        ((n : ℕ) × Contains numbers.now n × (end ≤ n)) }
{
    for number in numbers {
        if *number >= end {
            return false;
        }
    }
    true
}

// Whether a number is in both lists.
fn share_one(numbers: &[u32], others: &[u32]) -> bool
    ensures { MatchBool result ((n : ℕ) × Contains numbers.now n × Contains others.now n)
        ((n : ℕ) → Contains numbers.now n → Contains others.now n → ⊥) }
{
    for number in numbers {
        if others.contains(number) {
            return true;
        }
    }
    false
}
