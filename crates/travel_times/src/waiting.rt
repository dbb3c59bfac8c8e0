//! The mean of the seconds until one arrives, over the seconds of a window.
//!
//! From a second on, one waits for the departure at or after it that arrives first, and rides. Departures are gone
//! through from the last to the first: between one and the next, the earliest arrival of those behind is the same for
//! each second, so their waits fall by one from second to second, and their sum needs no loop.

ghost use Rattle.std.specs.Prelude.{◌≡◌, ◌≤◌, ◌<◌, ◌-◌, IfSome, length, slice_get};
ghost use Rattle.travel_times.specs.Figures.{AreInOrder, mean_wait, rounded};
ghost use Rattle.travel_times.specs.Tally.{IsSmall, IsTally};

use crate::spans::Span;
use crate::tally::Tally;

/// The mean, over each second from `after` to `until`, of the seconds from then to the earliest arrival of the
/// departures at or after it, rounded to the nearest second, halves up. `None` if some second has no departure at or
/// after it. Departures are in order.
pub fn mean_wait(spans: &[Span], after: u32, until: u32) -> Option<u64>
    requires window { after ≤ until }
    requires ordered { AreInOrder spans.now }
    ensures { result ≡ mean_wait spans.now after until }
{
    match spans.last() {
        Some(last) if last.departure >= until => {
            let tally = tally_of(spans, after, until).counted_from(u64::from(after));
            let seconds = u64::from(until) + 1 - u64::from(after);
            Some(rounded(tally.sum, seconds))
        }
        _ => None,
    }
}

// What is known of all departures, of which the last isn't before the end of the window.
fn tally_of(spans: &[Span], after: u32, until: u32) -> Tally
    requires window { after ≤ until }
    requires ordered { AreInOrder spans.now }
    requires some { 0 < length spans.now }
    requires last { IfSome (slice_get spans.now (length spans.now - 1)) (λ last. until ≤ last.departure) }
    ensures small { IsSmall result }
    ensures known { IsTally after until spans.now result }
{
    let mut index = spans.len() - 1;
    let mut tally = Tally {
        next: u64::from(until) + 1,
        earliest: spans[index].arrival,
        sum: 0,
    };
    while 0 < index {
        index -= 1;
        let span = spans[index];
        tally = tally.with_earlier(span, after, until);
    }
    tally
}

// A sum divided by a count, rounded to the nearest whole number, halves up.
fn rounded(sum: u64, count: u64) -> u64
    requires { 0 < count }
    ensures { result ≡ rounded sum count }
{
    let whole = sum / count;
    let rest = sum % count;
    if rest < count - rest {
        whole
    } else {
        whole + 1
    }
}
