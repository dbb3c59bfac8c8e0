//! What a list of departures amounts to.

ghost use Rattle.std.specs.Prelude.{◌≡◌, map};
ghost use Rattle.travel_times.specs.Figures.{least_of, lesser, travel};

use crate::spans::Span;

/// The least seconds from one of the departures to its arrival; `None` if there are no departures.
pub fn least_travel(spans: &[Span]) -> Option<u32>
    ensures { result ≡ least_of (map travel spans.now) }
{
    let mut least = None;
    let mut index = spans.len();
    while 0 < index {
        index -= 1;
        let span = spans[index];
        least = Some(lesser_of(span.travel(), least));
    }
    least
}

// The lesser of a number and one that may be missing.
fn lesser_of(number: u32, other: Option<u32>) -> u32
    ensures { result ≡ lesser number other }
{
    match other {
        Some(other) => number.min(other),
        None => number,
    }
}
