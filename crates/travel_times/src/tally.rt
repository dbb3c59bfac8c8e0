//! What is known of the waits for the departures from one on.

use crate::falling::falling;
use crate::spans::Span;

/// What is known of the departures from one on: the waits of the seconds from `next` to the end of the window have this
/// sum, and one who waits longer arrives at `earliest`.
#[derive(Clone, Copy)]
pub struct Tally {
    pub next: u64,
    pub earliest: u32,
    pub sum: u64,
}

impl Tally {
    ghost use Rattle.std.specs.Prelude.{◌≡◌, ◌≤◌, ◌+◌, ◌-◌, List, ◌∷◌, max, min};
    ghost use Rattle.travel_times.specs.Falling.{falling};
    ghost use Rattle.travel_times.specs.Tally.{AreFrom, IsSmall, IsTally};
    ghost use Rattle.travel_times.specs.declared.spans.Span.{Span};

    /// What is known with one more departure, which is before all others.
    pub fn with_earlier(self, span: Span, after: u32, until: u32) -> Tally
        requires window { after ≤ until }
        requires small { IsSmall self }
        ensures small { IsSmall result }
        ensures known { (later : List Span) → IsTally after until later self → AreFrom span.departure later
            → IsTally after until (span ∷ later) result }
    {
        let second = u64::from(span.departure.min(until)) + 1;
        let counted = self.counted_from(second.max(u64::from(after)));
        Tally {
            next: counted.next,
            earliest: span.arrival.min(counted.earliest),
            sum: counted.sum,
        }
    }

    /// Counts the seconds from one on that aren't counted.
    pub fn counted_from(self, second: u64) -> Tally
        requires small { IsSmall self }
        ensures small { IsSmall result }
        ensures next { result.next ≡ min self.next second }
        ensures earliest { result.earliest ≡ self.earliest }
        ensures sum { result.sum ≡ self.sum + falling (self.earliest - second) (self.next - second) }
    {
        let seconds = self.next.saturating_sub(second);
        let wait = u64::from(self.earliest).saturating_sub(second);
        let added = falling(wait, seconds);
        Tally {
            next: self.next.min(second),
            earliest: self.earliest,
            sum: self.sum + added,
        }
    }
}
