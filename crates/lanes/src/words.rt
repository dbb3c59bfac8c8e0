//! Fronts of nine lanes, and what is done to lanes side by side.

ghost use Rattle.std.specs.Prelude.{◌≡◌, ◌+◌, ◌<◌, ◌≤◌, ℕ, MatchBool, min, slice_index};
ghost use Rattle.lanes.specs.Lanes.{AreLanes};

use criteria::TimeTrips;

/// No time.
pub const NEVER: u32 = u32::MAX;

/// What can be reached from a stop, or what bounds it: word k is the least time with at most k trips, or `NEVER`.
#[derive(Clone, Copy, Drop)]
pub struct Words {
    pub(crate) times: [u32; 9],
    ghost falls: { AreLanes 9 times },
}

impl Words {
    ghost use Rattle.std.specs.Prelude.{◌≡◌, ◌⊎◌, ◌<◌, ◌≤◌, ℕ, [], Contains, MatchOption};
    ghost use Rattle.criteria.specs.Laws.{IsTime};
    ghost use Rattle.lanes.specs.Lanes.{IsBeaten, lane_labels};
    ghost use Rattle.lanes.specs.TripLanes.{front_labels, offered_by, ending};

    /// Nothing can be reached.
    pub fn none() -> Words
        ensures { front_labels result ≡ [] }
    {
        Words { times: [NEVER; 9] }
    }

    /// One is at the target at a time.
    pub fn at(time: u32) -> Words
        requires { IsTime time }
        ensures { (first : ℕ) → offered_by result first ≡ ending time first }
    {
        Words { times: [time; 9] }
    }

    /// The same with a value more. One of more than eight trips isn't taken in.
    pub fn with(&self, value: &TimeTrips) -> Words
        requires { IsTime value.now.time }
        ensures only { (l : _) → Contains (front_labels result) l
            → Contains (front_labels self.now) l ⊎ (l.value ≡ value.now) }
        ensures kept { (l : _) → Contains (front_labels self.now) l → IsBeaten (front_labels result) l.value }
        ensures taken { value.now.trips ≤ 8 → IsBeaten (front_labels result) value.now }
    {
        Words {
            times: lowered_from(&self.times, value.time, value.trips as usize),
        }
    }

    /// The same without its value of eight trips.
    pub fn but_eight(&self) -> Words
        ensures only { (tag : ℕ → ℕ) (l : _) → Contains (lane_labels tag result.times) l
            → Contains (lane_labels tag self.now.times) l × (l.value.trips < 8) }
        ensures all { (tag : ℕ → ℕ) (l : _) → Contains (lane_labels tag self.now.times) l → l.value.trips < 8
            → Contains (lane_labels tag result.times) l }
    {
        Words {
            times: but_last(&self.times),
        }
    }

    /// Its value of eight trips, if it has one.
    pub fn of_eight(&self) -> Option<TimeTrips>
        ensures { MatchOption result
            ((tag : ℕ → ℕ) (l : _) → Contains (lane_labels tag self.now.times) l → l.value.trips < 8)
            (λ value. (value.trips ≡ 8)
            × ((tag : ℕ → ℕ) → Contains (lane_labels tag self.now.times) (record { value = value; tag = tag 8 }))) }
    {
        let time = self.times[8];
        if time >= self.times[7] {
            return None;
        }
        Some(TimeTrips { time, trips: 8 })
    }
}

// The words with the last one equal to that before it.
fn but_last(words: &[u32; 9]) -> [u32; 9]
    ensures rest { (k : ℕ) → k < 8 → slice_index result k ≡ slice_index words.now k }
    ensures last { slice_index result 8 ≡ slice_index words.now 7 }
{
    let mut out = *words;
    out[8] = words[7];
    out
}

// The lesser one of each word from `trips` on and a time.
fn lowered_from(words: &[u32; 9], time: u32, trips: usize) -> [u32; 9]
    ensures from { (k : ℕ) → k < 9 → trips ≤ k → slice_index result k ≡ min (slice_index words.now k) time }
    ensures before { (k : ℕ) → k < 9 → k < trips → slice_index result k ≡ slice_index words.now k }
{
    let mut out = *words;
    for k in 0..9 {
        if k >= trips {
            out[k] = out[k].min(time);
        }
    }
    out
}

/// Whether a word is less than the lane and the bound. To the bound it counts with one trip more.
#[inline(always)]
pub fn are_news(times: &[u32; 8], words: &[u32; 9], bound: &[u32; 9]) -> bool
    ensures { MatchBool result
        ((k : ℕ) × (k < 8) × (slice_index words.now k < min (slice_index times.now k) (slice_index bound.now (k + 1))))
        ((k : ℕ) → k < 8 → min (slice_index times.now k) (slice_index bound.now (k + 1)) ≤ slice_index words.now k) }
{
    let mut any = false;
    for k in 0..8 {
        any |= words[k] < times[k].min(bound[k + 1]);
    }
    any
}

/// The lesser one of each lane and word.
#[inline(always)]
pub fn least_of(times: &[u32; 8], words: &[u32; 9]) -> [u32; 8]
    ensures { (k : ℕ) → k < 8 → slice_index result k ≡ min (slice_index times.now k) (slice_index words.now k) }
{
    let mut out = [0u32; 8];
    for k in 0..8 {
        out[k] = times[k].min(words[k]);
    }
    out
}

/// The tag of each lane, or `first + k` where word k is less.
#[inline(always)]
pub fn retagged(times: &[u32; 8], tags: &[u32; 8], words: &[u32; 9], first: u32) -> [u32; 8]
    requires { first + 7 ≤ 4294967295 }
    ensures new { (k : ℕ) → k < 8 → slice_index words.now k < slice_index times.now k
        → slice_index result k ≡ first + k }
    ensures old { (k : ℕ) → k < 8 → slice_index times.now k ≤ slice_index words.now k
        → slice_index result k ≡ slice_index tags.now k }
{
    let mut out = *tags;
    for k in 0..8 {
        if words[k] < times[k] {
            out[k] = first + k as u32;
        }
    }
    out
}

/// Whether a lane, with one trip more, is less than the words of a front and of a bound.
#[inline(always)]
pub fn are_boarding(times: &[u32; 8], front: &[u32; 9], bound: &[u32; 9]) -> bool
    ensures { MatchBool result
        ((k : ℕ) × (k < 8)
        × (slice_index times.now k < min (slice_index front.now (k + 1)) (slice_index bound.now (k + 1))))
        ((k : ℕ) → k < 8
        → min (slice_index front.now (k + 1)) (slice_index bound.now (k + 1)) ≤ slice_index times.now k) }
{
    let mut any = false;
    for k in 0..8 {
        any |= times[k] < front[k + 1].min(bound[k + 1]);
    }
    any
}

/// Whether a lane, with one trip more, is less than the word of a bound.
#[inline(always)]
pub fn are_below(times: &[u32; 8], bound: &[u32; 9]) -> bool
    ensures { MatchBool result
        ((k : ℕ) × (k < 8) × (slice_index times.now k < slice_index bound.now (k + 1)))
        ((k : ℕ) → k < 8 → slice_index bound.now (k + 1) ≤ slice_index times.now k) }
{
    let mut any = false;
    for k in 0..8 {
        any |= times[k] < bound[k + 1];
    }
    any
}

/// The words of a front, or the lane of one trip less where that is less.
#[inline(always)]
pub fn boarded(times: &[u32; 8], front: &[u32; 9]) -> [u32; 9]
    ensures first { slice_index result 0 ≡ slice_index front.now 0 }
    ensures rest { (k : ℕ) → k < 8
        → slice_index result (k + 1) ≡ min (slice_index times.now k) (slice_index front.now (k + 1)) }
{
    let mut out = *front;
    for k in 0..8 {
        out[k + 1] = times[k].min(front[k + 1]);
    }
    out
}

/// The tag of each word of a front but the first, or `step + k` where lane k is less than the word of one trip more.
#[inline(always)]
pub fn boarded_tags(times: &[u32; 8], front: &[u32; 9], tags: &[u32; 8], step: u32) -> [u32; 8]
    requires { step + 7 ≤ 4294967295 }
    ensures new { (k : ℕ) → k < 8 → slice_index times.now k < slice_index front.now (k + 1)
        → slice_index result k ≡ step + k }
    ensures old { (k : ℕ) → k < 8 → slice_index front.now (k + 1) ≤ slice_index times.now k
        → slice_index result k ≡ slice_index tags.now k }
{
    let mut out = *tags;
    for k in 0..8 {
        if times[k] < front[k + 1] {
            out[k] = step + k as u32;
        }
    }
    out
}

/// Whether a word of a front is less than that of another.
#[inline(always)]
pub fn are_adding(words: &[u32; 9], behind: &[u32; 9]) -> bool
    ensures { MatchBool result ((k : ℕ) × (k < 9) × (slice_index words.now k < slice_index behind.now k))
        ((k : ℕ) → k < 9 → slice_index behind.now k ≤ slice_index words.now k) }
{
    let mut any = false;
    for k in 0..9 {
        any |= words[k] < behind[k];
    }
    any
}

/// The lesser one of each two words.
#[inline(always)]
pub fn least_words(words: &[u32; 9], behind: &[u32; 9]) -> [u32; 9]
    ensures { (k : ℕ) → k < 9 → slice_index result k ≡ min (slice_index words.now k) (slice_index behind.now k) }
{
    let mut out = *behind;
    for k in 0..9 {
        out[k] = words[k].min(behind[k]);
    }
    out
}

/// The tag of each word of `behind` but the first, or that of the other front's word where that is less.
#[inline(always)]
pub fn least_tags(
    words: &[u32; 9],
    tags: &[u32; 8],
    behind: &[u32; 9],
    behind_tags: &[u32; 8],
) -> [u32; 8]
    ensures new { (k : ℕ) → k < 8 → slice_index words.now (k + 1) < slice_index behind.now (k + 1)
        → slice_index result k ≡ slice_index tags.now k }
    ensures old { (k : ℕ) → k < 8 → slice_index behind.now (k + 1) ≤ slice_index words.now (k + 1)
        → slice_index result k ≡ slice_index behind_tags.now k }
{
    let mut out = *behind_tags;
    for k in 0..8 {
        if words[k + 1] < behind[k + 1] {
            out[k] = tags[k];
        }
    }
    out
}
