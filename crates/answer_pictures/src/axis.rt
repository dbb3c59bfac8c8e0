//! The axis of time.

ghost use Rattle.std.specs.Prelude.{◌≡◌, ◌≤◌, All};
ghost use Rattle.answer_pictures.specs.Pictures.{IsBetween, LiesOn, length_between, x_at};

use crate::lines::JourneyLine;
use std::alloc::{AllocError, Global};

// The x coordinate at which the axis begins, and its length.
const LEFT: u64 = 190;

const LENGTH: u64 = 740;

// The most steps from mark to mark that the time from `first` to `last` takes. Moving both ends to marks may add one.
const MOST_STEPS: u32 = 8;

// How far apart marks may be, in seconds.
const STEPS: [u32; 13] = [
    60, 120, 300, 600, 900, 1800, 3600, 7200, 10800, 21600, 43200, 86400, 172800,
];

// The seconds of a day.
const DAY: u32 = 86400;

/// The first and the last time of a picture's axis, in seconds after the base, and how far apart its marks are.
#[derive(Clone, Copy, Debug, PartialEq, Eq)]
pub struct Axis {
    pub start: u32,
    pub end: u32,
    pub step: u32,
}

impl Axis {
    /// An axis that covers all times from `first` to `last`, with both of its ends on marks.
    pub fn covering(first: u32, last: u32) -> Axis
        ensures { (result.start ≤ first) × (last ≤ result.end) }
    {
        let step = step_for(last.saturating_sub(first)).max(1);
        let start = first.saturating_sub(first % step);
        let over = last % step;
        let end = if over == 0 {
            last
        } else {
            last.saturating_add(step - over)
        };
        Axis { start, end, step }
    }

    /// An axis that covers each journey from its departure to its arrival; if there is none, one that
    /// covers all times from `from` to `until`.
    pub fn of_lines(lines: &[JourneyLine], from: u32, until: u32) -> Axis
        ensures { All (LiesOn result) lines.now }
    {
        if lines.is_empty() {
            return Axis::covering(from, until);
        }
        let (first, last) = ends_of(lines);
        Axis::covering(first, last)
    }

    /// The x coordinate of a time. A time before the axis is put at its start, one after it at its end.
    pub(crate) fn x_at(&self, time: u32) -> u64
        ensures { result ≡ x_at self.now time }
    {
        let span = self.end.saturating_sub(self.start).max(1);
        let after = time.min(self.end).saturating_sub(self.start);
        LEFT + after as u64 * LENGTH / span as u64
    }

    /// The length from one time to another on the axis, at least 1.
    pub(crate) fn length(&self, start: u32, end: u32) -> u64
        ensures { result ≡ length_between self.now start end }
    {
        self.x_at(end).saturating_sub(self.x_at(start)).max(1)
    }

    /// The times at which the axis is marked.
    pub(crate) fn marks(&self, alloc: Global) -> Result<Vec<u32>, AllocError> {
        let mut times = Vec::new(alloc);
        let mut time = self.start;
        for _ in 0..MOST_STEPS + 2 {
            if time <= self.end {
                times.push(time)?;
            }
            time = time.saturating_add(self.step);
        }
        Ok(times)
    }
}

/// The first departure and the last arrival of journeys.
fn ends_of(lines: &[JourneyLine]) -> (u32, u32)
    ensures { All (IsBetween result.0 result.1) lines.now }
{
    let mut first = u32::MAX;
    let mut last = 0;
    for line in lines {
        first = first.min(line.departure);
        last = later_of(last, line.arrival);
    }
    (first, last)
}

fn later_of(one: u32, other: u32) -> u32
    ensures { (one ≤ result) × (other ≤ result) }
{
    if one < other { other } else { one }
}

/// How far apart the marks are, in seconds, on an axis for `span` seconds.
fn step_for(span: u32) -> u32 {
    for step in STEPS {
        if span as u64 <= step as u64 * MOST_STEPS as u64 {
            return step;
        }
    }
    (span / MOST_STEPS / DAY + 1) * DAY
}
