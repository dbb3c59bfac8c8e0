//! Judges the connections, one by one.

ghost use Rattle.std.specs.Prelude.{◌≡◌, ◌<◌, replicate};
ghost use Rattle.image_layout.specs.Offsets.{IsWhole, header_of};
ghost use Rattle.image_verifier.specs.ConnectionFaults.{own_fault, order_fault_of, breaks_at, connection_fault};
ghost use Rattle.image_verifier.specs.ConnectionFaults.{connections_fault, AreTripEnds};

use crate::fault::ImageFault;
use image_layout::{Header, arr_at, dep_at, flags_at, from_at, to_at, trip_at};
use timetable::limits::TIME_END;

// The fault of connection `i` by itself, without a look at others.
fn own_fault(words: &[u32], i: usize) -> Option<ImageFault>
    requires whole { IsWhole words.now }
    requires within { i < (header_of words.now).connections }
    ensures { result ≡ own_fault words.now i }
{
    let header = Header::of(words);
    if from_at(words, i) >= header.stops || to_at(words, i) >= header.stops {
        Some(ImageFault::StopRange(i))
    } else if trip_at(words, i) >= header.trips {
        Some(ImageFault::TripRange(i))
    } else if dep_at(words, i) >= TIME_END || arr_at(words, i) >= TIME_END {
        Some(ImageFault::TimeRange(i))
    } else if arr_at(words, i) <= dep_at(words, i) {
        Some(ImageFault::HopWithoutDuration(i))
    } else if flags_at(words, i) > 3 {
        Some(ImageFault::BadFlags(i))
    } else {
        None
    }
}

/// Where and when a trip's connection ended.
#[derive(Clone, Copy)]
pub struct TripEnd {
    pub stop: u32,
    pub arr: u32,
}

impl TripEnd {
    /// The entry of a trip that has no connection yet. Its arrival is 0, and no connection arrives at 0.
    pub fn none() -> TripEnd
        ensures { result ≡ record { stop = 0; arr = 0 } }
    {
        TripEnd { stop: 0, arr: 0 }
    }
}

// Whether connection `i` leaves another stop than the one where its trip's connection before it ended, or
// departs before that one arrived.
fn is_break(words: &[u32], i: usize, end: TripEnd) -> bool
    requires whole { IsWhole words.now }
    requires within { i < (header_of words.now).connections }
    ensures { result ≡ breaks_at words.now i end }
{
    end.arr != 0 && (end.stop != from_at(words, i) || dep_at(words, i) < end.arr)
}

// The fault of connection `i` in its place: it departs before the connection before it, or breaks its
// trip, as `broken` says.
fn order_fault_of(words: &[u32], i: usize, broken: bool) -> Option<ImageFault>
    requires whole { IsWhole words.now }
    requires within { i < (header_of words.now).connections }
    ensures { result ≡ order_fault_of words.now i broken }
{
    if i > 0 && dep_at(words, i) < dep_at(words, i - 1) {
        Some(ImageFault::Unsorted(i))
    } else if broken {
        Some(ImageFault::TripBroken(i))
    } else {
        None
    }
}

// The fault of connection `i`, given where and when each trip's last connection before it ended.
fn connection_fault(words: &[u32], i: usize, ends: &[TripEnd]) -> Option<ImageFault>
    requires whole { IsWhole words.now }
    requires within { i < (header_of words.now).connections }
    requires table { AreTripEnds words.now i ends.now }
    ensures { result ≡ connection_fault words.now i }
{
    match own_fault(words, i) {
        Some(fault) => Some(fault),
        None => order_fault_of(
            words,
            i,
            is_break(words, i, ends[trip_at(words, i) as usize]),
        ),
    }
}

/// The first fault of the connections. The table has `TripEnd::none()` for each trip.
pub fn connections_fault(words: &[u32], ends: &mut [TripEnd]) -> Option<ImageFault>
    requires whole { IsWhole words.now }
    requires table { ends.old ≡ replicate (header_of words.now).trips (record { stop = 0; arr = 0 }) }
    ensures { result ≡ connections_fault words.now }
{
    for i in 0..Header::of(words).connections as usize {
        if let Some(fault) = connection_fault(words, i, ends) {
            return Some(fault);
        }
        ends[trip_at(words, i) as usize] = TripEnd {
            stop: to_at(words, i),
            arr: arr_at(words, i),
        };
    }
    None
}
