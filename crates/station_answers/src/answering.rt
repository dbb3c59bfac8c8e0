//! The answer between several stops, by one scan of the window.

ghost use Rattle.std.specs.Prelude.{◌≡◌, ◌++◌, ℕ, Contains, IfOk, OnOk, OnErr, length, reverse, take};
ghost use Rattle.scan_state.specs.SetQuery.{IsAnswerBetween, IsAskableBetween, question, secs_of};
ghost use Rattle.journeys.specs.Answer.{point_of, points_of, walk_of_answer};
ghost use Rattle.journeys.specs.Extracted.{AttainsBetween};
ghost use Rattle.station_answers.specs.Reading.{window_between};
ghost use Rattle.station_answers.specs.Walks.{IsDirectTime};

use journeys::{Answer, departures_between, window_len};
use profile_scan::{ConnSource, Scanned, SetQuery, profile_between};
use std::alloc::{AllocError, Global};
use timetable::{Footpath, Query};

/// Answers a question between several stops that can be asked: of the points of all journeys that count from any of the
/// sources to any of the targets, exactly those that no other dominates, in order, each with a journey between two of
/// these stops that counts, departs when the point does, and is worth the point's value; and the seconds of the direct
/// walk. No journey ends with a walk from a target.
///
/// However many stops there are, each connection of the window is asked for once, from the last to the first; `read` is
/// their number. The only error is that memory runs out, or that a number would need more than 32 bits; then a first
/// part of them, or all, was asked for.
pub fn answer_between<S: ConnSource, C: Scanned>(
    alloc: Global,
    source: &mut S,
    criterion: &C,
    query: &SetQuery,
) -> Result<Answer<C>, AllocError>
    requires { IsAskableBetween (S.timetable source.old).stops (question query.now) }
    ensures timetable { S.timetable source.new ≡ S.timetable source.old }
    ensures points { IfOk result (λ answer.
        IsAnswerBetween (C.rules criterion.now) (S.timetable source.old) (question query.now) (points_of answer)) }
    ensures journeys { IfOk result (λ answer. (departure : _) → Contains answer.departures.items departure
        → AttainsBetween (C.rules criterion.now) (S.timetable source.old) (question query.now)
        (point_of departure) departure.journey) }
    ensures walk { IfOk result (λ answer. IsDirectTime (S.timetable source.old) (question query.now)
        (walk_of_answer answer)) }
    ensures read { IfOk result (λ answer.
        answer.read ≡ length (window_between (S.timetable source.old) (question query.now))) }
    ensures log { OnOk result (S.log source.new ≡ S.log source.old
        ++ reverse (window_between (S.timetable source.old) (question query.now))) }
    ensures err { OnErr result ((n : ℕ) × (S.log source.new ≡ S.log source.old
        ++ take n (reverse (window_between (S.timetable source.old) (question query.now))))) }
{
    let read = window_size(source, query);
    let found = profile_between(alloc, source, criterion, query)?;
    let departures = departures_between(alloc, &found)?;
    Ok(Answer {
        departures,
        walk: secs_of(found.direct_walk()),
        read,
    })
}

// The seconds of a footpath, if there is one.
pub(crate) fn secs_of(walk: Option<Footpath>) -> Option<u32>
    ensures { result ≡ secs_of walk }
{
    match walk {
        None => None,
        Some(walk) => Some(walk.secs),
    }
}

// The number of connections that the window of a question has.
pub(crate) fn window_size<S: ConnSource>(source: &S, query: &SetQuery) -> usize
    ensures { result ≡ length (window_between (S.timetable source.now) (question query.now)) }
{
    let times = Query {
        source: 0,
        target: 0,
        from: query.from,
        until: query.until,
        by: query.by,
    };
    window_len(source, &times)
}
