//! The answer of a profile query, each point with a journey.

ghost use Rattle.std.specs.Prelude.{◌≡◌, ◌++◌, ℕ, Contains, IfOk, OnOk, OnErr, length, map, reverse, take};
ghost use Rattle.timetable.specs.TimetableValue.{TimetableValue};
ghost use Rattle.timetable.specs.declared.query.Query.{Query};
ghost use Rattle.timetable.specs.Queries.{IsAskable};
ghost use Rattle.profile_scan.specs.Window.{window};
ghost use Rattle.scan_state.specs.Points.{IsAnswer};
ghost use Rattle.scan_state.specs.ScanState.{IsDirectSecs};
ghost use Rattle.profile_scan.specs.Found.{Answers};
ghost use Rattle.journeys.specs.Answer.{AreAttained, point_of, points_of, walk_of_answer};
ghost use Rattle.journeys.specs.Extracted.{Attains};

use crate::extraction::extract;
use criteria::Criterion;
use profile_scan::{ConnSource, Found, Scanned, profile};
use std::alloc::{AllocError, Global};
use timetable::{Journey, Query};

/// A best departure: its time, in seconds after the base, its value, and a journey that attains both.
#[derive(Drop)]
pub struct Departure<V> {
    pub time: u32,
    pub value: V,
    pub journey: Journey,
}

/// The answer of a profile query: all best departures in order, each with a journey; the seconds of the footpath from
/// the source to the target, if there is one; and how many connections were read.
#[derive(Drop)]
pub struct Answer<C: Criterion> {
    pub departures: Vec<Departure<C::V>>,
    pub walk: Option<u32>,
    pub read: usize,
}

/// Answers a query that can be asked: of the points of all journeys that count for it, exactly those that no other
/// dominates, in order, each with a journey that counts, departs when the point does, and is worth the point's value.
///
/// Each connection of the window is asked for once, from the last to the first. The only error is that memory runs
/// out; then a first part of them, or all, was asked for.
pub fn answer_query<S: ConnSource, C: Scanned>(
    alloc: Global,
    source: &mut S,
    criterion: &C,
    query: &Query,
) -> Result<Answer<C>, AllocError>
    requires { IsAskable (S.timetable source.old).stops query.now }
    ensures timetable { S.timetable source.new ≡ S.timetable source.old }
    ensures points { IfOk result (λ answer.
        IsAnswer (C.rules criterion.now) (S.timetable source.old) query.now (points_of answer)) }
    ensures journeys { IfOk result (λ answer.
        AreAttained (C.rules criterion.now) (S.timetable source.old) query.now answer) }
    ensures walk { IfOk result (λ answer. IsDirectSecs (S.timetable source.old) query.now.target query.now.source
        (walk_of_answer answer)) }
    ensures read { IfOk result (λ answer. answer.read ≡ length (window (S.timetable source.old) query.now)) }
    ensures log { OnOk result (S.log source.new ≡ S.log source.old
        ++ reverse (window (S.timetable source.old) query.now)) }
    ensures err { OnErr result ((n : ℕ) × (S.log source.new ≡ S.log source.old
        ++ take n (reverse (window (S.timetable source.old) query.now)))) }
{
    let read = window_len(source, query);
    let found = profile(alloc, source, criterion, query)?;
    let departures = departures_of(alloc, &found)?;
    Ok(Answer {
        departures,
        walk: found.direct_walk(),
        read,
    })
}

/// The number of connections that the window of a query has.
pub fn window_len<S: ConnSource>(source: &S, query: &Query) -> usize
    ensures { result ≡ length (window (S.timetable source.now) query.now) }
{
    let end = source.first_at(query.by);
    end.saturating_sub(source.first_at(query.from))
}

// Returns the points of an answer, each with a journey.
fn departures_of<C: Criterion>(
    alloc: Global,
    found: &Found<C>,
) -> Result<Vec<Departure<C::V>>, AllocError>
    ensures points { IfOk result (λ departures. (criterion : _) (t : TimetableValue) (q : Query)
        → Answers criterion (C.rules criterion) t q found.now
        → IsAnswer (C.rules criterion) t q (map point_of departures.items)) }
    ensures journeys { IfOk result (λ departures. (criterion : _) (t : TimetableValue) (q : Query)
        → Answers criterion (C.rules criterion) t q found.now
        → (departure : _) → Contains departures.items departure
        → Attains (C.rules criterion) t q (point_of departure) departure.journey) }
{
    let points = found.points();
    let mut departures = Vec::with_capacity(alloc, points.len())?;
    for i in 0..points.len() {
        let point = points[i];
        let journey = extract(alloc, found, i)?;
        departures.push(Departure {
            time: point.departure,
            value: point.value,
            journey,
        })?;
    }
    Ok(departures)
}
