//! The answer between several stops, from the answers of their pairs: slower than by one scan, and a reference for it.

ghost use Rattle.std.specs.Prelude.{◌≡◌, ℕ, Contains, IfOk, OnOk, OnErr, length, map};
ghost use Rattle.scan_state.specs.SetQuery.{IsAnswerBetween, IsAskableBetween, question};
ghost use Rattle.profile_scan.specs.Destinations.{query_from};
ghost use Rattle.profile_scan.specs.Everywhere.{AnswerAll, criterion_of_profiles, destination_of};
ghost use Rattle.journeys.specs.Answer.{point_of, points_of, walk_of_answer};
ghost use Rattle.station_answers.specs.Asking.{IsToTarget, destination_to};
ghost use Rattle.station_answers.specs.Attaining.{AttainsPair};
ghost use Rattle.station_answers.specs.Merging.{CoversAll, CoversQuery, IsMerged, KeepsCovered};
ghost use Rattle.station_answers.specs.Reading.{ReadsPart, ReadsWindow, window_between};
ghost use Rattle.station_answers.specs.Walks.{IsDirectTime};

use crate::answering::{secs_of, window_size};
use crate::merging::MergedAnswers;
use crate::walking::direct_walk;
use criteria::Criterion;
use journeys::{Answer, Departure};
use profile_scan::{ConnSource, Destination, Profiles, Scanned, SetQuery, in_order, profiles_to};
use std::alloc::{AllocError, Global};

/// Answers a question as `answer_between` does, by one scan for each target. The journey of a point may be another one:
/// it may walk on from one target to another.
///
/// The connections of the window are asked for from the last to the first, at most once for each target; `read` is
/// their number. The only error is that memory runs out, or that a number would need more than 32 bits.
pub fn answer_by_targets<S: ConnSource, C: Scanned>(
    alloc: Global,
    source: &mut S,
    criterion: &C,
    query: &SetQuery,
) -> Result<Answer<C>, AllocError>
    requires { IsAskableBetween (S.timetable source.old).stops (question query.now) }
    ensures timetable { S.timetable source.new ≡ S.timetable source.old }
    ensures points { IfOk result (λ answer.
        IsAnswerBetween (C.rules criterion.now) (S.timetable source.old) (question query.now) (points_of answer)) }
    ensures journeys { IfOk result (λ answer. (departure : _) → Contains answer.departures.items departure
        → AttainsPair (C.rules criterion.now) (S.timetable source.old) (question query.now)
        (point_of departure) departure.journey) }
    ensures walk { IfOk result (λ answer. IsDirectTime (S.timetable source.old) (question query.now)
        (walk_of_answer answer)) }
    ensures read { IfOk result (λ answer.
        answer.read ≡ length (window_between (S.timetable source.old) (question query.now))) }
    ensures log { OnOk result (ReadsWindow (S.timetable source.old) (question query.now)
        (S.log source.old) (S.log source.new)) }
    ensures err { OnErr result (ReadsPart (S.timetable source.old) (question query.now)
        (S.log source.old) (S.log source.new)) }
{
    let direct = direct_walk(source, query);
    let walk = secs_of(direct);
    let read = window_size(source, query);
    let merged = merged_between(alloc, source, criterion, query)?;
    let departures = departures_of(alloc, source, criterion, query, &merged)?;
    Ok(Answer {
        departures,
        walk,
        read,
    })
}

// The best points of the answers of all pairs, by one scan for each target.
fn merged_between<S: ConnSource, C: Scanned>(
    alloc: Global,
    source: &mut S,
    criterion: &C,
    query: &SetQuery,
) -> Result<MergedAnswers<C>, AllocError>
    requires { IsAskableBetween (S.timetable source.old).stops (question query.now) }
    ensures timetable { S.timetable source.new ≡ S.timetable source.old }
    ensures merged { IfOk result (IsMerged C.rules criterion.now (S.timetable source.old) (question query.now)) }
    ensures covers { IfOk result
        (CoversAll (C.rules criterion.now) (S.timetable source.old) (question query.now)) }
    ensures log { OnOk result (ReadsWindow (S.timetable source.old) (question query.now)
        (S.log source.old) (S.log source.new)) }
    ensures err { OnErr result (ReadsPart (S.timetable source.old) (question query.now)
        (S.log source.old) (S.log source.new)) }
{
    let mut merged = MergedAnswers::new(alloc, *criterion);
    for index in 0..query.targets.len() {
        let target = query.targets[index];
        let destination = destination_to(query, target);
        let profiles = profiles_to(alloc, source, criterion, &destination)?;
        take_from_sources(alloc, source, query, &profiles, &mut merged)?;
    }
    Ok(merged)
}

// The question from every stop to one target.
fn destination_to(query: &SetQuery, target: u32) -> Destination
    ensures { result ≡ destination_to (question query.now) target }
{
    Destination {
        target,
        from: query.from,
        until: query.until,
        by: query.by,
    }
}

// Takes in the answers from each of the sources to one target.
fn take_from_sources<S: ConnSource, C: Scanned>(
    alloc: Global,
    source: &S,
    query: &SetQuery,
    profiles: &Profiles<C>,
    merged: &mut MergedAnswers<C>,
) -> Result<(), AllocError>
    requires askable { IsAskableBetween (S.timetable source.now).stops (question query.now) }
    requires answered { AnswerAll C.rules C.Kept.value (S.timetable source.now) profiles.now }
    requires target { IsToTarget (question query.now) (destination_of profiles.now) }
    requires merged { IsMerged C.rules (criterion_of_profiles profiles.now) (S.timetable source.now)
        (question query.now) merged.old }
    ensures merged { OnOk result (IsMerged C.rules (criterion_of_profiles profiles.now) (S.timetable source.now)
        (question query.now) merged.new) }
    ensures kept { OnOk result
        (KeepsCovered (C.rules (criterion_of_profiles profiles.now)) merged.old merged.new) }
    ensures covers { OnOk result ((stop : ℕ) → Contains (question query.now).sources stop
        → CoversQuery (C.rules (criterion_of_profiles profiles.now)) (S.timetable source.now) merged.new
        (query_from (destination_of profiles.now) stop)) }
{
    for index in 0..query.sources.len() {
        let stop = query.sources[index];
        let found = profiles.found_from(alloc, source, stop)?;
        merged.take_in(found)?;
    }
    Ok(())
}

// The best points of all pairs in order, each with a journey.
fn departures_of<S: ConnSource, C: Criterion>(
    alloc: Global,
    source: &S,
    criterion: &C,
    query: &SetQuery,
    merged: &MergedAnswers<C>,
) -> Result<Vec<Departure<C::V>>, AllocError>
    requires askable { IsAskableBetween (S.timetable source.now).stops (question query.now) }
    requires merged { IsMerged C.rules criterion.now (S.timetable source.now) (question query.now) merged.now }
    requires covers { CoversAll (C.rules criterion.now) (S.timetable source.now) (question query.now) merged.now }
    ensures points { IfOk result (λ departures. IsAnswerBetween (C.rules criterion.now) (S.timetable source.now)
        (question query.now) (map point_of departures.items)) }
    ensures journeys { IfOk result (λ departures. (departure : _) → Contains departures.items departure
        → AttainsPair (C.rules criterion.now) (S.timetable source.now) (question query.now)
        (point_of departure) departure.journey) }
{
    let points = in_order(alloc, criterion, &merged.best)?;
    let mut departures = Vec::with_capacity(alloc, points.len())?;
    for index in 0..points.len() {
        let point = points[index];
        let journey = merged.journey_of(alloc, &point)?;
        departures.push(Departure {
            time: point.departure,
            value: point.value,
            journey,
        })?;
    }
    Ok(departures)
}
