//! The best departures between sets of stops, each with its journey.

ghost use Rattle.std.specs.Prelude.{◌<◌, Contains, IfOk, map};
ghost use Rattle.timetable.specs.TimetableValue.{TimetableValue};
ghost use Rattle.scan_state.specs.SetQuery.{SetQueryValue, IsAnswerBetween};
ghost use Rattle.profile_scan.specs.Found.{AnswersBetween};
ghost use Rattle.scan_state.specs.Origins.{from_stop};
ghost use Rattle.profile_scan.specs.Everywhere.{AnswerToAny, asked_to_any, criterion_to_any};
ghost use Rattle.journeys.specs.Answer.{point_of};
ghost use Rattle.journeys.specs.Extracted.{AttainsBetween};

use crate::answering::Departure;
use crate::extraction::extract_between;
use criteria::Criterion;
use profile_scan::{ConnSource, FoundBetween, ProfilesToAny, Scanned};
use std::alloc::{AllocError, Global};

/// Returns the points of the answer of a query between sets, each with a journey that counts, departs when the point
/// does, and is worth the point's value. The only error is that memory runs out.
pub fn departures_between<C: Criterion>(
    alloc: Global,
    found: &FoundBetween<C>,
) -> Result<Vec<Departure<C::V>>, AllocError>
    ensures points { IfOk result (λ departures. (criterion : _) (t : TimetableValue) (b : SetQueryValue)
        → AnswersBetween criterion (C.rules criterion) t b found.now
        → IsAnswerBetween (C.rules criterion) t b (map point_of departures.items)) }
    ensures journeys { IfOk result (λ departures. (criterion : _) (t : TimetableValue) (b : SetQueryValue)
        → AnswersBetween criterion (C.rules criterion) t b found.now
        → (departure : _) → Contains departures.items departure
        → AttainsBetween (C.rules criterion) t b (point_of departure) departure.journey) }
{
    let points = found.points();
    let mut departures = Vec::with_capacity(alloc, points.len())?;
    for i in 0..points.len() {
        let point = points[i];
        let journey = extract_between(alloc, found, i)?;
        departures.push(Departure {
            time: point.departure,
            value: point.value,
            journey,
        })?;
    }
    Ok(departures)
}

/// Returns the best departures from one stop, which is no target, out of the answers from all stops to any of several
/// targets, each with a journey that counts, departs when the point does, and is worth the point's value. So journeys
/// are made stop by stop, and needn't be in memory all at once.
///
/// `source` has to read the timetable that was scanned. The only error is that memory runs out.
pub fn departures_from<S: ConnSource, C: Scanned>(
    alloc: Global,
    source: &S,
    profiles: &ProfilesToAny<C>,
    stop: u32,
) -> Result<Vec<Departure<C::V>>, AllocError>
    requires stop { stop < (S.timetable source.now).stops }
    requires differ { Contains (asked_to_any profiles.now).targets stop → ⊥ }
    requires answered { AnswerToAny C.rules C.Kept.value (S.timetable source.now) profiles.now }
    ensures points { IfOk result (λ departures. IsAnswerBetween (C.rules (criterion_to_any profiles.now))
        (S.timetable source.now) (from_stop (asked_to_any profiles.now) stop) (map point_of departures.items)) }
    ensures journeys { IfOk result (λ departures. (departure : _) → Contains departures.items departure
        → AttainsBetween (C.rules (criterion_to_any profiles.now)) (S.timetable source.now)
        (from_stop (asked_to_any profiles.now) stop) (point_of departure) departure.journey) }
{
    let found = profiles.found_from(alloc, source, stop)?;
    departures_between(alloc, &found)
}
