//! A query's answer as a line of reply.

ghost use Rattle.std.specs.Prelude.{◌≡◌, ◌++◌, ℕ, IfOk, OnOk, map, reverse, string_bytes, take};
ghost use Rattle.scan_state.specs.SetQuery.{IsAskableBetween, question};
ghost use Rattle.session_texts.specs.Replies.{line_of, profile_data};
ghost use Rattle.session_texts.specs.Telling.{points_of};
ghost use Rattle.station_answers.specs.Reading.{window_between};
ghost use Rattle.answer_replies.specs.Replying.{IsAnswered, IsAnsweredBy, subject_of};
ghost use Rattle.answer_replies.specs.Replying.{bare_data, data_with_legs, departures_data};

use crate::legs::journey_legs;
use crate::point_form::PointForm;
use criteria::{Arrival, ArrivalTrips, ArrivalTripsWalk, CriterionName, ShowsFigures};
use image_verifier::Verified;
use journeys::{Answer, Departure, journey_string};
use profile_scan::{Scanned, SetQuery};
use session_texts::Points;
use sources::{InPlace, ReadLog};
use station_answers::answer_between;
use std::alloc::{AllocError, Global};

/// The line that replies to a query between sets of stops over the image of version `version`, by the criterion of this
/// name; and the log, in which each connection of the window was noted once, from the last to the first.
///
/// # Errors
///
/// Memory ran out. Then a first part of them, or all, was noted.
pub fn reply_by_name<L: ReadLog>(
    alloc: Global,
    form: PointForm,
    image: &Verified,
    criterion: CriterionName,
    query: &SetQuery,
    version: u64,
    log: L,
) -> (Result<String, AllocError>, L)
    requires { IsAskableBetween image.now.timetable.stops (question query.now) }
    ensures line { IfOk result.0 (λ line. IsAnsweredBy criterion (subject_of form image.now version)
        (question query.now) (string_bytes line)) }
    ensures whole { OnOk result.0 (L.reads result.1
        ≡ L.reads log ++ reverse (window_between image.now.timetable (question query.now))) }
    ensures part { (n : ℕ) × (L.reads result.1
        ≡ L.reads log ++ take n (reverse (window_between image.now.timetable (question query.now)))) }
{
    match criterion {
        CriterionName::Arrival => line_by(alloc, form, image, &Arrival, query, version, log),
        CriterionName::ArrivalTrips => {
            line_by(alloc, form, image, &ArrivalTrips, query, version, log)
        }
        CriterionName::ArrivalTripsWalk => line_by(
            alloc,
            form,
            image,
            &ArrivalTripsWalk,
            query,
            version,
            log,
        ),
    }
}

// The line that replies to a query, by this criterion. The image is read in place.
fn line_by<C: ShowsFigures + Scanned, L: ReadLog>(
    alloc: Global,
    form: PointForm,
    image: &Verified,
    criterion: &C,
    query: &SetQuery,
    version: u64,
    log: L,
) -> (Result<String, AllocError>, L)
    requires { IsAskableBetween image.now.timetable.stops (question query.now) }
    ensures line { IfOk result.0 (λ line. IsAnswered C.figures (C.rules criterion.now)
        (subject_of form image.now version) (question query.now) (string_bytes line)) }
    ensures whole { OnOk result.0 (L.reads result.1
        ≡ L.reads log ++ reverse (window_between image.now.timetable (question query.now))) }
    ensures part { (n : ℕ) × (L.reads result.1
        ≡ L.reads log ++ take n (reverse (window_between image.now.timetable (question query.now)))) }
{
    let mut source = InPlace::new(image, log);
    let answer = match answer_between(alloc, &mut source, criterion, query) {
        Ok(answer) => answer,
        Err(error) => return (Err(error), source.into_log()),
    };
    let line = profile_reply(alloc, form, image, version, criterion, &answer);
    (line, source.into_log())
}

/// The line of reply for an answer over the image of version `version`.
///
/// # Errors
///
/// Memory ran out.
pub fn profile_reply<C: ShowsFigures>(
    alloc: Global,
    form: PointForm,
    image: &Verified,
    version: u64,
    criterion: &C,
    answer: &Answer<C>,
) -> Result<String, AllocError>
    ensures { IfOk result (λ line. string_bytes line ≡ line_of (profile_data
        (departures_data form image.now C.figures answer.now.departures.items) version answer.now.walk)) }
{
    let points = reply_points(alloc, form, image, criterion, &answer.departures)?;
    points.profile_line(alloc, version, answer.walk)
}

// The points of the reply, one for each departure, in the form.
fn reply_points<C: ShowsFigures>(
    alloc: Global,
    form: PointForm,
    image: &Verified,
    criterion: &C,
    departures: &[Departure<C::V>],
) -> Result<Points, AllocError>
    ensures { IfOk result (λ points. points_of points ≡ departures_data form image.now C.figures departures.now) }
{
    match form {
        PointForm::Bare => bare_points(alloc, criterion, departures),
        PointForm::WithLegs => points_with_legs(alloc, image, criterion, departures),
    }
}

// The points of the reply without legs, one for each departure.
fn bare_points<C: ShowsFigures>(
    alloc: Global,
    criterion: &C,
    departures: &[Departure<C::V>],
) -> Result<Points, AllocError>
    ensures { IfOk result (λ points. points_of points ≡ map (bare_data C.figures) departures.now) }
{
    let mut points = Points::new(alloc);
    for departure in departures {
        let journey = journey_string(alloc, &departure.journey)?;
        points.add(
            alloc,
            departure.time,
            criterion.figures_of(&departure.value),
            journey,
        )?;
    }
    Ok(points)
}

// The points of the reply, one for each departure, with the legs of its journey.
fn points_with_legs<C: ShowsFigures>(
    alloc: Global,
    image: &Verified,
    criterion: &C,
    departures: &[Departure<C::V>],
) -> Result<Points, AllocError>
    ensures { IfOk result (λ points. points_of points ≡ map (data_with_legs image.now C.figures) departures.now) }
{
    let mut points = Points::new(alloc);
    for departure in departures {
        let journey = journey_string(alloc, &departure.journey)?;
        let legs = journey_legs(alloc, image, &departure.journey)?;
        points.add_with_legs(
            alloc,
            departure.time,
            criterion.figures_of(&departure.value),
            journey,
            legs,
        )?;
    }
    Ok(points)
}
