//! The lines of all stops' best departures.

ghost use Rattle.std.specs.Prelude.{◌≡◌, ◌<◌, ◌+◌, ℕ, List, true, Contains, IfOk, map, string_bytes};
ghost use Rattle.scan_state.specs.SetQuery.{IsAnswerBetween, secs_of};
ghost use Rattle.journeys.specs.Answer.{point_of};
ghost use Rattle.journeys.specs.Extracted.{AttainsBetween};
ghost use Rattle.command_requests.specs.declared.requests.DeparturesForm.{DeparturesForm};
ghost use Rattle.profile_scan.specs.Everywhere.{AnswerToAny, asked_to_any, criterion_to_any, walk_to_any};
ghost use Rattle.scan_state.specs.Origins.{from_stop};
ghost use Rattle.image_facts.specs.Naming.{stop_bytes};
ghost use Rattle.image_files.specs.Naming.{printed};
ghost use Rattle.departure_lines.specs.Showing.{AddsStops, ShowsStop, is_shown, journeys_form, one_if_some};
ghost use Rattle.departure_lines.specs.Showing.{points_form};

use crate::names::printed_stop_name;
use crate::stop_lists::WantedStops;
use crate::stop_words::{PointsForm, put_journeys, put_points};
use command_requests::DeparturesForm;
use criteria::ShowsFigures;
use droppable_sources::in_place;
use image_files::NameForm;
use image_verifier::Verified;
use journeys::{Departure, departures_from};
use profile_scan::{ProfilesToAny, Scanned};
use std::alloc::{AllocError, Global};
use text_pieces::Form;

/// The answers from every stop of an image to any of several, and what is needed to print them.
#[derive(Clone, Copy)]
pub struct AnswersToPrint<'a, C: ShowsFigures + Scanned> {
    pub alloc: Global,
    pub image: &'a Verified,
    pub criterion: &'a C,
    pub profiles: &'a ProfilesToAny<C>,
    /// How names are written.
    pub names: NameForm,
}

/// The number of stops that have departures, and the number of all their departures.
#[derive(Clone, Copy)]
pub struct StopCounts {
    pub stops: usize,
    pub points: usize,
}

/// Adds the lines of each wanted stop except the targets, in order, and returns the counts.
pub fn append_stops<C: ShowsFigures + Scanned>(
    lines: &mut String,
    shown: &AnswersToPrint<'_, C>,
    form: DeparturesForm,
    wanted: &WantedStops,
) -> Result<StopCounts, AllocError>
    requires same { criterion_to_any shown.now.profiles.now ≡ shown.now.criterion.now }
    requires answered { AnswerToAny C.rules C.Kept.value shown.now.image.now.timetable shown.now.profiles.now }
    ensures { IfOk result (λ counts. AddsStops C.figures (C.rules shown.now.criterion.now) form
        (printed shown.now.names shown.now.image.now)
        (asked_to_any shown.now.profiles.now) wanted.now shown.now.image.now.timetable.stops
        (string_bytes lines.old) (string_bytes lines.new) counts) }
{
    let mut counts = StopCounts {
        stops: 0,
        points: 0,
    };
    for stop in 0..shown.image.stops() {
        counts = append_next(lines, shown, form, wanted, stop, counts)?;
    }
    Ok(counts)
}

// Adds the lines of the next stop, if it is shown, and counts its departures.
fn append_next<C: ShowsFigures + Scanned>(
    lines: &mut String,
    shown: &AnswersToPrint<'_, C>,
    form: DeparturesForm,
    wanted: &WantedStops,
    stop: u32,
    counts: StopCounts,
) -> Result<StopCounts, AllocError>
    requires stop { stop < shown.now.image.now.timetable.stops }
    requires same { criterion_to_any shown.now.profiles.now ≡ shown.now.criterion.now }
    requires answered { AnswerToAny C.rules C.Kept.value shown.now.image.now.timetable shown.now.profiles.now }
    ensures { IfOk result (λ next. (before : List ℕ)
        → AddsStops C.figures (C.rules shown.now.criterion.now) form (printed shown.now.names shown.now.image.now)
        (asked_to_any shown.now.profiles.now) wanted.now stop before (string_bytes lines.old) counts
        → AddsStops C.figures (C.rules shown.now.criterion.now) form (printed shown.now.names shown.now.image.now)
        (asked_to_any shown.now.profiles.now) wanted.now (stop + 1) before (string_bytes lines.new) next) }
{
    if !is_shown(wanted, shown.profiles.targets(), stop) {
        return Ok(counts);
    }
    let points = append_stop(lines, shown, form, stop)?;
    let next = counted(counts, points)?;
    Ok(next)
}

// Whether a stop is wanted, and is no target.
fn is_shown(wanted: &WantedStops, targets: &[u32], stop: u32) -> bool
    ensures shown { result ≡ is_shown wanted.now targets.now stop }
    ensures differ { result ≡ true → Contains targets.now stop → ⊥ }
{
    if targets.contains(&stop) {
        return false;
    }
    wanted.has(stop)
}

// The counts after one more stop, which has `points` departures. A stop without departures isn't counted.
fn counted(counts: StopCounts, points: usize) -> Result<StopCounts, AllocError>
    ensures { IfOk result (λ next. (next.stops ≡ counts.stops + one_if_some points)
        × (next.points ≡ counts.points + points)) }
{
    let stops = sum_of(counts.stops, points.min(1))?;
    let points = sum_of(counts.points, points)?;
    Ok(StopCounts { stops, points })
}

// The sum of two counts. One past 2^64 - 1 is out of memory: no memory has room for so many.
fn sum_of(count: usize, more: usize) -> Result<usize, AllocError>
    ensures { IfOk result (λ sum. sum ≡ count + more) }
{
    match count.checked_add(more) {
        Some(sum) => Ok(sum),
        None => Err(AllocError),
    }
}

// Adds the lines of a stop, and returns how many departures it has.
fn append_stop<C: ShowsFigures + Scanned>(
    lines: &mut String,
    shown: &AnswersToPrint<'_, C>,
    form: DeparturesForm,
    stop: u32,
) -> Result<usize, AllocError>
    requires stop { stop < shown.now.image.now.timetable.stops }
    requires differ { Contains (asked_to_any shown.now.profiles.now).targets stop → ⊥ }
    requires same { criterion_to_any shown.now.profiles.now ≡ shown.now.criterion.now }
    requires answered { AnswerToAny C.rules C.Kept.value shown.now.image.now.timetable shown.now.profiles.now }
    ensures { IfOk result (ShowsStop C.figures (C.rules shown.now.criterion.now) form
        (printed shown.now.names shown.now.image.now)
        (asked_to_any shown.now.profiles.now) stop (string_bytes lines.old) (string_bytes lines.new)) }
{
    match form {
        DeparturesForm::Journeys => append_journeys(lines, shown, Form::Lines, stop),
        DeparturesForm::Json => append_journeys(lines, shown, Form::Json, stop),
        DeparturesForm::Points => append_points(lines, shown, PointsForm::Each(Form::Lines), stop),
        DeparturesForm::JsonPoints => append_points(
            lines,
            shown,
            PointsForm::Each(Form::Json),
            stop,
        ),
        DeparturesForm::Summary => append_points(
            lines,
            shown,
            PointsForm::Summary(Form::Lines),
            stop,
        ),
        DeparturesForm::JsonSummary => append_points(
            lines,
            shown,
            PointsForm::Summary(Form::Json),
            stop,
        ),
    }
}

// The name of a stop, as it is printed.
fn printed_stop<C: ShowsFigures + Scanned>(
    shown: &AnswersToPrint<'_, C>,
    stop: u32,
) -> Result<String, AllocError>
    ensures { IfOk result (λ name. string_bytes name
        ≡ stop_bytes (printed shown.now.names shown.now.image.now).names stop) }
{
    printed_stop_name(shown.alloc, shown.image, stop, shown.names)
}

// Adds the text of a stop's departures with their journeys, and returns how many there are.
fn append_journeys<C: ShowsFigures + Scanned>(
    lines: &mut String,
    shown: &AnswersToPrint<'_, C>,
    form: Form,
    stop: u32,
) -> Result<usize, AllocError>
    requires stop { stop < shown.now.image.now.timetable.stops }
    requires differ { Contains (asked_to_any shown.now.profiles.now).targets stop → ⊥ }
    requires same { criterion_to_any shown.now.profiles.now ≡ shown.now.criterion.now }
    requires answered { AnswerToAny C.rules C.Kept.value shown.now.image.now.timetable shown.now.profiles.now }
    ensures { IfOk result (ShowsStop C.figures (C.rules shown.now.criterion.now) (journeys_form form)
        (printed shown.now.names shown.now.image.now)
        (asked_to_any shown.now.profiles.now) stop (string_bytes lines.old) (string_bytes lines.new)) }
{
    let name = printed_stop(shown, stop)?;
    let departures = journeys_from(shown, stop)?;
    let walk = direct_secs(shown, stop);
    put_journeys(
        lines,
        shown.alloc,
        shown.criterion,
        form,
        name.as_str(),
        &departures,
        walk,
    )?;
    Ok(departures.len())
}

// Adds the text of a stop's departures without journeys, and returns how many there are.
fn append_points<C: ShowsFigures + Scanned>(
    lines: &mut String,
    shown: &AnswersToPrint<'_, C>,
    form: PointsForm,
    stop: u32,
) -> Result<usize, AllocError>
    requires stop { stop < shown.now.image.now.timetable.stops }
    requires differ { Contains (asked_to_any shown.now.profiles.now).targets stop → ⊥ }
    requires same { criterion_to_any shown.now.profiles.now ≡ shown.now.criterion.now }
    requires answered { AnswerToAny C.rules C.Kept.value shown.now.image.now.timetable shown.now.profiles.now }
    ensures { IfOk result (ShowsStop C.figures (C.rules shown.now.criterion.now) (points_form form)
        (printed shown.now.names shown.now.image.now)
        (asked_to_any shown.now.profiles.now) stop (string_bytes lines.old) (string_bytes lines.new)) }
{
    let name = printed_stop(shown, stop)?;
    let points = shown.profiles.points(stop);
    let walk = direct_secs(shown, stop);
    put_points(
        lines,
        shown.alloc,
        shown.criterion,
        form,
        name.as_str(),
        points,
        walk,
    )?;
    Ok(points.len())
}

// The seconds of the shortest footpath from a stop to a target, if there is one.
fn direct_secs<C: ShowsFigures + Scanned>(shown: &AnswersToPrint<'_, C>, stop: u32) -> Option<u32>
    requires stop { stop < shown.now.image.now.timetable.stops }
    requires answered { AnswerToAny C.rules C.Kept.value shown.now.image.now.timetable shown.now.profiles.now }
    ensures { result ≡ secs_of (walk_to_any shown.now.profiles.now stop) }
{
    match shown.profiles.direct_walk(stop) {
        None => None,
        Some(walk) => Some(walk.secs),
    }
}

// The best departures from a stop, each with a journey.
fn journeys_from<C: ShowsFigures + Scanned>(
    shown: &AnswersToPrint<'_, C>,
    stop: u32,
) -> Result<Vec<Departure<C::V>>, AllocError>
    requires stop { stop < shown.now.image.now.timetable.stops }
    requires differ { Contains (asked_to_any shown.now.profiles.now).targets stop → ⊥ }
    requires answered { AnswerToAny C.rules C.Kept.value shown.now.image.now.timetable shown.now.profiles.now }
    ensures points { IfOk result (λ departures. IsAnswerBetween (C.rules (criterion_to_any shown.now.profiles.now))
        shown.now.image.now.timetable
        (from_stop (asked_to_any shown.now.profiles.now) stop) (map point_of departures.items)) }
    ensures journeys { IfOk result (λ departures. (departure : _) → Contains departures.items departure
        → AttainsBetween (C.rules (criterion_to_any shown.now.profiles.now)) shown.now.image.now.timetable
        (from_stop (asked_to_any shown.now.profiles.now) stop) (point_of departure) departure.journey) }
{
    let source = in_place(shown.image);
    departures_from(shown.alloc, &source, shown.profiles, stop)
}
