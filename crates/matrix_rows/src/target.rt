//! The rows of one set of targets.

ghost use Rattle.std.specs.Prelude.{◌≡◌, ◌<◌, ◌≤◌, ◌++◌, ◌∷◌, [], ℕ, List, true, false, Contains, IfOk, OnOk};
ghost use Rattle.std.specs.Prelude.{slice_get, string_bytes};
ghost use Rattle.std.specs.Global.{Vec};
ghost use Rattle.std.specs.List.{AllZip, flat_map};
ghost use Rattle.scan_state.specs.SetQuery.{SetQueryValue, IsAnswerBetween, IsAskableBetween};
ghost use Rattle.profile_scan.specs.Destinations.{question_to_any};
ghost use Rattle.profile_scan.specs.Everywhere.{AnswerToAny, asked_to_any, criterion_to_any};
ghost use Rattle.image_files.specs.Naming.{printed};
ghost use Rattle.travel_times.specs.Rows.{Adds, AreWhole, text_of};
ghost use Rattle.matrix_rows.specs.Tables.{AreRowsBy, AreRowsTo, AreWithin, CanBeMade, IsMean, IsMeanFrom, Meet};
ghost use Rattle.matrix_rows.specs.Tables.{destination, from_stops, mean_in, point_row, set_bytes, span_of, spans_of};
ghost use Rattle.matrix_rows.specs.Tables.{waiting};

use crate::best::{best_points, least_walk, meet};
use crate::named_table::NamedTable;
use crate::set_names::set_name;
use crate::table::TravelTable;
use bags::Point;
use criteria::{Arrival, ArrivalTrips, ArrivalTripsWalk, CriterionName, ShowsFigures};
use droppable_sources::in_place;
use image_files::NameForm;
use image_verifier::Verified;
use profile_scan::{Destinations, ProfilesToAny, Scanned, profiles_to_any};
use std::alloc::{AllocError, Global};
use travel_times::{Pair, Rows, Span, mean_wait, put_pair, put_point};

/// The rows of a set of targets: for each set of sources, in order, the row of the pair, or that of each departure;
/// nothing if one of the sources is a target. The only error is that memory runs out.
pub fn rows_to(
    alloc: Global,
    table: &NamedTable<'_>,
    targets: &[u32],
) -> Result<Vec<u8>, AllocError>
    requires { CanBeMade table.now.plain targets.now }
    ensures { IfOk result (λ text. AreRowsBy table.now.plain.criterion table.now.plain targets.now text.items) }
{
    match table.plain.criterion {
        CriterionName::Arrival => rows_by(alloc, table, &Arrival, targets),
        CriterionName::ArrivalTrips => rows_by(alloc, table, &ArrivalTrips, targets),
        CriterionName::ArrivalTripsWalk => rows_by(alloc, table, &ArrivalTripsWalk, targets),
    }
}

// The same by a criterion.
fn rows_by<C: ShowsFigures + Scanned>(
    alloc: Global,
    table: &NamedTable<'_>,
    criterion: &C,
    targets: &[u32],
) -> Result<Vec<u8>, AllocError>
    requires { CanBeMade table.now.plain targets.now }
    ensures { IfOk result (λ text. AreRowsTo C.figures (C.rules criterion.now) table.now.plain.each
        (printed table.now.plain.names table.now.plain.image.now)
        (destination table.now.plain targets.now) table.now.plain.sources.now text.items) }
{
    if table.plain.each {
        return point_rows(alloc, table, criterion, targets);
    }
    pair_rows(alloc, table, criterion, targets)
}

// The row of each pair.
fn pair_rows<C: ShowsFigures + Scanned>(
    alloc: Global,
    table: &NamedTable<'_>,
    criterion: &C,
    targets: &[u32],
) -> Result<Vec<u8>, AllocError>
    requires { CanBeMade table.now.plain targets.now }
    ensures { IfOk result (λ text. AreRowsTo C.figures (C.rules criterion.now) false
        (printed table.now.plain.names table.now.plain.image.now)
        (destination table.now.plain targets.now) table.now.plain.sources.now text.items) }
{
    if table.plain.until == table.plain.by {
        return pair_rows_of_one_scan(alloc, table, criterion, targets);
    }
    pair_rows_of_two_scans(alloc, table, criterion, targets)
}

// The row of each pair, where one may leave as late as one arrives: the answers are also those for the means.
fn pair_rows_of_one_scan<C: ShowsFigures + Scanned>(
    alloc: Global,
    table: &NamedTable<'_>,
    criterion: &C,
    targets: &[u32],
) -> Result<Vec<u8>, AllocError>
    requires can { CanBeMade table.now.plain targets.now }
    requires same { table.now.plain.until ≡ table.now.plain.by }
    ensures { IfOk result (λ text. AreRowsTo C.figures (C.rules criterion.now) false
        (printed table.now.plain.names table.now.plain.image.now)
        (destination table.now.plain targets.now) table.now.plain.sources.now text.items) }
{
    let destinations = table.plain.destination(alloc, targets)?;
    let profiles = answers(alloc, &table.plain, criterion, &destinations)?;
    let means = means_of(alloc, &table.plain, criterion, &profiles)?;
    pair_rows_of(alloc, table, criterion, &profiles, &means)
}

// The row of each pair, with a scan of its own for the means.
fn pair_rows_of_two_scans<C: ShowsFigures + Scanned>(
    alloc: Global,
    table: &NamedTable<'_>,
    criterion: &C,
    targets: &[u32],
) -> Result<Vec<u8>, AllocError>
    requires { CanBeMade table.now.plain targets.now }
    ensures { IfOk result (λ text. AreRowsTo C.figures (C.rules criterion.now) false
        (printed table.now.plain.names table.now.plain.image.now)
        (destination table.now.plain targets.now) table.now.plain.sources.now text.items) }
{
    let waiting = table.plain.waiting(alloc, targets)?;
    let means = means_to(alloc, &table.plain, criterion, &waiting)?;
    let destinations = table.plain.destination(alloc, targets)?;
    let profiles = answers(alloc, &table.plain, criterion, &destinations)?;
    pair_rows_of(alloc, table, criterion, &profiles, &means)
}

// The answers from all stops, by a scan of the image in place.
fn answers<C: ShowsFigures + Scanned>(
    alloc: Global,
    table: &TravelTable<'_>,
    criterion: &C,
    destinations: &Destinations,
) -> Result<ProfilesToAny<C>, AllocError>
    requires { IsAskableBetween table.now.image.now.timetable.stops (question_to_any destinations.now) }
    ensures answered { IfOk result
        (λ profiles. AnswerToAny C.rules C.Kept.value table.now.image.now.timetable profiles) }
    ensures keeps { IfOk result (λ profiles. (criterion_to_any profiles ≡ criterion.now)
        × (asked_to_any profiles ≡ question_to_any destinations.now)) }
{
    let mut source = in_place(table.image);
    profiles_to_any(alloc, &mut source, criterion, destinations)
}

// For each set of sources the mean wait, by a scan of its own, whose answers are freed.
fn means_to<C: ShowsFigures + Scanned>(
    alloc: Global,
    table: &TravelTable<'_>,
    criterion: &C,
    destinations: &Destinations,
) -> Result<Vec<Option<u64>>, AllocError>
    requires asked { IsAskableBetween table.now.image.now.timetable.stops (question_to_any destinations.now) }
    requires sources { AreWithin table.now.image.now table.now.sources.now }
    requires window { table.now.after ≤ table.now.until }
    ensures { IfOk result (λ means. AllZip (IsMeanFrom C.figures (C.rules criterion.now)
        (printed table.now.names table.now.image.now)
        (question_to_any destinations.now) table.now.after table.now.until) table.now.sources.now means.items) }
{
    let profiles = answers(alloc, table, criterion, destinations)?;
    means_of(alloc, table, criterion, &profiles)
}

// For each set of sources the mean wait over the seconds of the window.
fn means_of<C: ShowsFigures + Scanned>(
    alloc: Global,
    table: &TravelTable<'_>,
    criterion: &C,
    profiles: &ProfilesToAny<C>,
) -> Result<Vec<Option<u64>>, AllocError>
    requires same { criterion_to_any profiles.now ≡ criterion.now }
    requires answered { AnswerToAny C.rules C.Kept.value table.now.image.now.timetable profiles.now }
    requires asked { IsAskableBetween table.now.image.now.timetable.stops (asked_to_any profiles.now) }
    requires sources { AreWithin table.now.image.now table.now.sources.now }
    requires window { table.now.after ≤ table.now.until }
    ensures { IfOk result (λ means. AllZip (IsMeanFrom C.figures (C.rules criterion.now)
        (printed table.now.names table.now.image.now)
        (asked_to_any profiles.now) table.now.after table.now.until) table.now.sources.now means.items) }
{
    let mut means = Vec::with_capacity(alloc, table.sources.len())?;
    let mut spans = Vec::new(alloc);
    for sources in table.sources {
        let mean = mean_of(alloc, table, criterion, profiles, sources, &mut spans)?;
        means.push(mean)?;
    }
    Ok(means)
}

// The mean wait from a set of sources. What is in `spans` is written over, here and below.
fn mean_of<C: ShowsFigures + Scanned>(
    alloc: Global,
    table: &TravelTable<'_>,
    criterion: &C,
    profiles: &ProfilesToAny<C>,
    sources: &[u32],
    spans: &mut Vec<Span>,
) -> Result<Option<u64>, AllocError>
    requires same { criterion_to_any profiles.now ≡ criterion.now }
    requires answered { AnswerToAny C.rules C.Kept.value table.now.image.now.timetable profiles.now }
    requires asked { IsAskableBetween table.now.image.now.timetable.stops (asked_to_any profiles.now) }
    requires sources { (stop : ℕ) → Contains sources.now stop → stop < table.now.image.now.timetable.stops }
    requires window { table.now.after ≤ table.now.until }
    ensures { IfOk result (IsMean C.figures (C.rules criterion.now) (printed table.now.names table.now.image.now)
        (from_stops (asked_to_any profiles.now) sources.now) table.now.after table.now.until) }
{
    let points = best_points(alloc, table.image, criterion, profiles, sources)?;
    put_spans(spans, criterion, points.as_slice())?;
    Ok(mean_wait(spans, table.after, table.until))
}

// Puts the departures of points, with their arrivals, in place of others.
fn put_spans<C: ShowsFigures>(
    spans: &mut Vec<Span>,
    criterion: &C,
    points: &[Point<C::V>],
) -> Result<(), AllocError>
    ensures { OnOk result (spans.new.items ≡ spans_of C.figures points.now) }
{
    spans.clear();
    for point in points {
        spans.push(span_of(criterion, point))?;
    }
    Ok(())
}

fn span_of<C: ShowsFigures>(criterion: &C, point: &Point<C::V>) -> Span
    ensures { result ≡ span_of C.figures point.now }
{
    let figures = criterion.figures_of(&point.value);
    Span {
        departure: point.departure,
        arrival: figures.arrival,
    }
}

// The answers from all stops to a set of targets, and what else is needed to make rows of them.
#[derive(Clone, Copy)]
struct Answered<'a, C: ShowsFigures + Scanned> {
    alloc: Global,
    image: &'a Verified,
    names: NameForm,
    criterion: &'a C,
    profiles: &'a ProfilesToAny<C>,
    /// The stop_ids of the targets.
    to: &'a str,
}

// The row of each pair, with these means.
fn pair_rows_of<C: ShowsFigures + Scanned>(
    alloc: Global,
    table: &NamedTable<'_>,
    criterion: &C,
    profiles: &ProfilesToAny<C>,
    means: &[Option<u64>],
) -> Result<Vec<u8>, AllocError>
    requires same { criterion_to_any profiles.now ≡ criterion.now }
    requires answered { AnswerToAny C.rules C.Kept.value table.now.plain.image.now.timetable profiles.now }
    requires asked { IsAskableBetween table.now.plain.image.now.timetable.stops (asked_to_any profiles.now) }
    requires sources { AreWithin table.now.plain.image.now table.now.plain.sources.now }
    requires means { AllZip (IsMeanFrom C.figures (C.rules criterion.now)
        (printed table.now.plain.names table.now.plain.image.now)
        (waiting (asked_to_any profiles.now)) (asked_to_any profiles.now).from (asked_to_any profiles.now).until)
        table.now.plain.sources.now means.now }
    ensures { IfOk result (λ text. AreRowsTo C.figures (C.rules criterion.now) false
        (printed table.now.plain.names table.now.plain.image.now)
        (asked_to_any profiles.now) table.now.plain.sources.now text.items) }
{
    let to = set_name(
        alloc,
        table.plain.image,
        table.plain.names,
        profiles.targets(),
    )?;
    let answered = Answered {
        alloc,
        image: table.plain.image,
        names: table.plain.names,
        criterion,
        profiles,
        to: to.as_str(),
    };
    let mut rows = Rows::new(alloc);
    let mut spans = Vec::new(alloc);
    for list_index in 0..table.plain.sources.len() {
        let from = table.names[list_index].as_str();
        let mean = mean_at(means, list_index);
        let sources = &table.plain.sources[list_index];
        put_pair_from(&mut rows, &answered, sources, from, mean, &mut spans)?;
    }
    rows.into_text()
}

fn mean_at(means: &[Option<u64>], list_index: usize) -> Option<u64>
    ensures { result ≡ mean_in (slice_get means.now list_index) }
{
    match means.get(list_index) {
        Some(mean) => *mean,
        None => None,
    }
}

// Adds the row of a pair, if no source is a target.
fn put_pair_from<C: ShowsFigures + Scanned>(
    rows: &mut Rows,
    answered: &Answered<'_, C>,
    sources: &[u32],
    from: &str,
    mean: Option<u64>,
    spans: &mut Vec<Span>,
) -> Result<(), AllocError>
    requires whole { AreWhole rows.old }
    requires from { from.now ≡ set_bytes (printed answered.now.names answered.now.image.now).names sources.now }
    requires sources { (stop : ℕ) → Contains sources.now stop → stop < answered.now.image.now.timetable.stops }
    requires same { criterion_to_any answered.now.profiles.now ≡ answered.now.criterion.now }
    requires answered { AnswerToAny C.rules C.Kept.value answered.now.image.now.timetable answered.now.profiles.now }
    requires asked { IsAskableBetween answered.now.image.now.timetable.stops (asked_to_any answered.now.profiles.now) }
    requires to { answered.now.to.now
        ≡ set_bytes (printed answered.now.names answered.now.image.now).names
        (asked_to_any answered.now.profiles.now).targets }
    requires mean { IsMean C.figures (C.rules answered.now.criterion.now)
        (printed answered.now.names answered.now.image.now)
        (from_stops (waiting (asked_to_any answered.now.profiles.now)) sources.now)
        (asked_to_any answered.now.profiles.now).from (asked_to_any answered.now.profiles.now).until mean }
    ensures whole { OnOk result (AreWhole rows.new) }
    ensures added { (before : List (Vec ℕ)) (set : Vec ℕ) → set.items ≡ sources.now
        → AreRowsTo C.figures (C.rules answered.now.criterion.now) false
        (printed answered.now.names answered.now.image.now)
        (asked_to_any answered.now.profiles.now) before (text_of rows.old)
        → OnOk result (AreRowsTo C.figures (C.rules answered.now.criterion.now) false
        (printed answered.now.names answered.now.image.now)
        (asked_to_any answered.now.profiles.now) (before ++ set ∷ []) (text_of rows.new)) }
{
    if meet(sources, answered.profiles.targets()) {
        return Ok(());
    }
    let points = best_points(
        answered.alloc,
        answered.image,
        answered.criterion,
        answered.profiles,
        sources,
    )?;
    put_spans(spans, answered.criterion, points.as_slice())?;
    let pair = Pair {
        from,
        to: answered.to,
        spans,
        mean,
        walk: least_walk(answered.image, answered.profiles, sources),
    };
    put_pair(rows, &pair)
}

// The row of each departure.
fn point_rows<C: ShowsFigures + Scanned>(
    alloc: Global,
    table: &NamedTable<'_>,
    criterion: &C,
    targets: &[u32],
) -> Result<Vec<u8>, AllocError>
    requires { CanBeMade table.now.plain targets.now }
    ensures { IfOk result (λ text. AreRowsTo C.figures (C.rules criterion.now) true
        (printed table.now.plain.names table.now.plain.image.now)
        (destination table.now.plain targets.now) table.now.plain.sources.now text.items) }
{
    let destinations = table.plain.destination(alloc, targets)?;
    let profiles = answers(alloc, &table.plain, criterion, &destinations)?;
    point_rows_of(alloc, table, criterion, &profiles)
}

// The row of each departure, with these answers.
fn point_rows_of<C: ShowsFigures + Scanned>(
    alloc: Global,
    table: &NamedTable<'_>,
    criterion: &C,
    profiles: &ProfilesToAny<C>,
) -> Result<Vec<u8>, AllocError>
    requires same { criterion_to_any profiles.now ≡ criterion.now }
    requires answered { AnswerToAny C.rules C.Kept.value table.now.plain.image.now.timetable profiles.now }
    requires asked { IsAskableBetween table.now.plain.image.now.timetable.stops (asked_to_any profiles.now) }
    requires sources { AreWithin table.now.plain.image.now table.now.plain.sources.now }
    ensures { IfOk result (λ text. AreRowsTo C.figures (C.rules criterion.now) true
        (printed table.now.plain.names table.now.plain.image.now)
        (asked_to_any profiles.now) table.now.plain.sources.now text.items) }
{
    let to = set_name(
        alloc,
        table.plain.image,
        table.plain.names,
        profiles.targets(),
    )?;
    let answered = Answered {
        alloc,
        image: table.plain.image,
        names: table.plain.names,
        criterion,
        profiles,
        to: to.as_str(),
    };
    let mut rows = Rows::new(alloc);
    for list_index in 0..table.plain.sources.len() {
        let from = table.names[list_index].as_str();
        put_points_from(&mut rows, &answered, &table.plain.sources[list_index], from)?;
    }
    rows.into_text()
}

// Adds the row of each departure from a set of sources, if none of them is a target.
fn put_points_from<C: ShowsFigures + Scanned>(
    rows: &mut Rows,
    answered: &Answered<'_, C>,
    sources: &[u32],
    from: &str,
) -> Result<(), AllocError>
    requires whole { AreWhole rows.old }
    requires from { from.now ≡ set_bytes (printed answered.now.names answered.now.image.now).names sources.now }
    requires sources { (stop : ℕ) → Contains sources.now stop → stop < answered.now.image.now.timetable.stops }
    requires same { criterion_to_any answered.now.profiles.now ≡ answered.now.criterion.now }
    requires answered { AnswerToAny C.rules C.Kept.value answered.now.image.now.timetable answered.now.profiles.now }
    requires asked { IsAskableBetween answered.now.image.now.timetable.stops (asked_to_any answered.now.profiles.now) }
    requires to { answered.now.to.now
        ≡ set_bytes (printed answered.now.names answered.now.image.now).names
        (asked_to_any answered.now.profiles.now).targets }
    ensures whole { OnOk result (AreWhole rows.new) }
    ensures added { (before : List (Vec ℕ)) (set : Vec ℕ) → set.items ≡ sources.now
        → AreRowsTo C.figures (C.rules answered.now.criterion.now) true
        (printed answered.now.names answered.now.image.now)
        (asked_to_any answered.now.profiles.now) before (text_of rows.old)
        → OnOk result (AreRowsTo C.figures (C.rules answered.now.criterion.now) true
        (printed answered.now.names answered.now.image.now)
        (asked_to_any answered.now.profiles.now) (before ++ set ∷ []) (text_of rows.new)) }
{
    if meet(sources, answered.profiles.targets()) {
        return Ok(());
    }
    let points = best_points(
        answered.alloc,
        answered.image,
        answered.criterion,
        answered.profiles,
        sources,
    )?;
    put_points(rows, answered, from, points.as_slice())
}

// Adds the row of each of the points from the stops called `from`.
fn put_points<C: ShowsFigures + Scanned>(
    rows: &mut Rows,
    answered: &Answered<'_, C>,
    from: &str,
    points: &[Point<C::V>],
) -> Result<(), AllocError>
    requires { AreWhole rows.old }
    ensures { OnOk result (Adds rows.old rows.new
        (flat_map (point_row C.figures from.now answered.now.to.now) points.now)) }
{
    for point in points {
        let figures = answered.criterion.figures_of(&point.value);
        put_point(rows, from, answered.to, point.departure, figures)?;
    }
    Ok(())
}
