//! The words of a stop's best departures, as `csa departures` prints them.

ghost use Rattle.std.specs.Prelude.{◌≡◌, ◌<◌, ◌++◌, ℕ, List, OnOk, length, map, string_bytes};
ghost use Rattle.std.specs.List.{flat_map};
ghost use Rattle.departure_lines.specs.Lines.{ArePoints, IsLeast, IsSummary, SumsUp, counts_line, journeys_text};
ghost use Rattle.departure_lines.specs.Lines.{line_from, point_line, sum_line, sum_words, summary_text, travel};

use crate::listing::{append_by_numbers, append_direct, append_values};
use crate::stop_json::{append_json, append_json_points, append_sum_json};
use bags::Point;
use criteria::ShowsFigures;
use journeys::Departure;
use std::alloc::{AllocError, Global};
use text_pieces::{Form, put_clock, put_number, put_text};

/// What is added of a stop's departures without journeys.
#[derive(Clone, Copy)]
pub enum PointsForm {
    /// The times of each, and what else the criterion counts.
    Each(Form),
    /// What they come to.
    Summary(Form),
}

/// Adds the departures from the stop called `name`, with their journeys. Only JSON has the seconds of the direct
/// footpath.
pub fn put_journeys<C: ShowsFigures>(
    lines: &mut String,
    alloc: Global,
    criterion: &C,
    form: Form,
    name: &str,
    departures: &[Departure<C::V>],
    walk: Option<u32>,
) -> Result<(), AllocError>
    ensures { OnOk result (string_bytes lines.new ≡ string_bytes lines.old
        ++ journeys_text C.figures form name.now departures.now walk) }
{
    match form {
        Form::Lines => append_lines(lines, alloc, criterion, name, departures),
        Form::Json => append_json(lines, alloc, criterion, name, departures, walk),
    }
}

/// Adds the departures from the stop called `name`, without journeys. Lines of each one don't have the seconds of the
/// direct footpath.
pub fn put_points<C: ShowsFigures>(
    lines: &mut String,
    alloc: Global,
    criterion: &C,
    form: PointsForm,
    name: &str,
    points: &[Point<C::V>],
    walk: Option<u32>,
) -> Result<(), AllocError>
    ensures { OnOk result ((text : List ℕ) × (string_bytes lines.new ≡ string_bytes lines.old ++ text)
        × ArePoints C.figures form name.now points.now walk text) }
{
    match form {
        PointsForm::Each(Form::Lines) => append_points(lines, criterion, name, points),
        PointsForm::Each(Form::Json) => {
            append_json_points(lines, alloc, criterion, name, points, walk)
        }
        PointsForm::Summary(form) => {
            let summary = summary_of(criterion, points, walk);
            append_summary(lines, alloc, form, name, summary)
        }
    }
}

// Adds the line of each departure from the stop called `name`, with its journey.
fn append_lines<C: ShowsFigures>(
    lines: &mut String,
    alloc: Global,
    criterion: &C,
    name: &str,
    departures: &[Departure<C::V>],
) -> Result<(), AllocError>
    ensures { OnOk result (string_bytes lines.new ≡ string_bytes lines.old
        ++ flat_map (line_from C.figures name.now) departures.now) }
{
    for departure in departures {
        append_line(lines, alloc, criterion, name, departure)?;
    }
    Ok(())
}

fn append_line<C: ShowsFigures>(
    lines: &mut String,
    alloc: Global,
    criterion: &C,
    name: &str,
    departure: &Departure<C::V>,
) -> Result<(), AllocError>
    ensures { OnOk result (string_bytes lines.new ≡ string_bytes lines.old
        ++ line_from C.figures name.now departure.now) }
{
    put_text(lines, name)?;
    put_text(lines, " ")?;
    append_by_numbers(lines, alloc, criterion, departure)?;
    Ok(())
}

// Adds the line of each departure, without a journey.
fn append_points<C: ShowsFigures>(
    lines: &mut String,
    criterion: &C,
    name: &str,
    points: &[Point<C::V>],
) -> Result<(), AllocError>
    ensures { OnOk result (string_bytes lines.new ≡ string_bytes lines.old
        ++ flat_map (point_line C.figures name.now) points.now) }
{
    for point in points {
        append_point_line(lines, criterion, name, point)?;
    }
    Ok(())
}

fn append_point_line<C: ShowsFigures>(
    lines: &mut String,
    criterion: &C,
    name: &str,
    point: &Point<C::V>,
) -> Result<(), AllocError>
    ensures { OnOk result (string_bytes lines.new ≡ string_bytes lines.old
        ++ point_line C.figures name.now point.now) }
{
    put_text(lines, name)?;
    put_text(lines, " ")?;
    append_values(lines, point.departure, criterion.figures_of(&point.value))?;
    put_text(lines, "\n")?;
    Ok(())
}

/// What the best departures from a stop come to.
#[derive(Clone, Copy)]
pub struct StopSummary {
    pub points: usize,
    pub first: u32,
    pub last: u32,
    /// The least seconds from a departure to its arrival.
    pub least: u32,
    /// The seconds of the direct footpath, if there is one.
    pub walk: Option<u32>,
}

// What the best departures from a stop come to, if there are any.
fn summary_of<C: ShowsFigures>(
    criterion: &C,
    points: &[Point<C::V>],
    walk: Option<u32>,
) -> Option<StopSummary>
    ensures { SumsUp C.figures points.now walk result }
{
    if points.len() == 0 {
        return None;
    }
    Some(StopSummary {
        points: points.len(),
        first: points[0].departure,
        last: points[points.len() - 1].departure,
        least: least_travel(criterion, points),
        walk,
    })
}

// Adds one line for all departures, or one of JSON, if there are any.
fn append_summary(
    lines: &mut String,
    alloc: Global,
    form: Form,
    name: &str,
    summary: Option<StopSummary>,
) -> Result<(), AllocError>
    ensures { OnOk result (string_bytes lines.new ≡ string_bytes lines.old ++ summary_text form name.now summary) }
{
    let Some(summary) = summary else {
        return Ok(());
    };
    match form {
        Form::Lines => append_sum_line(lines, name, summary),
        Form::Json => append_sum_json(lines, alloc, name, summary),
    }
}

fn append_sum_line(lines: &mut String, name: &str, summary: StopSummary) -> Result<(), AllocError>
    ensures { OnOk result (string_bytes lines.new ≡ string_bytes lines.old ++ sum_line name.now summary) }
{
    append_sum_words(lines, name, summary)?;
    put_number(lines, " least ", u64::from(summary.least))?;
    append_direct(lines, summary.walk)?;
    put_text(lines, "\n")?;
    Ok(())
}

fn append_sum_words(lines: &mut String, name: &str, summary: StopSummary) -> Result<(), AllocError>
    ensures { OnOk result (string_bytes lines.new ≡ string_bytes lines.old ++ sum_words name.now summary) }
{
    put_text(lines, name)?;
    put_number(lines, " points ", summary.points as u64)?;
    put_clock(lines, " first ", summary.first)?;
    put_clock(lines, " last ", summary.last)?;
    Ok(())
}

// The least seconds from a departure to its arrival.
fn least_travel<C: ShowsFigures>(criterion: &C, points: &[Point<C::V>]) -> u32
    requires { 0 < length points.now }
    ensures { IsLeast (map (travel C.figures) points.now) result }
{
    let mut least = seconds_of(criterion, &points[0]);
    for point in points {
        least = least.min(seconds_of(criterion, point));
    }
    least
}

fn seconds_of<C: ShowsFigures>(criterion: &C, point: &Point<C::V>) -> u32
    ensures { result ≡ travel C.figures point.now }
{
    let figures = criterion.figures_of(&point.value);
    figures.arrival.saturating_sub(point.departure)
}

/// Adds the last line.
pub fn append_counts(
    lines: &mut String,
    stops: usize,
    points: usize,
    read: usize,
) -> Result<(), AllocError>
    ensures { OnOk result (string_bytes lines.new ≡ string_bytes lines.old ++ counts_line stops points read) }
{
    put_number(lines, "stops ", stops as u64)?;
    put_number(lines, " points ", points as u64)?;
    put_number(lines, " read ", read as u64)?;
    put_text(lines, "\n")?;
    Ok(())
}
