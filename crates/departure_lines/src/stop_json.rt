//! A stop's best departures as JSON.

ghost use Rattle.std.specs.Prelude.{◌≡◌, ◌++◌, OnOk, map, string_bytes};
ghost use Rattle.text_pieces.specs.Json.{with_commas};
ghost use Rattle.departure_lines.specs.Json.{counts_json, counts_json_line, journey_json, journey_member};
ghost use Rattle.departure_lines.specs.Json.{json_head, json_if_some, json_tail, point_json, sum_head, sum_json};
ghost use Rattle.departure_lines.specs.Json.{times_json, walk_json};

use crate::listing::append_number;
use crate::stop_words::StopSummary;
use bags::Point;
use criteria::{Figures, ShowsFigures};
use journeys::{Departure, journey_string};
use std::alloc::{AllocError, Global};
use text_pieces::{put_clock, put_comma, put_number, put_quoted, put_text};

/// Adds the line of the stop called `name`, if it has departures, with their journeys and the seconds of the
/// direct footpath.
pub fn append_json<C: ShowsFigures>(
    lines: &mut String,
    alloc: Global,
    criterion: &C,
    name: &str,
    departures: &[Departure<C::V>],
    walk: Option<u32>,
) -> Result<(), AllocError>
    ensures { OnOk result (string_bytes lines.new ≡ string_bytes lines.old
        ++ json_if_some name.now (map (journey_json C.figures) departures.now) walk) }
{
    if departures.len() == 0 {
        return Ok(());
    }
    append_head(lines, alloc, name)?;
    append_journeys(lines, alloc, criterion, departures)?;
    append_tail(lines, walk)?;
    Ok(())
}

/// Adds the same line without journeys.
pub fn append_json_points<C: ShowsFigures>(
    lines: &mut String,
    alloc: Global,
    criterion: &C,
    name: &str,
    points: &[Point<C::V>],
    walk: Option<u32>,
) -> Result<(), AllocError>
    ensures { OnOk result (string_bytes lines.new ≡ string_bytes lines.old
        ++ json_if_some name.now (map (point_json C.figures) points.now) walk) }
{
    if points.len() == 0 {
        return Ok(());
    }
    append_head(lines, alloc, name)?;
    append_points(lines, criterion, points)?;
    append_tail(lines, walk)?;
    Ok(())
}

/// Adds the line of the stop called `name` with what its departures come to.
pub fn append_sum_json(
    lines: &mut String,
    alloc: Global,
    name: &str,
    summary: StopSummary,
) -> Result<(), AllocError>
    ensures { OnOk result (string_bytes lines.new ≡ string_bytes lines.old ++ sum_json name.now summary) }
{
    append_sum_head(lines, alloc, name, summary)?;
    put_number(lines, "\",\"least\":", u64::from(summary.least))?;
    put_number(lines, ",\"points\":", summary.points as u64)?;
    append_walk(lines, summary.walk)?;
    put_text(lines, "}\n")?;
    Ok(())
}

fn append_sum_head(
    lines: &mut String,
    alloc: Global,
    name: &str,
    summary: StopSummary,
) -> Result<(), AllocError>
    ensures { OnOk result (string_bytes lines.new ≡ string_bytes lines.old ++ sum_head name.now summary) }
{
    put_clock(lines, "{\"first\":\"", summary.first)?;
    put_quoted(lines, alloc, "\",\"from\":", name)?;
    put_clock(lines, ",\"last\":\"", summary.last)?;
    Ok(())
}

// Adds what comes before the points.
fn append_head(lines: &mut String, alloc: Global, name: &str) -> Result<(), AllocError>
    ensures { OnOk result (string_bytes lines.new ≡ string_bytes lines.old ++ json_head name.now) }
{
    put_quoted(lines, alloc, "{\"from\":", name)?;
    put_text(lines, ",\"points\":[")?;
    Ok(())
}

// Adds what comes after the points.
fn append_tail(lines: &mut String, walk: Option<u32>) -> Result<(), AllocError>
    ensures { OnOk result (string_bytes lines.new ≡ string_bytes lines.old ++ json_tail walk) }
{
    put_text(lines, "]")?;
    append_walk(lines, walk)?;
    put_text(lines, "}\n")?;
    Ok(())
}

fn append_walk(lines: &mut String, walk: Option<u32>) -> Result<(), AllocError>
    ensures { OnOk result (string_bytes lines.new ≡ string_bytes lines.old ++ walk_json walk) }
{
    match walk {
        None => put_text(lines, ",\"walk\":null"),
        Some(seconds) => put_number(lines, ",\"walk\":", u64::from(seconds)),
    }
}

fn append_journeys<C: ShowsFigures>(
    lines: &mut String,
    alloc: Global,
    criterion: &C,
    departures: &[Departure<C::V>],
) -> Result<(), AllocError>
    ensures { OnOk result (string_bytes lines.new ≡ string_bytes lines.old
        ++ with_commas (map (journey_json C.figures) departures.now)) }
{
    for index in 0..departures.len() {
        put_comma(lines, index)?;
        append_journey(lines, alloc, criterion, &departures[index])?;
    }
    Ok(())
}

fn append_points<C: ShowsFigures>(
    lines: &mut String,
    criterion: &C,
    points: &[Point<C::V>],
) -> Result<(), AllocError>
    ensures { OnOk result (string_bytes lines.new ≡ string_bytes lines.old
        ++ with_commas (map (point_json C.figures) points.now)) }
{
    for index in 0..points.len() {
        put_comma(lines, index)?;
        append_point(lines, criterion, &points[index])?;
    }
    Ok(())
}

fn append_journey<C: ShowsFigures>(
    lines: &mut String,
    alloc: Global,
    criterion: &C,
    departure: &Departure<C::V>,
) -> Result<(), AllocError>
    ensures { OnOk result (string_bytes lines.new ≡ string_bytes lines.old ++ journey_json C.figures departure.now) }
{
    let figures = criterion.figures_of(&departure.value);
    let journey = journey_string(alloc, &departure.journey)?;
    append_times(lines, departure.time, figures.arrival)?;
    append_member(lines, journey.as_str())?;
    append_counts(lines, figures)?;
    Ok(())
}

// Adds a journey's text, which has nothing that JSON escapes.
fn append_member(lines: &mut String, journey: &str) -> Result<(), AllocError>
    ensures { OnOk result (string_bytes lines.new ≡ string_bytes lines.old ++ journey_member journey.now) }
{
    put_text(lines, ",\"journey\":\"")?;
    put_text(lines, journey)?;
    put_text(lines, "\"")?;
    Ok(())
}

fn append_point<C: ShowsFigures>(
    lines: &mut String,
    criterion: &C,
    point: &Point<C::V>,
) -> Result<(), AllocError>
    ensures { OnOk result (string_bytes lines.new ≡ string_bytes lines.old ++ point_json C.figures point.now) }
{
    let figures = criterion.figures_of(&point.value);
    append_times(lines, point.departure, figures.arrival)?;
    append_counts(lines, figures)?;
    Ok(())
}

fn append_times(lines: &mut String, departure: u32, arrival: u32) -> Result<(), AllocError>
    ensures { OnOk result (string_bytes lines.new ≡ string_bytes lines.old ++ times_json departure arrival) }
{
    put_clock(lines, "{\"arr\":\"", arrival)?;
    put_clock(lines, "\",\"dep\":\"", departure)?;
    put_text(lines, "\"")?;
    Ok(())
}

fn append_counts(lines: &mut String, figures: Figures) -> Result<(), AllocError>
    ensures { OnOk result (string_bytes lines.new ≡ string_bytes lines.old ++ counts_json figures) }
{
    append_number(lines, ",\"trips\":", figures.trips)?;
    append_number(lines, ",\"walked\":", figures.walked)?;
    put_text(lines, "}")?;
    Ok(())
}

/// Adds the last line.
pub fn append_json_counts(
    lines: &mut String,
    stops: usize,
    points: usize,
    read: usize,
) -> Result<(), AllocError>
    ensures { OnOk result (string_bytes lines.new ≡ string_bytes lines.old ++ counts_json_line stops points read) }
{
    put_number(lines, "{\"points\":", points as u64)?;
    put_number(lines, ",\"read\":", read as u64)?;
    put_number(lines, ",\"stops\":", stops as u64)?;
    put_text(lines, "}\n")?;
    Ok(())
}
