//! The picture of an answer, as an SVG file.

ghost use Rattle.std.specs.Prelude.{◌≡◌, ◌-◌, ◌++◌, IfOk, OnOk, length, take, string_bytes};
ghost use Rattle.std.specs.List.{AllZip};
ghost use Rattle.scan_state.specs.SetQuery.{question};
ghost use Rattle.image_commands.specs.Picturing.{IsDrawn, IsDrawnAs, IsHeadingBetween, IsPictureOf};
ghost use Rattle.image_commands.specs.Picturing.{first_stop, others_text};

use answer_pictures::{Axis, Heading, JourneyLine, heading_of, journey_line, picture};
use command_requests::ProfileRequest;
use criteria::{CriterionName, ShowsFigures};
use image_verifier::Verified;
use journeys::{Answer, Departure};
use profile_scan::SetQuery;
use std::alloc::{AllocError, Global};
use text_pieces::{put_number, put_text};
use timetable::Query;

/// The picture of an answer, if one is asked for.
pub fn picture_asked<C: ShowsFigures>(
    alloc: Global,
    image: &Verified,
    criterion: &C,
    request: &ProfileRequest<'_>,
    query: &SetQuery,
    answer: &Answer<C>,
) -> Result<Option<String>, AllocError>
    ensures { IfOk result (IsDrawn C.figures image.now request.now (question query.now)
        answer.now.departures.items answer.now.walk) }
{
    match request.picture {
        Some(_) => {
            let text = picture_text(alloc, image, criterion, request, query, answer)?;
            Ok(Some(text))
        }
        None => Ok(None),
    }
}

/// The picture of an answer, with as many of its departures as are asked for, the first ones.
fn picture_text<C: ShowsFigures>(
    alloc: Global,
    image: &Verified,
    criterion: &C,
    request: &ProfileRequest<'_>,
    query: &SetQuery,
    answer: &Answer<C>,
) -> Result<String, AllocError>
    ensures { IfOk result (λ text. IsPictureOf C.figures image.now request.now.criterion request.now.rows.number
        (question query.now) answer.now.departures.items answer.now.walk (string_bytes text)) }
{
    let rows = request.rows.number;
    let heading = heading_between(alloc, image, query, request.criterion)?;
    let drawn = first_of(&answer.departures, rows);
    let lines = lines_of(alloc, image, criterion, drawn)?;
    let axis = Axis::of_lines(&lines, query.from, query.until);
    let left = left_of(&answer.departures, rows);
    let text = picture(alloc, &heading, axis, answer.walk, &lines, left)?;
    Ok(text)
}

/// What is above the picture of a question between several stops: on each side the first stop, and how many more there
/// are.
fn heading_between(
    alloc: Global,
    image: &Verified,
    query: &SetQuery,
    criterion: CriterionName,
) -> Result<Heading, AllocError>
    ensures { IfOk result (IsHeadingBetween image.now.names criterion (question query.now)) }
{
    let first = Query {
        source: first_stop(&query.sources),
        target: first_stop(&query.targets),
        from: query.from,
        until: query.until,
        by: query.by,
    };
    let mut heading = heading_of(alloc, image, &first, criterion)?;
    put_others(&mut heading.from, query.sources.len())?;
    put_others(&mut heading.to, query.targets.len())?;
    Ok(heading)
}

/// The first of at least one stop.
fn first_stop(stops: &[u32]) -> u32
    ensures { result ≡ first_stop stops.now }
{
    match stops {
        [] => 0,
        [stop, ..] => *stop,
    }
}

/// Adds how many stops there are beside the first.
fn put_others(out: &mut String, stops: usize) -> Result<(), AllocError>
    ensures { OnOk result (string_bytes out.new ≡ string_bytes out.old ++ others_text stops) }
{
    if stops < 2 {
        return Ok(());
    }
    put_number(out, " and ", stops.saturating_sub(1) as u64)?;
    put_text(out, " more")
}

/// The departures that are drawn: the first `rows`, or all if there are fewer.
fn first_of<V>(departures: &[Departure<V>], rows: usize) -> &[Departure<V>]
    ensures { result.now ≡ take rows departures.now }
{
    if departures.len() <= rows {
        departures
    } else {
        &departures[..rows]
    }
}

/// How many departures aren't drawn.
fn left_of<V>(departures: &[Departure<V>], rows: usize) -> usize
    ensures { result ≡ length departures.now - rows }
{
    departures.len().saturating_sub(rows)
}

/// A line for each departure.
fn lines_of<C: ShowsFigures>(
    alloc: Global,
    image: &Verified,
    criterion: &C,
    departures: &[Departure<C::V>],
) -> Result<Vec<JourneyLine>, AllocError>
    ensures { IfOk result (λ lines. AllZip (IsDrawnAs C.figures image.now) departures.now lines.items) }
{
    let mut lines = Vec::with_capacity(alloc, departures.len())?;
    for departure in departures {
        let line = line_of(alloc, image, criterion, departure)?;
        lines.push(line)?;
    }
    Ok(lines)
}

fn line_of<C: ShowsFigures>(
    alloc: Global,
    image: &Verified,
    criterion: &C,
    departure: &Departure<C::V>,
) -> Result<JourneyLine, AllocError>
    ensures { IfOk result (IsDrawnAs C.figures image.now departure.now) }
{
    let figures = criterion.figures_of(&departure.value);
    journey_line(alloc, image, departure.time, figures, &departure.journey)
}
