//! The line of a journey in a picture, part by part.

ghost use Rattle.std.specs.Prelude.{◌≡◌, ◌++◌, Bool, codes, decimal, OnOk, string_bytes};
ghost use Rattle.std.specs.List.{flat_map};
ghost use Rattle.answer_pictures.specs.Pictures.{badge_text, between_text, end_at, end_text, group_text, has_room};
ghost use Rattle.answer_pictures.specs.Pictures.{label_text, lead_text, line_text, note_text, shape_text};
ghost use Rattle.answer_pictures.specs.Pictures.{stretch_text, tooltip_text, trip_text, wait_text, way_text};

use crate::axis::Axis;
use crate::escaping::{put_cut, put_words};
use crate::lines::{JourneyLine, Stretch, StretchKind};
use crate::moments::put_moment;
use crate::putting::{put_attribute, put_element, put_number, put_numbers, put_text};
use std::alloc::AllocError;

/// Begins a group at a height.
pub(crate) fn put_group(out: &mut String, y: u64) -> Result<(), AllocError>
    ensures { OnOk result (string_bytes out.new ≡ string_bytes out.old ++ group_text y) }
{
    put_text(out, "<g transform=\"translate(0 ")?;
    put_number(out, y)?;
    put_text(out, ")\">\n")?;
    Ok(())
}

/// How a part's shape begins: a ride is a thick bar, a walk a dashed line, a change a dot.
fn way_text(way: StretchKind) -> &'static str
    ensures { result.now ≡ way_text way }
{
    match way {
        StretchKind::Ride => "<rect class=\"ride\" y=\"-9\" height=\"18\" rx=\"4\" x=\"",
        StretchKind::Walk => "<path class=\"walk\" d=\"M",
        StretchKind::Change => "<path class=\"change\" d=\"M",
    }
}

fn between_text(way: StretchKind) -> &'static str
    ensures { result.now ≡ between_text way }
{
    match way {
        StretchKind::Ride => "\" width=\"",
        StretchKind::Walk => " 0h",
        StretchKind::Change => " 0h",
    }
}

fn end_text(way: StretchKind) -> &'static str
    ensures { result.now ≡ end_text way }
{
    match way {
        StretchKind::Ride => "</title></rect>\n",
        StretchKind::Walk => "</title></path>\n",
        StretchKind::Change => "</title></path>\n",
    }
}

fn put_shape(out: &mut String, axis: Axis, stretch: &Stretch) -> Result<(), AllocError>
    ensures { OnOk result (string_bytes out.new ≡ string_bytes out.old ++ shape_text axis stretch.now) }
{
    put_numbers(
        out,
        way_text(stretch.way),
        axis.x_at(stretch.start),
        between_text(stretch.way),
        axis.length(stretch.start, stretch.end),
        "\"><title>",
    )
}

fn put_lead(out: &mut String, stretch: &Stretch) -> Result<(), AllocError>
    ensures { OnOk result (string_bytes out.new ≡ string_bytes out.old ++ lead_text stretch.now.way stretch.now.trip) }
{
    match stretch.way {
        StretchKind::Ride => put_words(out, &stretch.trip),
        StretchKind::Walk => put_text(out, "on foot"),
        StretchKind::Change => put_text(out, "change"),
    }
}

/// Adds a text, a stop and a time.
fn put_end_at(
    out: &mut String,
    before: &str,
    exact: bool,
    stop: &str,
    time: u32,
) -> Result<(), AllocError>
    ensures { OnOk result (string_bytes out.new ≡ string_bytes out.old ++ end_at before.now exact stop.now time) }
{
    put_element(out, before, stop, " ")?;
    put_moment(out, exact, time)?;
    Ok(())
}

fn put_tooltip(out: &mut String, exact: bool, stretch: &Stretch) -> Result<(), AllocError>
    ensures { OnOk result (string_bytes out.new ≡ string_bytes out.old ++ tooltip_text exact stretch.now) }
{
    put_lead(out, stretch)?;
    put_end_at(out, ": ", exact, &stretch.from, stretch.start)?;
    put_end_at(out, ", ", exact, &stretch.to, stretch.end)?;
    Ok(())
}

/// Whether a trip's name has room on its ride.
fn has_room(axis: Axis, stretch: &Stretch) -> bool
    ensures { result ≡ has_room axis stretch.now }
{
    let letters = stretch.trip.len() as u64;
    letters <= axis.length(stretch.start, stretch.end).saturating_sub(10) / 7
}

fn put_trip(out: &mut String, axis: Axis, stretch: &Stretch) -> Result<(), AllocError>
    ensures { OnOk result (string_bytes out.new ≡ string_bytes out.old ++ trip_text axis stretch.now) }
{
    put_text(out, "<text class=\"trip\" y=\"4\" dx=\"5\"")?;
    put_attribute(out, " x", axis.x_at(stretch.start))?;
    put_element(out, ">", &stretch.trip, "</text>\n")?;
    Ok(())
}

fn put_badge(out: &mut String, axis: Axis, stretch: &Stretch) -> Result<(), AllocError>
    ensures { OnOk result (string_bytes out.new ≡ string_bytes out.old ++ badge_text axis stretch.now) }
{
    if has_room(axis, stretch) {
        put_trip(out, axis, stretch)
    } else {
        put_text(out, "")
    }
}

fn put_end(out: &mut String, way: StretchKind) -> Result<(), AllocError>
    ensures { OnOk result (string_bytes out.new ≡ string_bytes out.old ++ end_text way) }
{
    put_text(out, end_text(way))
}

fn put_stretch(
    out: &mut String,
    axis: Axis,
    exact: bool,
    stretch: &Stretch,
) -> Result<(), AllocError>
    ensures { OnOk result (string_bytes out.new ≡ string_bytes out.old ++ stretch_text axis exact stretch.now) }
{
    put_shape(out, axis, stretch)?;
    put_tooltip(out, exact, stretch)?;
    put_end(out, stretch.way)?;
    put_badge(out, axis, stretch)?;
    Ok(())
}

fn put_stretches(
    out: &mut String,
    axis: Axis,
    exact: bool,
    stretches: &[Stretch],
) -> Result<(), AllocError>
    ensures { OnOk result (string_bytes out.new ≡ string_bytes out.old
        ++ flat_map (stretch_text axis exact) stretches.now) }
{
    for stretch in stretches {
        put_stretch(out, axis, exact, stretch)?;
    }
    Ok(())
}

fn put_label(out: &mut String, exact: bool, line: &JourneyLine) -> Result<(), AllocError>
    ensures { OnOk result (string_bytes out.new ≡ string_bytes out.old ++ label_text exact line.now) }
{
    put_text(out, "<text class=\"time\" x=\"16\" y=\"5\">")?;
    put_moment(out, exact, line.departure)?;
    put_text(out, " \u{2013} ")?;
    put_moment(out, exact, line.arrival)?;
    put_text(out, "</text>\n")?;
    Ok(())
}

fn put_wait(out: &mut String, axis: Axis, line: &JourneyLine) -> Result<(), AllocError>
    ensures { OnOk result (string_bytes out.new ≡ string_bytes out.old ++ wait_text axis line.now) }
{
    put_numbers(
        out,
        "<path class=\"wait\" d=\"M",
        axis.x_at(line.departure),
        " 0H",
        axis.x_at(line.arrival),
        "\"/>\n",
    )
}

fn put_parts(
    out: &mut String,
    axis: Axis,
    exact: bool,
    line: &JourneyLine,
) -> Result<(), AllocError>
    ensures { OnOk result (string_bytes out.new ≡ string_bytes out.old
        ++ flat_map (stretch_text axis exact) line.now.stretches) }
{
    put_stretches(out, axis, exact, &line.stretches)
}

fn put_note(out: &mut String, note: &str) -> Result<(), AllocError>
    ensures { OnOk result (string_bytes out.new ≡ string_bytes out.old ++ note_text note.now) }
{
    put_element(
        out,
        "<svg x=\"190\" y=\"10\" width=\"740\" height=\"20\"><text class=\"note\" y=\"12\"><title>",
        note,
        "</title>",
    )?;
    put_cut(out, note, 120)?;
    put_text(out, "</text></svg>\n</g>\n")?;
    Ok(())
}

fn put_line_note(out: &mut String, line: &JourneyLine) -> Result<(), AllocError>
    ensures { OnOk result (string_bytes out.new ≡ string_bytes out.old ++ note_text line.now.note) }
{
    put_note(out, &line.note)
}

/// Adds the group of a journey at a height.
pub(crate) fn put_line(
    out: &mut String,
    axis: Axis,
    exact: bool,
    y: u64,
    line: &JourneyLine,
) -> Result<(), AllocError>
    ensures { OnOk result (string_bytes out.new ≡ string_bytes out.old ++ line_text axis exact y line.now) }
{
    put_group(out, y)?;
    put_label(out, exact, line)?;
    put_wait(out, axis, line)?;
    put_parts(out, axis, exact, line)?;
    put_line_note(out, line)?;
    Ok(())
}
