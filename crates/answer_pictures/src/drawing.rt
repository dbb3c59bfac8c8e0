//! A picture: its heading, its axis and its lines.

ghost use Rattle.std.specs.Prelude.{◌≡◌, ◌++◌, ℕ, List, Bool, codes, decimal, IfOk, OnOk, length, string_bytes};
ghost use Rattle.std.specs.List.{flat_map};
ghost use Rattle.answer_pictures.specs.Pictures.{AreDrawn, IsPicture, axis_text, grid_text, heading_text};
ghost use Rattle.answer_pictures.specs.Pictures.{remark_text, remark_words, scale_text, shown_title, size_text};
ghost use Rattle.answer_pictures.specs.Pictures.{tick_text, title_text, walk_row, walk_text};
ghost use Rattle.answer_pictures.specs.Style.{style};

use crate::axis::Axis;
use crate::lines::{Heading, JourneyLine};
use crate::moments::{put_moment, shows_seconds};
use crate::parts::{put_group, put_line};
use crate::putting::{put_attribute, put_element, put_number, put_numbers, put_short, put_text};
use crate::style::{legend, style};
use std::alloc::{AllocError, Global};

// The y coordinates of the first times of the axis and of the first line, and how far apart lines are.
const FIRST_SCALE: u64 = 102;

const FIRST_LINE: u64 = 134;

const LINE_HEIGHT: u64 = 48;

// The times of the axis are repeated after this many lines, and take this much room.
const LINES_A_SCALE: usize = 30;

const SCALE_HEIGHT: u64 = 32;

/// The picture of journeys along an axis, as the text of an SVG file: the title, the times at the
/// marks of the axis, a line for the direct walk of `walk` seconds if there is one, a group for each
/// journey in order, and a remark if there is no journey, or if `left` more aren't drawn. The only
/// error is that memory runs out.
pub fn picture(
    alloc: Global,
    heading: &Heading,
    axis: Axis,
    walk: Option<u32>,
    lines: &[JourneyLine],
    left: usize,
) -> Result<String, AllocError>
    ensures { IfOk result (λ text. IsPicture heading.now axis walk lines.now left (string_bytes text)) }
{
    let marks = axis.marks(alloc)?;
    let first = first_line(walk);
    let heights = scale_heights(alloc, first, lines.len())?;
    let bottom = height_of(first, lines.len());
    let exact = shows_seconds(lines);
    let mut out = String::new(alloc);
    put_beginning(
        &mut out,
        bottom.saturating_add(48),
        heading,
        lines.len(),
        left,
    )?;
    put_axis(&mut out, axis, bottom.saturating_sub(16), &marks, &heights)?;
    put_walk(&mut out, axis, FIRST_LINE, walk)?;
    put_lines(&mut out, axis, exact, first, lines)?;
    put_ending(&mut out, bottom.saturating_add(24), lines.len(), left)?;
    Ok(out)
}

/// The y coordinate of the first journey: below the direct walk, if there is one.
fn first_line(walk: Option<u32>) -> u64 {
    match walk {
        None => FIRST_LINE,
        Some(_) => FIRST_LINE + LINE_HEIGHT,
    }
}

/// The y coordinate of a line. After each thirty lines there is room for the times of the axis.
fn height_of(first: u64, index: usize) -> u64 {
    let scales = index / LINES_A_SCALE;
    (index as u64)
        .saturating_mul(LINE_HEIGHT)
        .saturating_add((scales as u64).saturating_mul(SCALE_HEIGHT))
        .saturating_add(first)
}

/// The y coordinates of the times of the axis: above the first line, after each thirty lines if more
/// follow, and below the last.
fn scale_heights(alloc: Global, first: u64, lines: usize) -> Result<Vec<u64>, AllocError> {
    let mut heights = Vec::new(alloc);
    heights.push(FIRST_SCALE)?;
    for scale in 1..lines.saturating_add(LINES_A_SCALE - 1) / LINES_A_SCALE {
        let below = height_of(first, scale.saturating_mul(LINES_A_SCALE));
        heights.push(below.saturating_sub(SCALE_HEIGHT))?;
    }
    heights.push(height_of(first, lines))?;
    Ok(heights)
}

fn put_size(out: &mut String, height: u64) -> Result<(), AllocError>
    ensures { OnOk result (string_bytes out.new ≡ string_bytes out.old ++ size_text height) }
{
    put_text(
        out,
        "<svg xmlns=\"http://www.w3.org/2000/svg\" viewBox=\"0 0 960 ",
    )?;
    put_number(out, height)?;
    put_text(out, "\" width=\"960\"")?;
    put_attribute(out, " height", height)?;
    Ok(())
}

/// Adds the full names and what was asked, for screen readers.
fn put_title(out: &mut String, heading: &Heading) -> Result<(), AllocError>
    ensures { OnOk result (string_bytes out.new ≡ string_bytes out.old ++ title_text heading.now) }
{
    put_element(
        out,
        " role=\"img\" aria-labelledby=\"title about\">\n<title id=\"title\">",
        &heading.from,
        " \u{2192} ",
    )?;
    put_element(out, "", &heading.to, "</title>\n<desc id=\"about\">")?;
    put_element(out, "", &heading.about, ". ")?;
    Ok(())
}

/// Adds the title that is seen: the names, as far as there is room, and what was asked.
fn put_shown_title(out: &mut String, heading: &Heading) -> Result<(), AllocError>
    ensures { OnOk result (string_bytes out.new ≡ string_bytes out.old ++ shown_title heading.now) }
{
    put_short(
        out,
        "<text class=\"title\" x=\"16\" y=\"28\">",
        &heading.from,
        38,
        " \u{2192} ",
    )?;
    put_short(
        out,
        "",
        &heading.to,
        38,
        "</text>\n<text class=\"note\" x=\"16\" y=\"48\">",
    )?;
    put_element(out, "", &heading.about, "</text>\n")?;
    Ok(())
}

fn put_style(out: &mut String) -> Result<(), AllocError>
    ensures { OnOk result
        (string_bytes out.new
        ≡ string_bytes out.old
        ++ (codes "</desc>\n<style>" ++ style ++ codes "</style>\n<rect class=\"paper\" width=\"100%\" height=\"100%\"/>\n")) }
{
    put_text(out, "</desc>\n<style>")?;
    put_text(out, style())?;
    put_text(
        out,
        "</style>\n<rect class=\"paper\" width=\"100%\" height=\"100%\"/>\n",
    )?;
    Ok(())
}

fn put_heading(
    out: &mut String,
    heading: &Heading,
    shown: usize,
    left: usize,
) -> Result<(), AllocError>
    ensures { OnOk result (string_bytes out.new ≡ string_bytes out.old ++ heading_text heading.now shown left) }
{
    put_title(out, heading)?;
    put_remark_words(out, shown, left)?;
    put_style(out)?;
    put_shown_title(out, heading)?;
    put_text(out, legend())?;
    Ok(())
}

fn put_beginning(
    out: &mut String,
    height: u64,
    heading: &Heading,
    shown: usize,
    left: usize,
) -> Result<(), AllocError>
    ensures { OnOk result (string_bytes out.new ≡ string_bytes out.old
        ++ (size_text height ++ heading_text heading.now shown left)) }
{
    put_size(out, height)?;
    put_heading(out, heading, shown, left)?;
    Ok(())
}

fn put_grid(out: &mut String, axis: Axis, bottom: u64, time: u32) -> Result<(), AllocError>
    ensures { OnOk result (string_bytes out.new ≡ string_bytes out.old ++ grid_text axis bottom time) }
{
    put_numbers(
        out,
        "<path class=\"grid\" d=\"M",
        axis.x_at(time),
        " 110V",
        bottom,
        "\"/>\n",
    )
}

fn put_grids(out: &mut String, axis: Axis, bottom: u64, marks: &[u32]) -> Result<(), AllocError>
    ensures { OnOk result (string_bytes out.new ≡ string_bytes out.old ++ flat_map (grid_text axis bottom) marks.now) }
{
    for time in marks {
        put_grid(out, axis, bottom, *time)?;
    }
    Ok(())
}

fn put_tick(out: &mut String, axis: Axis, time: u32) -> Result<(), AllocError>
    ensures { OnOk result (string_bytes out.new ≡ string_bytes out.old ++ tick_text axis time) }
{
    put_text(out, "<text class=\"tick\"")?;
    put_attribute(out, " x", axis.x_at(time))?;
    put_text(out, ">")?;
    put_moment(out, false, time)?;
    put_text(out, "</text>\n")?;
    Ok(())
}

fn put_ticks(out: &mut String, axis: Axis, marks: &[u32]) -> Result<(), AllocError>
    ensures { OnOk result (string_bytes out.new ≡ string_bytes out.old ++ flat_map (tick_text axis) marks.now) }
{
    for time in marks {
        put_tick(out, axis, *time)?;
    }
    Ok(())
}

/// Adds the times of all marks, at a height.
fn put_scale(out: &mut String, axis: Axis, marks: &[u32], y: u64) -> Result<(), AllocError>
    ensures { OnOk result (string_bytes out.new ≡ string_bytes out.old ++ scale_text axis marks.now y) }
{
    put_group(out, y)?;
    put_ticks(out, axis, marks)?;
    put_text(out, "</g>\n")?;
    Ok(())
}

fn put_scales(
    out: &mut String,
    axis: Axis,
    marks: &[u32],
    heights: &[u64],
) -> Result<(), AllocError>
    ensures { OnOk result (string_bytes out.new ≡ string_bytes out.old
        ++ flat_map (scale_text axis marks.now) heights.now) }
{
    for y in heights {
        put_scale(out, axis, marks, *y)?;
    }
    Ok(())
}

fn put_axis(
    out: &mut String,
    axis: Axis,
    bottom: u64,
    marks: &[u32],
    heights: &[u64],
) -> Result<(), AllocError>
    ensures { OnOk result (string_bytes out.new ≡ string_bytes out.old ++ axis_text axis bottom marks.now heights.now) }
{
    put_grids(out, axis, bottom, marks)?;
    put_scales(out, axis, marks, heights)?;
    Ok(())
}

fn put_seconds_on_foot(out: &mut String, secs: u32) -> Result<(), AllocError>
    ensures { OnOk result (string_bytes out.new ≡ string_bytes out.old ++ (decimal secs ++ codes " s</text>\n</g>\n")) }
{
    put_number(out, secs as u64)?;
    put_text(out, " s</text>\n</g>\n")
}

fn put_walk_row(out: &mut String, axis: Axis, y: u64, secs: u32) -> Result<(), AllocError>
    ensures { OnOk result (string_bytes out.new ≡ string_bytes out.old ++ walk_row axis y secs) }
{
    put_group(out, y)?;
    put_text(
        out,
        "<text class=\"time\" x=\"16\" y=\"5\">direct walk</text>\n<path class=\"walk\" d=\"M190 0h",
    )?;
    put_number(
        out,
        axis.length(axis.start, axis.start.saturating_add(secs)),
    )?;
    put_text(
        out,
        "\"/>\n<text class=\"note\" x=\"190\" y=\"22\">on foot all the way, at any time: ",
    )?;
    put_seconds_on_foot(out, secs)?;
    Ok(())
}

fn put_walk(out: &mut String, axis: Axis, y: u64, walk: Option<u32>) -> Result<(), AllocError>
    ensures { OnOk result (string_bytes out.new ≡ string_bytes out.old ++ walk_text axis y walk) }
{
    match walk {
        None => put_text(out, ""),
        Some(secs) => put_walk_row(out, axis, y, secs),
    }
}

/// Adds the journeys one below the other, from a height on.
fn put_lines(
    out: &mut String,
    axis: Axis,
    exact: bool,
    first: u64,
    lines: &[JourneyLine],
) -> Result<(), AllocError>
    ensures { OnOk result ((drawn : List ℕ) × AreDrawn axis exact lines.now drawn
        × (string_bytes out.new ≡ string_bytes out.old ++ drawn)) }
{
    let mut index = 0;
    for line in lines {
        put_line(out, axis, exact, height_of(first, index), line)?;
        index = index.saturating_add(1);
    }
    Ok(())
}

/// Adds that there is no journey, or how many aren't drawn, if either is so.
fn put_remark_words(out: &mut String, shown: usize, left: usize) -> Result<(), AllocError>
    ensures { OnOk result (string_bytes out.new ≡ string_bytes out.old ++ remark_words shown left) }
{
    if left == 0 {
        put_none(out, shown)
    } else {
        put_left(out, left)
    }
}

fn put_left(out: &mut String, left: usize) -> Result<(), AllocError>
    ensures { OnOk result (string_bytes out.new ≡ string_bytes out.old ++ (codes "the first journeys of the window; not drawn: " ++ decimal left)) }
{
    put_text(out, "the first journeys of the window; not drawn: ")?;
    put_number(out, left as u64)?;
    Ok(())
}

fn put_none(out: &mut String, shown: usize) -> Result<(), AllocError>
    ensures { OnOk result (string_bytes out.new ≡ string_bytes out.old ++ remark_words shown 0) }
{
    if shown == 0 {
        put_text(out, "no journey departs in this window and arrives in time")
    } else {
        put_text(out, "")
    }
}

fn put_remark(out: &mut String, y: u64, shown: usize, left: usize) -> Result<(), AllocError>
    ensures { OnOk result (string_bytes out.new ≡ string_bytes out.old ++ remark_text y shown left) }
{
    put_text(out, "<text class=\"remark\" x=\"190\"")?;
    put_attribute(out, " y", y)?;
    put_text(out, ">")?;
    put_remark_words(out, shown, left)?;
    put_text(out, "</text>\n")?;
    Ok(())
}

fn put_ending(out: &mut String, y: u64, shown: usize, left: usize) -> Result<(), AllocError>
    ensures { OnOk result (string_bytes out.new ≡ string_bytes out.old ++ (remark_text y shown left ++ codes "</svg>\n")) }
{
    put_remark(out, y, shown, left)?;
    put_text(out, "</svg>\n")
}
