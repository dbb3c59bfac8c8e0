//! The lines of an answer.

ghost use Rattle.std.specs.Prelude.{◌≡◌, ◌++◌, IfOk, OnOk, length, string_bytes};
ghost use Rattle.std.specs.List.{flat_map};
ghost use Rattle.departure_lines.specs.Words.{departure_line, numbered_text};
ghost use Rattle.image_files.specs.Naming.{printed};
ghost use Rattle.image_commands.specs.Listing.{end_line, lines_text, named_text};

use crate::naming::append_named;
use criteria::ShowsFigures;
use departure_lines::{append_by_numbers, append_direct, append_point};
use image_files::NameForm;
use image_verifier::Verified;
use journeys::{Answer, Departure};
use std::alloc::{AllocError, Global};
use text_pieces::{put_number, put_text};

/// The lines of an answer, with journeys by the image's numbers.
pub fn numbered_lines<C: ShowsFigures>(
    alloc: Global,
    criterion: &C,
    answer: &Answer<C>,
) -> Result<String, AllocError>
    ensures { IfOk result (λ lines. string_bytes lines
        ≡ lines_text C.figures numbered_text answer.now.departures.items answer.now.read answer.now.walk) }
{
    let mut lines = String::new(alloc);
    append_numbered(&mut lines, alloc, criterion, &answer.departures)?;
    append_end(
        &mut lines,
        answer.departures.len(),
        answer.read,
        answer.walk,
    )?;
    Ok(lines)
}

/// The lines of an answer, with journeys by the image's names, in a form.
pub fn named_lines<C: ShowsFigures>(
    alloc: Global,
    image: &Verified,
    names: NameForm,
    criterion: &C,
    answer: &Answer<C>,
) -> Result<String, AllocError>
    ensures { IfOk result (λ lines. string_bytes lines
        ≡ lines_text C.figures (named_text (printed names image.now)) answer.now.departures.items answer.now.read
        answer.now.walk) }
{
    let mut lines = String::new(alloc);
    append_all_named(
        &mut lines,
        alloc,
        image,
        names,
        criterion,
        &answer.departures,
    )?;
    append_end(
        &mut lines,
        answer.departures.len(),
        answer.read,
        answer.walk,
    )?;
    Ok(lines)
}

fn append_numbered<C: ShowsFigures>(
    lines: &mut String,
    alloc: Global,
    criterion: &C,
    departures: &[Departure<C::V>],
) -> Result<(), AllocError>
    ensures { OnOk result (string_bytes lines.new ≡ string_bytes lines.old
        ++ flat_map (departure_line C.figures numbered_text) departures.now) }
{
    for departure in departures {
        append_by_numbers(lines, alloc, criterion, departure)?;
    }
    Ok(())
}

fn append_all_named<C: ShowsFigures>(
    lines: &mut String,
    alloc: Global,
    image: &Verified,
    names: NameForm,
    criterion: &C,
    departures: &[Departure<C::V>],
) -> Result<(), AllocError>
    ensures { OnOk result (string_bytes lines.new ≡ string_bytes lines.old
        ++ flat_map (departure_line C.figures (named_text (printed names image.now))) departures.now) }
{
    for departure in departures {
        append_by_names(lines, alloc, image, names, criterion, departure)?;
    }
    Ok(())
}

fn append_by_names<C: ShowsFigures>(
    lines: &mut String,
    alloc: Global,
    image: &Verified,
    names: NameForm,
    criterion: &C,
    departure: &Departure<C::V>,
) -> Result<(), AllocError>
    ensures { OnOk result (string_bytes lines.new ≡ string_bytes lines.old
        ++ departure_line C.figures (named_text (printed names image.now)) departure.now) }
{
    append_point(
        lines,
        departure.time,
        criterion.figures_of(&departure.value),
    )?;
    append_named(lines, alloc, image, names, &departure.journey)?;
    put_text(lines, "\n")?;
    Ok(())
}

/// Adds the last line: how many departures there are, how many connections were read, and the direct footpath.
fn append_end(
    lines: &mut String,
    points: usize,
    read: usize,
    walk: Option<u32>,
) -> Result<(), AllocError>
    ensures { OnOk result (string_bytes lines.new ≡ string_bytes lines.old ++ end_line points read walk) }
{
    put_number(lines, "points ", points as u64)?;
    put_number(lines, " read ", read as u64)?;
    append_direct(lines, walk)?;
    put_text(lines, "\n")?;
    Ok(())
}
