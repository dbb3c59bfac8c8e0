//! The line of a best departure.

ghost use Rattle.std.specs.Prelude.{◌≡◌, ◌++◌, OnOk, string_bytes};
ghost use Rattle.criteria.specs.declared.figures.Figures.{Figures};
ghost use Rattle.departure_lines.specs.Words.{departure_line, number_if_some, numbered_text, point_text, times_text};
ghost use Rattle.departure_lines.specs.Words.{values_text, walk_word};

use criteria::{Figures, ShowsFigures};
use journeys::{Departure, journey_string};
use std::alloc::{AllocError, Global};
use text_pieces::{put_clock, put_number, put_text, put_word};
use timetable::Journey;

/// Adds the line of a best departure, with its journey.
pub fn append_by_numbers<C: ShowsFigures>(
    lines: &mut String,
    alloc: Global,
    criterion: &C,
    departure: &Departure<C::V>,
) -> Result<(), AllocError>
    ensures { OnOk result (string_bytes lines.new ≡ string_bytes lines.old
        ++ departure_line C.figures numbered_text departure.now) }
{
    append_point(
        lines,
        departure.time,
        criterion.figures_of(&departure.value),
    )?;
    append_journey(lines, alloc, &departure.journey)?;
    put_text(lines, "\n")?;
    Ok(())
}

/// Adds what is printed of a point before its journey, with a colon.
pub fn append_point(lines: &mut String, departure: u32, figures: Figures) -> Result<(), AllocError>
    ensures { OnOk result (string_bytes lines.new ≡ string_bytes lines.old ++ point_text departure figures) }
{
    append_values(lines, departure, figures)?;
    put_text(lines, " :")?;
    Ok(())
}

/// Adds the times of a point, and its trips and the seconds walked if the criterion counts them.
pub fn append_values(lines: &mut String, departure: u32, figures: Figures) -> Result<(), AllocError>
    ensures { OnOk result (string_bytes lines.new ≡ string_bytes lines.old ++ values_text departure figures) }
{
    append_times(lines, departure, figures.arrival)?;
    append_number(lines, " trips ", figures.trips)?;
    append_number(lines, " walked ", figures.walked)?;
    Ok(())
}

/// Adds the times of departure and arrival.
pub fn append_times(lines: &mut String, departure: u32, arrival: u32) -> Result<(), AllocError>
    ensures { OnOk result (string_bytes lines.new ≡ string_bytes lines.old ++ times_text departure arrival) }
{
    put_clock(lines, "dep ", departure)?;
    put_clock(lines, " arr ", arrival)?;
    Ok(())
}

/// Adds a word and a number, if there is a number.
pub fn append_number(lines: &mut String, word: &str, number: Option<u32>) -> Result<(), AllocError>
    ensures { OnOk result (string_bytes lines.new ≡ string_bytes lines.old ++ number_if_some word.now number) }
{
    match number {
        None => Ok(()),
        Some(number) => put_number(lines, word, u64::from(number)),
    }
}

fn append_journey(lines: &mut String, alloc: Global, journey: &Journey) -> Result<(), AllocError>
    ensures { OnOk result (string_bytes lines.new ≡ string_bytes lines.old ++ numbered_text journey.now) }
{
    let text = journey_string(alloc, journey)?;
    put_word(lines, text.as_str())
}

/// Adds the seconds of the direct footpath, or that there is none.
pub fn append_direct(lines: &mut String, walk: Option<u32>) -> Result<(), AllocError>
    ensures { OnOk result (string_bytes lines.new ≡ string_bytes lines.old ++ walk_word walk) }
{
    match walk {
        None => put_text(lines, " walk none"),
        Some(seconds) => put_number(lines, " walk ", u64::from(seconds)),
    }
}
