//! Times in a picture: as the clock shows them on their day, and without seconds if none are needed.

ghost use Rattle.std.specs.Prelude.{◌≡◌, ◌++◌, OnOk, string_bytes};
ghost use Rattle.std.specs.List.{list_all};
ghost use Rattle.answer_pictures.specs.Moments.{days_text, is_line_whole, is_part_whole, is_whole, minute_text};
ghost use Rattle.answer_pictures.specs.Moments.{moment_text, seconds_text, shows_seconds};

use crate::lines::{JourneyLine, Stretch};
use crate::putting::put_text;
use std::alloc::AllocError;
use std::fmt::Write as _;

// The seconds of a day.
const DAY: u32 = 86400;

/// Adds a time: its hours and minutes, its seconds if `exact`, and after the first day how many days later it is.
pub(crate) fn put_moment(out: &mut String, exact: bool, time: u32) -> Result<(), AllocError>
    ensures { OnOk result (string_bytes out.new ≡ string_bytes out.old ++ moment_text exact time) }
{
    put_minute(out, time)?;
    put_seconds(out, exact, time)?;
    put_days(out, time)?;
    Ok(())
}

fn put_minute(out: &mut String, time: u32) -> Result<(), AllocError>
    ensures { OnOk result (string_bytes out.new ≡ string_bytes out.old ++ minute_text time) }
{
    let hours = time / 3600 % 24;
    let minutes = time / 60 % 60;
    write!(out, "{hours:02}:{minutes:02}")
}

fn put_seconds(out: &mut String, exact: bool, time: u32) -> Result<(), AllocError>
    ensures { OnOk result (string_bytes out.new ≡ string_bytes out.old ++ seconds_text exact time) }
{
    let seconds = time % 60;
    if exact {
        write!(out, ":{seconds:02}")
    } else {
        put_text(out, "")
    }
}

fn put_days(out: &mut String, time: u32) -> Result<(), AllocError>
    ensures { OnOk result (string_bytes out.new ≡ string_bytes out.old ++ days_text time) }
{
    let days = time / 86400;
    if time < DAY {
        put_text(out, "")
    } else {
        write!(out, " +{days}")
    }
}

/// Whether some time of the journeys isn't a whole minute, so that seconds have to be shown.
pub(crate) fn shows_seconds(lines: &[JourneyLine]) -> bool
    ensures { result ≡ shows_seconds lines.now }
{
    !are_lines_whole(lines)
}

fn are_lines_whole(lines: &[JourneyLine]) -> bool
    ensures { result ≡ list_all is_line_whole lines.now }
{
    lines.iter().all(|line| is_line_whole(line))
}

fn is_line_whole(line: &JourneyLine) -> bool
    ensures { result ≡ is_line_whole line.now }
{
    is_whole(line.departure) && is_whole(line.arrival) && are_whole(&line.stretches)
}

fn are_whole(stretches: &[Stretch]) -> bool
    ensures { result ≡ list_all is_part_whole stretches.now }
{
    stretches.iter().all(|stretch| is_part_whole(stretch))
}

fn is_part_whole(stretch: &Stretch) -> bool
    ensures { result ≡ is_part_whole stretch.now }
{
    is_whole(stretch.start) && is_whole(stretch.end)
}

/// Whether a time is a whole minute.
fn is_whole(time: u32) -> bool
    ensures { result ≡ is_whole time }
{
    time % 60 == 0
}
