//! The instant from which an image's clocks count.

ghost use Rattle.std.specs.Prelude.{◌≡◌, ◌++◌, List, ℕ, OnOk, string_bytes};
ghost use Rattle.timetable.specs.Clocks.{clock_bytes};
ghost use Rattle.image_facts.specs.Base.{HasBase, HasBaseMembers, IsUtc, base_line, date_text};
ghost use Rattle.image_facts.specs.Base.{moment_text, no_utc_text, sign_text};
ghost use Rattle.image_facts.specs.Base.{utc_day, utc_second, utc_text, year_text};

use crate::putting::put_signed;
use jiff_core::civil::Date;
use std::alloc::AllocError;
use std::fmt::Write as _;
use text_pieces::{Form, put_text, put_two};
use timetable::Clock;

/// The seconds of a day of UTC.
const DAY: i64 = 86400;

/// Adds an instant in seconds after 1970-01-01T00:00:00Z, and as a date and a time of UTC, or `none` if
/// its year isn't one of -9999 to 9999.
pub fn append_base(lines: &mut String, base: i64) -> Result<(), AllocError>
    ensures { OnOk result ((text : List ℕ) × HasBase base text
        × (string_bytes lines.new ≡ string_bytes lines.old ++ text)) }
{
    append_seconds(lines, base)?;
    append_utc(lines, Form::Lines, base)?;
    Ok(())
}

/// Begins an object of JSON with an instant: in seconds after 1970-01-01T00:00:00Z, and as a date and a time of UTC, or
/// null if its year isn't one of -9999 to 9999.
pub fn begin_with_base(json: &mut String, base: i64) -> Result<(), AllocError>
    ensures { OnOk result ((text : List ℕ) × HasBaseMembers base text
        × (string_bytes json.new ≡ string_bytes json.old ++ text)) }
{
    put_signed(json, "{\"base\":", base)?;
    append_utc(json, Form::Json, base)?;
    Ok(())
}

// Adds an instant as a number.
fn append_seconds(lines: &mut String, base: i64) -> Result<(), AllocError>
    ensures { OnOk result (string_bytes lines.new ≡ string_bytes lines.old ++ base_line base) }
{
    put_signed(lines, "base ", base)?;
    put_text(lines, "\n")?;
    Ok(())
}

/// Adds an instant as a date and a time of UTC, or that there is none.
pub fn append_utc(lines: &mut String, form: Form, instant: i64) -> Result<(), AllocError>
    ensures { OnOk result ((text : List ℕ) × IsUtc form instant text
        × (string_bytes lines.new ≡ string_bytes lines.old ++ text)) }
{
    let second = second_of(instant);
    match Date::from_unix_epoch_day(day_of(instant)) {
        Ok(date) => append_date_and_time(lines, form, date, second),
        Err(_range) => append_no_utc(lines, form),
    }
}

fn append_no_utc(lines: &mut String, form: Form) -> Result<(), AllocError>
    ensures { OnOk result (string_bytes lines.new ≡ string_bytes lines.old ++ no_utc_text form) }
{
    match form {
        Form::Lines => put_text(lines, "utc none\n"),
        Form::Json => put_text(lines, ",\"utc\":null"),
    }
}

// The UTC day of an instant. Day 0 is 1970-01-01.
fn day_of(instant: i64) -> i64
    ensures { result ≡ utc_day instant }
{
    instant.div_euclid(DAY)
}

// The seconds from the start of an instant's UTC day to the instant.
fn second_of(instant: i64) -> u32
    ensures { result ≡ utc_second instant }
{
    instant.rem_euclid(DAY) as u32
}

// Adds a date and a time.
fn append_date_and_time(
    lines: &mut String,
    form: Form,
    date: Date,
    second: u32,
) -> Result<(), AllocError>
    ensures { OnOk result (string_bytes lines.new ≡ string_bytes lines.old ++ utc_text form date second) }
{
    match form {
        Form::Lines => append_moment(lines, "utc ", date, second, "Z\n"),
        Form::Json => append_moment(lines, ",\"utc\":\"", date, second, "Z\""),
    }
}

// Adds a date and a time between two texts.
fn append_moment(
    lines: &mut String,
    before: &str,
    date: Date,
    second: u32,
    after: &str,
) -> Result<(), AllocError>
    ensures { OnOk result (string_bytes lines.new
        ≡ string_bytes lines.old ++ moment_text before.now date second after.now) }
{
    put_text(lines, before)?;
    append_date(lines, date)?;
    put_text(lines, "T")?;
    append_clock(lines, second)?;
    put_text(lines, after)?;
    Ok(())
}

fn append_clock(lines: &mut String, second: u32) -> Result<(), AllocError>
    ensures { OnOk result (string_bytes lines.new ≡ string_bytes lines.old ++ clock_bytes second) }
{
    let clock = Clock(second);
    write!(lines, "{clock}")
}

fn append_date(lines: &mut String, date: Date) -> Result<(), AllocError>
    ensures { OnOk result (string_bytes lines.new ≡ string_bytes lines.old ++ date_text date) }
{
    append_year(lines, date.year)?;
    put_text(lines, "-")?;
    put_two(lines, date.month as u64)?;
    put_text(lines, "-")?;
    put_two(lines, date.day as u64)?;
    Ok(())
}

fn append_year(lines: &mut String, year: i16) -> Result<(), AllocError>
    ensures { OnOk result (string_bytes lines.new ≡ string_bytes lines.old ++ year_text year) }
{
    let number = year.unsigned_abs() as u64;
    put_sign(lines, year)?;
    put_two(lines, number / 100)?;
    put_two(lines, number % 100)?;
    Ok(())
}

fn put_sign(lines: &mut String, year: i16) -> Result<(), AllocError>
    ensures { OnOk result (string_bytes lines.new ≡ string_bytes lines.old ++ sign_text year) }
{
    if year < 0 {
        return put_text(lines, "-");
    }
    put_text(lines, "")
}
