//! How many trips each day has, counted in a sorted list of days with an entry for each trip.

ghost use Rattle.std.specs.Prelude.{◌≡◌, ◌≤◌, ◌<◌, ◌+◌, ◌++◌, ◌∷◌, List, ℕ, IfOk, OnOk, string_bytes};
ghost use Rattle.std.specs.List.Sorted.{IsNonDecreasing};
ghost use Rattle.image_facts.specs.Days.{HasDays, day_line, day_member, day_text};
ghost use Rattle.image_facts.specs.Entries.{is_last_of, rest_text};

use std::alloc::AllocError;
use text_pieces::{Form, put_number, put_text};

/// Adds a line or a member for each day of a sorted list, the earliest first, with the number of its entries.
pub fn append_days(lines: &mut String, form: Form, days: &[u32]) -> Result<(), AllocError>
    requires { IsNonDecreasing days.now }
    ensures { OnOk result ((text : List ℕ) × HasDays form days.now text
        × (string_bytes lines.new ≡ string_bytes lines.old ++ text)) }
{
    append_entries(lines, form, days)?;
    Ok(())
}

// Adds a line or a member for each sequence of equal days in a list, with its length.
fn append_entries(lines: &mut String, form: Form, days: &[u32]) -> Result<(), AllocError>
    ensures { OnOk result (string_bytes lines.new ≡ string_bytes lines.old ++ rest_text form 0 days.now) }
{
    let mut rest = days;
    let mut count = 0;
    while let Some((day, more)) = rest.split_first() {
        count = append_entry(lines, form, count, *day, more)?;
        rest = more;
    }
    Ok(())
}

// Counts one more entry of a day. If it is the last of its sequence, it adds the day's line or member and returns 0,
// else it returns the new count.
fn append_entry(
    lines: &mut String,
    form: Form,
    count: usize,
    day: u32,
    more: &[u32],
) -> Result<usize, AllocError>
    requires { count < usize.MAX }
    ensures lines { IfOk result (λ counted. string_bytes lines.new ++ rest_text form counted more.now
        ≡ string_bytes lines.old ++ rest_text form count (day ∷ more.now)) }
    ensures counted { IfOk result (λ counted. counted ≤ count + 1) }
{
    if is_last(day, more) {
        append_day(lines, form, count + 1, day)?;
        return Ok(0);
    }
    Ok(count + 1)
}

// Whether an entry of a day is the last of its sequence, given the entries after it.
fn is_last(day: u32, more: &[u32]) -> bool
    ensures { result ≡ is_last_of day more.now }
{
    match more.first() {
        None => true,
        Some(next) => *next != day,
    }
}

// Adds the line or the member of a day.
fn append_day(lines: &mut String, form: Form, count: usize, day: u32) -> Result<(), AllocError>
    ensures { OnOk result (string_bytes lines.new ≡ string_bytes lines.old ++ day_text form count day) }
{
    match form {
        Form::Lines => append_day_line(lines, count, day),
        Form::Json => append_day_member(lines, count, day),
    }
}

fn append_day_line(lines: &mut String, count: usize, day: u32) -> Result<(), AllocError>
    ensures { OnOk result (string_bytes lines.new ≡ string_bytes lines.old ++ day_line count day) }
{
    put_number(lines, "trips-", day as u64)?;
    put_number(lines, " ", count as u64)?;
    put_text(lines, "\n")?;
    Ok(())
}

fn append_day_member(lines: &mut String, count: usize, day: u32) -> Result<(), AllocError>
    ensures { OnOk result (string_bytes lines.new ≡ string_bytes lines.old ++ day_member count day) }
{
    put_number(lines, ",\"trips-", day as u64)?;
    put_number(lines, "\":", count as u64)?;
    Ok(())
}
