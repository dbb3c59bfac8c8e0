//! The text of a feed's service days.

ghost use Rattle.std.specs.Prelude.{◌≡◌, ◌++◌, [], true, IfOk, OnOk, string_bytes};
ghost use Rattle.std.specs.List.{flat_map};
ghost use Rattle.gtfs_rows.specs.Values.{is_civil};
ghost use Rattle.service_days.specs.Services.{is_not_after};
ghost use Rattle.feed_days.specs.Days.{AreDayLines, IsDaysJson, IsDaysText, day_text, first_text, first_unlisted};
ghost use Rattle.feed_days.specs.Days.{last_text, listed_days, none_text, span_text, trips_line, trips_member};
ghost use Rattle.feed_days.specs.Days.{trips_text, unlisted_text};

use crate::counting::trips_on_days;
use crate::putting::{put_date, put_dated};
use crate::span::{DaySpan, span_of};
use gtfs_tables::{Day, Feed};
use service_days::day_after;
use std::alloc::{AllocError, Global};
use text_pieces::{Form, put_number, put_text};

/// How many days are listed at most.
pub const MAX_LISTED_DAYS: u32 = 366;

/// Returns the lines of a feed's service days: the first and the last day, or `none` for both; then how many trips
/// run on each day from the first on, for at most `MAX_LISTED_DAYS`; and if there are more days up to the last, the
/// first of these. Memory may run out.
pub fn days_text(alloc: Global, feed: &Feed) -> Result<String, AllocError>
    ensures { IfOk result (λ lines. AreDayLines feed.now (string_bytes lines)) }
{
    text_of(alloc, Form::Lines, feed)
}

/// Returns the same as an object of JSON on one line, whose keys are the words of the lines; without service, both days
/// are null. Memory may run out.
pub fn days_json(alloc: Global, feed: &Feed) -> Result<String, AllocError>
    ensures { IfOk result (λ json. IsDaysJson feed.now (string_bytes json)) }
{
    let mut json = text_of(alloc, Form::Json, feed)?;
    put_text(&mut json, "}\n")?;
    Ok(json)
}

// The lines, or the members of the object.
fn text_of(alloc: Global, form: Form, feed: &Feed) -> Result<String, AllocError>
    ensures { IfOk result (λ text. IsDaysText form feed.now (string_bytes text)) }
{
    let mut lines = String::new(alloc);
    match span_of(feed) {
        None => append_none(&mut lines, form)?,
        Some(span) => append_span(&mut lines, alloc, form, feed, span)?,
    }
    Ok(lines)
}

fn append_none(lines: &mut String, form: Form) -> Result<(), AllocError>
    ensures { OnOk result (string_bytes lines.new ≡ string_bytes lines.old ++ none_text form) }
{
    match form {
        Form::Lines => put_text(lines, "first none\nlast none\n"),
        Form::Json => put_text(lines, "{\"first\":null,\"last\":null"),
    }
}

// Adds the text of a feed whose first and last service days are those of the span.
fn append_span(
    lines: &mut String,
    alloc: Global,
    form: Form,
    feed: &Feed,
    span: DaySpan,
) -> Result<(), AllocError>
    requires first { is_civil span.first ≡ true }
    requires last { is_civil span.last ≡ true }
    requires in_order { is_not_after span.first span.last ≡ true }
    ensures { OnOk result (string_bytes lines.new ≡ string_bytes lines.old ++ span_text form feed.now span) }
{
    append_first(lines, form, span.first)?;
    append_last(lines, form, span.last)?;
    let mut days = Vec::new(alloc);
    let unlisted = list_days(&mut days, span)?;
    append_days(lines, alloc, form, feed, &days)?;
    append_unlisted(lines, form, unlisted)?;
    Ok(())
}

fn append_first(lines: &mut String, form: Form, day: Day) -> Result<(), AllocError>
    ensures { OnOk result (string_bytes lines.new ≡ string_bytes lines.old ++ first_text form day) }
{
    match form {
        Form::Lines => put_dated(lines, "first ", day, "\n"),
        Form::Json => put_dated(lines, "{\"first\":\"", day, "\""),
    }
}

fn append_last(lines: &mut String, form: Form, day: Day) -> Result<(), AllocError>
    ensures { OnOk result (string_bytes lines.new ≡ string_bytes lines.old ++ last_text form day) }
{
    match form {
        Form::Lines => put_dated(lines, "last ", day, "\n"),
        Form::Json => put_dated(lines, ",\"last\":\"", day, "\""),
    }
}

// Lists the days, and returns the first one that isn't listed, if there is one.
fn list_days(days: &mut Vec<Day>, span: DaySpan) -> Result<Option<Day>, AllocError>
    requires none { days.old.items ≡ [] }
    requires first { is_civil span.first ≡ true }
    requires last { is_civil span.last ≡ true }
    requires in_order { is_not_after span.first span.last ≡ true }
    ensures days { OnOk result (days.new.items ≡ listed_days span) }
    ensures unlisted { IfOk result (λ day. day ≡ first_unlisted span) }
{
    let mut day = span.first;
    let mut listed = 0;
    while listed < MAX_LISTED_DAYS {
        days.push(day)?;
        if day == span.last {
            return Ok(None);
        }
        day = day_after(day);
        listed += 1;
    }
    Ok(Some(day))
}

// Adds each of the days with its trips.
fn append_days(
    lines: &mut String,
    alloc: Global,
    form: Form,
    feed: &Feed,
    days: &[Day],
) -> Result<(), AllocError>
    ensures { OnOk result (string_bytes lines.new
        ≡ string_bytes lines.old ++ flat_map (day_text form feed.now) days.now) }
{
    let counts = trips_on_days(alloc, feed, days)?;
    for (index, count) in counts.iter().enumerate() {
        append_trips(lines, form, days[index], *count)?;
    }
    Ok(())
}

fn append_trips(lines: &mut String, form: Form, day: Day, trips: usize) -> Result<(), AllocError>
    ensures { OnOk result (string_bytes lines.new ≡ string_bytes lines.old ++ trips_text form day trips) }
{
    match form {
        Form::Lines => append_trips_line(lines, day, trips),
        Form::Json => append_trips_member(lines, day, trips),
    }
}

fn append_trips_line(lines: &mut String, day: Day, trips: usize) -> Result<(), AllocError>
    ensures { OnOk result (string_bytes lines.new ≡ string_bytes lines.old ++ trips_line day trips) }
{
    put_text(lines, "trips-")?;
    put_date(lines, day)?;
    put_number(lines, " ", trips as u64)?;
    put_text(lines, "\n")?;
    Ok(())
}

fn append_trips_member(lines: &mut String, day: Day, trips: usize) -> Result<(), AllocError>
    ensures { OnOk result (string_bytes lines.new ≡ string_bytes lines.old ++ trips_member day trips) }
{
    put_text(lines, ",\"trips-")?;
    put_date(lines, day)?;
    put_number(lines, "\":", trips as u64)?;
    Ok(())
}

// Adds the first day that isn't listed, if there is one.
fn append_unlisted(lines: &mut String, form: Form, day: Option<Day>) -> Result<(), AllocError>
    ensures { OnOk result (string_bytes lines.new ≡ string_bytes lines.old ++ unlisted_text form day) }
{
    let Some(day) = day else {
        return Ok(());
    };
    match form {
        Form::Lines => put_dated(lines, "unlisted ", day, "\n"),
        Form::Json => put_dated(lines, ",\"unlisted\":\"", day, "\""),
    }
}
