//! The first and the last day on which a feed has service.

ghost use Rattle.std.specs.Prelude.{◌≡◌, ◌&&◌, ◌||◌, Bool, false, true, IfSome, IfNone};
ghost use Rattle.std.specs.List.{list_any};
ghost use Rattle.gtfs_rows.specs.Values.{is_civil};
ghost use Rattle.gtfs_rows.specs.declared.values.Day.{Day as CivilDay};
ghost use Rattle.service_days.specs.Services.{is_added, is_not_after};
ghost use Rattle.feed_days.specs.Service.{HoldsOfNone, IsFirst, IsLast, SpansDays, give_once, give_weekly};
ghost use Rattle.feed_days.specs.Service.{gives_once, gives_weekly, has_service};

use crate::dates::{FIRST, LAST, day_before, next_day, not_after};
use gtfs_tables::{CalendarDateRow, CalendarRow, Day, Exception, Feed};
use service_days::civil_date;

/// A first and a last day.
#[derive(Clone, Copy, Debug, PartialEq, Eq)]
pub struct DaySpan {
    pub first: Day,
    pub last: Day,
}

/// Returns the first and the last day on which a row of the feed gives service, or none if no row does. A row of
/// `calendar.txt` gives service on its weekdays from its start to its end, a row of `calendar_dates.txt` on the day
/// that it adds. Days that are removed from a service make no difference.
pub fn span_of(feed: &Feed) -> Option<DaySpan>
    ensures { SpansDays (has_service feed.now) result }
{
    joined(
        weekly_span(&feed.calendar),
        added_span(&feed.calendar_dates),
    )
}

// Returns the first and the last day on which any of the rows gives service.
fn weekly_span(rows: &[CalendarRow]) -> Option<DaySpan>
    ensures { SpansDays (give_weekly rows.now) result }
{
    let mut span = None;
    for row in rows {
        span = joined(span, row_span(row));
    }
    span
}

// Returns the first and the last day that any of the rows adds.
fn added_span(rows: &[CalendarDateRow]) -> Option<DaySpan>
    ensures { SpansDays (give_once rows.now) result }
{
    let mut span = None;
    for row in rows {
        span = joined(span, added_day(row));
    }
    span
}

// Returns the span from the first to the last day of two spans.
fn joined(one: Option<DaySpan>, other: Option<DaySpan>) -> Option<DaySpan>
    ensures { (p q : CivilDay → Bool) → SpansDays p one → SpansDays q other → SpansDays (λ d. p d || q d) result }
{
    match (one, other) {
        (None, span) => span,
        (span, None) => span,
        (Some(one), Some(other)) => Some(DaySpan {
            first: earlier(one.first, other.first),
            last: later(one.last, other.last),
        }),
    }
}

// Returns the day that a row adds, as a span, if it adds a civil day.
fn added_day(row: &CalendarDateRow) -> Option<DaySpan>
    ensures { SpansDays (gives_once row.now) result }
{
    if !adds_day(row) {
        return None;
    }
    Some(DaySpan {
        first: row.day,
        last: row.day,
    })
}

// Returns whether a row adds a civil day.
fn adds_day(row: &CalendarDateRow) -> bool
    ensures { result ≡ (is_civil row.now.day && is_added row.now.exception) }
{
    civil_date(row.day).is_some() && matches!(row.exception, Exception::Added)
}

// Returns the first and the last day on which a row gives service.
fn row_span(row: &CalendarRow) -> Option<DaySpan>
    ensures { SpansDays (gives_weekly row.now) result }
{
    if !has_weekday(row) {
        return None;
    }
    let first = first_of(row)?;
    let last = last_of(row)?;
    Some(DaySpan { first, last })
}

// Returns the first day on which a row gives service. If the row has a weekday, that is one of its first seven
// days.
fn first_of(row: &CalendarRow) -> Option<Day>
    ensures some { IfSome result (IsFirst (gives_weekly row.now)) }
    ensures none { IfNone result (HoldsOfNone (gives_weekly row.now)) }
{
    let mut day = civil_or(row.start, FIRST);
    while not_after(day, row.end) {
        if gives(row, day) {
            return Some(day);
        }
        day = next_day(day)?;
    }
    None
}

// Returns the last day on which a row gives service. If the row has a weekday, that is one of its last seven days.
fn last_of(row: &CalendarRow) -> Option<Day>
    ensures some { IfSome result (IsLast (gives_weekly row.now)) }
    ensures none { IfNone result (HoldsOfNone (gives_weekly row.now)) }
{
    let mut day = civil_or(row.end, LAST);
    while not_after(row.start, day) {
        if gives(row, day) {
            return Some(day);
        }
        day = day_before(day)?;
    }
    None
}

// Returns the day if it is civil, as days of tables are, or else the other day.
fn civil_or(day: Day, other: Day) -> Day
    ensures civil { is_civil day ≡ true → result ≡ day }
    ensures other { is_civil day ≡ false → result ≡ other }
{
    if civil_date(day).is_some() {
        return day;
    }
    other
}

// Returns whether a row has a weekday.
fn has_weekday(row: &CalendarRow) -> bool
    ensures { result ≡ list_any (λ flag. flag) row.now.weekdays }
{
    row.weekdays.iter().any(|flag| *flag)
}

// Returns whether a row gives service on a day.
fn gives(row: &CalendarRow, day: Day) -> bool
    ensures { result ≡ gives_weekly row.now day }
{
    let Some(date) = civil_date(day) else {
        return false;
    };
    let weekday = date.weekday().to_monday_zero_offset() as usize;
    row.weekdays[weekday] && not_after(row.start, day) && not_after(day, row.end)
}

fn earlier(a: Day, b: Day) -> Day
    ensures one { is_not_after a b ≡ true → result ≡ a }
    ensures other { is_not_after a b ≡ false → result ≡ b }
{
    if not_after(a, b) { a } else { b }
}

fn later(a: Day, b: Day) -> Day
    ensures one { is_not_after a b ≡ true → result ≡ b }
    ensures other { is_not_after a b ≡ false → result ≡ a }
{
    if not_after(a, b) { b } else { a }
}
