//! The day before and the day after a civil day, and the order of days.

ghost use Rattle.std.specs.Prelude.{◌≡◌, ◌≤◌, ◌+◌, true, false, pos, IfSome, IfNone};
ghost use Rattle.std.specs.Int.{IsInRange};
ghost use Rattle.jiff_core.specs.Calendar.{days_in_month};
ghost use Rattle.gtfs_rows.specs.Values.{is_civil};
ghost use Rattle.gtfs_rows.specs.declared.values.Day.{Day as CivilDay};
ghost use Rattle.service_days.specs.Services.{is_not_after};
ghost use Rattle.feed_days.specs.Service.{day_ordinal};

use gtfs_tables::Day;
use jiff_core::civil::days_in_month;
use service_days::day_after;

/// The first day of the calendar.
pub const FIRST: Day = Day {
    year: 1,
    month: 1,
    day: 1,
};

/// The last day of the calendar.
pub const LAST: Day = Day {
    year: 9999,
    month: 12,
    day: 31,
};

// Returns the day after a civil day, unless it is the calendar's last.
pub fn next_day(day: Day) -> Option<Day>
    requires { is_civil day ≡ true }
    ensures some { IfSome result (λ next. (is_civil next ≡ true) × (day_ordinal next ≡ day_ordinal day + 1)) }
    ensures none { IfNone result ((other : CivilDay) → is_civil other ≡ true → day_ordinal other ≤ day_ordinal day) }
{
    if day == LAST {
        return None;
    }
    Some(day_after(day))
}

// Returns the day before a civil day, unless it is the calendar's first.
pub fn day_before(day: Day) -> Option<Day>
    requires { is_civil day ≡ true }
    ensures some { IfSome result (λ before. (is_civil before ≡ true) × (day_ordinal before + 1 ≡ day_ordinal day)) }
    ensures none { IfNone result ((other : CivilDay) → is_civil other ≡ true → day_ordinal day ≤ day_ordinal other) }
{
    if day.day > 1 {
        return Some(Day {
            year: day.year,
            month: day.month,
            day: day.day - 1,
        });
    }
    if day.month > 1 {
        return Some(month_end(day.year, day.month - 1));
    }
    if day.year > 1 {
        return Some(month_end(day.year - 1, 12));
    }
    None
}

// Returns the last day of a month.
fn month_end(year: u16, month: u8) -> Day
    requires year { IsInRange 1 9999 year }
    requires month { IsInRange 1 12 month }
    ensures year { result.year ≡ year }
    ensures month { result.month ≡ month }
    ensures day { result.day ≡ days_in_month (pos result.year) result.month }
{
    Day {
        year,
        month,
        day: days_in_month(year as i16, month),
    }
}

// Returns whether the first day is no later than the second.
pub fn not_after(a: Day, b: Day) -> bool
    ensures { result ≡ is_not_after a b }
{
    if a.year != b.year {
        a.year < b.year
    } else if a.month != b.month {
        a.month < b.month
    } else {
        a.day <= b.day
    }
}
