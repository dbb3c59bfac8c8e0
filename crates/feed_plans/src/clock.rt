//! The calendar day that a zone's clocks show at an instant, and the day before it: the first day of a plan that
//! begins today or yesterday.

ghost use Rattle.std.specs.Prelude.{◌≡◌, ◌≤ℤ◌, IfOk, IfErr, Option, pos, ℤ};
ghost use Rattle.jiff.specs.Types.{DateTime};
ghost use Rattle.jiff.specs.Words.{offset_at, plain_zone};
ghost use Rattle.feed_plans.specs.Shown.{HasNoDay, HasNoDayBefore, IsDayAt, IsDayBefore, IsDayOf, IsShownAt};
ghost use Rattle.feed_plans.specs.Shown.{offset_in, IsOutside};

use gtfs_rows::Day;
use jiff::Timestamp;
use jiff::civil::{Date, DateTime};
use jiff::tz::TimeZone;
use service_days::{DayFault, Zone};
use std::time::{Clock, SystemTime};

/// A clock that shows the instant.
pub trait WallClock {
    // Whether this is what the clock may show when it is read.
    ghost may_show: { Self → Option ℤ → Type 0 } = { λ _ _. Unit {0} };

    /// Returns the instant that the clock shows, in whole seconds after 1970-01-01T00:00:00Z. None if the clock
    /// can't be read or shows an earlier instant.
    fn instant(&self) -> Option<i64>
        ensures { Self.may_show self.now result };
}

impl<C: Clock> WallClock for C {
    // nothing is known about the clock of a machine
    ghost may_show = { λ _ _. Unit {0} };

    fn instant(&self) -> Option<i64> {
        let now = SystemTime::now(self).ok()?;
        let since = now.duration_since(SystemTime::UNIX_EPOCH).ok()?;
        i64::try_from(since.as_secs()).ok()
    }
}

/// Returns the instant that a clock shows, as `WallClock::instant` does.
pub fn instant<C: WallClock>(clock: &C) -> Option<i64>
    ensures { C.may_show clock.now result }
{
    clock.instant()
}

/// Returns the day that the zone's clocks show at an instant, given in seconds after 1970-01-01T00:00:00Z.
/// `DayOutOfRange` if the instant is outside the calendar, or the day is before the year 1.
pub fn today(zone: &Zone, instant: i64) -> Result<Day, DayFault>
    ensures ok { IfOk result (IsDayAt zone.now instant) }
    ensures err { IfErr result (λ fault. (fault ≡ DayFault.DayOutOfRange) × HasNoDay zone.now instant) }
{
    let shown = shown_at(zone, instant)?;
    day_of(shown.date())
}

/// Returns the day before the one that the zone's clocks show at an instant, given in seconds after
/// 1970-01-01T00:00:00Z. `DayOutOfRange` if the instant is outside the calendar, or that day is before the year 1.
pub fn yesterday(zone: &Zone, instant: i64) -> Result<Day, DayFault>
    ensures ok { IfOk result (IsDayBefore zone.now instant) }
    ensures err { IfErr result (λ fault. (fault ≡ DayFault.DayOutOfRange) × HasNoDayBefore zone.now instant) }
{
    let shown = shown_at(zone, instant)?;
    match shown.date().yesterday() {
        Ok(before) => day_of(before),
        Err(_) => Err(DayFault::DayOutOfRange),
    }
}

// Returns what the zone's clocks show at an instant: `DayOutOfRange` if the instant is outside the calendar.
fn shown_at(zone: &Zone, instant: i64) -> Result<DateTime, DayFault>
    ensures ok { IfOk result (IsShownAt zone.now instant) }
    ensures err { IfErr result (λ fault. (fault ≡ DayFault.DayOutOfRange) × IsOutside instant) }
{
    match Timestamp::from_second(instant) {
        Ok(timestamp) => Ok(time_zone(zone).to_datetime(timestamp)),
        Err(_) => Err(DayFault::DayOutOfRange),
    }
}

// Returns the zone as a time zone of jiff.
fn time_zone(zone: &Zone) -> TimeZone<'_>
    ensures { (at : ℤ) → offset_at (plain_zone result) at ≡ offset_in zone.entry.now at }
{
    match zone {
        Zone::Rule(zone) => *zone,
        Zone::Table(table) => TimeZone::tzif(table),
    }
}

// Returns the date as feeds have it: `DayOutOfRange` if it is before the year 1.
fn day_of(date: Date) -> Result<Day, DayFault>
    ensures ok { IfOk result (λ day. IsDayOf day date) }
    ensures err { IfErr result (λ fault. (fault ≡ DayFault.DayOutOfRange) × (date.year ≤ℤ pos 0)) }
{
    let year = date.year();
    if year < 1 {
        return Err(DayFault::DayOutOfRange);
    }
    Ok(Day {
        year: year as u16,
        month: date.month() as u8,
        day: date.day() as u8,
    })
}
