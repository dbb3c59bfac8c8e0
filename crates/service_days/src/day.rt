//! The start of a day, twelve hours before its noon in a zone, and the day after a day.

ghost use Rattle.std.specs.Prelude.{◌≡◌, IfSome, IfNone, IfOk, IfErr, false, true};
ghost use Rattle.gtfs_rows.specs.Values.{is_civil};
ghost use Rattle.service_days.specs.Days.{day_after as following};
ghost use Rattle.service_days.specs.Services.{civil_weekday, date_number as number_of};
ghost use Rattle.service_days.specs.Zones.{HasNoStart, IsDate, IsDayStart};

use crate::fault::DayFault;
use crate::zone::Zone;
use gtfs_rows::Day;
use jiff::civil::Date;

/// A day, its weekday, from 0 for Monday, if it is a civil date, and its number.
#[derive(Clone, Copy)]
pub struct DatedDay {
    pub(crate) day: Day,
    pub(crate) weekday: Option<usize>,
    pub(crate) number: u32,
}

impl DatedDay {
    ghost use Rattle.std.specs.Prelude.{◌≡◌};
    ghost use Rattle.service_days.specs.Services.{dated};

    /// Returns a day with its weekday and its number, which are determined once for many services.
    pub fn new(day: Day) -> DatedDay
        ensures { result ≡ dated day }
    {
        DatedDay {
            day,
            weekday: weekday_of(day),
            number: date_number(day),
        }
    }
}

// Returns a date as one number, which is compared faster than three: a later date has a greater one.
pub(crate) fn date_number(day: Day) -> u32
    ensures { result ≡ number_of day }
{
    (day.year as u32 * 256 + day.month as u32) * 256 + day.day as u32
}

fn weekday_of(day: Day) -> Option<usize>
    ensures { result ≡ civil_weekday day }
{
    match civil_date(day) {
        Some(date) => Some(date.weekday().to_monday_zero_offset() as usize),
        None => None,
    }
}

/// Returns the instant at which a day starts in a zone, in seconds after 1970-01-01T00:00:00Z: 43,200 seconds
/// before the day's noon. If the zone's clocks show noon twice or never on that day, noon is taken by the offset
/// before the change. `DayOutOfRange` if there is no such day, or its noon has no instant.
pub fn day_start(zone: &Zone, day: Day) -> Result<i64, DayFault>
    ensures ok { IfOk result (IsDayStart zone.now day) }
    ensures err { IfErr result (λ fault. (fault ≡ DayFault.DayOutOfRange) × HasNoStart zone.now day) }
{
    let Some(date) = civil_date(day) else {
        return Err(DayFault::DayOutOfRange);
    };
    match zone.time_zone().to_timestamp(date.at(12, 0, 0, 0)) {
        Ok(noon) => Ok(noon.as_second() - 43_200),
        Err(_) => Err(DayFault::DayOutOfRange),
    }
}

/// Returns the day after a civil day. After 9999-12-31 that is 10000-01-01, which isn't a civil day.
pub fn day_after(day: Day) -> Day
    requires { is_civil day ≡ true }
    ensures { result ≡ following day }
{
    let next = Day {
        year: day.year,
        month: day.month,
        day: day.day + 1,
    };
    if civil_date(next).is_some() {
        return next;
    }
    let first = Day {
        year: day.year,
        month: day.month + 1,
        day: 1,
    };
    if civil_date(first).is_some() {
        return first;
    }
    Day {
        year: day.year + 1,
        month: 1,
        day: 1,
    }
}

/// Returns the day as a date of jiff, if it is a civil date of the years 1 to 9999.
pub fn civil_date(day: Day) -> Option<Date>
    ensures some { IfSome result (λ date. (is_civil day ≡ true) × IsDate day date) }
    ensures none { IfNone result (is_civil day ≡ false) }
{
    if day.year == 0 || day.year > 9999 || day.month > 12 || day.day > 31 {
        return None;
    }
    Date::new(day.year as i16, day.month as i8, day.day as i8).ok()
}
