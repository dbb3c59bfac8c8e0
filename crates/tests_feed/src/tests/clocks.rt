//! The days that clocks show: compared with other calendars, and by a clock that is passed in.

ghost use Rattle.std.specs.Prelude.{◌≡◌};

use super::texts::{Case, Reporter, try_cases, zone_of};
use feed_plans::{instant, today, yesterday};
use gtfs_rows::Day;
use service_days::{DayFault, Zone};
use std::alloc::{AllocError, Global};
use std::fmt::Write;
use std::io;
use std::io::ErrorKind;
use std::process::Abort;
use std::test::Fail;
use std::time::{Clock, Duration};

/// A clock that shows this many seconds after 1970-01-01T00:00:00Z and a fraction of a second, or can't be read.
#[derive(Drop)]
struct Stopped(Option<u64>);

impl Clock for Stopped {
    fn monotonic(&self) -> io::Result<Duration> {
        Ok(Duration::from_secs(0))
    }

    fn since_1970(&self) -> io::Result<Duration> {
        match self.0 {
            Some(seconds) => Ok(Duration::new(seconds, 999_999_999)),
            None => Err(io::Error::from(ErrorKind::Unsupported)),
        }
    }
}

// Zones, and what their clocks show at instants: the day, and the day before it. The days were found with GNU `date`;
// 253402207200 is the last second of the calendar, -62135596800 the first second of the year 1.
const SHOWN: &str = "
= CET-1CEST,M3.5.0,M10.5.0/3
> 1711839599 20240330 20240329
> 1711839600 20240331 20240330
> 1729979999 20241026 20241025
> 1729980000 20241027 20241026
> 1730069999 20241027 20241026
> 1730070000 20241028 20241027
= file
> 1711839599 20240330 20240329
> 1711839600 20240331 20240330
> 1730069999 20241027 20241026
> 1730070000 20241028 20241027
= AAA+12
> 0 19691231 19691230
> 1705276800 20240114 20240113
> 1709251200 20240229 20240228
= fixed:0
> 0 19700101 19691231
> 1705276799 20240114 20240113
> 1705276800 20240115 20240114
> 1709251200 20240301 20240229
> 1704067200 20240101 20231231
> 253402207200 99991230 99991229
> 253402207201 none none
> -62135510400 10102 10101
> -62135596800 10101 none
> -62135596801 none none
> -377705023202 none none
= fixed:86399
> 0 19700101 19691231
> 1 19700102 19700101
> -62135683199 10101 none
= fixed:-86399
> 86398 19691231 19691230
> 86399 19700101 19691231";

// Reads the instant of each line, and adds the days that the zone's clocks show then.
struct Shown;

impl Reporter for Shown {
    fn reported<R: Abort>(&self, _rt: &R, alloc: Global, case: Case<'_>) -> Result<String, Fail> {
        let zone = zone_of(alloc, case.head)?;
        let mut reported = String::new(alloc);
        add_lines(&mut reported, &zone, case.wanted)?;
        Ok(reported)
    }
}

fn add_lines(reported: &mut String, zone: &Zone, lines: &str) -> Result<(), Fail> {
    for line in lines.split("\n> ") {
        let (text, _) = line.split_once(' ').unwrap_or((line, ""));
        if !reported.is_empty() {
            reported.push_str("\n> ")?;
        }
        add_days(reported, zone, text)?;
    }
    Ok(())
}

fn add_days(reported: &mut String, zone: &Zone, text: &str) -> Result<(), Fail> {
    let Ok(instant) = text.parse() else {
        return Err(Fail::new("an instant of a text"));
    };
    reported.push_str(text)?;
    add_day(reported, today(zone, instant))?;
    add_day(reported, yesterday(zone, instant))?;
    Ok(())
}

// Adds a day as one number, or that there is none.
fn add_day(reported: &mut String, day: Result<Day, DayFault>) -> Result<(), AllocError> {
    match day {
        Ok(day) => {
            let Day { year, month, day } = day;
            let number = u32::from(year) * 10_000 + u32::from(month) * 100 + u32::from(day);
            write!(reported, " {number}")
        }
        Err(_) => reported.push_str(" none"),
    }
}

#[test]
fn clocks_show_days_by_their_zones(rt: HostRuntime) -> Result<(), Fail> {
    try_cases(&rt, rt.alloc(), SHOWN, &Shown)
}

#[test]
fn a_clock_is_read(rt: HostRuntime) {
    assert!(&rt; instant(&Stopped(Some(0))) == Some(0));
    assert!(&rt; instant(&Stopped(Some(1_705_276_801))) == Some(1_705_276_801));
    assert!(&rt; instant(&Stopped(Some(u64::MAX))) == None);
    assert!(&rt; instant(&Stopped(None)) == None);
}
