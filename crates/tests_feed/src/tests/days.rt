//! Day starts, compared with other calendars; which services run on a day; and what is refused.

ghost use Rattle.std.specs.Prelude.{◌≡◌};

use super::texts::{CENTRAL_EUROPE, Case, Reporter, day, file_of, try_cases, zone_of};
use gtfs_rows::{CalendarDateRow, CalendarRow, Day, Exception, FaultKind, IdHash, TableFault};
use gtfs_tables::read_calendar;
use service_days::{DayFault, Services, Zone, active, day_after, day_start};
use std::alloc::{AllocError, Global};
use std::fmt::Write;
use std::process::Abort;
use std::test::Fail;

fn add_line(reported: &mut String) -> Result<(), AllocError> {
    if reported.is_empty() {
        Ok(())
    } else {
        reported.push_str("\n> ")
    }
}

// Zones, with days and the seconds at which they start there. 08:00:00 of the first day of summer time is 1711864800,
// and the day starts eight hours before that. In the second zone the clocks skip noon in March, and show it twice in
// October.
const STARTS: &str = "
= CET-1CEST,M3.5.0,M10.5.0/3
> 20240330 1711753200
> 20240331 1711836000
> 20240401 1711922400
> 20241026 1729893600
> 20241027 1729983600
> 20241028 1730070000
= AAA-1BBB,M3.5.0/11:30,M10.5.0/12:30
> 20240331 1711839600
> 20241027 1729980000
= fixed:0
> 00010101 -62135596800
> 20240115 1705276800
> 99991230 253402128000
= fixed:86399
> 20240115 1705190401
> 99991231 253402128001
= fixed:-86399
> 20240115 1705363199
= file
> 20230701 1688166000
> 20240330 1711753200
> 20240331 1711836000
> 20241027 1729983600
> 20241201 1733007600";

// Reads the day of each line, and tells the second at which it starts in the zone that the head names.
struct Starts;

impl Reporter for Starts {
    fn reported<R: Abort>(&self, _rt: &R, alloc: Global, case: Case<'_>) -> Result<String, Fail> {
        let zone = zone_of(alloc, case.head)?;
        let mut reported = String::new(alloc);
        add_starts(&mut reported, &zone, case.wanted)?;
        Ok(reported)
    }
}

fn add_starts(reported: &mut String, zone: &Zone, lines: &str) -> Result<(), Fail> {
    for line in lines.split("\n> ") {
        let (text, _) = line.split_once(' ').unwrap_or((line, ""));
        let start = day_start(zone, day(text)?)?;
        add_line(reported)?;
        write!(reported, "{text} {start}")?;
    }
    Ok(())
}

#[test]
fn days_start_by_their_zones(rt: HostRuntime) -> Result<(), Fail> {
    try_cases(&rt, rt.alloc(), STARTS, &Starts)
}

#[test]
fn refused_zones(rt: HostRuntime) {
    let files: [&[u8]; 3] = [b"", b"TZif2", &CENTRAL_EUROPE[..152]];
    for bytes in files {
        let answer = Zone::file_bytes(rt.alloc(), bytes);
        assert!(rt; matches!(answer, Err(DayFault::BadZone)));
    }
    for text in ["", "CET", "CET-1CEST", "CE-1", "CET-1 ", "Europe/Vienna"] {
        assert!(rt; matches!(Zone::posix(text), Err(DayFault::BadZone)));
    }
}

#[test]
fn refused_days(rt: HostRuntime) {
    let zone = Zone::fixed(0);
    for (year, month, day) in [
        (9999, 12, 31),
        (0, 1, 1),
        (10_000, 1, 1),
        (2024, 0, 1),
        (2024, 13, 1),
        (2024, 2, 30),
        (2023, 2, 29),
        (2024, 1, 0),
        (65_535, 255, 255),
    ] {
        assert!(rt; day_start(&zone, Day { year, month, day }) == Err(DayFault::DayOutOfRange));
    }
}

const fn civil(year: u16, month: u8, day: u8) -> Day
    ensures { result ≡ record { year = year; month = month; day = day } }
{
    Day { year, month, day }
}

#[test]
fn days_in_a_row(rt: HostRuntime) {
    assert!(rt; day_after(civil(2024, 1, 30)) == civil(2024, 1, 31));
    assert!(rt; day_after(civil(2024, 2, 28)) == civil(2024, 2, 29));
    assert!(rt; day_after(civil(2023, 2, 28)) == civil(2023, 3, 1));
    assert!(rt; day_after(civil(2024, 12, 31)) == civil(2025, 1, 1));
    assert!(rt; day_after(civil(9999, 12, 31)) == civil(10_000, 1, 1));
}

#[test]
fn numbers(rt: HostRuntime) {
    assert!(rt; DayFault::BadZone.number() == 21);
    assert!(rt; DayFault::DayOutOfRange.number() == 22);
    assert!(rt; DayFault::OutOfMemory.number() == 23);
}

// Services by weekdays, and by days that are added and removed; and the days on which they run. 2024-01-15 is a Monday.
const SERVICES: &str = "
= dates alone
calendar.txt service_id,monday,tuesday,wednesday,thursday,friday,saturday,sunday,start_date,end_date
X +20240115, X -20240116
> X 20240115 20240116: true false
> Y 20240115 20240116: false false
= both files
calendar.txt: weekend,0,0,0,0,0,1,1,20240110,20240220|wednesday,0,0,1,0,0,0,0,20240110,20240220
weekend +20240117, wednesday -20240117, weekend -20240203, weekend -20240204, weekend +20240204, weekend +20240221
> weekend 20240112: false
> weekend 20240113: true
> weekend 20240114: true
> weekend 20240115: false
> weekend 20240116: false
> weekend 20240117: true
> weekend 20240118: false
> weekend 20240119: false
> weekend 20240120: true
> weekend 20240203: false
> weekend 20240204: false
> weekend 20240218: true
> weekend 20240221: true
> weekend 20240224: false
> weekend 20230218: false
> wednesday 20240103: false
> wednesday 20240110: true
> wednesday 20240117: false
> wednesday 20240124: true
> wednesday 20240125: false
> wednesday 20240214: true
> wednesday 20240221: false
>  20240110: false
= each weekday
calendar.txt: monday,1,0,0,0,0,0,0,20240110,20240220|tuesday,0,1,0,0,0,0,0,20240110,20240220|wednesday,0,0,1,0,0,0,0,20240110,20240220|\
    thursday,0,0,0,1,0,0,0,20240110,20240220|friday,0,0,0,0,1,0,0,20240110,20240220|saturday,0,0,0,0,0,1,0,20240110,20240220|\
    sunday,0,0,0,0,0,0,1,20240110,20240220
none
> monday 20240212 20240213 20240214 20240215 20240216 20240217 20240218: true false false false false false false
> tuesday 20240212 20240213 20240214 20240215 20240216 20240217 20240218: false true false false false false false
> wednesday 20240212 20240213 20240214 20240215 20240216 20240217 20240218: false false true false false false false
> thursday 20240212 20240213 20240214 20240215 20240216 20240217 20240218: false false false true false false false
> friday 20240212 20240213 20240214 20240215 20240216 20240217 20240218: false false false false true false false
> saturday 20240212 20240213 20240214 20240215 20240216 20240217 20240218: false false false false false true false
> sunday 20240212 20240213 20240214 20240215 20240216 20240217 20240218: false false false false false false true";

// The rows, or that memory ran out.
fn read(answer: Result<Vec<CalendarRow>, TableFault>) -> Result<Vec<CalendarRow>, Fail> {
    match answer {
        Ok(rows) => Ok(rows),
        Err(fault) if fault.kind == FaultKind::OutOfMemory => Err(AllocError.into()),
        Err(_) => Err(Fail::new("a file of services")),
    }
}

// A day that is added to a service, as `X +20240115`, or removed from it, as `X -20240115`.
fn date_of(alloc: Global, text: &str) -> Result<CalendarDateRow, Fail> {
    let (service, change) = text.split_once(' ').unwrap_or((text, ""));
    let (exception, date) = match change.strip_prefix('+') {
        Some(date) => (Exception::Added, date),
        None => (Exception::Removed, change.strip_prefix('-').unwrap_or("")),
    };
    let day = day(date)?;
    let service = String::from_str(alloc, service)?;
    Ok(CalendarDateRow {
        service,
        day,
        exception,
    })
}

fn dates_of(alloc: Global, text: &str) -> Result<Vec<CalendarDateRow>, Fail> {
    let mut dates = Vec::new(alloc);
    if text != "none" {
        for date in text.split(", ") {
            dates.push(date_of(alloc, date)?)?;
        }
    }
    Ok(dates)
}

// The services of a calendar file in the first line, and of added and removed days in the second.
fn services_of(alloc: Global, lines: &str) -> Result<Services, Fail> {
    let (weeks, dates) = lines.split_once('\n').unwrap_or((lines, "none"));
    let (_, weeks) = file_of(alloc, weeks)?;
    let rows = read(read_calendar(alloc, weeks.as_bytes()))?;
    let dates = dates_of(alloc, dates)?;
    Ok(Services::new(alloc, IdHash::of_key(1), &rows, &dates)?)
}

// Adds whether a service runs on each of some days, each answer after a space.
fn add_answers(
    reported: &mut String,
    services: &Services,
    service: &str,
    days: &str,
) -> Result<(), Fail> {
    for text in days.split(' ') {
        let runs = active(services, service, day(text)?);
        write!(reported, " {runs}")?;
    }
    Ok(())
}

// Adds the services and the days of the lines, with whether each service runs on them.
fn add_runs(reported: &mut String, services: &Services, lines: &str) -> Result<(), Fail> {
    for line in lines.split("\n> ") {
        let (asked, _) = line.split_once(": ").unwrap_or((line, ""));
        let (service, days) = asked.split_once(' ').unwrap_or((asked, ""));
        add_line(reported)?;
        write!(reported, "{asked}:")?;
        add_answers(reported, services, service, days)?;
    }
    Ok(())
}

// Reads the service and the days of each line, and tells whether it runs on them.
struct Runs;

impl Reporter for Runs {
    fn reported<R: Abort>(&self, _rt: &R, alloc: Global, case: Case<'_>) -> Result<String, Fail> {
        let services = services_of(alloc, case.given)?;
        let mut reported = String::new(alloc);
        add_runs(&mut reported, &services, case.wanted)?;
        Ok(reported)
    }
}

#[test]
fn services_run_on_their_days(rt: HostRuntime) -> Result<(), Fail> {
    try_cases(&rt, rt.alloc(), SERVICES, &Runs)
}

// A service on every day but one.
const ONE_DAY_OUT: &str = "\
calendar.txt: S,1,1,1,1,1,1,1,20240110,20240220
S -20240112";

// Whichever growth is refused, the fault is that memory ran out. A refused growth ends the test with `AllocError`.
#[test]
fn refused_growth_of_services(rt: HostRuntime) -> Result<(), Fail> {
    let (first, second) = (day("20240111")?, day("20240112")?);
    let services = services_of(rt.alloc(), ONE_DAY_OUT)?;
    assert!(rt; active(&services, "S", first) && !active(&services, "S", second));
    Ok(())
}

#[test]
fn refused_growth_of_a_zone(rt: HostRuntime) -> Result<(), Fail> {
    match Zone::file_bytes(rt.alloc(), CENTRAL_EUROPE) {
        Ok(zone) => assert!(rt; day_start(&zone, day("20240331")?)? == 1_711_836_000),
        Err(fault) => {
            assert!(rt; fault == DayFault::OutOfMemory);
            return Err(AllocError.into());
        }
    }
    Ok(())
}
