//! The days on which a service runs: its weekdays between two dates, and the days that are added or removed.

ghost use Rattle.std.specs.Prelude.{◌≡◌, ◌<◌, ◌++◌, ◌∷◌, if◌then◌else◌, ℕ, List, [], IfOk, OnOk};
ghost use Rattle.std.specs.List.{list_any};
ghost use Rattle.std.specs.Option.{option_map_or};
ghost use Rattle.indexmap.specs.IndexMap.{get_by_text, hasher_of};
ghost use Rattle.std.specs.Str.{bytes_eq};
ghost use Rattle.std.specs.String.{string_bytes};
ghost use Rattle.gtfs_rows.specs.declared.rows.CalendarRow.{CalendarRow};
ghost use Rattle.gtfs_rows.specs.declared.rows.CalendarDateRow.{CalendarDateRow};
ghost use Rattle.gtfs_rows.specs.declared.values.Day.{Day as CalendarDay};
ghost use Rattle.service_days.specs.Services.{HoldsServices, adds, exceptions_in, is_active, removes, runs_in};
ghost use Rattle.service_days.specs.Services.{service_runs, weeks_in};

use crate::day::{DatedDay, date_number};
use gtfs_rows::{CalendarDateRow, CalendarRow, Day, Exception, IdHash};
use indexmap::IndexMap;
use std::alloc::{AllocError, Global};

// The weekdays on which a service runs, Monday first, and the numbers of its first and its last day.
#[derive(Clone, Copy, Debug)]
struct Week {
    weekdays: [bool; 7],
    first: u32,
    last: u32,
}

// A day that is added to a service or removed from it, by its number.
#[derive(Clone, Copy, Debug)]
struct DayException {
    number: u32,
    exception: Exception,
}

/// The services of a feed, by id.
#[derive(Drop)]
pub struct Services {
    weeks: IndexMap<String, Vec<Week>, IdHash>,
    exceptions: IndexMap<String, Vec<DayException>, IdHash>,
}

impl Services {
    /// Returns the services of `calendar.txt` and `calendar_dates.txt`, whose rows may be in any order, looked up by
    /// this hash. Memory may run out.
    pub fn new(
        alloc: Global,
        hash: IdHash,
        calendar: &[CalendarRow],
        dates: &[CalendarDateRow],
    ) -> Result<Services, AllocError>
        ensures holds { IfOk result (HoldsServices calendar.now dates.now) }
        ensures hash { IfOk result (λ services. (hasher_of services.weeks ≡ hash)
            × (hasher_of services.exceptions ≡ hash)) }
    {
        Ok(Services {
            weeks: weeks_of(alloc, hash, calendar)?,
            exceptions: exceptions_of(alloc, hash, dates)?,
        })
    }

    /// Returns what the calendars say of a service, so that it is looked up once for many days.
    pub fn look_up(&self, service: &str) -> Service<'_>
        ensures { (calendar : List CalendarRow) (dates : List CalendarDateRow) → HoldsServices calendar dates self.now
            → (day : CalendarDay) → service_runs result day ≡ is_active calendar dates service.now day }
    {
        Service {
            weeks: held(&self.weeks, service),
            exceptions: held(&self.exceptions, service),
        }
    }

    // Returns the hash by which services are looked up.
    pub(crate) fn hash(&self) -> IdHash
        ensures { result ≡ hasher_of self.now.weeks }
    {
        *self.weeks.hasher()
    }
}

// Adds a week or an exception to those of a service.
fn add<T: Drop>(
    alloc: Global,
    held: &mut IndexMap<String, Vec<T>, IdHash>,
    service: String,
    said: T,
) -> Result<(), AllocError>
    ensures adds { OnOk result ((q : List ℕ) → option_map_or (λ group. group.items) (get_by_text held.new q) []
        ≡ option_map_or (λ group. group.items) (get_by_text held.old q) []
        ++ (if bytes_eq q (string_bytes service) then said ∷ [] else [])) }
    ensures hash { OnOk result (hasher_of held.new ≡ hasher_of held.old) }
{
    held.entry(service)?.or_insert(Vec::new(alloc)).push(said)?;
    Ok(())
}

fn weeks_of(
    alloc: Global,
    hash: IdHash,
    rows: &[CalendarRow],
) -> Result<IndexMap<String, Vec<Week>, IdHash>, AllocError>
    ensures holds { IfOk result (λ weeks. (service : List ℕ)
        → option_map_or (λ held. held.items) (get_by_text weeks service) [] ≡ weeks_in rows.now service) }
    ensures hash { IfOk result (λ weeks. hasher_of weeks ≡ hash) }
{
    let mut weeks = IndexMap::with_hasher(alloc, hash);
    for row in rows {
        let week = Week {
            weekdays: row.weekdays,
            first: date_number(row.start),
            last: date_number(row.end),
        };
        add(alloc, &mut weeks, row.service.clone()?, week)?;
    }
    Ok(weeks)
}

fn exceptions_of(
    alloc: Global,
    hash: IdHash,
    rows: &[CalendarDateRow],
) -> Result<IndexMap<String, Vec<DayException>, IdHash>, AllocError>
    ensures holds { IfOk result (λ exceptions. (service : List ℕ)
        → option_map_or (λ held. held.items) (get_by_text exceptions service) [] ≡ exceptions_in rows.now service) }
    ensures hash { IfOk result (λ exceptions. hasher_of exceptions ≡ hash) }
{
    let mut exceptions = IndexMap::with_hasher(alloc, hash);
    for row in rows {
        let exception = DayException {
            number: date_number(row.day),
            exception: row.exception,
        };
        add(alloc, &mut exceptions, row.service.clone()?, exception)?;
    }
    Ok(exceptions)
}

/// What the calendars say of one service: nothing, if they don't have it.
#[derive(Clone, Copy)]
pub struct Service<'a> {
    weeks: &'a [Week],
    exceptions: &'a [DayException],
}

impl Service<'_> {
    ghost use Rattle.std.specs.Prelude.{◌≡◌};
    ghost use Rattle.service_days.specs.Services.{dated, service_runs};

    /// Returns whether the service runs on a day.
    pub fn runs_on(&self, day: DatedDay) -> bool
        requires { day ≡ dated day.day }
        ensures { result ≡ service_runs self.now day.day }
    {
        let Some(weekday) = day.weekday else {
            return false;
        };
        let regular = runs(self.weeks, weekday, day.number);
        (regular || is_added(self.exceptions, day.number))
            && !is_removed(self.exceptions, day.number)
    }
}

/// Returns whether a service runs on a day: the day isn't removed, and either it is added, or it is in the range and
/// on a weekday of a row of `calendar.txt` (GTFS Schedule Reference, `calendar.txt` and `calendar_dates.txt`). A
/// service without rows never runs, and no service runs on a day that isn't a civil date.
pub fn active(services: &Services, service: &str, day: Day) -> bool
    ensures { (calendar : List CalendarRow) (dates : List CalendarDateRow) → HoldsServices calendar dates services.now
        → result ≡ is_active calendar dates service.now day }
{
    services.look_up(service).runs_on(DatedDay::new(day))
}

// Returns what is held for a service.
fn held<'a, T>(all: &'a IndexMap<String, Vec<T>, IdHash>, service: &str) -> &'a [T]
    ensures { result.now ≡ option_map_or (λ held. held.items) (get_by_text all.now service.now) [] }
{
    match all.get(service) {
        Some(held) => held,
        None => &[],
    }
}

fn runs(weeks: &[Week], weekday: usize, number: u32) -> bool
    requires { weekday < 7 }
    ensures { result ≡ list_any (runs_in weekday number) weeks.now }
{
    weeks.iter().any(|week| week.weekdays[weekday] && week.first <= number && number <= week.last)
}

fn is_added(exceptions: &[DayException], number: u32) -> bool
    ensures { result ≡ list_any (adds number) exceptions.now }
{
    exceptions.iter().any(|e| e.number == number && matches!(e.exception, Exception::Added))
}

fn is_removed(exceptions: &[DayException], number: u32) -> bool
    ensures { result ≡ list_any (removes number) exceptions.now }
{
    exceptions.iter().any(|e| e.number == number && matches!(e.exception, Exception::Removed))
}
