//! The plan of a load, made at an instant from what a command line asks for.

ghost use Rattle.std.specs.Prelude.{◌≤◌, IfErr, IfOk};
ghost use Rattle.connections.specs.declared.days.TheConstants.{MAX_DAYS};
ghost use Rattle.feed_plans.specs.Planning.{IsFirstDay, IsPlan, IsToday, IsYesterday, IsZoneFault, IsZoneOf};

use crate::clock::{today, yesterday};
use command_requests::{FirstDay, PlanText, ZoneText};
use feed_loader::Plan;
use gtfs_rows::Day;
use service_days::{DayFault, Zone};
use std::alloc::Global;

/// The first day of a plan if the clock gives none. The calendar doesn't have this day, so a load for it is refused
/// (`DayOutOfRange`).
const NO_DAY: Day = Day {
    year: 0,
    month: 0,
    day: 0,
};

/// Returns the plan of a load at an instant, given in seconds after 1970-01-01T00:00:00Z, with the bytes of the zone's
/// file. `BadZone` if the rule or the file isn't that of a zone; `OutOfMemory` only if the zone is that of a file. If
/// the first day depends on the clock and there is no such day, loads by this plan are refused.
pub fn plan_at(
    alloc: Global,
    asked: &PlanText<'_>,
    zone_bytes: &[u8],
    instant: Option<i64>,
) -> Result<Plan, DayFault>
    ensures plan { IfOk result (IsPlan asked.now zone_bytes.now instant) }
    ensures some { IfOk result (λ plan. 1 ≤ plan.days) }
    ensures few { IfOk result (λ plan. plan.days ≤ MAX_DAYS) }
    ensures refused { IfErr result (IsZoneFault asked.now.zone zone_bytes.now) }
{
    match zone_of(alloc, &asked.zone, zone_bytes) {
        Ok(zone) => Ok(plan_in(asked, zone_bytes, zone, instant)),
        Err(fault) => Err(fault),
    }
}

fn plan_in(asked: &PlanText<'_>, zone_bytes: &[u8], zone: Zone, instant: Option<i64>) -> Plan
    requires { IsZoneOf asked.now.zone zone_bytes.now zone }
    ensures plan { IsPlan asked.now zone_bytes.now instant result }
    ensures some { 1 ≤ result.days }
    ensures few { result.days ≤ MAX_DAYS }
{
    let first_day = first_day(asked.first, &zone, instant);
    Plan {
        first_day,
        days: asked.days,
        zone,
        strict: asked.strict,
    }
}

fn first_day(first: FirstDay, zone: &Zone, instant: Option<i64>) -> Day
    ensures { IsFirstDay first zone.now instant result }
{
    match (first, instant) {
        (FirstDay::On(day), _) => day,
        (FirstDay::Today, Some(instant)) => today_or_none(zone, instant),
        (FirstDay::Yesterday, Some(instant)) => yesterday_or_none(zone, instant),
        (FirstDay::Today, None) => NO_DAY,
        (FirstDay::Yesterday, None) => NO_DAY,
    }
}

fn today_or_none(zone: &Zone, instant: i64) -> Day
    ensures { IsToday zone.now instant result }
{
    match today(zone, instant) {
        Ok(day) => day,
        Err(_) => NO_DAY,
    }
}

fn yesterday_or_none(zone: &Zone, instant: i64) -> Day
    ensures { IsYesterday zone.now instant result }
{
    match yesterday(zone, instant) {
        Ok(day) => day,
        Err(_) => NO_DAY,
    }
}

fn zone_of(alloc: Global, text: &ZoneText<'_>, bytes: &[u8]) -> Result<Zone, DayFault>
    ensures zone { IfOk result (IsZoneOf text.now bytes.now) }
    ensures refused { IfErr result (IsZoneFault text.now bytes.now) }
{
    match text {
        ZoneText::Fixed(ahead) => Ok(Zone::fixed(ahead.seconds)),
        ZoneText::Posix(rule) => Zone::posix(rule),
        ZoneText::File(_) => Zone::file_bytes(alloc, bytes),
    }
}
