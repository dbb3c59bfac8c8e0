//! The service days of a plan, each with the instant at which it starts.

ghost use Rattle.std.specs.Prelude.{◌≡◌, ◌≤◌, IfOk, IfErr, ◌⊎◌};
ghost use Rattle.connections.specs.Days.{AreStarted, days_from};
ghost use Rattle.connections.specs.Faults.{no_memory_for_days};
ghost use Rattle.connections.specs.Outcome.{IsDayRefused};

use crate::fault::{OutOfRange, RunsFault};
use gtfs_tables::Day;
use service_days::{DayFault, Zone, day_after, day_start};
use std::alloc::Global;

/// The greatest number of service days of a timetable.
pub const MAX_DAYS: u32 = 14;

/// A service day and its start, in seconds after 1970-01-01T00:00:00Z.
#[derive(Clone, Copy, Debug)]
pub(crate) struct ServiceDay {
    pub day: Day,
    pub start: i64,
}

// Returns `days` consecutive days from the first one on, with their starts; or the first of them that has no start.
// Memory may run out.
pub(crate) fn service_days(
    alloc: Global,
    first: Day,
    days: u32,
    zone: &Zone,
) -> Result<Vec<ServiceDay>, RunsFault>
    ensures ok { IfOk result (λ started. AreStarted zone.now (days_from first days) started.items) }
    ensures err { IfErr result (λ fault. (fault ≡ no_memory_for_days)
        ⊎ IsDayRefused zone.now (days_from first days) fault) }
{
    let Ok(mut service_days) = Vec::with_capacity(alloc, days as usize) else {
        return Err(RunsFault::Day(DayFault::OutOfMemory));
    };
    let mut day = first;
    for done in 0..days {
        let Ok(start) = day_start(zone, day) else {
            return Err(RunsFault::Range(OutOfRange::Day(day)));
        };
        let Ok(()) = service_days.push(ServiceDay { day, start }) else {
            return Err(RunsFault::Day(DayFault::OutOfMemory));
        };
        day = day_after(day);
    }
    Ok(service_days)
}
