//! The services of a feed's trips, and which of them run on each day of a plan, determined once for the plan.

ghost use Rattle.std.specs.Prelude.{◌≡◌, length, map, IfOk, OnOk};
ghost use Rattle.gtfs_tables.specs.declared.tables.Feed.{Feed as JoinedFeed};
ghost use Rattle.service_days.specs.Named.{names_of};
ghost use Rattle.service_days.specs.Services.{HoldsServices};
ghost use Rattle.connections.specs.Active.{AreActive, AreNamed, active_among, names_also};

use crate::days::ServiceDay;
use gtfs_tables::Trip;
use service_days::{NamedServices, Services};
use std::alloc::{AllocError, Global};

/// The service of each trip, and which services run on each day.
#[derive(Drop)]
pub(crate) struct TripServices {
    /// The index of each trip's service.
    pub indices: Vec<usize>,
    /// For each day whether each service runs on it.
    pub active: Vec<Vec<bool>>,
}

impl TripServices {
    // Returns the services of the trips; each is looked up once for each day. Memory may run out.
    pub(crate) fn new(
        alloc: Global,
        services: &Services,
        days: &[ServiceDay],
        trips: &[Trip],
    ) -> Result<TripServices, AllocError>
        ensures trips { IfOk result (λ made. length made.indices.items ≡ length trips.now) }
        ensures days { IfOk result (λ made. length made.active.items ≡ length days.now) }
        ensures active { (feed : JoinedFeed) → HoldsServices feed.calendar.items feed.calendar_dates.items services.now
            → IfOk result (λ made. AreActive feed (map (λ d. d.day) days.now) trips.now made) }
    {
        let mut named = NamedServices::new(alloc, services);
        let indices = service_indices(alloc, &mut named, trips)?;
        let active = active_on_days(alloc, services, &named, days)?;
        Ok(TripServices { indices, active })
    }
}

/// Returns the index of each trip's service among the named ones, to which it is added if it isn't there. Memory may
/// run out.
pub fn service_indices(
    alloc: Global,
    named: &mut NamedServices,
    trips: &[Trip],
) -> Result<Vec<usize>, AllocError>
    ensures len { IfOk result (λ indices. length indices.items ≡ length trips.now) }
    ensures named { IfOk result (λ indices. AreNamed (names_of named.new) trips.now indices.items) }
    ensures names { OnOk result (names_of named.new ≡ names_also (names_of named.old) trips.now) }
{
    let mut indices = Vec::with_capacity(alloc, trips.len())?;
    for trip in trips {
        let index = named.index_of(&trip.service)?;
        indices.push(index)?;
    }
    Ok(indices)
}

// Returns for each day whether each of the named services runs on it. Memory may run out.
fn active_on_days(
    alloc: Global,
    services: &Services,
    named: &NamedServices,
    days: &[ServiceDay],
) -> Result<Vec<Vec<bool>>, AllocError>
    ensures len { IfOk result (λ active. length active.items ≡ length days.now) }
    ensures active { (feed : JoinedFeed) → HoldsServices feed.calendar.items feed.calendar_dates.items services.now
        → IfOk result (λ active. map (λ each. each.items) active.items
        ≡ map (active_among feed (names_of named.now)) (map (λ d. d.day) days.now)) }
{
    let mut active = Vec::with_capacity(alloc, days.len())?;
    for day in days {
        let running = named.active_on(alloc, services, day.day)?;
        active.push(running)?;
    }
    Ok(active)
}
