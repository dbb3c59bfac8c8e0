//! How many trips run on each of some days.

ghost use Rattle.std.specs.Prelude.{◌≡◌, ◌==◌, ◌+◌, ◌++◌, ◌∷◌, [], ◌^◌, ◌<◌, ℕ, List, IfOk, OnOk};
ghost use Rattle.std.specs.Prelude.{get_or, false, length, map, if◌then◌else◌};
ghost use Rattle.std.specs.List.{count_by};
ghost use Rattle.gtfs_tables.specs.declared.tables.Feed.{Feed as JoinedFeed};
ghost use Rattle.gtfs_tables.specs.Joined.{makes_connections as makes};
ghost use Rattle.gtfs_rows.specs.declared.values.Day.{Day as RunDay};
ghost use Rattle.service_days.specs.Services.{dated, service_runs};
ghost use Rattle.connections.specs.Active.{AreNamed, active_among};
ghost use Rattle.connections.specs.Runs.{runs_on};
ghost use Rattle.feed_days.specs.Counting.{AreDated, rides_on};
ghost use Rattle.feed_days.specs.Service.{trips_on};

use connections::{makes_connections, service_indices};
use gtfs_tables::{Day, Feed, Trip};
use service_days::{DatedDay, NamedServices, Service, Services};
use std::alloc::{AllocError, Global};

/// Returns how many of a feed's trips run on each of some days: a trip runs if its service is active, it isn't a flex
/// trip, and it has at least two rows. A trip that `frequencies.txt` repeats counts once. The trips of each service are
/// counted once, and each service is looked up once, however many days there are. Memory may run out.
pub fn trips_on_days(alloc: Global, feed: &Feed, days: &[Day]) -> Result<Vec<usize>, AllocError>
    ensures { IfOk result (λ counts. counts.items ≡ map (trips_on feed.now) days.now) }
{
    let services = Services::new(alloc, feed.hash, &feed.calendar, &feed.calendar_dates)?;
    let mut named = NamedServices::new(alloc, &services);
    let indices = service_indices(alloc, &mut named, &feed.trips)?;
    let ridden = services_ridden(alloc, &indices, &feed.trips)?;
    let each = named.look_up_each(alloc, &services)?;
    let dated = dated_days(alloc, days)?;
    count_on_days(alloc, &each, &ridden, &dated)
}

// Returns the service of each trip that makes connections, given the service of each trip.
fn services_ridden(
    alloc: Global,
    indices: &[usize],
    trips: &[Trip],
) -> Result<Vec<usize>, AllocError>
    requires { length indices.now ≡ length trips.now }
    ensures { IfOk result (λ ridden. (feed : JoinedFeed) (day : RunDay) (names : List (List ℕ))
        → AreNamed names trips.now indices.now
        → count_by (λ service. get_or (active_among feed names day) service false) ridden.items
        ≡ count_by (runs_on feed day) trips.now) }
{
    let mut ridden = Vec::new(alloc);
    for (index, trip) in trips.iter().enumerate() {
        ride(&mut ridden, indices[index], trip)?;
    }
    Ok(ridden)
}

// Adds the service of a trip, if the trip makes connections.
fn ride(ridden: &mut Vec<usize>, service: usize, trip: &Trip) -> Result<(), AllocError>
    ensures { OnOk result (ridden.new.items
        ≡ (if makes trip.now then ridden.old.items ++ service ∷ [] else ridden.old.items)) }
{
    if makes_connections(trip) {
        ridden.push(service)?;
    }
    Ok(())
}

fn dated_days(alloc: Global, days: &[Day]) -> Result<Vec<DatedDay>, AllocError>
    ensures { IfOk result (λ dates. dates.items ≡ map dated days.now) }
{
    let mut dates = Vec::with_capacity(alloc, days.len())?;
    for day in days {
        dates.push(DatedDay::new(*day))?;
    }
    Ok(dates)
}

// Returns on each of the days how many of the services ridden run, each as often as it is ridden.
fn count_on_days(
    alloc: Global,
    services: &[Service<'_>],
    ridden: &[usize],
    days: &[DatedDay],
) -> Result<Vec<usize>, AllocError>
    requires { AreDated days.now }
    ensures len { IfOk result (λ counts. length counts.items ≡ length days.now) }
    ensures each { IfOk result (λ counts. (i : ℕ) (d : DatedDay) → i < length days.now
        → get_or counts.items i 0 ≡ count_by (rides_on services.now (get_or days.now i d)) ridden.now) }
{
    let trips = trips_of_each(alloc, ridden, services.len())?;
    let mut counts = vec![in alloc; 0usize; days.len()]?;
    for index in 0..services.len() {
        add_trips(&mut counts, days, &services[index], trips[index]);
    }
    Ok(counts)
}

// Returns how often each of so many services is ridden.
fn trips_of_each(alloc: Global, ridden: &[usize], services: usize) -> Result<Vec<usize>, AllocError>
    ensures len { IfOk result (λ trips. length trips.items ≡ services) }
    ensures each { IfOk result (λ trips. (k : ℕ) → k < services
        → get_or trips.items k 0 ≡ count_by (λ service. service == k) ridden.now) }
{
    let mut trips = vec![in alloc; 0usize; services]?;
    for service in ridden {
        count_trip(&mut trips, *service);
    }
    Ok(trips)
}

// Counts a trip more of a service, if it is one of these.
fn count_trip(trips: &mut [usize], service: usize)
    requires { (k : ℕ) → get_or trips.old k 0 + 1 < 2 ^ 64 }
    ensures len { length trips.new ≡ length trips.old }
    ensures each { (k : ℕ) → k < length trips.old
        → get_or trips.new k 0 ≡ get_or trips.old k 0 + (if service == k then 1 else 0) }
{
    if service < trips.len() {
        trips[service] += 1;
    }
}

// Adds the trips of a service to the count of each day on which it runs.
fn add_trips(counts: &mut [usize], days: &[DatedDay], service: &Service<'_>, trips: usize)
    requires len { length counts.old ≡ length days.now }
    requires dated { AreDated days.now }
    requires few { (i : ℕ) → i < length days.now → get_or counts.old i 0 + trips < 2 ^ 64 }
    ensures len { length counts.new ≡ length days.now }
    ensures each { (i : ℕ) (d : DatedDay) → i < length days.now → get_or counts.new i 0
        ≡ get_or counts.old i 0 + (if service_runs service.now (get_or days.now i d).day then trips else 0) }
{
    for (index, day) in days.iter().enumerate() {
        counts[index] += trips_on_day(service, *day, trips);
    }
}

// Returns the trips of a service if it runs on a day, or else 0.
fn trips_on_day(service: &Service<'_>, day: DatedDay, trips: usize) -> usize
    requires { day ≡ dated day.day }
    ensures { result ≡ (if service_runs service.now day.day then trips else 0) }
{
    if service.runs_on(day) {
        return trips;
    }
    0
}
