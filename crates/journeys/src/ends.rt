//! Judges when legs depart, and where and when a journey begins and ends.

ghost use Rattle.std.specs.Prelude.{◌≡◌, ◌+◌, ◌<◌, ◌≤◌, ◌-◌, ◌^◌, length, min};
ghost use Rattle.timetable.specs.Journeys.{start_secs, walk_end, stop_after, time_after};
ghost use Rattle.journeys.specs.Judged.{IsTimed};
ghost use Rattle.journeys.specs.Faults.{early_fault, times_fault, begin_of, ends_fault, ride_at, AreLegs};

use crate::fault::JourneyFault;
use crate::legs::{connection_at, leg_at};
use crate::walks::walk_secs;
use crate::way::JourneyParts;
use image_verifier::Verified;
use timetable::{Footpath, Query, Ride, Times};

// When ride i is over, including its walk, in seconds after the base; at most 2^64 - 1.
fn over_at(image: &Verified, rides: &[Ride], i: usize) -> u64
    requires legs { AreLegs image.now.timetable rides.now }
    requires within { i < length rides.now }
    ensures { result ≡ min (time_after image.now.timetable (ride_at rides.now i)) (2 ^ 64 - 1) }
{
    let ride = &rides[i];
    walk_secs(&ride.walk).saturating_add(connection_at(image, ride.leg.last).arr as u64)
}

#[tactic(auto, unfolding(crate::specs::Faults::early_fault))]
fn early_fault(image: &Verified, rides: &[Ride], i: usize) -> Option<JourneyFault>
    requires legs { AreLegs image.now.timetable rides.now }
    requires later { 0 < i }
    requires within { i < length rides.now }
    ensures { result ≡ early_fault image.now.timetable rides.now i }
{
    let ride = &rides[i];
    if (connection_at(image, ride.leg.first).dep as u64) < over_at(image, rides, i - 1) {
        return Some(JourneyFault::TooEarly(i));
    }
    None
}

/// The fault of the first leg that departs before the previous ride is over.
#[tactic(auto, using(timetable::proofs::FirstLemmas::searches), unfolding(crate::specs::Faults::times_fault))]
pub fn times_fault(image: &Verified, rides: &[Ride]) -> Option<JourneyFault>
    requires legs { AreLegs image.now.timetable rides.now }
    ensures { result ≡ times_fault image.now.timetable rides.now }
{
    for i in 1..rides.len() {
        if let Some(fault) = early_fault(image, rides, i) {
            return Some(fault);
        }
    }
    None
}

// The stop where a journey begins; `stop` is where its first leg departs.
fn begin_of(start: Option<Footpath>, stop: u32) -> u32
    ensures { result ≡ begin_of start stop }
{
    match start {
        None => stop,
        Some(footpath) => footpath.from,
    }
}

// The seconds of a start.
fn start_secs(start: Option<Footpath>) -> u32
    ensures { result ≡ start_secs start }
{
    match start {
        None => 0,
        Some(footpath) => footpath.secs,
    }
}

// The stop where a walk from a stop ends.
fn walk_end(stop: u32, walk: &[Footpath]) -> u32
    ensures { result ≡ walk_end stop walk.now }
{
    let mut here = stop;
    for footpath in walk {
        here = footpath.to;
    }
    here
}

// The stop where ride i ends, including its walk.
fn stop_after(image: &Verified, rides: &[Ride], i: usize) -> u32
    requires legs { AreLegs image.now.timetable rides.now }
    requires within { i < length rides.now }
    ensures { result ≡ stop_after image.now.timetable (ride_at rides.now i) }
{
    let ride = &rides[i];
    walk_end(connection_at(image, ride.leg.last).to, &ride.walk)
}

/// Returns `WrongEnds` if the journey doesn't begin at the source or doesn't end at the target.
#[tactic(auto, unfolding(crate::specs::Faults::ends_fault))]
pub fn ends_fault(image: &Verified, query: &Query, way: &JourneyParts<'_>) -> Option<JourneyFault>
    requires legs { AreLegs image.now.timetable way.now.rides.now }
    requires some { 0 < length way.now.rides.now }
    ensures { result ≡ ends_fault image.now.timetable query.now way.now.start way.now.rides.now }
{
    let JourneyParts { start, rides } = *way;
    let first = connection_at(image, leg_at(rides, 0).first);
    if begin_of(start, first.from) != query.source
        || stop_after(image, rides, rides.len() - 1) != query.target
    {
        return Some(JourneyFault::WrongEnds);
    }
    None
}

/// Returns when a journey departs and when it is over. The error is `OutsideWindow` if it departs earlier or later
/// than the query allows, or is over too late.
#[tactic(auto, unfolding(crate::specs::Faults::window_fault))]
pub fn times_inside(
    image: &Verified,
    query: &Query,
    way: &JourneyParts<'_>,
) -> Result<Times, JourneyFault>
    requires legs { AreLegs image.now.timetable way.now.rides.now }
    requires some { 0 < length way.now.rides.now }
    ensures { IsTimed image.now.timetable query.now way.now.start way.now.rides.now result }
{
    let JourneyParts { start, rides } = *way;
    let dep = connection_at(image, leg_at(rides, 0).first).dep;
    let secs = start_secs(start);
    let arr = over_at(image, rides, rides.len() - 1);
    if (dep as u64) < query.from as u64 + secs as u64
        || query.until as u64 + (secs as u64) < dep as u64
        || (query.by as u64) < arr
    {
        return Err(JourneyFault::OutsideWindow);
    }
    Ok(Times {
        dep: dep - secs,
        arr: arr as u32,
    })
}
