//! Judges the walks of a journey.

ghost use Rattle.std.specs.Prelude.{◌≡◌, ◌+◌, ◌<◌, ◌-◌, ◌^◌, length, min};
ghost use Rattle.std.specs.List.{list_all};
ghost use Rattle.timetable.specs.Journeys.{walk_secs};
ghost use Rattle.journeys.specs.Faults.{has_footpath, led_to, is_elsewhere, is_nowhere, walk_fault, start_fault};
ghost use Rattle.journeys.specs.Faults.{is_broken, walk_after_fault, walks_fault, ride_at, leg_stop, AreLegs};

use crate::fault::JourneyFault;
use crate::footpaths::has_footpath;
use crate::legs::connection_at;
use crate::way::JourneyParts;
use image_verifier::Verified;
use timetable::{Footpath, Ride};

/// The stop that footpaths, end to end, lead to from a stop; `None` if they don't join.
pub fn led_to(stop: u32, walk: &[Footpath]) -> Option<u32>
    ensures { result ≡ led_to stop walk.now }
{
    let mut here = stop;
    for footpath in walk {
        if footpath.from != here {
            return None;
        }
        here = footpath.to;
    }
    Some(here)
}

/// The seconds of a walk, at most 2^64 - 1.
#[tactic(auto, using(crate::proofs::WalkLemmas::sums))]
pub fn walk_secs(walk: &[Footpath]) -> u64
    ensures { result ≡ min (walk_secs walk.now) (2 ^ 64 - 1) }
{
    let mut total = 0u64;
    for footpath in walk {
        total = total.saturating_add(footpath.secs as u64);
    }
    total
}

fn has_all(image: &Verified, walk: &[Footpath]) -> bool
    ensures { result ≡ list_all (has_footpath image.now.timetable) walk.now }
{
    walk.iter().all(|footpath| has_footpath(image, *footpath))
}

fn walk_fault(image: &Verified, i: usize, walk: &[Footpath], broken: bool) -> Option<JourneyFault>
    ensures { result ≡ walk_fault image.now.timetable i walk.now broken }
{
    if !has_all(image, walk) {
        Some(JourneyFault::NoFootpath(i))
    } else if broken {
        Some(JourneyFault::WalkBroken(i))
    } else {
        None
    }
}

fn start_fault(image: &Verified, start: Option<Footpath>, stop: u32) -> Option<JourneyFault>
    ensures { result ≡ start_fault image.now.timetable start stop }
{
    match start {
        None => None,
        Some(footpath) => {
            let broken = footpath.from == footpath.to || footpath.to != stop;
            walk_fault(image, 0, &[footpath], broken)
        }
    }
}

// Whether footpaths don't join, or don't lead to `goal`.
fn is_elsewhere(led: Option<u32>, goal: u32) -> bool
    ensures { result ≡ is_elsewhere led goal }
{
    match led {
        None => true,
        Some(stop) => stop != goal,
    }
}

#[tactic(auto, unfolding(crate::specs::Faults::is_broken))]
fn is_broken(image: &Verified, rides: &[Ride], i: usize) -> bool
    requires legs { AreLegs image.now.timetable rides.now }
    requires within { i < length rides.now }
    ensures { result ≡ is_broken image.now.timetable rides.now i }
{
    let ride = &rides[i];
    let led = led_to(connection_at(image, ride.leg.last).to, &ride.walk);
    if i + 1 < rides.len() {
        let next = &rides[i + 1];
        ride.walk.len() == 0 || is_elsewhere(led, connection_at(image, next.leg.first).from)
    } else {
        led.is_none()
    }
}

#[tactic(auto, unfolding(crate::specs::Faults::walk_after_fault))]
fn walk_after_fault(image: &Verified, rides: &[Ride], i: usize) -> Option<JourneyFault>
    requires legs { AreLegs image.now.timetable rides.now }
    requires within { i < length rides.now }
    ensures { result ≡ walk_after_fault image.now.timetable rides.now i }
{
    let ride = &rides[i];
    walk_fault(image, i + 1, &ride.walk, is_broken(image, rides, i))
}

/// The first fault of the walks of a journey whose legs have none.
#[tactic(auto, using(timetable::proofs::FirstLemmas::searches), unfolding(crate::specs::Faults::walks_fault))]
pub fn walks_fault(image: &Verified, way: &JourneyParts<'_>) -> Option<JourneyFault>
    requires legs { AreLegs image.now.timetable way.now.rides.now }
    requires some { 0 < length way.now.rides.now }
    ensures { result ≡ walks_fault image.now.timetable way.now.start way.now.rides.now }
{
    let JourneyParts { start, rides } = *way;
    let first = &rides[0];
    let stop = connection_at(image, first.leg.first).from;
    if let Some(fault) = start_fault(image, start, stop) {
        return Some(fault);
    }
    for i in 0..rides.len() {
        if let Some(fault) = walk_after_fault(image, rides, i) {
            return Some(fault);
        }
    }
    None
}
