//! Judges the legs of a journey.

ghost use Rattle.std.specs.Prelude.{◌≡◌, ◌<◌, length};
ghost use Rattle.timetable.specs.Journeys.{connection_at};
ghost use Rattle.journeys.specs.Faults.{leg_fault, legs_fault, ride_at};

use crate::fault::JourneyFault;
use image_verifier::Verified;
use timetable::{Connection, Leg, Ride};

/// The connection at an index.
pub fn connection_at(image: &Verified, i: u32) -> Connection
    requires { i < length image.now.timetable.connections }
    ensures { result ≡ connection_at image.now.timetable i }
{
    image.connection(i as usize)
}

#[tactic(auto, unfolding(crate::specs::Faults::leg_fault))]
fn leg_fault(image: &Verified, i: usize, leg: Leg) -> Option<JourneyFault>
    ensures { result ≡ leg_fault image.now.timetable i leg }
{
    if leg.last < leg.first || leg.last as usize >= image.len() {
        return Some(JourneyFault::LegRange(i));
    }
    let first = connection_at(image, leg.first);
    let last = connection_at(image, leg.last);
    if first.trip != last.trip {
        Some(JourneyFault::TwoTrips(i))
    } else if !first.board {
        Some(JourneyFault::NoBoarding(i))
    } else if !last.alight {
        Some(JourneyFault::NoAlighting(i))
    } else {
        None
    }
}

/// Leg i of a journey.
pub fn leg_at(rides: &[Ride], i: usize) -> Leg
    requires { i < length rides.now }
    ensures { result ≡ (ride_at rides.now i).leg }
{
    let ride = &rides[i];
    ride.leg
}

/// The first fault of the legs.
#[tactic(auto, using(timetable::proofs::FirstLemmas::searches), unfolding(crate::specs::Faults::legs_fault))]
pub fn legs_fault(image: &Verified, rides: &[Ride]) -> Option<JourneyFault>
    ensures { result ≡ legs_fault image.now.timetable rides.now }
{
    if rides.len() == 0 {
        return Some(JourneyFault::LegRange(0));
    }
    for i in 0..rides.len() {
        if let Some(fault) = leg_fault(image, i, leg_at(rides, i)) {
            return Some(fault);
        }
    }
    None
}
