//! Journeys: a start, and rides, each of which is a leg and the walk after it.

use crate::Footpath;
use std::marker::Model;

/// A leg: connections of one trip, boarded at `first` and left at `last`, which are indices of connections of the
/// timetable.
#[derive(Clone, Copy, Debug, PartialEq, Eq)]
pub struct Leg {
    pub first: u32,
    pub last: u32,
}

/// A leg, and the walk after it: footpaths end to end.
#[derive(Drop)]
pub struct Ride {
    pub leg: Leg,
    pub walk: Vec<Footpath>,
}

/// A start (none, or one footpath) and then rides.
#[derive(Drop)]
pub struct Journey {
    pub start: Option<Footpath>,
    pub rides: Vec<Ride>,
}

/// When a journey departs and when it is over, in seconds after the base.
#[derive(Clone, Copy, Debug, PartialEq, Eq)]
pub struct Times {
    pub dep: u32,
    pub arr: u32,
}

impl Model for Ride {
    ghost use Rattle.timetable.specs.JourneyValue.{RideValue};

    ghost Value = { RideValue };

    ghost view = { λ r. record { leg = r.leg; walk = r.walk.items } };
}

impl Model for Journey {
    ghost use Rattle.timetable.specs.JourneyValue.{JourneyValue};

    ghost Value = { JourneyValue };

    ghost view = { λ j. record { start = j.start; rides = j.rides.items } };
}
