//! Why a journey doesn't count.

ghost use Rattle.std.specs.Prelude.{◌≡◌};
ghost use Rattle.journeys.specs.Numbers.{name_of, number_of};

use reasoning::variant_name;
use thiserror::Error;

/// Why a journey doesn't count for a query, with the number of the leg or walk.
///
/// Leg 0 is first. Walk i is before leg i, and walk 0 is the start; the last walk, after all legs, has the number
/// of legs.
#[derive(Clone, Copy, Debug, PartialEq, Eq, Error)]
pub enum JourneyFault {
    /// The leg's first connection is after its last one, or the image doesn't have them; or there is no leg at all.
    #[error("ride {0} (the first is ride 0): there is no such ride, or the image has no such connections, \
or the first is after the last")]
    LegRange(usize),
    /// The leg's first and last connection are of two trips.
    #[error("ride {0} (the first is ride 0): its first and its last connection are of different trips")]
    TwoTrips(usize),
    /// Passengers may not get on where the leg departs.
    #[error("ride {0} (the first is ride 0): boarding isn't allowed where it departs")]
    NoBoarding(usize),
    /// Passengers may not get off where the leg ends.
    #[error("ride {0} (the first is ride 0): alighting isn't allowed where it ends")]
    NoAlighting(usize),
    /// The image doesn't have a footpath of the walk with its seconds.
    #[error("walk {0} (walk 0 is the one before the first ride): the image has no footpath from the one stop to the other \
with so many seconds")]
    NoFootpath(usize),
    /// The walk's footpaths don't join, or it doesn't lead from a leg's end to where the next leg departs, or is
    /// empty between two legs; or the start doesn't lead to the first leg, or leads back to its own stop.
    #[error("walk {0} (walk 0 is the one before the first ride): it doesn't lead from where the ride before it ends \
to where the next departs; a change is a walk, even at one stop and of 0 seconds")]
    WalkBroken(usize),
    /// The leg departs before the previous leg and the walk after it are over.
    #[error("ride {0} (the first is ride 0): it departs before the ride and the walk before it are over")]
    TooEarly(usize),
    /// The journey doesn't begin at the source, or doesn't end at the target.
    #[error("the journey doesn't begin at --from, or doesn't end at --to")]
    WrongEnds,
    /// The journey departs earlier or later than the query allows, or before second 0, or is over too late.
    #[error("the journey departs before --after or after --until, or arrives after --by")]
    OutsideWindow,
}

impl JourneyFault {
    /// The fault's number, from 81 to 89.
    pub fn number(self) -> u8
        ensures { result ≡ number_of self }
    {
        match self {
            JourneyFault::LegRange(_) => 81,
            JourneyFault::TwoTrips(_) => 82,
            JourneyFault::NoBoarding(_) => 83,
            JourneyFault::NoAlighting(_) => 84,
            JourneyFault::WalkBroken(_) => 85,
            JourneyFault::TooEarly(_) => 86,
            JourneyFault::WrongEnds => 87,
            JourneyFault::OutsideWindow => 88,
            JourneyFault::NoFootpath(_) => 89,
        }
    }

    /// The fault's name, as `LegRange`.
    pub fn name(self) -> &'static str
        ensures { result.now ≡ name_of self }
    {
        variant_name!(
            self, JourneyFault:
            LegRange, TwoTrips, NoBoarding, NoAlighting, WalkBroken, TooEarly, WrongEnds, OutsideWindow,
            NoFootpath
        )
    }
}
