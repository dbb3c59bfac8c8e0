//! What the contracts of lanes are about.

ghost use Rattle.std.specs.Prelude.{◌≡◌, ℕ, Contains};
ghost use Rattle.criteria.specs.Laws.{Admits};
ghost use Rattle.lanes.specs.Lanes.{trip_rules};
ghost use Rattle.lanes.specs.TripLanes.{labels_at};
ghost use Rattle.lanes.specs.StopLanes.{AreStopLanes, points_at};

use crate::{StopLanes, TripLanes};
use criteria::{ArrivalTrips, Criterion};

/// Lanes keep values by the rules of the criterion of arrival and trips. The function does nothing.
pub fn rules_of_lanes(criterion: &ArrivalTrips)
    ensures { trip_rules ≡ ⟦<ArrivalTrips as Criterion>⟧.rules criterion.now }
{}

/// The criterion admits the values of all labels. The function does nothing.
pub fn labels_are_admitted(trips: &TripLanes)
    ensures { (trip : ℕ) (l : _) → Contains (labels_at trips.now trip) l → Admits trip_rules l.value }
{}

/// The criterion admits the values of all points of stops. The function does nothing.
pub fn points_are_admitted(stops: &StopLanes)
    requires { AreStopLanes stops.now }
    ensures { (stop : ℕ) (p : _) → Contains (points_at stops.now stop) p → Admits trip_rules p.value }
{}
