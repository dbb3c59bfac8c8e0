//! Definitions that are close to the right ones, but for which a law is false; and that the right ones lead to an
//! answer.

ghost use Rattle.std.specs.Prelude.{[], ◌∷◌};
ghost use Rattle.timetable.specs.Journeys.{Counts};
ghost use Rattle.scan_state.specs.Points.{IsAnswer};
ghost use Rattle.tests_scan.specs.WrongSteps.{CountsLegByLeg, IsStepWithBagCut, IsStepWithLoopStart};
ghost use Rattle.tests_scan.specs.WrongSteps.{IsStepWithoutChange, IsStepWithoutLabels};
ghost use Rattle.profile_scan.specs.LawStatements.{CutIsTheSources, OneIndexDown};
ghost use Rattle.tests_scan.specs.Examples.{asked, one_hop, over_one_hop, with_walk};

use super::examples::a_start_on_foot_counts;
use criteria::{Arrival, ArrivalTripsWalk, Criterion};

fn no_wrong_step_goes_down<C: Criterion>(_criterion: &C)
    ensures bag_cut { OneIndexDown (C.rules _criterion.now) (IsStepWithBagCut (C.rules _criterion.now)) → ⊥ }
    ensures loop_start { OneIndexDown (C.rules _criterion.now) (IsStepWithLoopStart (C.rules _criterion.now)) → ⊥ }
    ensures labels_forgotten { OneIndexDown (C.rules _criterion.now) (IsStepWithoutLabels (C.rules _criterion.now))
        → ⊥ }
    ensures no_change { OneIndexDown (C.rules _criterion.now) (IsStepWithoutChange (C.rules _criterion.now)) → ⊥ }
{}

fn no_leg_is_cut()
    ensures { CutIsTheSources CountsLegByLeg → ⊥ }
{}

// If later departures could dominate, and were only left out at the end, there would be no point here: the trip at
// 08:12 is the best, but the walk to it begins too late.
fn late_departures_dominate_nothing<C: Criterion>(_criterion: &C)
    ensures { IsAnswer (C.rules _criterion.now) with_walk (asked 29399 36000) [] → ⊥ }
{
    a_start_on_foot_counts(&Arrival, &ArrivalTripsWalk);
}

// one connection, from 100 to 200
fn one_connection_is_answered<C: Criterion>(_criterion: &C)
    ensures { IsAnswer (C.rules _criterion.now) one_hop (over_one_hop 1000) (record {
      departure = 100;
      value =
          (C.rules _criterion.now).ride ((C.rules _criterion.now).arrive 200);
      tag = 0;
    } ∷ []) }
{}

#[test]
fn laws_tell_right_from_wrong() {
    no_wrong_step_goes_down(&Arrival);
    no_leg_is_cut();
    late_departures_dominate_nothing(&Arrival);
    one_connection_is_answered(&Arrival);
}
