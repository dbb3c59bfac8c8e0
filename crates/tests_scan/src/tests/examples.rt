//! The definitions of `profile_scan`, at worked examples.

ghost use Rattle.std.specs.Prelude.{◌≡◌, ℕ, [], ◌∷◌, None, Some, reverse};
ghost use Rattle.bags.specs.Dominance.{Apart, Dominates};
ghost use Rattle.timetable.specs.Journeys.{Counts, IsJourney};
ghost use Rattle.scan_state.specs.Points.{IsAnswer};
ghost use Rattle.scan_state.specs.Values.{journey_value};
ghost use Rattle.profile_scan.specs.Window.{window, falling};
ghost use Rattle.scan_state.specs.Plain.{IsPlain};
ghost use Rattle.profile_scan.specs.Nodes.{spelling};
ghost use Rattle.profile_scan.specs.declared.nodes.Node.TheVariants.{Ends, Changes, Boards, SetsOut};
ghost use Rattle.tests_scan.specs.Examples.{asked, by_change, direct, footpath, from_start, on_foot, ride};
ghost use Rattle.tests_scan.specs.Examples.{with_chain, with_loops, with_walk};

use criteria::{Arrival, ArrivalTrips, ArrivalTripsWalk, Criterion};

// from A with a change at B, or without one
fn both_ways_count()
    ensures by_change { Counts (with_loops 0 0) (asked 32400 36000) 28800 (by_change 0) }
    ensures direct { Counts (with_loops 0 0) (asked 32400 36000) 28800 direct }
    ensures only_then { (departure : ℕ) → Counts (with_loops 0 0) (asked 32400 36000) departure direct
        → departure ≡ 28800 }
{}

fn they_are_worth(arrival: &Arrival, trips: &ArrivalTrips)
    ensures arrival { journey_value (⟦<Arrival as Criterion>⟧.rules arrival.now) (with_loops 0 0) (by_change 0)
        ≡ 30000 }
    ensures trips { journey_value (⟦<ArrivalTrips as Criterion>⟧.rules trips.now) (with_loops 0 0) (by_change 0)
        ≡ record { time = 30000; trips = 2 } }
    ensures direct { journey_value (⟦<ArrivalTrips as Criterion>⟧.rules trips.now) (with_loops 0 0) direct
        ≡ record { time = 30600; trips = 1 } }
{}

// two minutes are just enough for the change
fn a_slow_change_misses_the_trip()
    ensures just { Counts (with_loops 0 120) (asked 32400 36000) 28800 (by_change 120) }
    ensures slow { (departure : ℕ) → Counts (with_loops 0 121) (asked 32400 36000) departure (by_change 121) → ⊥ }
    ensures still { Counts (with_loops 0 121) (asked 32400 36000) 28800 direct }
    ensures without { (source target : ℕ) → IsJourney (with_loops 0 0) source target
        (from_start None (ride 0 0 [] ∷ ride 2 2 [] ∷ [])) → ⊥ }
{}

// both ends of the window of departures count, and a loop is no start
fn the_latest_departure_counts()
    ensures at { Counts (with_loops 60 0) (asked 28800 36000) 28800 direct }
    ensures after { (departure : ℕ) → Counts (with_loops 60 0) (asked 28799 36000) departure direct → ⊥ }
    ensures by_loop { (source target : ℕ) → IsJourney (with_loops 60 0) source target
        (from_start (Some (footpath 0 0 60)) (ride 0 1 [] ∷ [])) → ⊥ }
{}

fn the_latest_arrival_counts()
    ensures at { Counts (with_loops 0 0) (asked 32400 30000) 28800 (by_change 0) }
    ensures after { (departure : ℕ) → Counts (with_loops 0 0) (asked 32400 29999) departure (by_change 0) → ⊥ }
{}

// a start on foot moves the departure
pub(crate) fn a_start_on_foot_counts(arrival: &Arrival, walking: &ArrivalTripsWalk)
    ensures late { Counts with_walk (asked 32400 36000) 29400 (on_foot 120 2) }
    ensures too_late { (departure : ℕ) → Counts with_walk (asked 29399 36000) departure (on_foot 120 2) → ⊥ }
    ensures earlier { Counts with_walk (asked 29399 36000) 29280 (on_foot 120 1) }
    ensures worth { journey_value (⟦<Arrival as Criterion>⟧.rules arrival.now) with_walk (on_foot 120 1) ≡ 30600 }
    ensures walked { journey_value (⟦<ArrivalTripsWalk as Criterion>⟧.rules walking.now) with_walk (on_foot 120 1)
        ≡ record { time = 30600; trips = 1; walked = 120 } }
{}

// a walk counts after the last leg and before the first, and a chain of footpaths after a leg
fn walks_count()
    ensures after { Counts with_chain (asked 32400 36000) 28800
        (from_start None (ride 0 0 (footpath 1 2 60 ∷ []) ∷ [])) }
    ensures before { Counts with_chain (asked 32400 36000) 29460 (on_foot 60 2) }
    ensures chain { Counts with_chain (asked 32400 36000) 28800
        (from_start None (ride 0 0 (footpath 1 1 0 ∷ footpath 1 2 60 ∷ []) ∷ [])) }
{}

fn windows_are_computed()
    ensures whole { window (with_loops 0 0) (asked 32400 36000) ≡ 0 ∷ 1 ∷ 2 ∷ [] }
    ensures shorter { window (with_loops 0 0) (asked 32400 29520) ≡ 0 ∷ 1 ∷ [] }
    ensures backward { reverse (window (with_loops 0 0) (asked 32400 36000)) ≡ falling 0 3 }
{}

// the same two points under two criteria: by arrival alone one dominates the other, with trips neither does
fn one_dominates_by_arrival_alone(arrival: &Arrival, trips: &ArrivalTrips)
    ensures arrival { Dominates (⟦<Arrival as Criterion>⟧.rules arrival.now)
        (record { departure = 28800; value = 30000; tag = 0 })
        (record { departure = 28800; value = 30600; tag = 0 }) }
    ensures trips { Apart (⟦<ArrivalTrips as Criterion>⟧.rules trips.now)
        (record { departure = 28800; value = record { time = 30000; trips = 2 }; tag = 0 })
        (record { departure = 28800; value = record { time = 30600; trips = 1 }; tag = 0 }) }
{}

// answers over all journeys, including chains of any length
fn answers_are_computed(arrival: &Arrival)
    ensures one { (tag : ℕ) → IsAnswer (⟦<Arrival as Criterion>⟧.rules arrival.now) (with_loops 0 0) (asked 32400 36000)
        (record { departure = 28800; value = 30000; tag = tag } ∷ []) }
    ensures none { IsAnswer (⟦<Arrival as Criterion>⟧.rules arrival.now) (with_loops 60 0) (asked 28799 36000) [] }
{}

// a change by one footpath is plain, and so is one footpath to the target; a chain isn't, nor is a loop at the target,
// nor a change without a footpath
fn some_are_plain()
    ensures change { IsPlain (with_loops 0 0) 2 (by_change 0) }
    ensures direct { IsPlain (with_loops 0 0) 2 direct }
    ensures walk { IsPlain with_chain 2 (from_start None (ride 0 0 (footpath 1 2 60 ∷ []) ∷ [])) }
    ensures chain { IsPlain with_chain 2 (from_start None (ride 0 0 (footpath 1 1 0 ∷ footpath 1 2 60 ∷ []) ∷ [])) → ⊥ }
    ensures loop_at_target { IsPlain (with_loops 0 0) 2 (from_start None (ride 0 1 (footpath 2 2 0 ∷ []) ∷ [])) → ⊥ }
    ensures no_change { IsPlain (with_loops 0 0) 2 (from_start None (ride 0 0 [] ∷ ride 2 2 [] ∷ [])) → ⊥ }
{}

// what a node spells depends on the nodes before it, and on no others
#[tactic(auto, unfolding(profile_scan::specs::Nodes::spelled_on))]
fn nodes_spell()
    ensures change { (spelling (Ends 2 None ∷ Boards (footpath 1 1 0) 2 0 ∷ Changes 0 1 ∷ SetsOut None 0 2
        ∷ [])).journey 3 ≡ Some (by_change 0) }
    ensures on_foot { (spelling (Ends 2 None ∷ SetsOut (Some (footpath 0 1 120)) 2 0 ∷ [])).journey 1
        ≡ Some (on_foot 120 2) }
    ensures no_journey { (spelling (Ends 2 None ∷ SetsOut None 2 0 ∷ [])).journey 0 ≡ None }
    ensures forward { (spelling (SetsOut None 0 1 ∷ Ends 1 None ∷ [])).journey 0 ≡ None }
    ensures none { (spelling []).journey 0 ≡ None }
{}

#[test]
fn they_hold() {
    both_ways_count();
    they_are_worth(&Arrival, &ArrivalTrips);
    a_slow_change_misses_the_trip();
    the_latest_departure_counts();
    the_latest_arrival_counts();
    a_start_on_foot_counts(&Arrival, &ArrivalTripsWalk);
    walks_count();
    windows_are_computed();
    one_dominates_by_arrival_alone(&Arrival, &ArrivalTrips);
    answers_are_computed(&Arrival);
    some_are_plain();
    nodes_spell();
}
