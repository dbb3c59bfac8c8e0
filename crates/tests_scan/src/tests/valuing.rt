//! Values under each criterion: folded from a journey's end, compared, listed and reported.

ghost use Rattle.std.specs.Prelude.{◌≡◌};
ghost use Rattle.criteria.specs.Laws.{IsTime, IsSecs};

use criteria::{
    Arrival, ArrivalTrips, ArrivalTripsWalk, Criterion, CriterionName, ShowsFigures, TimeTrips,
    TimeTripsWalk, laws,
};
use std::cmp::Ordering;

const fn trips(time: u32, trips: u16) -> TimeTrips
    ensures { result ≡ record { time = time; trips = trips } }
{
    TimeTrips { time, trips }
}

const fn walking(time: u32, trips: u16, walked: u32) -> TimeTripsWalk
    ensures { result ≡ record { time = time; trips = trips; walked = walked } }
{
    TimeTripsWalk {
        time,
        trips,
        walked,
    }
}

// The value of two legs with a footpath between them.
fn two_legs<C: Criterion>(criterion: &C, time: u32, secs: u32) -> C::V
    requires time { IsTime time }
    requires secs { IsSecs secs }
{
    let arrived = criterion.arrive(time);
    let last = criterion.ride(&arrived);
    let walked = criterion.walk(secs, &last);
    criterion.ride(&walked)
}

#[test]
fn a_value_is_folded_from_the_end(rt: HostRuntime) {
    assert!(rt; two_legs(&Arrival, 30_000, 120) == 30_000);
    assert!(rt; two_legs(&ArrivalTrips, 30_000, 120) == trips(30_000, 2));
    assert!(rt; two_legs(&ArrivalTripsWalk, 30_000, 120) == walking(30_000, 2, 120));
}

#[test]
fn the_number_of_trips_stays_at_the_greatest(rt: HostRuntime) {
    let before = trips(30_000, 65_534);
    let most = trips(30_000, 65_535);
    assert!(rt; ArrivalTrips.ride(&before) == most);
    assert!(rt; ArrivalTrips.ride(&most) == most);
}

#[test]
fn the_seconds_of_walking_stay_at_the_greatest(rt: HostRuntime) {
    let far = walking(30_000, 65_535, 4_294_967_200);
    let farthest = walking(30_000, 65_535, 4_294_967_295);
    assert!(rt; ArrivalTripsWalk.walk(95, &far) == farthest);
    assert!(rt; ArrivalTripsWalk.walk(96, &far) == farthest);
    assert!(rt; ArrivalTripsWalk.ride(&far) == far);
}

#[test]
fn more_trips_with_less_walking_are_neither_worse_nor_better(rt: HostRuntime) {
    let ridden = walking(30_000, 2, 60);
    let walked = walking(30_000, 1, 300);
    assert!(rt; !ArrivalTripsWalk.no_worse(&ridden, &walked));
    assert!(rt; !ArrivalTripsWalk.no_worse(&walked, &ridden));
    assert!(rt; ArrivalTripsWalk.no_worse(&walked, &walked));
    assert!(rt; ArrivalTripsWalk.list_order(&walked, &ridden) == Ordering::Less);
}

#[test]
fn values_are_reported(rt: HostRuntime) {
    let figures = ArrivalTripsWalk.figures_of(&walking(30_000, 2, 60));
    assert!(rt;
        figures.arrival == 30_000 && figures.trips == Some(2) && figures.walked == Some(60)
    );
    let figures = Arrival.figures_of(&30_000);
    assert!(rt; figures.trips == None && figures.walked == None);
    assert!(rt; ArrivalTrips.figures_of(&trips(1, 2)).walked == None);
}

#[test]
fn criteria_are_named(rt: HostRuntime) {
    assert!(rt; CriterionName::of("arrival+trips") == Some(CriterionName::ArrivalTrips));
    assert!(rt; CriterionName::of("trips") == None);
    assert!(rt; CriterionName::ArrivalTripsWalk.name() == "arrival+trips+walk");
    for name in CriterionName::NAMES {
        assert!(rt; CriterionName::of(name).is_some(), "{name}");
    }
}

#[test]
fn laws_hold() {
    laws::arrival_is_the_time(&Arrival);
    laws::trips_are_counted(&ArrivalTrips);
    laws::walking_is_counted(&ArrivalTripsWalk);
    laws::names_differ();
}

#[test]
fn earlier_with_more_trips_is_neither_worse_nor_better(rt: HostRuntime) {
    let early = trips(30_000, 2);
    let direct = trips(30_600, 1);
    assert!(rt; !ArrivalTrips.no_worse(&early, &direct));
    assert!(rt; !ArrivalTrips.no_worse(&direct, &early));
    assert!(rt; ArrivalTrips.no_worse(&direct, &direct));
    assert!(rt; ArrivalTrips.list_order(&early, &direct) == Ordering::Less);
    assert!(rt; ArrivalTrips.list_order(&direct, &direct) == Ordering::Equal);
}

#[test]
fn earlier_is_better(rt: HostRuntime) {
    assert!(rt; Arrival.no_worse(&30_000, &30_600));
    assert!(rt; !Arrival.no_worse(&30_600, &30_000));
    assert!(rt; Arrival.list_order(&30_600, &30_000) == Ordering::Greater);
}
