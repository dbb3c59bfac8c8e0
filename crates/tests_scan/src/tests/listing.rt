//! Lists of points and their fronts.

ghost use Rattle.std.specs.Prelude.{◌≡◌, ◌<◌, ◌≤◌, IfOk, length};
ghost use Rattle.criteria.specs.Laws.{IsTime};
ghost use Rattle.fronts.specs.Lists.{IsSound, entries_of};

use criteria::{ArrivalTrips, Criterion, TimeTrips};
use fronts::{Boarding, FrontLists, RiddenLabel};
use std::alloc::{AllocError, Global};

// Boarding connection 7 by footpath 0, which takes no time.
fn without_walk(departure: u32) -> Boarding
    ensures { result ≡ record { departure = departure; first = 7; walk = 0; secs = 0 } }
{
    Boarding {
        departure,
        first: 7,
        walk: 0,
        secs: 0,
    }
}

// Takes in one value, without a walk.
fn take(
    lists: &mut FrontLists<ArrivalTrips>,
    head: u32,
    departure: u32,
    label: u32,
    time: u32,
    trips: u16,
) -> Result<u32, AllocError>
    requires sound { IsSound ⟦<ArrivalTrips as Criterion>⟧.rules lists.old }
    requires head { head < length (entries_of lists.old) }
    requires time { IsTime time }
    ensures sound { IsSound ⟦<ArrivalTrips as Criterion>⟧.rules lists.new }
    ensures grows { length (entries_of lists.old) ≤ length (entries_of lists.new) }
    ensures within { IfOk result (λ new. new < length (entries_of lists.new)) }
{
    let ridden = [RiddenLabel {
        value: TimeTrips { time, trips },
        label,
    }];
    lists.insert(head, without_walk(departure), &ridden)
}

// Takes in two values at once, without a walk.
fn take_two(
    lists: &mut FrontLists<ArrivalTrips>,
    head: u32,
    departure: u32,
    first: TimeTrips,
    second: TimeTrips,
) -> Result<u32, AllocError>
    requires sound { IsSound ⟦<ArrivalTrips as Criterion>⟧.rules lists.old }
    requires head { head < length (entries_of lists.old) }
    requires first { IsTime first.time }
    requires second { IsTime second.time }
    ensures sound { IsSound ⟦<ArrivalTrips as Criterion>⟧.rules lists.new }
    ensures grows { length (entries_of lists.old) ≤ length (entries_of lists.new) }
    ensures within { IfOk result (λ new. new < length (entries_of lists.new)) }
{
    let ridden = [
        RiddenLabel {
            value: first,
            label: 1,
        },
        RiddenLabel {
            value: second,
            label: 2,
        },
    ];
    lists.insert(head, without_walk(departure), &ridden)
}

// How many points the front from a time on has.
fn count(lists: &FrontLists<ArrivalTrips>, head: u32, time: u32) -> usize
    requires sound { IsSound ⟦<ArrivalTrips as Criterion>⟧.rules lists.now }
    requires head { head < length (entries_of lists.now) }
{
    lists.front_len(lists.front_from(head, time))
}

// The same for the times from 37,000 down to 34,000.
fn counts(lists: &FrontLists<ArrivalTrips>, head: u32) -> [usize; 4]
    requires sound { IsSound ⟦<ArrivalTrips as Criterion>⟧.rules lists.now }
    requires head { head < length (entries_of lists.now) }
{
    [
        count(lists, head, 37_000),
        count(lists, head, 36_000),
        count(lists, head, 35_000),
        count(lists, head, 34_000),
    ]
}

#[test]
fn a_list_stays_when_another_is_made_of_it(rt: HostRuntime) -> Result<(), AllocError> {
    let mut lists = FrontLists::new(rt.alloc(), ArrivalTrips, 0)?;
    let late = take(&mut lists, 0, 36_000, 1, 40_000, 1)?;
    let both = take(&mut lists, late, 35_000, 2, 39_000, 2)?;
    let same = take(&mut lists, both, 35_000, 3, 41_000, 0)?;
    let earlier = take(&mut lists, same, 34_000, 4, 42_000, 3)?;
    let all = take(&mut lists, earlier, 37_000, 5, 38_000, 2)?;
    assert!(rt; counts(&lists, same) == [0, 1, 3, 3]);
    assert!(rt; count(&lists, same, 36_001) == 0);
    assert!(rt; counts(&lists, all) == [1, 2, 3, 3]);
    Ok(())
}

#[test]
fn a_value_behind_earlier_points_is_compared_with_later_ones_alone(
    rt: HostRuntime,
) -> Result<(), AllocError> {
    let mut lists = FrontLists::new(rt.alloc(), ArrivalTrips, 0)?;
    let late = take(&mut lists, 0, 36_000, 1, 40_000, 1)?;
    let both = take(&mut lists, late, 34_000, 2, 39_000, 1)?;
    let same = take(&mut lists, both, 35_000, 3, 40_000, 1)?;
    assert_eq!(rt; same, both);
    let more = take(&mut lists, both, 35_000, 4, 39_500, 1)?;
    assert!(rt; more != both);
    let front = lists.front_from(more, 35_000);
    assert!(rt; lists.front_len(front) == 1);
    assert_eq!(rt; lists.front_point(front, 0).value.time, 39_500);
    assert_eq!(rt; count(&lists, more, 36_000), 1);
    assert_eq!(rt; count(&lists, more, 34_000), 1);
    Ok(())
}

#[test]
fn two_values_come_at_once(rt: HostRuntime) -> Result<(), AllocError> {
    let mut lists = FrontLists::new(rt.alloc(), ArrivalTrips, 0)?;
    let one = take(&mut lists, 0, 36_000, 5, 40_000, 1)?;
    let early = TimeTrips {
        time: 39_000,
        trips: 2,
    };
    let direct = TimeTrips {
        time: 41_000,
        trips: 0,
    };
    let before = take_two(&mut lists, one, 35_000, early, direct)?;
    assert_eq!(rt; count(&lists, before, 35_000), 3);
    let earliest = TimeTrips {
        time: 38_000,
        trips: 3,
    };
    let worse = TimeTrips {
        time: 42_000,
        trips: 1,
    };
    let behind = take_two(&mut lists, before, 35_500, earliest, worse)?;
    assert_eq!(rt; count(&lists, behind, 35_500), 2);
    assert_eq!(rt; count(&lists, behind, 35_000), 4);
    Ok(())
}

// A list of one point, boarded by label 5.
#[test]
fn a_point_tells_its_step(rt: HostRuntime) -> Result<(), AllocError> {
    let mut lists = FrontLists::new(rt.alloc(), ArrivalTrips, 0)?;
    let one = take(&mut lists, 0, 36_000, 5, 40_000, 1)?;
    let front = lists.front_from(one, 36_000);
    assert!(rt; lists.front_len(front) == 1);
    let point = lists.front_point(front, 0);
    assert!(rt; point.departure == 36_000 && point.value.time == 40_000);
    let Some(step) = lists.step(point.tag) else {
        return Err(AllocError);
    };
    assert!(rt; step.first == 7 && step.label == 5);
    Ok(())
}
