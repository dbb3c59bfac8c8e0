//! A criterion over a product of two others, of which it knows no more than that they are criteria.

ghost use Rattle.tests_scan.specs.Both.{both_rules, both_laws};

use super::images::image;
use criteria::{Arrival, ArrivalTrips, Criterion};
use droppable_sources::in_place;
use image_layout::sample_words;
use journeys::{Answer, answer_query, journey_text};
use profile_scan::{InLists, Scanned};
use sources::ConnSource;
use std::alloc::Global;
use std::cmp::Ordering;
use std::process::Abort;
use std::test::*;
use timetable::Query;

/// A value of each of two criteria.
#[derive(Clone, Copy)]
struct Both<A, B>(A, B);

impl<A: Criterion, B: Criterion> Criterion for Both<A, B> {
    type V = (A::V, B::V);

    ghost rules = { λ both. both_rules (A.rules both.0) (B.rules both.1) };

    fn arrive(&self, time: u32) -> (A::V, B::V) {
        (self.0.arrive(time), self.1.arrive(time))
    }

    fn ride(&self, value: &(A::V, B::V)) -> (A::V, B::V) {
        (self.0.ride(&value.0), self.1.ride(&value.1))
    }

    fn walk(&self, secs: u32, value: &(A::V, B::V)) -> (A::V, B::V) {
        (self.0.walk(secs, &value.0), self.1.walk(secs, &value.1))
    }

    fn no_worse(&self, value: &(A::V, B::V), other: &(A::V, B::V)) -> bool {
        self.0.no_worse(&value.0, &other.0) && self.1.no_worse(&value.1, &other.1)
    }

    fn list_order(&self, value: &(A::V, B::V), other: &(A::V, B::V)) -> Ordering {
        self.0
            .list_order(&value.0, &other.0)
            .then(self.1.list_order(&value.1, &other.1))
    }

    fn riding_worsens(&self) -> bool {
        self.0.riding_worsens() && self.1.riding_worsens()
    }

    ghost laws = { λ both. both_laws (A.rules both.0) (B.rules both.1) (A.laws both.0) (B.laws both.1) };
}

impl<A: Criterion, B: Criterion> Scanned for Both<A, B> {
    type Kept = InLists<Self>;
}

/// From 07:00:00 until 09:00:00, by 10:00:00.
const ASKED: Query = Query {
    source: 0,
    target: 2,
    from: 25200,
    until: 32400,
    by: 36000,
};

/// Asserts that an answer has these departures, each with its arrival, which both parts of its value have, its trips
/// and its journey.
fn assert_departures(
    rt: &impl Abort,
    alloc: Global,
    answer: &Answer<Both<Arrival, ArrivalTrips>>,
    expected: &[(u32, u32, u16, &str)],
) -> Result<(), Fail> {
    assert!(rt; answer.departures.len() == expected.len());
    for (departure, (time, arrival, trips, text)) in answer.departures.iter().zip(expected) {
        let (first, second) = departure.value;
        assert!(rt;
            departure.time == *time
                && first == *arrival
                && second.time == *arrival
                && second.trips == *trips,
            "{text}"
        );
        let figures = journey_text(alloc, &departure.journey)?;
        assert!(rt; figures.as_slice() == text.as_bytes(), "{text}");
    }
    Ok(())
}

/// A change is faster, and takes more trips: arrival beside arrival and trips tells no more than the latter alone.
#[test]
fn two_criteria_at_once(rt: HostRuntime) -> Result<(), Fail> {
    let alloc = rt.alloc();
    let image = image(alloc, &sample_words())?;
    let mut source = in_place(&image);
    let stops = source.stops();
    ASKED.check(stops).ok().ok_or("the query can be asked")?;
    let answer = answer_query(alloc, &mut source, &Both(Arrival, ArrivalTrips), &ASKED)?;
    let expected = [
        (28800, 30000, 2, "ride 0 0 walk 1 1 0 ride 2 2"),
        (28800, 30600, 1, "ride 0 1"),
    ];
    assert_departures(&rt, alloc, &answer, &expected)
}
