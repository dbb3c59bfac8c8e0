//! A criterion that a test defines, by which riding makes a value better: so a scan may leave nothing out because of
//! the points found, and must find journeys that it would otherwise leave out.

ghost use Rattle.std.specs.Prelude.{◌-◌, nat_le, nat_lt};
ghost use Rattle.std.specs.Ordering.{nat_cmp};
ghost use Rattle.std.specs.Cmp.{nat_cmp_total};
ghost use Rattle.std.proofs.lemmas.Bool.{le-leb, lt-ltb};
ghost use Rattle.std.proofs.lemmas.Map.Lookups.{exact_unsigned};
ghost use Rattle.criteria.specs.Laws.{time_limit};
ghost use Rattle.criteria.specs.NumberLaws.{nat_le-refl, nat_le-trans, nat_le-antisymm};
ghost use Rattle.tests_scan.specs.Bonus.{less_monotone, less_below};

use super::images::image;
use criteria::{Arrival, Criterion};
use droppable_sources::{decoded, in_place};
use image_verifier::Verified;
use journeys::{Answer, answer_query, journey_text};
use profile_scan::{InLists, Scanned};
use sources::ConnSource;
use std::alloc::Global;
use std::cmp::Ordering;
use std::process::Abort;
use std::test::*;
use timetable::Query;

/// The time of arrival, less a minute for each trip that is ridden.
#[derive(Clone, Copy)]
struct WithBonus;

impl Criterion for WithBonus {
    type V = u32;

    ghost rules = { λ _. record {
      arrive = λ time. time;
      ride = λ v. v - 60;
      walk = λ _ v. v;
      no_worse = nat_le;
      list_order = nat_cmp;
      admits = λ v. nat_lt v time_limit;
    } };

    fn arrive(&self, time: u32) -> u32 {
        time
    }

    fn ride(&self, value: &u32) -> u32 {
        value.saturating_sub(60)
    }

    fn walk(&self, _secs: u32, value: &u32) -> u32 {
        *value
    }

    fn no_worse(&self, value: &u32, other: &u32) -> bool {
        *value <= *other
    }

    fn list_order(&self, value: &u32, other: &u32) -> Ordering {
        value.cmp(other)
    }

    ghost laws = { λ _. record {
      arrive_admits = λ time h. lt-ltb time time_limit h;
      ride_admits = λ v a. less_below 60 v time_limit a;
      walk_admits = λ secs v h a. a;
      reflexive = λ v a. nat_le-refl v;
      transitive = λ u v w a b c h k. nat_le-trans u v w h k;
      antisymmetric = λ v w a b h k. nat_le-antisymm v w h k;
      arrive_monotone = λ s t h k le. le-leb s t le;
      ride_monotone = λ v w a b h. less_monotone 60 v w h;
      walk_monotone = λ c d v w p q a b le h. h;
      walk_worsens = λ d v h a. nat_le-refl v;
      walk_joins = λ d d1 d2 v p q r a le. nat_le-refl v;
      order_turns = λ v w a b. nat_cmp_total.antisymm v w;
      order_chains = λ u v w a b c h k. nat_cmp_total.trans u v w h k;
      order_exact = λ v w a b h. exact_unsigned v w h;
    } };
}

impl Scanned for WithBonus {
    type Kept = InLists<Self>;
}

/// From stop 0 to stop 2: a change at stop 1 arrives at 08:20:30, and a trip that leaves later arrives at 08:20:00.
const LATER_AND_EARLIER: [u32; 56] = [
    0x50415343, 1, 3, 3, 4, 3, 9, 1705276800, 0, 0, 1, 28800, 29400, 0, 3, 1, 2, 29400, 30600, 0,
    3, 1, 2, 29520, 30030, 1, 3, 0, 2, 29600, 30000, 2, 3, 0, 1, 2, 3, 0, 0, 1, 0, 2, 0, 0, 1, 2,
    3, 5, 7, 9, 20240115, 20240115, 20240115, 0x54434241, 0x54325431, 0x00000033,
];

/// From 07:00:00 until 09:00:00, by 10:00:00.
const ASKED: Query = Query {
    source: 0,
    target: 2,
    from: 25200,
    until: 32400,
    by: 36000,
};

/// Asserts that an answer has these departures, each with its time, its value and its journey, and that every
/// connection was read.
fn assert_departures<C: Criterion<V = u32>>(
    rt: &impl Abort,
    alloc: Global,
    answer: &Answer<C>,
    expected: &[(u32, u32, &str)],
) -> Result<(), Fail> {
    assert!(rt; answer.read == 4 && answer.departures.len() == expected.len());
    for (departure, (time, value, text)) in answer.departures.iter().zip(expected) {
        assert!(rt;
            departure.time == *time && departure.value == *value,
            "{text}"
        );
        let figures = journey_text(alloc, &departure.journey)?;
        assert!(rt; figures.as_slice() == text.as_bytes(), "{text}");
    }
    Ok(())
}

/// Asserts that a source gives this answer.
fn assert_answer<S: ConnSource, C: Criterion<V = u32> + Scanned>(
    rt: &impl Abort,
    alloc: Global,
    source: &mut S,
    criterion: &C,
    expected: &[(u32, u32, &str)],
) -> Result<(), Fail> {
    let stops = source.stops();
    ASKED.check(stops).ok().ok_or("the query can be asked")?;
    let answer = answer_query(alloc, source, criterion, &ASKED)?;
    assert_departures(rt, alloc, &answer, expected)
}

/// Asserts that the image in place gives this answer, and that its lists decoded do.
fn assert_answers<C: Criterion<V = u32> + Scanned>(
    rt: &impl Abort,
    alloc: Global,
    image: &Verified,
    criterion: &C,
    expected: &[(u32, u32, &str)],
) -> Result<(), Fail> {
    assert_answer(rt, alloc, &mut in_place(image), criterion, expected)?;
    assert_answer(rt, alloc, &mut decoded(alloc, image)?, criterion, expected)
}

/// Riding twice arrives half a minute later, but gets one more minute off. When the scan reads the trips of that
/// journey, it has already found the later departure, which betters each of them as long as the first ride isn't
/// counted.
#[test]
fn riding_may_better_a_value(rt: HostRuntime) -> Result<(), Fail> {
    let alloc = rt.alloc();
    let image = image(alloc, &LATER_AND_EARLIER)?;
    let direct = (29600, 30000, "ride 3 3");
    let with_bonus = [
        (28800, 29910, "ride 0 0 walk 1 1 0 ride 2 2"),
        (29600, 29940, "ride 3 3"),
    ];
    assert_answers(&rt, alloc, &image, &Arrival, &[direct])?;
    assert_answers(&rt, alloc, &image, &WithBonus, &with_bonus)
}
