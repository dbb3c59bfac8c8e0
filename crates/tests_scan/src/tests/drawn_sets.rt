//! Questions between several stops, compared with what the answers of all pairs give when they are merged by hand, over
//! worked images and random ones.

use super::answering::{WITH_CHAIN, WITH_DIRECT_TRIP, WITH_WALK, is_worth};
use super::images::image;
use super::random_images::{Dice, random_words};
use criteria::{Arrival, ArrivalTrips, ArrivalTripsWalk, Figures, ShowsFigures};
use droppable_sources::in_place;
use image_layout::{sample_words, second_sample_words};
use image_verifier::Verified;
use journeys::{Answer, Departure, answer_query, check};
use profile_scan::{Scanned, SetQuery};
use station_answers::{answer_between, answer_by_targets, check_between, direct_walk};
use std::alloc::{AllocError, Global};
use std::process::Abort;
use std::test::*;
use timetable::{Footpath, Query, QueryFault};

/// What is reported of a best departure.
type Shown = (u32, Figures);

/// Whether a departure leaves no earlier than another, and is as good in all that is reported.
fn dominates(shown: Shown, other: Shown) -> bool {
    shown.0 >= other.0
        && shown.1.arrival <= other.1.arrival
        && is_at_most(shown.1.trips, other.1.trips)
        && is_at_most(shown.1.walked, other.1.walked)
}

/// Whether a number is at most another, if they are reported.
fn is_at_most(number: Option<u32>, other: Option<u32>) -> bool {
    match (number, other) {
        (Some(number), Some(other)) => number <= other,
        _ => true,
    }
}

/// Adds what is reported of the departures of an answer.
fn add_shown<C: ShowsFigures>(
    criterion: &C,
    answer: &Answer<C>,
    all: &mut Vec<Shown>,
) -> Result<(), AllocError> {
    for departure in &answer.departures {
        all.push((departure.time, criterion.figures_of(&departure.value)))?;
    }
    Ok(())
}

/// The query between two stops with the times of a question.
fn pair_of(asked: &SetQuery, source: u32, target: u32) -> Query {
    Query {
        source,
        target,
        from: asked.from,
        until: asked.until,
        by: asked.by,
    }
}

/// What is reported of the departures of all pairs. Notes the least direct walk.
fn shown_of_pairs<C: ShowsFigures + Scanned>(
    alloc: Global,
    image: &Verified,
    criterion: &C,
    asked: &SetQuery,
    walk: &mut Option<u32>,
) -> Result<Vec<Shown>, Fail> {
    let mut all = Vec::new(alloc);
    for source in &asked.sources {
        for target in &asked.targets {
            let query = pair_of(asked, *source, *target);
            if query.check(image.stops()).is_err() {
                return Err(Fail::new("a pair can be asked"));
            }
            let answer = answer_query(alloc, &mut in_place(image), criterion, &query)?;
            add_shown(criterion, &answer, &mut all)?;
            *walk = least(*walk, answer.walk);
        }
    }
    Ok(all)
}

/// The lesser of two numbers, or the only one.
fn least(number: Option<u32>, other: Option<u32>) -> Option<u32> {
    match (number, other) {
        (Some(number), Some(other)) => Some(number.min(other)),
        (Some(number), None) => Some(number),
        (None, other) => other,
    }
}

/// Whether none of these departures, other than its like, dominates one of them.
fn stands(all: &[Shown], shown: Shown) -> bool {
    !all.iter().any(|other| dominates(*other, shown) && !dominates(shown, *other))
}

/// How many departures stand, those that are alike counted once.
fn count_standing(all: &[Shown]) -> usize {
    let mut count = 0usize;
    for index in 0..all.len() {
        let shown = all[index];
        let is_new = !all[..index].iter().any(|before| *before == shown);
        if is_new && stands(all, shown) {
            count = count.saturating_add(1);
        }
    }
    count
}

/// Whether a departure's journey counts for some pair, and is worth what is reported.
fn is_attained<C: ShowsFigures>(
    image: &Verified,
    criterion: &C,
    asked: &SetQuery,
    departure: &Departure<C::V>,
) -> bool {
    for source in &asked.sources {
        for target in &asked.targets {
            let query = pair_of(asked, *source, *target);
            if let Ok(times) = check(image, &query, &departure.journey) {
                let figures = criterion.figures_of(&departure.value);
                return times.dep == departure.time
                    && is_worth(&departure.journey, times.arr, figures);
            }
        }
    }
    false
}

/// Asserts that an answer has exactly the departures that stand among those of all pairs, each with a journey.
fn assert_merged<C: ShowsFigures>(
    rt: &impl Abort,
    image: &Verified,
    criterion: &C,
    asked: &SetQuery,
    answer: &Answer<C>,
    all: &[Shown],
) {
    assert!(rt; answer.departures.len() == count_standing(all));
    for departure in &answer.departures {
        let shown = (departure.time, criterion.figures_of(&departure.value));
        assert!(rt; all.iter().any(|other| *other == shown) && stands(all, shown));
        assert!(rt; is_attained(image, criterion, asked, departure));
    }
}

/// Asserts that the departures are listed by time, each once.
fn assert_listed<C: ShowsFigures>(rt: &impl Abort, criterion: &C, answer: &Answer<C>) {
    for index in 1..answer.departures.len() {
        let (before, here) = (&answer.departures[index - 1], &answer.departures[index]);
        assert!(rt; before.time <= here.time);
        let (earlier, later) = (
            criterion.figures_of(&before.value),
            criterion.figures_of(&here.value),
        );
        assert!(rt;
            before.time < here.time
                || earlier.arrival < later.arrival
                || (earlier.arrival == later.arrival && earlier != later)
        );
    }
}

/// The answer to a question, if it can be asked.
fn answer_of<C: ShowsFigures + Scanned>(
    alloc: Global,
    image: &Verified,
    criterion: &C,
    asked: &SetQuery,
) -> Result<Answer<C>, Fail> {
    match check_between(asked, image.stops()) {
        Ok(()) => Ok(answer_between(alloc, &mut in_place(image), criterion, asked)?),
        Err(_) => Err(Fail::new("it can be asked")),
    }
}

/// Asserts that one scan for each target gives what an answer tells.
fn assert_as_by_targets<C: ShowsFigures + Scanned>(
    rt: &impl Abort,
    alloc: Global,
    image: &Verified,
    criterion: &C,
    asked: &SetQuery,
    answer: &Answer<C>,
) -> Result<(), Fail> {
    let other = answer_by_each_target(alloc, image, criterion, asked)?;
    let (mut figures, mut others) = (Vec::new(alloc), Vec::new(alloc));
    add_shown(criterion, answer, &mut figures)?;
    add_shown(criterion, &other, &mut others)?;
    assert!(rt; figures.as_slice() == others.as_slice());
    assert!(rt; answer.walk == other.walk && answer.read == other.read);
    Ok(())
}

/// The answer to a question by one scan for each target, if it can be asked.
fn answer_by_each_target<C: ShowsFigures + Scanned>(
    alloc: Global,
    image: &Verified,
    criterion: &C,
    asked: &SetQuery,
) -> Result<Answer<C>, Fail> {
    match check_between(asked, image.stops()) {
        Ok(()) => Ok(answer_by_targets(alloc, &mut in_place(image), criterion, asked)?),
        Err(_) => Err(Fail::new("it can be asked")),
    }
}

/// Compares the answer to a question with those of its pairs, and with that by one scan for each target.
fn assert_question<C: ShowsFigures + Scanned>(
    rt: &impl Abort,
    alloc: Global,
    image: &Verified,
    criterion: &C,
    asked: &SetQuery,
) -> Result<(), Fail> {
    let mut walk = None;
    let all = shown_of_pairs(alloc, image, criterion, asked, &mut walk)?;
    let answer = answer_of(alloc, image, criterion, asked)?;
    assert_merged(rt, image, criterion, asked, &answer, &all);
    assert_listed(rt, criterion, &answer);
    assert!(rt; answer.walk == walk);
    assert_as_by_targets(rt, alloc, image, criterion, asked, &answer)
}

/// Random stops: which are sources, which are targets. There may be none of either.
fn random_question(alloc: Global, dice: &mut Dice, stops: u32) -> Result<SetQuery, AllocError> {
    let (mut sources, mut targets) = (Vec::new(alloc), Vec::new(alloc));
    for stop in 0..stops {
        match dice.roll(3) {
            0 => sources.push(stop)?,
            1 => targets.push(stop)?,
            _ => {}
        }
    }
    let from = 28800 + 60 * dice.roll(20);
    Ok(SetQuery {
        sources,
        targets,
        from,
        until: from + 60 * dice.roll(30),
        by: from + 60 * dice.roll(90),
    })
}

/// Compares the answers to a question under each criterion, if it has stops on both sides.
fn assert_criteria(
    rt: &impl Abort,
    alloc: Global,
    image: &Verified,
    asked: &SetQuery,
) -> Result<(), Fail> {
    assert_question(rt, alloc, image, &Arrival, asked)?;
    assert_question(rt, alloc, image, &ArrivalTrips, asked)?;
    assert_question(rt, alloc, image, &ArrivalTripsWalk, asked)
}

#[test]
fn as_the_pairs_merged_over_random_images(rt: HostRuntime) -> Result<(), Fail> {
    let alloc = rt.alloc();
    let mut dice = Dice(66);
    for _image in 0..40 {
        let words = random_words(alloc, &mut dice)?;
        let image = image(alloc, &words)?;
        for _question in 0..5 {
            let asked = random_question(alloc, &mut dice, image.stops())?;
            assert_criteria(&rt, alloc, &image, &asked)?;
        }
    }
    Ok(())
}

/// The question from some stops to others, from 07:00:00 until 09:00:00, by 10:00:00.
fn between(alloc: Global, from: &[u32], to: &[u32]) -> Result<SetQuery, AllocError> {
    Ok(SetQuery {
        sources: from.to_vec(alloc)?,
        targets: to.to_vec(alloc)?,
        from: 25200,
        until: 32400,
        by: 36000,
    })
}

#[test]
fn as_the_pairs_merged_over_worked_images(rt: HostRuntime) -> Result<(), Fail> {
    let alloc = rt.alloc();
    for words in [
        sample_words().as_slice(),
        second_sample_words().as_slice(),
        WITH_WALK.as_slice(),
        WITH_CHAIN.as_slice(),
        WITH_DIRECT_TRIP.as_slice(),
    ] {
        let image = image(alloc, words)?;
        assert_criteria(&rt, alloc, &image, &between(alloc, &[0], &[2])?)?;
        assert_criteria(&rt, alloc, &image, &between(alloc, &[0, 1], &[2])?)?;
        assert_criteria(&rt, alloc, &image, &between(alloc, &[1, 0], &[2])?)?;
        assert_criteria(&rt, alloc, &image, &between(alloc, &[0], &[2, 1])?)?;
    }
    Ok(())
}

/// Stop 0 to stop 1 and stop 0 to stop 2 take two minutes, stop 1 to stop 2 one.
#[test]
fn the_first_of_the_shortest_walks(rt: HostRuntime) -> Result<(), Fail> {
    let alloc = rt.alloc();
    let image = image(alloc, &WITH_CHAIN)?;
    let shortest = Footpath {
        from: 1,
        to: 2,
        secs: 60,
    };
    assert!(rt; walk_between(alloc, &image, &[0, 1], &[2])? == Some(shortest));
    assert!(rt; walk_between(alloc, &image, &[1, 0], &[2])? == Some(shortest));
    Ok(())
}

fn walk_between(
    alloc: Global,
    image: &Verified,
    from: &[u32],
    to: &[u32],
) -> Result<Option<Footpath>, Fail> {
    let asked = between(alloc, from, to)?;
    match check_between(&asked, image.stops()) {
        Ok(()) => Ok(direct_walk(&in_place(image), &asked)),
        Err(_) => Err(Fail::new("it can be asked")),
    }
}

/// The first fault of a question over an image of three stops.
fn fault_of(
    alloc: Global,
    from: &[u32],
    to: &[u32],
    until: u32,
) -> Result<Option<QueryFault>, AllocError> {
    let mut asked = between(alloc, from, to)?;
    asked.until = until;
    Ok(check_between(&asked, 3).err())
}

#[test]
fn the_first_fault_is_reported(rt: HostRuntime) -> Result<(), Fail> {
    let alloc = rt.alloc();
    assert!(rt; fault_of(alloc, &[0, 3], &[0], 1)? == Some(QueryFault::UnknownStop));
    assert!(rt; fault_of(alloc, &[0], &[0, 3], 1)? == Some(QueryFault::UnknownStop));
    assert!(rt; fault_of(alloc, &[0, 1], &[2, 1], 1)? == Some(QueryFault::SameStop));
    assert!(rt; fault_of(alloc, &[0, 1], &[2], 1)? == Some(QueryFault::BadWindow));
    assert!(rt; fault_of(alloc, &[0, 1], &[2], 32400)? == None);
    Ok(())
}
