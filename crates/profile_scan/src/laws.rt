//! The laws by which one scan from the last connection to the first finds the answer of a profile query.
//!
//! Each is a function whose contract is the law, for every criterion with its laws. Most have no code and are about
//! the definitions alone; `found_answers` is about one answer, and the last two run the scan over two sources.

ghost use Rattle.std.specs.Prelude.{◌≡◌, ◌++◌, ℕ, IfOk, OnOk, OnErr, map, reverse, take};
ghost use Rattle.timetable.specs.TimetableValue.{TimetableValue};
ghost use Rattle.timetable.specs.declared.query.Query.{Query};
ghost use Rattle.scan_state.specs.SetQuery.{CountsBetween, OneIsPlain};
ghost use Rattle.timetable.specs.Queries.{IsAskable};
ghost use Rattle.profile_scan.specs.Answered.{Answer};
ghost use Rattle.profile_scan.specs.Found.{Answers, criterion_of_found, listed, nodes_of, query_of, timetable_of};
ghost use Rattle.profile_scan.specs.Found.{walk_of_found};
ghost use Rattle.scan_state.specs.Points.{untagged};
ghost use Rattle.profile_scan.specs.Window.{window};
ghost use Rattle.scan_state.specs.Steps.{IsStep};
ghost use Rattle.scan_state.specs.Plain.{ChainsGiveWay};
ghost use Rattle.profile_scan.specs.LawStatements.{TogetherNeverContinue, NothingFollows, OneIndexDown};
ghost use Rattle.profile_scan.specs.LawStatements.{TagsMayCome, CutIsTheSources, MatchIsTheAnswer, OneAnswer};
ghost use Rattle.profile_scan.specs.LawStatements.{WindowIsReadBackward};

use crate::answering::profile;
use crate::found::Found;
use crate::scanned::Scanned;
use criteria::Criterion;
use image_verifier::Verified;
use sources::{ConnSource, Decoded, InPlace, ReadLog};
use std::alloc::{AllocError, Global};
use timetable::Query;

/// Each chain of footpaths can be replaced by one footpath, which takes no longer and is no worse before any value.
pub fn chains_give_way<C: Criterion>(_criterion: &C)
    ensures { ChainsGiveWay (C.rules _criterion.now) }
{}

/// Connections that depart together can't continue one another, neither in a trip nor after a walk.
pub fn together_never_continue()
    ensures { TogetherNeverContinue }
{}

/// Past the window's end no connection follows. There the empty state matches: no stop has points, no trip has labels,
/// and no points are found.
pub fn nothing_follows<C: Criterion>(_criterion: &C)
    ensures { NothingFollows (C.rules _criterion.now) }
{}

/// If the stops' points, the labels and the points found match every way to go on over the later connections, then
/// after the step of one connection they also match the ways that begin with it.
pub fn one_index_down<C: Criterion>(_criterion: &C)
    ensures { OneIndexDown (C.rules _criterion.now) (IsStep (C.rules _criterion.now)) }
{}

/// Points that match still match once further tags have a meaning.
pub fn more_tags_keep_matches<C: Criterion>(_criterion: &C)
    ensures { TagsMayCome (C.rules _criterion.now) }
{}

/// The latest departure matters only at the source: no way to go on depends on it, and whether a journey counts depends
/// on it only through the journey's own departure.
pub fn until_matters_at_source()
    ensures { CutIsTheSources CountsBetween }
{}

/// Points found that match at the window's start, in order, none dominating another, are the answer.
pub fn match_is_the_answer<C: Criterion>(_criterion: &C)
    ensures { MatchIsTheAnswer (C.rules _criterion.now) }
{}

/// A query between sets has only one answer, tags aside.
pub fn one_answer<C: Criterion>(_criterion: &C)
    ensures { OneAnswer (C.rules _criterion.now) }
{}

/// A query between one source and one target asks what the plain query does: it can be asked in the same cases, the
/// same journeys count, and points and answer are the same.
pub fn one_is_plain<C: Criterion>(_criterion: &C)
    ensures { (t : TimetableValue) (q : Query) → OneIsPlain (C.rules _criterion.now) t q }
{}

/// Read backward, a window's indices, all of connections, fall by one each time, and departures never rise.
pub fn window_is_read_backward()
    ensures { WindowIsReadBackward }
{}

/// What was found is the answer of the query that it keeps, over the timetable that it keeps.
pub fn found_answers<C: Criterion>(found: &Found<C>)
    ensures { Answer (C.rules (criterion_of_found found.now)) (timetable_of found.now) (query_of found.now)
        (listed found.now) (nodes_of found.now) (walk_of_found found.now) }
{
    let _kept = found.points();
}

/// Two sources of one timetable give a query the same points, tags aside, and each is asked once for each connection of
/// the window. If memory or numbers of 32 bits run out, each was asked for a first part of them: none, some or all.
pub fn two_sources<A: ConnSource, B: ConnSource, C: Scanned>(
    alloc: Global,
    one: &mut A,
    other: &mut B,
    criterion: &C,
    query: &Query,
) -> Result<(Found<C>, Found<C>), AllocError>
    requires askable { IsAskable (A.timetable one.old).stops query.now }
    requires alike { B.timetable other.old ≡ A.timetable one.old }
    ensures answers { IfOk result
        (λ found. Answers criterion.now (C.rules criterion.now) (A.timetable one.old) query.now found.0
        × Answers criterion.now (C.rules criterion.now) (A.timetable one.old) query.now found.1) }
    ensures same { IfOk result (λ found. map untagged (listed found.0) ≡ map untagged (listed found.1)) }
    ensures timetable { A.timetable one.new ≡ A.timetable one.old }
    ensures other_timetable { B.timetable other.new ≡ B.timetable other.old }
    ensures log { OnOk result (A.log one.new ≡ A.log one.old ++ reverse (window (A.timetable one.old) query.now)) }
    ensures other_log { OnOk result
        (B.log other.new ≡ B.log other.old ++ reverse (window (A.timetable one.old) query.now)) }
    ensures err { OnErr result ((n : ℕ)
        × (A.log one.new ≡ A.log one.old ++ take n (reverse (window (A.timetable one.old) query.now)))) }
    ensures other_err { OnErr result ((n : ℕ)
        × (B.log other.new ≡ B.log other.old ++ take n (reverse (window (A.timetable one.old) query.now)))) }
{
    let found = profile(alloc, one, criterion, query)?;
    let again = profile(alloc, other, criterion, query)?;
    Ok((found, again))
}

/// The answers to one query from an image in place and its decoded lists, and both sources: their logs say which
/// connections each was asked for.
#[derive(Drop)]
pub struct FromBoth<'a, C: Criterion, L> {
    pub in_place: InPlace<'a, L>,
    pub decoded: Decoded<L>,
    pub found_in_place: Found<C>,
    pub found_decoded: Found<C>,
}

/// An image read in place and its lists decoded give a query the same points, tags aside, and each is asked once for
/// each connection of the window, from the last to the first. It fails only as `profile` does.
pub fn both_sources<'a, C: Scanned, L: ReadLog + Drop>(
    alloc: Global,
    image: &'a Verified,
    criterion: &C,
    query: &Query,
    first: L,
    second: L,
) -> Result<FromBoth<'a, C, L>, AllocError>
    requires { IsAskable image.now.timetable.stops query.now }
    ensures answers { IfOk result (λ both.
        Answers criterion.now (C.rules criterion.now) image.now.timetable query.now both.found_in_place
        × Answers criterion.now (C.rules criterion.now) image.now.timetable query.now both.found_decoded) }
    ensures same { IfOk result
        (λ both. map untagged (listed both.found_in_place) ≡ map untagged (listed both.found_decoded)) }
    ensures log { IfOk result (λ both. ⟦<InPlace<'a, L> as ConnSource>⟧.log both.in_place
        ≡ L.reads first ++ reverse (window image.now.timetable query.now)) }
    ensures decoded_log { IfOk result (λ both. ⟦<Decoded<L> as ConnSource>⟧.log both.decoded
        ≡ L.reads second ++ reverse (window image.now.timetable query.now)) }
{
    let mut in_place = InPlace::new(image, first);
    let mut decoded = Decoded::of(alloc, image, second)?;
    let found = two_sources(alloc, &mut in_place, &mut decoded, criterion, query)?;
    Ok(FromBoth {
        in_place,
        decoded,
        found_in_place: found.0,
        found_decoded: found.1,
    })
}
