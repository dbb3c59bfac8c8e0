//! The answer of a profile query.

ghost use Rattle.std.specs.Prelude.{◌≡◌, ◌++◌, ℕ, IfOk, OnOk, OnErr, reverse, take};
ghost use Rattle.timetable.specs.Queries.{IsAskable};
ghost use Rattle.scan_state.specs.SetQuery.{IsAskableBetween, IsDirectWalk, question};
ghost use Rattle.profile_scan.specs.Window.{window, window_of};
ghost use Rattle.profile_scan.specs.Answered.{IsTaggedAnswer};
ghost use Rattle.profile_scan.specs.Found.{Answers, AnswersBetween};
ghost use Rattle.scan_state.specs.ScanRecords.{spelling_of};
ghost use Rattle.profile_scan.specs.Views.{scan_records_seen};
ghost use Rattle.scan_state.specs.Hops.{Asks};

use crate::found::{Found, in_order};
use crate::found_between::FoundBetween;
use crate::journey_nodes::journeys_as_nodes;
use crate::scan::scan_window;
use crate::scanned::Scanned;
use crate::view::ScanView;
use bags::Point;
use criteria::Criterion;
use scan_state::{Keeping, Origin, ScanQuery, SetQuery, final_walks_to, starts_from};
use sources::ConnSource;
use std::alloc::{AllocError, Global};
use timetable::{Footpath, GhostValue, Query, Timetable};

/// The timetable that a source stands for.
pub fn timetable_of<S: ConnSource>(source: &S) -> GhostValue<Timetable>
    ensures { result.value ≡ S.timetable source.now }
{
    GhostValue::at(source, &())
}

/// Finds the answer of a query that can be asked: of the points of all journeys that count for it, exactly those that
/// no other dominates, in order.
///
/// Each point has a tag that spells a journey which attains it, and the direct footpath is beside them. Each
/// connection that departs at `from` or later and before `by` is asked for once, from the last to the first (before
/// `by`, not up to `until`, since a later leg may depart after `until`). The only error is that memory runs out, or
/// that a number would need more than 32 bits; then a first part of these, or all, was asked for.
pub fn profile<S: ConnSource, C: Scanned>(
    alloc: Global,
    source: &mut S,
    criterion: &C,
    query: &Query,
) -> Result<Found<C>, AllocError>
    requires { IsAskable (S.timetable source.old).stops query.now }
    ensures timetable { S.timetable source.new ≡ S.timetable source.old }
    ensures answers { IfOk result
        (λ found. Answers criterion.now (C.rules criterion.now) (S.timetable source.old) query.now found) }
    ensures log { OnOk result
        (S.log source.new ≡ S.log source.old ++ reverse (window (S.timetable source.old) query.now)) }
    ensures err { OnErr result ((n : ℕ)
        × (S.log source.new ≡ S.log source.old ++ take n (reverse (window (S.timetable source.old) query.now)))) }
{
    let between = SetQuery::one(alloc, query)?;
    let found = profile_between(alloc, source, criterion, &between)?;
    Ok(found.of_one(query))
}

/// Finds the answer of a query between sets that can be asked: of the points of all journeys that count for some pair
/// of a source and a target, exactly those that no other dominates, in order.
///
/// Each point has a tag that spells a journey which attains it, and the direct walk is beside them: of the footpaths
/// from a source to a target the shortest, and of equal ones the first in the order of the lists. However many stops
/// there are, each connection that departs at `from` or later and before `by` is asked for once, from the last to the
/// first. The only error is that memory runs out, or that a number would need more than 32 bits; then a first part of
/// these, or all, was asked for.
pub fn profile_between<S: ConnSource, C: Scanned>(
    alloc: Global,
    source: &mut S,
    criterion: &C,
    query: &SetQuery,
) -> Result<FoundBetween<C>, AllocError>
    requires { IsAskableBetween (S.timetable source.old).stops (question query.now) }
    ensures timetable { S.timetable source.new ≡ S.timetable source.old }
    ensures answers { IfOk result (λ found.
        AnswersBetween criterion.now (C.rules criterion.now) (S.timetable source.old) (question query.now) found) }
    ensures log { OnOk result (S.log source.new ≡ S.log source.old
        ++ reverse (window_of (S.timetable source.old) query.now.from query.now.by)) }
    ensures err { OnErr result ((n : ℕ) × (S.log source.new ≡ S.log source.old
        ++ take n (reverse (window_of (S.timetable source.old) query.now.from query.now.by)))) }
{
    let start = source.first_at(query.from);
    let end = source.first_at(query.by);
    let own = query.copy()?;
    let asked = ask(alloc, source, criterion, own)?;
    let scan = scan_window::<S, C, C::Kept, Origin<C>>(alloc, source, &asked, start..end)?;
    let points = in_order(alloc, criterion, &scan.state.origin.found)?;
    let walk = asked.final_walks.direct_walk(&query.sources);
    let view = ScanView {
        keeping: &scan.state.keeping,
        origin: &scan.state.origin,
    };
    found_in_nodes(alloc, source, criterion, query, &view, &points, walk)
}

/// Returns an answer that a scan found, with its journeys as nodes. The only error is that memory runs out.
pub fn found_in_nodes<S: ConnSource, C: Criterion, K: Keeping<C>>(
    alloc: Global,
    source: &S,
    criterion: &C,
    query: &SetQuery,
    view: &ScanView<'_, C, K>,
    points: &[Point<C::V>],
    walk: Option<Footpath>,
) -> Result<FoundBetween<C>, AllocError>
    requires tagged { IsTaggedAnswer (C.rules criterion.now) (S.timetable source.now) (question query.now)
        (spelling_of (S.timetable source.now).footpaths (scan_records_seen K.value view.now)).journey points.now }
    requires direct { IsDirectWalk (S.timetable source.now) (question query.now) walk }
    ensures { IfOk result
        (AnswersBetween criterion.now (C.rules criterion.now) (S.timetable source.now) (question query.now)) }
{
    let spelled = journeys_as_nodes(alloc, source, view, points)?;
    Ok(FoundBetween {
        criterion: *criterion,
        points: spelled.points,
        nodes: spelled.nodes,
        walk,
        timetable: timetable_of(source),
        query: GhostValue::of(query),
    })
}

/// Makes a scan's query: how one sets out from the sources, and the ways to the targets.
pub fn ask<S: ConnSource, C: Criterion>(
    alloc: Global,
    source: &S,
    criterion: &C,
    query: SetQuery,
) -> Result<ScanQuery<C>, AllocError>
    requires { IsAskableBetween (S.timetable source.now).stops (question query) }
    ensures { IfOk result (Asks (S.timetable source.now) criterion.now (question query)) }
{
    let starts = starts_from(alloc, source, &query.sources)?;
    let final_walks = final_walks_to(alloc, source, &query.targets)?;
    Ok(ScanQuery {
        criterion: *criterion,
        query,
        starts,
        final_walks,
    })
}
