//! The answers from all stops to any of several targets, by one scan.

ghost use Rattle.std.specs.Prelude.{◌≡◌, ◌++◌, ℕ, IfOk, OnOk, OnErr, reverse, take};
ghost use Rattle.scan_state.specs.SetQuery.{IsAskableBetween, question};
ghost use Rattle.profile_scan.specs.Destinations.{question_to_any};
ghost use Rattle.profile_scan.specs.Window.{window_of};
ghost use Rattle.scan_state.specs.Origins.{AreUnder};
ghost use Rattle.profile_scan.specs.Everywhere.{AnswerToAny, AreStopLists, asked_to_any, criterion_to_any};

use crate::answering::{ask, found_in_nodes};
use crate::destinations::Destinations;
use crate::found::in_order;
use crate::found_between::FoundBetween;
use crate::scan::{State, scan_window};
use crate::scanned::Scanned;
use crate::view::ScanView;
use bags::Point;
use criteria::Criterion;
use scan_state::{Origins, ScanQuery};
use sources::ConnSource;
use std::alloc::{AllocError, Global};
use timetable::Footpath;

/// The answers from every stop to any of several targets, for one window and criterion. The scan's records of how
/// journeys go are kept as they are; `found_from` spells those from one stop.
#[derive(Drop)]
pub struct ProfilesToAny<C: Scanned> {
    asked: ScanQuery<C>,
    state: State<C::Kept, Origins<C>>,
    // the points of each stop, in order; a point's tag is the index of how one sets out for it
    lists: Vec<Vec<Point<C::V>>>,
}

impl<C: Scanned> ProfilesToAny<C> {
    ghost use Rattle.std.specs.Prelude.{◌<◌, Contains, length};
    ghost use Rattle.scan_state.specs.ScanState.{final_walks_of};
    ghost use Rattle.profile_scan.specs.Found.{AnswersBetween};
    ghost use Rattle.scan_state.specs.Origins.{from_stop};
    ghost use Rattle.profile_scan.specs.Everywhere.{listed_to_any, stops_to_any, walk_to_any};

    /// The targets, in the order in which they were asked for.
    pub fn targets(&self) -> &[u32]
        ensures { result.now ≡ (asked_to_any self.now).targets }
    {
        &self.asked.query.targets
    }

    /// The best departures from a stop, by departure, then by the criterion's order; from a target those of journeys
    /// that come back to it or go on to another. Only `found_from` can read their tags.
    pub fn points(&self, stop: u32) -> &[Point<C::V>]
        requires { stop < stops_to_any self.now }
        ensures { result.now ≡ listed_to_any self.now stop }
    {
        &self.lists[stop as usize]
    }

    /// The shortest footpath from a stop to a target, if there is one, and of equal ones that to the target that was
    /// named first; from a target its loop.
    pub fn direct_walk(&self, stop: u32) -> Option<Footpath>
        requires { stop < length (final_walks_of self.now.asked.final_walks) }
        ensures { result ≡ walk_to_any self.now stop }
    {
        self.asked.final_walks.walk_from(stop)
    }

    /// Returns the answer of the query from one stop, which is no target, to any of the targets, with its journeys.
    /// `source` has to read the timetable that was scanned. The only error is that memory runs out.
    pub fn found_from<S: ConnSource>(
        &self,
        alloc: Global,
        source: &S,
        stop: u32,
    ) -> Result<FoundBetween<C>, AllocError>
        requires stop { stop < (S.timetable source.now).stops }
        requires differ { Contains (asked_to_any self.now).targets stop → ⊥ }
        requires answered { AnswerToAny C.rules C.Kept.value (S.timetable source.now) self.now }
        ensures { IfOk result (λ found. AnswersBetween (criterion_to_any self.now)
            (C.rules (criterion_to_any self.now)) (S.timetable source.now)
            (from_stop (asked_to_any self.now) stop) found) }
    {
        let origin = &self.state.origin.each[stop as usize];
        let view = ScanView {
            keeping: &self.state.keeping,
            origin,
        };
        let query = self.asked.query.from_stop(alloc, stop)?;
        let points = self.points(stop);
        let walk = self.direct_walk(stop);
        found_in_nodes(
            alloc,
            source,
            &self.asked.criterion,
            &query,
            &view,
            points,
            walk,
        )
    }
}

// Returns the points found from each stop, in order.
fn lists_in_order<C: Criterion>(
    alloc: Global,
    criterion: &C,
    origins: &Origins<C>,
) -> Result<Vec<Vec<Point<C::V>>>, AllocError>
    requires { AreUnder criterion.now origins.now }
    ensures { IfOk result (λ lists. AreStopLists (C.rules criterion.now) origins.now lists.items) }
{
    let mut lists = Vec::with_capacity(alloc, origins.each.len())?;
    for stop in 0..origins.each.len() {
        let origin = &origins.each[stop];
        let points = in_order(alloc, criterion, &origin.found)?;
        lists.push(points)?;
    }
    Ok(lists)
}

/// Answers a query from every stop to any of several targets by one scan: for each stop, of the points of all journeys
/// from there to one of the targets that count, exactly those that no other dominates, in order.
///
/// No journey ends with a walk from a target, and the walk from a stop is the shortest footpath to a target. From a
/// target, where no query can be asked, the journeys are those that come back to it or go on to another; a caller that
/// wants only what can be asked leaves the targets out.
///
/// Each connection of the window is asked for once for all stops and targets, from the last to the first. The only
/// error is that memory runs out, or that a number would need more than 32 bits; then a first part of them, or all, was
/// asked for.
pub fn profiles_to_any<S: ConnSource, C: Scanned>(
    alloc: Global,
    source: &mut S,
    criterion: &C,
    destinations: &Destinations,
) -> Result<ProfilesToAny<C>, AllocError>
    requires { IsAskableBetween (S.timetable source.old).stops (question_to_any destinations.now) }
    ensures timetable { S.timetable source.new ≡ S.timetable source.old }
    ensures answers { IfOk result (λ profiles. AnswerToAny C.rules C.Kept.value (S.timetable source.old) profiles) }
    ensures keeps { IfOk result (λ profiles. (criterion_to_any profiles ≡ criterion.now)
        × (asked_to_any profiles ≡ question_to_any destinations.now)) }
    ensures log { OnOk result (S.log source.new ≡ S.log source.old
        ++ reverse (window_of (S.timetable source.old) destinations.now.from destinations.now.by)) }
    ensures err { OnErr result ((n : ℕ) × (S.log source.new ≡ S.log source.old
        ++ take n (reverse (window_of (S.timetable source.old) destinations.now.from destinations.now.by)))) }
{
    let start = source.first_at(destinations.from);
    let end = source.first_at(destinations.by);
    let query = destinations.query(alloc)?;
    let asked = ask(alloc, source, criterion, query)?;
    let scan = scan_window::<S, C, C::Kept, Origins<C>>(alloc, source, &asked, start..end)?;
    let lists = lists_in_order(alloc, criterion, &scan.state.origin)?;
    Ok(ProfilesToAny {
        asked,
        state: scan.state,
        lists,
    })
}
