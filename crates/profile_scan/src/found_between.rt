//! The answer of a query between sets of stops.

ghost use Rattle.std.specs.Prelude.{◌≡◌};
ghost use Rattle.profile_scan.specs.Answered.{AnswerBetween};
ghost use Rattle.scan_state.specs.SetQuery.{question, secs_of};

use crate::found::Found;
use crate::nodes::Node;
use bags::Point;
use criteria::Criterion;
use scan_state::SetQuery;
use timetable::{Footpath, GhostValue, Query, Timetable};

/// The answer of a query between sets: the points of all best departures, by departure, then by the criterion's order.
/// Each point's tag is the number of a node that, by earlier ones, spells a journey that attains the point.
///
/// It keeps the criterion. The timetable, the query and the proof that this is their answer are in fields that only
/// contracts see.
#[derive(Drop)]
pub struct FoundBetween<C: Criterion> {
    pub(crate) criterion: C,
    pub(crate) points: Vec<Point<C::V>>,
    pub(crate) nodes: Vec<Node>,
    pub(crate) walk: Option<Footpath>,
    pub(crate) timetable: GhostValue<Timetable>,
    pub(crate) query: GhostValue<SetQuery>,
    pub(crate) ghost answered: { AnswerBetween (C.rules criterion) timetable.value (question query.value)
        points.items nodes.items walk },
}

impl<C: Criterion> FoundBetween<C> {
    ghost use Rattle.std.specs.Prelude.{◌<◌, length, slice_get, Some};
    ghost use Rattle.timetable.specs.TimetableValue.{TimetableValue};
    ghost use Rattle.scan_state.specs.SetQuery.{single_set_query};
    ghost use Rattle.profile_scan.specs.Found.{Answers, AnswersBetween, listed_between, nodes_between};
    ghost use Rattle.profile_scan.specs.Found.{query_between, walk_between};

    /// The number of points.
    pub fn len(&self) -> usize
        ensures { result ≡ length (listed_between self.now) }
    {
        self.points.len()
    }

    /// The point at an index: its departure, in seconds after the base, and its value.
    pub fn point(&self, i: usize) -> Point<C::V>
        requires { i < length (listed_between self.now) }
        ensures { slice_get (listed_between self.now) i ≡ Some result }
    {
        self.points[i]
    }

    /// All points, in order.
    pub fn points(&self) -> &[Point<C::V>]
        ensures { result.now ≡ listed_between self.now }
    {
        &self.points
    }

    /// The node at a number, if there is one. A point's tag is the number of its node.
    pub fn node(&self, number: usize) -> Option<Node>
        ensures { result ≡ slice_get (nodes_between self.now) number }
    {
        self.nodes.get(number).copied()
    }

    /// The shortest footpath from a source to a target, if there is one, and of equal ones the first in the order of
    /// the query's lists.
    pub fn direct_walk(&self) -> Option<Footpath>
        ensures { result ≡ walk_between self.now }
    {
        self.walk
    }

    // The answer of a query, where it was asked as one between a single source and a single target.
    pub(crate) fn of_one(self, query: &Query) -> Found<C>
        requires { query_between self ≡ single_set_query query.now }
        ensures { (criterion : _) (t : TimetableValue)
            → AnswersBetween criterion (C.rules criterion) t (single_set_query query.now) self
            → Answers criterion (C.rules criterion) t query.now result }
    {
        Found {
            criterion: self.criterion,
            points: self.points,
            nodes: self.nodes,
            walk: secs_of(self.walk),
            timetable: self.timetable,
            query: GhostValue::of(query),
        }
    }
}

// The seconds of a footpath, if there is one.
pub(crate) fn secs_of(walk: Option<Footpath>) -> Option<u32>
    ensures { result ≡ secs_of walk }
{
    match walk {
        None => None,
        Some(walk) => Some(walk.secs),
    }
}
