//! The answer of a query.

ghost use Rattle.std.specs.Prelude.{◌≡◌, ◌<◌, IfOk, OnOk, length, slice_get, Some};
ghost use Rattle.bags.specs.Bag.{criterion_of, points_of};
ghost use Rattle.scan_state.specs.Points.{AreInOrder, CanPut, IsIndexFor, IsPut};
ghost use Rattle.profile_scan.specs.Answered.{Answer};

use crate::nodes::Node;
use bags::{Bag, Point, comes_first};
use criteria::Criterion;
use std::alloc::{AllocError, Global};
use timetable::{GhostValue, Query, Timetable};

/// The answer of a profile query: the points of all best departures, by departure, then by the criterion's order.
/// Each point's tag is the number of a node that, by earlier ones, spells a journey that attains the point.
///
/// It keeps the criterion. The timetable, the query and the proof that this is their answer are in fields that only
/// contracts see.
#[derive(Drop)]
pub struct Found<C: Criterion> {
    pub(crate) criterion: C,
    pub(crate) points: Vec<Point<C::V>>,
    pub(crate) nodes: Vec<Node>,
    pub(crate) walk: Option<u32>,
    pub(crate) timetable: GhostValue<Timetable>,
    pub(crate) query: GhostValue<Query>,
    pub(crate) ghost answered: { Answer (C.rules criterion) timetable.value query.value points.items nodes.items walk },
}

impl<C: Criterion> Found<C> {
    ghost use Rattle.profile_scan.specs.Found.{listed, nodes_of, walk_of_found};

    /// The number of points.
    pub fn len(&self) -> usize
        ensures { result ≡ length (listed self.now) }
    {
        self.points.len()
    }

    /// The point at an index: its departure, in seconds after the base, and its value.
    pub fn point(&self, i: usize) -> Point<C::V>
        requires { i < length (listed self.now) }
        ensures { slice_get (listed self.now) i ≡ Some result }
    {
        self.points[i]
    }

    /// All points, in order.
    pub fn points(&self) -> &[Point<C::V>]
        ensures { result.now ≡ listed self.now }
    {
        &self.points
    }

    /// The node at a number, if there is one. A point's tag is the number of its node.
    pub fn node(&self, number: usize) -> Option<Node>
        ensures { result ≡ slice_get (nodes_of self.now) number }
    {
        self.nodes.get(number).copied()
    }

    /// The seconds of the footpath from the source to the target, if there is one.
    pub fn direct_walk(&self) -> Option<u32>
        ensures { result ≡ walk_of_found self.now }
    {
        self.walk
    }
}

/// Returns the points of a bag by departure, then by the criterion's order.
pub fn in_order<C: Criterion>(
    alloc: Global,
    criterion: &C,
    bag: &Bag<C>,
) -> Result<Vec<Point<C::V>>, AllocError>
    requires { criterion_of bag.now ≡ criterion.now }
    ensures { IfOk result (λ points. AreInOrder (C.rules criterion.now) (points_of bag.now) points.items) }
{
    let mut points = Vec::with_capacity(alloc, bag.len())?;
    let mut left = bag.len();
    while left > 0 {
        left -= 1;
        let point = bag.point(left);
        put(criterion, &mut points, point)?;
    }
    Ok(points)
}

// Puts a point among points in order. A bag's points come nearly in order, so the index is near the end.
fn put<C: Criterion>(
    criterion: &C,
    points: &mut Vec<Point<C::V>>,
    point: Point<C::V>,
) -> Result<(), AllocError>
    requires { CanPut (C.rules criterion.now) points.old.items point }
    ensures { OnOk result (IsPut (C.rules criterion.now) point points.old.items points.new.items) }
{
    let index = index_for(criterion, points, &point);
    points.insert(index, point)?;
    Ok(())
}

// The index at which to put a point among points in order.
fn index_for<C: Criterion>(criterion: &C, points: &[Point<C::V>], point: &Point<C::V>) -> usize
    requires { CanPut (C.rules criterion.now) points.now point.now }
    ensures { IsIndexFor (C.rules criterion.now) points.now point.now result }
{
    let mut index = points.len();
    while index > 0 {
        let last = points[index - 1];
        if !comes_first(criterion, point.departure, last.departure, point, &last) {
            return index;
        }
        index -= 1;
    }
    0
}
