//! The journeys of the points found, as nodes.

ghost use Rattle.std.specs.Prelude.{◌≡◌, ◌++◌, ◌∷◌, [], ℕ, IfOk, Contains, Some, None, length, map};
ghost use Rattle.bags.specs.declared.point.Point.{Point};
ghost use Rattle.profile_scan.specs.Views.{scan_records_seen};
ghost use Rattle.profile_scan.specs.declared.journey_nodes.Change.{Change};
ghost use Rattle.profile_scan.specs.JourneyNodes.{IsRoute, change, ending, IsLabelSpelled, SaysLabel, IsJourneySpelled};
ghost use Rattle.profile_scan.specs.JourneyNodes.{SaysJourney, AreSpelledAgain};

use crate::nodes::Node;
use crate::view::ScanView;
use bags::Point;
use criteria::Criterion;
use fronts::Step;
use scan_state::{Exit, Keeping};
use sources::ConnSource;
use std::alloc::{AllocError, Global};
use timetable::Footpath;

// The change that a label says: the index of the connection where the passenger gets off, and the step that boards.
#[derive(Clone, Copy, Drop)]
struct Change {
    last: u32,
    step: Step,
}

// The end that a label says: the index of the connection where the passenger gets off, and the footpath to the target,
// if there is one.
#[derive(Clone, Copy, Drop)]
struct LastAlighting {
    last: u32,
    walk: Option<Footpath>,
}

impl<'a, C: Criterion, K: Keeping<C>> ScanView<'a, C, K> {
    ghost use Rattle.profile_scan.specs.JourneyNodes.{AddsNodes, IsSpelledAgain};

    // The change that a label says, if it says one.
    fn change_after(&self, label: usize) -> Option<Change>
        ensures { result ≡ change (scan_records_seen K.value self.now) label }
    {
        match self.keeping.exit(label)? {
            Exit::Ends { .. } => None,
            Exit::Changes { last, step } => {
                let step = self.keeping.step(step)?;
                Some(Change { last, step })
            },
        }
    }

    // The end that a label says, if it says one.
    fn end_after(&self, label: usize) -> Option<LastAlighting>
        ensures { result ≡ ending (scan_records_seen K.value self.now) label }
    {
        match self.keeping.exit(label)? {
            Exit::Ends { last, walk } => Some(LastAlighting { last, walk }),
            Exit::Changes { .. } => None,
        }
    }

    // Follows changes from a label to one that ends, and returns that one; `route` gets the labels before it. No route
    // is so long that the loop ends by itself: memory runs out first.
    fn note_route(&self, first: usize, route: &mut Vec<usize>) -> Result<usize, AllocError>
        ensures route { IfOk result (λ last. IsRoute (scan_records_seen K.value self.now) first route.new.items last) }
        ensures ends { IfOk result (λ last. (walks : _)
            → IsLabelSpelled walks (scan_records_seen K.value self.now) first
            → change (scan_records_seen K.value self.now) last ≡ None) }
    {
        route.clear();
        let mut label = first;
        for _i in 0..usize::MAX {
            match self.change_after(label) {
                None => return Ok(label),
                Some(change) => {
                    route.push(label)?;
                    label = change.step.label as usize;
                },
            }
        }
        Ok(label)
    }

    // Adds a node that says how one leaves the trip of a label for good, and returns its number. The label has to be
    // one that ends, like the one that `add_journey_nodes` gets from `note_route`; for any other the number means
    // nothing.
    fn add_end_node(&self, label: usize, nodes: &mut Vec<Node>) -> Result<usize, AllocError>
        ensures { IfOk result (λ number. AddsNodes nodes.old.items nodes.new.items
            ((walks : _) → IsLabelSpelled walks (scan_records_seen K.value self.now) label
            → change (scan_records_seen K.value self.now) label ≡ None
            → SaysLabel walks (scan_records_seen K.value self.now) label nodes.new.items number)) }
    {
        match self.end_after(label) {
            None => Ok(nodes.len()),
            Some(end) => add(
                nodes,
                Node::Ends {
                    last: end.last,
                    walk: end.walk,
                },
            ),
        }
    }

    // Adds the nodes that say how one changes after a label, and returns the number of the last. `next` is the number
    // of the node by which one rides on.
    fn add_change_nodes<S: ConnSource>(
        &self,
        source: &S,
        label: usize,
        next: usize,
        nodes: &mut Vec<Node>,
    ) -> Result<usize, AllocError>
        requires spelled { IsLabelSpelled (S.timetable source.now).footpaths
            (scan_records_seen K.value self.now) label }
        requires next { (c : Change) × (change (scan_records_seen K.value self.now) label ≡ Some c)
            × SaysLabel (S.timetable source.now).footpaths
            (scan_records_seen K.value self.now) c.step.label nodes.old.items next }
        ensures { IfOk result (λ number. AddsNodes nodes.old.items nodes.new.items
            (SaysLabel (S.timetable source.now).footpaths
            (scan_records_seen K.value self.now) label nodes.new.items number)) }
    {
        match self.change_after(label) {
            None => Ok(next),
            Some(change) => {
                let walk = source.footpath(change.step.walk as usize);
                let boards = add(
                    nodes,
                    Node::Boards {
                        walk,
                        first: change.step.first,
                        next,
                    },
                )?;
                add(
                    nodes,
                    Node::Changes {
                        last: change.last,
                        next: boards,
                    },
                )
            },
        }
    }

    // Adds the nodes of the journey of a point found, and returns the number of the last.
    fn add_journey_nodes<S: ConnSource>(
        &self,
        source: &S,
        tag: usize,
        route: &mut Vec<usize>,
        nodes: &mut Vec<Node>,
    ) -> Result<usize, AllocError>
        requires { IsJourneySpelled (S.timetable source.now).footpaths (scan_records_seen K.value self.now) tag }
        ensures { IfOk result (λ number. AddsNodes nodes.old.items nodes.new.items
            (SaysJourney (S.timetable source.now).footpaths
            (scan_records_seen K.value self.now) tag nodes.new.items number)) }
    {
        let set_out = self.origin.set_outs[tag];
        let last = self.note_route(set_out.label, route)?;
        let mut next = self.add_end_node(last, nodes)?;
        while let Some(label) = route.pop() {
            next = self.add_change_nodes(source, label, next, nodes)?;
        }
        add(
            nodes,
            Node::SetsOut {
                start: set_out.start,
                first: set_out.first,
                next,
            },
        )
    }
}

// Adds a node, and returns its number.
fn add(nodes: &mut Vec<Node>, node: Node) -> Result<usize, AllocError>
    ensures { IfOk result (λ number. (number ≡ length nodes.old.items)
        × (nodes.new.items ≡ nodes.old.items ++ node ∷ [])) }
{
    let number = nodes.len();
    nodes.push(node)?;
    Ok(number)
}

/// Points whose tags are the numbers of nodes.
#[derive(Drop)]
pub struct NodePoints<V> {
    pub points: Vec<Point<V>>,
    pub nodes: Vec<Node>,
}

/// Returns the points with their journeys as nodes: each point's tag is then the number of a `SetsOut` node.
pub fn journeys_as_nodes<S: ConnSource, C: Criterion, K: Keeping<C>>(
    alloc: Global,
    source: &S,
    view: &ScanView<'_, C, K>,
    points: &[Point<C::V>],
) -> Result<NodePoints<C::V>, AllocError>
    requires { (p : Point _) → Contains points.now p
        → IsJourneySpelled (S.timetable source.now).footpaths (scan_records_seen K.value view.now) p.tag }
    ensures { IfOk result (λ spelled. AreSpelledAgain (S.timetable source.now).footpaths
        (scan_records_seen K.value view.now) points.now spelled.points.items spelled.nodes.items) }
{
    let mut spelled = Vec::with_capacity(alloc, points.len())?;
    let mut nodes = Vec::new(alloc);
    let mut route = Vec::new(alloc);
    for i in 0..points.len() {
        let point = points[i];
        let tag = view.add_journey_nodes(source, point.tag, &mut route, &mut nodes)?;
        spelled.push(Point {
            departure: point.departure,
            value: point.value,
            tag,
        })?;
    }
    Ok(NodePoints {
        points: spelled,
        nodes,
    })
}
