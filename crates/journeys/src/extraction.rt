//! The journey that a point of an answer stands for.

ghost use Rattle.std.specs.Prelude.{◌≡◌, ◌<◌, ◌++◌, ◌∷◌, [], List, None, Some, IfOk, OnOk, MatchOption, length};
ghost use Rattle.std.specs.Prelude.{slice_get};
ghost use Rattle.timetable.specs.TimetableValue.{TimetableValue};
ghost use Rattle.timetable.specs.declared.query.Query.{Query};
ghost use Rattle.scan_state.specs.Continuations.{Aboard};
ghost use Rattle.scan_state.specs.SetQuery.{SetQueryValue};
ghost use Rattle.profile_scan.specs.Found.{Answers, criterion_of_found, listed, nodes_of, query_of, timetable_of};
ghost use Rattle.profile_scan.specs.Found.{AnswersBetween, criterion_between, listed_between, nodes_between};
ghost use Rattle.profile_scan.specs.Found.{query_between, timetable_between};
ghost use Rattle.profile_scan.specs.Nodes.{spelled};
ghost use Rattle.scan_state.specs.ScanRecords.{walk_of};
ghost use Rattle.profile_scan.specs.declared.nodes.Node.{Node};
ghost use Rattle.journeys.specs.Extracted.{Attains, AttainsBetween, IsAlighting, IsBoarding, or_none, rides_on};

use criteria::Criterion;
use profile_scan::{Found, FoundBetween, Node};
use std::alloc::{AllocError, Global};
use timetable::{Footpath, Journey, Leg, Ride};

// An answer, of which the nodes alone are read here.
trait Spells {
    ghost nodes: { Self → List Node };

    // The node at a number, if there is one.
    fn node_at(&self, number: usize) -> Option<Node>
        ensures { result ≡ slice_get (nodes self.now) number };
}

impl<C: Criterion> Spells for Found<C> {
    ghost nodes = { λ found. nodes_of found };

    fn node_at(&self, number: usize) -> Option<Node> {
        self.node(number)
    }
}

impl<C: Criterion> Spells for FoundBetween<C> {
    ghost nodes = { λ found. nodes_between found };

    fn node_at(&self, number: usize) -> Option<Node> {
        self.node(number)
    }
}

// A footpath to a connection that is boarded, and the node by which one goes on in its trip.
#[derive(Clone, Copy)]
struct BoardingNode {
    walk: Footpath,
    first: u32,
    next: usize,
}

// Where a leg ends, and what comes after it: the last walk, or a footpath and a boarding.
#[derive(Clone, Copy)]
enum Alighting {
    Ends { last: u32, walk: Option<Footpath> },
    Changes { last: u32, boarding: BoardingNode },
}

// The boarding that a node says, if it says one.
#[tactic(auto, using(crate::proofs::SpellLemmas::nothing_said))]
fn boards_at<F: Spells>(found: &F, number: usize) -> Option<BoardingNode>
    ensures { MatchOption result ((spelled (F.nodes found.now) number).onward
        ≡ None) (λ boarding. IsBoarding (F.nodes found.now) number boarding) }
{
    match found.node_at(number) {
        Some(Node::Boards { walk, first, next }) => {
            if next < number {
                Some(BoardingNode { walk, first, next })
            } else {
                None
            }
        }
        Some(Node::Ends { .. }) => None,
        Some(Node::Changes { .. }) => None,
        Some(Node::SetsOut { .. }) => None,
        None => None,
    }
}

// How one gets off, as a node and earlier ones say, if they say it.
#[tactic(auto, using(crate::proofs::SpellLemmas::nothing_said))]
fn gets_off_at<F: Spells>(found: &F, number: usize) -> Option<Alighting>
    ensures { MatchOption result ((spelled (F.nodes found.now) number).aboard
        ≡ None) (λ alighting. IsAlighting (F.nodes found.now) number alighting) }
{
    match found.node_at(number) {
        Some(Node::Ends { last, walk }) => Some(Alighting::Ends { last, walk }),
        Some(Node::Changes { last, next }) => {
            if next >= number {
                return None;
            }
            match boards_at(found, next) {
                Some(boarding) => Some(Alighting::Changes { last, boarding }),
                None => None,
            }
        }
        Some(Node::Boards { .. }) => None,
        Some(Node::SetsOut { .. }) => None,
        None => None,
    }
}

// The number of rides after the leg whose end a node says, if it says one.
fn rides_after<F: Spells>(found: &F, from: usize) -> usize
    ensures { (x : Aboard) → (spelled (F.nodes found.now) from).aboard ≡ Some x → result ≡ length x.rides }
{
    let mut rides = 0usize;
    let mut number = from;
    while let Some(alighting) = gets_off_at(found, number) {
        match alighting {
            Alighting::Ends { .. } => return rides,
            Alighting::Changes { boarding, .. } => {
                rides += 1;
                number = boarding.next;
            }
        }
    }
    rides
}

// Adds one ride, whose walk is one footpath or none.
fn ride(
    alloc: Global,
    rides: &mut Vec<Ride>,
    leg: Leg,
    footpath: Option<Footpath>,
) -> Result<(), AllocError>
    ensures { OnOk result (rides.new.items ≡ rides.old.items ++ record { leg = leg; walk = walk_of footpath } ∷ []) }
{
    let mut walk = Vec::new(alloc);
    if let Some(footpath) = footpath {
        walk.push(footpath)?;
    }
    rides.push(Ride { leg, walk })?;
    Ok(())
}

// The rides of a passenger who boards a connection and goes on as a node says; `None` if it spells none.
fn rides_from<F: Spells>(
    alloc: Global,
    found: &F,
    boards: u32,
    from: usize,
) -> Result<Option<Vec<Ride>>, AllocError>
    ensures { IfOk result (λ rides. MatchOption rides (rides_on boards (spelled (F.nodes found.now) from).aboard
        ≡ None) (λ rides. rides_on boards (spelled (F.nodes found.now) from).aboard ≡ Some rides.items)) }
{
    let mut rides = Vec::with_capacity(alloc, rides_after(found, from).saturating_add(1))?;
    let mut first = boards;
    let mut number = from;
    while let Some(alighting) = gets_off_at(found, number) {
        match alighting {
            Alighting::Ends { last, walk } => {
                ride(alloc, &mut rides, Leg { first, last }, walk)?;
                return Ok(Some(rides));
            }
            Alighting::Changes { last, boarding } => {
                ride(alloc, &mut rides, Leg { first, last }, Some(boarding.walk))?;
                first = boarding.first;
                number = boarding.next;
            }
        }
    }
    Ok(None)
}

// The journey that a node spells, if it spells one.
#[tactic(auto, using(crate::proofs::SpellLemmas::nothing_said))]
fn spelled_at<F: Spells>(
    alloc: Global,
    found: &F,
    number: usize,
) -> Result<Option<Journey>, AllocError>
    ensures { IfOk result (λ journey. MatchOption journey ((spelled (F.nodes found.now) number).journey
        ≡ None) (λ journey. (spelled (F.nodes found.now) number).journey ≡ Some journey)) }
{
    match found.node_at(number) {
        Some(Node::SetsOut { start, first, next }) => {
            if next >= number {
                return Ok(None);
            }
            match rides_from(alloc, found, first, next)? {
                Some(rides) => Ok(Some(Journey { start, rides })),
                None => Ok(None),
            }
        }
        Some(Node::Ends { .. }) => Ok(None),
        Some(Node::Changes { .. }) => Ok(None),
        Some(Node::Boards { .. }) => Ok(None),
        None => Ok(None),
    }
}

/// Returns the journey of the point at an index of an answer: it counts for the query, departs when the point does,
/// and is worth the point's value. Each change is one footpath, and after the last leg there is one only if that leg
/// doesn't end at the target.
///
/// The only error is that memory runs out.
pub fn extract<C: Criterion>(
    alloc: Global,
    found: &Found<C>,
    i: usize,
) -> Result<Journey, AllocError>
    requires { i < length (listed found.now) }
    ensures spelled { IfOk result (λ journey. (p : _) → slice_get (listed found.now) i ≡ Some p
        → journey ≡ or_none (spelled (nodes_of found.now) p.tag).journey) }
    // It attains the point, for the query and the timetable that the answer keeps.
    ensures kept { IfOk result (λ journey. (p : _) → slice_get (listed found.now) i ≡ Some p
        → ∥ Attains (C.rules (criterion_of_found found.now)) (timetable_of found.now) (query_of found.now) p journey
        ∥₁) }
    // It also does for any query and timetable whose answer the caller knows this to be.
    ensures attains { IfOk result (λ journey. (criterion : _) (t : TimetableValue) (q : Query) (p : _)
        → Answers criterion (C.rules criterion) t q found.now → slice_get (listed found.now) i ≡ Some p
        → Attains (C.rules criterion) t q p journey) }
{
    let points = found.points();
    let point = points[i];
    match spelled_at(alloc, found, point.tag)? {
        Some(journey) => Ok(journey),
        None => Ok(Journey {
            start: None,
            rides: Vec::new(alloc),
        }),
    }
}

/// Returns the journey of the point at an index of the answer of a query between sets: it counts for the query between
/// one of the sources and one of the targets, where it begins and ends; departs when the point does, and is worth the
/// point's value. Each change is one footpath, and after the last leg there is one only if that leg doesn't end at a
/// target.
///
/// The only error is that memory runs out.
pub fn extract_between<C: Criterion>(
    alloc: Global,
    found: &FoundBetween<C>,
    i: usize,
) -> Result<Journey, AllocError>
    requires { i < length (listed_between found.now) }
    ensures spelled { IfOk result (λ journey. (p : _) → slice_get (listed_between found.now) i ≡ Some p
        → journey ≡ or_none (spelled (nodes_between found.now) p.tag).journey) }
    // It attains the point, for the query and the timetable that the answer keeps.
    ensures kept { IfOk result (λ journey. (p : _) → slice_get (listed_between found.now) i ≡ Some p
        → ∥ AttainsBetween (C.rules (criterion_between found.now)) (timetable_between found.now)
        (query_between found.now) p journey ∥₁) }
    // It also does for any query and timetable whose answer the caller knows this to be.
    ensures attains { IfOk result (λ journey. (criterion : _) (t : TimetableValue) (b : SetQueryValue) (p : _)
        → AnswersBetween criterion (C.rules criterion) t b found.now → slice_get (listed_between found.now) i ≡ Some p
        → AttainsBetween (C.rules criterion) t b p journey) }
{
    let point = found.point(i);
    match spelled_at(alloc, found, point.tag)? {
        Some(journey) => Ok(journey),
        None => Ok(Journey {
            start: None,
            rides: Vec::new(alloc),
        }),
    }
}
