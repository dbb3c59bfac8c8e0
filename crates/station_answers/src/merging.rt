//! The best points of the answers of several pairs, each with the answer that it comes from.

ghost use Rattle.std.specs.Prelude.{◌≡◌, Contains, OnOk, length};
ghost use Rattle.criteria.specs.Laws.{Admits};
ghost use Rattle.bags.specs.Bag.{criterion_of, points_of};
ghost use Rattle.station_answers.specs.Merging.{MergesFirst};

use bags::{Bag, Point};
use criteria::Criterion;
use journeys::extract;
use profile_scan::Found;
use std::alloc::{AllocError, Global};
use timetable::Journey;

/// Where a point comes from: which answer, and which of its points.
#[derive(Clone, Copy, Drop)]
pub struct PointSource {
    pub found: usize,
    pub index: usize,
}

/// Answers of some pairs, and of all their points those that no other of them dominates. The tag of such a point is an
/// index of `origins`.
#[derive(Drop)]
pub struct MergedAnswers<C: Criterion> {
    pub best: Bag<C>,
    pub origins: Vec<PointSource>,
    pub founds: Vec<Found<C>>,
}

impl<C: Criterion> MergedAnswers<C> {
    ghost use Rattle.std.specs.Prelude.{◌≡◌, [], Contains, IfOk, OnOk};
    ghost use Rattle.criteria.specs.Laws.{Admits};
    ghost use Rattle.bags.specs.Bag.{criterion_of, points_of};
    ghost use Rattle.profile_scan.specs.Found.{listed};
    ghost use Rattle.timetable.specs.TimetableValue.{TimetableValue};
    ghost use Rattle.scan_state.specs.SetQuery.{SetQueryValue};
    ghost use Rattle.station_answers.specs.Attaining.{AttainsPair};
    ghost use Rattle.station_answers.specs.Merging.{IsMerged, IsOfFounds, TakesFound};

    /// Nothing yet, under a criterion. It takes no memory.
    pub fn new(alloc: Global, criterion: C) -> Self
        ensures under { criterion_of result.best ≡ criterion }
        ensures none { (points_of result.best ≡ []) × (result.founds.items ≡ []) }
    {
        MergedAnswers {
            best: Bag::new(alloc, criterion),
            origins: Vec::new(alloc),
            founds: Vec::new(alloc),
        }
    }

    /// Takes an answer in: of its points and those that were the best until now, the best ones are kept.
    pub fn take_in(&mut self, found: Found<C>) -> Result<(), AllocError>
        requires { (p : _) → Contains (listed found) p → Admits (C.rules (criterion_of self.old.best)) p.value }
        ensures { OnOk result (TakesFound (C.rules (criterion_of self.old.best)) found self.old self.new) }
    {
        let number = self.founds.len();
        merge_points(found.points(), number, &mut self.best, &mut self.origins)?;
        self.founds.push(found)?;
        Ok(())
    }

    /// A journey that attains one of the best points.
    pub fn journey_of(&self, alloc: Global, point: &Point<C::V>) -> Result<Journey, AllocError>
        requires { IsOfFounds self.now point.now }
        ensures { IfOk result (λ journey. (t : TimetableValue) (b : SetQueryValue)
            → IsMerged C.rules (criterion_of self.now.best) t b self.now
            → AttainsPair (C.rules (criterion_of self.now.best)) t b point.now journey) }
    {
        let origin = self.origins[point.tag];
        let found = &self.founds[origin.found];
        extract(alloc, found, origin.index)
    }
}

// Puts the points of the answer of this number into a bag. The tag of a point is the index at which `origins` says
// where it comes from.
fn merge_points<C: Criterion>(
    points: &[Point<C::V>],
    number: usize,
    best: &mut Bag<C>,
    origins: &mut Vec<PointSource>,
) -> Result<(), AllocError>
    requires { (p : _) → Contains points.now p → Admits (C.rules (criterion_of best.old)) p.value }
    ensures under { OnOk result (criterion_of best.new ≡ criterion_of best.old) }
    ensures merges { OnOk result (MergesFirst (C.rules (criterion_of best.old)) points.now number (length points.now)
        (points_of best.old) origins.old.items (points_of best.new) origins.new.items) }
{
    for index in 0..points.len() {
        let point = points[index];
        let tag = origins.len();
        origins.push(PointSource {
            found: number,
            index,
        })?;
        best.insert(point.departure, point.value, tag)?;
    }
    Ok(())
}
