//! The best departures from a set of stops.

ghost use Rattle.std.specs.Prelude.{◌≡◌, ◌<◌, ◌∷◌, [], ℕ, Contains, IfOk, MatchBool, OnOk};
ghost use Rattle.std.specs.Cow.{cow_slice_items};
ghost use Rattle.criteria.specs.Laws.{Admits};
ghost use Rattle.bags.specs.Bag.{criterion_of, points_of};
ghost use Rattle.scan_state.specs.SetQuery.{IsAnswerBetween, IsAskableBetween};
ghost use Rattle.profile_scan.specs.Everywhere.{AnswerToAny, asked_to_any, criterion_to_any};
ghost use Rattle.matrix_rows.specs.Merging.{TakesIn, shorter_of};
ghost use Rattle.matrix_rows.specs.Tables.{IsLeastWalk, Meet, from_stops};

use bags::{Bag, Point};
use criteria::Criterion;
use image_verifier::Verified;
use profile_scan::{ProfilesToAny, Scanned, in_order};
use std::alloc::{AllocError, Global};
use std::borrow::CowSlice;

/// The best departures from any of some stops, in order: those of each, without the ones that another dominates. Those
/// of one stop are where they were found.
pub(crate) fn best_points<'p, C: Scanned>(
    alloc: Global,
    image: &Verified,
    criterion: &C,
    profiles: &'p ProfilesToAny<C>,
    stops: &[u32],
) -> Result<CowSlice<'p, Point<C::V>, Global>, AllocError>
    requires same { criterion_to_any profiles.now ≡ criterion.now }
    requires answered { AnswerToAny C.rules C.Kept.value image.now.timetable profiles.now }
    requires asked { IsAskableBetween image.now.timetable.stops (asked_to_any profiles.now) }
    requires within { (stop : ℕ) → Contains stops.now stop → stop < image.now.timetable.stops }
    ensures { IfOk result (λ points. IsAnswerBetween (C.rules criterion.now) image.now.timetable
        (from_stops (asked_to_any profiles.now) stops.now) (cow_slice_items points)) }
{
    if stops.len() == 1 {
        return Ok(CowSlice::Borrowed(profiles.points(stops[0])));
    }
    let merged = merged_points(alloc, image, criterion, profiles, stops)?;
    Ok(CowSlice::Owned(merged))
}

// The best departures from any of some stops, by a bag that takes in those of each.
fn merged_points<C: Scanned>(
    alloc: Global,
    image: &Verified,
    criterion: &C,
    profiles: &ProfilesToAny<C>,
    stops: &[u32],
) -> Result<Vec<Point<C::V>>, AllocError>
    requires same { criterion_to_any profiles.now ≡ criterion.now }
    requires answered { AnswerToAny C.rules C.Kept.value image.now.timetable profiles.now }
    requires asked { IsAskableBetween image.now.timetable.stops (asked_to_any profiles.now) }
    requires within { (stop : ℕ) → Contains stops.now stop → stop < image.now.timetable.stops }
    ensures { IfOk result (λ points. IsAnswerBetween (C.rules criterion.now) image.now.timetable
        (from_stops (asked_to_any profiles.now) stops.now) points.items) }
{
    // The contract of this call says that the timetable is legal and within the limits.
    image.stops();
    let mut best = Bag::new(alloc, *criterion);
    for stop in stops {
        put_points(&mut best, profiles.points(*stop))?;
    }
    in_order(alloc, criterion, &best)
}

// Puts points into a bag. Nobody reads their tags.
fn put_points<C: Criterion>(best: &mut Bag<C>, points: &[Point<C::V>]) -> Result<(), AllocError>
    requires { (p : _) → Contains points.now p → Admits (C.rules (criterion_of best.old)) p.value }
    ensures under { OnOk result (criterion_of best.new ≡ criterion_of best.old) }
    ensures takes { OnOk result (TakesIn (C.rules (criterion_of best.old)) points.now (points_of best.old)
        (points_of best.new)) }
{
    for point in points {
        best.insert(point.departure, point.value, point.tag)?;
    }
    Ok(())
}

/// The seconds of the shortest footpath from any of some stops, none of which is a target, to a target, if there is
/// one.
pub(crate) fn least_walk<C: Scanned>(
    image: &Verified,
    profiles: &ProfilesToAny<C>,
    stops: &[u32],
) -> Option<u32>
    requires answered { AnswerToAny C.rules C.Kept.value image.now.timetable profiles.now }
    requires within { (stop : ℕ) → Contains stops.now stop → stop < image.now.timetable.stops }
    requires apart { Meet stops.now (asked_to_any profiles.now).targets → ⊥ }
    ensures { IsLeastWalk image.now.timetable (from_stops (asked_to_any profiles.now) stops.now) result }
{
    let mut least = None;
    for stop in stops {
        least = shorter_of(least, walk_from(image, profiles, *stop));
    }
    least
}

// The seconds of the shortest footpath from a stop to a target, if there is one.
fn walk_from<C: Scanned>(image: &Verified, profiles: &ProfilesToAny<C>, stop: u32) -> Option<u32>
    requires answered { AnswerToAny C.rules C.Kept.value image.now.timetable profiles.now }
    requires within { stop < image.now.timetable.stops }
    requires apart { Contains (asked_to_any profiles.now).targets stop → ⊥ }
    ensures { IsLeastWalk image.now.timetable (from_stops (asked_to_any profiles.now) (stop ∷ [])) result }
{
    match profiles.direct_walk(stop) {
        Some(walk) => Some(walk.secs),
        None => None,
    }
}

fn shorter_of(one: Option<u32>, other: Option<u32>) -> Option<u32>
    ensures { result ≡ shorter_of one other }
{
    match (one, other) {
        (Some(one), Some(other)) => Some(one.min(other)),
        (Some(one), None) => Some(one),
        (None, other) => other,
    }
}

/// Whether some stop is in both lists.
pub(crate) fn meet(stops: &[u32], others: &[u32]) -> bool
    ensures { MatchBool result (Meet stops.now others.now) (Meet stops.now others.now → ⊥) }
{
    for stop in stops {
        if others.contains(stop) {
            return true;
        }
    }
    false
}
