//! The points of stops as lanes.

ghost use Rattle.std.specs.Prelude.{◌≡◌, ◌⊎◌, ◌+◌, ◌<◌, ◌≤◌, IfOk, MatchResult, Some, length};
ghost use Rattle.fronts.specs.Vectors.{IsFull};
ghost use Rattle.lanes.specs.LanesWithTags.{AreTagged, labels_in};
ghost use Rattle.lanes.specs.LaneLists.{HasList};
ghost use Rattle.lanes.specs.TripLanes.{front_labels};
ghost use Rattle.lanes.specs.StopLanes.{HasSteps, IsListBoarded, steps_in};

use crate::lane_lists::{LaneEntry, join, late, put};
use crate::trip_lanes::{Lanes, TripLanes};
use crate::words::{NEVER, Words, are_boarding};
use criteria::TimeTrips;
use fronts::{Boarding, Step, append, copies};
use std::alloc::{AllocError, Global};

/// How one goes on from an entry: the connection that is boarded and the footpath to it, as in `Step`, and for each
/// lane the label by which one rides on.
#[derive(Clone, Copy, Drop)]
pub(crate) struct LaneStep {
    pub(crate) first: u32,
    pub(crate) walk: u32,
    pub(crate) labels: [u32; 8],
}

/// For each stop a list of entries. A point's tag is the index of its step: each boarding has eight, one for each lane.
#[derive(Drop)]
pub struct StopLanes {
    heads: Vec<u32>,
    entries: Vec<LaneEntry>,
    steps: Vec<LaneStep>,
    // scratch memory of an insertion
    passed: Vec<u32>,
}

impl StopLanes {
    ghost use Rattle.std.specs.Prelude.{[], ℕ, OnOk, false, true, slice_get};
    ghost use Rattle.lanes.specs.TripLanes.{labels_at, trips_of};
    ghost use Rattle.lanes.specs.StopLanes.{AreStopLanes, IsFrontFrom, IsBoardedAt, front_at, points_at, steps_of};
    ghost use Rattle.lanes.specs.StopLanes.{HasNoStepLeft, HasStepBeyond, entries_of, stops_of, tags_at};
    ghost use Rattle.bags.specs.Dominance.{IsCovered};
    ghost use Rattle.criteria.specs.Laws.{IsTime};
    ghost use Rattle.lanes.specs.Lanes.{lane_labels, trip_rules};
    ghost use Rattle.lanes.specs.LaneLists.{word_tag};

    /// Makes empty lists of `count` stops, with room for `expected` boardings.
    pub fn new(alloc: Global, count: u32, expected: usize) -> Result<StopLanes, AllocError>
        ensures lists { IfOk result (λ stops. AreStopLanes stops) }
        ensures long { IfOk result (λ stops. stops_of stops ≡ count) }
        ensures none { IfOk result (λ stops. (stop : ℕ) → points_at stops stop ≡ []) }
        ensures steps { IfOk result (λ stops. steps_of stops ≡ []) }
    {
        let heads = copies(alloc, 0u32, count as usize)?;
        let mut entries = Vec::with_capacity(alloc, expected)?;
        entries.push(LaneEntry {
            departure: u32::MAX,
            next: 0,
            front: Words::none(),
            tags: [0; 8],
        })?;
        Ok(StopLanes {
            heads,
            entries,
            steps: Vec::with_capacity(alloc, expected)?,
            passed: Vec::new(alloc),
        })
    }

    /// The number of stops.
    pub fn len(&self) -> usize
        ensures { result ≡ stops_of self.now }
    {
        self.heads.len()
    }

    /// Whether a stop has points.
    #[inline(always)]
    pub fn has_points(&self, stop: u32) -> bool
        requires { stop < stops_of self.now }
        ensures { result ≡ false → points_at self.now stop ≡ [] }
    {
        self.heads[stop as usize] > 0
    }

    /// An entry whose front stands for the points of a stop from a time on.
    #[inline(always)]
    pub fn front_from(&self, stop: u32, time: u32) -> u32
        requires lists { AreStopLanes self.now }
        requires stop { stop < stops_of self.now }
        ensures { IsFrontFrom self.now stop time result }
    {
        late(&self.entries, self.heads[stop as usize], time)
    }

    /// The front of an entry.
    #[inline(always)]
    pub fn front(&self, entry: u32) -> &Words
        requires { entry < entries_of self.now }
        ensures { front_at self.now entry ≡ lane_labels (word_tag (tags_at self.now entry)) result.now.times }
    {
        &self.entries[entry as usize].front
    }

    /// Whether a stop has a point that departs at a time or later and is no worse than a value of at least eight trips.
    pub fn covers(&self, stop: u32, departure: u32, value: &TimeTrips) -> bool
        requires lists { AreStopLanes self.now }
        requires stop { stop < stops_of self.now }
        requires time { IsTime value.now.time }
        ensures { result ≡ true → IsCovered trip_rules (points_at self.now stop) departure value.now }
    {
        if value.trips < 8 {
            return false;
        }
        let entry = self.front_from(stop, departure);
        self.front(entry).times[8] <= value.time
    }

    /// The tags of an entry's words but the first.
    #[inline(always)]
    pub fn tags(&self, entry: u32) -> &[u32; 8]
        requires { entry < entries_of self.now }
        ensures { result.now ≡ tags_at self.now entry }
    {
        &self.entries[entry as usize].tags
    }

    /// The tag of a word of an entry's front; 0 if there is no such entry, or for the first word.
    pub fn tag(&self, entry: u32, word: usize) -> u32
        ensures { result ≡ word_tag (tags_at self.now entry) word }
    {
        if word == 0 {
            return 0;
        }
        match self.entries.get(entry as usize) {
            None => 0,
            Some(entry) => entry.tags.get(word - 1).copied().unwrap_or(0),
        }
    }

    /// The step of a tag, if there is one.
    pub fn step(&self, tag: usize) -> Option<Step>
        ensures { result ≡ slice_get (steps_of self.now) tag }
    {
        let index = tag / 8;
        if index >= self.steps.len() {
            return None;
        }
        let step = self.steps[index];
        Some(Step {
            first: step.first,
            label: step.labels[tag % 8],
            walk: step.walk,
        })
    }

    /// The tag of the next step. Past 2^32 steps it fails, as if memory had run out.
    pub fn next_tag(&self) -> Result<u32, AllocError>
        ensures { MatchResult result (λ tag. tag ≡ length (steps_of self.now))
            (λ _. 4294967295 < length (steps_of self.now)) }
    {
        next_step(&self.steps)
    }

    /// Adds the step of boarding with one label. No points change.
    pub fn push_step_beyond(&mut self, boarding: Boarding, label: u32) -> Result<(), AllocError>
        ensures { MatchResult result (λ _. HasStepBeyond boarding label self.old self.new)
            (λ _. HasNoStepLeft self.new) }
    {
        push_step(&mut self.steps, boarding, [label; 8])?;
        Ok(())
    }

    /// Passengers board a trip after a footpath. Offers to the points of a stop, for each label of the trip, the point
    /// of boarding with it, unless the bound outdoes it.
    #[inline(always)]
    pub fn board(
        &mut self,
        stop: u32,
        boarding: Boarding,
        trips: &TripLanes,
        trip: u32,
        bound: &Words,
    ) -> Result<(), AllocError>
        requires lists { AreStopLanes self.old }
        requires stop { stop < stops_of self.old }
        requires trip { trip < trips_of trips.now }
        ensures { OnOk result (IsBoardedAt stop boarding (labels_at trips.now trip) (front_labels bound.now)
            self.old self.new) }
    {
        let lanes = trips.of(trip);
        let head = self.heads[stop as usize];
        let new = board_list(
            &mut self.entries,
            &mut self.steps,
            &mut self.passed,
            head,
            boarding,
            &lanes,
            bound,
        )?;
        self.heads[stop as usize] = new;
        Ok(())
    }
}

// Offers the points of boarding with these lanes to the list that begins at `head`, as `StopLanes::board` does. Returns
// the head of the list that has them, which is the same one if none is news.
#[inline(always)]
fn board_list(
    entries: &mut Vec<LaneEntry>,
    steps: &mut Vec<LaneStep>,
    passed: &mut Vec<u32>,
    head: u32,
    boarding: Boarding,
    lanes: &Lanes,
    bound: &Words,
) -> Result<u32, AllocError>
    requires list { HasList entries.old.items head }
    requires lanes { AreTagged lanes.now }
    ensures { IfOk result (IsListBoarded entries.old.items head (steps_in steps.old.items) boarding
        (labels_in (Some lanes.now)) (front_labels bound.now) entries.new.items (steps_in steps.new.items)) }
{
    let after = late(entries, head, boarding.departure);
    if !are_boarding(
        &lanes.times,
        &entries[after as usize].front.times,
        &bound.times,
    ) {
        return Ok(head);
    }
    let first = push_step(steps, boarding, lanes.tags)?;
    let new = put(entries, after, boarding.departure, lanes, first)?;
    if after == head {
        return Ok(new);
    }
    join(entries, passed, head, boarding.departure, new)
}

// The tag of the next step, unless there are too many for the eight of a boarding.
#[inline(always)]
fn next_step(steps: &[LaneStep]) -> Result<u32, AllocError>
    ensures { MatchResult result (λ tag. (tag + 7 ≤ 4294967295) × (tag ≡ length (steps_in steps.now)))
        (λ _. 4294967295 < length (steps_in steps.now)) }
{
    let count = steps.len();
    if count >= 1 << 29 {
        return Err(AllocError);
    }
    Ok(8 * count as u32)
}

// Adds the eight steps of boarding after a footpath with these labels, and returns the tag of the first. Past 2^32
// steps it fails, as if memory had run out.
#[inline(always)]
fn push_step(
    steps: &mut Vec<LaneStep>,
    boarding: Boarding,
    labels: [u32; 8],
) -> Result<u32, AllocError>
    ensures { MatchResult result (λ first. (first + 7 ≤ 4294967295)
        × HasSteps boarding labels (steps_in steps.old.items) first (steps_in steps.new.items))
        (λ _. IsFull steps.new ⊎ (4294967295 < length (steps_in steps.new.items))) }
{
    let first = next_step(steps)?;
    append(
        steps,
        LaneStep {
            first: boarding.first,
            walk: boarding.walk,
            labels,
        },
    )?;
    Ok(first)
}
