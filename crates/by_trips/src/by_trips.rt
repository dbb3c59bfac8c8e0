//! Trips and stops kept by arrival and trips: in lanes, and what is worth more trips than there are lanes.

ghost use Rattle.std.specs.Prelude.{◌≡◌, ◌<◌, [], ℕ, IfOk, false, length, true};
ghost use Rattle.criteria.specs.Laws.{Admits};
ghost use Rattle.lanes.specs.Lanes.{trip_rules};
ghost use Rattle.by_trips.specs.ByTrips.{IsInsertedAt, points_beyond};

use crate::in_lanes::{InLanes, LaneExit, first_tag};
use bags::{Bag, Point};
use criteria::{ArrivalTrips, Criterion, TimeTrips};
use fronts::{Boarding, append, index_of};
use scan_state::{Hop, ScanQuery, any_no_worse};
use sources::ConnSource;
use std::alloc::{AllocError, Global};
use std::ops::Range;
use timetable::Footpath;

/// What is worth more trips than there are lanes: for each trip its labels, as points that depart at 0, and for each
/// stop its points. Both lists are empty until the first such value comes.
#[derive(Drop)]
pub struct Beyond {
    pub labels: Vec<Bag<ArrivalTrips>>,
    pub points: Vec<Bag<ArrivalTrips>>,
}

impl Beyond {
    ghost use Rattle.std.specs.Prelude.{OnOk};
    ghost use Rattle.by_trips.specs.ByTrips.{AreBeyond, IsFilled};

    // Makes a bag for each trip and each stop, unless they are there.
    fn fill(&mut self, stops: usize, trips: usize) -> Result<(), AllocError>
        requires some { 0 < trips }
        requires are { AreBeyond stops trips self.old }
        ensures { OnOk result (IsFilled stops trips self.old self.new) }
    {
        if !self.labels.is_empty() {
            return Ok(());
        }
        let alloc = *self.labels.allocator();
        let labels = empty_bags(alloc, trips)?;
        let points = empty_bags(alloc, stops)?;
        self.labels = labels;
        self.points = points;
        Ok(())
    }
}

/// Labels of trips and points of stops by arrival and trips: in lanes, and beyond them. What is beyond has its exits
/// and steps among those of the lanes.
#[derive(Drop)]
pub struct ByTrips {
    pub lanes: InLanes,
    pub beyond: Beyond,
}

impl ByTrips {
    ghost use Rattle.std.specs.Prelude.{◌≤◌, OnOk};
    ghost use Rattle.scan_state.specs.SetQuery.{question};
    ghost use Rattle.scan_state.specs.Bound.{Excludes};
    ghost use Rattle.scan_state.specs.ScanRecords.{IsExit};
    ghost use Rattle.scan_state.specs.declared.scan_records.Exit.TheVariants.{Changes};
    ghost use Rattle.scan_state.specs.Adding.{AreWalksInto, one_way, only_if};
    ghost use Rattle.scan_state.specs.KeptParts.{LabelsTake, boards_after, boards_after_each, boards_all};
    ghost use Rattle.scan_state.specs.KeptParts.{takes_changes};
    ghost use Rattle.by_trips.specs.ByTrips.{CanLeaveByTrips, LeavesByTrips, RelabelsByTrips, boards_label};
    ghost use Rattle.lanes.specs.TripLanes.{trips_of};
    ghost use Rattle.lanes.specs.StopLanes.{points_at, stops_of};
    ghost use Rattle.by_trips.specs.ByTrips.{CanBoardByTrips, BoardsBeyond, BoardsByTrips, CanBoardBeyond, HasBags};

    /// Passengers leave the hop's trip where its connection ends, if they may: its labels take in the ways to do so,
    /// but for changes that the bound excludes.
    #[inline(always)]
    pub fn alight(
        &mut self,
        asked: &ScanQuery<ArrivalTrips>,
        hop: &Hop<TimeTrips>,
    ) -> Result<(), AllocError>
        requires { CanLeaveByTrips (question asked.now.query) hop.now self.old }
        ensures { OnOk result (LeavesByTrips (question asked.now.query) hop.now self.old self.new) }
    {
        if !hop.connection.alight {
            return Ok(());
        }
        self.lanes.end(asked, hop)?;
        self.change(asked, hop)?;
        self.change_beyond(asked, hop)?;
        Ok(())
    }

    // Offers to the labels of the hop's trip the points that lanes have of the stop where it ends, as `InLanes::change`
    // does: to its lanes, and beyond them what has no lane.
    #[inline(always)]
    fn change(
        &mut self,
        asked: &ScanQuery<ArrivalTrips>,
        hop: &Hop<TimeTrips>,
    ) -> Result<(), AllocError>
        requires { CanLeaveByTrips (question asked.now.query) hop.now self.old }
        ensures { OnOk result (RelabelsByTrips hop.now.bound.now
            (takes_changes trip_rules hop.now (points_at self.old.lanes.stops hop.now.connection.to))
            self.old self.new) }
    {
        let changed = self.lanes.change(asked, hop)?;
        if changed {
            return Ok(());
        }
        self.change_with_eight(asked, *hop)
    }

    // The same where a point of eight trips has no lane, which is rare.
    #[inline(never)]
    fn change_with_eight(
        &mut self,
        asked: &ScanQuery<ArrivalTrips>,
        hop: Hop<TimeTrips>,
    ) -> Result<(), AllocError>
        requires { CanLeaveByTrips (question asked.now.query) hop self.old }
        ensures { OnOk result (RelabelsByTrips hop.entry.bound.now
            (takes_changes trip_rules hop.entry (points_at self.old.lanes.stops hop.entry.connection.to))
            self.old self.new) }
    {
        let entry = self
            .lanes
            .stops
            .front_from(hop.connection.to, hop.connection.arr);
        self.lanes.change_but_eight(asked, &hop, entry)?;
        let Some(value) = self.lanes.stops.front(entry).of_eight() else {
            return Ok(());
        };
        let step = self.lanes.stops.tags(entry)[7];
        self.offer_label(asked, &hop, value, step)
    }

    // Offers to the labels of the hop's trip that are beyond lanes a change to a point with this value and step, unless
    // the trip's lanes beat it.
    #[inline(never)]
    fn offer_label(
        &mut self,
        asked: &ScanQuery<ArrivalTrips>,
        hop: &Hop<TimeTrips>,
        value: TimeTrips,
        step: u32,
    ) -> Result<(), AllocError>
        requires can { CanLeaveByTrips (question asked.now.query) hop.now self.old }
        requires admitted { Admits trip_rules value }
        ensures { OnOk result (RelabelsByTrips hop.now.bound.now
            (LabelsTake trip_rules hop.now.connection.trip (λ _. ⊥)
            (λ tags. one_way 0 value (IsExit tags (Changes hop.now.place step)))) self.old self.new) }
    {
        if self.lanes.trips.beats(hop.connection.trip, &value) {
            return Ok(());
        }
        let stops = self.lanes.stops.len();
        let trips = self.lanes.trips.len();
        self.beyond.fill(stops, trips)?;
        let tag = first_tag(self.lanes.exits.len())?;
        let stands = insert_at(&mut self.beyond.labels, hop.connection.trip, 0, value, tag)?;
        if stands {
            append(
                &mut self.lanes.exits,
                LaneExit::ChangesToStep {
                    last: hop.place,
                    step,
                },
            )?;
        }
        Ok(())
    }

    // Offers to the labels of the hop's trip the points beyond lanes of the stop where it ends, as `change` does.
    #[inline(always)]
    fn change_beyond(
        &mut self,
        asked: &ScanQuery<ArrivalTrips>,
        hop: &Hop<TimeTrips>,
    ) -> Result<(), AllocError>
        requires { CanLeaveByTrips (question asked.now.query) hop.now self.old }
        ensures { OnOk result (RelabelsByTrips hop.now.bound.now
            (takes_changes trip_rules hop.now (points_beyond self.old.beyond.points.items hop.now.connection.to))
            self.old self.new) }
    {
        if !has_any(&self.beyond.points, hop.connection.to) {
            return Ok(());
        }
        self.change_each(asked, *hop)
    }

    // The same if there is a bag for the stop, which is rare.
    #[inline(never)]
    fn change_each(
        &mut self,
        asked: &ScanQuery<ArrivalTrips>,
        hop: Hop<TimeTrips>,
    ) -> Result<(), AllocError>
        requires can { CanLeaveByTrips (question asked.now.query) hop self.old }
        requires stop { hop.connection.to < length self.old.beyond.points.items }
        ensures { OnOk result (RelabelsByTrips hop.entry.bound.now
            (takes_changes trip_rules hop.entry (points_beyond self.old.beyond.points.items hop.entry.connection.to))
            self.old self.new) }
    {
        let stop = hop.connection.to as usize;
        for k in 0..self.beyond.points[stop].len() {
            let point = self.beyond.points[stop].point(k);
            self.change_by(asked, &hop, &point)?;
        }
        Ok(())
    }

    // Offers to the labels of the hop's trip a change to a point, if it departs at the arrival or later, unless the
    // bound excludes it.
    fn change_by(
        &mut self,
        asked: &ScanQuery<ArrivalTrips>,
        hop: &Hop<TimeTrips>,
        point: &Point<TimeTrips>,
    ) -> Result<(), AllocError>
        requires can { CanLeaveByTrips (question asked.now.query) hop.now self.old }
        requires admitted { Admits trip_rules point.now.value }
        ensures { OnOk result (RelabelsByTrips hop.now.bound.now
            (LabelsTake trip_rules hop.now.connection.trip (λ _. Excludes trip_rules hop.now.bound.now point.now.value)
            (λ tags. only_if (hop.now.connection.arr ≤ point.now.departure)
            (one_way 0 point.now.value (IsExit tags (Changes hop.now.place point.now.tag))))) self.old self.new) }
    {
        if point.departure < hop.connection.arr {
            return Ok(());
        }
        let ridden = asked.criterion.ride(&point.value);
        if any_no_worse(&asked.criterion, hop.bound, &ridden) {
            return Ok(());
        }
        let step = index_of(point.tag)?;
        self.offer_label(asked, hop, point.value, step)
    }

    /// Boards the hop's connection, if passengers may get on there: offers to each stop with a footpath there, for each
    /// label of the trip, the point of boarding with it, unless the bound excludes it.
    #[inline(always)]
    pub fn board<S: ConnSource>(
        &mut self,
        asked: &ScanQuery<ArrivalTrips>,
        source: &S,
        hop: &Hop<TimeTrips>,
    ) -> Result<(), AllocError>
        requires { CanBoardByTrips (S.timetable source.now) (question asked.now.query) asked.now.starts hop.now
            self.old }
        ensures { OnOk result (BoardsByTrips (S.timetable source.now) hop.now self.old self.new) }
    {
        self.lanes.board(asked, source, hop)?;
        if !has_any(&self.beyond.labels, hop.connection.trip) {
            return Ok(());
        }
        self.board_beyond(asked, source, *hop)
    }

    // Boards the hop's connection, if passengers may get on there, with the labels of its trip that are beyond lanes,
    // which is rare.
    #[inline(never)]
    fn board_beyond<S: ConnSource>(
        &mut self,
        asked: &ScanQuery<ArrivalTrips>,
        source: &S,
        hop: Hop<TimeTrips>,
    ) -> Result<(), AllocError>
        requires can { CanBoardByTrips (S.timetable source.now) (question asked.now.query) asked.now.starts hop
            self.old }
        requires has { HasBags (S.timetable source.now).stops (S.timetable source.now).trips hop self.old }
        ensures { OnOk result
            (BoardsBeyond (S.timetable source.now).stops (S.timetable source.now).trips hop.entry
            (boards_all trip_rules (S.timetable source.now) hop.entry
            (points_beyond self.old.beyond.labels.items hop.entry.connection.trip)) self.old self.new) }
    {
        if !hop.connection.board {
            return Ok(());
        }
        let (begin, end) = source.walks_into(hop.connection.from as usize);
        self.board_walks(asked, source, &hop, begin..end)
    }

    // Goes over the footpaths at the indices `walks`, which lead to the stop where the hop's connection begins, and
    // boards after each.
    fn board_walks<S: ConnSource>(
        &mut self,
        asked: &ScanQuery<ArrivalTrips>,
        source: &S,
        hop: &Hop<TimeTrips>,
        walks: Range<usize>,
    ) -> Result<(), AllocError>
        requires walks { AreWalksInto (S.timetable source.now) hop.now.connection.from walks.start walks.end }
        requires trip { hop.now.connection.trip < (S.timetable source.now).trips }
        requires has { HasBags (S.timetable source.now).stops (S.timetable source.now).trips hop.now self.old }
        ensures { OnOk result
            (BoardsBeyond (S.timetable source.now).stops (S.timetable source.now).trips hop.now
            (boards_after_each trip_rules (S.timetable source.now) walks.start walks.end hop.now
            (points_beyond self.old.beyond.labels.items hop.now.connection.trip)) self.old self.new) }
    {
        for walk_index in walks.start..walks.end {
            let walk = source.footpath_into(hop.connection.from as usize, walk_index);
            self.board_walk(asked, hop, walk_index, walk)?;
        }
        Ok(())
    }

    // Offers the point of taking a footpath and then boarding, for each label of the hop's trip that is beyond lanes,
    // to the stop where the footpath begins, unless the bound excludes it.
    fn board_walk(
        &mut self,
        asked: &ScanQuery<ArrivalTrips>,
        hop: &Hop<TimeTrips>,
        walk_index: usize,
        walk: Footpath,
    ) -> Result<(), AllocError>
        requires { CanBoardBeyond hop.now walk self.old }
        ensures { OnOk result
            (BoardsBeyond (stops_of self.old.lanes.stops) (trips_of self.old.lanes.trips) hop.now
            (boards_after trip_rules hop.now (points_beyond self.old.beyond.labels.items hop.now.connection.trip)
            walk_index walk) self.old self.new) }
    {
        let dep = hop.connection.dep;
        if walk.secs > dep {
            return Ok(());
        }
        let number = index_of(walk_index)?;
        let boarding = Boarding {
            departure: dep - walk.secs,
            first: hop.place,
            walk: number,
            secs: walk.secs,
        };
        let trip = hop.connection.trip as usize;
        for k in 0..self.beyond.labels[trip].len() {
            let label = self.beyond.labels[trip].point(k);
            self.board_label(asked, hop, walk, boarding, &label)?;
        }
        Ok(())
    }

    // Offers the point of boarding with one label to the stop where the footpath begins, unless the bound excludes it
    // or a point in lanes covers it.
    fn board_label(
        &mut self,
        asked: &ScanQuery<ArrivalTrips>,
        hop: &Hop<TimeTrips>,
        walk: Footpath,
        boarding: Boarding,
        label: &Point<TimeTrips>,
    ) -> Result<(), AllocError>
        requires can { CanBoardBeyond hop.now walk self.old }
        requires admitted { Admits trip_rules label.now.value }
        ensures { OnOk result
            (BoardsBeyond (stops_of self.old.lanes.stops) (trips_of self.old.lanes.trips) hop.now
            (boards_label hop.now walk boarding label.now) self.old self.new) }
    {
        let value = asked.criterion.ride(&label.value);
        if any_no_worse(&asked.criterion, hop.bound, &value) {
            return Ok(());
        }
        if self
            .lanes
            .stops
            .covers(walk.from, boarding.departure, &value)
        {
            return Ok(());
        }
        let number = index_of(label.tag)?;
        let tag = self.lanes.stops.next_tag()?;
        let stands = insert_at(
            &mut self.beyond.points,
            walk.from,
            boarding.departure,
            value,
            tag,
        )?;
        if stands {
            self.lanes.stops.push_step_beyond(boarding, number)?;
        }
        Ok(())
    }
}

/// Whether bag k, if there is one, has a point.
#[inline(always)]
pub fn has_any(bags: &[Bag<ArrivalTrips>], k: u32) -> bool
    ensures none { result ≡ false → points_beyond bags.now k ≡ [] }
    ensures some { result ≡ true → k < length bags.now }
{
    match bags.get(k as usize) {
        None => false,
        Some(bag) => bag.len() > 0,
    }
}

// A number of empty bags.
fn empty_bags(alloc: Global, count: usize) -> Result<Vec<Bag<ArrivalTrips>>, AllocError>
    ensures long { IfOk result (λ bags. length bags.items ≡ count) }
    ensures none { IfOk result (λ bags. (k : ℕ) → points_beyond bags.items k ≡ []) }
{
    let mut bags = Vec::with_capacity(alloc, count)?;
    for _k in 0..count {
        bags.push(Bag::new(alloc, ArrivalTrips))?;
    }
    Ok(bags)
}

// Inserts a point into the bag at an index. Returns whether it was added.
fn insert_at(
    bags: &mut Vec<Bag<ArrivalTrips>>,
    index: u32,
    departure: u32,
    value: TimeTrips,
    tag: u32,
) -> Result<bool, AllocError>
    requires there { index < length bags.old.items }
    requires admitted { Admits trip_rules value }
    ensures { IfOk result (λ stands. IsInsertedAt trip_rules index
        (record { departure = departure; value = value; tag = tag }) stands bags.old.items bags.new.items) }
{
    bags[index as usize].insert(departure, value, tag as usize)
}
