//! Trips and stops kept by arrival and trips: how a scan takes a connection in.

ghost use Rattle.std.specs.Prelude.{◌≡◌, ◌++◌, Contains, OnOk};
ghost use Rattle.criteria.specs.Laws.{Admits};
ghost use Rattle.bags.specs.Bag.{points_of};
ghost use Rattle.lanes.specs.Lanes.{trip_rules};
ghost use Rattle.by_trips.specs.ByTrips.{points_beyond};
ghost use Rattle.by_trips.specs.TakenByTrips.{IsFrontOf, point_labels};

use crate::by_trips::{Beyond, ByTrips, has_any};
use crate::in_lanes::{InLanes, LaneExit};
use bags::Bag;
use criteria::{ArrivalTrips, Criterion, TimeTrips};
use fronts::{Label, Step, index_of};
use lanes::{StopLanes, TripLanes, Words};
use scan_state::{AtSource, Exit, FinalWalk, Hop, Keeping, ScanQuery, final_walk_of};
use sources::ConnSource;
use std::alloc::{AllocError, Global};
use timetable::Connection;

impl Keeping<ArrivalTrips> for ByTrips {
    ghost use Rattle.by_trips.specs.ByTrips.{value_by_trips};
    ghost use Rattle.by_trips.specs.TakenByTrips.{AreUnderByTrips};

    ghost value = { value_by_trips };

    ghost IsUnder = { λ criterion stops trips bound kept. AreUnderByTrips stops trips bound kept };

    fn new(
        alloc: Global,
        _criterion: &ArrivalTrips,
        stops: u32,
        trips: u32,
        expected: usize,
    ) -> Result<Self, AllocError> {
        let lanes = InLanes {
            trips: TripLanes::new(alloc, trips)?,
            stops: StopLanes::new(alloc, stops, expected)?,
            exits: Vec::with_capacity(alloc, expected / 8)?,
            bound: Words::none(),
        };
        Ok(ByTrips {
            lanes,
            beyond: Beyond {
                labels: Vec::new(alloc),
                points: Vec::new(alloc),
            },
        })
    }

    // The stop is looked at first, as in `InLists`.
    #[inline(always)]
    fn is_idle(
        &self,
        _asked: &ScanQuery<ArrivalTrips>,
        connection: &Connection,
        entry: FinalWalk,
    ) -> bool {
        if !self.leads_nowhere(connection, entry) {
            return false;
        }
        !self.has_labels(connection.trip)
    }

    fn take<S: ConnSource, O: AtSource<ArrivalTrips>>(
        &mut self,
        asked: &ScanQuery<ArrivalTrips>,
        source: &S,
        hop: &Hop<TimeTrips>,
        origin: &mut O,
    ) -> Result<(), AllocError> {
        self.lanes.renew(hop);
        self.alight(asked, hop)?;
        self.set_out(asked, source, hop, origin)?;
        self.board(asked, source, hop)?;
        Ok(())
    }

    fn exit(&self, number: usize) -> Option<Exit> {
        self.lanes.exit(number)
    }

    fn step(&self, number: usize) -> Option<Step> {
        self.lanes.stops.step(number)
    }

    ghost admitted = { λ criterion stops trips bound kept are. are.admitted };
}

impl ByTrips {
    ghost use Rattle.std.specs.Prelude.{◌<◌, [], true, false, None, IfOk};
    ghost use Rattle.lanes.specs.TripLanes.{trips_of};
    ghost use Rattle.lanes.specs.StopLanes.{stops_of};
    ghost use Rattle.scan_state.specs.SetQuery.{question};
    ghost use Rattle.scan_state.specs.ScanState.{final_walk_in};
    ghost use Rattle.scan_state.specs.Parts.{CanSetOutAt, SetsOut};
    ghost use Rattle.by_trips.specs.ByTrips.{CanLeaveByTrips, LeavesByTrips, value_by_trips};
    ghost use Rattle.by_trips.specs.TakenByTrips.{labels_by_trips};

    // Whether a trip has labels.
    #[inline(always)]
    fn has_labels(&self, trip: u32) -> bool
        requires { trip < trips_of self.now.lanes.trips }
        ensures { result ≡ false → (value_by_trips self.now).labels trip ≡ [] }
    {
        if self.lanes.trips.has_labels(trip) {
            return true;
        }
        has_any(&self.beyond.labels, trip)
    }

    // Whether a stop has points.
    #[inline(always)]
    fn has_points(&self, stop: u32) -> bool
        requires { stop < stops_of self.now.lanes.stops }
        ensures { result ≡ false → (value_by_trips self.now).bag stop ≡ [] }
    {
        if self.lanes.stops.has_points(stop) {
            return true;
        }
        has_any(&self.beyond.points, stop)
    }

    // Returns true only if passengers may not get off where a connection ends, or if that stop has neither points nor,
    // by its `entry` of `FinalWalks`, a footpath to a target.
    #[inline(always)]
    fn leads_nowhere(&self, connection: &Connection, entry: FinalWalk) -> bool
        requires { connection.now.to < stops_of self.now.lanes.stops }
        ensures { result ≡ true → connection.now.alight ≡ true
            → (final_walk_in entry ≡ None) × ((value_by_trips self.now).bag connection.now.to ≡ []) }
    {
        if !connection.alight {
            return true;
        }
        match final_walk_of(entry) {
            None => !self.has_points(connection.to),
            Some(_way) => false,
        }
    }

    // The labels of a trip: those in lanes, and then those beyond.
    fn labels_of(&self, trip: u32) -> Result<Vec<Label<TimeTrips>>, AllocError>
        requires { trip < trips_of self.now.lanes.trips }
        ensures { IfOk result (λ labels. labels.items ≡ labels_by_trips self.now trip) }
    {
        let mut labels = Vec::with_capacity(*self.lanes.exits.allocator(), 8)?;
        self.lanes.trips.read(trip, &mut labels)?;
        add_labels(&self.beyond.labels, trip, &mut labels)?;
        Ok(labels)
    }

    // Sets out for the hop's connection with the labels of its trip. They are written out only if anybody may set out.
    #[inline(always)]
    fn set_out<S: ConnSource, O: AtSource<ArrivalTrips>>(
        &self,
        asked: &ScanQuery<ArrivalTrips>,
        source: &S,
        hop: &Hop<TimeTrips>,
        origin: &mut O,
    ) -> Result<(), AllocError>
        requires can { CanSetOutAt ⟦<ArrivalTrips as Criterion>⟧.rules O.IsUnder (S.timetable source.now)
            asked.now hop.now (labels_by_trips self.now hop.now.connection.trip) origin.old }
        requires trip { hop.now.connection.trip < trips_of self.now.lanes.trips }
        ensures { OnOk result (SetsOut ⟦<ArrivalTrips as Criterion>⟧.rules O.IsUnder O.sources O.kept
            (S.timetable source.now) asked.now hop.now (labels_by_trips self.now hop.now.connection.trip)
            origin.old origin.new) }
    {
        if !origin.sets_out_at(asked, hop) {
            return Ok(());
        }
        self.set_out_by_labels(asked, source, *hop, origin)
    }

    // Writes out the labels of the hop's trip, and sets out with them. It is rare, and a call, so that the scan has no
    // list on its stack.
    #[inline(never)]
    fn set_out_by_labels<S: ConnSource, O: AtSource<ArrivalTrips>>(
        &self,
        asked: &ScanQuery<ArrivalTrips>,
        source: &S,
        hop: Hop<TimeTrips>,
        origin: &mut O,
    ) -> Result<(), AllocError>
        requires can { CanSetOutAt ⟦<ArrivalTrips as Criterion>⟧.rules O.IsUnder (S.timetable source.now)
            asked.now hop (labels_by_trips self.now hop.connection.trip) origin.old }
        requires trip { hop.connection.trip < trips_of self.now.lanes.trips }
        ensures { OnOk result (SetsOut ⟦<ArrivalTrips as Criterion>⟧.rules O.IsUnder O.sources O.kept
            (S.timetable source.now) asked.now hop.entry (labels_by_trips self.now hop.entry.connection.trip)
            origin.old origin.new) }
    {
        let labels = self.labels_of(hop.connection.trip)?;
        origin.set_out(asked, source, &hop, &labels)?;
        Ok(())
    }
}

impl InLanes {
    ghost use Rattle.std.specs.Prelude.{◌<◌, slice_get};
    ghost use Rattle.lanes.specs.StopLanes.{tags_at};
    ghost use Rattle.by_trips.specs.InLanes.{exit_of, value_of};
    ghost use Rattle.by_trips.specs.TakenByTrips.{CanRenew, RenewsBound};

    // Makes the bound of the hop's values, if these may have changed.
    #[inline(always)]
    fn renew(&mut self, hop: &Hop<TimeTrips>)
        requires { CanRenew hop.now.bound.now self.old }
        ensures { RenewsBound hop.now.bound.now self.old self.new }
    {
        if hop.renewed {
            self.bound = front_of(hop.bound);
        }
    }

    // The exit of a tag, if there is one.
    fn exit(&self, tag: usize) -> Option<Exit>
        ensures { result ≡ slice_get (value_of self.now).exits tag }
    {
        match self.lane_exit(tag / 8) {
            None => None,
            Some(exit) => Some(self.exit_in(exit, tag % 8)),
        }
    }

    // The exit at an index, if there is one, whichever the lane.
    fn lane_exit(&self, index: usize) -> Option<LaneExit>
        ensures { result ≡ slice_get self.now.exits.items index }
    {
        self.exits.get(index).copied()
    }

    // How a trip is left by the label of a lane.
    fn exit_in(&self, exit: LaneExit, lane: usize) -> Exit
        ensures { result ≡ exit_of (tags_at self.now.stops) exit lane }
    {
        match exit {
            LaneExit::Ends { last, walk } => Exit::Ends { last, walk },
            LaneExit::Changes { last, entry } => Exit::Changes {
                last,
                step: self.stops.tag(entry, lane) as usize,
            },
            LaneExit::ChangesToStep { last, step } => Exit::Changes {
                last,
                step: step as usize,
            },
        }
    }
}

// Adds the points of bag k, if there is one, to labels.
fn add_labels(
    bags: &[Bag<ArrivalTrips>],
    k: u32,
    labels: &mut Vec<Label<TimeTrips>>,
) -> Result<(), AllocError>
    ensures { OnOk result (labels.new.items ≡ labels.old.items ++ point_labels (points_beyond bags.now k)) }
{
    match bags.get(k as usize) {
        None => Ok(()),
        Some(bag) => add_points(bag, labels),
    }
}

// Adds the points of a bag to labels.
fn add_points(bag: &Bag<ArrivalTrips>, labels: &mut Vec<Label<TimeTrips>>) -> Result<(), AllocError>
    ensures { OnOk result (labels.new.items ≡ labels.old.items ++ point_labels (points_of bag.now)) }
{
    for index in 0..bag.len() {
        let point = bag.point(index);
        let tag = index_of(point.tag)?;
        labels.push(Label {
            value: point.value,
            tag,
        })?;
    }
    Ok(())
}

// A front of these values; none of more than eight trips is in it.
fn front_of(values: &[TimeTrips]) -> Words
    requires { (b : _) → Contains values.now b → Admits trip_rules b }
    ensures { IsFrontOf values.now result }
{
    let mut front = Words::none();
    for k in 0..values.len() {
        front = front.with(&values[k]);
    }
    front
}
