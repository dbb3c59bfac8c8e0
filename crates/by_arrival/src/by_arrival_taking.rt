//! Trips and stops kept by arrival alone: how a scan takes a connection in.

use crate::by_arrival::{ByArrival, unless_excluded};
use arrival_lists::{ArrivalLists, FirstPoint, NEVER};
use criteria::{Arrival, Criterion};
use fronts::{Label, Step, copies};
use scan_state::{AtSource, Exit, FinalWalk, Hop, Keeping, ScanQuery, final_walk_of};
use sources::ConnSource;
use std::alloc::{AllocError, Global};
use timetable::Connection;

impl Keeping<Arrival> for ByArrival {
    ghost use Rattle.by_arrival.specs.ByArrival.{AreUnderByArrival, value_by_arrival};

    ghost value = { value_by_arrival };

    ghost IsUnder = { λ criterion stops trips bound kept. AreUnderByArrival stops trips bound kept };

    fn new(
        alloc: Global,
        _criterion: &Arrival,
        stops: u32,
        trips: u32,
        expected: usize,
    ) -> Result<Self, AllocError> {
        let no_label = Label {
            value: NEVER,
            tag: 0,
        };
        let no_point = FirstPoint {
            time: NEVER,
            departure: NEVER,
            tag: 0,
            head: 0,
        };
        let labels = copies(alloc, no_label, trips as usize)?;
        let firsts = copies(alloc, no_point, stops as usize)?;
        Ok(ByArrival {
            labels,
            exits: Vec::with_capacity(alloc, expected / 8)?,
            firsts,
            lists: ArrivalLists::new(alloc, expected)?,
            bound: NEVER,
        })
    }

    // One comparison tells whether the trip has a label or the stop a point that the bound doesn't exclude: branches on
    // each by itself are often mispredicted.
    #[inline(always)]
    fn is_idle(
        &self,
        _asked: &ScanQuery<Arrival>,
        connection: &Connection,
        entry: FinalWalk,
    ) -> bool {
        match final_walk_of(entry) {
            Some(_way) => false,
            None => {
                let label = self.labels[connection.trip as usize];
                let point = self.firsts[connection.to as usize];
                label.value.min(unless_excluded(point, self.bound)) >= NEVER
            },
        }
    }

    fn take<S: ConnSource, O: AtSource<Arrival>>(
        &mut self,
        asked: &ScanQuery<Arrival>,
        source: &S,
        hop: &Hop<u32>,
        origin: &mut O,
    ) -> Result<(), AllocError> {
        self.renew(hop);
        self.alight(asked, hop)?;
        self.set_out(asked, source, hop, origin)?;
        self.board(source, hop)?;
        Ok(())
    }

    fn exit(&self, number: usize) -> Option<Exit> {
        self.exits.get(number).copied()
    }

    fn step(&self, number: usize) -> Option<Step> {
        self.lists.step(number)
    }

    ghost admitted = { λ criterion stops trips bound kept are. are.admitted };
}

impl ByArrival {
    ghost use Rattle.std.specs.Prelude.{◌≡◌, ◌<◌, OnOk};
    ghost use Rattle.scan_state.specs.SetQuery.{question};
    ghost use Rattle.scan_state.specs.Parts.{CanSetOutAt, SetsOut};
    ghost use Rattle.by_arrival.specs.ByArrival.{CanLeaveByArrival, LeavesByArrival, labels_of, trips_of};

    // Passengers leave the hop's trip where its connection ends, if they may.
    #[inline(always)]
    fn alight(&mut self, asked: &ScanQuery<Arrival>, hop: &Hop<u32>) -> Result<(), AllocError>
        requires { CanLeaveByArrival (question asked.now.query) hop.now self.old }
        ensures { OnOk result (LeavesByArrival (question asked.now.query) hop.now self.old self.new) }
    {
        if !hop.connection.alight {
            return Ok(());
        }
        self.end(asked, hop)?;
        self.change(hop)?;
        Ok(())
    }

    // The label of a trip, if it has one.
    fn label_of(&self, trip: u32) -> &[Label<u32>]
        requires { trip < trips_of self.now }
        ensures { result.now ≡ labels_of self.now trip }
    {
        let begin = trip as usize;
        if self.labels[begin].value < NEVER {
            return &self.labels[begin..begin + 1];
        }
        &self.labels[begin..begin]
    }

    // Sets out for the hop's connection with the label of its trip, if anybody may set out.
    #[inline(always)]
    fn set_out<S: ConnSource, O: AtSource<Arrival>>(
        &self,
        asked: &ScanQuery<Arrival>,
        source: &S,
        hop: &Hop<u32>,
        origin: &mut O,
    ) -> Result<(), AllocError>
        requires can { CanSetOutAt ⟦<Arrival as Criterion>⟧.rules O.IsUnder (S.timetable source.now) asked.now hop.now
            (labels_of self.now hop.now.connection.trip) origin.old }
        requires trip { hop.now.connection.trip < trips_of self.now }
        ensures { OnOk result (SetsOut ⟦<Arrival as Criterion>⟧.rules O.IsUnder O.sources O.kept
            (S.timetable source.now) asked.now hop.now (labels_of self.now hop.now.connection.trip)
            origin.old origin.new) }
    {
        if !origin.sets_out_at(asked, hop) {
            return Ok(());
        }
        self.set_out_by_label(asked, source, *hop, origin)
    }

    // The same where somebody may set out, which is rare in most scans.
    #[inline(never)]
    fn set_out_by_label<S: ConnSource, O: AtSource<Arrival>>(
        &self,
        asked: &ScanQuery<Arrival>,
        source: &S,
        hop: Hop<u32>,
        origin: &mut O,
    ) -> Result<(), AllocError>
        requires can { CanSetOutAt ⟦<Arrival as Criterion>⟧.rules O.IsUnder (S.timetable source.now) asked.now hop
            (labels_of self.now hop.connection.trip) origin.old }
        requires trip { hop.connection.trip < trips_of self.now }
        ensures { OnOk result (SetsOut ⟦<Arrival as Criterion>⟧.rules O.IsUnder O.sources O.kept
            (S.timetable source.now) asked.now hop.entry (labels_of self.now hop.entry.connection.trip)
            origin.old origin.new) }
    {
        let labels = self.label_of(hop.connection.trip);
        origin.set_out(asked, source, &hop, labels)
    }
}
