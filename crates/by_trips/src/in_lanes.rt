//! Trips and stops kept in lanes, by arrival and trips.

ghost use Rattle.std.specs.Prelude.{◌≡◌, ◌*◌, ◌+◌, ◌≤◌, MatchResult};

use criteria::{ArrivalTrips, TimeTrips};
use fronts::{Boarding, append, index_of};
use lanes::{StopLanes, Taken, TripLanes, Words};
use scan_state::{Hop, ScanQuery, end_of};
use sources::ConnSource;
use std::alloc::AllocError;
use std::ops::Range;
use timetable::Footpath;

/// How a trip is left, whichever its lane: at a target or one footpath before it; to change by the front of an entry;
/// or to change by one step.
#[derive(Clone, Copy, Drop)]
pub enum LaneExit {
    Ends { last: u32, walk: Option<Footpath> },
    Changes { last: u32, entry: u32 },
    ChangesToStep { last: u32, step: u32 },
}

/// Labels of trips and points of stops in lanes. A label's tag is eight times the index of its exit, and its number of
/// trips.
#[derive(Drop)]
pub struct InLanes {
    pub trips: TripLanes,
    pub stops: StopLanes,
    pub exits: Vec<LaneExit>,
    // values of the bound
    pub bound: Words,
}

impl InLanes {
    ghost use Rattle.std.specs.Prelude.{true, IfOk, OnOk};
    ghost use Rattle.scan_state.specs.SetQuery.{question};
    ghost use Rattle.by_trips.specs.InLanes.{CanBoardLanes, CanBoardLanesEach, CanLeaveLanes};
    ghost use Rattle.by_trips.specs.InLanes.{CanBoardHop, LaneBoards, LaneTakes, changes_in_lanes};
    ghost use Rattle.by_trips.specs.InLanes.{changes_but_eight, value_of};
    ghost use Rattle.scan_state.specs.KeptParts.{boards_after, boards_after_each, boards_all, takes_endings};
    ghost use Rattle.lanes.specs.Lanes.{trip_rules};
    ghost use Rattle.lanes.specs.StopLanes.{IsFrontFrom, stops_of};
    ghost use Rattle.lanes.specs.TripLanes.{trips_of};

    /// Offers to the labels of the hop's trip a label for a journey that ends here, if a passenger who gets off reaches
    /// a target by `query.by`.
    #[inline(always)]
    pub fn end(
        &mut self,
        asked: &ScanQuery<ArrivalTrips>,
        hop: &Hop<TimeTrips>,
    ) -> Result<(), AllocError>
        requires { CanLeaveLanes (question asked.now.query) hop.now self.old }
        ensures { OnOk result (LaneTakes hop.now.bound.now
            (takes_endings trip_rules (question asked.now.query) hop.now) self.old self.new) }
    {
        let Some(end) = end_of(&hop.connection, &asked.query, hop.final_entry) else {
            return Ok(());
        };
        let first = first_tag(self.exits.len())?;
        match self.trips.end(hop.connection.trip, end.time, first) {
            Taken::Lowered => {
                append(
                    &mut self.exits,
                    LaneExit::Ends {
                        last: hop.place,
                        walk: end.walk,
                    },
                )?;
                Ok(())
            },
            Taken::NoNews => Ok(()),
            Taken::Full => Ok(()),
        }
    }

    /// Offers to the labels of the hop's trip the points of the stop where it ends that depart at the arrival or later,
    /// unless the bound excludes them. Returns false if there is no lane for one of them; then all stays as it was.
    #[inline(always)]
    pub fn change(
        &mut self,
        asked: &ScanQuery<ArrivalTrips>,
        hop: &Hop<TimeTrips>,
    ) -> Result<bool, AllocError>
        requires { CanLeaveLanes (question asked.now.query) hop.now self.old }
        ensures { IfOk result (λ changed. changes_in_lanes hop.now changed self.old self.new) }
    {
        let entry = self.stops.front_from(hop.connection.to, hop.connection.arr);
        let first = first_tag(self.exits.len())?;
        match self.trips.change(
            hop.connection.trip,
            self.stops.front(entry),
            &self.bound,
            first,
        ) {
            Taken::Lowered => {
                append(
                    &mut self.exits,
                    LaneExit::Changes {
                        last: hop.place,
                        entry,
                    },
                )?;
                Ok(true)
            },
            Taken::NoNews => Ok(true),
            Taken::Full => Ok(false),
        }
    }

    /// Does what `change` does, but for what only a value of eight trips beats: by the front of an entry without that
    /// value.
    pub fn change_but_eight(
        &mut self,
        asked: &ScanQuery<ArrivalTrips>,
        hop: &Hop<TimeTrips>,
        entry: u32,
    ) -> Result<(), AllocError>
        requires can { CanLeaveLanes (question asked.now.query) hop.now self.old }
        requires entry { IsFrontFrom self.old.stops hop.now.connection.to hop.now.connection.arr entry }
        ensures { OnOk result (changes_but_eight hop.now entry self.old self.new) }
    {
        let front = self.stops.front(entry).but_eight();
        let first = first_tag(self.exits.len())?;
        match self
            .trips
            .change(hop.connection.trip, &front, &self.bound, first)
        {
            Taken::Lowered => {
                append(
                    &mut self.exits,
                    LaneExit::Changes {
                        last: hop.place,
                        entry,
                    },
                )?;
                Ok(())
            },
            Taken::NoNews => Ok(()),
            Taken::Full => Ok(()),
        }
    }

    // Offers the point of taking a footpath and then boarding, for each label of the hop's trip, to the stop where the
    // footpath begins, unless the bound excludes it.
    #[inline(always)]
    fn board_walk(
        &mut self,
        hop: &Hop<TimeTrips>,
        walk_index: usize,
        walk: Footpath,
    ) -> Result<(), AllocError>
        requires { CanBoardLanes hop.now walk self.old }
        ensures { OnOk result (LaneBoards (stops_of self.old.stops) (trips_of self.old.trips) hop.now.bound.now
            (boards_after trip_rules hop.now ((value_of self.old).labels hop.now.connection.trip) walk_index walk)
            self.old self.new) }
    {
        let dep = hop.connection.dep;
        if walk.secs > dep {
            return Ok(());
        }
        let number = index_of(walk_index)?;
        let boarding = Boarding {
            departure: dep - walk.secs,
            first: hop.place,
            walk: number,
            secs: walk.secs,
        };
        self.stops.board(
            walk.from,
            boarding,
            &self.trips,
            hop.connection.trip,
            &self.bound,
        )
    }

    // Goes over the footpaths at the indices `walks`, which lead to the stop where the hop's connection begins, and
    // boards after each.
    #[inline(always)]
    fn board_walks<S: ConnSource>(
        &mut self,
        source: &S,
        hop: &Hop<TimeTrips>,
        walks: Range<usize>,
    ) -> Result<(), AllocError>
        requires { CanBoardLanesEach (S.timetable source.now) walks.start walks.end hop.now self.old }
        ensures { OnOk result
            (LaneBoards (S.timetable source.now).stops (S.timetable source.now).trips hop.now.bound.now
            (boards_after_each trip_rules (S.timetable source.now) walks.start walks.end hop.now
            ((value_of self.old).labels hop.now.connection.trip)) self.old self.new) }
    {
        for walk_index in walks.start..walks.end {
            let walk = source.footpath_into(hop.connection.from as usize, walk_index);
            self.board_walk(hop, walk_index, walk)?;
        }
        Ok(())
    }

    /// Boards the hop's connection, if passengers may get on there. Mostly the bound outdoes all labels of its trip, or
    /// the trip has none, and then nothing more is read.
    #[inline(always)]
    pub fn board<S: ConnSource>(
        &mut self,
        asked: &ScanQuery<ArrivalTrips>,
        source: &S,
        hop: &Hop<TimeTrips>,
    ) -> Result<(), AllocError>
        requires { CanBoardHop (S.timetable source.now) (question asked.now.query) asked.now.starts hop.now self.old }
        ensures { OnOk result
            (LaneBoards (S.timetable source.now).stops (S.timetable source.now).trips hop.now.bound.now
            (boards_all trip_rules (S.timetable source.now) hop.now
            ((value_of self.old).labels hop.now.connection.trip)) self.old self.new) }
    {
        if !hop.connection.board {
            return Ok(());
        }
        if !self.trips.may_board(hop.connection.trip, &self.bound) {
            return Ok(());
        }
        let (begin, end) = source.walks_into(hop.connection.from as usize);
        self.board_walks(source, hop, begin..end)?;
        Ok(())
    }
}

/// The tag of the first lane of the next exit. Past 2^32 tags it fails, as if memory had run out.
pub fn first_tag(exits: usize) -> Result<u32, AllocError>
    ensures { MatchResult result (λ first. (first ≡ 8 * exits) × (first + 7 ≤ 4294967295)) (λ _. 536870912 ≤ exits) }
{
    if exits >= 1 << 29 {
        return Err(AllocError);
    }
    Ok(8 * exits as u32)
}
