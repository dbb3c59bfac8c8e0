//! What a scan keeps for each trip: its labels. A label says how the trip is left, and what the rest of the journey is
//! worth, without the ride in this trip.
//!
//! A trip is left where a connection ends: at a target, one footpath before one, or to change.

ghost use Rattle.std.specs.Prelude.{◌≡◌, ◌+◌, ◌≤◌, IfSome, MatchOption, Option};
ghost use Rattle.criteria.specs.Laws.{IsTime, IsSecs};
ghost use Rattle.timetable.specs.declared.network.Footpath.{Footpath};
ghost use Rattle.timetable.specs.Journeys.{start_secs};
ghost use Rattle.scan_state.specs.Adding.{IsEnding};
ghost use Rattle.scan_state.specs.ScanState.{final_walk_in};
ghost use Rattle.scan_state.specs.SetQuery.{question};

use crate::bound::any_no_worse;
use crate::final_walks::{FinalWalk, final_walk_of};
use crate::hop::{Hop, ScanQuery};
use crate::riding::started;
use crate::scan_records::Exit;
use crate::set_query::SetQuery;
use crate::stops::Stops;
use bags::Point;
use criteria::Criterion;
use fronts::{Labels, append, offer_label, some_no_worse};
use std::alloc::AllocError;
use timetable::{Connection, Footpath};

/// The labels of each trip. A label's tag is its index in `exits`.
#[derive(Drop)]
pub struct Trips<C: Criterion> {
    pub labels: Labels<C::V>,
    pub exits: Vec<Exit>,
}

impl<C: Criterion> Trips<C> {
    ghost use Rattle.scan_state.specs.SetQuery.{question};
    ghost use Rattle.std.specs.Prelude.{OnOk};
    ghost use Rattle.criteria.specs.Laws.{Admits};
    ghost use Rattle.fronts.specs.Labels.{HasTrip};
    ghost use Rattle.scan_state.specs.Bound.{Excludes};
    ghost use Rattle.scan_state.specs.ScanRecords.{IsExit};
    ghost use Rattle.scan_state.specs.declared.scan_records.Exit.TheVariants.{Changes};
    ghost use Rattle.scan_state.specs.Adding.{one_way};
    ghost use Rattle.scan_state.specs.ScanState.{points_at};
    ghost use Rattle.scan_state.specs.KeptParts.{LabelsTake, takes_changes, takes_endings};
    ghost use Rattle.scan_state.specs.InLists.{CanChange, CanLeave, TripsTake};

    // Offers one value to the labels of a trip. `exit` is kept only if the value was accepted.
    fn offer(&mut self, criterion: &C, trip: u32, value: C::V, exit: Exit) -> Result<(), AllocError>
        requires trip { HasTrip (C.rules criterion.now) self.old.labels trip }
        requires admitted { Admits (C.rules criterion.now) value }
        ensures { OnOk result (TripsTake (C.rules criterion.now) (LabelsTake (C.rules criterion.now) trip (λ _. ⊥)
            (λ tags. one_way 0 value (IsExit tags exit))) self.old self.new) }
    {
        let tag = self.exits.len();
        let stands = offer_label(criterion, &mut self.labels, trip, value, tag)?;
        if stands {
            append(&mut self.exits, exit)?;
        }
        Ok(())
    }

    /// Offers a label to the connection's trip for a journey that ends here, if a passenger who gets off reaches a
    /// target by `query.by`, at once or by footpath.
    #[inline(always)]
    pub fn end(&mut self, asked: &ScanQuery<C>, hop: &Hop<C::V>) -> Result<(), AllocError>
        requires { CanLeave (C.rules asked.now.criterion) (question asked.now.query) hop.now self.old }
        ensures { OnOk result (TripsTake (C.rules asked.now.criterion)
            (takes_endings (C.rules asked.now.criterion) (question asked.now.query) hop.now) self.old self.new) }
    {
        match end_of(&hop.connection, &asked.query, hop.final_entry) {
            None => Ok(()),
            Some(end) => {
                let arrived = asked.criterion.arrive(end.time);
                let value = started(&asked.criterion, end.walk, &arrived);
                let exit = Exit::Ends {
                    last: hop.place,
                    walk: end.walk,
                };
                self.offer_end(&asked.criterion, hop.connection.trip, value, exit)
            },
        }
    }

    // Does what `offer` does. Few journeys end, so it is a call and never inlined.
    #[inline(never)]
    fn offer_end(
        &mut self,
        criterion: &C,
        trip: u32,
        value: C::V,
        exit: Exit,
    ) -> Result<(), AllocError>
        requires trip { HasTrip (C.rules criterion.now) self.old.labels trip }
        requires admitted { Admits (C.rules criterion.now) value }
        ensures { OnOk result (TripsTake (C.rules criterion.now) (LabelsTake (C.rules criterion.now) trip (λ _. ⊥)
            (λ tags. one_way 0 value (IsExit tags exit))) self.old self.new) }
    {
        self.offer(criterion, trip, value, exit)
    }

    // Offers to the labels of the connection's trip one point of its arrival stop, unless a value of `hop.bound` is no
    // worse than the point's value with the ride. The value is compared with the labels first, since one of them
    // is usually no worse, and then with the bound.
    #[inline(always)]
    fn change_by(
        &mut self,
        asked: &ScanQuery<C>,
        hop: &Hop<C::V>,
        point: &Point<C::V>,
    ) -> Result<(), AllocError>
        requires can { CanLeave (C.rules asked.now.criterion) (question asked.now.query) hop.now self.old }
        requires point { Admits (C.rules asked.now.criterion) point.now.value }
        ensures { OnOk result (TripsTake (C.rules asked.now.criterion)
            (LabelsTake (C.rules asked.now.criterion) hop.now.connection.trip
            (λ _. Excludes (C.rules asked.now.criterion) hop.now.bound.now point.now.value)
            (λ tags. one_way 0 point.now.value (IsExit tags (Changes hop.now.place point.now.tag))))
            self.old self.new) }
    {
        let labels = self.labels.of(hop.connection.trip);
        if some_no_worse(&asked.criterion, labels, &point.value) {
            return Ok(());
        }
        let ridden = asked.criterion.ride(&point.value);
        if any_no_worse(&asked.criterion, hop.bound, &ridden) {
            return Ok(());
        }
        let exit = Exit::Changes {
            last: hop.place,
            step: point.tag,
        };
        self.offer(&asked.criterion, hop.connection.trip, point.value, exit)
    }

    /// A passenger changes: the labels of the connection's trip come to cover each point of its arrival stop that
    /// departs at the arrival or later, unless a value of `hop.bound` is no worse than the point's value with the ride.
    /// It suffices to offer the front at the arrival, which covers all such points. The first point of a front is read
    /// from its entry, and the others from the items, so the first is offered by itself.
    #[inline(always)]
    pub fn change(
        &mut self,
        asked: &ScanQuery<C>,
        hop: &Hop<C::V>,
        stops: &Stops<C>,
    ) -> Result<(), AllocError>
        requires { CanChange C.rules asked.now.criterion (question asked.now.query) hop.now self.old stops.now }
        ensures { OnOk result (TripsTake (C.rules asked.now.criterion)
            (takes_changes (C.rules asked.now.criterion) hop.now (points_at stops.now hop.now.connection.to))
            self.old self.new) }
    {
        let head = stops.head(hop.connection.to);
        // the index of the front's entry, 0 if all points depart earlier
        let entry = stops.lists.front_from(head, hop.connection.arr);
        let count = stops.lists.front_len(entry);
        if count == 0 {
            return Ok(());
        }
        let own = stops.lists.front_point(entry, 0);
        self.change_by(asked, hop, &own)?;
        for k in 1..count {
            let point = stops.lists.front_point(entry, k);
            self.change_by(asked, hop, &point)?;
        }
        Ok(())
    }
}

// How to end: the walk to a target, and when it is over.
#[derive(Clone, Copy)]
pub struct Ending {
    pub walk: Option<Footpath>,
    pub time: u32,
}

// The end of a journey that gets off where a connection ends, if it reaches a target by `query.by`; `entry` has the
// footpath from that stop to the nearest target, which is its loop if it is a target itself.
pub fn end_of(connection: &Connection, query: &SetQuery, entry: FinalWalk) -> Option<Ending>
    requires arrival { IsTime connection.now.arr }
    requires secs { IfSome (final_walk_in entry) (λ way. IsSecs way.secs) }
    ensures { MatchOption result
        ((walk : Option Footpath) → IsEnding connection.now (question query.now) (final_walk_in entry) walk → ⊥)
        (λ end. IsEnding connection.now (question query.now) (final_walk_in entry) end.walk
        × (end.time ≡ connection.now.arr + start_secs end.walk)
        × (end.time ≤ query.now.by)
        × ((walk : Option Footpath) → IsEnding connection.now (question query.now) (final_walk_in entry) walk
        → walk ≡ end.walk)) }
{
    let way = final_walk_of(entry)?;
    if way.to == connection.to {
        if connection.arr > query.by {
            return None;
        }
        return Some(Ending {
            walk: None,
            time: connection.arr,
        });
    }
    let time = connection.arr + way.secs;
    if time > query.by {
        return None;
    }
    let walk = Footpath {
        from: connection.to,
        to: way.to,
        secs: way.secs,
    };
    Some(Ending {
        walk: Some(walk),
        time,
    })
}
