//! What a scan keeps for its sources together: the points found, and how one sets out for each.

ghost use Rattle.std.specs.Prelude.{◌≡◌, ◌-◌, MatchBool, MatchOption};
ghost use Rattle.criteria.specs.Laws.{Admits};
ghost use Rattle.timetable.specs.Journeys.{start_secs};
ghost use Rattle.scan_state.specs.Adding.{IsInTime, StartsFrom};
ghost use Rattle.scan_state.specs.SetQuery.{question};
ghost use Rattle.scan_state.specs.Hops.{KnowsSources};

use crate::at_source::AtSource;
use crate::bound::Bound;
use crate::hop::{Hop, ScanQuery};
use crate::riding::{label_at, started};
use crate::scan_records::SetOut;
use crate::set_query::SetQuery;
use bags::Bag;
use criteria::Criterion;
use fronts::Label;
use sources::ConnSource;
use std::alloc::{AllocError, Global};
use timetable::{Connection, Footpath};

/// The points found. A point's tag is its index in `set_outs`.
#[derive(Drop)]
pub struct Origin<C: Criterion> {
    pub found: Bag<C>,
    pub set_outs: Vec<SetOut>,
}

impl<C: Criterion> Origin<C> {
    ghost use Rattle.std.specs.Prelude.{[], OnOk};
    ghost use Rattle.bags.specs.Bag.{criterion_of, points_of};
    ghost use Rattle.scan_state.specs.Adding.{label_points, set_out_way, settings_out_after};
    ghost use Rattle.scan_state.specs.Parts.{CanSetOut, OriginTakes};

    /// Makes an origin without points.
    pub fn empty(alloc: Global, criterion: C) -> Self
        ensures criterion { criterion_of result.found ≡ criterion }
        ensures none { points_of result.found ≡ [] }
    {
        let found = Bag::new(alloc, criterion);
        Origin {
            found,
            set_outs: Vec::new(alloc),
        }
    }

    // Offers one point to the points found. `set_out` is kept only if the point was accepted.
    fn offer(
        &mut self,
        criterion: &C,
        departure: u32,
        value: C::V,
        set_out: SetOut,
    ) -> Result<(), AllocError>
        requires same { criterion_of self.old.found ≡ criterion.now }
        requires admitted { Admits (C.rules criterion.now) value }
        ensures { OnOk result (OriginTakes C.rules criterion.now
            (λ tags. set_out_way tags departure value set_out) self.old self.new) }
    {
        let tag = self.set_outs.len();
        let stands = self.found.insert(departure, value, tag)?;
        if stands {
            self.set_outs.push(set_out)?;
        }
        Ok(())
    }

    /// For each label of the connection's trip, offers a point to those found: this departure, then the connection,
    /// then what the label says.
    #[inline(never)]
    pub fn set_out_after(
        &mut self,
        asked: &ScanQuery<C>,
        place: u32,
        departure: SourceDeparture,
        labels: &[Label<C::V>],
    ) -> Result<(), AllocError>
        requires { CanSetOut C.rules asked.now.criterion departure.start labels.now self.old }
        ensures { OnOk result (OriginTakes C.rules asked.now.criterion
            (λ tags. settings_out_after (C.rules asked.now.criterion) tags place
            departure.time departure.start (label_points labels.now)) self.old self.new) }
    {
        for k in 0..labels.len() {
            let label = label_at(labels, k);
            let ridden = asked.criterion.ride(&label.value);
            let value = started(&asked.criterion, departure.start, &ridden);
            let set_out = SetOut {
                start: departure.start,
                first: place,
                label: label.tag,
            };
            self.offer(&asked.criterion, departure.time, value, set_out)?;
        }
        Ok(())
    }
}

impl<C: Criterion> AtSource<C> for Origin<C> {
    ghost use Rattle.std.proofs.Common.{subst};
    ghost use Rattle.bags.specs.Bag.{criterion_of, points_of};
    ghost use Rattle.bags.specs.Dominance.{IsBag};
    ghost use Rattle.scan_state.specs.Origins.{kept_of};

    ghost kept = { λ origin index. kept_of origin };

    ghost sources = { λ sources index. sources };

    ghost IsUnder = { λ criterion stops origin. criterion_of origin.found ≡ criterion };

    fn new(alloc: Global, criterion: &C, _stops: u32) -> Result<Self, AllocError> {
        Ok(Origin::empty(alloc, *criterion))
    }

    #[inline(always)]
    fn renew(&self, criterion: &C, time: u32, bound: &mut Bound<C>) -> Result<bool, AllocError> {
        bound.renew(criterion, &self.found, self.set_outs.len(), time)
    }

    #[inline(always)]
    fn sets_out_at(&self, asked: &ScanQuery<C>, hop: &Hop<C::V>) -> bool {
        let board = hop.connection.board;
        if !board {
            return false;
        }
        if hop.access.here {
            return true;
        }
        self.is_led(asked, hop)
    }

    #[inline(always)]
    fn is_led(&self, _asked: &ScanQuery<C>, hop: &Hop<C::V>) -> bool {
        hop.access.led
    }

    #[inline(always)]
    fn set_out_by(
        &mut self,
        asked: &ScanQuery<C>,
        hop: &Hop<C::V>,
        start: Option<Footpath>,
        labels: &[Label<C::V>],
    ) -> Result<(), AllocError> {
        if !is_from_source(asked, hop, start) {
            return Ok(());
        }
        match departure_with(&asked.query, &hop.connection, start) {
            None => Ok(()),
            Some(departure) => self.set_out_after(asked, hop.place, departure, labels),
        }
    }

    ghost bags = { λ criterion stops origin under index.
        subst (λ k. IsBag (C.rules k) (points_of origin.found)) under origin.found.kept };
}

/// How one sets out: the start, and when one leaves the source.
#[derive(Clone, Copy)]
pub struct SourceDeparture {
    pub start: Option<Footpath>,
    pub time: u32,
}

// Whether a start for the hop's connection begins at a source and isn't a loop.
#[inline(always)]
fn is_from_source<C: Criterion>(
    asked: &ScanQuery<C>,
    hop: &Hop<C::V>,
    start: Option<Footpath>,
) -> bool
    requires { KnowsSources (question asked.now.query).sources hop.now asked.now.starts start }
    ensures { MatchBool result (StartsFrom (question asked.now.query) hop.now.connection start)
        (StartsFrom (question asked.now.query) hop.now.connection start → ⊥) }
{
    match start {
        None => hop.access.here,
        Some(walk) => {
            if walk.to == walk.from {
                return false;
            }
            asked.starts.access_to(walk.from).here
        },
    }
}

/// The departure of a start that leads to a connection, if the query allows it.
#[inline(always)]
pub fn departure_with(
    query: &SetQuery,
    connection: &Connection,
    start: Option<Footpath>,
) -> Option<SourceDeparture>
    ensures { MatchOption result (IsInTime query.now.from query.now.until connection.now start → ⊥)
        (λ departure. IsInTime query.now.from query.now.until connection.now start × (departure.start ≡ start)
        × (departure.time ≡ connection.now.dep - start_secs start)) }
{
    let secs = match start {
        None => 0,
        Some(walk) => walk.secs,
    };
    if secs > connection.dep {
        return None;
    }
    let time = connection.dep - secs;
    if time < query.from || time > query.until {
        return None;
    }
    Some(SourceDeparture { start, time })
}
