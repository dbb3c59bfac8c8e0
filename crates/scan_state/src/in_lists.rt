//! Trips and stops kept in lists, under any criterion.

ghost use Rattle.std.specs.Prelude.{◌≡◌, ◌↔◌, None, true};
ghost use Rattle.scan_state.specs.ScanState.{final_walk_in};

use crate::at_source::AtSource;
use crate::final_walks::{FinalWalk, final_walk_of};
use crate::hop::{Hop, ScanQuery};
use crate::keeping::Keeping;
use crate::scan_records::Exit;
use crate::stops::Stops;
use crate::trips::Trips;
use criteria::Criterion;
use fronts::{FrontLists, Labels, Step};
use sources::ConnSource;
use std::alloc::{AllocError, Global};
use timetable::Connection;

/// For each trip its labels, and for each stop a list of points.
#[derive(Drop)]
pub struct InLists<C: Criterion> {
    pub trips: Trips<C>,
    pub stops: Stops<C>,
}

impl<C: Criterion> Keeping<C> for InLists<C> {
    ghost use Rattle.scan_state.specs.InLists.{AreLists, value_in};

    ghost value = { value_in };

    ghost IsUnder = { λ criterion stops trips bound lists. AreLists C.rules criterion stops trips lists };

    fn new(
        alloc: Global,
        criterion: &C,
        stops: u32,
        trips: u32,
        expected: usize,
    ) -> Result<Self, AllocError> {
        let labels = Labels::new(alloc, trips)?;
        let exits = Vec::with_capacity(alloc, expected / 8)?;
        let lists = FrontLists::new(alloc, *criterion, expected)?;
        let heads = vec![in alloc; 0u32; stops as usize]?;
        let ridden = Vec::new(alloc);
        Ok(InLists {
            trips: Trips { labels, exits },
            stops: Stops {
                lists,
                heads,
                ridden,
            },
        })
    }

    // The stop is looked at first: few lead nowhere, but half of the trips have labels, and a branch on that is often
    // mispredicted.
    fn is_idle(&self, _asked: &ScanQuery<C>, connection: &Connection, entry: FinalWalk) -> bool {
        let head = self.stops.head(connection.to);
        let nowhere = alighting_leads_nowhere(connection, entry, head);
        if !nowhere {
            return false;
        }
        if self.trips.labels.count(connection.trip) > 0 {
            return false;
        }
        true
    }

    fn take<S: ConnSource, O: AtSource<C>>(
        &mut self,
        asked: &ScanQuery<C>,
        source: &S,
        hop: &Hop<C::V>,
        origin: &mut O,
    ) -> Result<(), AllocError> {
        if hop.connection.alight {
            self.trips.end(asked, hop)?;
            self.trips.change(asked, hop, &self.stops)?;
        }
        let labels = self.trips.labels.of(hop.connection.trip);
        if labels.len() == 0 {
            return Ok(());
        }
        origin.set_out(asked, source, hop, labels)?;
        self.stops.board(asked, source, hop, labels)?;
        Ok(())
    }

    fn exit(&self, number: usize) -> Option<Exit> {
        self.trips.exits.get(number).copied()
    }

    fn step(&self, number: usize) -> Option<Step> {
        self.stops.lists.step(number)
    }

    ghost admitted = { λ criterion stops trips bound lists are. are.admitted };
}

/// Whether getting off where a connection ends leads nowhere: true if passengers may not get off there, or if that stop
/// has neither a footpath to a target (a target's own loop counts) nor points.
/// `entry` is what `FinalWalks` has for the stop, `head` the head of the stop's list, which is 0 if it has no points. It
/// ignores the labels of the connection's trip.
fn alighting_leads_nowhere(connection: &Connection, entry: FinalWalk, head: u32) -> bool
    ensures { (result ≡ true) ↔ (connection.now.alight ≡ true
        → (final_walk_in entry ≡ None) × (head ≡ 0)) }
{
    if !connection.alight {
        return true;
    }
    if head > 0 {
        return false;
    }
    match final_walk_of(entry) {
        None => true,
        Some(_way) => false,
    }
}
