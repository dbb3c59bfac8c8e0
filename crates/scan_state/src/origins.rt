//! What a scan keeps for each stop as a source: the points found from there, and how one sets out for each.

ghost use Rattle.std.specs.Prelude.{◌≡◌, MatchBool};
ghost use Rattle.scan_state.specs.Origins.{IsLoop, starts_at};

use crate::at_source::AtSource;
use crate::bound::Bound;
use crate::hop::{Hop, ScanQuery};
use crate::origin::{Origin, departure_with};
use criteria::Criterion;
use fronts::Label;
use sources::ConnSource;
use std::alloc::{AllocError, Global};
use timetable::{Connection, Footpath};

/// The points found from each stop.
#[derive(Drop)]
pub struct Origins<C: Criterion> {
    pub each: Vec<Origin<C>>,
}

/// Each stop is the source of a question of its own. A point found from one stop outdoes nothing for another, so the
/// bound stays empty.
impl<C: Criterion> AtSource<C> for Origins<C> {
    ghost use Rattle.std.specs.Prelude.{[], ◌∷◌, ℕ};
    ghost use Rattle.bags.specs.Dominance.{IsBag};
    ghost use Rattle.scan_state.specs.Origins.{AreOrigins, found_from, scan_value_from};

    ghost kept = { scan_value_from };

    ghost sources = { λ sources stop. stop ∷ [] };

    ghost IsUnder = { λ criterion stops origins. AreOrigins criterion stops origins
        × ((stop : ℕ) → IsBag (C.rules criterion) (found_from origins stop)) };

    fn new(alloc: Global, criterion: &C, stops: u32) -> Result<Self, AllocError> {
        let mut each = Vec::with_capacity(alloc, stops as usize)?;
        for _stop in 0..stops {
            each.push(Origin::empty(alloc, *criterion))?;
        }
        Ok(Origins { each })
    }

    #[inline(always)]
    fn renew(&self, _criterion: &C, _time: u32, _bound: &mut Bound<C>) -> Result<bool, AllocError> {
        Ok(false)
    }

    #[inline(always)]
    fn sets_out_at(&self, _asked: &ScanQuery<C>, hop: &Hop<C::V>) -> bool {
        hop.connection.board
    }

    #[inline(always)]
    fn is_led(&self, _asked: &ScanQuery<C>, _hop: &Hop<C::V>) -> bool {
        true
    }

    fn set_out_by(
        &mut self,
        asked: &ScanQuery<C>,
        hop: &Hop<C::V>,
        start: Option<Footpath>,
        labels: &[Label<C::V>],
    ) -> Result<(), AllocError> {
        if is_loop(start) {
            return Ok(());
        }
        let stop = source_of(&hop.connection, start);
        match departure_with(&asked.query, &hop.connection, start) {
            None => Ok(()),
            Some(departure) => {
                self.each[stop as usize].set_out_after(asked, hop.place, departure, labels)
            },
        }
    }

    ghost bags = { λ criterion stops origins is stop. is.1 stop };
}

// Whether a start is a loop.
#[inline(always)]
fn is_loop(start: Option<Footpath>) -> bool
    ensures { MatchBool result (IsLoop start) (IsLoop start → ⊥) }
{
    match start {
        None => false,
        Some(walk) => walk.to == walk.from,
    }
}

// The stop where one sets out by a start to board a connection.
#[inline(always)]
fn source_of(connection: &Connection, start: Option<Footpath>) -> u32
    ensures { result ≡ starts_at connection.now start }
{
    match start {
        None => connection.from,
        Some(walk) => walk.from,
    }
}
