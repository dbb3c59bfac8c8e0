//! Where the journeys of a scan set out, and what it keeps there.

ghost use Rattle.std.specs.Prelude.{◌≡◌, ℕ, List, IfOk, OnOk, Contains, false};
ghost use Rattle.criteria.specs.Laws.{Admits};
ghost use Rattle.bags.specs.Dominance.{IsBag};
ghost use Rattle.scan_state.specs.ScanRecords.{SourceValue};
ghost use Rattle.scan_state.specs.Bound.{IsRenewed};
ghost use Rattle.scan_state.specs.Parts.{CanSetOutAt, CanSetOutBy, IsNewSource, NobodySetsOut, NoneLeads};
ghost use Rattle.scan_state.specs.Parts.{SetsOut, SetsOutBy};

use crate::bound::Bound;
use crate::hop::{Hop, ScanQuery};
use criteria::Criterion;
use fronts::Label;
use sources::ConnSource;
use std::alloc::{AllocError, Global};
use timetable::Footpath;

/// What a scan keeps where journeys set out. It may answer several questions at once, which differ only in their
/// sources, and keeps the points found for each. `Origins` answers one question from each stop, and a question's index
/// is its stop. `Origin` answers one question, from all sources that the query names: whatever the index, that one is
/// meant.
pub trait AtSource<C: Criterion>: Drop {
    // what is kept for the question at an index
    ghost kept: { Self → ℕ → SourceValue C.V };

    // the sources of the question at an index, given those that the query names
    ghost sources: { List ℕ → ℕ → List ℕ };

    // it is under a criterion, in a timetable of so many stops
    ghost IsUnder: { C → ℕ → Self → Type 0 };

    /// Nothing found yet, in a timetable of `stops` stops.
    fn new(alloc: Global, criterion: &C, stops: u32) -> Result<Self, AllocError>
        ensures { IfOk result (IsNewSource IsUnder kept criterion.now stops) };

    /// Adds values to a bound: those of points that depart at `time` or later and were found for every question. What
    /// the bound excluded stays excluded. Returns whether points were looked at, so that the values may be others.
    fn renew(&self, criterion: &C, time: u32, bound: &mut Bound<C>) -> Result<bool, AllocError>
        requires under { (stops : ℕ) × IsUnder criterion.now stops self.now }
        requires values { (b : _) → Contains bound.old.values.items b → Admits (C.rules criterion.now) b }
        ensures { OnOk result ((index : ℕ) → IsRenewed (C.rules criterion.now) (kept self.now index).found time
            bound.old.values.items bound.new.values.items) };

    /// Whether anybody may set out at a hop; true is always safe.
    fn sets_out_at(&self, asked: &ScanQuery<C>, hop: &Hop<C::V>) -> bool
        ensures { result ≡ false → NobodySetsOut C.rules sources asked.now hop.now };

    /// Returns false only if no footpath but a loop leads to the hop from a source of any question.
    fn is_led(&self, asked: &ScanQuery<C>, hop: &Hop<C::V>) -> bool
        ensures { result ≡ false → NoneLeads C.rules sources asked.now hop.now };

    /// Sets out for the hop's connection by one start. For each question that has a source where the start begins and
    /// allows the departure, each label of the connection's trip gives a point, which is offered to the points found. A
    /// loop is no start.
    fn set_out_by(
        &mut self,
        asked: &ScanQuery<C>,
        hop: &Hop<C::V>,
        start: Option<Footpath>,
        labels: &[Label<C::V>],
    ) -> Result<(), AllocError>
        requires { CanSetOutBy C.rules IsUnder asked.now hop.now start labels.now self.old }
        ensures { OnOk result
            (SetsOutBy C.rules IsUnder sources kept asked.now hop.now start labels.now self.old self.new) };

    /// Sets out for a connection, if passengers may get on there: by the empty start, and by each footpath there.
    fn set_out<S: ConnSource>(
        &mut self,
        asked: &ScanQuery<C>,
        source: &S,
        hop: &Hop<C::V>,
        labels: &[Label<C::V>],
    ) -> Result<(), AllocError>
        requires { CanSetOutAt C.rules IsUnder (S.timetable source.now) asked.now hop.now labels.now self.old }
        ensures { OnOk result (SetsOut C.rules IsUnder sources kept (S.timetable source.now) asked.now hop.now
            labels.now self.old self.new) }
    {
        if !hop.connection.board {
            return Ok(());
        }
        self.set_out_by(asked, hop, None, labels)?;
        if !self.is_led(asked, hop) {
            return Ok(());
        }
        let (begin, end) = source.walks_into(hop.connection.from as usize);
        for walk_index in begin..end {
            let walk = source.footpath_into(hop.connection.from as usize, walk_index);
            self.set_out_by(asked, hop, Some(walk), labels)?;
        }
        Ok(())
    }

    // the points found are a bag
    ghost bags: { (criterion : C) (stops : ℕ) (side : Self) → IsUnder criterion stops side → (index : ℕ)
        → IsBag (C.rules criterion) (kept side index).found };
}
