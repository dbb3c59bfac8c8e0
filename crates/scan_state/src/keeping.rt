//! What a scan keeps of trips and stops, in whatever form.

ghost use Rattle.std.specs.Prelude.{◌≡◌, ℕ, List, true, slice_get, IfOk, OnOk};
ghost use Rattle.scan_state.specs.ScanState.{final_walk_in};
ghost use Rattle.scan_state.specs.ScanRecords.{KeptValue};
ghost use Rattle.scan_state.specs.Keeping.{AdmitsKept, CanTake, HasTripAndStop, IsIdle, IsNewKeeping, TakesHop};

use crate::at_source::AtSource;
use crate::final_walks::FinalWalk;
use crate::hop::{Hop, ScanQuery};
use crate::scan_records::Exit;
use criteria::Criterion;
use fronts::Step;
use sources::ConnSource;
use std::alloc::{AllocError, Global};
use timetable::Connection;

/// What a scan keeps of trips and stops: labels of each trip, points of each stop, and how one goes on from them, in
/// numbered records. A label says how its trip is left, and what the rest of the journey is worth without the ride in
/// this trip; its tag is the number of an exit. The tag of a stop's point is the number of a step. Records are only
/// added, so a number keeps its meaning.
pub trait Keeping<C: Criterion>: Drop {
    // what is kept
    ghost value: { Self → KeptValue C.V };

    // it is under a criterion, for so many stops and trips, and what it has made of the bound excludes nothing that the
    // listed values of the bound don't
    ghost IsUnder: { C → ℕ → ℕ → List C.V → Self → Type 0 };

    /// Nothing kept yet, for `stops` stops and `trips` trips, with room for what `expected` connections mostly add.
    fn new(
        alloc: Global,
        criterion: &C,
        stops: u32,
        trips: u32,
        expected: usize,
    ) -> Result<Self, AllocError>
        ensures { IfOk result (IsNewKeeping IsUnder value criterion.now stops trips) };

    /// Returns true only if the connection can add nothing, but for what the bound excludes; false is always safe.
    /// `entry` is what `FinalWalks` has for the stop where the connection ends.
    fn is_idle(&self, asked: &ScanQuery<C>, connection: &Connection, entry: FinalWalk) -> bool
        requires { HasTripAndStop IsUnder asked.now.criterion connection.now.trip connection.now.to self.now }
        ensures { result ≡ true → (stops trips : ℕ) (bound : List C.V)
            → IsUnder asked.now.criterion stops trips bound self.now
            → IsIdle (C.rules asked.now.criterion) bound connection.now (final_walk_in entry)
            ((value self.now).labels connection.now.trip) ((value self.now).bag connection.now.to) };

    /// Takes one connection in: passengers leave the trip where the connection ends; then, by the labels that the trip
    /// has now, they set out for the connection and board it.
    fn take<S: ConnSource, O: AtSource<C>>(
        &mut self,
        asked: &ScanQuery<C>,
        source: &S,
        hop: &Hop<C::V>,
        origin: &mut O,
    ) -> Result<(), AllocError>
        requires { CanTake C.rules IsUnder O.IsUnder (S.timetable source.now) asked.now hop.now self.old origin.old }
        ensures { OnOk result (TakesHop C.rules IsUnder value O.IsUnder O.sources O.kept (S.timetable source.now)
            asked.now hop.now self.old self.new origin.old origin.new) };

    /// The exit at a number, if there is one.
    fn exit(&self, number: usize) -> Option<Exit>
        ensures { result ≡ slice_get (value self.now).exits number };

    /// The step at a number, if there is one.
    fn step(&self, number: usize) -> Option<Step>
        ensures { result ≡ slice_get (value self.now).steps number };

    // all values are admitted
    ghost admitted: { (criterion : C) (stops trips : ℕ) (bound : List C.V) (kept : Self)
        → IsUnder criterion stops trips bound kept → AdmitsKept (C.rules criterion) (value kept) };
}
