//! One scan of a window, from its last connection to its first.

use criteria::Criterion;
use scan_state::{AtSource, Bound, Hop, Keeping, ScanQuery};
use sources::ConnSource;
use std::alloc::{AllocError, Global};
use std::ops::Range;
use timetable::Connection;

/// What a scan keeps of the connections that it has read: of trips and stops, and where journeys set out.
#[derive(Drop)]
pub struct State<K, O> {
    pub keeping: K,
    pub origin: O,
}

/// What a scan keeps, and its bound: values of points found that depart no earlier than the connections to come.
#[derive(Drop)]
pub struct Scan<C: Criterion, K, O> {
    pub state: State<K, O>,
    pub bound: Bound<C>,
}

impl<C: Criterion, K: Keeping<C>, O: AtSource<C>> Scan<C, K, O> {
    ghost use Rattle.profile_scan.specs.Scans.{CanStep, MakesStep};

    // Unless the connection at index `place` can add nothing, renews the bound and takes the connection in.
    fn step<S: ConnSource>(
        &mut self,
        asked: &ScanQuery<C>,
        source: &S,
        connection: &Connection,
        place: u32,
    ) -> Result<(), AllocError>
        requires { CanStep C.rules K.IsUnder O.IsUnder O.kept (S.timetable source.now) asked.now place connection.now
            self.old }
        ensures { OnOk result (MakesStep C.rules K.IsUnder K.value O.IsUnder O.sources O.kept (S.timetable source.now)
            asked.now place self.old self.new) }
    {
        let final_entry = asked.final_walks.entry_of(connection.to);
        if self.state.keeping.is_idle(asked, connection, final_entry) {
            return Ok(());
        }
        let renewed = self
            .state
            .origin
            .renew(&asked.criterion, connection.dep, &mut self.bound)?;
        let hop = Hop {
            connection: *connection,
            place,
            access: asked.starts.access_to(connection.from),
            final_entry,
            bound: &self.bound.values,
            renewed,
        };
        self.state
            .keeping
            .take(asked, source, &hop, &mut self.state.origin)?;
        Ok(())
    }
}

ghost use Rattle.std.specs.Prelude.{◌≡◌, ◌-◌, ◌++◌, ℕ, IfOk, OnOk, OnErr, take};
ghost use Rattle.scan_state.specs.Hops.{IsWindow};
ghost use Rattle.profile_scan.specs.Window.{falling};
ghost use Rattle.profile_scan.specs.Scans.{HasScanned};

/// Scans the connections of a window, the last first. For each question, the points found match every journey whose
/// first connection is the window's first or a later one; those that begin after the window arrive too late. It is
/// never inlined, so that the loop of each instance has the processor's registers to itself.
#[inline(never)]
pub fn scan_window<S: ConnSource, C: Criterion, K: Keeping<C>, O: AtSource<C>>(
    alloc: Global,
    source: &mut S,
    asked: &ScanQuery<C>,
    window: Range<usize>,
) -> Result<Scan<C, K, O>, AllocError>
    requires { IsWindow (S.timetable source.old) asked.now window.start window.end }
    ensures timetable { S.timetable source.new ≡ S.timetable source.old }
    ensures scanned { IfOk result (HasScanned C.rules K.value O.IsUnder O.sources O.kept (S.timetable source.old)
        asked.now window.start) }
    ensures log { OnOk result
        (S.log source.new ≡ S.log source.old ++ falling window.start (window.end - window.start)) }
    ensures err { OnErr result ((n : ℕ)
        × (S.log source.new ≡ S.log source.old ++ take n (falling window.start (window.end - window.start)))) }
{
    let expected = window.end - window.start;
    let stops = source.stops();
    let keeping = K::new(alloc, &asked.criterion, stops, source.trips(), expected)?;
    let origin = O::new(alloc, &asked.criterion, stops)?;
    let mut scan = Scan {
        state: State { keeping, origin },
        bound: Bound::new(alloc),
    };
    let mut place = window.end;
    // Invariant: for each question, what is kept matches every way to go on over the connections from index `place` on,
    // but for what the points found outdo at stops and in trips (`MatchesFrom`, `matched` in
    // proofs/scan/scan_window/Invariants.antt).
    while window.start < place {
        place -= 1;
        let connection = source.connection(place);
        scan.step(asked, source, &connection, place as u32)?;
    }
    Ok(scan)
}
