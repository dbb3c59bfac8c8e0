//! What a scan asks of its source.

ghost use Rattle.std.specs.Prelude.{◌≡◌, ◌↔◌, ◌<◌, ◌≤◌, ◌++◌, ◌∷◌, [], ℕ, List, length};
ghost use Rattle.timetable.specs.TimetableValue.{TimetableValue};
ghost use Rattle.timetable.specs.Legal.{At, IsLegal};
ghost use Rattle.timetable.specs.Limits.{IsWithinLimits};
ghost use Rattle.timetable.specs.Journeys.{connection_at};
ghost use Rattle.timetable.specs.declared.network.Footpath.{Footpath};
ghost use Rattle.sources.specs.FirstAt.{IsFirstAt};

use timetable::{Connection, Footpath};

/// Where it is noted which connections a source was asked for. Only contracts see what was noted.
pub trait ReadLog {
    // the indices that were noted, the oldest first
    ghost reads: { Self → List ℕ };

    /// Notes one more index.
    fn note(&mut self, index: usize)
        ensures { reads self.new ≡ reads self.old ++ index ∷ [] };
}

/// Where a scan gets its connections and footpaths from.
///
/// It stands for a legal timetable within the limits, and keeps a log of the connections asked for,
/// which only contracts see. None of its calls takes memory.
pub trait ConnSource {
    // the timetable that it stands for
    ghost timetable: { Self → TimetableValue };

    // the indices for which `connection` was called, the oldest first
    ghost log: { Self → List ℕ };

    /// How many stops there are.
    fn stops(&self) -> u32
        ensures { result ≡ (timetable self.now).stops };

    /// How many trips there are.
    fn trips(&self) -> u32
        ensures { result ≡ (timetable self.now).trips };

    /// How many connections there are.
    fn len(&self) -> usize
        ensures { result ≡ length (timetable self.now).connections };

    /// The connection at index `i`. The index is added to the log.
    fn connection(&mut self, i: usize) -> Connection
        requires { i < length (timetable self.old).connections }
        ensures there { At (timetable self.old).connections i result }
        ensures connection { result ≡ connection_at (timetable self.old) i }
        ensures log { log self.new ≡ log self.old ++ i ∷ [] }
        ensures same { timetable self.new ≡ timetable self.old };

    /// The index of the first connection that departs at `time` or later, or the number of connections if
    /// none does.
    fn first_at(&self, time: u32) -> usize
        ensures { IsFirstAt (timetable self.now) time result };

    /// The range of indices of the footpaths into a stop: its first index, and the one after its last.
    fn walks_into(&self, stop: usize) -> (usize, usize)
        requires { stop < (timetable self.now).stops }
        ensures order { result.0 ≤ result.1 }
        ensures within { result.1 ≤ length (timetable self.now).footpaths }
        ensures exact { (k : ℕ) (f : Footpath) → At (timetable self.now).footpaths k f → (f.to ≡ stop)
            ↔ ((result.0 ≤ k) × (k < result.1)) };

    /// The footpath at index `index`. The stop that it leads into may be searched for; `footpath_into` is
    /// faster if that is known.
    fn footpath(&self, index: usize) -> Footpath
        requires { index < length (timetable self.now).footpaths }
        ensures { At (timetable self.now).footpaths index result };

    /// The footpath at index `index`, which is in the range that `walks_into` returns for `stop`. Nothing is
    /// searched.
    fn footpath_into(&self, stop: usize, index: usize) -> Footpath
        requires stop { stop < (timetable self.now).stops }
        requires index { index < length (timetable self.now).footpaths }
        requires into { (f : Footpath) → At (timetable self.now).footpaths index f → f.to ≡ stop }
        ensures { At (timetable self.now).footpaths index result };

    ghost legal: { (source : Self) → IsLegal (timetable source) };

    ghost limits: { (source : Self) → IsWithinLimits (timetable source) };
}
