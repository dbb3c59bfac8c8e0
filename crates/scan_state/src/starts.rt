//! Where one may set out: at a query's sources, and after a footpath from one.

ghost use Rattle.std.specs.Prelude.{◌≡◌, ◌<◌, ℕ, IfOk, MatchBool, Some, Contains, length, slice_get};
ghost use Rattle.scan_state.specs.Starts.{AreMarked, AreStarts, IsFromMarked, IsLedBy};

use fronts::copies;
use sources::ConnSource;
use std::alloc::{AllocError, Global};
use timetable::Footpath;

/// Whether a journey may set out for the connections that begin at a stop.
#[derive(Clone, Copy, Drop)]
pub struct StopAccess {
    /// whether the stop is a source
    pub here: bool,
    /// whether a footpath that isn't a loop leads there from a source
    pub led: bool,
}

/// For each stop whether it is a source, or one footpath from one: so whether a journey may set out for the connections
/// that begin there. Most stops are neither, and their footpaths are skipped.
#[derive(Drop)]
pub struct Starts {
    leads: Vec<StopAccess>,
}

impl Starts {
    /// Whether a journey may set out for the connections that begin at a stop.
    pub fn access_to(&self, stop: u32) -> StopAccess
        requires { stop < length self.now.leads.items }
        ensures { slice_get self.now.leads.items stop ≡ Some result }
    {
        self.leads[stop as usize]
    }
}

// Whether each of `stops` stops is a source.
fn marks(alloc: Global, sources: &[u32], stops: usize) -> Result<Vec<bool>, AllocError>
    requires { (stop : ℕ) → Contains sources.now stop → stop < stops }
    ensures { IfOk result (λ marked. AreMarked sources.now (length sources.now) stops marked.items) }
{
    let mut marked = copies(alloc, false, stops)?;
    for k in 0..sources.len() {
        let stop = sources[k];
        marked[stop as usize] = true;
    }
    Ok(marked)
}

// Whether a footpath begins at a marked stop and isn't a loop.
fn is_start(marked: &[bool], walk: &Footpath) -> bool
    requires { walk.now.from < length marked.now }
    ensures { MatchBool result (IsFromMarked marked.now walk.now) (IsFromMarked marked.now walk.now → ⊥) }
{
    walk.to != walk.from && marked[walk.from as usize]
}

// Whether a footpath that isn't a loop leads from a marked stop to a stop.
fn is_led<S: ConnSource>(source: &S, marked: &[bool], stop: u32) -> bool
    requires stop { stop < (S.timetable source.now).stops }
    requires long { length marked.now ≡ (S.timetable source.now).stops }
    ensures { MatchBool result (IsLedBy (S.timetable source.now) marked.now stop)
        (IsLedBy (S.timetable source.now) marked.now stop → ⊥) }
{
    let (begin, end) = source.walks_into(stop as usize);
    for walk_index in begin..end {
        let walk = source.footpath_into(stop as usize, walk_index);
        if is_start(marked, &walk) {
            return true;
        }
    }
    false
}

/// Finds for each stop whether a journey may set out from the sources for the connections that begin there.
pub fn starts_from<S: ConnSource>(
    alloc: Global,
    source: &S,
    sources: &[u32],
) -> Result<Starts, AllocError>
    requires { (stop : ℕ) → Contains sources.now stop → stop < (S.timetable source.now).stops }
    ensures { IfOk result (λ starts. AreStarts (S.timetable source.now) sources.now starts) }
{
    let marked = marks(alloc, sources, source.stops() as usize)?;
    let mut leads = Vec::new(alloc);
    for stop in 0..source.stops() {
        let lead = StopAccess {
            here: marked[stop as usize],
            led: is_led(source, &marked, stop),
        };
        leads.push(lead)?;
    }
    Ok(Starts { leads })
}
