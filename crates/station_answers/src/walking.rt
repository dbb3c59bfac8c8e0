//! The direct walk between several stops.

ghost use Rattle.std.specs.Prelude.{◌≡◌, ◌<◌, ◌+◌, ℕ, Contains, length};
ghost use Rattle.scan_state.specs.SetQuery.{IsAskableBetween, IsDirectWalk, question};
ghost use Rattle.station_answers.specs.Walks.{IsFootpathBetween, IsLeastBefore, shorter_of};
ghost use Rattle.station_answers.specs.Walks.{shorter_than};

use profile_scan::{ConnSource, SetQuery};
use timetable::Footpath;

/// The shortest footpath from one of the sources to one of the targets, if there is any. Of equally short ones it is
/// the first, by the order of the sources and then of the targets.
pub fn direct_walk<S: ConnSource>(source: &S, query: &SetQuery) -> Option<Footpath>
    requires { IsAskableBetween (S.timetable source.now).stops (question query.now) }
    ensures { IsDirectWalk (S.timetable source.now) (question query.now) result }
{
    let mut best = None;
    for index in 0..query.sources.len() {
        let next = shorter_from(source, query, index, best);
        best = next;
    }
    best
}

// The direct walk among those from the sources up to the one at an index, if `before` is that among those before it.
fn shorter_from<S: ConnSource>(
    source: &S,
    query: &SetQuery,
    index: usize,
    before: Option<Footpath>,
) -> Option<Footpath>
    requires askable { IsAskableBetween (S.timetable source.now).stops (question query.now) }
    requires index { index < length (question query.now).sources }
    requires before { IsLeastBefore (S.timetable source.now) (question query.now) index 0 before }
    ensures { IsLeastBefore (S.timetable source.now) (question query.now) (index + 1) 0 result }
{
    let mut best = before;
    for other in 0..query.targets.len() {
        let from = query.sources[index];
        let to = query.targets[other];
        let footpath = footpath_between(source, from, to);
        let next = shorter_of(best, footpath);
        best = next;
    }
    best
}

// The second footpath if it is shorter, or the only one; else the first.
fn shorter_of(best: Option<Footpath>, footpath: Option<Footpath>) -> Option<Footpath>
    ensures { result ≡ shorter_of best footpath }
{
    match footpath {
        None => best,
        Some(footpath) => shorter_than(best, footpath),
    }
}

// The footpath if it is shorter than the best one, or the only one; else the best one.
fn shorter_than(best: Option<Footpath>, footpath: Footpath) -> Option<Footpath>
    ensures { result ≡ shorter_than best footpath }
{
    match best {
        None => Some(footpath),
        Some(shortest) => {
            if footpath.secs < shortest.secs {
                Some(footpath)
            } else {
                Some(shortest)
            }
        }
    }
}

// The footpath from one stop to another, if there is one.
fn footpath_between<S: ConnSource>(source: &S, from: u32, to: u32) -> Option<Footpath>
    requires { to < (S.timetable source.now).stops }
    ensures { IsFootpathBetween (S.timetable source.now) from to result }
{
    let (start, end) = source.walks_into(to as usize);
    for index in start..end {
        let footpath = source.footpath_into(to as usize, index);
        if footpath.from == from {
            return Some(footpath);
        }
    }
    None
}
