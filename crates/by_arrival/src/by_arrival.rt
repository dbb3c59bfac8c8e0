//! Trips and stops kept by arrival alone.

ghost use Rattle.std.specs.Prelude.{◌≡◌, ◌≤◌, ◌⊎◌, ℕ, Contains, if◌then◌else◌, nat_lt};

use arrival_lists::{ArrivalLists, FirstPoint, NEVER};
use criteria::Arrival;
use fronts::{Label, RiddenLabel, Step, append, index_of};
use scan_state::{Exit, Hop, ScanQuery, end_of};
use sources::ConnSource;
use std::alloc::AllocError;
use std::ops::Range;
use timetable::Footpath;

/// The label of each trip, and of each stop's list the first point.
#[derive(Drop)]
pub struct ByArrival {
    // a trip without a label has one of time `NEVER`
    pub labels: Vec<Label<u32>>,
    // a label's tag is the index of its exit
    pub exits: Vec<Exit>,
    pub firsts: Vec<FirstPoint>,
    pub lists: ArrivalLists,
    // the least value of the bound, or `NEVER`
    pub bound: u32,
}

impl ByArrival {
    ghost use Rattle.std.specs.Prelude.{◌<◌, ◌∷◌, [], OnOk, slice_get, Some};
    ghost use Rattle.criteria.specs.Laws.{IsTime};
    ghost use Rattle.scan_state.specs.SetQuery.{question};
    ghost use Rattle.scan_state.specs.Bound.{Excludes};
    ghost use Rattle.scan_state.specs.ScanRecords.{IsExit};
    ghost use Rattle.scan_state.specs.ScanState.{final_walk_in};
    ghost use Rattle.scan_state.specs.Adding.{AreWalksInto, StandsBetween, boardings_by, changes_from, each_of};
    ghost use Rattle.scan_state.specs.Adding.{endings, one_way};
    ghost use Rattle.scan_state.specs.Steps.{boardings};
    ghost use Rattle.by_arrival.specs.ByArrival.{AreByArrival, BoardsByArrival, CanBoardAfterByArrival};
    ghost use Rattle.by_arrival.specs.ByArrival.{CanBoardByArrival, CanBoardEachByArrival, CanLeaveByArrival};
    ghost use Rattle.by_arrival.specs.ByArrival.{CanRenewByArrival, RelabelsByArrival, RenewsByArrival, arrival_rules};
    ghost use Rattle.by_arrival.specs.ByArrival.{ridden_point, stops_of, trips_of, value_by_arrival};

    /// Makes the bound of the hop's values, if these may have changed.
    #[inline(always)]
    pub fn renew(&mut self, hop: &Hop<u32>)
        requires { CanRenewByArrival hop.now.bound.now self.old }
        ensures { RenewsByArrival hop.now.bound.now self.old self.new }
    {
        if hop.renewed {
            self.bound = least_of(hop.bound);
        }
    }

    // Offers a label to a trip. It takes the place of the label that the trip has, if that is later.
    #[inline(always)]
    fn offer(&mut self, trip: u32, time: u32, exit: Exit) -> Result<(), AllocError>
        requires are { AreByArrival self.old }
        requires trip { trip < trips_of self.old }
        requires time { IsTime time }
        ensures { OnOk result
            (RelabelsByArrival trip (λ _. ⊥) (λ tags. one_way 0 time (IsExit tags exit)) self.old self.new) }
    {
        if time >= self.labels[trip as usize].value {
            return Ok(());
        }
        let tag = index_of(self.exits.len())?;
        append(&mut self.exits, exit)?;
        self.labels[trip as usize] = Label { value: time, tag };
        Ok(())
    }

    // Does what `offer` does. Few journeys end.
    #[inline(never)]
    fn offer_end(&mut self, trip: u32, time: u32, exit: Exit) -> Result<(), AllocError>
        requires are { AreByArrival self.old }
        requires trip { trip < trips_of self.old }
        requires time { IsTime time }
        ensures { OnOk result
            (RelabelsByArrival trip (λ _. ⊥) (λ tags. one_way 0 time (IsExit tags exit)) self.old self.new) }
    {
        self.offer(trip, time, exit)
    }

    /// Offers to the hop's trip a label for a journey that ends here, if a passenger who gets off reaches a target by
    /// `query.by`.
    #[inline(always)]
    pub fn end(&mut self, asked: &ScanQuery<Arrival>, hop: &Hop<u32>) -> Result<(), AllocError>
        requires { CanLeaveByArrival (question asked.now.query) hop.now self.old }
        ensures { OnOk result (RelabelsByArrival hop.now.connection.trip (λ _. ⊥)
            (λ tags. endings arrival_rules tags hop.now.place hop.now.connection (question asked.now.query)
            (final_walk_in hop.now.final_entry)) self.old self.new) }
    {
        match end_of(&hop.connection, &asked.query, hop.final_entry) {
            None => Ok(()),
            Some(end) => {
                let exit = Exit::Ends {
                    last: hop.place,
                    walk: end.walk,
                };
                self.offer_end(hop.connection.trip, end.time, exit)
            },
        }
    }

    /// Offers to the hop's trip the best point of the stop where it ends that departs at the arrival or later, unless
    /// the bound excludes it. A first point that isn't news shows that no point of the stop is.
    #[inline(always)]
    pub fn change(&mut self, hop: &Hop<u32>) -> Result<(), AllocError>
        requires { (q : _) × CanLeaveByArrival q hop.now self.old }
        ensures { OnOk result (RelabelsByArrival hop.now.connection.trip
            (λ p. Excludes arrival_rules hop.now.bound.now p.value)
            (λ tags. changes_from tags hop.now.place hop.now.connection.arr
            ((value_by_arrival self.old).bag hop.now.connection.to)) self.old self.new) }
    {
        let first = self.firsts[hop.connection.to as usize];
        let label = self.labels[hop.connection.trip as usize];
        if first.time >= label.value.min(self.bound) {
            return Ok(());
        }
        let best = self.lists.best_from(first, hop.connection.arr);
        if best.time >= self.bound {
            return Ok(());
        }
        let exit = Exit::Changes {
            last: hop.place,
            step: best.tag as usize,
        };
        self.offer(hop.connection.trip, best.time, exit)
    }

    // Offers the point of taking a footpath and then boarding to the stop where the footpath begins.
    #[inline(always)]
    fn board_walk(
        &mut self,
        hop: &Hop<u32>,
        walk_index: usize,
        walk: Footpath,
        ride: RiddenLabel<u32>,
    ) -> Result<(), AllocError>
        requires { CanBoardAfterByArrival walk ride self.old }
        ensures { OnOk result (BoardsByArrival (λ walks. slice_get walks walk_index ≡ Some walk) (λ _. ⊥)
            (λ stop tags. boardings_by arrival_rules tags hop.now.place hop.now.connection stop
            (ridden_point ride ∷ []) walk) self.old self.new) }
    {
        let dep = hop.connection.dep;
        if walk.secs > dep {
            return Ok(());
        }
        let departure = dep - walk.secs;
        let first = self.firsts[walk.from as usize];
        let covered = departure <= first.departure && first.time <= ride.value;
        if covered {
            return Ok(());
        }
        let number = index_of(walk_index)?;
        let step = Step {
            first: hop.place,
            label: ride.label,
            walk: number,
        };
        self.firsts[walk.from as usize] = self.lists.insert(first, departure, ride.value, step)?;
        Ok(())
    }

    // Goes over the footpaths at the indices `walks`, which lead to the stop where the hop's connection begins, and
    // boards after each.
    #[inline(always)]
    fn board_walks<S: ConnSource>(
        &mut self,
        source: &S,
        hop: &Hop<u32>,
        walks: Range<usize>,
        ride: RiddenLabel<u32>,
    ) -> Result<(), AllocError>
        requires { CanBoardEachByArrival (S.timetable source.now) walks.start walks.end hop.now ride self.old }
        ensures { OnOk result (BoardsByArrival (λ walks. walks ≡ (S.timetable source.now).footpaths) (λ _. ⊥)
            (λ stop tags. each_of (StandsBetween (S.timetable source.now).footpaths walks.start walks.end)
            (boardings_by arrival_rules tags hop.now.place hop.now.connection stop (ridden_point ride ∷ [])))
            self.old self.new) }
    {
        for walk_index in walks.start..walks.end {
            let walk = source.footpath_into(hop.connection.from as usize, walk_index);
            self.board_walk(hop, walk_index, walk, ride)?;
        }
        Ok(())
    }

    /// Boards the hop's connection, if passengers may get on there: offers to each stop with a footpath there the point
    /// of boarding with the trip's label, unless the bound excludes it.
    #[inline(always)]
    pub fn board<S: ConnSource>(&mut self, source: &S, hop: &Hop<u32>) -> Result<(), AllocError>
        requires { CanBoardByArrival (S.timetable source.now) hop.now self.old }
        ensures { OnOk result (BoardsByArrival (λ walks. walks ≡ (S.timetable source.now).footpaths)
            (λ way. Excludes arrival_rules hop.now.bound.now way.label.value)
            (λ stop tags. boardings arrival_rules (S.timetable source.now) tags hop.now.place stop
            ((value_by_arrival self.old).labels hop.now.connection.trip)) self.old self.new) }
    {
        if !hop.connection.board {
            return Ok(());
        }
        let label = self.labels[hop.connection.trip as usize];
        if label.value >= self.bound {
            return Ok(());
        }
        let ride = RiddenLabel {
            value: label.value,
            label: label.tag,
        };
        let (begin, end) = source.walks_into(hop.connection.from as usize);
        self.board_walks(source, hop, begin..end, ride)
    }
}

/// A point's time, or `NEVER` if a bound excludes it.
#[inline(always)]
pub fn unless_excluded(point: FirstPoint, bound: u32) -> u32
    ensures { result ≡ if nat_lt point.time bound then point.time else 4294967295 }
{
    if point.time < bound {
        return point.time;
    }
    NEVER
}

// The least of some values, or `NEVER` if there is none.
fn least_of(values: &[u32]) -> u32
    ensures one { (result ≡ 4294967295) ⊎ Contains values.now result }
    ensures least { (v : ℕ) → Contains values.now v → result ≤ v }
{
    let mut least = NEVER;
    for k in 0..values.len() {
        least = least.min(values[k]);
    }
    least
}
