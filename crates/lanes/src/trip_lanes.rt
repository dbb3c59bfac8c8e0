//! The labels of trips as lanes.

ghost use Rattle.std.specs.Prelude.{◌≡◌, min, nat_lt, slice_index};
ghost use Rattle.lanes.specs.LanesWithTags.{AreAllTagged, AreMarked};

use crate::words::{NEVER, Words, are_below, are_news, least_of, retagged};
use criteria::TimeTrips;
use fronts::{Label, copies};
use std::alloc::{AllocError, Global};

/// The lanes of a trip, each with a tag that names how one goes on.
#[derive(Clone, Copy, Drop)]
pub(crate) struct Lanes {
    pub(crate) times: [u32; 8],
    pub(crate) tags: [u32; 8],
}

/// What an offer did to the labels of a trip.
#[derive(Clone, Copy, Debug, PartialEq, Eq)]
pub enum Taken {
    /// None of the offered labels is news.
    NoNews,
    /// The labels take the offered ones in.
    Lowered,
    /// One of the offered labels has eight trips and is news: there is no lane for it, so none was taken in.
    Full,
}

/// The labels of a number of trips, in eight lanes each: values of at most seven trips, without the ride in the trip.
#[derive(Drop)]
pub struct TripLanes {
    lanes: Vec<Lanes>,
    // whether a trip has labels: a byte for each, since the lanes of a trip fill a cache line
    labelled: Vec<bool>,
    ghost tagged: { AreAllTagged lanes.items },
    ghost marked: { AreMarked lanes.items labelled.items },
}

impl TripLanes {
    ghost use Rattle.std.specs.Prelude.{◌≡◌, ◌<◌, ◌+◌, ◌≤◌, [], ℕ, Contains, IfOk, OnOk, false, true, slice_get, Some};
    ghost use Rattle.criteria.specs.Laws.{IsTime};
    ghost use Rattle.lanes.specs.Lanes.{IsBeaten, IsOutdone};
    ghost use Rattle.lanes.specs.TripLanes.{labels_at, trips_of, front_labels, offered_by, ending, IsTaken};

    /// Makes `count` trips without labels.
    pub fn new(alloc: Global, count: u32) -> Result<TripLanes, AllocError>
        ensures long { IfOk result (λ trips. trips_of trips ≡ count) }
        ensures none { IfOk result (λ trips. (trip : ℕ) → labels_at trips trip ≡ []) }
    {
        let none = Lanes {
            times: [NEVER; 8],
            tags: [0; 8],
        };
        let lanes = copies(alloc, none, count as usize)?;
        let labelled = copies(alloc, false, count as usize)?;
        Ok(TripLanes { lanes, labelled })
    }

    /// The number of trips.
    pub fn len(&self) -> usize
        ensures { result ≡ trips_of self.now }
    {
        self.lanes.len()
    }

    // The lanes of a trip.
    #[inline(always)]
    pub(crate) fn of(&self, trip: u32) -> Lanes
        requires { trip < trips_of self.now }
        ensures { slice_get self.now.lanes.items trip ≡ Some result }
    {
        self.lanes[trip as usize]
    }

    /// Whether a trip has labels.
    #[inline(always)]
    pub fn has_labels(&self, trip: u32) -> bool
        requires { trip < trips_of self.now }
        ensures { result ≡ false → labels_at self.now trip ≡ [] }
    {
        self.labelled[trip as usize]
    }

    /// Returns false only if the trip has no labels but those that the bound outdoes.
    #[inline(always)]
    pub fn may_board(&self, trip: u32, bound: &Words) -> bool
        requires { trip < trips_of self.now }
        ensures { result ≡ false → (l : _) → Contains (labels_at self.now trip) l
            → IsOutdone (front_labels bound.now) l.value }
    {
        are_below(&self.lanes[trip as usize].times, &bound.times)
    }

    /// Whether one of a trip's labels is no worse than a value of at least seven trips.
    pub fn beats(&self, trip: u32, value: &TimeTrips) -> bool
        requires trip { trip < trips_of self.now }
        requires time { IsTime value.now.time }
        ensures { result ≡ true → IsBeaten (labels_at self.now trip) value.now }
    {
        if value.trips < 7 {
            return false;
        }
        self.lanes[trip as usize].times[7] <= value.time
    }

    /// Reads a trip's labels. They take the place of what `labels` has.
    pub fn read(&self, trip: u32, labels: &mut Vec<Label<TimeTrips>>) -> Result<(), AllocError>
        requires { trip < trips_of self.now }
        ensures { OnOk result (labels.new.items ≡ labels_at self.now trip) }
    {
        labels.clear();
        let lanes = self.lanes[trip as usize];
        let mut before = NEVER;
        for k in 0..8 {
            let time = lanes.times[k];
            if time < before {
                labels.push(Label {
                    value: TimeTrips {
                        time,
                        trips: k as u16,
                    },
                    tag: lanes.tags[k],
                })?;
                before = time;
            }
        }
        Ok(())
    }

    /// A journey ends at a time. Offers its label to a trip, which is never `Full` of it. It is rare, so it is a call
    /// and never inlined.
    #[inline(never)]
    pub fn end(&mut self, trip: u32, time: u32, tag: u32) -> Taken
        requires trip { trip < trips_of self.old }
        requires time { IsTime time }
        requires tag { tag + 7 ≤ 4294967295 }
        ensures { IsTaken trip [] (ending time tag) self.old self.new result }
    {
        self.change(trip, &Words::at(time), &Words::none(), tag)
    }

    /// A passenger changes. Offers all that a front stands for to the labels of a trip, unless the bound outdoes it.
    /// The label of lane k gets the tag `first + k`.
    #[inline(always)]
    pub fn change(&mut self, trip: u32, front: &Words, bound: &Words, first: u32) -> Taken
        requires trip { trip < trips_of self.old }
        requires tags { first + 7 ≤ 4294967295 }
        ensures { IsTaken trip (front_labels bound.now) (offered_by front.now first) self.old self.new result }
    {
        let lanes = &self.lanes[trip as usize];
        let news = are_news(&lanes.times, &front.times, &bound.times);
        if lacks_lane(&lanes.times, &front.times, &bound.times) {
            return Taken::Full;
        }
        if !news {
            return Taken::NoNews;
        }
        self.lanes[trip as usize] = Lanes {
            times: least_of(&lanes.times, &front.times),
            tags: retagged(&lanes.times, &lanes.tags, &front.times, first),
        };
        self.labelled[trip as usize] = true;
        Taken::Lowered
    }
}

// Whether a front has a value of eight trips that is news.
#[inline(always)]
fn lacks_lane(times: &[u32; 8], words: &[u32; 9], bound: &[u32; 9]) -> bool
    ensures { result ≡ nat_lt (slice_index words.now 8)
        (min (slice_index words.now 7) (min (slice_index times.now 7) (slice_index bound.now 8))) }
{
    words[8] < words[7].min(times[7].min(bound[8]))
}
