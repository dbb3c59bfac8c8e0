//! The answers from all stops to one target, by one scan.

ghost use Rattle.std.specs.Prelude.{◌≡◌, ◌++◌, ℕ, IfOk, OnOk, OnErr, reverse, take};
ghost use Rattle.profile_scan.specs.Destinations.{CanBeAsked, query_from};
ghost use Rattle.profile_scan.specs.Window.{window};
ghost use Rattle.profile_scan.specs.Everywhere.{AnswerAll, criterion_of_profiles, destination_of};

use crate::destination::Destination;
use crate::destinations::Destinations;
use crate::found::Found;
use crate::found_between::secs_of;
use crate::scanned::Scanned;
use crate::to_any::{ProfilesToAny, profiles_to_any};
use bags::Point;
use sources::ConnSource;
use std::alloc::{AllocError, Global};

/// The answers from every stop, for one target, window and criterion. The scan's records of how journeys go are kept
/// as they are; `found_from` spells those from one stop.
#[derive(Drop)]
pub struct Profiles<C: Scanned> {
    destination: Destination,
    // the same as answers to any of several targets, of which there is one
    to_any: ProfilesToAny<C>,
}

impl<C: Scanned> Profiles<C> {
    ghost use Rattle.std.specs.Prelude.{◌≢◌, ◌<◌, length};
    ghost use Rattle.scan_state.specs.ScanState.{final_walks_of};
    ghost use Rattle.profile_scan.specs.Found.{Answers};
    ghost use Rattle.profile_scan.specs.Everywhere.{listed_from, stops_of, walk_from};

    /// What was asked from every stop.
    pub fn destination(&self) -> Destination
        ensures { result ≡ destination_of self.now }
    {
        self.destination
    }

    /// The best departures from a stop, by departure, then by the criterion's order; from the target itself those of
    /// journeys that come back to it. Only `found_from` can read their tags.
    pub fn points(&self, stop: u32) -> &[Point<C::V>]
        requires { stop < stops_of self.now }
        ensures { result.now ≡ listed_from self.now stop }
    {
        self.to_any.points(stop)
    }

    /// The seconds of the footpath from a stop to the target, if there is one; of the target itself those of its loop.
    pub fn direct_walk(&self, stop: u32) -> Option<u32>
        requires { stop < length (final_walks_of self.now.to_any.asked.final_walks) }
        ensures { result ≡ walk_from self.now stop }
    {
        let walk = self.to_any.direct_walk(stop);
        secs_of(walk)
    }

    /// Returns the answer of the query from one stop, which isn't the target, with its journeys. `source` has to read
    /// the timetable that was scanned. The only error is that memory runs out.
    pub fn found_from<S: ConnSource>(
        &self,
        alloc: Global,
        source: &S,
        stop: u32,
    ) -> Result<Found<C>, AllocError>
        requires stop { stop < (S.timetable source.now).stops }
        requires differ { stop ≢ (destination_of self.now).target }
        requires answered { AnswerAll C.rules C.Kept.value (S.timetable source.now) self.now }
        ensures { IfOk result (λ found. Answers (criterion_of_profiles self.now)
            (C.rules (criterion_of_profiles self.now)) (S.timetable source.now)
            (query_from (destination_of self.now) stop) found) }
    {
        let found = self.to_any.found_from(alloc, source, stop)?;
        let query = self.destination.query_from(stop);
        Ok(found.of_one(&query))
    }
}

/// Answers a query from every stop, the target included, by one scan: for each, of the points of all journeys from
/// there that count, exactly those that no other dominates, in order. From the target, where no query can be asked,
/// these are the journeys that come back to it; a caller that wants only what can be asked leaves the target out.
///
/// Each connection of the window is asked for once for all stops, from the last to the first. The only error is that
/// memory runs out, or that a number would need more than 32 bits; then a first part of them, or all, was asked for.
pub fn profiles_to<S: ConnSource, C: Scanned>(
    alloc: Global,
    source: &mut S,
    criterion: &C,
    destination: &Destination,
) -> Result<Profiles<C>, AllocError>
    requires { CanBeAsked (S.timetable source.old).stops destination.now }
    ensures timetable { S.timetable source.new ≡ S.timetable source.old }
    ensures answers { IfOk result (λ profiles. AnswerAll C.rules C.Kept.value (S.timetable source.old) profiles) }
    ensures keeps { IfOk result (λ profiles. (criterion_of_profiles profiles ≡ criterion.now)
        × (destination_of profiles ≡ destination.now)) }
    ensures log { OnOk result (S.log source.new ≡ S.log source.old
        ++ reverse (window (S.timetable source.old) (query_from destination.now destination.now.target))) }
    ensures err { OnErr result ((n : ℕ) × (S.log source.new ≡ S.log source.old
        ++ take n (reverse (window (S.timetable source.old) (query_from destination.now destination.now.target))))) }
{
    let destinations = Destinations::one(alloc, destination)?;
    let to_any = profiles_to_any(alloc, source, criterion, &destinations)?;
    Ok(Profiles {
        destination: *destination,
        to_any,
    })
}
