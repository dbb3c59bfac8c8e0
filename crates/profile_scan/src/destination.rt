//! Queries from every stop at once, to one target.

use timetable::limits::TIME_END;
use timetable::{Query, QueryFault};

/// What is asked from every stop: journeys to one target that depart between two times and arrive by a third. Times
/// are in seconds after the base.
#[derive(Clone, Copy, Debug, PartialEq, Eq)]
pub struct Destination {
    pub target: u32,
    /// The earliest departure.
    pub from: u32,
    /// The latest departure.
    pub until: u32,
    /// The latest arrival.
    pub by: u32,
}

impl Destination {
    ghost use Rattle.std.specs.Prelude.{◌≡◌, ◌↔◌, IsOk, IfErr};
    ghost use Rattle.profile_scan.specs.Destinations.{CanBeAsked, IsDestinationFault, query_from};

    /// The query from a stop.
    pub fn query_from(&self, source: u32) -> Query
        ensures { result ≡ query_from self.now source }
    {
        Query {
            source,
            target: self.target,
            from: self.from,
            until: self.until,
            by: self.by,
        }
    }

    /// Checks that the queries from all other stops of a timetable with this many stops can be asked. If not, the
    /// error is the first fault: `UnknownStop` if there is no such target, `BadWindow` if the times can't be.
    pub fn check(&self, stops: u32) -> Result<(), QueryFault>
        ensures askable { IsOk result ↔ CanBeAsked stops self.now }
        ensures fault { IfErr result (IsDestinationFault stops self.now) }
    {
        if self.target >= stops {
            return Err(QueryFault::UnknownStop);
        }
        let latest = self.until.max(self.by);
        if self.from > self.until || self.from > self.by || latest >= TIME_END {
            return Err(QueryFault::BadWindow);
        }
        Ok(())
    }
}
