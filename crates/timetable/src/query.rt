//! Queries, and the first thing that is wrong with one.

use crate::limits::TIME_END;
use reasoning::variant_name;
use thiserror::Error;

/// What a client asks for: journeys from a source to a target that depart between two times and arrive by a third.
/// Times are in seconds after the base.
#[derive(Clone, Copy, Debug, PartialEq, Eq)]
pub struct Query {
    pub source: u32,
    pub target: u32,
    /// The earliest departure.
    pub from: u32,
    /// The latest departure.
    pub until: u32,
    /// The latest arrival.
    pub by: u32,
}

/// Why a query can't be asked of a timetable.
#[derive(Clone, Copy, Debug, PartialEq, Eq, Error)]
pub enum QueryFault {
    /// The timetable doesn't have the source, or the target.
    #[error("the timetable has no such stop")]
    UnknownStop = 31,
    /// The source is the target.
    #[error("source and target are the same stop")]
    SameStop = 32,
    /// The latest departure or the latest arrival is before the earliest departure, or a time is `TIME_END` or later.
    #[error("the window ends before it begins, or a time is too late")]
    BadWindow = 33,
}

impl QueryFault {
    ghost use Rattle.std.specs.Prelude.{◌≡◌};
    ghost use Rattle.timetable.specs.Queries.{numbered_fault};

    /// The fault's number, from 31 to 33.
    pub fn number(self) -> u8
        ensures { result ≡ (numbered_fault self).0 }
    {
        self as u8
    }

    /// The fault's name, as `UnknownStop`.
    pub fn name(self) -> &'static str
        ensures { result.now ≡ (numbered_fault self).1 }
    {
        variant_name!(self, QueryFault: UnknownStop, SameStop, BadWindow)
    }
}

impl Query {
    ghost use Rattle.std.specs.Prelude.{◌↔◌, IsOk, IfErr};
    ghost use Rattle.timetable.specs.Queries.{IsAskable, IsFirstFault};

    /// Checks that the query can be asked of a timetable with this many stops. If it can't, the error is its first
    /// fault.
    pub fn check(&self, stops: u32) -> Result<(), QueryFault>
        ensures askable { IsOk result ↔ IsAskable stops self.now }
        ensures fault { IfErr result (IsFirstFault stops self.now) }
    {
        if self.source >= stops || self.target >= stops {
            return Err(QueryFault::UnknownStop);
        }
        if self.source == self.target {
            return Err(QueryFault::SameStop);
        }
        let latest = self.until.max(self.by);
        if self.from > self.until || self.from > self.by || latest >= TIME_END {
            return Err(QueryFault::BadWindow);
        }
        Ok(())
    }
}
