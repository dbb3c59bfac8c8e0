//! Queries between sets of stops.

use std::alloc::{AllocError, Global};
use timetable::Query;

/// A query between two sets of stops, such as the platforms of two stations: journeys from any of the sources to any of
/// the targets that depart between two times and arrive by a third. Times are in seconds after the base.
#[derive(Debug, Drop)]
pub struct SetQuery {
    pub sources: Vec<u32>,
    pub targets: Vec<u32>,
    /// The earliest departure.
    pub from: u32,
    /// The latest departure.
    pub until: u32,
    /// The latest arrival.
    pub by: u32,
}

impl SetQuery {
    ghost use Rattle.std.specs.Prelude.{◌≡◌, IfOk};
    ghost use Rattle.scan_state.specs.SetQuery.{single_set_query, question};
    ghost use Rattle.scan_state.specs.Origins.{from_stop};

    // A copy of the query.
    pub fn copy(&self) -> Result<Self, AllocError>
        ensures { IfOk result (λ copy. question copy ≡ question self.now) }
    {
        Ok(SetQuery {
            sources: self.sources.clone()?,
            targets: self.targets.clone()?,
            from: self.from,
            until: self.until,
            by: self.by,
        })
    }

    // The same query from one stop alone.
    pub fn from_stop(&self, alloc: Global, stop: u32) -> Result<Self, AllocError>
        ensures { IfOk result (λ query. question query ≡ from_stop (question self.now) stop) }
    {
        Ok(SetQuery {
            sources: vec![in alloc; stop]?,
            targets: self.targets.clone()?,
            from: self.from,
            until: self.until,
            by: self.by,
        })
    }

    /// The query between one source and one target. The only error is that memory runs out.
    pub fn one(alloc: Global, query: &Query) -> Result<Self, AllocError>
        ensures { IfOk result (λ between. question between ≡ single_set_query query.now) }
    {
        Ok(SetQuery {
            sources: vec![in alloc; query.source]?,
            targets: vec![in alloc; query.target]?,
            from: query.from,
            until: query.until,
            by: query.by,
        })
    }
}
