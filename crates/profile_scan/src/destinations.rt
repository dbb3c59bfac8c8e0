//! Queries from every stop at once, to any of several targets.

use crate::destination::Destination;
use scan_state::SetQuery;
use std::alloc::{AllocError, Global};

/// A query from every stop to any of several targets, as the platforms of a station: journeys that depart between two
/// times and arrive by a third. Times are in seconds after the base.
#[derive(Debug, Drop)]
pub struct Destinations {
    pub targets: Vec<u32>,
    /// The earliest departure.
    pub from: u32,
    /// The latest departure.
    pub until: u32,
    /// The latest arrival.
    pub by: u32,
}

impl Destinations {
    ghost use Rattle.std.specs.Prelude.{◌≡◌, IfOk};
    ghost use Rattle.scan_state.specs.SetQuery.{question};
    ghost use Rattle.profile_scan.specs.Destinations.{question_to, question_to_any};

    // The query between no source and the targets.
    pub(crate) fn query(&self, alloc: Global) -> Result<SetQuery, AllocError>
        ensures { IfOk result (λ query. question query ≡ question_to_any self.now) }
    {
        Ok(SetQuery {
            sources: Vec::new(alloc),
            targets: self.targets.clone()?,
            from: self.from,
            until: self.until,
            by: self.by,
        })
    }

    /// The same to a single target. The only error is that memory runs out.
    pub fn one(alloc: Global, destination: &Destination) -> Result<Self, AllocError>
        ensures { IfOk result (λ destinations. question_to_any destinations ≡ question_to destination.now) }
    {
        Ok(Destinations {
            targets: vec![in alloc; destination.target]?,
            from: destination.from,
            until: destination.until,
            by: destination.by,
        })
    }
}
