//! Queries by the names of their stops.

ghost use Rattle.std.specs.Prelude.{MatchResult};
ghost use Rattle.timetable.specs.Queries.{IsAskable};
ghost use Rattle.journeys.specs.Questions.{Asks, IsRefused};

use image_verifier::Verified;
use timetable::{Query, QueryFault};

/// The times of a query, in seconds after the base.
#[derive(Clone, Copy, Debug, PartialEq, Eq)]
pub struct Window {
    /// The earliest departure.
    pub from: u32,
    /// The latest departure.
    pub until: u32,
    /// The latest arrival.
    pub by: u32,
}

/// Returns the query for journeys of an image from the stop named `from` to that named `to`. If stops share a
/// name, the least of them is meant. Names are compared byte by byte.
///
/// The error is `UnknownStop` if no stop has one of the names, or else the first fault of the query.
pub fn query_of(
    image: &Verified,
    from: &[u8],
    to: &[u8],
    window: Window,
) -> Result<Query, QueryFault>
    ensures { MatchResult result
        (λ query. IsAskable image.now.timetable.stops query × Asks image.now.names from.now to.now window query)
        (IsRefused image.now from.now to.now window) }
{
    let Some(source) = image.find(from) else {
        return Err(QueryFault::UnknownStop);
    };
    let Some(target) = image.find(to) else {
        return Err(QueryFault::UnknownStop);
    };
    let query = Query {
        source,
        target,
        from: window.from,
        until: window.until,
        by: window.by,
    };
    match query.check(image.stops()) {
        Ok(()) => Ok(query),
        Err(fault) => Err(fault),
    }
}
