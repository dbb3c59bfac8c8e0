//! Questions by the names of their stops.

ghost use Rattle.std.specs.Prelude.{IfOk, MatchOption, MatchResult, map};
ghost use Rattle.std.specs.List.{AllZip};
ghost use Rattle.journeys.specs.Questions.{IsNamed};
ghost use Rattle.scan_state.specs.SetQuery.{IsAskableBetween, question};
ghost use Rattle.station_answers.specs.Naming.{AsksBetween, IsNoQuestion, SomeUnknown};

use crate::query::check_between;
use image_verifier::Verified;
use journeys::Window;
use profile_scan::SetQuery;
use std::alloc::{AllocError, Global};
use timetable::QueryFault;

/// Why there is no question between stops.
#[derive(Clone, Copy, Debug, Drop, PartialEq, Eq)]
pub enum NoQuestion {
    /// A name is that of no stop, or else the question has this fault.
    Bad(QueryFault),
    /// Memory ran out.
    OutOfMemory,
}

/// Returns the question between the stops of an image that have some names and those that have others. If stops share a
/// name, the least of them is meant. Names are compared byte by byte.
///
/// The error is `UnknownStop` if a name is that of no stop, or else the first fault of the question.
pub fn question_between(
    alloc: Global,
    image: &Verified,
    from: &[&str],
    to: &[&str],
    window: Window,
) -> Result<SetQuery, NoQuestion>
    ensures { MatchResult result
        (λ query. IsAskableBetween image.now.timetable.stops (question query)
        × AsksBetween image.now.names (map (λ name. name.now) from.now) (map (λ name. name.now) to.now) window
        (question query))
        (IsNoQuestion image.now (map (λ name. name.now) from.now) (map (λ name. name.now) to.now) window) }
{
    let sources = match stops_named(alloc, image, from) {
        Ok(Some(stops)) => stops,
        Ok(None) => return Err(NoQuestion::Bad(QueryFault::UnknownStop)),
        Err(AllocError) => return Err(NoQuestion::OutOfMemory),
    };
    let targets = match stops_named(alloc, image, to) {
        Ok(Some(stops)) => stops,
        Ok(None) => return Err(NoQuestion::Bad(QueryFault::UnknownStop)),
        Err(AllocError) => return Err(NoQuestion::OutOfMemory),
    };
    let query = SetQuery {
        sources,
        targets,
        from: window.from,
        until: window.until,
        by: window.by,
    };
    match check_between(&query, image.stops()) {
        Ok(()) => Ok(query),
        Err(fault) => Err(NoQuestion::Bad(fault)),
    }
}

// The stops of these names, in order, if each is that of a stop.
fn stops_named(
    alloc: Global,
    image: &Verified,
    names: &[&str],
) -> Result<Option<Vec<u32>>, AllocError>
    ensures { IfOk result (λ stops. MatchOption stops
        (SomeUnknown image.now.names (map (λ name. name.now) names.now))
        (λ stops. AllZip (IsNamed image.now.names) (map (λ name. name.now) names.now) stops.items)) }
{
    let mut stops = Vec::with_capacity(alloc, names.len())?;
    for name in names {
        match image.find(name.as_bytes()) {
            None => return Ok(None),
            Some(stop) => stops.push(stop)?,
        }
    }
    Ok(Some(stops))
}
