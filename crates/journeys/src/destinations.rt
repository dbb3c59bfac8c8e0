//! Queries from every stop, by the name of the target.

ghost use Rattle.std.specs.Prelude.{MatchResult};
ghost use Rattle.profile_scan.specs.Destinations.{CanBeAsked};
ghost use Rattle.journeys.specs.Questions.{AsksAll, IsRefusedOfAll};

use crate::question::Window;
use image_verifier::Verified;
use profile_scan::Destination;
use timetable::QueryFault;

/// Returns the destination of journeys from every stop of an image to the stop so named. If stops share the name,
/// the least of them is meant. Names are compared byte by byte.
///
/// The error is `UnknownStop` if no stop has the name, or else `BadWindow`.
pub fn destination_named(
    image: &Verified,
    to: &[u8],
    window: Window,
) -> Result<Destination, QueryFault>
    ensures { MatchResult result
        (λ d. CanBeAsked image.now.timetable.stops d × AsksAll image.now.names to.now window d)
        (IsRefusedOfAll image.now to.now window) }
{
    let Some(target) = image.find(to) else {
        return Err(QueryFault::UnknownStop);
    };
    let destination = Destination {
        target,
        from: window.from,
        until: window.until,
        by: window.by,
    };
    match destination.check(image.stops()) {
        Ok(()) => Ok(destination),
        Err(fault) => Err(fault),
    }
}
