//! The closed footpaths of a feed.

ghost use Rattle.std.specs.Prelude.{◌≡◌, ◌≤◌, ◌⊎◌, length, All, IfOk, IfErr};
ghost use Rattle.timetable.specs.declared.limits.TheConstants.{MAX_FOOTPATHS, MAX_WALK_SECS};
ghost use Rattle.footpaths.specs.Closure.{HasLegalFootpaths};
ghost use Rattle.feed_loader.specs.Loaded.{AreFeedPaths, IsFeedClosure};
ghost use Rattle.feed_loader.specs.Refused.{IsTooLarge};

use footpaths::{FootFault, close};
use gtfs_tables::Feed;
use std::alloc::Global;
use timetable::Footpath;
use timetable::limits::MAX_FOOTPATHS;
use transfers::{ListingFault, listed_within};

/// Returns the closure of the footpaths that a feed lists. The closure joins each pair of stops that a listed footpath
/// joins, so if too many are listed, listing stops and nothing is closed. `TooManyFootpaths` or `WalkTooLong` if the
/// closure is too large; memory may run out.
pub fn closed_footpaths(alloc: Global, feed: &Feed, stops: u32) -> Result<Vec<Footpath>, FootFault>
    requires { stops ≡ length feed.now.stops.items }
    ensures closure { IfOk result (λ v. IsFeedClosure feed.now v.items) }
    ensures legal { IfOk result (λ v. HasLegalFootpaths stops v.items) }
    ensures few { IfOk result (λ v. length v.items ≤ MAX_FOOTPATHS) }
    ensures short { IfOk result (λ v. All (λ f. f.secs ≤ MAX_WALK_SECS) v.items) }
    ensures fault { IfErr result (λ fault. (fault ≡ FootFault.OutOfMemory)
        ⊎ ((paths : _) × AreFeedPaths feed.now paths × IsTooLarge paths fault)) }
{
    match listed_within(alloc, feed, MAX_FOOTPATHS as usize) {
        Ok(listed) => close(alloc, stops, &listed),
        Err(ListingFault::TooMany) => Err(FootFault::TooManyFootpaths),
        Err(ListingFault::OutOfMemory) => Err(FootFault::OutOfMemory),
    }
}
