//! The footpaths that a feed lists, without a limit.

ghost use Rattle.std.specs.Prelude.{◌≡◌, IfOk, IfErr};
ghost use Rattle.transfers.specs.Listed.{AreAllListed};
ghost use Rattle.footpaths.specs.declared.fault.FootFault.TheVariants.{OutOfMemory};

use crate::fault::FootFault;
use gtfs_tables::Feed;
use std::alloc::Global;
use timetable::Footpath;
use transfers::listed_within;

/// Returns all footpaths that a feed lists, as [`listed_within`] does, without a limit.
///
/// # Errors
///
/// Only `OutOfMemory`.
pub fn listed(alloc: Global, feed: &Feed) -> Result<Vec<Footpath>, FootFault>
    ensures all { IfOk result (λ v. AreAllListed feed.now v.items) }
    ensures err { IfErr result (λ fault. fault ≡ OutOfMemory) }
{
    match listed_within(alloc, feed, usize::MAX) {
        Ok(paths) => Ok(paths),
        Err(_) => Err(FootFault::OutOfMemory),
    }
}
