//! The footpath from each stop to a query's nearest target.

ghost use Rattle.std.specs.Prelude.{◌≡◌, map};
ghost use Rattle.scan_state.specs.FinalWalkEntries.{is_walk};

use crate::final_walks::FinalWalk;

/// For each stop the footpath from there to the nearest target, if there is one; for a target this is its loop. Each
/// stop has an entry, also if no footpath leads from there to a target: so a scan, which looks one up at each
/// connection, finds it by the stop's number.
#[derive(Drop)]
pub struct FinalWalks {
    // a stop without such a footpath has an entry with more seconds than a footpath can take
    pub entries: Vec<FinalWalk>,
    // whether a stop has one: a byte for each, since a scan looks here at each connection and most have none
    pub ends: Vec<bool>,
    pub ghost noted: { ends.items ≡ map is_walk entries.items },
}
