//! The steps of the loader, each one atomic operation on a word and one event.
ghost use Rattle.std.specs.Prelude.{◌≡◌, ◌<◌, ◌≤◌};
ghost use Rattle.version_core.specs.State.{most_versions};
ghost use Rattle.shelf_steps.specs.Plays.{OpensOn, PublishesOn, ClosesOn, CollectsOn, GathersOn, PutsBackOn};
ghost use Rattle.shelf_steps.specs.Plays.{MayOpenOn, MayPublish, MayCloseShelf, MayCollect, MayGather, MayPutBack};

use crate::rule::{Closing, Collecting, Gathering, Opening, Publishing, PuttingBack};
use crate::table_seats::{ShelfTable, TableSeat};

/// Opens a free shelf with the next version, and puts its filled slots back.
pub fn open(shelves: &ShelfTable, loader: &mut TableSeat, shelf: usize, version: u64)
    requires table { loader.old.table ≡ shelves.now }
    requires numbers { (shelf < 8) × (version ≤ most_versions) }
    requires ready { MayOpenOn shelf version loader.old.me.0 loader.old.me.1 }
    ensures table { loader.new.table ≡ loader.old.table }
    ensures open { OpensOn shelf loader.old.me loader.new.me }
{
    shelves
        .table
        .shared
        .fetch_add::<Opening>(&mut loader.seat, shelf + 1, 256 + 65536 * version);
}

/// Makes the version, which is open on this shelf, the current one.
pub fn publish(shelves: &ShelfTable, loader: &mut TableSeat, version: u64, shelf: usize)
    requires table { loader.old.table ≡ shelves.now }
    requires numbers { (shelf < 8) × (version ≤ most_versions) }
    requires ready { MayPublish version shelf loader.old.me.0 }
    ensures table { loader.new.table ≡ loader.old.table }
    ensures publish { PublishesOn version shelf loader.old.me loader.new.me }
{
    shelves
        .table
        .shared
        .store::<Publishing>(&mut loader.seat, 0, 8 * version + shelf as u64);
}

/// Closes a shelf whose version is no longer current.
pub fn close(shelves: &ShelfTable, loader: &mut TableSeat, shelf: usize)
    requires table { loader.old.table ≡ shelves.now }
    requires numbers { shelf < 8 }
    requires ready { MayCloseShelf shelf loader.old.me.0 }
    ensures table { loader.new.table ≡ loader.old.table }
    ensures close { ClosesOn shelf loader.old.me loader.new.me }
{
    shelves
        .table
        .shared
        .fetch_add::<Closing>(&mut loader.seat, shelf + 1, 256);
}

/// Frees a closing shelf if no worker is at it, and returns the word that was found. If the shelf was freed, its slots
/// are out with the loader.
pub fn collect(shelves: &ShelfTable, loader: &mut TableSeat, shelf: usize, version: u64) -> u64
    requires table { loader.old.table ≡ shelves.now }
    requires numbers { (shelf < 8) × (version ≤ most_versions) }
    requires ready { MayCollect shelf version loader.old.me.0 loader.old.me.1 }
    ensures table { loader.new.table ≡ loader.old.table }
    ensures collect { CollectsOn shelf version result loader.old.me loader.new.me }
{
    shelves
        .table
        .shared
        .compare_exchange::<Collecting>(&mut loader.seat, shelf + 1, 512 + 65536 * version, 0)
}

/// Takes out the empty slots of a free shelf, by a try at it that fails, since the shelf isn't closing.
pub fn gather(shelves: &ShelfTable, loader: &mut TableSeat, shelf: usize)
    requires table { loader.old.table ≡ shelves.now }
    requires numbers { shelf < 8 }
    requires ready { MayGather shelf loader.old.me.0 loader.old.me.1 }
    ensures table { loader.new.table ≡ loader.old.table }
    ensures gather { GathersOn shelf loader.old.me loader.new.me }
{
    shelves
        .table
        .shared
        .compare_exchange::<Gathering>(&mut loader.seat, shelf + 1, 512, 0);
}

/// Puts back the empty slots of a free shelf, by a try at it that fails, since the shelf isn't closing.
pub fn put_back(shelves: &ShelfTable, loader: &mut TableSeat, shelf: usize)
    requires table { loader.old.table ≡ shelves.now }
    requires numbers { shelf < 8 }
    requires ready { MayPutBack shelf loader.old.me.0 loader.old.me.1 }
    ensures table { loader.new.table ≡ loader.old.table }
    ensures put_back { PutsBackOn shelf loader.old.me loader.new.me }
{
    shelves
        .table
        .shared
        .compare_exchange::<PuttingBack>(&mut loader.seat, shelf + 1, 512, 0);
}
