//! Loads, and tries at closing shelves.
ghost use Rattle.std.specs.Prelude.{◌≡◌, ◌==◌, ℕ, ◌<◌, ◌≤◌, [], IfNone, IfSome, OnOk, OnErr};
ghost use Rattle.std.specs.Arc.{arc_value};
ghost use Rattle.image_layout.specs.Image.{ImageValue};
ghost use Rattle.version_core.specs.State.{most_versions};
ghost use Rattle.shelf_steps.specs.Plays.{OfLoader, MayCollect};
ghost use Rattle.shelf_steps.specs.Blocks.{EachHas};
ghost use Rattle.shelf_steps.specs.Loading.{MayLoad, Loads, Frees, FindsBusy};

use crate::blocks::{editions_of, empty_block, fill_block};
use crate::edition::Edition;
use crate::loader_steps::{close, collect, gather, open, publish, put_back};
use crate::table_seats::{ShelfTable, TableSeat};
use image_verifier::Verified;
use std::alloc::{AllocError, Global};
use std::sync::Arc;

/// Loads the image as the next version, which is current, on the free shelf `shelf`; the shelf `former` is closing. If
/// memory is refused, no step was made.
pub fn load(
    shelves: &ShelfTable,
    loader: &mut TableSeat,
    alloc: Global,
    shelf: usize,
    version: u64,
    former: usize,
    image: &Arc<Verified, Global>,
) -> Result<(), AllocError>
    requires table { loader.old.table ≡ shelves.now }
    requires numbers { (shelf < 8) × (version ≤ most_versions) × (former < 8) }
    requires ready { OfLoader loader.old.me.0 (λ l. MayLoad shelf version former l) }
    requires empty { loader.old.me.1 ≡ [] }
    ensures table { loader.new.table ≡ loader.old.table }
    ensures load { OnOk result (Loads shelf version (arc_value image.now) loader.old.me.0 loader.new.me.0) }
    ensures empty { loader.new.me.1 ≡ [] }
    ensures refused { OnErr result (loader.new ≡ loader.old) }
{
    let editions = editions_of(alloc, version, image)?;
    load_editions(shelves, loader, shelf, version, former, editions);
    Ok(())
}

// A load with an edition for each worker at hand.
fn load_editions(
    shelves: &ShelfTable,
    loader: &mut TableSeat,
    shelf: usize,
    version: u64,
    former: usize,
    editions: Vec<Edition>,
)
    requires table { loader.old.table ≡ shelves.now }
    requires numbers { (shelf < 8) × (version ≤ most_versions) × (former < 8) }
    requires ready { OfLoader loader.old.me.0 (λ l. MayLoad shelf version former l) }
    requires empty { loader.old.me.1 ≡ [] }
    requires editions { (image : ImageValue) × EachHas version image 16 editions.items }
    ensures table { loader.new.table ≡ loader.old.table }
    ensures load { (image : ImageValue) → EachHas version image 16 editions.items
        → Loads shelf version image loader.old.me.0 loader.new.me.0 }
    ensures empty { loader.new.me.1 ≡ [] }
{
    gather(shelves, loader, shelf);
    fill_block(shelves, loader, shelf, editions);
    open(shelves, loader, shelf, version);
    publish(shelves, loader, version, shelf);
    close(shelves, loader, former);
}

/// Tries a closing shelf. `None` says that it is free, and its slots are empty and at home; otherwise the result is how
/// many workers are still there.
pub fn try_shelf(
    shelves: &ShelfTable,
    loader: &mut TableSeat,
    shelf: usize,
    version: u64,
) -> Option<u8>
    requires table { loader.old.table ≡ shelves.now }
    requires numbers { (shelf < 8) × (version ≤ most_versions) }
    requires closing { MayCollect shelf version loader.old.me.0 loader.old.me.1 }
    ensures table { loader.new.table ≡ loader.old.table }
    ensures freed { IfNone result (Frees shelf loader.old.me.0 loader.new.me.0) }
    ensures busy { IfSome result (λ count. FindsBusy shelf count loader.old.me.0 loader.new.me.0) }
    ensures empty { loader.new.me.1 ≡ [] }
{
    let word = collect(shelves, loader, shelf, version);
    if is_word(word, 512 + 65536 * version) {
        empty_block(shelves, loader, shelf);
        put_back(shelves, loader, shelf);
        None
    } else {
        Some((word % 256) as u8)
    }
}

fn is_word(found: u64, expected: u64) -> bool
    ensures { result ≡ (found == expected) }
{
    found == expected
}
