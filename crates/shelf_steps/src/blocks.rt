//! What the loader does with the sixteen slots of a shelf while they are out with it.
ghost use Rattle.std.specs.Prelude.{◌≡◌, ℕ, ◌+◌, ◌*◌, ◌<◌, [], Option, IfOk, length, vec_len};
ghost use Rattle.std.specs.Arc.{arc_value};
ghost use Rattle.shelf_steps.specs.Slots.{down_from, nothings};
ghost use Rattle.shelf_steps.specs.Plays.{IsBlock};
ghost use Rattle.shelf_steps.specs.Blocks.{laid, EachHas};
ghost use Rattle.shelf_steps.specs.declared.edition.Edition.{Edition};

use crate::edition::Edition;
use crate::table_seats::{ShelfTable, TableSeat};
use image_verifier::Verified;
use std::alloc::{AllocError, Global};
use std::sync::Arc;

/// Sixteen editions of a version, one for each worker.
pub fn editions_of(
    alloc: Global,
    version: u64,
    image: &Arc<Verified, Global>,
) -> Result<Vec<Edition>, AllocError>
    ensures { IfOk result (λ v. EachHas version (arc_value image.now) 16 v.items) }
{
    let mut editions = Vec::with_capacity(alloc, 16)?;
    for _i in 0..16usize {
        let image = Arc::try_clone(image)?;
        editions.push(Edition { version, image })?;
    }
    Ok(editions)
}

/// Empties the slots of the shelf, and drops their editions.
pub fn empty_block(shelves: &ShelfTable, loader: &mut TableSeat, shelf: usize)
    requires table { loader.old.table ≡ shelves.now }
    requires shelf { shelf < 8 }
    requires block { (f : ℕ → Option Edition) × IsBlock f shelf loader.old.me.1 }
    ensures table { loader.new.table ≡ loader.old.table }
    ensures block { loader.new.me ≡ (loader.old.me.0, down_from nothings (16 * shelf) 16 []) }
{
    for i in 0..16usize {
        let edition = loader.swap_edition(shelves, 16 * shelf + (15 - i), None);
        drop(edition);
        loader.turn();
    }
}

/// Puts an edition into each slot of the shelf.
pub fn fill_block(
    shelves: &ShelfTable,
    loader: &mut TableSeat,
    shelf: usize,
    mut editions: Vec<Edition>,
)
    requires table { loader.old.table ≡ shelves.now }
    requires shelf { shelf < 8 }
    requires editions { vec_len editions ≡ 16 }
    requires block { IsBlock nothings shelf loader.old.me.1 }
    ensures table { loader.new.table ≡ loader.old.table }
    ensures block { loader.new.me ≡ (loader.old.me.0, down_from (laid editions.items (16 * shelf)) (16 * shelf) 16 []) }
{
    for i in 0..16usize {
        let Some(edition) = editions.pop() else {
            unreachable!()
        };
        let empty = loader.swap_edition(shelves, 16 * shelf + (15 - i), Some(edition));
        drop(empty);
        loader.turn();
    }
}
