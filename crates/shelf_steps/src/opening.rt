//! The start of a table: version 1 is current on shelf 0, and the seats of idle workers are split from the loader's.
ghost use Rattle.std.specs.Prelude.{◌≡◌, ◌<◌, [], IfOk};
ghost use Rattle.std.specs.Arc.{arc_value};
ghost use Rattle.shelf_steps.specs.Rule.{first_loader_view, FirstSlot, FirstSlots};
ghost use Rattle.shelf_steps.specs.Plays.{keeps_loading, new_worker_view, MayHandOut};
ghost use Rattle.shelf_steps.specs.Splits.{IsSplit};
ghost use Rattle.shelf_steps.specs.declared.views.View.{View};

use crate::edition::Edition;
use crate::rule::HandingOut;
use crate::table_seats::{ShelfTable, TableSeat};
use atomic_table::Table;
use image_verifier::Verified;
use std::alloc::{AllocError, Global};
use std::sync::Arc;

/// Creates a table and the loader's seat at it. Version 1 is current on shelf 0, whose slots have the first image. No
/// worker has a seat yet.
pub fn new_shelves(
    alloc: Global,
    first: &Arc<Verified, Global>,
) -> Result<(ShelfTable, TableSeat), AllocError>
    ensures table { IfOk result (λ t. t.1.table ≡ t.0) }
    ensures loader { IfOk result (λ t. t.1.me ≡ (View.Loading (first_loader_view (arc_value first.now)), [])) }
{
    let slots = first_slots(alloc, first)?;
    match Table::new(alloc, &[8, 65792, 0, 0, 0, 0, 0, 0, 0], slots, first) {
        Ok((table, seat)) => Ok((ShelfTable { table }, TableSeat { seat })),
        Err(_) => Err(AllocError),
    }
}

fn first_slots(
    alloc: Global,
    first: &Arc<Verified, Global>,
) -> Result<Vec<Option<Edition>>, AllocError>
    ensures { IfOk result (λ v. FirstSlots (arc_value first.now) 128 v.items) }
{
    let mut slots = Vec::with_capacity(alloc, 128)?;
    for index in 0..128usize {
        slots.push(first_slot(index, first)?)?;
    }
    Ok(slots)
}

fn first_slot(index: usize, first: &Arc<Verified, Global>) -> Result<Option<Edition>, AllocError>
    ensures { IfOk result (λ x. FirstSlot (arc_value first.now) index x) }
{
    if index < 16 {
        let image = Arc::try_clone(first)?;
        Ok(Some(Edition { version: 1, image }))
    } else {
        Ok(None)
    }
}

/// Splits the seat of an idle worker, with the next number, from the loader's seat.
pub fn new_worker(shelves: &ShelfTable, loader: &mut TableSeat) -> TableSeat
    requires table { loader.old.table ≡ shelves.now }
    requires room { MayHandOut loader.old.me.0 }
    ensures { IsSplit keeps_loading new_worker_view loader.old loader.new result }
{
    let seat = shelves
        .table
        .shared
        .split_seat::<HandingOut>(&mut loader.seat);
    TableSeat { seat }
}
