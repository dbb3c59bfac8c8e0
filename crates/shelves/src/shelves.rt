//! Shelves without a lock.

ghost use Rattle.std.specs.Prelude.{◌≡◌, ◌<◌, [], Some, IfOk, IfErr};
ghost use Rattle.std.specs.List.{All};
ghost use Rattle.std.specs.Arc.{arc_value};
ghost use Rattle.shelf_steps.specs.Handed.{handed};
ghost use Rattle.shelf_steps.specs.declared.views.View.{View};
ghost use Rattle.shelves.specs.ShelfSeats.{PinsSeat, ReleasesSeat, JoinsSeat, SeatsHanded};
ghost use Rattle.shelves.specs.ShelfLoads.{CollectsShelves, PublishesImage, RefusesImage};
ghost use Rattle.shelves.specs.declared.faults.PublishFault.{PublishFault};

use crate::collected::Collected;
use crate::faults::{PinFault, PublishFault};
use crate::notice::Notice;
use crate::shelf_loader::ShelfLoader;
use crate::shelf_seats::ShelfSeat;
use image_verifier::Verified;
use shelf_steps::ShelfTable;
use shelf_steps::laws::{new_shelves, new_worker};
use std::alloc::{AllocError, Global};
use std::marker::Model;
use std::sync::Arc;

/// Shelves without a lock: pins, releases and collections go through a `&`, from any number of threads, wait for nobody
/// and take no memory. Contracts see which table these are, so that a seat of other shelves can't be used here.
#[derive(Drop)]
pub struct Shelves {
    table: ShelfTable,
    alloc: Global,
}

impl Model for Shelves {
    ghost use Rattle.atomic_table.specs.Seated.{TableId};

    ghost Value = { TableId };

    ghost view = { λ s. s.table };
}

impl Shelves {
    /// Creates shelves with the image as version 1, current on shelf 0, the loader's seat, and sixteen workers' seats.
    /// Nothing has happened yet. A refusal, for want of memory, returns the image.
    pub fn new(
        alloc: Global,
        first: Arc<Verified, Global>,
    ) -> Result<(Shelves, ShelfLoader, Vec<ShelfSeat>), (Arc<Verified, Global>, PublishFault)>
        ensures loader { IfOk result (λ made. made.1 ≡ record {
          table = made.0;
          view =
              View.Loading (handed 16 (arc_value first));
          current = 1;
          answers = [];
        }) }
        ensures seats { IfOk result (λ made. SeatsHanded made.0 16 made.2.items) }
        ensures fits { IfOk result (λ made. All (λ seat. seat.table ≡ made.0) made.2.items) }
        ensures refused { IfErr result (λ e. (e.0 ≡ first) × (e.1 ≡ PublishFault.OutOfMemory)) }
    {
        match open(alloc, &first) {
            Ok((table, loader, seats)) => Ok((Shelves { table, alloc }, loader, seats)),
            Err(_) => Err((first, PublishFault::OutOfMemory)),
        }
    }

    /// The word as it is found: word 0 is eight times the current version, plus its shelf; each word from 1 on has a
    /// shelf, with its count in bits 0 to 7, its state in bits 8 and 9 (0 free, 1 open, 2 closing) and its version from
    /// bit 16 on.
    pub fn word(&self, word: usize) -> u64
        requires { word < 9 }
    {
        self.table.word(word)
    }

    /// Pins the current version, by one to four looks. Refused with `AlreadyPinned` exactly if the seat holds a
    /// version, and with `Moved` if four looks found four versions, each greater than the one before, and each was gone
    /// before it could be held.
    pub fn pin(&self, seat: &mut ShelfSeat) -> Result<(), PinFault>
        requires { seat.old.table ≡ self.now }
        ensures { PinsSeat seat.old result seat.new }
    {
        seat.pin_at(&self.table)
    }

    /// Releases the version that the seat holds; refused with `NotPinned` exactly if it holds none.
    pub fn release(&self, seat: &mut ShelfSeat) -> Result<(), PinFault>
        requires { seat.old.table ≡ self.now }
        ensures { ReleasesSeat seat.old result seat.new }
    {
        seat.release_at(&self.table)
    }

    /// Publishes the image as the next version, on the least free shelf, and closes the shelf that was current. Returns
    /// the version, always with a notice of it. If no shelf is free, each closing one is tried first. A refusal returns
    /// the image and leaves the current version: `VersionsSpent` at the last version, `ShelvesFull` if each closing
    /// shelf was found in use, or `OutOfMemory` before a shelf was opened.
    pub fn publish(
        &self,
        loader: &mut ShelfLoader,
        image: Arc<Verified, Global>,
    ) -> Result<(u64, Option<Notice>), (Arc<Verified, Global>, PublishFault)>
        requires { loader.old.table ≡ self.now }
        ensures back { IfErr result (λ e. e.0 ≡ image) }
        ensures published { IfOk result (λ r. PublishesImage loader.old (arc_value image) r.0 loader.new) }
        ensures notice { IfOk result (λ r. r.1 ≡ Some (record { table = self.now; version = r.0 })) }
        ensures refused { IfErr result (λ e. RefusesImage loader.old e.1 loader.new) }
    {
        match loader.publish_at(&self.table, self.alloc, image) {
            Ok((version, notice)) => Ok((version, Some(notice))),
            Err(refused) => Err(refused),
        }
    }

    /// Takes in the notice: from now on the seat has seen its version. This takes no memory and waits for nobody.
    pub fn join(&self, seat: &mut ShelfSeat, notice: Notice)
        requires { (seat.old.table ≡ self.now) × (notice.table ≡ self.now) }
        ensures { JoinsSeat seat.old notice.version seat.new }
    {
        seat.join_at(&self.table, notice);
    }

    /// Tries each closing shelf, and frees it if its count is 0; otherwise `busy` has the count that was found.
    pub fn collect(&self, loader: &mut ShelfLoader) -> Collected
        requires { loader.old.table ≡ self.now }
        ensures { CollectsShelves loader.old result loader.new }
    {
        loader.collect_at(&self.table)
    }
}

// The table, the loader's seat, and sixteen workers' seats.
fn open(
    alloc: Global,
    first: &Arc<Verified, Global>,
) -> Result<(ShelfTable, ShelfLoader, Vec<ShelfSeat>), AllocError>
    ensures loader { IfOk result (λ made. made.1 ≡ record {
      table = made.0;
      view =
          View.Loading (handed 16 (arc_value first.now));
      current = 1;
      answers = [];
    }) }
    ensures seats { IfOk result (λ made. SeatsHanded made.0 16 made.2.items) }
{
    let mut seats = Vec::with_capacity(alloc, 16)?;
    let (table, mut table_seat) = new_shelves(alloc, first)?;
    for number in 0..16usize {
        let worker = new_worker(&table, &mut table_seat);
        seats.push(ShelfSeat::idle(worker, number))?;
    }
    Ok((table, ShelfLoader::first(table_seat), seats))
}
