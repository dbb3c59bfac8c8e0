//! The steps of a worker, each one atomic operation on a word and one event.
ghost use Rattle.std.specs.Prelude.{◌≡◌, ℕ, ◌<◌};
ghost use Rattle.shelf_steps.specs.Plays.{Looks, Takes, Leaves, GivesBack, ShowsIdle, ShowsLooked, ShowsLate, HoldsOut};

use crate::rule::{GivingBack, Leaving, Looking, Taking};
use crate::table_seats::{ShelfTable, TableSeat};

/// Looks at the current version, and returns its word: eight times the version, plus its shelf.
pub fn look(shelves: &ShelfTable, worker: &mut TableSeat) -> u64
    requires table { worker.old.table ≡ shelves.now }
    requires idle { ShowsIdle worker.old.me.0 }
    ensures table { worker.new.table ≡ worker.old.table }
    ensures look { Looks worker.old.me result worker.new.me }
{
    shelves.table.shared.load::<Looking>(&mut worker.seat, 0)
}

/// Takes the shelf that the worker saw, and returns the shelf's word as it was found. If the shelf was open with the
/// version that the worker looked at, the worker holds that version, and its slot is out with it; otherwise the worker
/// is late.
pub fn take(shelves: &ShelfTable, worker: &mut TableSeat, shelf: usize) -> u64
    requires table { worker.old.table ≡ shelves.now }
    requires looked { (shelf < 8) × ShowsLooked shelf worker.old.me.0 }
    ensures table { worker.new.table ≡ worker.old.table }
    ensures take { Takes worker.old.me result worker.new.me }
{
    shelves
        .table
        .shared
        .fetch_add::<Taking>(&mut worker.seat, shelf + 1, 1)
}

/// Leaves the shelf at which the worker is late: the event `Drop`.
pub fn leave_late(shelves: &ShelfTable, worker: &mut TableSeat, shelf: usize)
    requires table { worker.old.table ≡ shelves.now }
    requires late { (shelf < 8) × ShowsLate shelf worker.old.me.0 }
    ensures table { worker.new.table ≡ worker.old.table }
    ensures leave { Leaves worker.old.me worker.new.me }
{
    shelves
        .table
        .shared
        .fetch_sub::<Leaving>(&mut worker.seat, shelf + 1, 1);
}

/// Leaves the shelf that the worker holds, and puts its slot back, with the edition in it: the event `Drop`.
pub fn give_back(shelves: &ShelfTable, worker: &mut TableSeat, shelf: usize)
    requires table { worker.old.table ≡ shelves.now }
    requires holds { (shelf < 8) × HoldsOut shelf worker.old.me.0 worker.old.me.1 }
    ensures table { worker.new.table ≡ worker.old.table }
    ensures leave { GivesBack worker.old.me worker.new.me }
{
    shelves
        .table
        .shared
        .fetch_sub::<GivingBack>(&mut worker.seat, shelf + 1, 1);
}
