//! Notices of versions: one is split from the loader's seat, and a worker's seat takes it in.
ghost use Rattle.std.specs.Prelude.{◌≡◌, ℕ};
ghost use Rattle.shelf_steps.specs.Plays.{gives_notice, new_notice, joins_notice, IsLoading, ShowsSettled, IsNotice};
ghost use Rattle.shelf_steps.specs.Splits.{IsSplit};

use crate::rule::{Joining, Noting};
use crate::table_seats::{ShelfTable, TableSeat};

/// Splits one notice of the current version from the loader's seat. It takes no memory.
pub fn note(shelves: &ShelfTable, loader: &mut TableSeat) -> TableSeat
    requires table { loader.old.table ≡ shelves.now }
    requires loader { IsLoading loader.old.me.0 }
    ensures { IsSplit gives_notice new_notice loader.old loader.new result }
{
    let seat = shelves.table.shared.split_seat::<Noting>(&mut loader.seat);
    TableSeat { seat }
}

/// Lets the worker, which is idle or holds a version, take in the notice: from now on it has seen the notice's version.
pub fn join(shelves: &ShelfTable, worker: &mut TableSeat, notice: TableSeat)
    requires table { (worker.old.table ≡ shelves.now) × (notice.table ≡ shelves.now) }
    requires settled { ShowsSettled worker.old.me.0 }
    requires notice { (version : ℕ) × IsNotice version notice.me }
    ensures table { worker.new.table ≡ worker.old.table }
    ensures join { worker.new.me ≡ (joins_notice worker.old.me.0 notice.me.0, worker.old.me.1) }
{
    shelves
        .table
        .shared
        .join_seat::<Joining>(&mut worker.seat, notice.seat);
}
