//! Pins without a lock, each with up to four looks; and releases.
ghost use Rattle.std.specs.Prelude.{◌≡◌, ℕ, ◌+◌, ◌<◌, IfOk, IfErr, MatchResult};
ghost use Rattle.shelf_steps.specs.Plays.{is_open};
ghost use Rattle.shelf_steps.specs.Pinning.{TryIsLate, TryHolds, Pins, Moves, IsIdleAs, IsHoldingAs, Releases};

use crate::edition::Edition;
use crate::table_seats::{ShelfTable, TableSeat};
use crate::worker_steps::{give_back, leave_late, look, take};

fn says_open(word: u64, version: u64) -> bool
    ensures { result ≡ is_open word version }
{
    word / 256 % 4 == 1 && word / 65536 == version
}

/// Looks and takes once, and returns the shelf and the edition that is held. If the version was gone, leaves the shelf
/// and returns that version as the error.
pub fn try_once(
    shelves: &ShelfTable,
    worker: &mut TableSeat,
    number: usize,
) -> Result<(usize, Edition), u64>
    requires table { worker.old.table ≡ shelves.now }
    requires worker { (number < 16) × IsIdleAs number worker.old.me }
    ensures table { worker.new.table ≡ worker.old.table }
    ensures well { IfOk result (λ h. (h.0 < 8) × TryHolds worker.old.me.0 h.1.version h.0 h.1 worker.new.me.0
        × IsHoldingAs number h.0 h.1 worker.new.me) }
    ensures late { IfErr result (λ n. TryIsLate worker.old.me.0 n worker.new.me.0 × IsIdleAs number worker.new.me) }
{
    let found = look(shelves, worker);
    let version = found / 8;
    let shelf = (found % 8) as usize;
    let word = take(shelves, worker, shelf);
    if says_open(word, version) {
        let Some(edition) = worker.swap_edition(shelves, 16 * shelf + number, None) else {
            unreachable!()
        };
        return Ok((shelf, edition));
    }
    leave_late(shelves, worker, shelf);
    Err(version)
}

/// Tries up to four times, and returns the shelf and the edition that is held, or as the error the last version found,
/// which was gone.
pub fn pin(
    shelves: &ShelfTable,
    worker: &mut TableSeat,
    number: usize,
) -> Result<(usize, Edition), u64>
    requires table { worker.old.table ≡ shelves.now }
    requires worker { (number < 16) × IsIdleAs number worker.old.me }
    ensures table { worker.new.table ≡ worker.old.table }
    ensures pins { IfOk result (λ h. (h.0 < 8) × Pins worker.old.me.0 h.1.version h.0 h.1 worker.new.me.0
        × IsHoldingAs number h.0 h.1 worker.new.me) }
    ensures moves { IfErr result (λ n. Moves worker.old.me.0 n worker.new.me.0 × IsIdleAs number worker.new.me) }
{
    if let Ok(held) = try_once(shelves, worker, number) {
        return Ok(held);
    }
    if let Ok(held) = try_once(shelves, worker, number) {
        return Ok(held);
    }
    if let Ok(held) = try_once(shelves, worker, number) {
        return Ok(held);
    }
    try_once(shelves, worker, number)
}

/// Gives back the edition that a pin returned, and leaves its shelf.
pub fn release(
    shelves: &ShelfTable,
    worker: &mut TableSeat,
    number: usize,
    shelf: usize,
    edition: Edition,
)
    requires table { worker.old.table ≡ shelves.now }
    requires worker { (number < 16) × (shelf < 8) × IsHoldingAs number shelf edition worker.old.me }
    ensures table { worker.new.table ≡ worker.old.table }
    ensures releases { Releases worker.old.me.0 worker.new.me.0 × IsIdleAs number worker.new.me }
{
    let empty = worker.swap_edition(shelves, 16 * shelf + number, Some(edition));
    drop(empty);
    give_back(shelves, worker, shelf);
}
