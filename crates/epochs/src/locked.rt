//! Shelves under one lock.

ghost use Rattle.std.specs.Prelude.{◌≡◌, [], Ok, Err, None, Some, IfOk, IfErr, MatchOption, MatchResult};
ghost use Rattle.std.specs.Arc.{arc_value};
ghost use Rattle.std.specs.Sync.Mutex.{mutex_guard_value};
ghost use Rattle.shelves.specs.Seats.{ShowsPin, ShowsRelease, ShowsPublish, ShowsRefusal, ShowsCollection};
ghost use Rattle.epochs.specs.WorkerSeats.{idle_seats};
ghost use Rattle.epochs.specs.Publishing.{TriesClosing};
ghost use Rattle.epochs.specs.Locked.{HasHistory, UnderLock, PinsAt, ReleasesAt, PublishesAt, IsNew};
ghost use Rattle.shelves.specs.declared.faults.PublishFault.{PublishFault};

use crate::seats::{LoaderSeat, WorkerSeat};
use crate::table::VersionTable;
use image_verifier::Verified;
use shelf_steps::Edition;
use shelves::{Collected, PinFault, PublishFault};
use std::alloc::{AllocError, Global};
use std::snapshot::Snapshot;
use std::sync::{Arc, Mutex, MutexGuard, Wait};

/// A table of versions under one lock.
///
/// The contract of each call says what it does to the seat, and that it changes some table with its history as the same
/// call of `VersionTable` does. It doesn't say that two calls meet the same table, since contracts can't see what a
/// lock holds. So the exact contracts are those of `VersionTable`; here each call only passes the locked table on.
///
/// Contracts can't see which seats belong to a lock either. A seat of another table may be used, and is refused with
/// `SeatLost` if the table says something else of the seat's worker than the seat does.
#[derive(Drop)]
pub struct LockedShelves {
    table: Mutex<VersionTable>,
}

impl LockedShelves {
    /// Creates shelves with the image as version 1, the loader's seat, and sixteen workers' seats. A refusal, for want
    /// of memory, returns the image.
    pub fn new(
        alloc: Global,
        first: Arc<Verified, Global>,
    ) -> Result<(LockedShelves, LoaderSeat, Vec<WorkerSeat>), (Arc<Verified, Global>, PublishFault)>
        ensures loader { IfOk result (λ made. made.1 ≡ []) }
        ensures seats { IfOk result (λ made. made.2.items ≡ idle_seats 16) }
        ensures refused { IfErr result (λ e. (e.0 ≡ first) × (e.1 ≡ PublishFault.OutOfMemory)) }
    {
        let seats = match sixteen_seats(alloc) {
            Ok(seats) => seats,
            Err(_) => return Err((first, PublishFault::OutOfMemory)),
        };
        let shown = Snapshot::of(&*first);
        match VersionTable::new(alloc, first) {
            Ok(table) => {
                let shelves = LockedShelves::of(table, shown);
                Ok((shelves, LoaderSeat::new(), seats))
            }
            Err((first, _)) => Err((first, PublishFault::OutOfMemory)),
        }
    }

    // What a lock holds at the start can't be seen afterwards, so it is required here.
    pub(crate) fn of(table: VersionTable, first: Snapshot<Verified>) -> LockedShelves
        requires { IsNew first.value table }
    {
        drop(first);
        LockedShelves {
            table: Mutex::new(table),
        }
    }
}

// Returns the same table: its events lead to its state.
fn with_history<'a>(table: MutexGuard<'a, VersionTable>) -> MutexGuard<'a, VersionTable>
    ensures { HasHistory (mutex_guard_value result) }
{
    table.history();
    table
}

// Publishes at a table whose events lead to its state, before and after.
fn publish_at(
    table: &mut VersionTable,
    loader: &mut LoaderSeat,
    image: Arc<Verified, Global>,
) -> Result<u64, (Arc<Verified, Global>, PublishFault)>
    requires { HasHistory table.old }
    ensures back { IfErr result (λ e. e.0 ≡ image) }
    ensures loader { MatchResult result (λ v. ShowsPublish loader.old (arc_value image) v loader.new)
        (λ e. ShowsRefusal loader.old e.1 loader.new) }
    ensures table { MatchResult result (λ v. UnderLock (λ a b. PublishesAt a (arc_value image) (Ok v) b))
        (λ e. UnderLock (λ a b. PublishesAt a (arc_value image) (Err e.1) b)) }
{
    let answer = table.publish(loader, image);
    table.history();
    answer
}

fn sixteen_seats(alloc: Global) -> Result<Vec<WorkerSeat>, AllocError>
    ensures { IfOk result (λ seats. seats.items ≡ idle_seats 16) }
{
    let mut seats = Vec::with_capacity(alloc, 16)?;
    for number in 0..16 {
        seats.push(WorkerSeat::idle(number))?;
    }
    Ok(seats)
}

impl LockedShelves {
    /// Pins the current version. Refused with `AlreadyPinned` exactly if the seat holds a version, with `SeatLost` if
    /// the table says something else of the seat's worker, and with `OutOfMemory` if the image couldn't be shared;
    /// never with `Moved`.
    pub fn pin<R: Wait>(&self, rt: &R, seat: &mut WorkerSeat) -> Result<(), PinFault>
        ensures number { seat.new.number ≡ seat.old.number }
        ensures pin { ShowsPin seat.old.shown result seat.new.shown }
        ensures table { UnderLock (λ a b. PinsAt a seat.old result b seat.new) }
    {
        let mut table = with_history(self.table.lock(rt));
        let answer = table.pin(seat);
        table.history();
        answer
    }

    /// The version that the seat holds, with its image.
    pub fn edition(seat: &WorkerSeat) -> Option<&Edition>
        ensures { MatchOption result (seat.now.shown.held ≡ None) (λ e. seat.now.shown.held ≡ Some (
          e.now.version,
          arc_value e.now.image,
        )) }
    {
        seat.edition()
    }

    /// Releases the version that the seat holds. Refused with `NotPinned` exactly if it holds none, and with `SeatLost`
    /// if the table says something else of its worker; then only the seat is emptied.
    pub fn release<R: Wait>(&self, rt: &R, seat: &mut WorkerSeat) -> Result<(), PinFault>
        ensures number { seat.new.number ≡ seat.old.number }
        ensures release { ShowsRelease seat.old.shown result seat.new.shown }
        ensures table { UnderLock (λ a b. ReleasesAt a seat.old result b seat.new) }
    {
        let mut table = with_history(self.table.lock(rt));
        let answer = table.release(seat);
        table.history();
        answer
    }

    /// Publishes the image as the next version. A refusal returns the image.
    pub fn publish<R: Wait>(
        &self,
        rt: &R,
        loader: &mut LoaderSeat,
        image: Arc<Verified, Global>,
    ) -> Result<u64, (Arc<Verified, Global>, PublishFault)>
        ensures back { IfErr result (λ e. e.0 ≡ image) }
        ensures loader { MatchResult result (λ v. ShowsPublish loader.old (arc_value image) v loader.new)
            (λ e. ShowsRefusal loader.old e.1 loader.new) }
        ensures table { MatchResult result (λ v. UnderLock (λ a b. PublishesAt a (arc_value image) (Ok v) b))
            (λ e. UnderLock (λ a b. PublishesAt a (arc_value image) (Err e.1) b)) }
    {
        let mut table = with_history(self.table.lock(rt));
        publish_at(&mut table, loader, image)
    }

    /// Tries each closing shelf, and frees it if no worker is there.
    pub fn collect<R: Wait>(&self, rt: &R, loader: &mut LoaderSeat) -> Collected
        ensures loader { ShowsCollection loader.old result loader.new }
        ensures table { UnderLock (λ a b. TriesClosing a result b) }
    {
        let mut table = with_history(self.table.lock(rt));
        let found = table.collect(loader);
        table.history();
        found
    }
}
