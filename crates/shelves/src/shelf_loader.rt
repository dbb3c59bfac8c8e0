//! The seat from which a loader publishes versions without a lock.

ghost use Rattle.std.specs.Prelude.{◌≡◌, ℕ, ◌+◌, ◌<◌, ◌≤◌, [], ◌∷◌, ◌++◌, Some, IfOk, IfErr, OnErr, MatchBool};
ghost use Rattle.std.specs.Prelude.{MatchOption, MatchResult};
ghost use Rattle.std.specs.Arc.{arc_value};
ghost use Rattle.image_layout.specs.Image.{ImageValue};
ghost use Rattle.version_core.specs.declared.state.Shelf.{Shelf};
ghost use Rattle.version_core.specs.State.{most_versions};
ghost use Rattle.shelf_steps.specs.Handed.{handed};
ghost use Rattle.shelf_steps.specs.Loading.{Loads};
ghost use Rattle.shelf_steps.specs.Plays.{gives_notice};
ghost use Rattle.shelf_steps.specs.declared.views.View.{View};
ghost use Rattle.shelf_steps.specs.Events.{known_of};
ghost use Rattle.shelves.specs.SeatHistory.{IsPublished};
ghost use Rattle.shelves.specs.ShelfLoads.{CollectsBySteps, TriedShelf, shelf_of, IsFreeIn, HasFree, IsLeastFree};
ghost use Rattle.shelves.specs.ShelfLoads.{MakesRoomBySteps, PublishesBySteps, RefusesBySteps, IsUnspent, IsSpentAt};
ghost use Rattle.shelves.specs.ShelfLoads.{CollectsShelves, PublishesImage, RefusesImage, IsNext};
ghost use Rattle.shelves.specs.declared.faults.PublishFault.{PublishFault};

use crate::answers::LoaderAnswer;
use crate::collected::Collected;
use crate::faults::PublishFault;
use crate::notice::Notice;
use image_verifier::Verified;
use shelf_steps::{ShelfTable, TableSeat, load, note, try_shelf};
use std::alloc::{AllocError, Global};
use std::marker::Model;
use std::snapshot::Snapshot;
use std::sync::Arc;
use timetable::Trace;
use version_core::{MOST_VERSIONS, Shelf};

/// The loader's seat at shelves without a lock. It remembers the current version and what each
/// shelf is for, which nobody else changes.
#[derive(Drop)]
pub struct ShelfLoader {
    table_seat: TableSeat,
    current: u64,
    current_shelf: usize,
    shelves: [Shelf; 8],
    answers: Trace<LoaderAnswer>,
}

impl Model for ShelfLoader {
    ghost use Rattle.shelves.specs.ShelfLoads.{ShelfLoaderValue, RestsHere};

    ghost Value = { ShelfLoaderValue };

    ghost view = { λ s. record {
      table = s.table_seat.table;
      view = s.table_seat.me.0;
      current = s.current;
      answers =
          s.answers;
    } };

    ghost invariant = { λ s. RestsHere s.current s.current_shelf s.shelves s.table_seat.me };
}

impl ShelfLoader {
    /// The loader's seat at new shelves.
    pub(crate) fn first(table_seat: TableSeat) -> ShelfLoader
        requires { (image : ImageValue) × (table_seat.me ≡ (View.Loading (handed 16 image), [])) }
        ensures { result ≡ record { table = table_seat.table; view = table_seat.me.0; current = 1; answers = [] } }
    {
        let mut shelves = [Shelf::Free; 8];
        shelves[0] = Shelf::Open { version: 1 };
        ShelfLoader {
            table_seat,
            current: 1,
            current_shelf: 0,
            shelves,
            answers: Trace::new(),
        }
    }

    // Tries each closing shelf, and notes what was found.
    pub(crate) fn collect_at(&mut self, table: &ShelfTable) -> Collected
        requires { self.old.table ≡ table.now }
        ensures { CollectsShelves self.old result self.new }
    {
        let found = self.try_all(table);
        self.note_answer(LoaderAnswer::Collected { found });
        found
    }

    // Notes an answer; nothing else changes.
    pub(crate) fn note_answer(&mut self, answer: LoaderAnswer)
        ensures { self.new ≡ record self.old { answers = self.old.answers ++ answer ∷ [] } }
    {
        self.answers.note(&answer);
    }

    // Gives one notice of the current version.
    pub(crate) fn note_at(&mut self, table: &ShelfTable) -> Notice
        requires { self.old.table ≡ table.now }
        ensures noted { self.new ≡ record self.old { view = gives_notice self.old.view } }
        ensures notice { (result.table ≡ self.old.table) × (result.version ≡ self.old.current) }
    {
        // This reads a field so that the proof knows the invariant of the struct; it does nothing.
        let _ = &self.current;
        let table_seat = note(table, &mut self.table_seat);
        Notice::of(table_seat, self.current)
    }

    // Publishes the image and gives one notice of its version, or returns why not, and notes the answer.
    pub(crate) fn publish_at(
        &mut self,
        table: &ShelfTable,
        alloc: Global,
        image: Arc<Verified, Global>,
    ) -> Result<(u64, Notice), (Arc<Verified, Global>, PublishFault)>
        requires { self.old.table ≡ table.now }
        ensures back { IfErr result (λ e. e.0 ≡ image) }
        ensures published { IfOk result (λ r. PublishesImage self.old (arc_value image) r.0 self.new) }
        ensures notice { IfOk result (λ r. r.1 ≡ record { table = table.now; version = r.0 }) }
        ensures refused { IfErr result (λ e. RefusesImage self.old e.1 self.new) }
    {
        match self.publish_quietly(table, alloc, &image) {
            Ok(version) => {
                let shown = Snapshot::of(&*image);
                self.note_answer(LoaderAnswer::Published {
                    version,
                    image: shown,
                });
                let notice = self.note_at(table);
                Ok((version, notice))
            }
            Err(fault) => {
                self.note_answer(LoaderAnswer::PublishRefused { fault });
                Err((image, fault))
            }
        }
    }

    // Publishes without noting the answer.
    fn publish_quietly(
        &mut self,
        table: &ShelfTable,
        alloc: Global,
        image: &Arc<Verified, Global>,
    ) -> Result<u64, PublishFault>
        requires { self.old.table ≡ table.now }
        ensures table { (self.new.table ≡ self.old.table) × (self.new.answers ≡ self.old.answers) }
        ensures next { IfOk result (λ v. IsNext self.old v self.new × (1 < v) × (v ≤ most_versions)) }
        ensures published { IfOk result (λ v. (room : View) × MakesRoomBySteps self.old.view room
            × PublishesBySteps room (arc_value image.now) v self.new.view) }
        ensures known { IfOk result (λ v. IsPublished (known_of self.new.view) v (arc_value image.now)) }
        ensures refused { IfErr result (λ e. (self.new.current ≡ self.old.current) × IsSpentAt self.old.current e
            × RefusesBySteps self.old.view e self.new.view) }
    {
        if self.current >= MOST_VERSIONS {
            return Err(PublishFault::VersionsSpent);
        }
        let shelf = match self.make_room(table) {
            Ok(shelf) => shelf,
            Err(counts) => return Err(PublishFault::ShelvesFull { counts }),
        };
        match self.load_on(table, shelf, alloc, image) {
            Ok(version) => Ok(version),
            Err(_) => Err(PublishFault::OutOfMemory),
        }
    }

    // The least free shelf, after a try at each closing one if none is free. If none is free then either, returns how
    // many workers are at each closing one.
    fn make_room(&mut self, table: &ShelfTable) -> Result<usize, [u8; 8]>
        requires table { self.old.table ≡ table.now }
        requires left { self.old.current < most_versions }
        ensures table { (self.new.table ≡ self.old.table) × (self.new.current ≡ self.old.current)
            × (self.new.answers ≡ self.old.answers) }
        ensures room { IfOk result (λ k. (k < 8) × IsLeastFree self.new.view k
            × MakesRoomBySteps self.old.view self.new.view × IsUnspent self.old.view) }
        ensures full { IfErr result (λ counts.
            RefusesBySteps self.old.view (PublishFault.ShelvesFull counts) self.new.view) }
    {
        let _ = &self.current;
        if let Some(shelf) = self.free_shelf() {
            return Ok(shelf);
        }
        let found = self.try_all(table);
        match self.free_shelf() {
            Some(shelf) => Ok(shelf),
            None => Err(found.busy),
        }
    }

    fn free_shelf(&self) -> Option<usize>
        ensures { MatchOption result (¬ (HasFree self.now.view)) (λ k. (k < 8) × IsLeastFree self.now.view k) }
    {
        let _ = &self.current;
        for k in 0..8usize {
            if self.is_free(k) {
                return Some(k);
            }
        }
        None
    }

    fn is_free(&self, shelf: usize) -> bool
        requires { shelf < 8 }
        ensures { MatchBool result (IsFreeIn self.now.view shelf) (¬ (IsFreeIn self.now.view shelf)) }
    {
        match self.shelves[shelf] {
            Shelf::Free => true,
            Shelf::Open { .. } | Shelf::Closing { .. } => false,
        }
    }

    // Loads the image as the next version, which is current, on a free shelf; the version before is closing.
    fn load_on(
        &mut self,
        table: &ShelfTable,
        shelf: usize,
        alloc: Global,
        image: &Arc<Verified, Global>,
    ) -> Result<u64, AllocError>
        requires table { self.old.table ≡ table.now }
        requires left { self.old.current < most_versions }
        requires free { (shelf < 8) × (shelf_of self.old.view shelf ≡ Some Shelf.Free) }
        ensures table { (self.new.table ≡ self.old.table) × (self.new.answers ≡ self.old.answers) }
        ensures next { IfOk result (λ v. IsNext self.old v self.new × (1 < v) × (v ≤ most_versions)) }
        ensures loads { IfOk result (λ version. Loads shelf version (arc_value image.now) self.old.view self.new.view) }
        ensures known { IfOk result (λ v. IsPublished (known_of self.new.view) v (arc_value image.now)) }
        ensures refused { OnErr result (self.new ≡ self.old) }
    {
        let version = self.current + 1;
        let former = self.current_shelf;
        match load(
            table,
            &mut self.table_seat,
            alloc,
            shelf,
            version,
            former,
            image,
        ) {
            Ok(()) => {
                self.shelves[shelf] = Shelf::Open { version };
                self.shelves[former] = Shelf::Closing {
                    version: self.current,
                };
                self.current = version;
                self.current_shelf = shelf;
                Ok(version)
            }
            Err(refused) => Err(refused),
        }
    }

    // Tries each closing shelf, one after another.
    fn try_all(&mut self, table: &ShelfTable) -> Collected
        requires { self.old.table ≡ table.now }
        ensures table { (self.new.table ≡ self.old.table) × (self.new.current ≡ self.old.current)
            × (self.new.answers ≡ self.old.answers) }
        ensures steps { CollectsBySteps self.old.view result self.new.view }
    {
        let _ = &self.current;
        let mut found = Collected {
            freed: [false; 8],
            busy: [0; 8],
        };
        for shelf in 0..8usize {
            let (freed, busy) = self.try_at(table, shelf);
            found.freed[shelf] = freed;
            found.busy[shelf] = busy;
        }
        found
    }

    fn try_at(&mut self, table: &ShelfTable, shelf: usize) -> (bool, u8)
        requires { (self.old.table ≡ table.now) × (shelf < 8) }
        ensures table { (self.new.table ≡ self.old.table) × (self.new.current ≡ self.old.current)
            × (self.new.answers ≡ self.old.answers) }
        ensures tried { TriedShelf shelf (shelf_of self.old.view shelf) self.old.view result self.new.view }
    {
        let Shelf::Closing { version } = self.shelves[shelf] else {
            return (false, 0);
        };
        match try_shelf(table, &mut self.table_seat, shelf, version) {
            Some(count) => (false, count),
            None => {
                self.shelves[shelf] = Shelf::Free;
                (true, 0)
            }
        }
    }
}
