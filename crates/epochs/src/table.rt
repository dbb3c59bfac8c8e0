//! The table of versions beside the editions on its shelves.

ghost use Rattle.std.specs.Prelude.{◌≡◌, ◌≢◌, ℕ, ◌+◌, ◌<◌, ◌≤◌, Ok, Err, ◌++◌, ◌∷◌, [], IfOk, IfErr, OnOk, OnErr};
ghost use Rattle.std.specs.Prelude.{MatchBool, MatchResult};
ghost use Rattle.std.specs.Arc.{arc_value};
ghost use Rattle.version_core.specs.State.{most_versions, newest, start};
ghost use Rattle.version_core.specs.Steps.{IsIdle, Holds, IsClosing};
ghost use Rattle.version_core.specs.Invariants.{KeepsInvariants};
ghost use Rattle.version_core.specs.Laws.{LooksAndTakesHold, DropsLetGo, RunsGrow};
ghost use Rattle.version_core.specs.Rest.{RestStays};
ghost use Rattle.version_core.specs.declared.state.Worker.{Worker};
ghost use Rattle.shelves.specs.Seats.{ShowsPin, ShowsRelease, ShowsPublish, ShowsRefusal, ShowsCollection};
ghost use Rattle.epochs.specs.History.{IsHistory, HeldHaveImages, TableValue};
ghost use Rattle.epochs.specs.Pins.{HoldsAt, SeatAgrees, PinsCurrent, RefusesPin, ReleasesHeld, RefusesRelease};
ghost use Rattle.epochs.specs.Pins.{IsCurrent, IsDrop, IsLookAndTake, IsOffer};
ghost use Rattle.epochs.specs.Publishing.{TriesShelf, TriesClosing, SomeIsFree, MakesRoom, PublishesNext};
ghost use Rattle.epochs.specs.Publishing.{RefusesPublish, StaysCurrent};
ghost use Rattle.shelves.specs.declared.faults.PublishFault.{PublishFault};

use crate::seats::{LoaderSeat, WorkerSeat};
use image_verifier::Verified;
use shelf_steps::Edition;
use shelves::{Collected, LoaderAnswer, PinFault, PublishFault, SeatAnswer};
use std::alloc::{AllocError, Global};
use std::marker::Model;
use std::snapshot::Snapshot;
use std::sync::Arc;
use timetable::Trace;
use version_core::{Core, Event, Reply, Shelf, at_rest, every_run, holding, runs_in_parts};

/// Eight shelves with the editions on them, and the core that says which version is current and where the workers are.
#[derive(Drop)]
pub struct VersionTable {
    core: Core,
    editions: [Option<Edition>; 8],
    events: Trace<Event>,
    images: Trace<Verified>,
}

impl Model for VersionTable {
    ghost use Rattle.epochs.specs.History.{TableValue, IsHistory, AreShelved};

    ghost Value = { TableValue };

    ghost view = { λ t. record { state = t.core; events = t.events; images = t.images } };

    ghost invariant = { λ t. IsHistory t.core t.events t.images × AreShelved t.core.shelves t.editions t.images };
}

impl VersionTable {
    /// Creates a table with the image as version 1 on shelf 0. All workers are idle. A refusal returns the image.
    pub fn new(
        alloc: Global,
        first: Arc<Verified, Global>,
    ) -> Result<VersionTable, (Arc<Verified, Global>, AllocError)>
        ensures start { IfOk result (λ t. t ≡ record { state = start; events = []; images = arc_value first ∷ [] }) }
        ensures same { IfErr result (λ e. e.0 ≡ first) }
    {
        let core = match Core::new(alloc) {
            Ok(core) => core,
            Err(refused) => return Err((first, refused)),
        };
        let mut images = Trace::new();
        images.note(&*first);
        let first = Edition {
            version: 1,
            image: first,
        };
        Ok(VersionTable {
            core,
            editions: [Some(first), None, None, None, None, None, None, None],
            events: Trace::new(),
            images,
        })
    }

    /// Does nothing: its contract says what holds of every table, and so under every lock, whatever was done before.
    /// The events lead from the start to the state.
    pub fn history(&self)
        ensures history { IsHistory self.now.state self.now.events self.now.images }
        ensures kept { KeepsInvariants self.now.state }
        ensures held { HeldHaveImages self.now.state self.now.images }
    {
        every_run();
        let _ = self.core.current();
    }

    /// Lets the seat's worker look and take, so that the seat holds the current version. A refusal leaves the table as
    /// it was.
    pub fn pin(&mut self, seat: &mut WorkerSeat) -> Result<(), PinFault>
        ensures seat { ShowsPin seat.old.shown result seat.new.shown }
        ensures number { seat.new.number ≡ seat.old.number }
        ensures pinned { OnOk result (PinsCurrent self.old seat.old self.new seat.new) }
        ensures known { OnOk result (HoldsAt self.new seat.new.number seat.new.shown.held) }
        ensures refused { IfErr result (RefusesPin self.old.state seat.old) }
        ensures same { OnErr result ((self.new ≡ self.old) × (seat.new.worker ≡ seat.old.worker)) }
    {
        match self.offer(seat) {
            Ok((shelf, edition)) => {
                self.look_and_take(seat.number());
                self.history();
                seat.hold(shelf, edition);
                Ok(())
            }
            Err(fault) => {
                seat.note_answer(SeatAnswer::PinRefused { fault });
                Err(fault)
            }
        }
    }

    // The current shelf and its edition, if the seat may hold it.
    fn offer(&self, seat: &WorkerSeat) -> Result<(usize, Edition), PinFault>
        ensures offered { IfOk result (λ p. IsOffer self.now seat.now p.0 p.1.version (arc_value p.1.image)) }
        ensures refused { IfErr result (RefusesPin self.now.state seat.now) }
    {
        if seat.is_holding() {
            return Err(PinFault::AlreadyPinned);
        }
        if !self.fits(seat) {
            return Err(PinFault::SeatLost);
        }
        match self.current_edition() {
            Ok(offer) => Ok(offer),
            Err(_) => Err(PinFault::OutOfMemory),
        }
    }

    // Whether the seat and the core say the same of the seat's worker.
    fn fits(&self, seat: &WorkerSeat) -> bool
        ensures { MatchBool result (SeatAgrees self.now.state seat.now) (¬ (SeatAgrees self.now.state seat.now)) }
    {
        let number = seat.number();
        self.core.worker(number) == Some(seat.worker())
            && self.core.seen(number) == Some(seat.seen())
    }

    // The current shelf and its edition.
    fn current_edition(&self) -> Result<(usize, Edition), AllocError>
        ensures current { IfOk result (λ p. IsCurrent self.now p.0 p.1.version (arc_value p.1.image)) }
        ensures kept { KeepsInvariants self.now.state }
    {
        let (version, shelf) = self.core.current();
        let Some(edition) = &self.editions[shelf] else {
            unreachable!()
        };
        let image = Arc::try_clone(&edition.image)?;
        Ok((shelf, Edition { version, image }))
    }

    // Does nothing: its contract has the laws of a worker's events.
    fn laws(&self)
        ensures kept { KeepsInvariants self.now.state }
        ensures takes { LooksAndTakesHold }
        ensures drops { DropsLetGo }
        ensures grow { RunsGrow }
        ensures stays { RestStays }
    {
        holding();
        runs_in_parts();
        at_rest();
        let _ = self.core.current();
    }

    // The idle worker looks at the current version and takes it.
    fn look_and_take(&mut self, worker: usize)
        requires { IsIdle self.old.state worker }
        ensures { IsLookAndTake self.old worker self.new }
    {
        self.laws();
        let _looked = self.core.look(worker);
        self.events.note(&Event::Look { worker });
        let _held = self.core.take(worker);
        self.events.note(&Event::Take { worker });
    }

    /// Lets the seat's worker drop what the seat holds. If the core says something else of the worker than the seat
    /// does, the seat is emptied, and nothing else changes.
    pub fn release(&mut self, seat: &mut WorkerSeat) -> Result<(), PinFault>
        ensures seat { ShowsRelease seat.old.shown result seat.new.shown }
        ensures number { seat.new.number ≡ seat.old.number }
        ensures released { OnOk result (ReleasesHeld self.old seat.old self.new seat.new) }
        ensures refused { IfErr result (RefusesRelease self.old.state seat.old) }
        ensures same { OnErr result (self.new ≡ self.old) }
        ensures idle { seat.new.worker ≡ Worker.Idle }
    {
        if !seat.is_holding() {
            let fault = PinFault::NotPinned;
            seat.note_answer(SeatAnswer::ReleaseRefused { fault });
            return Err(fault);
        }
        if !self.fits(seat) {
            let fault = PinFault::SeatLost;
            seat.empty(SeatAnswer::ReleaseRefused { fault });
            return Err(fault);
        }
        self.leave(seat.number());
        seat.empty(SeatAnswer::Released);
        Ok(())
    }

    // The worker drops what it holds.
    fn leave(&mut self, worker: usize)
        requires { (k v : ℕ) × Holds self.old.state worker k v }
        ensures { IsDrop self.old worker self.new }
    {
        self.laws();
        let _dropped = self.core.leave(worker);
        self.events.note(&Event::Drop { worker });
    }

    /// Tries each closing shelf, and frees it if no worker is there.
    pub fn collect(&mut self, loader: &mut LoaderSeat) -> Collected
        ensures collected { TriesClosing self.old result self.new }
        ensures loader { ShowsCollection loader.old result loader.new }
    {
        self.history();
        let found = self.try_shelves();
        loader.note_answer(LoaderAnswer::Collected { found });
        found
    }

    fn try_shelves(&mut self) -> Collected
        ensures { TriesClosing self.old result self.new }
    {
        runs_in_parts();
        self.history();
        let mut found = Collected {
            freed: [false; 8],
            busy: [0; 8],
        };
        for shelf in 0..8 {
            let (freed, busy) = self.try_shelf(shelf);
            found.freed[shelf] = freed;
            found.busy[shelf] = busy;
        }
        found
    }

    // Frees the shelf if it is closing and no worker is there. Returns whether it did, and how many workers prevented
    // it.
    fn try_shelf(&mut self, shelf: usize) -> (bool, u8)
        requires { shelf < 8 }
        ensures { TriesShelf self.old shelf result.0 result.1 self.new }
    {
        if self.is_closing(shelf) {
            self.try_closing(shelf)
        } else {
            (false, 0)
        }
    }

    fn is_closing(&self, shelf: usize) -> bool
        ensures { MatchBool result ((v : ℕ) × IsClosing self.now.state shelf v) ((v : ℕ)
            → ¬ (IsClosing self.now.state shelf v)) }
    {
        match self.core.shelf(shelf) {
            Some(Shelf::Closing { version: _ }) => true,
            Some(Shelf::Free | Shelf::Open { .. }) | None => false,
        }
    }

    fn try_closing(&mut self, shelf: usize) -> (bool, u8)
        requires small { shelf < 8 }
        requires closing { (v : ℕ) × IsClosing self.old.state shelf v }
        ensures { TriesShelf self.old shelf result.0 result.1 self.new }
    {
        runs_in_parts();
        at_rest();
        let reply = self.core.collect(shelf);
        self.events.note(&Event::Collect { shelf });
        match reply {
            Reply::Freed => {
                self.editions[shelf] = None;
                (true, 0)
            }
            Reply::Busy { count } => (false, count),
            _ => unreachable!(),
        }
    }

    /// Publishes the image as the next version, on the least free shelf. If no shelf is free, each closing one is tried
    /// first. A refusal returns the image, and the current version stays.
    pub fn publish(
        &mut self,
        loader: &mut LoaderSeat,
        image: Arc<Verified, Global>,
    ) -> Result<u64, (Arc<Verified, Global>, PublishFault)>
        ensures published { IfOk result (λ v. (room : TableValue) × MakesRoom self.old room
            × PublishesNext room (arc_value image) v self.new) }
        ensures refused { IfErr result (λ e. RefusesPublish self.old e.1 self.new) }
        ensures back { IfErr result (λ e. e.0 ≡ image) }
        ensures same { OnErr result (StaysCurrent self.old self.new) }
        ensures loader { MatchResult result (λ v. ShowsPublish loader.old (arc_value image) v loader.new)
            (λ e. ShowsRefusal loader.old e.1 loader.new) }
    {
        self.history();
        let shown = Snapshot::of(&*image);
        match self.publish_next(image) {
            Ok(version) => {
                self.history();
                loader.note_answer(LoaderAnswer::Published {
                    version,
                    image: shown,
                });
                Ok(version)
            }
            Err((image, fault)) => {
                loader.note_answer(LoaderAnswer::PublishRefused { fault });
                Err((image, fault))
            }
        }
    }

    fn publish_next(
        &mut self,
        image: Arc<Verified, Global>,
    ) -> Result<u64, (Arc<Verified, Global>, PublishFault)>
        ensures published { IfOk result (λ v. (room : TableValue) × MakesRoom self.old room
            × PublishesNext room (arc_value image) v self.new) }
        ensures refused { IfErr result (λ e. RefusesPublish self.old e.1 self.new) }
        ensures back { IfErr result (λ e. e.0 ≡ image) }
    {
        if !self.may_open() {
            return Err((image, PublishFault::VersionsSpent));
        }
        if let Err(counts) = self.make_room() {
            return Err((image, PublishFault::ShelvesFull { counts }));
        }
        self.load(image)
    }

    // Whether a version is left.
    fn may_open(&self) -> bool
        ensures { MatchBool result (newest self.now.state < most_versions) (newest self.now.state ≡ most_versions) }
    {
        at_rest();
        let _ = self.core.current();
        self.core.may_open()
    }

    // Makes sure that a shelf is free, by a try at each closing one if none is. If none is free then either, returns
    // how many workers are at each closing one.
    fn make_room(&mut self) -> Result<(), [u8; 8]>
        requires { newest self.old.state < most_versions }
        ensures room { OnOk result (MakesRoom self.old self.new × SomeIsFree self.new.state) }
        ensures full { IfErr result (λ counts. RefusesPublish self.old (PublishFault.ShelvesFull counts) self.new) }
    {
        at_rest();
        self.history();
        if self.has_free() {
            return Ok(());
        }
        let found = self.try_shelves();
        if self.has_free() {
            Ok(())
        } else {
            Err(found.busy)
        }
    }

    fn has_free(&self) -> bool
        ensures { MatchBool result (SomeIsFree self.now.state) (¬ (SomeIsFree self.now.state)) }
    {
        match self.core.free_shelf() {
            Some(_) => true,
            None => false,
        }
    }

    fn load(
        &mut self,
        image: Arc<Verified, Global>,
    ) -> Result<u64, (Arc<Verified, Global>, PublishFault)>
        requires room { SomeIsFree self.old.state }
        requires left { newest self.old.state < most_versions }
        ensures published { IfOk result (λ v. PublishesNext self.old (arc_value image) v self.new) }
        ensures refused { IfErr result (λ e. (e.0 ≡ image) × (e.1 ≡ PublishFault.OutOfMemory) × (self.new ≡ self.old)) }
    {
        runs_in_parts();
        at_rest();
        // Nothing waits to be published, so the current version is the newest, and its number the next place.
        let (number, before) = self.core.current();
        let (version, shelf) = match self.core.open(number) {
            Ok(Reply::Opened { version, shelf }) => (version, shelf),
            Ok(_) => unreachable!(),
            Err(_) => return Err((image, PublishFault::OutOfMemory)),
        };
        let _published = self.core.publish();
        let _closing = self.core.close(before);
        self.events.note(&Event::Open { edition: number });
        self.events.note(&Event::Publish);
        self.events.note(&Event::Close { shelf: before });
        self.images.note(&*image);
        self.editions[shelf] = Some(Edition { version, image });
        Ok(version)
    }
}
