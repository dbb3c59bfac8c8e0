//! The table of versions, and what each event does to it.

ghost use Rattle.std.specs.Prelude.{◌≡◌, ℕ, ◌<◌, ◌≤◌, max, IfOk, OnErr, MatchBool, MatchOption, slice_get};
ghost use Rattle.std.specs.Prelude.{slice_index, Some};
ghost use Rattle.version_core.specs.State.{start, edition_of, looked, arrived, departed, joined};
ghost use Rattle.version_core.specs.Steps.{IsIdle, HasLooked, Holds, StaysAt, IsFree, IsOpen, IsClosing};
ghost use Rattle.version_core.specs.Steps.{IsUnpublished, IsOutdated, IsSettled, IsNoted};
ghost use Rattle.version_core.specs.Steps.{MayOpen, Grows, OpensLeast, Step, LookStep, TakeStep, DropStep};
ghost use Rattle.version_core.specs.Steps.{OpenStep, PublishStep, CloseStep, CollectStep};
ghost use Rattle.version_core.specs.Steps.{AskStep, NoteStep, JoinStep};
ghost use Rattle.version_core.specs.Invariants.{KeepsInvariants};
ghost use Rattle.version_core.specs.declared.event.Event.{Event};
ghost use Rattle.version_core.specs.declared.event.Reply.{Reply};
ghost use Rattle.version_core.specs.declared.state.Worker.{Worker};

use crate::event::{Event, Reply};
use crate::state::{MOST_VERSIONS, Shelf, Worker};
use std::alloc::{AllocError, Global};
use std::marker::Model;

/// The table: eight shelves, sixteen workers, the edition of each version, and the versions whose notices are out.
///
/// Each event is a method of its own as well as a case of `step`.
#[derive(Drop)]
pub struct Core {
    current: u64,
    current_shelf: usize,
    shelves: [Shelf; 8],
    counts: [u8; 8],
    workers: [Worker; 16],
    seen: [u64; 16],
    editions: Vec<u64>,
    notices: Vec<u64>,
}

impl Model for Core {
    ghost use Rattle.version_core.specs.State.{State};
    ghost use Rattle.version_core.specs.Invariants.{KeepsInvariants};

    ghost Value = { State };

    ghost view = { λ c. record {
      current = c.current;
      current_shelf = c.current_shelf;
      shelves = c.shelves;
      counts =
          c.counts;
      workers = c.workers;
      seen = c.seen;
      editions = c.editions.items;
      notices = c.notices.items;
    } };

    ghost invariant = { λ c. KeepsInvariants (record {
      current = c.current;
      current_shelf = c.current_shelf;
      shelves =
          c.shelves;
      counts = c.counts;
      workers = c.workers;
      seen = c.seen;
      editions = c.editions.items;
      notices =
          c.notices.items;
    }) };
}

impl Core {
    /// Creates the table at its start: version 1, with edition 0, is current on shelf 0, and all workers are idle.
    pub fn new(alloc: Global) -> Result<Core, AllocError>
        ensures { IfOk result (λ core. core ≡ start) }
    {
        let mut editions = Vec::new(alloc);
        editions.push(0)?;
        let mut shelves = [Shelf::Free; 8];
        shelves[0] = Shelf::Open { version: 1 };
        Ok(Core {
            current: 1,
            current_shelf: 0,
            shelves,
            counts: [0; 8],
            workers: [Worker::Idle; 16],
            seen: [0; 16],
            editions,
            notices: Vec::new(alloc),
        })
    }

    /// Takes one event, and returns the reply. Only the opening of a version and a notice need memory; if it is
    /// refused, nothing changes.
    pub fn step(&mut self, event: Event) -> Result<Reply, AllocError>
        ensures step { IfOk result (λ reply. Step self.old event reply self.new) }
        ensures least { IfOk result (OpensLeast self.old event) }
        ensures memory { OnErr result (Grows self.old event) }
        ensures same { OnErr result (self.new ≡ self.old) }
    {
        match event {
            Event::Look { worker } => Ok(self.look(worker)),
            Event::Take { worker } => Ok(self.take(worker)),
            Event::Drop { worker } => Ok(self.leave(worker)),
            Event::Open { edition } => self.open(edition),
            Event::Publish => Ok(self.publish()),
            Event::Close { shelf } => Ok(self.close(shelf)),
            Event::Collect { shelf } => Ok(self.collect(shelf)),
            Event::Ask { worker } => Ok(self.ask(worker)),
            Event::Note => self.note(),
            Event::Join { worker, version } => Ok(self.join(worker, version)),
        }
    }

    /// The current version and its shelf.
    pub fn current(&self) -> (u64, usize)
        ensures version { result.0 ≡ self.now.current }
        ensures shelf { result.1 ≡ self.now.current_shelf }
        ensures kept { KeepsInvariants self.now }
    {
        (self.current, self.current_shelf)
    }

    /// The greatest version that the worker has seen, 0 before it has seen any; `None` if there is no such worker.
    pub fn seen(&self, worker: usize) -> Option<u64>
        ensures { result ≡ slice_get self.now.seen worker }
    {
        self.seen.get(worker).copied()
    }

    /// What the worker is doing; `None` if there is no such worker.
    pub fn worker(&self, worker: usize) -> Option<Worker>
        ensures { result ≡ slice_get self.now.workers worker }
    {
        self.workers.get(worker).copied()
    }

    /// What the shelf is for; `None` if there is no such shelf.
    pub fn shelf(&self, shelf: usize) -> Option<Shelf>
        ensures { result ≡ slice_get self.now.shelves shelf }
    {
        self.shelves.get(shelf).copied()
    }

    /// Lets an idle worker look at the current version: the event `Look`.
    pub fn look(&mut self, worker: usize) -> Reply
        ensures { LookStep self.old worker result self.new }
    {
        if self.is_idle(worker) {
            self.mark_looked(worker)
        } else {
            Reply::NotNow
        }
    }

    fn is_idle(&self, worker: usize) -> bool
        ensures { MatchBool result (IsIdle self.now worker) (¬ (IsIdle self.now worker)) }
    {
        match self.worker(worker) {
            Some(Worker::Idle) => true,
            Some(Worker::Looked { .. } | Worker::Late { .. } | Worker::Holding { .. }) | None => {
                false
            }
        }
    }

    fn mark_looked(&mut self, worker: usize) -> Reply
        requires { IsIdle self.old worker }
        ensures reply { result ≡ Reply.Looked self.old.current self.old.current_shelf }
        ensures state { self.new ≡ looked self.old worker }
    {
        let (version, shelf) = (self.current, self.current_shelf);
        self.workers[worker] = Worker::Looked { version, shelf };
        self.seen[worker] = version;
        Reply::Looked { version, shelf }
    }

    /// Lets a worker that has looked take the shelf that it saw: the event `Take`. The worker holds the version if that
    /// is still open there; otherwise it is late.
    pub fn take(&mut self, worker: usize) -> Reply
        ensures { TakeStep self.old worker result self.new }
    {
        let Some((version, shelf)) = self.looked_at(worker) else {
            return Reply::NotNow;
        };
        if self.is_open_with(shelf, version) {
            self.arrive_in_time(worker, version, shelf);
            Reply::Holds { version }
        } else {
            self.arrive_late(worker, shelf);
            Reply::Late
        }
    }

    // The version that the worker looked at, and its shelf.
    fn looked_at(&self, worker: usize) -> Option<(u64, usize)>
        ensures { MatchOption result ((v k : ℕ)
            → ¬ (HasLooked self.now worker v k)) (λ at. HasLooked self.now worker at.0 at.1) }
    {
        match self.worker(worker) {
            Some(Worker::Looked { version, shelf }) => Some((version, shelf)),
            Some(Worker::Idle | Worker::Late { .. } | Worker::Holding { .. }) | None => None,
        }
    }

    fn is_open_with(&self, shelf: usize, version: u64) -> bool
        ensures { MatchBool result (IsOpen self.now shelf version) (¬ (IsOpen self.now shelf version)) }
    {
        match self.shelf(shelf) {
            Some(Shelf::Open { version: open }) => open == version,
            Some(Shelf::Free | Shelf::Closing { .. }) | None => false,
        }
    }

    fn arrive_in_time(&mut self, worker: usize, version: u64, shelf: usize)
        requires looked { HasLooked self.old worker version shelf }
        requires open { IsOpen self.old shelf version }
        ensures { self.new ≡ arrived self.old worker shelf (Worker.Holding shelf version) }
    {
        self.counts[shelf] += 1;
        self.workers[worker] = Worker::Holding { shelf, version };
    }

    fn arrive_late(&mut self, worker: usize, shelf: usize)
        requires { (v : ℕ) × HasLooked self.old worker v shelf × (¬ (IsOpen self.old shelf v)) }
        ensures { self.new ≡ arrived self.old worker shelf (Worker.Late shelf) }
    {
        self.counts[shelf] += 1;
        self.workers[worker] = Worker::Late { shelf };
    }

    /// Lets a worker leave the shelf that it holds, or at which it is late: the event `Drop`.
    pub fn leave(&mut self, worker: usize) -> Reply
        ensures { DropStep self.old worker result self.new }
    {
        let Some(shelf) = self.shelf_of(worker) else {
            return Reply::NotNow;
        };
        self.depart(worker, shelf);
        Reply::Dropped
    }

    // The shelf that the worker holds, or at which it is late.
    fn shelf_of(&self, worker: usize) -> Option<usize>
        ensures { MatchOption result ((k : ℕ) → ¬ (StaysAt self.now worker k)) (λ k. StaysAt self.now worker k) }
    {
        match self.worker(worker) {
            Some(Worker::Late { shelf }) => Some(shelf),
            Some(Worker::Holding { shelf, version: _ }) => Some(shelf),
            Some(Worker::Idle | Worker::Looked { .. }) | None => None,
        }
    }

    fn depart(&mut self, worker: usize, shelf: usize)
        requires { StaysAt self.old worker shelf }
        ensures { self.new ≡ departed self.old worker shelf }
    {
        self.counts[shelf] -= 1;
        self.workers[worker] = Worker::Idle;
    }

    /// Opens the least free shelf with an edition, as the next version. If memory is refused, nothing changes.
    pub fn open(&mut self, edition: u64) -> Result<Reply, AllocError>
        ensures step { IfOk result (λ reply. OpenStep self.old edition reply self.new) }
        ensures least { IfOk result (OpensLeast self.old (Event.Open edition)) }
        ensures memory { OnErr result (Grows self.old (Event.Open edition)) }
        ensures same { OnErr result (self.new ≡ self.old) }
    {
        if !self.may_open() {
            return Ok(Reply::NotNow);
        }
        let Some(shelf) = self.free_shelf() else {
            return Ok(Reply::NoRoom {
                counts: self.counts,
            });
        };
        let version = self.editions.len() as u64 + 1;
        self.editions.push(edition)?;
        self.shelves[shelf] = Shelf::Open { version };
        Ok(Reply::Opened { version, shelf })
    }

    /// Whether a version may be opened once a shelf is free: none is open and unpublished, and a version number is
    /// left.
    pub fn may_open(&self) -> bool
        ensures { MatchBool result (MayOpen self.now) (¬ (MayOpen self.now)) }
    {
        // If nothing waits to be published, the newest version is the current one.
        let newest = self.editions.len() as u64;
        newest == self.current && newest < MOST_VERSIONS
    }

    /// The least free shelf: the one that the next version is opened on.
    pub fn free_shelf(&self) -> Option<usize>
        ensures { MatchOption result ((k : ℕ)
            → ¬ (IsFree self.now k)) (λ k. IsFree self.now k × ((j : ℕ) → j < k → ¬ (IsFree self.now j))) }
    {
        // This reads a field so that the proof knows the invariant of the struct; it does nothing.
        let _ = &self.current;
        for k in 0..8 {
            if self.is_free(k) {
                return Some(k);
            }
        }
        None
    }

    fn is_free(&self, shelf: usize) -> bool
        ensures { MatchBool result (IsFree self.now shelf) (¬ (IsFree self.now shelf)) }
    {
        match self.shelf(shelf) {
            Some(Shelf::Free) => true,
            Some(Shelf::Open { .. } | Shelf::Closing { .. }) | None => false,
        }
    }

    /// Makes the version that is open and unpublished the current one.
    pub fn publish(&mut self) -> Reply
        ensures { PublishStep self.old result self.new }
    {
        let Some((shelf, version)) = self.unpublished() else {
            return Reply::NotNow;
        };
        self.current = version;
        self.current_shelf = shelf;
        Reply::Published { version }
    }

    // The shelf with the unpublished version, and that version.
    fn unpublished(&self) -> Option<(usize, u64)>
        ensures { MatchOption result ((k v : ℕ)
            → ¬ (IsUnpublished self.now k v)) (λ at. IsUnpublished self.now at.0 at.1) }
    {
        let _ = &self.current;
        for k in 0..8 {
            if let Some(version) = self.unpublished_on(k) {
                return Some((k, version));
            }
        }
        None
    }

    fn unpublished_on(&self, shelf: usize) -> Option<u64>
        ensures { MatchOption result ((v : ℕ)
            → ¬ (IsUnpublished self.now shelf v)) (λ v. IsUnpublished self.now shelf v) }
    {
        let version = self.open_on(shelf)?;
        if version > self.current {
            Some(version)
        } else {
            None
        }
    }

    fn open_on(&self, shelf: usize) -> Option<u64>
        ensures { MatchOption result ((v : ℕ) → ¬ (IsOpen self.now shelf v)) (λ v. IsOpen self.now shelf v) }
    {
        match self.shelf(shelf) {
            Some(Shelf::Open { version }) => Some(version),
            Some(Shelf::Free | Shelf::Closing { .. }) | None => None,
        }
    }

    /// Closes an open shelf whose version is neither current nor unpublished.
    pub fn close(&mut self, shelf: usize) -> Reply
        ensures { CloseStep self.old shelf result self.new }
    {
        let Some(version) = self.outdated_on(shelf) else {
            return Reply::NotNow;
        };
        self.shelves[shelf] = Shelf::Closing { version };
        Reply::Closing
    }

    fn outdated_on(&self, shelf: usize) -> Option<u64>
        ensures { MatchOption result ((v : ℕ) → ¬ (IsOutdated self.now shelf v)) (λ v. IsOutdated self.now shelf v) }
    {
        let version = self.open_on(shelf)?;
        if version < self.current {
            Some(version)
        } else {
            None
        }
    }

    /// Frees a closing shelf, if no worker is there.
    pub fn collect(&mut self, shelf: usize) -> Reply
        ensures { CollectStep self.old shelf result self.new }
    {
        if !self.is_closing(shelf) {
            return Reply::NotNow;
        }
        let count = self.counts[shelf];
        if count > 0 {
            return Reply::Busy { count };
        }
        self.shelves[shelf] = Shelf::Free;
        Reply::Freed
    }

    fn is_closing(&self, shelf: usize) -> bool
        ensures { MatchBool result ((v : ℕ) × IsClosing self.now shelf v) ((v : ℕ) → ¬ (IsClosing self.now shelf v)) }
    {
        match self.shelf(shelf) {
            Some(Shelf::Closing { version: _ }) => true,
            Some(Shelf::Free | Shelf::Open { .. }) | None => false,
        }
    }

    /// The version and the edition that the worker holds.
    pub fn ask(&self, worker: usize) -> Reply
        ensures { AskStep self.now worker result self.now }
    {
        let Some(version) = self.held_by(worker) else {
            return Reply::NotNow;
        };
        let edition = self.edition(version);
        Reply::From { version, edition }
    }

    fn held_by(&self, worker: usize) -> Option<u64>
        ensures { MatchOption result ((k v : ℕ)
            → ¬ (Holds self.now worker k v)) (λ v. (k : ℕ) × Holds self.now worker k v) }
    {
        match self.worker(worker) {
            Some(Worker::Holding { shelf: _, version }) => Some(version),
            Some(Worker::Idle | Worker::Looked { .. } | Worker::Late { .. }) | None => None,
        }
    }

    fn edition(&self, version: u64) -> u64
        requires { (w k : ℕ) × Holds self.now w k version }
        ensures { edition_of self.now.editions version ≡ Some result }
    {
        self.editions[version as usize - 1]
    }

    /// Sends out a notice of the current version. If memory is refused, nothing changes.
    pub fn note(&mut self) -> Result<Reply, AllocError>
        ensures step { IfOk result (λ reply. NoteStep self.old reply self.new) }
        ensures same { OnErr result (self.new ≡ self.old) }
    {
        let version = self.current;
        self.notices.push(version)?;
        Ok(Reply::Noted { version })
    }

    /// Lets a worker that is idle or holds a version take in a notice of this version, if one is out.
    pub fn join(&mut self, worker: usize, version: u64) -> Reply
        ensures { JoinStep self.old worker version result self.new }
    {
        if !self.is_settled(worker) {
            return Reply::NotNow;
        }
        match self.notice_of(version) {
            Some(index) => self.take_in(worker, version, index),
            None => Reply::NotNow,
        }
    }

    fn is_settled(&self, worker: usize) -> bool
        ensures { MatchBool result (IsSettled self.now worker) (¬ (IsSettled self.now worker)) }
    {
        match self.worker(worker) {
            Some(Worker::Idle | Worker::Holding { .. }) => true,
            Some(Worker::Looked { .. } | Worker::Late { .. }) | None => false,
        }
    }

    // The place of the first notice of the version.
    fn notice_of(&self, version: u64) -> Option<usize>
        ensures { MatchOption result (¬ (IsNoted self.now version)) (λ index. slice_get self.now.notices index
            ≡ Some version) }
    {
        let _ = &self.current;
        for index in 0..self.notices.len() {
            if self.notices[index] == version {
                return Some(index);
            }
        }
        None
    }

    fn take_in(&mut self, worker: usize, version: u64, index: usize) -> Reply
        requires settled { IsSettled self.old worker }
        requires there { slice_get self.old.notices index ≡ Some version }
        ensures reply { result ≡ Reply.Joined (max (slice_index self.old.seen worker) version) }
        ensures state { self.new ≡ joined self.old worker version index }
    {
        let _ = &self.current;
        let seen = greater(self.seen[worker], version);
        self.notices.remove(index);
        self.seen[worker] = seen;
        Reply::Joined { seen }
    }
}

fn greater(a: u64, b: u64) -> u64
    ensures { result ≡ max a b }
{
    if a < b { b } else { a }
}
