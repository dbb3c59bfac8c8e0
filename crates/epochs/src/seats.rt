//! The seats from which workers pin versions and a loader publishes them, under one lock.

ghost use Rattle.std.specs.Prelude.{◌≡◌, ◌≢◌, ◌≤◌, Ok, Err, None, Some, MatchOption, MatchBool};
ghost use Rattle.std.specs.Arc.{arc_value};
ghost use Rattle.version_core.specs.declared.state.Worker.{Worker};
ghost use Rattle.shelves.specs.Seats.{ShowsPin, with_answer, emptied};
ghost use Rattle.epochs.specs.WorkerSeats.{IsHolding, IsEmpty, idle_seat};

use image_verifier::Verified;
use shelf_steps::Edition;
use shelves::{LoaderAnswer, SeatAnswer};
use std::marker::Model;
use std::snapshot::Snapshot;
use timetable::Trace;
use version_core::Worker;

// The edition that a seat holds, and its shelf.
#[derive(Drop)]
struct Pin {
    shelf: usize,
    edition: Edition,
}

/// A worker's seat at shelves under one lock: the worker's number, what it is doing, and the greatest version that it
/// has seen.
#[derive(Drop)]
pub struct WorkerSeat {
    number: usize,
    seen: u64,
    held: Option<Pin>,
    answers: Trace<SeatAnswer>,
}

impl Model for WorkerSeat {
    ghost use Rattle.epochs.specs.WorkerSeats.{WorkerSeatValue, worker_of, held_of};

    ghost Value = { WorkerSeatValue };

    ghost view = { λ s. record {
      number = s.number;
      worker = worker_of s.held;
      shown =
          record { answers = s.answers; held = held_of s.held; seen = s.seen };
    } };
}

impl WorkerSeat {
    /// The seat of an idle worker that has seen nothing.
    pub(crate) fn idle(number: usize) -> WorkerSeat
        ensures { result ≡ idle_seat number }
    {
        WorkerSeat {
            number,
            seen: 0,
            held: None,
            answers: Trace::new(),
        }
    }

    /// The number of the seat's worker, from 0 to 15.
    pub fn number(&self) -> usize
        ensures { result ≡ self.now.number }
    {
        self.number
    }

    /// The greatest version that the seat has seen: 0 before its first pin.
    pub fn seen(&self) -> u64
        ensures { result ≡ self.now.shown.seen }
    {
        self.seen
    }

    /// The version that the seat holds, with its image.
    pub fn edition(&self) -> Option<&Edition>
        ensures { MatchOption result (self.now.shown.held ≡ None) (λ e. self.now.shown.held ≡ Some (
          e.now.version,
          arc_value e.now.image,
        )) }
    {
        match &self.held {
            Some(pin) => Some(&pin.edition),
            None => None,
        }
    }

    /// Whether the seat holds a version.
    pub fn is_holding(&self) -> bool
        ensures { MatchBool result (IsHolding self.now) (IsEmpty self.now) }
    {
        match &self.held {
            Some(_) => true,
            None => false,
        }
    }

    // What the seat says that its worker is doing.
    pub(crate) fn worker(&self) -> Worker
        ensures { result ≡ self.now.worker }
    {
        match &self.held {
            Some(pin) => Worker::Holding {
                shelf: pin.shelf,
                version: pin.edition.version,
            },
            None => Worker::Idle,
        }
    }

    // Makes the seat hold the edition on this shelf.
    pub(crate) fn hold(&mut self, shelf: usize, edition: Edition)
        requires empty { self.old.shown.held ≡ None }
        requires newer { self.old.shown.seen ≤ edition.version }
        ensures number { self.new.number ≡ self.old.number }
        ensures worker { self.new.worker ≡ Worker.Holding shelf edition.version }
        ensures held { self.new.shown.held ≡ Some (edition.version, arc_value edition.image) }
        ensures seen { self.new.shown.seen ≡ edition.version }
        ensures pin { ShowsPin self.old.shown (Ok tt) self.new.shown }
    {
        let image = Snapshot::of(&*edition.image);
        self.answers.note(&SeatAnswer::Pinned {
            version: edition.version,
            image,
        });
        self.seen = edition.version;
        self.held = Some(Pin { shelf, edition });
    }

    // Notes an answer; nothing else changes.
    pub(crate) fn note_answer(&mut self, answer: SeatAnswer)
        ensures { self.new ≡ record self.old { shown = with_answer self.old.shown answer } }
    {
        self.answers.note(&answer);
    }

    // Notes an answer, after which the seat holds nothing.
    pub(crate) fn empty(&mut self, answer: SeatAnswer)
        ensures { self.new ≡ record self.old { worker = Worker.Idle; shown = emptied self.old.shown answer } }
    {
        self.answers.note(&answer);
        self.held = None;
    }
}

/// The loader's seat at shelves under one lock. Contracts see what it was answered so far.
#[derive(Drop)]
pub struct LoaderSeat {
    answers: Trace<LoaderAnswer>,
}

impl Model for LoaderSeat {
    ghost use Rattle.std.specs.Prelude.{List};
    ghost use Rattle.shelves.specs.declared.answers.LoaderAnswer.{LoaderAnswer};

    ghost Value = { List LoaderAnswer };

    ghost view = { λ s. s.answers };
}

impl LoaderSeat {
    ghost use Rattle.std.specs.Prelude.{◌++◌, ◌∷◌, []};

    pub(crate) fn new() -> LoaderSeat
        ensures { result ≡ [] }
    {
        LoaderSeat {
            answers: Trace::new(),
        }
    }

    pub(crate) fn note_answer(&mut self, answer: LoaderAnswer)
        ensures { self.new ≡ self.old ++ answer ∷ [] }
    {
        self.answers.note(&answer);
    }
}
