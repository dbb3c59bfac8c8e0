//! The seats from which workers pin versions without a lock.

ghost use Rattle.std.specs.Prelude.{◌≡◌, ◌<◌, [], None, Some, MatchOption};
ghost use Rattle.std.specs.Arc.{arc_value};
ghost use Rattle.shelf_steps.specs.Plays.{newcomer};
ghost use Rattle.shelf_steps.specs.declared.views.View.{View};
ghost use Rattle.shelves.specs.SeatHistory.{HoldsAsKnown};
ghost use Rattle.shelf_steps.specs.Events.{known_of};
ghost use Rattle.shelves.specs.ShelfSeats.{PinsSeat, ReleasesSeat, JoinsSeat, ShowsWhatItKnows, new_seat};

use crate::answers::SeatAnswer;
use crate::faults::PinFault;
use crate::notice::Notice;
use shelf_steps::{Edition, ShelfTable, TableSeat, join, pin, release};
use std::marker::Model;
use std::snapshot::Snapshot;
use timetable::Trace;

/// A worker's seat at shelves without a lock. While it holds a version, its edition lies here and not in a slot.
#[derive(Drop)]
pub struct ShelfSeat {
    table_seat: TableSeat,
    number: usize,
    held: Option<(usize, Edition)>,
    answers: Trace<SeatAnswer>,
}

impl Model for ShelfSeat {
    ghost use Rattle.std.specs.Prelude.{◌<◌};
    ghost use Rattle.shelves.specs.ShelfSeats.{ShelfSeatValue, FitsSeat, slots_of, held_at, seen_of};

    ghost Value = { ShelfSeatValue };

    ghost view = { λ s. record {
      table = s.table_seat.table;
      number = s.number;
      view = s.table_seat.me.0;
      slots = slots_of s.table_seat.me;
      shown =
          record { answers = s.answers; held = held_at s.held; seen = seen_of s.table_seat.me.0 };
    } };

    ghost invariant = { λ s. (s.number < 16) × FitsSeat s.number s.held s.table_seat.me };
}

impl ShelfSeat {
    /// The seat of a worker that has done nothing.
    pub(crate) fn idle(table_seat: TableSeat, number: usize) -> ShelfSeat
        requires { (number < 16) × (table_seat.me ≡ (View.Working (newcomer number), [])) }
        ensures { result ≡ new_seat table_seat.table number }
    {
        ShelfSeat {
            table_seat,
            number,
            held: None,
            answers: Trace::new(),
        }
    }

    /// The number of the seat's worker, from 0 to 15.
    pub fn number(&self) -> usize
        ensures { result ≡ self.now.number }
    {
        self.number
    }

    /// Does nothing: its contract is the law that the seat shows what it knows, whatever was done with it. Its worker
    /// holds what the seat shows as held, and the slot of that is out with the seat.
    pub fn shows_what_it_knows(&self)
        ensures { ShowsWhatItKnows self.now }
    {
        let _ = &self.number;
    }

    /// The version that the seat holds, with its image.
    pub fn edition(&self) -> Option<&Edition>
        ensures lent { MatchOption result (self.now.shown.held ≡ None) (λ e. self.now.shown.held
            ≡ Some (e.now.version, arc_value e.now.image)) }
        ensures known { HoldsAsKnown (known_of self.now.view) self.now.number self.now.shown.held }
    {
        match &self.held {
            Some(held) => Some(&held.1),
            None => None,
        }
    }

    // Looks and takes, at most four times.
    pub(crate) fn pin_at(&mut self, shelves: &ShelfTable) -> Result<(), PinFault>
        requires { self.old.table ≡ shelves.now }
        ensures { PinsSeat self.old result self.new }
    {
        if self.held.is_some() {
            let fault = PinFault::AlreadyPinned;
            self.answers.note(&SeatAnswer::PinRefused { fault });
            return Err(PinFault::AlreadyPinned);
        }
        match pin(shelves, &mut self.table_seat, self.number) {
            Ok((shelf, edition)) => {
                let image = Snapshot::of(&*edition.image);
                let version = edition.version;
                self.answers.note(&SeatAnswer::Pinned { version, image });
                self.held = Some((shelf, edition));
                Ok(())
            }
            Err(newest) => {
                let fault = PinFault::Moved { newest };
                self.answers.note(&SeatAnswer::PinRefused { fault });
                Err(PinFault::Moved { newest })
            }
        }
    }

    // Drops what is held.
    pub(crate) fn release_at(&mut self, shelves: &ShelfTable) -> Result<(), PinFault>
        requires { self.old.table ≡ shelves.now }
        ensures { ReleasesSeat self.old result self.new }
    {
        match self.held.take() {
            Some((shelf, edition)) => {
                release(shelves, &mut self.table_seat, self.number, shelf, edition);
                self.answers.note(&SeatAnswer::Released);
                Ok(())
            }
            None => {
                let fault = PinFault::NotPinned;
                self.answers.note(&SeatAnswer::ReleaseRefused { fault });
                Err(PinFault::NotPinned)
            }
        }
    }

    // Takes in a notice: the seat has seen its version.
    pub(crate) fn join_at(&mut self, shelves: &ShelfTable, notice: Notice)
        requires { (self.old.table ≡ shelves.now) × (notice.table ≡ shelves.now) }
        ensures { JoinsSeat self.old notice.version self.new }
    {
        let _ = &self.number;
        join(shelves, &mut self.table_seat, notice.into_seat());
    }
}
