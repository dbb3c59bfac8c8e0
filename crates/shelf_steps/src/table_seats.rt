//! The table of words and slots, and the seats at it, closed to all steps but those of this crate.
ghost use Rattle.std.specs.Prelude.{◌≡◌, ◌<◌, ◌∷◌, Option};
ghost use Rattle.atomic_table.specs.Table.{rest, turned};
ghost use Rattle.shelf_steps.specs.declared.edition.Edition.{Edition};

use crate::edition::Edition;
use crate::rule::ShelfRule;
use crate::views::View;
use atomic_table::{Seat, Table};
use image_verifier::Verified;
use std::alloc::Global;
use std::marker::Model;
use std::sync::Arc;

/// Nine words and 128 slots, for which the rule of the shelves holds between any two steps. Contracts see which table
/// it is.
#[derive(Drop)]
pub struct ShelfTable {
    pub(crate) table: Table<Option<Edition>, View, Arc<Verified, Global>, ShelfRule, Global>,
}

impl Model for ShelfTable {
    ghost use Rattle.std.specs.Prelude.{◌≡◌};
    ghost use Rattle.atomic_table.specs.Seated.{TableId};

    ghost Value = { TableId };

    ghost view = { λ t. t.table.shared.table_id };

    ghost invariant = { λ t. (t.table.shared.table_id.words ≡ 9) × (t.table.shared.table_id.slots ≡ 128) };
}

impl ShelfTable {
    /// The word as it is found: word 0 has the current version, and each word from 1 on a shelf. Contracts learn
    /// nothing from it.
    pub fn word(&self, word: usize) -> u64
        requires { word < 9 }
    {
        self.table.shared.peek(word)
    }
}

/// A seat at a table. Contracts see the table, what the seat knows, and the slots that are out with it.
#[derive(Drop)]
pub struct TableSeat {
    pub(crate) seat: Seat<Option<Edition>, View>,
}

impl Model for TableSeat {
    ghost use Rattle.shelf_steps.specs.Plays.{TableSeatValue};

    ghost Value = { TableSeatValue };

    ghost view = { λ p. record { table = p.seat.table_id; me = p.seat.me } };
}

impl TableSeat {
    /// Puts an edition, or none, into the slot at the front of those that are out with this seat, and returns what was
    /// there.
    pub fn swap_edition(
        &mut self,
        shelves: &ShelfTable,
        slot: usize,
        edition: Option<Edition>,
    ) -> Option<Edition>
        requires table { self.old.table ≡ shelves.now }
        requires front { (was : Option Edition) × (self.old.me.1 ≡ (slot, was) ∷ rest self.old.me.1) }
        ensures table { self.new.table ≡ self.old.table }
        ensures was { self.old.me.1 ≡ (slot, result) ∷ rest self.old.me.1 }
        ensures is { self.new.me ≡ (self.old.me.0, (slot, edition) ∷ rest self.old.me.1) }
    {
        shelves.table.shared.exchange(&mut self.seat, slot, edition)
    }

    /// Moves the slot at the front behind the others.
    pub fn turn(&mut self)
        ensures table { self.new.table ≡ self.old.table }
        ensures turned { self.new.me ≡ (self.old.me.0, turned self.old.me.1) }
    {
        self.seat.turn()
    }
}
