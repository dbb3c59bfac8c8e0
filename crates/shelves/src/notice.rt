//! Notices of versions that were published.

ghost use Rattle.std.specs.Prelude.{◌≡◌};
ghost use Rattle.shelf_steps.specs.Plays.{IsNotice};

use shelf_steps::TableSeat;
use std::marker::Model;

/// The fact that a version was published at some shelves. Contracts see which shelves, and the version.
#[derive(Drop)]
pub struct Notice {
    table_seat: TableSeat,
    version: u64,
}

impl Model for Notice {
    ghost use Rattle.shelf_steps.specs.Plays.{IsNotice};
    ghost use Rattle.shelves.specs.ShelfSeats.{NoticeValue};

    ghost Value = { NoticeValue };

    ghost view = { λ s. record { table = s.table_seat.table; version = s.version } };

    ghost invariant = { λ s. IsNotice s.version s.table_seat.me };
}

impl Notice {
    pub(crate) fn of(table_seat: TableSeat, version: u64) -> Notice
        requires { IsNotice version table_seat.me }
        ensures { result ≡ record { table = table_seat.table; version = version } }
    {
        Notice {
            table_seat,
            version,
        }
    }

    /// The version that was published.
    pub fn version(&self) -> u64
        ensures { result ≡ self.now.version }
    {
        self.version
    }

    pub(crate) fn into_seat(self) -> TableSeat
        ensures { (result.table ≡ self.table) × IsNotice self.version result.me }
    {
        self.table_seat
    }
}
