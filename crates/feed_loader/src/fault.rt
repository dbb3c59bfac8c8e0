//! Why a feed isn't loaded.

ghost use Rattle.std.specs.Prelude.{◌≡◌};
ghost use Rattle.feed_loader.specs.Faults.{out_of_memory as out_of_memory_of, too_many as too_many_of};

use connections::{OutOfRange, RunsFault};
use feed_files::ReadFault;
use footpaths::FootFault;
use gtfs_tables::{FaultKind, Table, TableFault};
use image_verifier::ImageFault;
use service_days::DayFault;
use thiserror::Error;

/// Why a feed isn't loaded: the first thing that is wrong, or memory that ran out.
///
/// Its text has the number and the name of the fault, and for a table's fault the file and the number of the record (0
/// for the whole file), with spaces between them: `8 IdTwice stops.txt 3`. A file that can't be read has no record:
/// `101 FileFailed trips.txt`.
#[derive(Clone, Copy, Debug, PartialEq, Eq, Error)]
pub enum LoadFault {
    /// A file is refused, there are too many stops, runs or connections, or too long names, or memory ran out (17).
    #[error("{} {} {} {}", self.number(), self.name(), .0.file.file_name(), .0.row)]
    Table(TableFault),
    /// Memory ran out for the days. A plan has a zone already, so no load refuses one.
    #[error("{} {}", self.number(), self.name())]
    Day(DayFault),
    /// A day has no start, or a run has a time out of range.
    #[error("{} {}", self.number(), self.name())]
    Range(OutOfRange),
    /// The closure has too many footpaths, or one that takes too long.
    #[error("{} {}", self.number(), self.name())]
    Footpaths(FootFault),
    /// Memory ran out while the image was verified.
    #[error("{} {}", self.number(), self.name())]
    Image(ImageFault),
    /// A file can't be read.
    #[error("{} {} {}", self.number(), self.name(), .0.file_name())]
    FileFailed(Table),
}

impl LoadFault {
    ghost use Rattle.std.specs.Prelude.{◌≡◌, MatchBool};
    ghost use Rattle.feed_loader.specs.Faults.{fault_name, fault_number};
    ghost use Rattle.feed_loader.specs.Refused.{IsWantOfMemory};

    /// Returns the number of the fault: that of the fault within, or 101 for a file that can't be read.
    pub fn number(self) -> u8
        ensures { result ≡ fault_number self }
    {
        match self {
            LoadFault::Table(fault) => fault.kind.number(),
            LoadFault::Day(fault) => fault.number(),
            LoadFault::Range(_) => DayFault::DayOutOfRange.number(),
            LoadFault::Footpaths(fault) => fault.number(),
            LoadFault::Image(fault) => fault.number(),
            LoadFault::FileFailed(_) => 101,
        }
    }

    /// Returns the name of the fault, such as `FileFailed`.
    pub fn name(self) -> &'static str
        ensures { result.now ≡ fault_name self }
    {
        match self {
            LoadFault::Table(fault) => fault.kind.name(),
            LoadFault::Day(fault) => fault.name(),
            LoadFault::Range(_) => DayFault::DayOutOfRange.name(),
            LoadFault::Footpaths(fault) => fault.name(),
            LoadFault::Image(fault) => fault.name(),
            LoadFault::FileFailed(_) => "FileFailed",
        }
    }

    /// Returns whether memory ran out.
    pub fn is_want_of_memory(self) -> bool
        ensures { MatchBool result (IsWantOfMemory self) (¬ (IsWantOfMemory self)) }
    {
        match self {
            LoadFault::Table(fault) => fault.kind == FaultKind::OutOfMemory,
            LoadFault::Day(fault) => fault == DayFault::OutOfMemory,
            LoadFault::Footpaths(fault) => fault == FootFault::OutOfMemory,
            LoadFault::Image(fault) => fault == ImageFault::OutOfMemory,
            LoadFault::Range(_) | LoadFault::FileFailed(_) => false,
        }
    }
}

impl From<ReadFault> for LoadFault {
    ghost use Rattle.std.specs.Prelude.{◌≡◌};
    ghost use Rattle.feed_loader.specs.Faults.{load_fault_of_read};

    ghost from_gives = { λ fault outcome. outcome ≡ load_fault_of_read fault };

    fn from(fault: ReadFault) -> LoadFault {
        match fault {
            ReadFault::Table(fault) => LoadFault::Table(fault),
            ReadFault::FileFailed(table) => LoadFault::FileFailed(table),
        }
    }
}

impl From<RunsFault> for LoadFault {
    ghost use Rattle.std.specs.Prelude.{◌≡◌};
    ghost use Rattle.feed_loader.specs.Faults.{load_fault_of_runs};

    ghost from_gives = { λ fault outcome. outcome ≡ load_fault_of_runs fault };

    fn from(fault: RunsFault) -> LoadFault {
        match fault {
            RunsFault::Table(fault) => LoadFault::Table(fault),
            RunsFault::Day(fault) => LoadFault::Day(fault),
            RunsFault::Range(range) => LoadFault::Range(range),
        }
    }
}

impl From<TableFault> for LoadFault {
    ghost use Rattle.std.specs.Prelude.{◌≡◌};
    ghost use Rattle.feed_loader.specs.declared.fault.LoadFault.TheVariants.{Table as OfTable};

    ghost from_gives = { λ fault outcome. outcome ≡ OfTable fault };

    fn from(fault: TableFault) -> LoadFault {
        LoadFault::Table(fault)
    }
}

impl From<FootFault> for LoadFault {
    ghost use Rattle.std.specs.Prelude.{◌≡◌};
    ghost use Rattle.feed_loader.specs.declared.fault.LoadFault.TheVariants.{Footpaths as OfFootpaths};

    ghost from_gives = { λ fault outcome. outcome ≡ OfFootpaths fault };

    fn from(fault: FootFault) -> LoadFault {
        LoadFault::Footpaths(fault)
    }
}

// Returns the fault `TooMany` of a table.
pub(crate) fn too_many(table: Table) -> LoadFault
    ensures { result ≡ too_many_of table }
{
    LoadFault::Table(TableFault {
        file: table,
        row: 0,
        kind: FaultKind::TooMany,
    })
}

// Returns the fault `OutOfMemory` of a table.
pub(crate) fn out_of_memory(table: Table) -> LoadFault
    ensures { result ≡ out_of_memory_of table }
{
    LoadFault::Table(TableFault {
        file: table,
        row: 0,
        kind: FaultKind::OutOfMemory,
    })
}
