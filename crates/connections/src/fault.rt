//! Why a feed gives no connections: a day without a start, times out of range, too many runs or connections, or
//! memory that ran out.

ghost use Rattle.std.specs.Prelude.{◌≡◌};
ghost use Rattle.connections.specs.Faults.{no_memory_for_runs, too_many_of};

use crate::runs::Run;
use gtfs_tables::{Day, FaultKind, Table, TableFault};
use service_days::DayFault;
use thiserror::Error;

/// Why a feed's runs and connections are refused.
#[derive(Clone, Copy, Debug, PartialEq, Eq, Error)]
pub enum RunsFault {
    /// There are too many runs (`trips.txt`) or connections (`stop_times.txt`), or memory ran out.
    #[error("{0}")]
    Table(TableFault),
    /// Memory ran out for the days.
    #[error("{0}")]
    Day(DayFault),
    /// A day or a run is out of range.
    #[error("a day has no start, or a run has a time out of range")]
    Range(OutOfRange),
}

/// The first day or run that is out of range.
#[derive(Clone, Copy, Debug, PartialEq, Eq)]
pub enum OutOfRange {
    /// The day has no start.
    Day(Day),
    /// The run has a time before the base, or too late after it.
    Run(Run),
}

// Returns the fault that there are too many runs (`trips.txt`) or connections (`stop_times.txt`).
pub(crate) fn too_many(table: Table) -> RunsFault
    ensures { result ≡ too_many_of table }
{
    RunsFault::Table(TableFault {
        file: table,
        row: 0,
        kind: FaultKind::TooMany,
    })
}

// Returns the fault that memory ran out for the runs or their connections.
pub(crate) fn out_of_memory() -> RunsFault
    ensures { result ≡ no_memory_for_runs }
{
    RunsFault::Table(TableFault {
        file: Table::StopTimes,
        row: 0,
        kind: FaultKind::OutOfMemory,
    })
}
