//! Files of which a read fails, and the order of a feed's reads.

use feed_files::{FailedNames, FeedFiles, FileFault, MemoryFiles};
use gtfs_tables::{IdHash, Table};
use std::alloc::Global;

/// The tables in the order in which their files are read.
pub const ORDER: [Table; 8] = [
    Table::Agency,
    Table::Stops,
    Table::Trips,
    Table::StopTimes,
    Table::Calendar,
    Table::CalendarDates,
    Table::Transfers,
    Table::Frequencies,
];

/// Files in memory: once so many of them were read, each further read fails with the given fault.
#[derive(Drop)]
pub struct Failing<'a> {
    files: MemoryFiles<'a>,
    left: usize,
    fault: FileFault,
    /// How many reads failed.
    pub failures: u64,
    failed: FailedNames,
}

impl<'a> Failing<'a> {
    /// Files of which this many can be read.
    pub fn after(left: usize, files: &'a [(&'a str, &'a [u8])], fault: FileFault) -> Failing<'a> {
        Failing {
            files: MemoryFiles::of(files),
            left,
            fault,
            failures: 0,
            failed: FailedNames::none(),
        }
    }
}

impl<'a> FeedFiles for Failing<'a> {
    ghost use Rattle.std.specs.Prelude.{None};

    ghost words = { record {
      reads = λ files. ⟦<MemoryFiles<'a> as FeedFiles>⟧.words.reads files.files;
      failed = λ files. files.failed;
      holds = λ files name. None;
      may_give = λ files name answer. Unit {0};
      asks = λ files. ⟦<MemoryFiles<'a> as FeedFiles>⟧.words.asks files.files;
      hash = λ files. None;
    } };

    fn read(&mut self, alloc: Global, name: &str) -> Result<Option<Vec<u8>>, FileFault> {
        if self.left > 0 {
            self.left -= 1;
            return self.files.read(alloc, name);
        }
        if self.fault == FileFault::Failed {
            self.failures = self.failures.saturating_add(1);
            self.failed.note(name);
        }
        Err(self.fault)
    }

    fn id_hash(&self) -> IdHash {
        self.files.id_hash()
    }
}
