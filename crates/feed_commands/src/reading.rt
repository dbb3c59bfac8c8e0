//! Reads the tables of a folder's files.

ghost use Rattle.std.specs.Prelude.{[], IfErr, IfOk};
ghost use Rattle.feed_files.specs.Reading.{HoldsTables, NoTables};
ghost use Rattle.feed_loader.specs.Faults.{load_fault_of_read};
ghost use Rattle.feed_commands.specs.Folders.{AreTablesOf, HoldsOfRead, failed_as};

use feed_files::{Disk, FolderFiles, ReadFault, read_tables};
use gtfs_tables::Tables;

/// Reads the tables of the folder's files; or returns the first fault of these files.
pub fn tables_in<H: Disk + AllocGlobal>(rt: &H, folder: &str) -> Result<Tables, ReadFault>
    ensures tables { IfOk result (AreTablesOf H.gives folder.now) }
    ensures held { IfOk result (λ tables. HoldsOfRead H.gives folder.now [] (λ content. HoldsTables content tables)) }
    ensures refused { IfErr result (λ fault. HoldsOfRead H.gives folder.now
        (failed_as [] (load_fault_of_read fault)) (λ content. NoTables content fault)) }
{
    let mut files = FolderFiles::new(rt, folder);
    read_tables(rt.alloc(), &mut files)
}
