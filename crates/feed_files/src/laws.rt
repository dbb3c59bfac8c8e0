//! Laws of files, each a function without code whose contract is the law.

ghost use Rattle.std.specs.Prelude.{◌≡◌, All, List};
ghost use Rattle.gtfs_rows.specs.declared.fault.Table.{Table};
ghost use Rattle.feed_files.specs.Files.{MayFail};
ghost use Rattle.feed_files.specs.Reading.{Content};
ghost use Rattle.feed_files.specs.Reads.{AreRead, MayHold};
ghost use Rattle.feed_files.specs.declared.files.TheConstants.{LONGEST_FILE};

use crate::files::FeedFiles;
use crate::folder::{Disk, FolderFiles};

/// All reads between two moments are of one folder, as it was drawn: the disk may give what was read for its files, and
/// may fail to read each file whose read failed.
pub fn reads_are_of_one_folder<'a, H: Disk>(before: &FolderFiles<'a, H>, then: &FolderFiles<'a, H>)
    ensures folder { (content : Content) (ts : List Table)
        → AreRead content ts (⟦<FolderFiles<'a, H> as FeedFiles>⟧.words.reads before.now)
        (⟦<FolderFiles<'a, H> as FeedFiles>⟧.words.reads then.now) → then.now.folder.now ≡ before.now.folder.now }
    ensures read { (content : Content) (ts : List Table)
        → AreRead content ts (⟦<FolderFiles<'a, H> as FeedFiles>⟧.words.reads before.now)
        (⟦<FolderFiles<'a, H> as FeedFiles>⟧.words.reads then.now)
        → MayHold (H.gives then.now.disk.now before.now.folder.now then.now.state) content ts }
    ensures failed { ∥ All (MayFail (H.gives then.now.disk.now then.now.folder.now then.now.state)) then.now.failed ∥₁ }
    ensures shown { ∥ H.shows then.now.disk.now then.now.folder.now then.now.state ∥₁ }
{}

/// The longest file that is read: 2,000,000,000 bytes.
pub fn limits()
    ensures { LONGEST_FILE ≡ 2000000000 }
{}
