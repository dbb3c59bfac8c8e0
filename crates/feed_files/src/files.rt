//! The files of a feed, by name.

ghost use Rattle.std.specs.Prelude.{◌≡◌, ◌≤◌, ◌+◌, ℕ, List, Some, IfOk, IfSome, option_map};
ghost use Rattle.gtfs_rows.specs.declared.id_hash.IdHash.{IdHash as Hash};
ghost use Rattle.feed_files.specs.Files.{FileAnswer, FileWords, failed_also, read_also};

use gtfs_tables::IdHash;
use std::alloc::Global;
use thiserror::Error;

/// The longest file that is read from a folder, in bytes. A longer one counts as a file that can't be read.
pub const LONGEST_FILE: u32 = 2_000_000_000;

/// Why the bytes of a file couldn't be read.
#[derive(Clone, Copy, Debug, PartialEq, Eq, Error)]
pub enum FileFault {
    #[error("the file can't be read")]
    Failed,
    #[error("out of memory")]
    OutOfMemory,
}

/// The files of a feed.
pub trait FeedFiles {
    // What contracts say of the files.
    ghost words: { FileWords Self };

    /// Returns the bytes of a file, or none if there is no such file. `OutOfMemory` doesn't count as a failure.
    fn read(&mut self, alloc: Global, name: &str) -> Result<Option<Vec<u8>>, FileFault>
        ensures content { IfOk result (λ file. IfSome (words.holds self.old name.now)
            (λ bytes. option_map (λ read. read.items) file ≡ bytes)) }
        ensures gives { words.may_give self.old name.now result }
        ensures stays { (other : List ℕ) (answer : FileAnswer)
            → words.may_give self.new other answer → words.may_give self.old other answer }
        ensures reads { words.reads self.new ≡ read_also (words.reads self.old) name.now result }
        ensures failed { words.failed self.new ≡ failed_also (words.failed self.old) name.now result }
        ensures asks { words.asks self.new ≤ words.asks self.old + 1 }
        ensures same { words.holds self.new ≡ words.holds self.old }
        ensures hash { words.hash self.new ≡ words.hash self.old };

    /// Returns the hash by which ids in the files are looked up, with a random key if strangers may have made the ids.
    /// No result depends on it.
    fn id_hash(&self) -> IdHash
        ensures { (content : Hash) → words.hash self.now ≡ Some content → result ≡ content };
}
