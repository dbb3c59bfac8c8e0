//! Files in memory.

ghost use Rattle.std.specs.Prelude.{◌≡◌, [], option_map, Some, None, IfErr, IfOk};
ghost use Rattle.feed_files.specs.declared.files.FileFault.TheVariants.{OutOfMemory};
ghost use Rattle.feed_files.specs.Memory.{held};

use crate::files::{FeedFiles, FileFault};
use crate::reads::FileReads;
use gtfs_tables::IdHash;
use std::alloc::Global;

/// Files in memory, by name; if two have the same name, the first counts. A read of them never fails.
#[derive(Drop)]
pub struct MemoryFiles<'a> {
    files: &'a [(&'a str, &'a [u8])],
    reads: FileReads,
}

impl<'a> MemoryFiles<'a> {
    /// Returns these files, none of them read.
    pub fn of(files: &'a [(&'a str, &'a [u8])]) -> MemoryFiles<'a>
        ensures files { result.files.now ≡ files.now }
        ensures reads { result.reads ≡ [] }
    {
        MemoryFiles {
            files,
            reads: FileReads::none(),
        }
    }
}

// Returns the bytes of the first file with a name, if there is one.
fn find<'a>(files: &'a [(&'a str, &'a [u8])], name: &str) -> Option<&'a [u8]>
    ensures { option_map (λ bytes. bytes.now) result ≡ held files.now name.now }
{
    files.iter().find(|file| file.0 == name).map(|file| file.1)
}

// Copies the bytes, if there are any.
fn copied(alloc: Global, bytes: Option<&[u8]>) -> Result<Option<Vec<u8>>, FileFault>
    ensures copy { IfOk result (λ file. option_map (λ copy. copy.items) file
        ≡ option_map (λ held. held.now) bytes.entry) }
    ensures memory { IfErr result (λ fault. fault ≡ OutOfMemory) }
{
    match bytes {
        None => Ok(None),
        Some(bytes) => match Vec::from_slice(alloc, bytes) {
            Ok(bytes) => Ok(Some(bytes)),
            Err(_) => Err(FileFault::OutOfMemory),
        },
    }
}

impl<'a> FeedFiles for MemoryFiles<'a> {
    // the hash isn't stated: no ids in these files were made to collide
    ghost words = { record {
      reads = λ files. files.reads;
      failed = λ files. [];
      holds = λ files name. Some (held files.files.now name);
      may_give = λ files name answer. Unit {0};
      asks = λ files. 0;
      hash = λ files. None;
    } };

    fn read(&mut self, alloc: Global, name: &str) -> Result<Option<Vec<u8>>, FileFault> {
        let file = copied(alloc, find(self.files, name))?;
        self.reads.note(name, &file);
        Ok(file)
    }

    // the key may be known: the caller made the bytes, or checked their ids
    fn id_hash(&self) -> IdHash {
        IdHash::of_key(0)
    }
}
