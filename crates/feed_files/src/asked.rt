//! A disk of which contracts see how often it was asked.

ghost use Rattle.std.specs.Prelude.{◌≡◌, ◌+◌};
ghost use Rattle.feed_files.specs.Files.{DiskUse};
ghost use Rattle.feed_files.specs.Seen.{IsAnswerIn};

use crate::disk::{NodeState, OpenDisk};
use crate::file::file_in;
use crate::files::FileFault;
use crate::folder::ReadPermits;
use std::alloc::Global;
use std::marker::Model;

/// A disk, and how often it was asked for a file. The holder can't get at the disk itself, so generic code asks it only
/// by calls that are counted.
#[derive(Drop)]
pub struct AskedDisk<'a, D> {
    disk: &'a D,
    permits: ReadPermits,
}

impl<'a, D> Model for AskedDisk<'a, D> {
    ghost Value = { DiskUse D };

    ghost view = { λ asked. record {
      now = asked.disk.now;
      asks = asked.permits;
    } };
}

impl<'a, D> AskedDisk<'a, D> {
    // Returns the disk, asked as often as permits were given.
    pub(crate) fn new(disk: &'a D, permits: ReadPermits) -> AskedDisk<'a, D>
        ensures disk { result.now ≡ disk.now }
        ensures asks { result.asks ≡ permits }
    {
        AskedDisk { disk, permits }
    }
}

impl<'a, D: OpenDisk> AskedDisk<'a, D> {
    // Returns the bytes of a file in a folder, as the function `file_up_to` does, and counts that.
    pub(crate) fn file_up_to(
        &mut self,
        limit: u32,
        alloc: Global,
        folder: &str,
        state: &Option<NodeState>,
        name: &str,
    ) -> Result<Option<Vec<u8>>, FileFault>
        ensures answer { IsAnswerIn (D.seen self.old.now) limit folder.now state.now name.now result }
        ensures once { self.new.asks ≡ self.old.asks + 1 }
        ensures disk { self.new.now ≡ self.old.now }
    {
        let permit = self.permits.next();
        file_in(limit, self.disk, alloc, folder, state, name, permit)
    }
}
