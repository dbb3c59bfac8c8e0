//! The files of a folder.

ghost use Rattle.std.specs.Prelude.{◌≡◌, ◌≤◌, ◌+◌, ◌∷◌, [], ℕ, List, length, Option, None, Some, All, IfOk, IfSome};
ghost use Rattle.feed_files.specs.Files.{Gives, MayBeRead, MayFail, opened};
ghost use Rattle.feed_files.specs.Seen.{IsAnswerIn, IsInState};
ghost use Rattle.feed_files.specs.declared.disk.NodeState.{NodeState as Node};
ghost use Rattle.feed_files.specs.declared.files.TheConstants.{LONGEST_FILE};

use crate::asked::AskedDisk;
use crate::disk::{NodeState, OpenDisk, state_at};
use crate::failed::FailedNames;
use crate::files::{FeedFiles, FileFault, LONGEST_FILE};
use crate::reads::FileReads;
use gtfs_tables::IdHash;
use std::alloc::Global;
use std::marker::Model;
use std::random::RandomSource;
use std::rt::Files;
use timetable::GhostValue;

/// A permit to search for one file, and to read it. A search takes it by value, so it can be used once.
#[derive(Drop)]
pub struct ReadPermit {
    counted: (),
}

/// How many permits were given so far. Contracts alone see it.
#[derive(Drop)]
pub(crate) struct ReadPermits {
    given: GhostValue<usize>,
}

impl Model for ReadPermits {
    ghost Value = { ℕ };

    ghost view = { λ permits. permits.given.value };
}

impl ReadPermits {
    // Only this module makes these, and it can search for a file only by an `AskedDisk`.
    fn none() -> ReadPermits
        ensures { result ≡ 0 }
    {
        ReadPermits {
            given: GhostValue::at(&(), &()),
        }
    }

    // Returns a permit, and counts it.
    pub(crate) fn next(&mut self) -> ReadPermit
        ensures { self.new ≡ self.old + 1 }
    {
        self.given = GhostValue::at(&self.given, &());
        ReadPermit { counted: () }
    }
}

/// A disk with the folders of feeds. It needs nothing else of a machine, so that files can be read from any thread.
pub trait Disk {
    // That the folder at a path was seen in a state.
    ghost shows: { Self → List ℕ → Option Node → Type 0 } = { λ _ _ _. Unit {0} };

    // The possible results of asking for a file in a folder that was seen in a state.
    ghost gives: { Gives Self } = { λ _ _ _ _ _. Unit {0} };

    /// Returns the state of a folder, or of the one at the end of a link; none if nothing is found.
    fn folder_state(&self, folder: &str) -> Option<NodeState>
        ensures { shows self.now folder.now result };

    /// Returns the bytes of a file in a folder, or none if there is no such file, as long as the folder is in the given
    /// state.
    ///
    /// # Errors
    ///
    /// `Failed` if the file is longer than [`LONGEST_FILE`], can't be read, isn't a plain file, or is a link that leads
    /// nowhere, and if the folder is no longer in the given state or the file changed while it was read; `OutOfMemory`
    /// if memory ran out.
    fn feed_file(
        &self,
        alloc: Global,
        folder: &str,
        state: &Option<NodeState>,
        name: &str,
    ) -> Result<Option<Vec<u8>>, FileFault>
        requires { ∥ shows self.now folder.now state.now ∥₁ }
        ensures gives { gives self.now folder.now state.now name.now result }
        ensures short { IfOk result (λ file. IfSome file (λ bytes. length bytes.items ≤ LONGEST_FILE)) };

    /// Returns the bytes of a file in a folder, as `feed_file` does. It is counted that the disk was asked.
    fn ask(
        asked: &mut AskedDisk<'_, Self>,
        alloc: Global,
        folder: &str,
        state: &Option<NodeState>,
        name: &str,
    ) -> Result<Option<Vec<u8>>, FileFault>
        requires { ∥ shows asked.old.now folder.now state.now ∥₁ }
        ensures gives { gives asked.old.now folder.now state.now name.now result }
        ensures short { IfOk result (λ file. IfSome file (λ bytes. length bytes.items ≤ LONGEST_FILE)) }
        ensures once { asked.new.asks ≡ asked.old.asks + 1 }
        ensures disk { asked.new.now ≡ asked.old.now };

    /// Returns a hash with a new random key, by which ids in a feed's files are looked up.
    fn id_hash(&self) -> IdHash;
}

impl<H: Files + RandomSource + OpenDisk<Opened = H::File>> Disk for H {
    ghost shows = { λ disk. IsInState (H.seen disk) };

    ghost gives = { λ disk folder state name answer. ∥ IsInState (H.seen disk) folder state ∥₁
        × IsAnswerIn (H.seen disk) LONGEST_FILE folder state name answer };

    fn folder_state(&self, folder: &str) -> Option<NodeState> {
        state_at(self, folder)
    }

    fn feed_file(
        &self,
        alloc: Global,
        folder: &str,
        state: &Option<NodeState>,
        name: &str,
    ) -> Result<Option<Vec<u8>>, FileFault> {
        file_up_to(LONGEST_FILE, self, alloc, folder, state, name)
    }

    fn ask(
        asked: &mut AskedDisk<'_, H>,
        alloc: Global,
        folder: &str,
        state: &Option<NodeState>,
        name: &str,
    ) -> Result<Option<Vec<u8>>, FileFault> {
        asked.file_up_to(LONGEST_FILE, alloc, folder, state, name)
    }

    fn id_hash(&self) -> IdHash {
        IdHash::random(self)
    }
}

/// The files of a folder. No contract says what a disk holds, so contracts only know the bytes that were read.
///
/// All reads are of the folder as it is when this value is made: while another folder has its place, and once a file in
/// it was added, removed or replaced, no further read gives a file's bytes or that it is missing. Such a change isn't
/// seen in the same tick of the file system's clock as the folder's last change before this value was made. The target
/// of a link in the folder may change between two reads.
#[derive(Drop)]
pub struct FolderFiles<'a, H: Disk> {
    disk: AskedDisk<'a, H>,
    folder: &'a str,
    state: Option<NodeState>,
    hash: IdHash,
    failed: FailedNames,
    reads: FileReads,
    // The folder was seen in this state.
    ghost shown: { ∥ H.shows disk.now folder.now state ∥₁ },
    // Each read, and each failure, that was noted is a possible result of the disk for that file of this folder, in
    // this state.
    ghost given: { ∥ All (MayBeRead (H.gives disk.now folder.now state)) reads ∥₁ },
    ghost unread: { ∥ All (MayFail (H.gives disk.now folder.now state)) failed ∥₁ },
}

impl<'a, H: Disk> FolderFiles<'a, H> {
    /// Returns the files of the folder at a path; if there is no such folder, it has no files. Their ids are looked up
    /// with a random key.
    pub fn new(disk: &'a H, folder: &'a str) -> FolderFiles<'a, H>
        ensures disk { result.disk.now ≡ disk.now }
        ensures folder { result.folder.now ≡ folder.now }
        ensures failed { result.failed ≡ [] }
        ensures reads { result.reads ≡ [] }
    {
        FolderFiles {
            disk: AskedDisk::new(disk, ReadPermits::none()),
            folder,
            state: disk.folder_state(folder),
            hash: disk.id_hash(),
            failed: FailedNames::none(),
            reads: FileReads::none(),
        }
    }
}

/// Returns the bytes of a file in a folder, or none if there is no such file: also if there is no such folder, or
/// if its path isn't that of a folder. They are those that the file held while the folder was in the given state: the
/// folder's state and the file's were the same before and after the file was read. What changes no state isn't seen: a
/// write in the same tick of the file system's clock as the one before it, or a link outside the folder that led
/// elsewhere for a while.
///
/// # Errors
///
/// `Failed` if the file is longer than `limit`, can't be read, isn't a plain file, or is a link that leads nowhere, and
/// if the folder is no longer in the given state or the file changed while it was read; `OutOfMemory` if memory ran
/// out.
pub fn file_up_to<D: OpenDisk>(
    limit: u32,
    disk: &D,
    alloc: Global,
    folder: &str,
    state: &Option<NodeState>,
    name: &str,
) -> Result<Option<Vec<u8>>, FileFault>
    ensures { IsAnswerIn (D.seen disk.now) limit folder.now state.now name.now result }
{
    AskedDisk::new(disk, ReadPermits::none()).file_up_to(limit, alloc, folder, state, name)
}

impl<'a, H: Disk> FeedFiles for FolderFiles<'a, H> {
    // the path of the folder comes first, so that the reads of two folders are never the same
    ghost words = { record {
      reads = λ files. opened files.folder.now ∷ files.reads;
      failed = λ files. files.failed;
      holds = λ files name. None;
      may_give = λ files. H.gives files.disk.now files.folder.now files.state;
      asks = λ files. files.disk.asks;
      hash = λ files. Some files.hash;
    } };

    fn read(&mut self, alloc: Global, name: &str) -> Result<Option<Vec<u8>>, FileFault> {
        let read = H::ask(&mut self.disk, alloc, self.folder, &self.state, name);
        match &read {
            Ok(file) => self.reads.note(name, file),
            Err(FileFault::Failed) => self.failed.note(name),
            Err(FileFault::OutOfMemory) => {}
        }
        read
    }

    fn id_hash(&self) -> IdHash {
        self.hash
    }
}
