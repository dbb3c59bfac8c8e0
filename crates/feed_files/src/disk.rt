//! Finds and reads the files of feeds, and sees whether a folder or a file has changed.

ghost use Rattle.std.specs.Prelude.{◌≡◌, ◌≢◌, ◌↔◌, ℕ, List, true, IsTrue, IfErr, IfOk, IfSome, option_map, take};
ghost use Rattle.std.specs.Fs.{IsFile, file_type, metadata_len};
ghost use Rattle.std.specs.Path.{path_buf_bytes, path_join};
ghost use Rattle.std_io.specs.IoError.{error_kind};
ghost use Rattle.std_io.specs.declared.io.kind.ErrorKind.TheVariants.{Interrupted, OutOfMemory};
ghost use Rattle.feed_files.specs.Seen.{DiskEvent, IsInState, found as was_found, found_after, linked, opened, unfound};
ghost use Rattle.feed_files.specs.Seen.{WasRead, unread};

use crate::folder::ReadPermit;
use std::alloc::{AllocError, Global};
use std::fs::{File, Metadata};
use std::io::Read;
use std::os::unix::fs::MetadataExt;
use std::path::{Path, PathBuf};
use std::rt::Files;
use std::{fs, io};

/// What tells a file or a folder from any other, and from itself before a change.
#[derive(Clone, Copy, Debug, PartialEq, Eq)]
pub struct NodeState {
    device: u64,
    inode: u64,
    pub(crate) is_file: bool,
    pub(crate) length: u64,
    changed: i64,
    changed_nanos: i64,
}

impl NodeState {
    fn of(metadata: &Metadata) -> NodeState
        ensures plain { IsTrue result.is_file ↔ IsFile (file_type metadata.now) }
        ensures length { result.length ≡ metadata_len metadata.now }
    {
        NodeState {
            device: metadata.dev(),
            inode: metadata.ino(),
            is_file: metadata.is_file(),
            length: metadata.len(),
            changed: metadata.ctime(),
            changed_nanos: metadata.ctime_nsec(),
        }
    }
}

/// What was found at a path. Only [`OpenDisk::find`] makes it, and opening takes it by value: so it is opened once.
#[derive(Drop)]
pub struct FoundNode {
    state: NodeState,
}

impl FoundNode {
    // Returns the state in which it was found.
    pub(crate) fn state(&self) -> NodeState
        ensures { result ≡ self.now.state }
    {
        self.state
    }
}

/// Returns the state of what is at a path; none if nothing is found.
pub fn state_at<D: OpenDisk>(disk: &D, path: &str) -> Option<NodeState>
    ensures { IsInState (D.seen disk.now) path.now result }
{
    match disk.look(path) {
        Ok(state) => Some(state),
        Err(_) => None,
    }
}

// Returns the state of what is at a path of the machine.
fn node_at<H: Files>(rt: &H, path: &str) -> io::Result<NodeState> {
    let metadata = fs::metadata(rt, path)?;
    Ok(NodeState::of(&metadata))
}

/// A disk that finds and reads files, and sees in which state is what is at a path.
pub trait OpenDisk {
    type Opened: Read + Drop;

    // What was seen of the file or the folder at a path.
    ghost seen: { Self → List ℕ → DiskEvent → Type 0 } = { λ _ _ _. Unit {0} };

    /// Returns the path of a file in a folder. Memory may run out.
    fn path_in(&self, alloc: Global, folder: &str, name: &str) -> Result<PathBuf, AllocError>
        ensures path { IfOk result (λ path. path_buf_bytes path ≡ path_join folder.now name.now) }
        ensures err { IfErr result (λ error. seen self.now (path_join folder.now name.now) (unfound OutOfMemory)) };

    /// Returns the state of what is at a path, or at the end of the link there.
    fn look(&self, path: &str) -> io::Result<NodeState>
        ensures ok { IfOk result (λ state. seen self.now path.now (was_found state)) }
        ensures err { IfErr result (λ error. seen self.now path.now (unfound (error_kind error))) };

    /// Returns what is at a path, or at the end of the link there.
    fn find(&self, path: &str, permit: ReadPermit) -> io::Result<FoundNode>
        ensures ok { IfOk result (λ found. seen self.now path.now (was_found found.state)) }
        ensures err { IfErr result (λ error. seen self.now path.now (unfound (error_kind error))) };

    /// Returns whether there is a link at a path.
    fn is_link(&self, path: &str) -> bool
        ensures { seen self.now path.now (linked result) };

    /// Opens a plain file that was found, at its first byte. Nothing else is opened, so nobody waits for a pipe, unless
    /// one was put in the file's place since the search.
    fn open_found(&self, path: &str, found: FoundNode) -> io::Result<Self::Opened>
        requires found { seen self.now path.now (was_found found.state) }
        requires plain { found.state.is_file ≡ true }
        ensures ok { IfOk result (λ file. seen self.now path.now (opened found.state (Self.Opened.remaining file))) }
        ensures err { IfErr result (λ error. seen self.now path.now (unread found.state (error_kind error))) };

    /// Returns the bytes of an opened file, no more than `most` of them.
    fn read_opened(
        &self,
        alloc: Global,
        path: &str,
        found: &NodeState,
        file: Self::Opened,
        most: u64,
    ) -> io::Result<Vec<u8>>
        ensures ok { IfOk result (λ bytes. IfSome (Self.Opened.remaining file) (λ held. bytes.items ≡ take most held)) }
        ensures err { IfErr result (λ error. seen self.now path.now (unread found.now (error_kind error))) };

    /// Returns the state of what is at a path, once the file at `file_path` has been read, or wasn't found; none if
    /// nothing is there.
    fn state_after(&self, path: &str, file_path: &str, file: &Option<Vec<u8>>) -> Option<NodeState>
        requires { WasRead (seen self.now) file_path.now file.now }
        ensures { seen self.now path.now
            (found_after file_path.now (option_map (λ bytes. bytes.items) file.now) result) };
}

// Returns the bytes of a file, no more than `most` of them. Room is made at once for the length that the file reports;
// a file that reports less than it has, such as those of `/proc`, is read all the same. A read that is interrupted is
// tried again.
fn first_bytes<F: Read + Drop>(
    alloc: Global,
    file: F,
    reported: u64,
    most: u64,
) -> io::Result<Vec<u8>>
    ensures ok { IfOk result (λ bytes. IfSome (F.remaining file) (λ held. bytes.items ≡ take most held)) }
    ensures err { IfErr result (λ error. error_kind error ≢ Interrupted) }
{
    let mut bytes = Vec::with_capacity(alloc, reported.saturating_add(1) as usize)?;
    file.take(most).read_to_end(&mut bytes)?;
    Ok(bytes)
}

impl<H: Files> OpenDisk for H {
    type Opened = H::File;

    // nothing is known about the files of a machine
    ghost seen = { λ _ _ _. Unit {0} };

    fn path_in(&self, alloc: Global, folder: &str, name: &str) -> Result<PathBuf, AllocError> {
        Path::new(folder).join(alloc, name)
    }

    fn look(&self, path: &str) -> io::Result<NodeState> {
        node_at(self, path)
    }

    fn find(&self, path: &str, _permit: ReadPermit) -> io::Result<FoundNode> {
        let state = node_at(self, path)?;
        Ok(FoundNode { state })
    }

    fn is_link(&self, path: &str) -> bool {
        Path::new(path).is_symlink(self)
    }

    fn open_found(&self, path: &str, _found: FoundNode) -> io::Result<H::File> {
        File::open(self, path)
    }

    fn read_opened(
        &self,
        alloc: Global,
        _path: &str,
        found: &NodeState,
        file: H::File,
        most: u64,
    ) -> io::Result<Vec<u8>> {
        first_bytes(alloc, file, found.length, most)
    }

    fn state_after(
        &self,
        path: &str,
        _file_path: &str,
        _file: &Option<Vec<u8>>,
    ) -> Option<NodeState> {
        node_at(self, path).ok()
    }
}
