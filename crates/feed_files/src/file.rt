//! Searches for a file in a folder, and reads it.

ghost use Rattle.std.specs.Prelude.{◌≡◌, ◌≤◌, length, IfErr, IfOk, IfSome, IsNone, MatchBool, option_map};
ghost use Rattle.feed_files.specs.Seen.{AreBytesAt, HasChanged, IsAnswerIn, IsFaultAt, IsFaultOfFound, IsFaultOfKind};
ghost use Rattle.feed_files.specs.Seen.{IsFileAt, IsMissingAt, IsSearchFault, WasRead, found as was_found};
ghost use Rattle.feed_files.specs.Seen.{found_after, unfound};

use crate::disk::{FoundNode, NodeState, OpenDisk};
use crate::files::FileFault;
use crate::folder::ReadPermit;
use std::alloc::Global;
use std::io::ErrorKind;

// Returns why a file can't be found, opened or read, by the kind of the error.
fn fault_of(kind: ErrorKind) -> FileFault
    ensures { IsFaultOfKind kind result }
{
    if kind == ErrorKind::OutOfMemory {
        return FileFault::OutOfMemory;
    }
    FileFault::Failed
}

// Returns none if the error of a search means that there is no such file, or else why it can't be read.
fn none_or_fault<D: OpenDisk>(
    disk: &D,
    path: &str,
    kind: ErrorKind,
) -> Result<Option<Vec<u8>>, FileFault>
    requires { D.seen disk.now path.now (unfound kind) }
    ensures ok { IfOk result (λ file. IsNone file × IsMissingAt (D.seen disk.now) path.now) }
    ensures err { IfErr result (IsSearchFault (D.seen disk.now) path.now) }
{
    if kind != ErrorKind::NotFound && kind != ErrorKind::NotADirectory {
        return Err(fault_of(kind));
    }
    if disk.is_link(path) {
        // a link with this name leads nowhere
        return Err(FileFault::Failed);
    }
    Ok(None)
}

// Returns all bytes of a file that was found, or `Failed` if there are more than `limit`.
fn bytes_up_to<D: OpenDisk>(
    limit: u32,
    disk: &D,
    alloc: Global,
    path: &str,
    found: FoundNode,
) -> Result<Vec<u8>, FileFault>
    requires found { D.seen disk.now path.now (was_found found.state) }
    ensures short { IfOk result (λ bytes. length bytes.items ≤ limit) }
    ensures whole { IfOk result (λ bytes. AreBytesAt (D.seen disk.now) path.now found.state bytes.items) }
    ensures err { IfErr result (IsFaultOfFound (D.seen disk.now) limit path.now found.state) }
{
    let state = found.state();
    if !state.is_file || state.length > limit as u64 {
        return Err(FileFault::Failed);
    }
    let file = match disk.open_found(path, found) {
        Ok(file) => file,
        Err(error) => return Err(fault_of(error.kind())),
    };
    match disk.read_opened(alloc, path, &state, file, limit as u64 + 1) {
        Ok(bytes) if bytes.len() as u64 <= limit as u64 => Ok(bytes),
        Ok(_) => Err(FileFault::Failed),
        Err(error) => Err(fault_of(error.kind())),
    }
}

// Returns whether what is at a path is still in a state, now that these bytes of the file at a path have been read, or
// no file was found there.
fn is_still<D: OpenDisk>(
    disk: &D,
    path: &str,
    state: &Option<NodeState>,
    file_path: &str,
    file: &Option<Vec<u8>>,
) -> bool
    requires { WasRead (D.seen disk.now) file_path.now file.now }
    ensures { MatchBool result
        (D.seen disk.now path.now (found_after file_path.now (option_map (λ bytes. bytes.items) file.now) state.now))
        (HasChanged (D.seen disk.now) path.now state.now) }
{
    match (disk.state_after(path, file_path, file), state) {
        (Some(now), Some(state)) => now == *state,
        (Some(_), None) => false,
        (None, Some(_)) => false,
        (None, None) => true,
    }
}

// Returns all bytes of a file that was found, or `Failed` if there are more than `limit` or the file changed while it
// was read.
fn found_file<D: OpenDisk>(
    limit: u32,
    disk: &D,
    alloc: Global,
    path: &str,
    found: FoundNode,
) -> Result<Option<Vec<u8>>, FileFault>
    requires { D.seen disk.now path.now (was_found found.state) }
    ensures short { IfOk result (λ file. IfSome file (λ bytes. length bytes.items ≤ limit)) }
    ensures file { IfOk result (IsFileAt (D.seen disk.now) path.now) }
    ensures err { IfErr result (IsFaultOfFound (D.seen disk.now) limit path.now found.state) }
{
    let state = found.state();
    let file = match bytes_up_to(limit, disk, alloc, path, found) {
        Ok(bytes) => Some(bytes),
        Err(fault) => return Err(fault),
    };
    if is_still(disk, path, &Some(state), path, &file) {
        return Ok(file);
    }
    Err(FileFault::Failed)
}

// Returns the bytes of the file at a path, or none if there is no such file.
fn file_at<D: OpenDisk>(
    limit: u32,
    disk: &D,
    alloc: Global,
    path: &str,
    permit: ReadPermit,
) -> Result<Option<Vec<u8>>, FileFault>
    ensures short { IfOk result (λ file. IfSome file (λ bytes. length bytes.items ≤ limit)) }
    ensures file { IfOk result (IsFileAt (D.seen disk.now) path.now) }
    ensures err { IfErr result (IsFaultAt (D.seen disk.now) limit path.now) }
{
    match disk.find(path, permit) {
        Ok(found) => found_file(limit, disk, alloc, path, found),
        Err(error) => none_or_fault(disk, path, error.kind()),
    }
}

// Returns the bytes of a file in a folder, as `file_up_to` does. A permit is for one search, and what the search finds
// for one opening: so nothing that failed is tried again.
#[tactic(auto, using(crate::proofs::FolderLemmas::was_read))]
pub(crate) fn file_in<D: OpenDisk>(
    limit: u32,
    disk: &D,
    alloc: Global,
    folder: &str,
    state: &Option<NodeState>,
    name: &str,
    permit: ReadPermit,
) -> Result<Option<Vec<u8>>, FileFault>
    ensures { IsAnswerIn (D.seen disk.now) limit folder.now state.now name.now result }
{
    let Ok(path) = disk.path_in(alloc, folder, name) else {
        return Err(FileFault::OutOfMemory);
    };
    match file_at(limit, disk, alloc, path.as_str(), permit) {
        Ok(file) if is_still(disk, folder, state, path.as_str(), &file) => Ok(file),
        Ok(_) => Err(FileFault::Failed),
        Err(fault) => Err(fault),
    }
}
