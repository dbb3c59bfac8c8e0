//! Writes files: beside the path first, so that what is there stays whole.

ghost use Rattle.std.specs.Prelude.{◌≡◌, ◌≢◌, ◌<◌, Err, IfErr, IfOk, OnErr, OnOk, string_bytes};
ghost use Rattle.std.specs.Io.KnownBytes.{Appends};
ghost use Rattle.image_layout.specs.Text.{bytes_of};
ghost use Rattle.std_io.specs.IoError.{error_kind};
ghost use Rattle.std_io.specs.declared.io.kind.ErrorKind.TheVariants.{OutOfMemory};
ghost use Rattle.image_files.specs.Watching.{HasFault};
ghost use Rattle.image_files.specs.declared.watching.WatchedWriter.{WatchedWriter as OutFile};
ghost use Rattle.image_files.specs.Writing.{IsNew, IsPut, IsPutInto, IsUnwritable, IsWholeImage, part_of};
ghost use Rattle.image_files.specs.Writing.{IsBeside, IsUnwritableInto, MayNotMakeBeside, write_path_of};

use crate::out::OutDisk;
use crate::reading::PIECE_WORDS;
use crate::watching::{Watched, WatchedWriter, write_all};
use image_layout::Words;
use std::alloc::{AllocError, Global};
use std::io::{ErrorKind, Write};
use std::{fs, io};

/// A file that is to be at a path.
#[derive(Drop)]
pub struct NewFile<'a, F> {
    /// Where its bytes are written.
    pub file: F,
    path: &'a str,
    /// The path at which it is until it is whole, if that is another one.
    beside: Option<String>,
}

/// Where standard output is. If that is a file, no other is written there: lines would go over its beginning.
const STANDARD_OUTPUT: &str = "/dev/stdout";

/// Makes the file that is to be at a path, empty. If there is a plain file or nothing, that is `PATH.part`, or one with
/// a number behind that, which `settle` renames: so the file is never half written, not even if it is the one that was
/// read. If there is anything else, such as a pipe, it is written into that, but not into the file of standard output:
/// then the error's kind is `ResourceBusy`.
pub fn new_file<'a, H: OutDisk + AllocGlobal>(
    rt: &H,
    path: &'a str,
) -> io::Result<NewFile<'a, WatchedWriter<H::File>>>
    ensures new { IfOk result (IsNew ⟦<WatchedWriter<H::File> as Write>⟧.contents (H.files rt.now) path.now) }
    ensures written { IfOk result (λ _. (file : OutFile H.File) → HasFault file.fault
        → IsUnwritable (H.files rt.now) path.now) }
    ensures failed { IfErr result (λ error. error_kind error ≢ OutOfMemory
        → IsUnwritable (H.files rt.now) path.now) }
{
    if rt.is_one(path, STANDARD_OUTPUT) {
        return Err(io::Error::from(ErrorKind::ResourceBusy));
    }
    if rt.is_special(path) {
        let file = rt.opened(path)?;
        return Ok(NewFile {
            file,
            path,
            beside: None,
        });
    }
    let made = made_beside(rt, path)?;
    Ok(NewFile {
        file: made.file,
        path,
        beside: Some(made.path),
    })
}

/// How many files there may be beside a path that are to be there once they are whole.
const PARTS: u64 = 10;

/// A file that was made, and where.
#[derive(Drop)]
struct MadeFile<F> {
    file: F,
    path: String,
}

// Makes a file beside a path, at the first of ten paths at which there is nothing. What there is stays as it is:
// another run may be writing it, or this one may have been asked to read it.
fn made_beside<H: OutDisk + AllocGlobal>(
    rt: &H,
    path: &str,
) -> io::Result<MadeFile<WatchedWriter<H::File>>>
    ensures beside { IfOk result (λ made. IsBeside path.now (string_bytes made.path)) }
    ensures begun { IfOk result (λ made. (H.files rt.now).may_begin (string_bytes made.path)
        (⟦<WatchedWriter<H::File> as Write>⟧.contents made.file)) }
    ensures written { IfOk result (λ _. (file : OutFile H.File) → HasFault file.fault
        → MayNotMakeBeside (H.files rt.now) path.now) }
    ensures failed { IfErr result (λ error. error_kind error ≢ OutOfMemory
        → MayNotMakeBeside (H.files rt.now) path.now) }
{
    for number in 1..PARTS {
        let made = made_part(rt, path, number - 1);
        if !is_taken(&made) {
            return made;
        }
    }
    made_part(rt, path, PARTS - 1)
}

// Whether there was something already where a file should be made.
fn is_taken<F>(made: &io::Result<F>) -> bool {
    match made {
        Ok(_) => false,
        Err(error) => error.kind() == ErrorKind::AlreadyExists,
    }
}

// Makes the file of this number beside a path.
fn made_part<H: OutDisk + AllocGlobal>(
    rt: &H,
    path: &str,
    number: u64,
) -> io::Result<MadeFile<WatchedWriter<H::File>>>
    requires { number < PARTS }
    ensures beside { IfOk result (λ made. IsBeside path.now (string_bytes made.path)) }
    ensures begun { IfOk result (λ made. (H.files rt.now).may_begin (string_bytes made.path)
        (⟦<WatchedWriter<H::File> as Write>⟧.contents made.file)) }
    ensures written { IfOk result (λ _. (file : OutFile H.File) → HasFault file.fault
        → MayNotMakeBeside (H.files rt.now) path.now) }
    ensures failed { IfErr result (λ error. error_kind error ≢ OutOfMemory
        → MayNotMakeBeside (H.files rt.now) path.now) }
{
    let beside = part_of(rt.alloc(), path, number)?;
    let file = rt.new_file(beside.as_str())?;
    Ok(MadeFile { file, path: beside })
}

// The path of this number beside another, at which a file is until it is whole.
fn part_of(alloc: Global, path: &str, number: u64) -> Result<String, AllocError>
    ensures { IfOk result (λ beside. string_bytes beside ≡ part_of path.now number) }
{
    let mut beside = String::new(alloc);
    beside.push_str(path)?;
    beside.push_str(".part")?;
    if number > 0 {
        write!(beside, "{number}")?;
    }
    Ok(beside)
}

/// Brings a file to its path, if it was written; or else removes it, and returns why it wasn't.
pub fn settle<H: OutDisk>(
    rt: &H,
    file: NewFile<'_, WatchedWriter<H::File>>,
    outcome: io::Result<()>,
) -> io::Result<()>
    ensures failed { IfErr outcome (λ error. result ≡ Err error) }
    ensures stands { OnOk result ((H.files rt.now).may_stand (write_path_of file.entry) file.entry.path.now
        (⟦<WatchedWriter<H::File> as Write>⟧.contents file.entry.file)) }
    ensures unmoved { OnOk outcome (OnErr result ((H.files rt.now).may_not_move file.entry.path.now)) }
{
    let NewFile { file, path, beside } = file;
    match beside {
        Some(beside) => settle_beside(rt, &file, beside.as_str(), path, outcome),
        None => brought(rt, &file, path, path, outcome),
    }
}

// Moves a file that was written, or else removes it.
fn settle_beside<H: OutDisk>(
    rt: &H,
    file: &WatchedWriter<H::File>,
    beside: &str,
    path: &str,
    outcome: io::Result<()>,
) -> io::Result<()>
    ensures failed { IfErr outcome (λ error. result ≡ Err error) }
    ensures stands { OnOk result ((H.files rt.now).may_stand beside.now path.now
        (⟦<WatchedWriter<H::File> as Write>⟧.contents file.now)) }
    ensures unmoved { OnOk outcome (OnErr result ((H.files rt.now).may_not_move path.now)) }
{
    let outcome = brought(rt, file, beside, path, outcome);
    if outcome.is_err() {
        let _ = fs::remove_file(rt, beside);
    }
    outcome
}

// Brings a file that was written from one path to another, which may be the same.
fn brought<H: OutDisk>(
    rt: &H,
    file: &WatchedWriter<H::File>,
    from: &str,
    to: &str,
    outcome: io::Result<()>,
) -> io::Result<()>
    ensures failed { IfErr outcome (λ error. result ≡ Err error) }
    ensures stands { OnOk result ((H.files rt.now).may_stand from.now to.now
        (⟦<WatchedWriter<H::File> as Write>⟧.contents file.now)) }
    ensures unmoved { OnOk outcome (OnErr result ((H.files rt.now).may_not_move to.now)) }
{
    match outcome {
        Ok(()) => rt.brought(file, from, to),
        Err(error) => Err(error),
    }
}

/// Writes a text into the file at a path, which is made or emptied first, or into what else is there, but not into the
/// file of standard output: then the error's kind is `ResourceBusy`.
pub fn put_text_into<H: OutDisk>(rt: &H, path: &str, text: &str) -> io::Result<()>
    ensures put { OnOk result (IsPutInto (H.files rt.now) path.now text.now) }
    ensures failed { OnErr result (IsUnwritableInto (H.files rt.now) path.now) }
{
    if rt.is_one(path, STANDARD_OUTPUT) {
        return Err(io::Error::from(ErrorKind::ResourceBusy));
    }
    let mut file = rt.opened(path)?;
    write_text(&mut file, text)?;
    rt.brought(&file, path, path)
}

// Writes the text, and nothing else.
fn write_text<W: Watched>(file: &mut W, text: &str) -> io::Result<()>
    ensures bytes { OnOk result (Appends (W.contents file.old) (W.contents file.new) text.now) }
    ensures failed { OnErr result (HasFault (W.noted file.new)) }
{
    write_all(file, text.as_bytes())?;
    file.finish()
}

/// Writes an image's words to the path, by way of a `NewFile`.
pub fn put_image<H: OutDisk + AllocGlobal>(rt: &H, path: &str, words: &[u32]) -> io::Result<()>
    requires { IsWholeImage words.now }
    ensures put { OnOk result (IsPut (H.files rt.now) path.now (bytes_of words.now)) }
    ensures failed { IfErr result (λ error. error_kind error ≢ OutOfMemory
        → IsUnwritable (H.files rt.now) path.now) }
{
    let mut file = new_file(rt, path)?;
    let outcome = write_words(rt.alloc(), &mut file.file, words);
    settle(rt, file, outcome)
}

// Writes the bytes of all words piece by piece, so that memory never holds all of them beside the words.
fn write_words<W: Watched>(alloc: Global, file: &mut W, words: &[u32]) -> io::Result<()>
    requires { IsWholeImage words.now }
    ensures bytes { OnOk result (Appends (W.contents file.old) (W.contents file.new) (bytes_of words.now)) }
    ensures failed { IfErr result (λ error. error_kind error ≢ OutOfMemory → HasFault (W.noted file.new)) }
{
    for piece in words.chunks(PIECE_WORDS) {
        let bytes = Words::to_bytes(alloc, piece)?;
        write_all(file, &bytes)?;
    }
    file.finish()
}
