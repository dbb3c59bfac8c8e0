//! Readers and writers of which contracts know whether a call failed.

ghost use Rattle.std.specs.Prelude.{◌≡◌, ◌↔◌, ℕ, List, None, Option, Result, IfErr, IfOk, OnErr, OnOk, false, true};
ghost use Rattle.std.specs.Io.{ReadsAtMost, WritesAtMost};
ghost use Rattle.std.specs.Io.KnownBytes.{Appends, Keeps, ReadConsumes, WriteAppends};
ghost use Rattle.std.specs.IoError.{error_kind};
ghost use Rattle.std.specs.declared.io.Error.{Error as IoError};
ghost use Rattle.std.specs.declared.io.ErrorKind.{ErrorKind as Kind};
ghost use Rattle.std.specs.declared.io.ErrorKind.TheVariants.{Interrupted};
ghost use Rattle.image_files.specs.Watching.{HasFault, IsBegun, first_fault, flush_fault, write_fault};
ghost use Rattle.image_files.specs.declared.names.NameForm.{NameForm as Form};
ghost use Rattle.image_files.specs.declared.names.NameForm.TheVariants.{Raw};

use crate::names::NameForm;
use std::io;
use std::io::{ErrorKind, Read, Write};

/// A reader of which contracts know whether a read of it may fail.
pub trait WatchedRead: Read {
    // That a read of it may fail, now or later.
    ghost may_fail: { Self → Type 0 } = { λ _. Unit {0} };

    /// Reads once, as `read` does.
    fn read_once(&mut self, piece: &mut [u8]) -> io::Result<usize>
        ensures bound { ReadsAtMost result piece.new }
        ensures bytes { ReadConsumes (Self.remaining self.old) (Self.remaining self.new) result piece.new }
        ensures failed { IfErr result (λ _. may_fail self.old) }
        ensures later { may_fail self.new → may_fail self.old };
}

impl<R: Read> WatchedRead for R {
    // nothing is known of the calls of any reader; what is generic over readers can't see that
    ghost may_fail = { λ _. Unit {0} };

    fn read_once(&mut self, piece: &mut [u8]) -> io::Result<usize> {
        self.read(piece)
    }
}

/// A writer of which contracts know what its calls gave.
pub trait HeardWrite: Write {
    // That the last write of it was of these bytes, and gave this.
    ghost gave: { Self → List ℕ → Result ℕ IoError → Type 0 } = { λ _ _ _. Unit {0} };

    // That the last flush of it gave this.
    ghost flushed: { Self → Result (Unit {0}) IoError → Type 0 } = { λ _ _. Unit {0} };

    /// Writes once, as `write` does.
    fn write_once(&mut self, bytes: &[u8]) -> io::Result<usize>
        ensures bound { WritesAtMost result bytes.now }
        ensures bytes { WriteAppends (Self.contents self.old) (Self.contents self.new) result bytes.now }
        ensures given { gave self.new bytes.now result };

    /// Flushes once, as `flush` does.
    fn flush_once(&mut self) -> io::Result<()>
        ensures bytes { Keeps (Self.contents self.old) (Self.contents self.new) }
        ensures given { flushed self.new result };
}

impl<W: Write> HeardWrite for W {
    // nothing is known of the calls of any writer; what is generic over writers can't see that
    ghost gave = { λ _ _ _. Unit {0} };

    ghost flushed = { λ _ _. Unit {0} };

    fn write_once(&mut self, bytes: &[u8]) -> io::Result<usize> {
        self.write(bytes)
    }

    fn flush_once(&mut self) -> io::Result<()> {
        self.flush()
    }
}

/// A writer that knows whether it could be written.
pub trait Watched: Write {
    // The first reason why it couldn't be written.
    ghost noted: { Self → Option Kind };

    // How names are written to it.
    ghost form: { Self → Form };

    /// The first reason why it couldn't be written. An interrupted write doesn't count, since it is tried again.
    fn fault(&self) -> Option<ErrorKind>
        ensures { result ≡ noted self.now };

    /// How the names of an image are written to it in lines.
    fn name_form(&self) -> NameForm
        ensures { result ≡ form self.now };

    /// Writes as `write` does. If that fails, or takes none of some bytes, that is the fault, unless there is one.
    fn put(&mut self, bytes: &[u8]) -> io::Result<usize>
        ensures bound { WritesAtMost result bytes.now }
        ensures bytes { WriteAppends (Self.contents self.old) (Self.contents self.new) result bytes.now }
        ensures fault { noted self.new ≡ first_fault (noted self.old) bytes.now result };

    /// Flushes as `flush` does. If that fails, that is the fault, unless there is one.
    fn finish(&mut self) -> io::Result<()>
        ensures bytes { Keeps (Self.contents self.old) (Self.contents self.new) }
        ensures fault { noted self.new ≡ flush_fault (noted self.old) result };
}

/// A writer that keeps the first reason why it couldn't be written.
#[derive(Drop)]
pub struct WatchedWriter<W> {
    writer: W,
    fault: Option<ErrorKind>,
    names: NameForm,
}

impl<W> WatchedWriter<W> {
    /// It could be written so far. Names are written to it as they are.
    pub fn of(writer: W) -> WatchedWriter<W>
        ensures writer { result.writer ≡ writer }
        ensures whole { result.fault ≡ None }
        ensures names { result.names ≡ Raw }
    {
        WatchedWriter::with_names(writer, NameForm::Raw)
    }

    /// It could be written so far. Names are written to it in this form.
    pub fn with_names(writer: W, names: NameForm) -> WatchedWriter<W>
        ensures writer { result.writer ≡ writer }
        ensures whole { result.fault ≡ None }
        ensures names { result.names ≡ names }
    {
        WatchedWriter {
            writer,
            fault: None,
            names,
        }
    }
}

impl<W: HeardWrite> Watched for WatchedWriter<W> {
    ghost noted = { λ watched. watched.fault };

    ghost form = { λ watched. watched.names };

    fn fault(&self) -> Option<ErrorKind> {
        self.fault
    }

    fn name_form(&self) -> NameForm {
        self.names
    }

    fn put(&mut self, bytes: &[u8]) -> io::Result<usize>
        ensures bound { WritesAtMost result bytes.now }
        ensures bytes { WriteAppends (W.contents self.old.writer) (W.contents self.new.writer) result bytes.now }
        ensures fault { self.new.fault ≡ first_fault self.old.fault bytes.now result }
        ensures given { W.gave self.new.writer bytes.now result }
    {
        Write::write(self, bytes)
    }

    fn finish(&mut self) -> io::Result<()>
        ensures bytes { Keeps (W.contents self.old.writer) (W.contents self.new.writer) }
        ensures fault { self.new.fault ≡ flush_fault self.old.fault result }
        ensures given { W.flushed self.new.writer result }
    {
        Write::flush(self)
    }
}

impl<W: HeardWrite> Write for WatchedWriter<W> {
    ghost contents = { λ watched. W.contents watched.writer };

    fn write(&mut self, bytes: &[u8]) -> io::Result<usize>
        ensures bound { WritesAtMost result bytes.now }
        ensures bytes { WriteAppends (W.contents self.old.writer) (W.contents self.new.writer) result bytes.now }
        ensures fault { self.new.fault ≡ first_fault self.old.fault bytes.now result }
        ensures given { W.gave self.new.writer bytes.now result }
    {
        let result = write_retried(&mut self.writer, bytes);
        if self.fault.is_none() {
            self.fault = fault_of(bytes, &result);
        }
        result
    }

    fn flush(&mut self) -> io::Result<()>
        ensures bytes { Keeps (W.contents self.old.writer) (W.contents self.new.writer) }
        ensures fault { self.new.fault ≡ flush_fault self.old.fault result }
        ensures given { W.flushed self.new.writer result }
    {
        let result = self.writer.flush_once();
        if let Err(error) = &result
            && self.fault.is_none()
        {
            self.fault = Some(error.kind());
        }
        result
    }
}

// Writes, and again as long as that is interrupted.
fn write_retried<W: HeardWrite>(writer: &mut W, bytes: &[u8]) -> io::Result<usize>
    ensures bound { WritesAtMost result bytes.now }
    ensures bytes { WriteAppends (W.contents writer.old) (W.contents writer.new) result bytes.now }
    ensures given { W.gave writer.new bytes.now result }
{
    let mut result = writer.write_once(bytes);
    for _ in 0..u64::MAX {
        if !is_interrupted(&result) {
            return result;
        }
        result = writer.write_once(bytes);
    }
    result
}

/// Whether a call was interrupted.
pub(crate) fn is_interrupted<T>(outcome: &io::Result<T>) -> bool
    ensures done { IfOk outcome.now (λ _. result ≡ false) }
    ensures failed { IfErr outcome.now (λ error. (result ≡ true) ↔ (error_kind error ≡ Interrupted)) }
{
    match outcome {
        Ok(_) => false,
        Err(error) => error.kind() == ErrorKind::Interrupted,
    }
}

// Why these bytes weren't written, if none of them was, although there are some.
fn fault_of(bytes: &[u8], outcome: &io::Result<usize>) -> Option<ErrorKind>
    ensures { result ≡ write_fault bytes.now outcome.now }
{
    match outcome {
        Ok(0) if !bytes.is_empty() => Some(ErrorKind::WriteZero),
        Ok(_) => None,
        Err(error) => Some(error.kind()),
    }
}

/// Writes all bytes. If that fails, a first part of them was written, possibly nothing or all of them, and the writer
/// has a fault.
pub fn write_all<W: Watched>(writer: &mut W, bytes: &[u8]) -> io::Result<()>
    ensures written { OnOk result (Appends (W.contents writer.old) (W.contents writer.new) bytes.now) }
    ensures clean { OnOk result (W.noted writer.new ≡ W.noted writer.old) }
    ensures begun { OnErr result (IsBegun (W.contents writer.old) (W.contents writer.new) bytes.now) }
    ensures failed { OnErr result (HasFault (W.noted writer.new)) }
{
    let mut done = 0;
    while done < bytes.len() {
        match writer.put(&bytes[done..])? {
            0 => return Err(io::Error::from(ErrorKind::WriteZero)),
            count => done += count,
        }
    }
    Ok(())
}
