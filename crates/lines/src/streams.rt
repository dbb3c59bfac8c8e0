//! Readers and writers, of which contracts see each call.

ghost use Rattle.std.specs.Prelude.{◌≡◌, ◌<◌, ◌≤◌, length, take, IfOk, MatchResult};
ghost use Rattle.std.specs.Io.KnownBytes.{Appends, Consumes, IsAtEnd, Keeps};
ghost use Rattle.lines.specs.Streams.{StreamWords};

use std::io::{Read, Write};

/// A read failed.
#[derive(Clone, Copy, Debug, PartialEq, Eq)]
pub struct ReadFailed;

/// A write or a flush failed, or a write took nothing.
#[derive(Clone, Copy, Debug, PartialEq, Eq)]
pub struct WriteFailed;

/// A reader. Its `words` name what a read that succeeds, and one that fails, makes of it. Generic code knows of these
/// relations only what [`read_once`](Self::read_once) ensures: so if its contract says that a read failed, it made that
/// read, and the read failed.
pub trait ReadStream {
    // What is to be read, and what calls make of the reader.
    ghost words: { StreamWords Self };

    /// Reads once, and returns how many bytes came. If `room` isn't empty, none come only at the end.
    fn read_once(&mut self, room: &mut [u8]) -> Result<usize, ReadFailed>
        ensures within { IfOk result (λ n. n ≤ length room.new) }
        ensures bytes { MatchResult result
            (λ n. Consumes (words.bytes self.old) (words.bytes self.new) (take n room.new))
            (λ _. Keeps (words.bytes self.old) (words.bytes self.new)) }
        ensures end { IfOk result (λ n. n ≡ 0 → 0 < length room.new → IsAtEnd (words.bytes self.new)) }
        ensures call { MatchResult result (λ _. words.works self.old self.new) (λ _. words.fails self.old self.new) };
}

/// A writer. Its `words` name what a write or a flush that succeeds, and one that fails, makes of it. Generic code
/// knows of these relations only what the two functions ensure: so if its contract says that a line was flushed, or
/// that a call failed, it made these calls, and they ended so.
pub trait WriteStream {
    // What was written, and what calls make of the writer.
    ghost words: { StreamWords Self };

    /// Writes once, and returns how many bytes were taken. It is a failure if none are.
    fn write_once(&mut self, piece: &[u8]) -> Result<usize, WriteFailed>
        requires { 0 < length piece.now }
        ensures within { IfOk result (λ n. (0 < n) × (n ≤ length piece.now)) }
        ensures bytes { MatchResult result
            (λ n. Appends (words.bytes self.old) (words.bytes self.new) (take n piece.now))
            (λ _. Keeps (words.bytes self.old) (words.bytes self.new)) }
        ensures call { MatchResult result (λ _. words.works self.old self.new) (λ _. words.fails self.old self.new) };

    /// Flushes once.
    fn flush_once(&mut self) -> Result<(), WriteFailed>
        ensures bytes { Keeps (words.bytes self.old) (words.bytes self.new) }
        ensures call { MatchResult result (λ _. words.flushes self.old self.new) (λ _. words.fails self.old self.new) };
}

impl<In: Read> ReadStream for In {
    ghost use Rattle.lines.specs.Streams.{words_of};

    ghost words = { words_of In.remaining };

    fn read_once(&mut self, room: &mut [u8]) -> Result<usize, ReadFailed> {
        match self.read(room) {
            Ok(count) => Ok(count),
            Err(_) => Err(ReadFailed),
        }
    }
}

impl<Out: Write> WriteStream for Out {
    ghost use Rattle.lines.specs.Streams.{words_of};

    ghost words = { words_of Out.contents };

    fn write_once(&mut self, piece: &[u8]) -> Result<usize, WriteFailed> {
        match self.write(piece) {
            Ok(0) | Err(_) => Err(WriteFailed),
            Ok(count) => Ok(count),
        }
    }

    fn flush_once(&mut self) -> Result<(), WriteFailed> {
        match self.flush() {
            Ok(()) => Ok(()),
            Err(_) => Err(WriteFailed),
        }
    }
}
