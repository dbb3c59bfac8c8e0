//! Readers and writers for which a test says how much they give and take, and where they fail.

use std::alloc::Global;
use std::cell::Cell;
use std::io;
use std::io::{Read, Write};

/// A reader that gives at most so many bytes at once, and after the last of them fails or ends.
#[derive(Drop)]
pub(crate) struct Pieces<'a> {
    pub(crate) rest: &'a [u8],
    pub(crate) most: usize,
    pub(crate) is_failing: bool,
}

/// A reader that gives these bytes at once.
pub(crate) fn whole(bytes: &[u8]) -> Pieces<'_> {
    Pieces {
        rest: bytes,
        most: usize::MAX,
        is_failing: false,
    }
}

impl Read for Pieces<'_> {
    fn read(&mut self, room: &mut [u8]) -> io::Result<usize> {
        if self.rest.is_empty() && self.is_failing {
            return Err(io::Error::from(io::ErrorKind::Interrupted));
        }
        let count = room.len().min(self.most).min(self.rest.len());
        let (piece, rest) = self.rest.split_at(count);
        room[..count].copy_from_slice(piece);
        self.rest = rest;
        Ok(count)
    }
}

/// A reader that gives one byte over and over, and counts the bytes that it gave.
#[derive(Drop)]
pub(crate) struct Endless {
    pub(crate) byte: u8,
    pub(crate) given: u64,
}

impl Read for Endless {
    fn read(&mut self, room: &mut [u8]) -> io::Result<usize> {
        room.fill(self.byte);
        self.given = self.given.saturating_add(room.len() as u64);
        Ok(room.len())
    }
}

/// A writer that takes at most so many bytes at once, and so many in all; then it fails, or takes none.
#[derive(Drop)]
pub(crate) struct Taker {
    pub(crate) taken: Vec<u8>,
    pub(crate) most: usize,
    pub(crate) room: usize,
    pub(crate) is_failing: bool,
}

impl Write for Taker {
    fn write(&mut self, piece: &[u8]) -> io::Result<usize> {
        let count = piece.len().min(self.most).min(self.room);
        if count == 0 && self.is_failing {
            return Err(io::Error::from(io::ErrorKind::BrokenPipe));
        }
        match self.taken.extend_from_slice(&piece[..count]) {
            Ok(()) => {}
            Err(_) => return Err(io::Error::from(io::ErrorKind::OutOfMemory)),
        }
        self.room -= count;
        Ok(count)
    }

    fn flush(&mut self) -> io::Result<()> {
        Ok(())
    }
}

/// A writer that takes so many bytes in all, and then fails or takes none.
pub(crate) fn taker_of(alloc: Global, room: usize, is_failing: bool) -> Taker {
    Taker {
        taken: Vec::new(alloc),
        most: usize::MAX,
        room,
        is_failing,
    }
}

/// A stream that gives line ends forever, and takes all that is written. One call, counted from 1, fails or takes none;
/// the calls after it succeed.
#[derive(Drop)]
pub(crate) struct FailsOnce {
    pub(crate) calls: u64,
    pub(crate) fails_at: u64,
    pub(crate) takes_none: bool,
}

/// A stream whose call of this number fails.
pub(crate) fn failing_at(fails_at: u64) -> FailsOnce {
    FailsOnce {
        calls: 0,
        fails_at,
        takes_none: false,
    }
}

impl FailsOnce {
    // Counts a call, and returns whether it is the one that fails.
    fn fails_now(&mut self) -> bool {
        self.calls = self.calls.saturating_add(1);
        self.calls == self.fails_at
    }
}

impl Read for FailsOnce {
    fn read(&mut self, room: &mut [u8]) -> io::Result<usize> {
        if self.fails_now() {
            return Err(io::Error::from(io::ErrorKind::Interrupted));
        }
        room.fill(b'\n');
        Ok(room.len())
    }
}

impl Write for FailsOnce {
    fn write(&mut self, piece: &[u8]) -> io::Result<usize> {
        if !self.fails_now() {
            return Ok(piece.len());
        }
        if self.takes_none {
            return Ok(0);
        }
        Err(io::Error::from(io::ErrorKind::Interrupted))
    }

    fn flush(&mut self) -> io::Result<()> {
        if self.fails_now() {
            return Err(io::Error::from(io::ErrorKind::Interrupted));
        }
        Ok(())
    }
}

/// A reader of so many line ends. It gives each of them only after all before it were answered; otherwise it fails.
#[derive(Drop)]
pub(crate) struct Asker<'a> {
    pub(crate) answered: &'a Cell<u64>,
    pub(crate) given: u64,
    pub(crate) most: u64,
}

impl Read for Asker<'_> {
    fn read(&mut self, room: &mut [u8]) -> io::Result<usize> {
        if self.given >= self.most {
            return Ok(0);
        }
        match room.first_mut() {
            Some(first) if self.answered.get() == self.given => {
                *first = b'\n';
                self.given += 1;
                Ok(1)
            }
            _ => Err(io::Error::from(io::ErrorKind::Interrupted)),
        }
    }
}

/// A writer that counts the line ends that it takes.
#[derive(Drop)]
pub(crate) struct Answers<'a> {
    pub(crate) answered: &'a Cell<u64>,
}

impl Write for Answers<'_> {
    fn write(&mut self, piece: &[u8]) -> io::Result<usize> {
        for byte in piece {
            if *byte == b'\n' {
                self.answered.set(self.answered.get().saturating_add(1));
            }
        }
        Ok(piece.len())
    }

    fn flush(&mut self) -> io::Result<()> {
        Ok(())
    }
}
