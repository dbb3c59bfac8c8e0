//! The requests that a session sends: how many lines are read, and how long the session took to answer them.

ghost use Rattle.std.specs.Prelude.{◌≡◌, ◌≤◌, ◌⊎◌, [], length, take, is_some, true};
ghost use Rattle.std.specs.Prelude.{IsTrue, List, MatchOption, None, Option, Some, ℕ};
ghost use Rattle.std.specs.Io.KnownBytes.{Consumes};
ghost use Rattle.csa_program.specs.Reading.{IsNoSession};

use crate::client_sessions::ClientSession;
use crate::logging::Host;
use command_endings::{StartInstant, line_ends};
use lines::{ReadFailed, ReadStream};
use std::net::TcpStream;
use std::time::Duration;

/// A stream whose next bytes can be looked at before they are read.
pub trait Peek: ReadStream {
    // What a look may show, if it doesn't fail.
    ghost shows: { Self → Option (List ℕ) → Type 0 };

    /// How many of the next bytes `room` then shows. They stay unread; there are none at the end. `None`: they can't be
    /// looked at.
    fn peek(&self, room: &mut [u8]) -> Option<usize>
        ensures { MatchOption result (shows self.now None)
            (λ n. (n ≤ length room.new) × shows self.now (Some (take n room.new))) };
}

impl Peek for TcpStream {
    ghost use Rattle.std.specs.Prelude.{⊤};

    ghost shows = { λ stream bytes. ⊤ };

    fn peek(&self, room: &mut [u8]) -> Option<usize> {
        TcpStream::peek(self, room).ok()
    }
}

/// A reader that counts the lines that are read, and keeps whose requests they are.
#[derive(Drop)]
pub struct Requests<S, V> {
    stream: S,
    /// Whether no read has given a byte yet.
    is_new: bool,
    /// How many lines have ended.
    ended: u64,
    /// Whether a line has begun and not ended yet.
    has_begun: bool,
    /// Whether a read failed.
    has_failed: bool,
    /// When the last read gave bytes, until the next read.
    answering: Option<StartInstant>,
    /// The longest time from a read that gave bytes to the next read.
    slowest: Duration,
    /// Whose requests they are.
    pub client_session: V,
}

impl<S, V> Requests<S, V> {
    /// Nothing was read yet.
    pub fn new(stream: S, client_session: V) -> Requests<S, V>
        ensures { result.stream ≡ stream }
    {
        Requests {
            stream,
            is_new: true,
            ended: 0,
            has_begun: false,
            has_failed: false,
            answering: None,
            slowest: Duration::ZERO,
            client_session,
        }
    }

    /// How many lines were read; the last one counts even without a line end.
    pub fn count(&self) -> u64 {
        self.ended.saturating_add(u64::from(self.has_begun))
    }

    /// Whether a read failed.
    pub fn has_failed(&self) -> bool
        ensures { result ≡ self.now.has_failed }
    {
        self.has_failed
    }

    /// The reader itself.
    pub fn stream(&mut self) -> &mut S {
        &mut self.stream
    }

    // Counts the lines of what a read gave.
    fn note(&mut self, bytes: &[u8])
        ensures stream { self.new.stream ≡ self.old.stream }
        ensures new { self.new.is_new ≡ true → (self.old.is_new ≡ true) × (bytes.now ≡ []) }
    {
        self.ended = self.ended.saturating_add(line_ends(bytes));
        if let Some(last) = bytes.last() {
            self.is_new = false;
            self.has_begun = *last != b'\n';
        }
    }
}

impl<'a, S: Peek, L: Host> Requests<S, ClientSession<'a, L>> {
    // What was read before is answered now.
    fn note_answered(&mut self)
        ensures { self.new ≡ record self.old { answering = self.new.answering; slowest = self.new.slowest } }
    {
        if let Some(begun) = self.answering {
            let lasted = self.client_session.elapsed(begun);
            if self.slowest < lasted {
                self.slowest = lasted;
            }
            self.answering = None;
        }
    }

    /// The longest time that requests took which came together: from the read that gave them to the next one.
    pub fn slowest(&mut self) -> Duration {
        self.note_answered();
        self.slowest
    }

    // Whether the next byte begins a request of HTTP, or can't be looked at.
    fn begins_no_session(&self) -> bool
        ensures { IsTrue result → IsNoSession S.shows self.now.stream }
    {
        let mut first = [0u8; 1];
        match self.stream.peek(&mut first) {
            Some(count) => count == 1 && first[0].is_ascii_uppercase(),
            None => true,
        }
    }

    // Whether the session is not read: no line of JSON begins with a capital letter, and the first one of HTTP does.
    fn is_turned_away(&self) -> bool
        ensures { IsTrue result → (is_some self.now.client_session.rules.idle ≡ true)
            × (self.now.is_new ≡ true) × IsNoSession S.shows self.now.stream }
    {
        self.client_session.is_strict() && self.is_new && self.begins_no_session()
    }
}

impl<'a, S: Peek, L: Host> ReadStream for Requests<S, ClientSession<'a, L>> {
    // A read fails only as one of the stream; or without one, if the session is turned away, and then no read before it
    // gave a byte.
    ghost words = { record {
      bytes = λ requests. S.ReadStream.words.bytes requests.stream;
      works = λ before after. S.ReadStream.words.works before.stream after.stream
          × (after.is_new ≡ true → (before.is_new ≡ true)
          × Consumes (S.ReadStream.words.bytes before.stream) (S.ReadStream.words.bytes after.stream) []);
      flushes = λ before after. ⊥;
      fails = λ before after. S.ReadStream.words.fails before.stream after.stream
          ⊎ ((after.stream ≡ before.stream) × (is_some before.client_session.rules.idle ≡ true)
          × (before.is_new ≡ true) × IsNoSession S.shows before.stream);
    } };

    fn read_once(&mut self, room: &mut [u8]) -> Result<usize, ReadFailed> {
        self.note_answered();
        if self.is_turned_away() {
            self.has_failed = true;
            return Err(ReadFailed);
        }
        match self.stream.read_once(room) {
            Ok(count) => {
                self.note(&room[..count]);
                self.answering = self.client_session.instant();
                Ok(count)
            }
            Err(ReadFailed) => {
                self.has_failed = true;
                Err(ReadFailed)
            }
        }
    }
}
