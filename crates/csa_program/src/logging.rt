//! What a server writes on standard error: the loader's lines, why a client can't be accepted, and, if they are wanted,
//! two lines for each session and one for each load.
//!
//! A line that can't be written, or for which there is no memory, changes nothing.

ghost use Rattle.std.specs.Prelude.{◌≡◌, ◌++◌, codes, OnOk, string_bytes};
ghost use Rattle.csa_program.specs.Logging.{begin_text, end_word, loaded_text, session_text};

use crate::line_queue::LineQueue;
use arrayvec::ArrayVec;
use command_endings::{StartInstant, put_seconds};
use feed_plans::instant;
use jiff::Timestamp;
use std::alloc::{AllocError, Global};
use std::fmt::Write as _;
use std::io::Write;
use std::sync::Wait;
use std::time::{Clock, Duration};
use std::{io, thread};
use text_pieces::{put_number, put_text, put_word};
use workers::{LoadRefusal, LoadedVersion, SessionEnd};

/// How many bytes of a line are kept until it ends.
const LONGEST_LINE: usize = 4096;

/// How many milliseconds a server waits until it tries to accept a client again.
const PAUSE: u64 = 100;

/// Standard error of a server, which its threads share.
#[derive(Drop)]
pub struct SharedErrors<'a, H> {
    rt: &'a H,
    alloc: Global,
    queue: &'a LineQueue,
}

impl<'a, H> SharedErrors<'a, H> {
    /// Standard error, whose lines wait in this queue.
    pub fn of(rt: &'a H, alloc: Global, queue: &'a LineQueue) -> SharedErrors<'a, H> {
        SharedErrors { rt, alloc, queue }
    }

    /// The same for another thread.
    pub fn another(&self) -> SharedErrors<'a, H> {
        SharedErrors {
            rt: self.rt,
            alloc: self.alloc,
            queue: self.queue,
        }
    }
}

impl<'a, H: Wait> SharedErrors<'a, H> {
    /// Puts bytes into the queue, with no other thread's between them.
    fn put(&self, bytes: &[u8]) {
        self.queue.put(self.rt, bytes);
    }
}

/// What sessions and the acceptance of clients need of their server: a clock, and a place where they report. All
/// threads share it.
pub trait Host {
    /// The start of something that begins now.
    fn now(&self) -> StartInstant;

    /// How long something has lasted, if the clock can be read.
    fn elapsed(&self, begun: StartInstant) -> Option<Duration>;

    /// Waits until accepting may be tried again.
    fn pause(&self);

    /// Logs that the session of this number begins.
    fn log_begin(&self, number: u64);

    /// Logs that the session of this number ended so, how many requests it had sent, how long it took, and how long the
    /// slowest of its requests took.
    fn log_end(
        &self,
        number: u64,
        end: SessionEnd,
        requests: u64,
        begun: StartInstant,
        slowest: Duration,
    );

    /// Tells why no client can be accepted, and whether accepting is tried again.
    fn tell_failure(&self, error: &io::Error, is_last: bool);

    /// Tells that clients are accepted again.
    fn tell_recovery(&self);
}

impl<'a, H: Wait + Clock> Host for SharedErrors<'a, H> {
    fn now(&self) -> StartInstant {
        StartInstant::now(self.rt)
    }

    fn elapsed(&self, begun: StartInstant) -> Option<Duration> {
        begun.elapsed(self.rt)
    }

    fn pause(&self) {
        thread::sleep(self.rt, Duration::from_millis(PAUSE));
    }

    fn log_begin(&self, number: u64) {
        if let Ok(line) = begin_line(self.alloc, instant(self.rt), number) {
            self.put(line.as_bytes());
        }
    }

    fn log_end(
        &self,
        number: u64,
        end: SessionEnd,
        requests: u64,
        begun: StartInstant,
        slowest: Duration,
    ) {
        let lasted = begun.elapsed(self.rt);
        let at = instant(self.rt);
        if let Ok(line) = end_line(self.alloc, at, number, end, requests, lasted, slowest) {
            self.put(line.as_bytes());
        }
    }

    // It takes no memory, since memory may be what is wanting.
    fn tell_failure(&self, error: &io::Error, is_last: bool) {
        let then = if is_last {
            "no more are accepted"
        } else {
            "trying again"
        };
        let mut line = LoaderErrors::of(self.another());
        let _ = write!(line, "csa: clients can't be accepted: {error}: {then}\n");
    }

    fn tell_recovery(&self) {
        self.put(b"csa: clients are accepted again\n");
    }
}

/// Standard error as the loader writes it: each of its lines is written in one piece, unless it is longer than
/// `LONGEST_LINE`. It takes no memory.
#[derive(Drop)]
pub struct LoaderErrors<'a, H> {
    errors: SharedErrors<'a, H>,
    /// The line that has begun.
    line: ArrayVec<u8, LONGEST_LINE>,
}

impl<'a, H: Wait> LoaderErrors<'a, H> {
    /// No line has begun yet.
    pub fn of(errors: SharedErrors<'a, H>) -> LoaderErrors<'a, H> {
        LoaderErrors {
            errors,
            line: ArrayVec::new(),
        }
    }

    fn write_line(&mut self) {
        self.errors.put(self.line.as_slice());
        self.line = ArrayVec::new();
    }
}

/// If a line grows too long, what is kept of it is written, and then the piece that didn't fit.
impl<'a, H: Wait> Write for LoaderErrors<'a, H> {
    fn write(&mut self, piece: &[u8]) -> io::Result<usize> {
        match self.line.try_extend_from_slice(piece) {
            Ok(()) => {
                if piece.ends_with(b"\n") {
                    self.write_line();
                }
            }
            Err(_) => {
                self.write_line();
                self.errors.put(piece);
            }
        }
        Ok(piece.len())
    }

    fn flush(&mut self) -> io::Result<()> {
        Ok(())
    }
}

/// Logs what came of the load of a feed, and how long it took.
pub fn log_load<C: Clock, W: Write>(
    clock: &C,
    alloc: Global,
    name: &str,
    begun: StartInstant,
    outcome: Result<LoadedVersion, LoadRefusal>,
    errors: &mut W,
) {
    let lasted = begun.elapsed(clock);
    if let Ok(line) = load_line(alloc, instant(clock), name, outcome, lasted) {
        let _ = errors.write_all(line.as_bytes());
    }
}

fn begin_line(alloc: Global, at: Option<i64>, number: u64) -> Result<String, AllocError> {
    let mut line = String::new(alloc);
    put_instant(&mut line, at)?;
    put_begin(&mut line, number)?;
    Ok(line)
}

fn end_line(
    alloc: Global,
    at: Option<i64>,
    number: u64,
    end: SessionEnd,
    requests: u64,
    lasted: Option<Duration>,
    slowest: Duration,
) -> Result<String, AllocError> {
    let mut line = String::new(alloc);
    put_instant(&mut line, at)?;
    put_session(&mut line, number, end, requests)?;
    put_seconds(&mut line, lasted)?;
    put_text(&mut line, " slowest")?;
    put_end(&mut line, Some(slowest))?;
    Ok(line)
}

fn load_line(
    alloc: Global,
    at: Option<i64>,
    name: &str,
    outcome: Result<LoadedVersion, LoadRefusal>,
    lasted: Option<Duration>,
) -> Result<String, AllocError> {
    let mut line = String::new(alloc);
    put_instant(&mut line, at)?;
    put_text(&mut line, " load")?;
    put_word(&mut line, name)?;
    match outcome {
        Ok(loaded) => put_loaded(&mut line, &loaded)?,
        Err(refusal) => put_number(&mut line, " refused ", refusal.number() as u64)?,
    }
    put_end(&mut line, lasted)?;
    Ok(line)
}

/// Adds an instant, in seconds after 1970-01-01T00:00:00Z, as RFC 3339 spells it in UTC; a hyphen if there is none.
fn put_instant(line: &mut String, at: Option<i64>) -> Result<(), AllocError> {
    match at.and_then(timestamp) {
        Some(timestamp) => write!(line, "{timestamp}"),
        None => put_text(line, "-"),
    }
}

fn timestamp(second: i64) -> Option<Timestamp> {
    Timestamp::from_second(second).ok()
}

/// Adds the number of a session that begins, and ends the line.
fn put_begin(line: &mut String, number: u64) -> Result<(), AllocError>
    ensures { OnOk result (string_bytes line.new ≡ string_bytes line.old ++ begin_text number) }
{
    put_number(line, " session ", number)?;
    put_text(line, " began\n")?;
    Ok(())
}

/// Adds a session's number, how it ended, and how many requests it had sent.
fn put_session(
    line: &mut String,
    number: u64,
    end: SessionEnd,
    requests: u64,
) -> Result<(), AllocError>
    ensures { OnOk result (string_bytes line.new ≡ string_bytes line.old ++ session_text number end requests) }
{
    put_number(line, " session ", number)?;
    put_word(line, word_of(end))?;
    put_number(line, " requests ", requests)?;
    Ok(())
}

fn word_of(end: SessionEnd) -> &'static str
    ensures { result.now ≡ end_word end }
{
    match end {
        SessionEnd::Ended => "ended",
        SessionEnd::Failed => "failed",
        SessionEnd::Spent => "spent",
    }
}

/// Adds the version that a load published, and the counts of its image.
fn put_loaded(line: &mut String, loaded: &LoadedVersion) -> Result<(), AllocError>
    ensures { OnOk result (string_bytes line.new ≡ string_bytes line.old ++ loaded_text loaded.now) }
{
    put_number(line, " version ", loaded.version)?;
    put_number(line, " runs ", loaded.report.runs as u64)?;
    put_number(line, " connections ", loaded.report.connections as u64)?;
    Ok(())
}

// Adds how many seconds it took, and ends the line.
fn put_end(line: &mut String, lasted: Option<Duration>) -> Result<(), AllocError> {
    put_seconds(line, lasted)?;
    put_text(line, "\n")
}
