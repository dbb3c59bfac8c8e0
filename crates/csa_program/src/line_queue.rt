//! Lines for standard error, which a thread of its own writes. Whoever has a line puts it into a queue and never waits
//! until somebody reads standard error: a line for which the queue has no room is dropped and counted.

ghost use Rattle.std.specs.Prelude.{◌≡◌, ◌≤◌, ◌<◌, ◌+◌, ◌++◌, ◌-◌, ◌^◌, [], true, false, IfOk, length};
ghost use Rattle.std.specs.Prelude.{min, vec_capacity};
ghost use Rattle.csa_program.specs.declared.line_queue.TheConstants.{MOST_WAITING};

use std::alloc::{AllocError, Global};
use std::io::Write;
use std::mem;
use std::sync::{Condvar, Mutex, Wait};

/// How many bytes of lines may wait to be written.
const MOST_WAITING: usize = 65_536;

/// Bytes of lines, with memory for as many as may wait.
#[derive(Drop)]
struct Buffer {
    bytes: Vec<u8>,
    ghost room: { MOST_WAITING ≤ vec_capacity bytes },
}

impl Buffer {
    fn new(alloc: Global) -> Result<Buffer, AllocError>
        ensures { IfOk result (λ buffer. buffer.bytes.items ≡ []) }
    {
        Ok(Buffer {
            bytes: Vec::with_capacity(alloc, MOST_WAITING)?,
        })
    }

    // Adds a line if there is room for all of it, and returns whether there was.
    fn add(&mut self, line: &[u8]) -> bool
        ensures fits { length self.old.bytes.items + length line.now ≤ MOST_WAITING
            → (result ≡ true) × (self.new.bytes.items ≡ self.old.bytes.items ++ line.now) }
        ensures full { MOST_WAITING < length self.old.bytes.items + length line.now
            → (result ≡ false) × (self.new.bytes.items ≡ self.old.bytes.items) }
    {
        if line.len() > MOST_WAITING || self.bytes.len() > MOST_WAITING - line.len() {
            return false;
        }
        self.bytes.extend_from_slice(line).is_ok()
    }

    fn clear(&mut self)
        ensures { self.new.bytes.items ≡ [] }
    {
        self.bytes.clear();
    }
}

/// What waits to be written.
#[derive(Drop)]
struct Backlog {
    lines: Buffer,
    /// How many lines found no room behind these.
    dropped: u64,
    /// Whether no more lines come.
    is_closed: bool,
}

impl Backlog {
    // Puts a line behind the others; if there is no room for it, it is dropped and counted.
    fn put(&mut self, line: &[u8])
        ensures fits { length self.old.lines.bytes.items + length line.now ≤ MOST_WAITING
            → (self.new.lines.bytes.items ≡ self.old.lines.bytes.items ++ line.now)
            × (self.new.dropped ≡ self.old.dropped) }
        ensures full { MOST_WAITING < length self.old.lines.bytes.items + length line.now
            → (self.new.lines.bytes.items ≡ self.old.lines.bytes.items)
            × (self.new.dropped ≡ min (self.old.dropped + 1) (2 ^ 64 - 1)) }
        ensures closed { self.new.is_closed ≡ self.old.is_closed }
    {
        if !self.lines.add(line) {
            self.dropped = self.dropped.saturating_add(1);
        }
    }

    // Moves all lines to `taken`, which is empty, and returns how many were dropped behind them.
    fn take(&mut self, taken: &mut Buffer) -> u64
        ensures lines { taken.new.bytes.items ≡ self.old.lines.bytes.items }
        ensures dropped { result ≡ self.old.dropped }
        ensures emptied { taken.old.bytes.items ≡ [] → self.new.lines.bytes.items ≡ [] }
        ensures none { self.new.dropped ≡ 0 }
        ensures closed { self.new.is_closed ≡ self.old.is_closed }
    {
        mem::swap(&mut self.lines, taken);
        mem::replace(&mut self.dropped, 0)
    }

    fn is_empty(&self) -> bool {
        self.lines.bytes.is_empty() && self.dropped == 0
    }
}

/// Lines that wait to be written, which all threads of a server share.
#[derive(Drop)]
pub struct LineQueue {
    waiting: Mutex<Backlog>,
    changed: Condvar,
}

impl LineQueue {
    /// No line waits. The writer is for the thread that writes them.
    pub fn new(alloc: Global) -> Result<(LineQueue, LineWriter), AllocError> {
        let waiting = Backlog {
            lines: Buffer::new(alloc)?,
            dropped: 0,
            is_closed: false,
        };
        let queue = LineQueue {
            waiting: Mutex::new(waiting),
            changed: Condvar::new(),
        };
        let taken = Buffer::new(alloc)?;
        Ok((queue, LineWriter { taken }))
    }

    /// Puts a line behind the others, or drops and counts it if there is no room for it. It takes no memory.
    pub fn put<R: Wait>(&self, rt: &R, line: &[u8]) {
        let mut waiting = self.waiting.lock(rt);
        waiting.put(line);
        drop(waiting);
        self.changed.notify_one();
    }

    /// Says that no more lines come.
    pub fn close<R: Wait>(&self, rt: &R) {
        let mut waiting = self.waiting.lock(rt);
        waiting.is_closed = true;
        drop(waiting);
        self.changed.notify_one();
    }

    // Waits until there are lines, and moves them to `taken`, which is empty. Returns how many were dropped behind
    // them; `None` once there are none and no more come.
    fn take<R: Wait>(&self, rt: &R, taken: &mut Buffer) -> Option<u64> {
        let mut waiting = self.waiting.lock(rt);
        for _ in rt.forever() {
            if !waiting.is_empty() {
                return Some(waiting.take(taken));
            }
            if waiting.is_closed {
                return None;
            }
            waiting = self.changed.wait(rt, waiting);
        }
        unreachable!()
    }
}

/// Writes the lines of a queue.
#[derive(Drop)]
pub struct LineWriter {
    taken: Buffer,
}

impl LineWriter {
    /// Writes all lines that are put into the queue, until it is closed. Lines that were dropped are reported in their
    /// place, by their number. A line that can't be written changes nothing.
    pub fn write_all<R: Wait, W: Write>(self, rt: &R, queue: &LineQueue, writer: &mut W) {
        let LineWriter { mut taken } = self;
        for _ in rt.forever() {
            let Some(dropped) = queue.take(rt, &mut taken) else {
                return;
            };
            let _ = writer.write_all(&taken.bytes);
            taken.clear();
            if dropped > 0 {
                let _ = write!(
                    writer,
                    "csa: {dropped} lines are missing here: nobody read standard error\n"
                );
            }
        }
    }
}
