//! Requests that come in two reads, cut at each byte: a session with a line that is too long, and that line by itself.

use super::{REPLIES, feed_of, image, requests, talked};
use crate::scripted::Halves;
use crate::streams::taker_of;
use image_verifier::Verified;
use session::{Ended, OpenGate};
use solo_orders::FeedImage;
use std::alloc::{AllocError, Global};
use std::io;
use std::io::{Read, Write};
use std::sync::Arc;
use std::test::Fail;

// How many bytes a line that is too long has before its LF.
const LONG: usize = 65_537;

// The reply to it.
const TOO_LONG: &[u8] = b"{\"error\":113,\"name\":\"LineTooLong\"}\n";

// The feed `slow`, which shares its image.
fn feeds_of(alloc: Global, slow: &Arc<Verified, Global>) -> Result<Vec<FeedImage>, AllocError> {
    let mut feeds = Vec::with_capacity(alloc, 1)?;
    feeds.push(feed_of(alloc, "slow", Arc::try_clone(slow)?)?)?;
    Ok(feeds)
}

// Whether the requests have these replies if they come in two reads, the first of so many bytes.
fn is_answered(
    alloc: Global,
    first: &Arc<Verified, Global>,
    slow: &Arc<Verified, Global>,
    requests: &[u8],
    index: usize,
) -> Result<bool, Fail> {
    let (front, back) = requests.split_at(requests.len().min(index));
    let (ended, taker) = talked(
        alloc,
        Arc::try_clone(first)?,
        feeds_of(alloc, slow)?,
        Halves { front, back },
        taker_of(alloc, REPLIES.len() + 1, true),
        &OpenGate,
    )?;
    Ok(ended == Ok(Ended) && taker.taken.as_slice() == REPLIES.as_bytes())
}

// Whether an offset is in the long line that begins at `begin`, and not near one of its ends.
fn is_deep(begin: usize, index: usize) -> bool {
    index > begin.saturating_add(50) && index < begin.saturating_add(LONG - 50)
}

/// Cuts at each byte of the session's lines, except those deep in the long line.
#[test]
fn a_session_with_a_long_line_may_be_cut(rt: HostRuntime) -> Result<(), Fail> {
    let alloc: Global = rt.alloc();
    let requests = requests(alloc)?;
    let begin = requests.iter().position(|byte| *byte == b'x').unwrap_or(0);
    let (first, slow) = (image(alloc, 0)?, image(alloc, 121)?);
    for index in 0..requests.len() {
        if !is_deep(begin, index) {
            assert!(&rt;
                is_answered(alloc, &first, &slow, &requests, index)?,
                "cut at {index}"
            );
        }
    }
    Ok(())
}

// How far apart the cuts of one line are, in bytes.
const STRIDE: usize = 1_024;

// A reader of lines that are too long. The reads of the first end after each `STRIDE` bytes, and those of each further
// line one byte later: so together they are cut at each byte.
#[derive(Drop)]
struct LongLines {
    lines: usize,
    given: usize,
}

impl LongLines {
    // Where the read ends that begins after the bytes given so far.
    fn next_cut(&self) -> usize {
        if self.given < self.lines {
            return self.lines;
        }
        let behind = self.given.saturating_sub(self.lines) % STRIDE;
        self.given.saturating_add(STRIDE.saturating_sub(behind))
    }
}

impl Read for LongLines {
    fn read(&mut self, room: &mut [u8]) -> io::Result<usize> {
        if self.lines >= STRIDE {
            return Ok(0);
        }
        let end = self.next_cut().min(LONG + 1);
        let count = room.len().min(end.saturating_sub(self.given));
        room[..count].fill(b'x');
        self.given = self.given.saturating_add(count);
        if self.given > LONG {
            if let Some(last) = room[..count].last_mut() {
                *last = b'\n';
            }
            self.lines += 1;
            self.given = 0;
        }
        Ok(count)
    }
}

// A writer that takes replies to lines that are too long, and counts them. It fails at any other.
#[derive(Drop)]
struct Tally {
    replies: usize,
}

impl Write for Tally {
    fn write(&mut self, piece: &[u8]) -> io::Result<usize> {
        if piece != TOO_LONG {
            return Err(io::Error::from(io::ErrorKind::InvalidData));
        }
        self.replies = self.replies.saturating_add(1);
        Ok(piece.len())
    }

    fn flush(&mut self) -> io::Result<()> {
        Ok(())
    }
}

/// Cuts at each byte of the long line, by a session of such lines, each cut elsewhere.
#[test]
fn a_long_line_may_be_cut_anywhere(rt: HostRuntime) -> Result<(), Fail> {
    let alloc: Global = rt.alloc();
    let (ended, tally) = talked(
        alloc,
        image(alloc, 0)?,
        Vec::new(alloc),
        LongLines { lines: 0, given: 0 },
        Tally { replies: 0 },
        &OpenGate,
    )?;
    assert!(&rt; ended == Ok(Ended));
    assert_eq!(&rt; tally.replies, STRIDE);
    Ok(())
}
