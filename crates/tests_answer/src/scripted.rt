//! Sessions whose replies are predicted by a plain model.

ghost use Rattle.std.specs.Prelude.{◌≡◌};

use crate::sessions::{Solo, feed_of, image, solo_of, talked};
use crate::streams::{Pieces, Taker, taker_of};
use orders::{Gate, OrderFault, OrderRecord, Orders};
use session::{Ended, OpenGate, SessionFault, SessionServer, Streams};
use shelves::{Loads, NamedNotice, NamedShelves, ShelvesName};
use solo_orders::FeedImage;
use std::alloc::{AllocError, Global};
use std::io;
use std::io::{Read, Write};
use std::marker::Brand;
use std::process::Abort;
use std::sync::atomic::{AtomicU64, Ordering};
use std::test::Fail;
use timetable::Trace;

// What a line asks.
#[derive(Clone, Copy, PartialEq, Eq)]
enum LineRequest {
    Pin,
    Release,
    Profile,
    Load(&'static str),
    Wait(&'static str),
    NoJson,
    NoRequest,
    Long,
}

const KINDS: [LineRequest; 12] = [
    LineRequest::Pin,
    LineRequest::Profile,
    LineRequest::Load("slow"),
    LineRequest::Release,
    LineRequest::Profile,
    LineRequest::Pin,
    LineRequest::Load("fast"),
    LineRequest::NoJson,
    LineRequest::Load("none"),
    LineRequest::NoRequest,
    LineRequest::Wait("slow"),
    LineRequest::Wait("fast"),
];

const SHORT: [LineRequest; 11] = [
    LineRequest::Pin,
    LineRequest::Load("slow"),
    LineRequest::Profile,
    LineRequest::Release,
    LineRequest::Profile,
    LineRequest::NoJson,
    LineRequest::Pin,
    LineRequest::Pin,
    LineRequest::Load("none"),
    LineRequest::Release,
    LineRequest::Release,
];

/// A line that is too long, between two pins.
const LONG: [LineRequest; 3] = [LineRequest::Pin, LineRequest::Long, LineRequest::Pin];

// The feeds that may be ordered, each entry once, in this order.
const FEEDS: [&str; 3] = ["slow", "fast", "slow"];

const PROFILE: &str =
    "{\"do\":\"profile\",\"from\":\"A\",\"to\":\"C\",\"after\":\"07:00:00\",\"until\":\"09:00:00\",\"by\":\"10:00:00\",\"criterion\":\"arrival\"}\n";

const FAST: &str =
    "{\"arr\":\"08:20:00\",\"dep\":\"08:00:00\",\"journey\":\"ride 0 0 walk 1 1 0 ride 2 2\"}";

const SLOW: &str = "{\"arr\":\"08:30:00\",\"dep\":\"08:00:00\",\"journey\":\"ride 0 1\"}";

// What the model knows: the version that is held, the feeds of all versions so far, the feeds that may still be
// ordered, and whether an order publishes one.
#[derive(Drop)]
struct Shown {
    held: Option<usize>,
    published: Vec<&'static str>,
    left: Vec<&'static str>,
    is_publishing: bool,
}

impl Shown {
    fn new(alloc: Global) -> Result<Shown, AllocError> {
        let mut published = Vec::new(alloc);
        published.push("fast")?;
        Ok(Shown {
            held: None,
            published,
            left: FEEDS.to_vec(alloc)?,
            is_publishing: true,
        })
    }

    // Adds the reply to a line.
    fn answer(&mut self, asked: LineRequest, replies: &mut String) -> Result<(), AllocError> {
        match asked {
            LineRequest::Pin => self.pin(replies),
            LineRequest::Release => self.release(replies),
            LineRequest::Profile => self.profile(replies),
            LineRequest::Load(feed) => self.load(feed, false, replies),
            LineRequest::Wait(feed) => self.load(feed, true, replies),
            LineRequest::NoJson => refuse(111, "BadJson", replies),
            LineRequest::NoRequest => refuse(112, "BadRequest", replies),
            LineRequest::Long => refuse(113, "LineTooLong", replies),
        }
    }

    fn pin(&mut self, replies: &mut String) -> Result<(), AllocError> {
        if self.held.is_some() {
            return refuse(92, "AlreadyPinned", replies);
        }
        let version = self.published.len();
        self.held = Some(version);
        write!(
            replies,
            "{{\"base\":1705276800,\"ok\":\"pin\",\"version\":{version}}}\n"
        )
    }

    fn release(&mut self, replies: &mut String) -> Result<(), AllocError> {
        match self.held.take() {
            Some(_) => replies.push_str("{\"ok\":\"release\"}\n"),
            None => refuse(93, "NotPinned", replies),
        }
    }

    fn profile(&mut self, replies: &mut String) -> Result<(), AllocError> {
        let version = self.held.unwrap_or(self.published.len());
        let point = match self.published.get(version.saturating_sub(1)) {
            Some(&"slow") => SLOW,
            _ => FAST,
        };
        write!(
            replies,
            "{{\"ok\":\"profile\",\"points\":[{point}],\"version\":{version},\"walk\":null}}\n"
        )
    }

    fn load(
        &mut self,
        feed: &'static str,
        waits: bool,
        replies: &mut String,
    ) -> Result<(), AllocError> {
        let Some(index) = self.left.iter().position(|one| *one == feed) else {
            return refuse(114, "UnknownFeed", replies);
        };
        if self.is_publishing {
            self.left.remove(index);
            self.published.push(feed)?;
        }
        if !waits {
            return write!(replies, "{{\"feed\":\"{feed}\",\"ok\":\"load\"}}\n");
        }
        let version = self.published.len();
        write!(
            replies,
            "{{\"feed\":\"{feed}\",\"ok\":\"load\",\"version\":{version}}}\n"
        )
    }
}

fn refuse(number: u32, name: &str, replies: &mut String) -> Result<(), AllocError> {
    write!(replies, "{{\"error\":{number},\"name\":\"{name}\"}}\n")
}

// Adds the line that asks this.
fn ask(asked: LineRequest, requests: &mut String) -> Result<(), AllocError> {
    match asked {
        LineRequest::Pin => requests.push_str("{\"do\":\"pin\"}\n"),
        LineRequest::Release => requests.push_str("{\"do\":\"release\"}\n"),
        LineRequest::Profile => requests.push_str(PROFILE),
        LineRequest::Load(feed) => write!(requests, "{{\"do\":\"load\",\"feed\":\"{feed}\"}}\n"),
        LineRequest::Wait(feed) => write!(
            requests,
            "{{\"do\":\"load\",\"feed\":\"{feed}\",\"wait\":true}}\n"
        ),
        LineRequest::NoJson => requests.push_str("{\"do\":\"pi\n"),
        LineRequest::NoRequest => requests.push_str("{\"do\":\"pie\"}\n"),
        LineRequest::Long => add_long(requests),
    }
}

// Adds a line with one byte more than may be read.
fn add_long(requests: &mut String) -> Result<(), AllocError> {
    for _ in 0..65_537 {
        requests.push('x')?;
    }
    requests.push('\n')
}

// A session: its requests, and the replies that the model predicts.
#[derive(Drop)]
struct Script {
    shown: Shown,
    requests: String,
    replies: String,
}

impl Script {
    fn new(alloc: Global) -> Result<Script, AllocError> {
        Ok(Script {
            shown: Shown::new(alloc)?,
            requests: String::new(alloc),
            replies: String::new(alloc),
        })
    }

    fn add(&mut self, asked: LineRequest) -> Result<(), AllocError> {
        ask(asked, &mut self.requests)?;
        self.shown.answer(asked, &mut self.replies)
    }
}

fn script_of(alloc: Global, lines: &[LineRequest]) -> Result<Script, AllocError> {
    let mut script = Script::new(alloc)?;
    for asked in lines {
        script.add(*asked)?;
    }
    Ok(script)
}

// The feeds, each with its image.
fn feeds(alloc: Global) -> Result<Vec<FeedImage>, Fail> {
    let mut feeds = Vec::new(alloc);
    for name in FEEDS {
        let change = if name == "slow" { 121 } else { 0 };
        feeds.push(feed_of(alloc, name, image(alloc, change)?)?)?;
    }
    Ok(feeds)
}

// The outcome of a session over new shelves, and what is written.
fn reported<In: Read + Drop>(
    alloc: Global,
    reader: In,
) -> Result<(Result<Ended, SessionFault>, Taker), Fail> {
    let taker = taker_of(alloc, 100_000, true);
    talked(
        alloc,
        image(alloc, 0)?,
        feeds(alloc)?,
        reader,
        taker,
        &OpenGate,
    )
}

// Pseudorandom numbers, the same in each run.
#[derive(Drop)]
struct Dice {
    state: u64,
}

impl Dice {
    fn roll(&mut self) -> usize {
        self.state = self.state.wrapping_mul(48_271) % 2_147_483_647;
        (self.state % 1_000) as usize
    }
}

fn drawn(alloc: Global, dice: &mut Dice) -> Result<Script, AllocError> {
    let mut script = Script::new(alloc)?;
    for _ in 0..dice.roll() % 9 {
        script.add(KINDS[dice.roll() % 12])?;
    }
    Ok(script)
}

// Whether a session ended, and wrote the replies that the model predicts.
fn is_answered(script: &Script, reported: &(Result<Ended, SessionFault>, Taker)) -> bool {
    let (ended, taker) = reported;
    *ended == Ok(Ended) && taker.taken.as_slice() == script.replies.as_bytes()
}

#[test]
fn drawn_sessions_are_answered(rt: HostRuntime) -> Result<(), Fail> {
    let mut dice = Dice { state: 1 };
    for _ in 0..200 {
        let script = drawn(rt.alloc(), &mut dice)?;
        let reader = Pieces {
            rest: script.requests.as_bytes(),
            most: 100,
            is_failing: false,
        };
        assert!(rt; is_answered(&script, &reported(rt.alloc(), reader)?));
    }
    Ok(())
}

// A reader that gives its bytes in two reads.
#[derive(Drop)]
pub(crate) struct Halves<'a> {
    pub(crate) front: &'a [u8],
    pub(crate) back: &'a [u8],
}

impl Read for Halves<'_> {
    fn read(&mut self, room: &mut [u8]) -> io::Result<usize> {
        if self.front.is_empty() {
            self.front = self.back;
            self.back = b"";
        }
        let count = room.len().min(self.front.len());
        let (piece, rest) = self.front.split_at(count);
        room[..count].copy_from_slice(piece);
        self.front = rest;
        Ok(count)
    }
}

// Asserts that the requests are answered if they come in two reads, the first of which ends at this byte.
fn cut_at<R: Abort>(rt: &R, alloc: Global, script: &Script, index: usize) -> Result<(), Fail> {
    let bytes = script.requests.as_bytes();
    let (front, back) = bytes.split_at(bytes.len().min(index));
    assert!(rt;
        is_answered(script, &reported(alloc, Halves { front, back })?),
        "at {index}"
    );
    Ok(())
}

#[test]
fn lines_may_be_cut_anywhere(rt: HostRuntime) -> Result<(), Fail> {
    let script = script_of(rt.alloc(), &SHORT)?;
    for index in 0..script.requests.len() {
        cut_at(&rt, rt.alloc(), &script, index)?;
    }
    Ok(())
}

/// A line that is too long may be cut, too: before it, in it, where it becomes too long, and around its end.
#[test]
fn a_long_line_may_be_cut(rt: HostRuntime) -> Result<(), Fail> {
    let script = script_of(rt.alloc(), &LONG)?;
    for index in [13, 14, 65_548, 65_549, 65_550, 65_551] {
        cut_at(&rt, rt.alloc(), &script, index)?;
    }
    Ok(())
}

// How many lines of a text have an end.
fn whole_lines(text: &[u8]) -> usize {
    text.iter().filter(|byte| **byte == b'\n').count()
}

// Whether these are the replies to the whole lines among the bytes that were read.
fn answers_whole_lines(script: &Script, taken: &[u8], read: &[u8]) -> bool {
    script.replies.as_bytes().starts_with(taken)
        && whole_lines(taken) == whole_lines(read)
        && (taken.is_empty() || taken.ends_with(b"\n"))
}

/// The reader of a session fails after so many bytes: each whole line before is answered, and the session fails.
fn fails_at<R: Abort>(rt: &R, alloc: Global, script: &Script, index: usize) -> Result<(), Fail> {
    let bytes = script.requests.as_bytes();
    let (front, _) = bytes.split_at(bytes.len().min(index));
    let reader = Pieces {
        rest: front,
        most: 7,
        is_failing: true,
    };
    let (ended, taker) = reported(alloc, reader)?;
    assert!(rt; ended == Err(SessionFault::ReadFailed));
    assert!(rt;
        answers_whole_lines(script, &taker.taken, front),
        "at {index}"
    );
    Ok(())
}

#[test]
fn a_read_may_fail_anywhere(rt: HostRuntime) -> Result<(), Fail> {
    let script = script_of(rt.alloc(), &SHORT)?;
    for index in 0..script.requests.len() {
        fails_at(&rt, rt.alloc(), &script, index)?;
    }
    Ok(())
}

/// A read may also fail around a line that is too long: before it, in it, where it becomes too long, at its end and
/// after it.
#[test]
fn a_read_may_fail_in_a_long_line(rt: HostRuntime) -> Result<(), Fail> {
    let script = script_of(rt.alloc(), &LONG)?;
    for index in [13, 14, 4_096, 65_548, 65_549, 65_550, 65_551, 65_560] {
        fails_at(&rt, rt.alloc(), &script, index)?;
    }
    Ok(())
}

// A gate that counts how many scans are open.
#[derive(Drop)]
struct Scans {
    open: AtomicU64,
}

impl Gate for Scans {
    fn enter(&self) {
        self.open.fetch_add(1, Ordering::SeqCst);
    }

    fn leave(&self) {
        self.open.fetch_sub(1, Ordering::SeqCst);
    }
}

// A writer that notes for each line how many scans are open.
#[derive(Drop)]
struct NotedPieces<'a> {
    scans: &'a Scans,
    noted: String,
}

impl Write for NotedPieces<'_> {
    fn write(&mut self, piece: &[u8]) -> io::Result<usize> {
        let open = self.scans.open.load(Ordering::SeqCst);
        match write!(self.noted, "{open}") {
            Ok(()) => Ok(piece.len()),
            Err(_) => Err(io::Error::from(io::ErrorKind::OutOfMemory)),
        }
    }

    fn flush(&mut self) -> io::Result<()> {
        Ok(())
    }
}

// The outcome of a session, and what is noted about its scans.
fn noted(
    alloc: Global,
    script: &Script,
    scans: &Scans,
) -> Result<(Result<Ended, SessionFault>, String), Fail> {
    let notes = NotedPieces {
        scans,
        noted: String::new(alloc),
    };
    let reader = Pieces {
        rest: script.requests.as_bytes(),
        most: 100,
        is_failing: false,
    };
    let (first, feeds) = (image(alloc, 0)?, feeds(alloc)?);
    let (ended, notes) = talked(alloc, first, feeds, reader, notes, scans)?;
    Ok((ended, notes.noted))
}

/// A scan is left only after its reply was written.
#[test]
fn scans_are_left_behind_their_replies(rt: HostRuntime) -> Result<(), Fail> {
    let script = script_of(rt.alloc(), &SHORT)?;
    let scans = Scans {
        open: AtomicU64::new(0),
    };
    let (ended, noted) = noted(rt.alloc(), &script, &scans)?;
    assert!(rt; ended == Ok(Ended));
    assert!(rt; noted.as_str() == "00101000000");
    Ok(())
}

const GROWING: [LineRequest; 6] = [
    LineRequest::Profile,
    LineRequest::Load("slow"),
    LineRequest::Pin,
    LineRequest::Wait("slow"),
    LineRequest::Profile,
    LineRequest::Release,
];

// The script in which memory is wanting for this line, so that the line has no effect. A second version is there from
// the beginning, and no order publishes one.
fn wanting_at(alloc: Global, line: usize) -> Result<Script, AllocError> {
    let mut script = Script::new(alloc)?;
    script.shown.published.push("slow")?;
    script.shown.is_publishing = false;
    for (index, asked) in GROWING.iter().enumerate() {
        if index == line {
            ask(*asked, &mut script.requests)?;
            refuse(116, "OutOfMemory", &mut script.replies)?;
        } else {
            script.add(*asked)?;
        }
    }
    Ok(script)
}

fn is_reported_by_one(scripts: &[Script], replies: &[u8]) -> bool {
    scripts
        .iter()
        .any(|script| script.replies.as_bytes() == replies)
}

// Orders that take no memory. Those that nobody waits for are counted; an order that is waited for is answered with a
// version that was there before.
#[derive(Drop)]
struct OrderCount<B: ShelvesName> {
    count: usize,
    notice: Option<NamedNotice<B>>,
    asked: Trace<OrderRecord>,
}

impl<B: ShelvesName> Orders for OrderCount<B> {
    type Notice = NamedNotice<B>;

    ghost route = { λ _. tt };

    ghost asked = { λ orders. orders.asked };

    ghost notice_version = { λ notice. notice.version };

    fn order(&mut self, feed: &str) -> Result<(), OrderFault> {
        self.count = self.count.saturating_add(1);
        self.asked.note(&OrderRecord::put(feed, Ok(())));
        Ok(())
    }

    fn order_wait(&mut self, feed: &str) -> Result<(u64, NamedNotice<B>), OrderFault> {
        let reported = match self.notice.take() {
            Some(notice) => Ok((notice.version(), notice)),
            None => Err(OrderFault::UnknownFeed),
        };
        self.asked.note(&OrderRecord::waited(feed, &reported));
        reported
    }
}

// Publishes a second version at these shelves and serves the requests: the outcome, what was written, and how many
// orders nobody waited for.
fn counting_at<B: ShelvesName>(
    alloc: Global,
    solo: Solo,
    requests: &[u8],
    taker: Taker,
) -> Result<(Result<Ended, SessionFault>, Taker, usize), Fail>
    requires { (solo.shelves ≡ B.table) × (solo.loader.table ≡ B.table) × (solo.seat.table ≡ B.table) }
{
    let (shelves, mut loader, mut seat) = NamedShelves::<B>::with_seat(
        solo.shelves,
        solo.loader,
        solo.seat,
    );
    let Ok((_, Some(notice))) = shelves.publish(&mut loader, image(alloc, 121)?) else {
        return Err(AllocError.into());
    };
    let mut orders = OrderCount {
        count: 0,
        notice: Some(notice),
        asked: Trace::new(),
    };
    let mut streams = Streams::new(requests, taker);
    let session_server = SessionServer::new(alloc, &shelves, &OpenGate);
    let ended = session_server.serve(&mut streams, &mut seat, &mut orders);
    Ok((ended, streams.writer.into_inner(), orders.count))
}

// The same over new shelves.
fn counting(
    alloc: Global,
    requests: &[u8],
) -> Result<(Result<Ended, SessionFault>, Taker, usize), Fail> {
    let mut taker = taker_of(alloc, 10_000, true);
    taker.taken.reserve(10_000)?;
    let solo = solo_of(alloc, image(alloc, 0)?)?;
    counting_at::<Brand>(alloc, solo, requests, taker)
}

// How many replies tell of a load for which nobody waits.
fn loads_reported(replies: &[u8]) -> usize {
    str::from_utf8(replies)
        .unwrap_or("?")
        .lines()
        .filter(|line| *line == "{\"feed\":\"slow\",\"ok\":\"load\"}")
        .count()
}

// For each line, the script in which memory is wanting for that line.
fn all_wanting(alloc: Global) -> Result<Vec<Script>, AllocError> {
    let mut wanting = Vec::new(alloc);
    for line in 0..GROWING.len() {
        wanting.push(wanting_at(alloc, line)?)?;
    }
    Ok(wanting)
}

// Asserts that the session is answered as the whole script says, or as one in which memory is wanting.
fn answers_or_wants<R: Abort>(
    rt: &R,
    alloc: Global,
    whole: &Script,
    wanting: &[Script],
) -> Result<(), Fail> {
    let (ended, taker, ordered) = counting(alloc, whole.requests.as_bytes())?;
    assert!(rt; ended == Ok(Ended) && ordered == loads_reported(&taker.taken));
    if is_reported_by_one(wanting, &taker.taken) {
        return Err(AllocError.into());
    }
    assert!(rt; taker.taken.as_slice() == whole.replies.as_bytes());
    Ok(())
}

/// Whichever growth is refused while a line is answered, the reply to that line tells want of memory, the others are as
/// ever, a pin that can't be reported is given back, and a load that can't be reported isn't ordered. A refused growth
/// ends the test with `AllocError`.
#[test]
fn refused_growth_is_reported_by_a_reply(rt: HostRuntime) -> Result<(), Fail> {
    let whole = wanting_at(rt.alloc(), GROWING.len())?;
    let wanting = all_wanting(rt.alloc())?;
    answers_or_wants(&rt, rt.alloc(), &whole, &wanting)
}
