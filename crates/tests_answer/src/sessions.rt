//! Sessions as clients see them.

mod cuts;

ghost use Rattle.std.specs.Prelude.{◌≡◌, IfOk, Ok};

use crate::streams::{Answers, Asker, Endless, Pieces, Taker, failing_at, taker_of, whole};
use image_layout::sample_words;
use image_verifier::{Verified, verify};
use orders::{Gate, OrderFault, OrderRecord, Orders};
use session::{Counted, Ended, OpenGate, SessionFault, SessionServer, Streams, serve};
use shelves::{NamedShelves, ShelfLoader, ShelfSeat, Shelves, ShelvesName};
use solo_orders::{FeedImage, SoloOrders};
use std::alloc::{AllocError, Global};
use std::cell::Cell;
use std::io;
use std::io::{Read, Write};
use std::marker::Brand;
use std::process::Abort;
use std::sync::Arc;
use std::test::Fail;
use timetable::Trace;

// The reply to a line that isn't JSON, 31 bytes.
const BAD_JSON: &[u8] = b"{\"error\":111,\"name\":\"BadJson\"}\n";

// A writer that takes replies to lines that aren't JSON, and counts them. It fails at any other.
#[derive(Drop)]
struct Tally {
    replies: u64,
}

impl Write for Tally {
    fn write(&mut self, piece: &[u8]) -> io::Result<usize> {
        if piece != BAD_JSON {
            return Err(io::Error::from(io::ErrorKind::InvalidData));
        }
        self.replies = self.replies.saturating_add(1);
        Ok(piece.len())
    }

    fn flush(&mut self) -> io::Result<()> {
        Ok(())
    }
}

/// The sample, in which a change at B takes so many seconds.
pub(crate) fn image(alloc: Global, change: u32) -> Result<Arc<Verified, Global>, Fail> {
    let mut words = sample_words().to_vec(alloc)?;
    if let Some(word) = words.get_mut(34) {
        *word = change;
    }
    image_of(alloc, words)
}

pub(crate) fn image_of(alloc: Global, words: Vec<u32>) -> Result<Arc<Verified, Global>, Fail> {
    match verify(alloc, words) {
        Ok(image) => match Arc::new(alloc, image) {
            Ok(shared) => Ok(shared),
            Err(_) => Err(AllocError.into()),
        },
        Err((_, fault)) => {
            if fault.number() == 76 {
                return Err(AllocError.into());
            }
            Err("the words are an image".into())
        }
    }
}

/// The sample with a footpath of 900 seconds from B to C.
fn image_with_a_footpath(alloc: Global) -> Result<Arc<Verified, Global>, Fail> {
    let sample = sample_words();
    let (front, back) = sample.split_at(35);
    let mut words = front.to_vec(alloc)?;
    words.extend_from_slice(&[1, 900])?;
    words.extend_from_slice(back)?;
    for index in [5, 30] {
        if let Some(word) = words.get_mut(index) {
            *word = 4;
        }
    }
    image_of(alloc, words)
}

const PIN: &str = "{\"do\":\"pin\"}";

const LOAD: &str = "{\"do\":\"load\",\"feed\":\"slow\"}";

const RELEASE: &str = "{\"do\":\"release\"}";

const PROFILE: &str =
    "{\"do\":\"profile\",\"from\":\"A\",\"to\":\"C\",\"after\":\"07:00:00\",\"until\":\"09:00:00\",\"by\":\"10:00:00\",\"criterion\":\"arrival\"}";

fn add_line(bytes: &mut Vec<u8>, line: &str) -> Result<(), AllocError> {
    bytes.extend_from_slice(line.as_bytes())?;
    bytes.push(b'\n')?;
    Ok(())
}

// Lines, one after the other.
pub(crate) fn lines_of(alloc: Global, lines: &[&str]) -> Result<Vec<u8>, AllocError> {
    let mut bytes = Vec::new(alloc);
    for line in lines {
        add_line(&mut bytes, *line)?;
    }
    Ok(bytes)
}

/// The requests of a session: pins, an order, profiles, and lines that are no requests, one of them too long.
fn requests(alloc: Global) -> Result<Vec<u8>, AllocError> {
    let front = [
        PIN,
        LOAD,
        PROFILE,
        RELEASE,
        PROFILE,
        "{\"do\":\"pi",
        PIN,
        PIN,
    ];
    let mut bytes = lines_of(alloc, &front)?;
    for _ in 0..65_537 {
        bytes.push(b'x')?;
    }
    bytes.push(b'\n')?;
    add_line(&mut bytes, "{\"do\":\"load\",\"feed\":\"none\"}")?;
    add_line(&mut bytes, RELEASE)?;
    add_line(&mut bytes, RELEASE)?;
    Ok(bytes)
}

/// The replies to them.
const REPLIES: &str =
    "{\"base\":1705276800,\"ok\":\"pin\",\"version\":1}\n{\"feed\":\"slow\",\"ok\":\"load\"}\n{\"ok\":\"profile\",\"points\":[{\"arr\":\"08:20:00\",\"dep\":\"08:00:00\",\"journey\":\"ride 0 0 walk 1 1 0 ride 2 2\"}],\"version\":1,\"walk\":null}\n{\"ok\":\"release\"}\n{\"ok\":\"profile\",\"points\":[{\"arr\":\"08:30:00\",\"dep\":\"08:00:00\",\"journey\":\"ride 0 1\"}],\"version\":2,\"walk\":null}\n{\"error\":111,\"name\":\"BadJson\"}\n{\"base\":1705276800,\"ok\":\"pin\",\"version\":2}\n{\"error\":92,\"name\":\"AlreadyPinned\"}\n{\"error\":113,\"name\":\"LineTooLong\"}\n{\"error\":114,\"name\":\"UnknownFeed\"}\n{\"ok\":\"release\"}\n{\"error\":93,\"name\":\"NotPinned\"}\n";

// Serves these bytes over new shelves: the outcome, and what was written.
fn served(
    alloc: Global,
    reader: Pieces<'_>,
    room: usize,
    is_failing: bool,
) -> Result<(Result<Ended, SessionFault>, Vec<u8>), Fail> {
    let (first, slow) = (image(alloc, 0)?, image(alloc, 121)?);
    served_from(alloc, first, slow, reader, room, is_failing)
}

// The same over shelves with a first image, with another image for the feed.
fn served_from(
    alloc: Global,
    first: Arc<Verified, Global>,
    slow: Arc<Verified, Global>,
    reader: Pieces<'_>,
    room: usize,
    is_failing: bool,
) -> Result<(Result<Ended, SessionFault>, Vec<u8>), Fail> {
    let mut feeds = Vec::new(alloc);
    feeds.push(feed_of(alloc, "slow", slow)?)?;
    let taker = taker_of(alloc, room, is_failing);
    let (ended, taker) = talked(alloc, first, feeds, reader, taker, &OpenGate)?;
    Ok((ended, taker.taken))
}

pub(crate) fn feed_of(
    alloc: Global,
    name: &str,
    image: Arc<Verified, Global>,
) -> Result<FeedImage, AllocError> {
    let name = String::from_str(alloc, name)?;
    Ok(FeedImage { name, image })
}

/// Shelves, the loader's seat and one worker's seat.
#[derive(Drop)]
pub(crate) struct Solo {
    pub(crate) shelves: Shelves,
    pub(crate) loader: ShelfLoader,
    pub(crate) seat: ShelfSeat,
}

/// New shelves with this image.
pub(crate) fn solo_of(alloc: Global, first: Arc<Verified, Global>) -> Result<Solo, Fail>
    ensures { IfOk result (λ solo. (solo.loader.table ≡ solo.shelves) × (solo.seat.table ≡ solo.shelves)) }
{
    let Ok((shelves, loader, mut seats)) = Shelves::new(alloc, first) else {
        return Err(AllocError.into());
    };
    let Some(seat) = seats.pop() else {
        return Err("a seat".into());
    };
    Ok(Solo {
        shelves,
        loader,
        seat,
    })
}

/// Serves a reader and a writer over new shelves: the outcome, and the writer.
pub(crate) fn talked<In: Read + Drop, Out: Write + Drop, G: Gate>(
    alloc: Global,
    first: Arc<Verified, Global>,
    feeds: Vec<FeedImage>,
    reader: In,
    writer: Out,
    gate: &G,
) -> Result<(Result<Ended, SessionFault>, Out), Fail> {
    let solo = solo_of(alloc, first)?;
    Ok(talked_at::<Brand, _, _, _>(alloc, solo, feeds, reader, writer, gate))
}

// The same over these shelves.
fn talked_at<B: ShelvesName, In: Read + Drop, Out: Write + Drop, G: Gate>(
    alloc: Global,
    solo: Solo,
    feeds: Vec<FeedImage>,
    reader: In,
    writer: Out,
    gate: &G,
) -> (Result<Ended, SessionFault>, Out)
    requires { (solo.shelves ≡ B.table) × (solo.loader.table ≡ B.table) × (solo.seat.table ≡ B.table) }
{
    let (shelves, loader, mut seat) = NamedShelves::<B>::with_seat(
        solo.shelves,
        solo.loader,
        solo.seat,
    );
    let mut orders = SoloOrders::new(&shelves, loader, feeds);
    let mut streams = Streams::new(reader, writer);
    let session_server = SessionServer::new(alloc, &shelves, gate);
    let ended = session_server.serve(&mut streams, &mut seat, &mut orders);
    (ended, streams.writer.into_inner())
}

// Asserts that the session ended, and wrote these replies.
fn assert_replies(
    rt: &impl Abort,
    reported: &(Result<Ended, SessionFault>, Vec<u8>),
    replies: &str,
) {
    let (ended, written) = reported;
    assert!(rt; *ended == Ok(Ended));
    assert_eq!(rt; str::from_utf8(written).unwrap_or("?"), replies);
}

#[test]
fn any_reads_give_the_same_replies(rt: HostRuntime) -> Result<(), Fail> {
    let bytes = requests(rt.alloc())?;
    for most in [1, 7, 100_000] {
        let reader = Pieces {
            rest: &bytes,
            most,
            is_failing: false,
        };
        assert_replies(&rt, &served(rt.alloc(), reader, 100_000, true)?, REPLIES);
    }
    Ok(())
}

// Whether the session failed at a write after so many bytes of the replies.
fn is_cut(reported: &(Result<Ended, SessionFault>, Vec<u8>), room: usize) -> bool {
    let (ended, written) = reported;
    let is_front = REPLIES.as_bytes().starts_with(written) && written.len() == room;
    is_front && *ended == Err(SessionFault::WriteFailed)
}

/// A session ends if its writer takes so many bytes and then fails, or takes no more.
#[test]
fn a_writer_that_fails_ends_the_session(rt: HostRuntime) -> Result<(), Fail> {
    let bytes = requests(rt.alloc())?;
    for number in 0..2 * REPLIES.len() {
        let room = number / 2;
        let reported = served(rt.alloc(), whole(&bytes), room, number % 2 == 1)?;
        assert!(rt; is_cut(&reported, room), "{room} bytes");
    }
    Ok(())
}

// Which byte is sent over and over, how the session fails, and how many lines are answered.
const LIMITS: [(u8, SessionFault, u64); 2] = [
    (b'\n', SessionFault::TooManyRequests, 1_000_000),
    (b'x', SessionFault::ReadFailed, 0),
];

/// A million requests are answered, but no line that has no end.
#[test]
fn requests_have_limits(rt: HostRuntime) -> Result<(), Fail> {
    for (byte, fault, answered) in LIMITS.iter() {
        assert!(rt; tallied(rt.alloc(), *byte)? == (Err(*fault), *answered));
    }
    Ok(())
}

// Serves a reader that gives this byte over and over: the outcome, and how many lines were refused as no JSON.
fn tallied(alloc: Global, byte: u8) -> Result<(Result<Ended, SessionFault>, u64), Fail> {
    let (ended, tally) = talked(
        alloc,
        image(alloc, 0)?,
        Vec::new(alloc),
        Endless { byte, given: 0 },
        Tally { replies: 0 },
        &OpenGate,
    )?;
    Ok((ended, tally.replies))
}

// The outcome of a session whose first read fails, and how many lines were answered.
fn reading_fails(alloc: Global) -> Result<(Result<Ended, SessionFault>, u64), Fail> {
    let (ended, tally) = talked(
        alloc,
        image(alloc, 0)?,
        Vec::new(alloc),
        failing_at(1),
        Tally { replies: 0 },
        &OpenGate,
    )?;
    Ok((ended, tally.replies))
}

// The outcome of a session whose second flush fails, and how many calls of the writer there were: each reply is written
// and flushed.
fn flushing_fails(alloc: Global) -> Result<(Result<Ended, SessionFault>, u64), Fail> {
    let (ended, writer) = talked(
        alloc,
        image(alloc, 0)?,
        Vec::new(alloc),
        whole(b"\n\n\n"),
        failing_at(4),
        &OpenGate,
    )?;
    Ok((ended, writer.calls))
}

/// A session ends at the first read or flush that fails, although the next one would succeed. Nothing is replied after
/// it.
#[test]
fn one_failure_ends_the_session(rt: HostRuntime) -> Result<(), Fail> {
    let alloc: Global = rt.alloc();
    assert!(rt; reading_fails(alloc)? == (Err(SessionFault::ReadFailed), 0));
    assert!(rt; flushing_fails(alloc)? == (Err(SessionFault::WriteFailed), 4));
    Ok(())
}

/// Each line is answered before the next one is read.
#[test]
fn each_line_is_answered_at_once(rt: HostRuntime) -> Result<(), Fail> {
    let alloc: Global = rt.alloc();
    let answered = Cell::new(0);
    let asker = Asker {
        answered: &answered,
        given: 0,
        most: 3,
    };
    let (ended, _) = talked(
        alloc,
        image(alloc, 0)?,
        Vec::new(alloc),
        asker,
        Answers {
            answered: &answered,
        },
        &OpenGate,
    )?;
    assert!(rt; ended == Ok(Ended) && answered.get() == 3);
    Ok(())
}

const BY_WALKING: &str =
    "{\"do\":\"profile\",\"from\":\"A\",\"to\":\"C\",\"after\":\"07:00:00\",\"until\":\"09:00:00\",\"by\":\"10:00:00\",\"criterion\":\"arrival+trips+walk\"}";

const WALKED_REPLIES: &str =
    "{\"ok\":\"profile\",\"points\":[{\"arr\":\"08:20:00\",\"dep\":\"08:00:00\",\"journey\":\"ride 0 0 walk 1 1 0 ride 2 2\",\"trips\":2,\"walked\":0},{\"arr\":\"08:25:00\",\"dep\":\"08:00:00\",\"journey\":\"ride 0 0 walk 1 2 900\",\"trips\":1,\"walked\":900},{\"arr\":\"08:30:00\",\"dep\":\"08:00:00\",\"journey\":\"ride 0 1\",\"trips\":1,\"walked\":0}],\"version\":1,\"walk\":null}\n{\"feed\":\"slow\",\"ok\":\"load\"}\n{\"ok\":\"profile\",\"points\":[{\"arr\":\"08:20:00\",\"dep\":\"08:00:00\",\"journey\":\"ride 0 0 walk 1 1 60 ride 2 2\",\"trips\":2,\"walked\":60},{\"arr\":\"08:30:00\",\"dep\":\"08:00:00\",\"journey\":\"ride 0 1\",\"trips\":1,\"walked\":0}],\"version\":2,\"walk\":null}\n";

// Serves these bytes over an image where one may walk from B to C; the feed has one where a change at B takes a minute.
fn walked(alloc: Global, bytes: &[u8]) -> Result<(Result<Ended, SessionFault>, Vec<u8>), Fail> {
    let (first, slow) = (image_with_a_footpath(alloc)?, image(alloc, 60)?);
    served_from(alloc, first, slow, whole(bytes), 10_000, true)
}

/// Walked seconds are reported if the criterion counts them: after the last ride, and for a loop on the way.
#[test]
fn walked_seconds_are_reported(rt: HostRuntime) -> Result<(), Fail> {
    let alloc: Global = rt.alloc();
    let bytes = lines_of(alloc, &[BY_WALKING, LOAD, BY_WALKING])?;
    assert_replies(&rt, &walked(alloc, &bytes)?, WALKED_REPLIES);
    Ok(())
}

const WAIT: &str = "{\"do\":\"load\",\"feed\":\"slow\",\"wait\":true}";

const WAITED_REPLIES: &str =
    "{\"base\":1705276800,\"ok\":\"pin\",\"version\":1}\n{\"feed\":\"slow\",\"ok\":\"load\",\"version\":2}\n{\"error\":92,\"name\":\"AlreadyPinned\"}\n{\"ok\":\"release\"}\n{\"base\":1705276800,\"ok\":\"pin\",\"version\":2}\n{\"error\":114,\"name\":\"UnknownFeed\"}\n{\"error\":112,\"name\":\"BadRequest\"}\n";

/// A client that waits for a load gets its version, and pins that version once it has released the one that it
/// holds.
#[test]
fn a_load_is_waited_for(rt: HostRuntime) -> Result<(), Fail> {
    let alloc: Global = rt.alloc();
    let odd = "{\"do\":\"load\",\"feed\":\"slow\",\"wait\":\"yes\"}";
    let bytes = lines_of(alloc, &[PIN, WAIT, PIN, RELEASE, PIN, WAIT, odd])?;
    assert_replies(
        &rt,
        &served(alloc, whole(&bytes), 10_000, true)?,
        WAITED_REPLIES,
    );
    Ok(())
}

// Orders. Each that is waited for is overtaken by two others before it is answered; instead of its version a fault may
// be reported.
#[derive(Drop)]
struct Overtaken<O> {
    orders: O,
    fault: Option<OrderFault>,
    asked: Trace<OrderRecord>,
}

impl<N: Drop, O: Orders<Notice = N>> Orders for Overtaken<O> {
    type Notice = N;

    ghost route = { λ _. tt };

    ghost asked = { λ orders. orders.asked };

    ghost notice_version = { O.notice_version };

    fn order(&mut self, feed: &str) -> Result<(), OrderFault> {
        let taken = self.orders.order(feed);
        self.asked.note(&OrderRecord::put(feed, taken));
        taken
    }

    fn order_wait(&mut self, feed: &str) -> Result<(u64, N), OrderFault> {
        let reported = self.orders.order_wait(feed);
        let _ = self.orders.order(feed);
        let _ = self.orders.order(feed);
        let reported = kept_back(reported, self.fault);
        self.asked.note(&OrderRecord::waited(feed, &reported));
        reported
    }
}

// What is reported; or instead this fault, if there is one.
fn kept_back<N: Drop>(
    reported: Result<(u64, N), OrderFault>,
    fault: Option<OrderFault>,
) -> Result<(u64, N), OrderFault>
    ensures { IfOk result (λ r. reported ≡ Ok r) }
{
    match fault {
        Some(fault) => Err(fault),
        None => reported,
    }
}

fn overtaken_at<B: ShelvesName>(
    alloc: Global,
    solo: Solo,
    feeds: Vec<FeedImage>,
    fault: Option<OrderFault>,
    requests: &[u8],
) -> Taker
    requires { (solo.shelves ≡ B.table) × (solo.loader.table ≡ B.table) × (solo.seat.table ≡ B.table) }
{
    let (shelves, loader, mut seat) = NamedShelves::<B>::with_seat(
        solo.shelves,
        solo.loader,
        solo.seat,
    );
    let mut orders = Overtaken {
        orders: SoloOrders::new(&shelves, loader, feeds),
        fault,
        asked: Trace::new(),
    };
    let mut reader = Counted::new(requests);
    let mut writer = Counted::new(taker_of(alloc, 10_000, true));
    let _ = serve(
        alloc,
        &mut reader,
        &mut writer,
        &shelves,
        &mut seat,
        &mut orders,
        &OpenGate,
    );
    writer.into_inner()
}

// Waits for a load of the feed, which can be loaded so many times, and pins: the replies.
fn waited_and_pinned(
    alloc: Global,
    count: usize,
    fault: Option<OrderFault>,
) -> Result<Vec<u8>, Fail> {
    let mut feeds = Vec::new(alloc);
    for _ in 0..count {
        feeds.push(feed_of(alloc, "slow", image(alloc, 121)?)?)?;
    }
    let bytes = lines_of(alloc, &[WAIT, PIN])?;
    let solo = solo_of(alloc, image(alloc, 0)?)?;
    let taker = overtaken_at::<Brand>(alloc, solo, feeds, fault, &bytes);
    Ok(taker.taken)
}

/// A version that two others overtook is reported all the same, and the newest one is pinned.
#[test]
fn an_overtaken_notice_is_joined(rt: HostRuntime) -> Result<(), Fail> {
    let replies = waited_and_pinned(rt.alloc(), 3, None)?;
    assert_eq!(&rt;
        str::from_utf8(&replies).unwrap_or("?"),
        "{\"feed\":\"slow\",\"ok\":\"load\",\"version\":2}\n{\"base\":1705276800,\"ok\":\"pin\",\"version\":4}\n"
    );
    Ok(())
}

// Whether the replies are this line, and one that says that version 2 was pinned.
fn tells_and_pins(replies: &[u8], line: &str) -> bool {
    match str::from_utf8(replies).unwrap_or("?").strip_prefix(line) {
        Some(rest) => rest == "\n{\"base\":1705276800,\"ok\":\"pin\",\"version\":2}\n",
        None => false,
    }
}

// Faults for which no version is reported, each with its reply.
const FAULTS: [(OrderFault, &str); 5] = [
    (
        OrderFault::LoaderGone,
        "{\"error\":121,\"name\":\"LoaderGone\"}",
    ),
    (
        OrderFault::OutOfMemory,
        "{\"error\":116,\"name\":\"OutOfMemory\"}",
    ),
    (
        OrderFault::LoadRefused { refusal: 94 },
        "{\"error\":120,\"name\":\"LoadRefused\",\"refusal\":94}",
    ),
    (
        OrderFault::LoadRefused { refusal: 95 },
        "{\"error\":120,\"name\":\"LoadRefused\",\"refusal\":95}",
    ),
    (
        OrderFault::LoadRefused { refusal: 96 },
        "{\"error\":120,\"name\":\"LoadRefused\",\"refusal\":96}",
    ),
];

/// Each fault is reported. A version may still have been published, and is pinned then.
#[test]
fn faults_are_reported_to_who_waits(rt: HostRuntime) -> Result<(), Fail> {
    for (fault, line) in FAULTS.iter() {
        let replies = waited_and_pinned(rt.alloc(), 1, Some(*fault))?;
        assert!(rt; tells_and_pins(&replies, *line), "{line}");
    }
    Ok(())
}
