//! When a seat gives a version back: after the scan, and before the reply is written.

ghost use Rattle.std.specs.Prelude.{◌≡◌};

use super::holding::{Stage, stage_of};
use orders::Gate;
use session::{SessionServer, Streams};
use shelves::{NamedShelves, ShelfLoader, ShelfSeat, Shelves, ShelvesName};
use solo_orders::SoloOrders;
use std::alloc::{AllocError, Global};
use std::io;
use std::io::Write;
use std::marker::Brand;
use std::process::Abort;
use std::sync::atomic::{AtomicU64, Ordering};
use std::test::Fail;

/// A writer that takes everything, and at each write looks how many workers are at the first shelf.
#[derive(Drop)]
struct Looking<'a, B: ShelvesName> {
    shelves: &'a NamedShelves<B>,
    counts: Vec<u64>,
}

impl<'a, B: ShelvesName> Write for Looking<'a, B> {
    fn write(&mut self, piece: &[u8]) -> io::Result<usize> {
        let count = self.shelves.word(1) & 255;
        self.counts.extend_from_slice(&[count])?;
        Ok(piece.len())
    }

    fn flush(&mut self) -> io::Result<()> {
        Ok(())
    }
}

/// A gate that looks how many workers are at the first shelf when a scan begins, and adds these numbers up.
#[derive(Drop)]
struct Watching<'a, B: ShelvesName> {
    shelves: &'a NamedShelves<B>,
    count: AtomicU64,
}

impl<'a, B: ShelvesName> Gate for Watching<'a, B> {
    fn enter(&self) {
        let count = self.shelves.word(1) & 255;
        self.count.fetch_add(count, Ordering::SeqCst);
    }

    fn leave(&self) {}
}

/// Serves a session over these shelves: how many workers are at the first shelf at each reply, how many were there when
/// scans began, and whether the session ended.
fn counts_at<B: ShelvesName>(
    alloc: Global,
    shelves: Shelves,
    loader: ShelfLoader,
    seat: ShelfSeat,
    requests: &[u8],
) -> (Vec<u64>, u64, bool)
    requires { (shelves ≡ B.table) × (loader.table ≡ B.table) × (seat.table ≡ B.table) }
{
    let (shelves, loader, mut seat) = NamedShelves::<B>::with_seat(shelves, loader, seat);
    let mut orders = SoloOrders::new(&shelves, loader, Vec::new(alloc));
    let writer = Looking {
        shelves: &shelves,
        counts: Vec::new(alloc),
    };
    let mut streams = Streams::new(requests, writer);
    let gate = Watching {
        shelves: &shelves,
        count: AtomicU64::new(0),
    };
    let session_server = SessionServer::new(alloc, &shelves, &gate);
    let ended = session_server
        .serve(&mut streams, &mut seat, &mut orders)
        .is_ok();
    let scanned = gate.count.load(Ordering::SeqCst);
    (streams.writer.into_inner().counts, scanned, ended)
}

/// The requests of a session: a profile, which pins and releases by itself, and then two pins, each with its release.
const TWICE: &str = "\
{\"do\":\"profile\",\"from\":\"A\",\"to\":\"C\",\
\"after\":\"07:00:00\",\"until\":\"09:00:00\",\"by\":\"10:00:00\",\"criterion\":\"arrival\"}
{\"do\":\"pin\"}
{\"do\":\"release\"}
{\"do\":\"pin\"}
{\"do\":\"release\"}
";

/// How many workers are at the first shelf at each of the replies.
const COUNTS: &[u64] = &[0, 1, 0, 1, 0];

/// When a client reads that its version is released, no worker is at its shelf any more. The same holds when it reads
/// the reply to a profile without a pin; when the scan for that began, one worker was there.
#[test]
fn a_release_is_done_before_its_reply(rt: HostRuntime) -> Result<(), Fail> {
    let Stage {
        shelves,
        loader,
        mut seats,
    } = stage_of(rt.alloc())?;
    let Some(seat) = seats.pop() else {
        return Err("a seat".into());
    };
    let (counts, scanned, ended) = counts_at::<Brand>(
        rt.alloc(),
        shelves,
        loader,
        seat,
        TWICE.as_bytes(),
    );
    assert!(&rt; ended);
    assert!(&rt; counts.as_slice() == COUNTS);
    assert!(&rt; scanned == 1);
    Ok(())
}
