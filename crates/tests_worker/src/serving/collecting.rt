//! When shelves are collected: before a client that waits for a load has its reply.

ghost use Rattle.std.specs.Prelude.{◌≡◌};

use super::holding::{Stage, stage_of};
use super::spending::Sink;
use super::{Row, two_feeds};
use load_orders::GhostList;
use orders::OpenGate;
use shelves::{NamedLoader, NamedSeat, NamedShelves, ShelfLoader, ShelfSeat, Shelves, ShelvesName};
use std::alloc::{AllocError, Global};
use std::io;
use std::io::Write;
use std::marker::Brand;
use std::process::Abort;
use std::sync::Wait;
use std::sync::atomic::{AtomicU64, Ordering};
use std::test::Fail;
use std::thread::Threads;
use workers::*;

/// A writer that takes everything, and keeps the first shelf's word as it was at the last reply.
#[derive(Drop)]
struct Looking<'a, B: ShelvesName> {
    shelves: &'a NamedShelves<B>,
    word: &'a AtomicU64,
}

impl<'a, B: ShelvesName> Write for Looking<'a, B> {
    fn write(&mut self, piece: &[u8]) -> io::Result<usize> {
        self.word.store(self.shelves.word(1), Ordering::SeqCst);
        Ok(piece.len())
    }

    fn flush(&mut self) -> io::Result<()> {
        Ok(())
    }
}

/// The request of a client that waits for a load.
const WAIT: &str = "{\"do\":\"load\",\"feed\":\"slow\",\"wait\":true}\n";

/// A client that waits for a load, and looks at the first shelf when it has its reply.
#[derive(Drop)]
struct Waiter<'a, B: ShelvesName> {
    replies: Looking<'a, B>,
}

impl<'a, B: ShelvesName + Send + Sync> Client for Waiter<'a, B> {
    type Reader = &'static [u8];

    type Writer = Looking<'a, B>;

    ghost words = { record { opens = λ client result. Unit {0}; closes = λ reader writer end. Unit {0} } };

    fn open(self) -> Result<(&'static [u8], Looking<'a, B>), ConnFault> {
        Ok((WAIT.as_bytes(), self.replies))
    }

    fn close(_reader: &'static [u8], _writer: Looking<'a, B>, _end: SessionEnd) {}
}

/// A client that looks at these shelves.
fn waiter_at<'a, B: ShelvesName>(
    shelves: &'a NamedShelves<B>,
    word: &'a AtomicU64,
) -> Waiter<'a, B> {
    Waiter {
        replies: Looking { shelves, word },
    }
}

/// Serves the client over these shelves.
fn serve_waiter<B: ShelvesName + Send + Sync, R: Threads + Wait + Sync>(
    rt: &R,
    alloc: Global,
    waiter: Waiter<'_, B>,
    shelves: &NamedShelves<B>,
    loader: NamedLoader<B>,
    seat: NamedSeat<B>,
) -> Result<(), AllocError>
    requires { (loader.table ≡ shelves.now) × (seat.table ≡ shelves.now) }
{
    let seats = vec![in alloc; seat]?;
    let feeds = two_feeds(alloc)?;
    let row = Row {
        visitors: vec![in alloc; waiter]?,
        came: GhostList::none(),
    };
    let run_result = run_workers(
        rt,
        alloc,
        row,
        shelves,
        seats,
        loader,
        &feeds,
        (),
        &OpenGate,
        ReplyForm::of(PointForm::Bare),
        Sink,
    );
    match run_result {
        Ok(_) => Ok(()),
        Err(_) => Err(AllocError),
    }
}

/// Serves a client that waits for a load, over these shelves under a name: the first shelf's word at its reply.
fn word_at<B: ShelvesName + Send + Sync, R: Threads + Wait + Sync>(
    rt: &R,
    alloc: Global,
    shelves: Shelves,
    loader: ShelfLoader,
    seat: ShelfSeat,
) -> Result<u64, AllocError>
    requires { (shelves ≡ B.table) × (loader.table ≡ B.table) × (seat.table ≡ B.table) }
{
    let (shelves, loader, seat) = NamedShelves::<B>::with_seat(shelves, loader, seat);
    let word = AtomicU64::new(u64::MAX);
    let waiter = waiter_at(&shelves, &word);
    serve_waiter(rt, alloc, waiter, &shelves, loader, seat)?;
    Ok(word.load(Ordering::SeqCst))
}

/// A client that waited for a load finds the first shelf free: no worker was at the version before, and its shelf was
/// collected before the reply.
#[test]
fn shelves_are_collected_before_the_reply(rt: HostRuntime) -> Result<(), Fail> {
    let Stage {
        shelves,
        loader,
        mut seats,
    } = stage_of(rt.alloc())?;
    let Some(seat) = seats.pop() else {
        return Err("a seat".into());
    };
    let word = word_at::<Brand, _>(&rt, rt.alloc(), shelves, loader, seat)?;
    assert!(&rt; word == 0);
    Ok(())
}
