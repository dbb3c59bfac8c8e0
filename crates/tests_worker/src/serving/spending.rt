//! A client that sends one request more than a session may have.

use super::{EndCounts, Row, count_ends, shelves_for};
use load_orders::GhostList;
use orders::OpenGate;
use std::alloc::Global;
use std::io;
use std::io::{Read, Write};
use std::marker::Brand;
use std::process::Abort;
use std::sync::Wait;
use std::test::Fail;
use std::thread::Threads;
use workers::*;

/// A reader of so many line ends.
#[derive(Drop)]
struct LineEnds {
    left: usize,
}

impl Read for LineEnds {
    fn read(&mut self, room: &mut [u8]) -> io::Result<usize> {
        let count = room.len().min(self.left);
        room[..count].fill(b'\n');
        self.left -= count;
        Ok(count)
    }
}

/// A writer that takes everything and keeps nothing.
#[derive(Drop)]
pub(super) struct Sink;

impl Write for Sink {
    fn write(&mut self, piece: &[u8]) -> io::Result<usize> {
        Ok(piece.len())
    }

    fn flush(&mut self) -> io::Result<()> {
        Ok(())
    }
}

/// A client that sends so many empty lines.
#[derive(Drop)]
struct Sender {
    lines: usize,
}

impl Client for Sender {
    type Reader = LineEnds;

    type Writer = Sink;

    ghost words = { record { opens = λ client result. Unit {0}; closes = λ reader writer end. Unit {0} } };

    fn open(self) -> Result<(LineEnds, Sink), ConnFault> {
        Ok((LineEnds { left: self.lines }, Sink))
    }

    fn close(_reader: LineEnds, _writer: Sink, _end: SessionEnd) {}
}

/// Serves senders at one seat, the last first, and returns how their sessions ended.
fn serve_senders<R: Threads + Wait + Sync + Abort>(
    rt: &R,
    alloc: Global,
    visitors: Vec<Sender>,
) -> Result<EndCounts, Fail> {
    let (shelves, loader, seats) = shelves_for(alloc, false)?;
    let row = Row {
        visitors,
        came: GhostList::none(),
    };
    let counts = count_ends::<Brand, _, _, _, _, _>(
        rt,
        alloc,
        row,
        shelves,
        seats,
        loader,
        &OpenGate,
        ReplyForm::of(PointForm::Bare),
        Sink,
    )?;
    Ok(counts)
}

/// A million lines are answered, and one more is too many: the session counts as spent, and the next client is served.
#[test]
fn a_session_with_too_many_requests_is_spent(rt: HostRuntime) -> Result<(), Fail> {
    let alloc: Global = rt.alloc();
    let senders = vec![in alloc; Sender { lines: 1 }, Sender { lines: 1_000_001 }]?;
    let counts = serve_senders(&rt, alloc, senders)?;
    assert_eq!(&rt; counts.ended, 1);
    assert_eq!(&rt; counts.failed, 0);
    assert_eq!(&rt; counts.spent, 1);
    Ok(())
}
