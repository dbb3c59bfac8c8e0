//! A worker: client after client on its seat.

ghost use Rattle.std.specs.Prelude.{◌≡◌};
ghost use Rattle.session.specs.Exchanges.{AgreeOnNotices};
ghost use Rattle.workers.specs.Sessions.{HaveBeenServed, IsReadyToServe, IsServedAt, worker_state};
ghost use Rattle.workers.specs.Words.{sessions_of};

use crate::clients::{Client, ConnFault};
use crate::served::{Served, SessionEnd, close_client, end_of};
use crate::shares::Share;
use client_queue::Taker;
use orders::{Gate, Orders};
use session::{SessionServer, Streams};
use shelves::Versions;
use std::sync::Wait;

/// A worker, who serves clients.
#[derive(Drop)]
pub struct SessionWorker<'a, R, T, G> {
    pub rt: &'a R,
    pub session_server: SessionServer<'a, T, G>,
}

impl<'a, R: Wait, N: Drop, T: Versions<Notice = N>, G: Gate> SessionWorker<'a, R, T, G> {
    /// Serves a client at this seat. Returns its session: the client's reader and writer as they are then, and how it
    /// ended. A client that can't be opened is a session that failed, without a reader and a writer.
    pub fn serve_client<C: Client, O: Orders<Notice = N>>(
        &self,
        client: C,
        seat: &mut T::Seat,
        orders: &mut O,
    ) -> (Option<Streams<C::Reader, C::Writer, T::Seat>>, SessionEnd)
        requires fits { T.words.fits self.now.session_server.shelves.now seat.old }
        requires notices { AgreeOnNotices O.notice_version T.words.version }
        ensures fits { T.words.fits self.now.session_server.shelves.now seat.new }
        ensures route { O.route orders.new ≡ O.route orders.old }
        ensures session { IsServedAt (sessions_of self.now.session_server.form C.words C.Reader.words
            C.Writer.words
            T.words)
            client result (worker_state seat.old (O.asked orders.old)) (worker_state seat.new (O.asked orders.new)) }
    {
        match client.open() {
            Ok((reader, writer)) => {
                let mut streams = Streams::new(reader, writer);
                let outcome = self.session_server.serve(&mut streams, seat, orders);
                (Some(streams), end_of(outcome))
            }
            Err(ConnFault) => (None, SessionEnd::Failed),
        }
    }

    /// Serves the clients that it takes from the queue, one after the other, until none comes. It closes each, and
    /// notes its session in `served`, which is empty at first. Returns the sessions, this end of the queue and the seat
    /// as a share; and the orders.
    pub(crate) fn work<C: Client + Drop, O: Orders<Notice = N>>(
        &self,
        mut taker: Taker<C>,
        mut seat: T::Seat,
        mut orders: O,
        mut served: Served<C::Reader, C::Writer, T::Seat>,
    ) -> (Share<C, C::Reader, C::Writer, T::Seat>, O)
        requires ready { IsReadyToServe (sessions_of self.now.session_server.form C.words C.Reader.words
            C.Writer.words T.words)
            self.now.session_server.shelves.now taker served (worker_state seat (O.asked orders)) }
        requires notices { AgreeOnNotices O.notice_version T.words.version }
        ensures route { O.route result.1 ≡ O.route orders }
        ensures served { HaveBeenServed (sessions_of self.now.session_server.form C.words C.Reader.words
            C.Writer.words T.words)
            self.now.session_server.shelves.now taker.queue (result.0.taker, result.0.served)
            (worker_state seat (O.asked orders)) (worker_state result.0.seat (O.asked result.1)) }
    {
        for _ in self.rt.forever() {
            match taker.next(self.rt) {
                Some(client) => {
                    let session = self.serve_client(client, &mut seat, &mut orders);
                    close_client::<C, T::Seat>(&mut served, session);
                }
                None => {
                    let share = Share {
                        served,
                        taker,
                        seat,
                    };
                    return (share, orders);
                }
            }
        }
        unreachable!()
    }
}
