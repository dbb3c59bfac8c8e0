//! Sessions: exchange after exchange.

ghost use Rattle.std.specs.Prelude.{◌≡◌, ◌++◌, ◌∷◌, ℕ, List, [], None, MatchResult, take};
ghost use Rattle.std.specs.Io.KnownBytes.{Appends};
ghost use Rattle.lines.specs.Showing.{ShowsLine};
ghost use Rattle.lines.specs.Streams.{HasFailed, HasFlushed, inner_of};
ghost use Rattle.shelves.specs.Seats.{SeatValue};
ghost use Rattle.session.specs.Forms.{bare};
ghost use Rattle.session.specs.Learning.{FitsAndLearns, SeatAnswersFromPublished};
ghost use Rattle.session.specs.SeatSteps.{seat_reply};
ghost use Rattle.session.specs.Sessions.{LastRelease, Serves, replies_of, serve_words, state_of};
ghost use Rattle.session.specs.Exchanges.{AgreeOnNotices, Exchange, ExchangeLeadsTo, seat_state};

use crate::fault::{Ended, SessionFault};
use crate::reply::SessionReply;
use crate::reply_log::into_reads;
use crate::session_server::{SessionServer, Streams};
use lines::{Counted, Line, LineReader, NextLine, ReadStream, WriteFailed, WriteStream};
use orders::{Gate, Orders};
use shelves::Versions;
use std::alloc::Global;

/// How many requests of a session are answered.
pub const MOST_REQUESTS: u32 = 1_000_000;

/// Serves a session as [`SessionServer::serve`] does, with the parts of a server and of its streams one by one. Its
/// replies are bare.
pub fn serve<
    In: ReadStream,
    Out: WriteStream,
    N: Drop,
    T: Versions<Notice = N>,
    O: Orders<Notice = N>,
    G: Gate,
>(
    alloc: Global,
    reader: &mut Counted<In>,
    writer: &mut Counted<Out, T::Seat>,
    shelves: &T,
    seat: &mut T::Seat,
    orders: &mut O,
    gate: &G,
) -> Result<Ended, SessionFault>
    requires fits { T.words.fits shelves.now seat.old }
    requires notices { AgreeOnNotices O.notice_version T.words.version }
    ensures seat { FitsAndLearns T.words shelves.now seat.old seat.new }
    ensures route { O.route orders.new ≡ O.route orders.old }
    ensures profiles { SeatAnswersFromPublished (T.words.known seat.new) (T.words.shown seat.old)
        (T.words.shown seat.new) }
    ensures released { (T.words.shown seat.new).held ≡ None }
    ensures session { (last : SeatValue) × LastRelease (T.words.number seat.old) last (T.words.shown seat.new)
        × Serves (serve_words bare In.words Out.words) (T.words.number seat.old) result
        (state_of T.words.shown reader.old writer.old
        (seat_state (T.words.shown seat.old) (O.asked orders.old)))
        (state_of T.words.shown reader.new writer.new (seat_state last (O.asked orders.new))) }
{
    let session_server = SessionServer::new(alloc, shelves, gate);
    let outcome = session_server.answer_lines(reader, writer, seat, orders);
    session_server.release_last(seat);
    outcome
}

impl<'a, N: Drop, T: Versions<Notice = N>, G: Gate> SessionServer<'a, T, G> {
    /// Answers the lines that the reader gives, until there are no more, a line goes on for too long, a read or a write
    /// fails, or a million lines are answered. Then what the seat holds is given back.
    pub fn serve<In: ReadStream, Out: WriteStream, O: Orders<Notice = N>>(
        &self,
        streams: &mut Streams<In, Out, T::Seat>,
        seat: &mut T::Seat,
        orders: &mut O,
    ) -> Result<Ended, SessionFault>
        requires fits { T.words.fits self.now.shelves.now seat.old }
        requires notices { AgreeOnNotices O.notice_version T.words.version }
        ensures seat { FitsAndLearns T.words self.now.shelves.now seat.old seat.new }
        ensures route { O.route orders.new ≡ O.route orders.old }
        ensures profiles { SeatAnswersFromPublished (T.words.known seat.new) (T.words.shown seat.old)
            (T.words.shown seat.new) }
        ensures released { (T.words.shown seat.new).held ≡ None }
        ensures session { (last : SeatValue) × LastRelease (T.words.number seat.old) last (T.words.shown seat.new)
            × Serves (serve_words self.now.form In.words Out.words) (T.words.number seat.old) result
            (state_of T.words.shown streams.old.reader streams.old.writer
            (seat_state (T.words.shown seat.old) (O.asked orders.old)))
            (state_of T.words.shown streams.new.reader streams.new.writer
            (seat_state last (O.asked orders.new))) }
    {
        let outcome = self.answer_lines(&mut streams.reader, &mut streams.writer, seat, orders);
        self.release_last(seat);
        outcome
    }

    // Gives back what the seat holds, if anything.
    fn release_last(&self, seat: &mut T::Seat)
        requires { T.words.fits self.now.shelves.now seat.old }
        ensures seat { FitsAndLearns T.words self.now.shelves.now seat.old seat.new }
        ensures released { (T.words.shown seat.new).held ≡ None }
        ensures last { LastRelease (T.words.number seat.old) (T.words.shown seat.old) (T.words.shown seat.new) }
    {
        if T::edition(seat).is_some() {
            let _ = self.shelves.release(seat);
        }
    }

    // Answers line after line.
    fn answer_lines<In: ReadStream, Out: WriteStream, O: Orders<Notice = N>>(
        &self,
        reader: &mut Counted<In>,
        writer: &mut Counted<Out, T::Seat>,
        seat: &mut T::Seat,
        orders: &mut O,
    ) -> Result<Ended, SessionFault>
        requires fits { T.words.fits self.now.shelves.now seat.old }
        requires notices { AgreeOnNotices O.notice_version T.words.version }
        ensures seat { FitsAndLearns T.words self.now.shelves.now seat.old seat.new }
        ensures route { O.route orders.new ≡ O.route orders.old }
        ensures session { Serves (serve_words self.now.form In.words Out.words) (T.words.number seat.old) result
            (state_of T.words.shown reader.old writer.old
            (seat_state (T.words.shown seat.old) (O.asked orders.old)))
            (state_of T.words.shown reader.new writer.new
            (seat_state (T.words.shown seat.new) (O.asked orders.new))) }
    {
        let mut lines = LineReader::new(self.alloc);
        for _ in 0..MOST_REQUESTS {
            match lines.next(reader) {
                Err(_) => return Err(SessionFault::ReadFailed),
                Ok(NextLine::Nothing) => return Ok(Ended),
                Ok(NextLine::Rest) => {
                    let line = lines.line();
                    match self.answer_line(line, writer, seat, orders) {
                        Ok(()) => return Ok(Ended),
                        Err(_) => return Err(SessionFault::WriteFailed),
                    }
                }
                Ok(NextLine::Ended) => {
                    let line = lines.line();
                    match self.answer_line(line, writer, seat, orders) {
                        Ok(()) => {}
                        Err(_) => return Err(SessionFault::WriteFailed),
                    }
                }
            }
        }
        match lines.has_byte(reader) {
            Ok(false) => Ok(Ended),
            Ok(true) => Err(SessionFault::TooManyRequests),
            Err(_) => Err(SessionFault::ReadFailed),
        }
    }

    // Answers a line and writes the reply.
    #[tactic(auto, using(crate::proofs::LineLemmas::replied_more))]
    fn answer_line<Out: WriteStream, O: Orders<Notice = N>>(
        &self,
        line: Line<'_>,
        writer: &mut Counted<Out, T::Seat>,
        seat: &mut T::Seat,
        orders: &mut O,
    ) -> Result<(), WriteFailed>
        requires fits { T.words.fits self.now.shelves.now seat.old }
        requires notices { AgreeOnNotices O.notice_version T.words.version }
        ensures seat { FitsAndLearns T.words self.now.shelves.now seat.old seat.new }
        ensures route { O.route orders.new ≡ O.route orders.old }
        ensures calls { MatchResult result
            (λ _. HasFlushed Out.words writer.old writer.new)
            (λ _. HasFailed Out.words writer.old writer.new) }
        ensures exchange { (l : List ℕ) → ShowsLine line.entry l
            → (t : Exchange) × (t.line ≡ l) × ExchangeLeadsTo self.now.form (T.words.number seat.old)
            (seat_state (T.words.shown seat.old) (O.asked orders.old)) t
            (seat_state (T.words.shown seat.new) (O.asked orders.new))
            × (replies_of T.words.shown writer.new
            ≡ replies_of T.words.shown writer.old ++ seat_reply t.shown t.reply ∷ [])
            × MatchResult result
            (λ _. Appends (Out.words.bytes (inner_of writer.old)) (Out.words.bytes (inner_of writer.new)) t.reply.text)
            (λ _. (n : ℕ) × Appends (Out.words.bytes (inner_of writer.old)) (Out.words.bytes (inner_of writer.new))
            (take n t.reply.text)) }
    {
        let SessionReply { line: reply, log } = self.exchange(line, seat, orders);
        let has_scanned = log.is_some();
        let written = writer.write_line(reply.bytes(), into_reads(log), seat);
        if has_scanned {
            self.gate.leave();
        }
        written
    }
}
