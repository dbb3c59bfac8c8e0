//! One exchange of a session: a line is judged, what it asks is done, and a reply is made.

ghost use Rattle.std.specs.Prelude.{◌≡◌, ℕ, List};
ghost use Rattle.lines.specs.Showing.{ShowsLine};
ghost use Rattle.session.specs.Learning.{FitsAndLearns};
ghost use Rattle.session.specs.Replies.{reply_value};
ghost use Rattle.session.specs.Exchanges.{AgreeOnNotices, Exchange, ExchangeLeadsTo, seat_state};

use crate::reply::SessionReply;
use crate::session_server::SessionServer;
use lines::Line;
use orders::{Gate, Orders};
use session_texts::{LineFault, Refusal, Request, RequestFault, read_line, request_of};
use shelves::Versions;

impl<'a, N: Drop, T: Versions<Notice = N>, G: Gate> SessionServer<'a, T, G> {
    /// Does what a line asks, and makes the reply.
    #[tactic(auto, using(crate::proofs::LearnLemmas::goes_on_same))]
    pub(crate) fn exchange<O: Orders<Notice = N>>(
        &self,
        line: Line<'_>,
        seat: &mut T::Seat,
        orders: &mut O,
    ) -> SessionReply
        requires fits { T.words.fits self.now.shelves.now seat.old }
        requires notices { AgreeOnNotices O.notice_version T.words.version }
        ensures seat { FitsAndLearns T.words self.now.shelves.now seat.old seat.new }
        ensures route { O.route orders.new ≡ O.route orders.old }
        ensures exchange { (l : List ℕ) → ShowsLine line.entry l
            → (t : Exchange) × (t.line ≡ l) × (t.reply ≡ reply_value result) × ExchangeLeadsTo self.now.form
            (T.words.number seat.old)
            (seat_state (T.words.shown seat.old) (O.asked orders.old)) t
            (seat_state (T.words.shown seat.new) (O.asked orders.new)) }
    {
        let bytes = match line {
            Line::Whole(bytes) => bytes,
            Line::TooLong => return SessionReply::refusal(Refusal::LineTooLong),
            Line::NoRoom => return SessionReply::refusal(Refusal::OutOfMemory),
        };
        let value = match read_line(self.alloc, bytes) {
            Ok(value) => value,
            Err(LineFault::BadJson) => return SessionReply::refusal(Refusal::BadJson),
            Err(LineFault::OutOfMemory) => return SessionReply::refusal(Refusal::OutOfMemory),
        };
        match request_of(self.alloc, &value, self.form.sets) {
            Err(RequestFault::BadRequest) => SessionReply::refusal(Refusal::BadRequest),
            Err(RequestFault::OutOfMemory) => SessionReply::refusal(Refusal::OutOfMemory),
            Ok(Request::Pin) => self.pin(seat),
            Ok(Request::Release) => self.release(seat),
            Ok(Request::Profile(ask)) => self.answer_profile(seat, &ask),
            Ok(Request::Load { feed, waits: false }) => self.order_feed(orders, feed),
            Ok(Request::Load { feed, waits: true }) => self.load_feed(seat, orders, feed),
        }
    }
}
