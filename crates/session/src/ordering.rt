//! Orders of feeds.

ghost use Rattle.std.specs.Prelude.{◌≡◌, ◌++◌, ◌⊎◌, List, []};
ghost use Rattle.shelves.specs.Seats.{ShowsJoin};
ghost use Rattle.orders.specs.Ordering.{OrderValue};
ghost use Rattle.session.specs.Learning.{FitsAndLearns};
ghost use Rattle.session.specs.Lines.{memory_line};
ghost use Rattle.session.specs.Replies.{plain, reply_value};
ghost use Rattle.session.specs.Exchanges.{AgreeOnNotices, Deed, IsLoaded, OrderIsMet};

use crate::reply::SessionReply;
use crate::session_server::SessionServer;
use orders::Orders;
use session_texts::{Refusal, load_line, loaded_line};
use shelves::Versions;

impl<'a, N: Drop, T: Versions<Notice = N>, G> SessionServer<'a, T, G> {
    /// Orders the feed. The reply is made first, so that no order is put for whose reply there is no memory.
    pub(crate) fn order_feed<O: Orders>(&self, orders: &mut O, feed: &str) -> SessionReply
        ensures route { O.route orders.new ≡ O.route orders.old }
        ensures put { (put : List OrderValue) × (O.asked orders.new ≡ O.asked orders.old ++ put)
            × (OrderIsMet feed.now put (reply_value result)
            ⊎ ((put ≡ []) × (reply_value result ≡ plain memory_line))) }
    {
        let Ok(line) = load_line(self.alloc, feed) else {
            return SessionReply::refusal(Refusal::OutOfMemory);
        };
        match orders.order(feed) {
            Ok(()) => SessionReply::made(line),
            Err(fault) => SessionReply::order_fault(fault),
        }
    }

    /// Orders the feed and waits for its version. The seat joins the notice of that version before the client gets
    /// its reply, so that no later pin by this seat gives an older one.
    #[tactic(auto, using(crate::proofs::LearnLemmas::goes_on_same))]
    pub(crate) fn load_feed<O: Orders<Notice = N>>(
        &self,
        seat: &mut T::Seat,
        orders: &mut O,
        feed: &str,
    ) -> SessionReply
        requires fits { T.words.fits self.now.shelves.now seat.old }
        requires notices { AgreeOnNotices O.notice_version T.words.version }
        ensures seat { FitsAndLearns T.words self.now.shelves.now seat.old seat.new }
        ensures route { O.route orders.new ≡ O.route orders.old }
        ensures met { (d : Deed) × (d.reply ≡ reply_value result)
            × (O.asked orders.new ≡ O.asked orders.old ++ d.orders)
            × IsLoaded (T.words.number seat.old) (T.words.shown seat.old) feed.now d (T.words.shown seat.new) }
    {
        match orders.order_wait(feed) {
            Ok((version, notice)) => {
                self.take_notice(seat, notice);
                match loaded_line(self.alloc, feed, version) {
                    Ok(line) => SessionReply::made(line),
                    Err(_) => SessionReply::refusal(Refusal::OutOfMemory),
                }
            }
            Err(refused) => SessionReply::order_fault(refused),
        }
    }

    // The seat learns of the notice's version.
    #[tactic(auto, using(crate::proofs::LearnLemmas::learns_by_notice))]
    fn take_notice(&self, seat: &mut T::Seat, notice: N)
        requires { T.words.fits self.now.shelves.now seat.old }
        ensures seat { FitsAndLearns T.words self.now.shelves.now seat.old seat.new }
        ensures joined { ShowsJoin (T.words.shown seat.old) (T.words.version notice) (T.words.shown seat.new) }
    {
        self.shelves.join(seat, notice);
    }
}
