//! Pins and releases that a request asks for.

ghost use Rattle.session_texts.specs.Requests.{pin, release};
ghost use Rattle.session.specs.Learning.{FitsAndLearns};
ghost use Rattle.session.specs.Lines.{asks};
ghost use Rattle.session.specs.Replies.{reply_value};
ghost use Rattle.session.specs.Exchanges.{IsMet, replied_to};

use crate::reply::SessionReply;
use crate::session_server::SessionServer;
use session_texts::{Refusal, pin_line, release_line};
use shelves::Versions;

impl<'a, T: Versions, G> SessionServer<'a, T, G> {
    /// Pins the current version, and names it in the reply. If there is no memory for the reply, the version is given
    /// back.
    #[tactic(auto, using(crate::proofs::LearnLemmas::pins))]
    pub(crate) fn pin(&self, seat: &mut T::Seat) -> SessionReply
        requires { T.words.fits self.now.shelves.now seat.old }
        ensures seat { FitsAndLearns T.words self.now.shelves.now seat.old seat.new }
        ensures met { IsMet self.now.form (T.words.number seat.old) (T.words.shown seat.old)
            (replied_to (asks pin) (reply_value result)) (T.words.shown seat.new) }
    {
        if let Err(fault) = self.shelves.pin(seat) {
            return SessionReply::pin_fault(fault);
        }
        let reply_made = match T::edition(seat) {
            Some(edition) => pin_line(self.alloc, edition.image.base(), edition.version),
            None => unreachable!(),
        };
        match reply_made {
            Ok(line) => SessionReply::made(line),
            Err(_) => {
                let _ = self.shelves.release(seat);
                SessionReply::refusal(Refusal::OutOfMemory)
            }
        }
    }

    /// Gives back what the seat holds.
    #[tactic(auto, using(crate::proofs::LearnLemmas::learns_by_release))]
    pub(crate) fn release(&self, seat: &mut T::Seat) -> SessionReply
        requires { T.words.fits self.now.shelves.now seat.old }
        ensures seat { FitsAndLearns T.words self.now.shelves.now seat.old seat.new }
        ensures met { IsMet self.now.form (T.words.number seat.old) (T.words.shown seat.old)
            (replied_to (asks release) (reply_value result)) (T.words.shown seat.new) }
    {
        match self.shelves.release(seat) {
            Ok(()) => SessionReply::fixed(release_line()),
            Err(fault) => SessionReply::pin_fault(fault),
        }
    }
}
