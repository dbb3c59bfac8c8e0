//! Laws of sessions. The functions do nothing: their contracts are the laws.

ghost use Rattle.std.specs.Prelude.{◌≡◌, ◌++◌, ℕ, Bool, List};
ghost use Rattle.shelves.specs.Seats.{SeatValue};
ghost use Rattle.session.specs.Learning.{LearningTells};
ghost use Rattle.image_layout.specs.Image.{ImageValue};
ghost use Rattle.session.specs.Lines.{LineMeaning, IsLineMeaning};
ghost use Rattle.session.specs.OneStop.{OneAsk, TellsOfOne};
ghost use Rattle.session.specs.Replies.{ReplyValue};
ghost use Rattle.session.specs.declared.reply_form.ReplyForm.{ReplyForm};
ghost use Rattle.session.specs.SeatSteps.{Follows, NeverFalls, SeatMove, answers_in};
ghost use Rattle.session.specs.Sessions.{AreExchanges, moves_of, orders_of};
ghost use Rattle.session.specs.Exchanges.{SeatState, Exchange};

use answer_replies::laws::one_stop_is_plain;
use session_texts::laws::{one_request, one_value};

/// A line asks one thing.
pub fn one_thing_is_asked()
    ensures { (sets : Bool) (line : List ℕ) (asked other : LineMeaning) → IsLineMeaning sets line asked
        → IsLineMeaning sets line other
        → asked ≡ other }
{
    one_value();
    one_request();
}

/// A seat never pins a version older than one that it pinned before, than the newest that it had seen at first, or than
/// one whose notice it joined before.
pub fn versions_never_fall()
    ensures { (number : ℕ) (a b : SeatValue) (moves : List SeatMove) → Follows number a moves b
        → NeverFalls a.seen moves }
{}

/// The moves of all exchanges, in order, lead the seat from its value before the exchanges to its value after them. Its
/// list of answers grows by the answers among these moves, and the list of orders by the orders of all exchanges.
pub fn lists_grow_by_the_exchanges()
    ensures seat { (form : ReplyForm) (number : ℕ) (a b : SeatState) (exchanges : List Exchange)
        → AreExchanges form number a exchanges b → Follows number a.seat (moves_of exchanges) b.seat }
    ensures answers { (number : ℕ) (a b : SeatValue) (moves : List SeatMove) → Follows number a moves b
        → b.answers ≡ a.answers ++ answers_in moves }
    ensures orders { (form : ReplyForm) (number : ℕ) (a b : SeatState) (exchanges : List Exchange)
        → AreExchanges form number a exchanges b → b.asked ≡ a.asked ++ orders_of exchanges }
{}

/// Each profile in a seat's exchanges is answered over the image that was published as the version that the reply
/// names, in the history that the seat knows after these exchanges; unless memory was wanting, or no version could be
/// pinned. What the seat held before the exchanges has to be published in that history too.
pub fn profiles_are_from_published()
    ensures { LearningTells }
{}

/// What the reply to a profile from one stop to one other tells, it tells of the plain query from the one to the other:
/// that this is refused, that its window is too long, or its answer.
pub fn one_stop_is_asked_plainly()
    ensures { (form : ReplyForm) (image : ImageValue) (version : ℕ) (one : OneAsk) (reply : ReplyValue)
        → TellsOfOne form image version one reply }
{
    one_stop_is_plain();
}
