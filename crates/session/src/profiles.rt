//! Profiles, answered from an edition of an image.

ghost use Rattle.std.specs.Prelude.{◌≡◌, MatchResult, None};
ghost use Rattle.std.specs.Arc.{arc_value};
ghost use Rattle.scan_state.specs.SetQuery.{IsAskableBetween, question};
ghost use Rattle.station_answers.specs.Naming.{AsksBetween, IsNoQuestion};
ghost use Rattle.session_texts.specs.Requests.{ask_value, profile};
ghost use Rattle.session.specs.Learning.{FitsAndLearns};
ghost use Rattle.session.specs.Lines.{asks};
ghost use Rattle.session.specs.Replies.{reply_value};
ghost use Rattle.session.specs.Profiles.{RepliesToProfile, asked_window};
ghost use Rattle.session.specs.Exchanges.{IsMet, replied_to};

use crate::reply::SessionReply;
use crate::reply_form::ReplyForm;
use crate::reply_log::ReplyLog;
use crate::session_server::SessionServer;
use answer_replies::reply_by_name;
use image_verifier::Verified;
use journeys::Window;
use orders::Gate;
use profile_scan::SetQuery;
use session_texts::Ask;
use shelves::{Edition, Versions};
use station_answers::{NoQuestion, question_between};
use std::alloc::Global;
use timetable::QueryFault;

impl<'a, T: Versions, G: Gate> SessionServer<'a, T, G> {
    /// Answers from the version that the seat holds. If it holds none, the current one is pinned for this answer, and
    /// released after it.
    pub(crate) fn answer_profile(&self, seat: &mut T::Seat, ask: &Ask<'_>) -> SessionReply
        requires { T.words.fits self.now.shelves.now seat.old }
        ensures seat { FitsAndLearns T.words self.now.shelves.now seat.old seat.new }
        ensures met { IsMet self.now.form (T.words.number seat.old) (T.words.shown seat.old)
            (replied_to (asks (profile (ask_value ask.now))) (reply_value result)) (T.words.shown seat.new) }
    {
        if let Some(edition) = T::edition(seat) {
            return answer_from(self.alloc, self.form, edition, self.gate, ask);
        }
        self.answer_once(seat, ask)
    }

    // Answers from the current version, which is pinned for this answer, and released after it.
    #[tactic(auto, using(crate::proofs::LearnLemmas::learns_unpinned))]
    fn answer_once(&self, seat: &mut T::Seat, ask: &Ask<'_>) -> SessionReply
        requires fits { T.words.fits self.now.shelves.now seat.old }
        requires idle { (T.words.shown seat.old).held ≡ None }
        ensures seat { FitsAndLearns T.words self.now.shelves.now seat.old seat.new }
        ensures met { IsMet self.now.form (T.words.number seat.old) (T.words.shown seat.old)
            (replied_to (asks (profile (ask_value ask.now))) (reply_value result)) (T.words.shown seat.new) }
    {
        if let Err(fault) = self.shelves.pin(seat) {
            return SessionReply::pin_fault(fault);
        }
        let reply = match T::edition(seat) {
            Some(edition) => answer_from(self.alloc, self.form, edition, self.gate, ask),
            None => unreachable!(),
        };
        let _ = self.shelves.release(seat);
        reply
    }
}

// Answers from an edition. What is asked is judged before anything is scanned. A window that is too long is refused as
// one that is none.
fn answer_from<G: Gate>(
    alloc: Global,
    form: ReplyForm,
    edition: &Edition,
    gate: &G,
    ask: &Ask<'_>,
) -> SessionReply
    ensures { RepliesToProfile form (arc_value edition.now.image) edition.now.version (ask_value ask.now)
        (reply_value result) }
{
    let image: &Verified = &edition.image;
    // Called only for its contract, which says that the image is one that was accepted.
    image.stops();
    let query = match question_of(alloc, image, ask) {
        Ok(query) => query,
        Err(fault) => return SessionReply::no_question(fault),
    };
    if form.excludes(ask.after, ask.by) {
        return SessionReply::query_fault(QueryFault::BadWindow);
    }
    let (made, log) = reply_by_name(
        alloc,
        form.points,
        image,
        ask.criterion,
        &query,
        edition.version,
        ReplyLog::behind(gate),
    );
    SessionReply::after_scan(made, log)
}

// The query that a profile asks of an image, from any of its stops to any others.
fn question_of(alloc: Global, image: &Verified, ask: &Ask<'_>) -> Result<SetQuery, NoQuestion>
    ensures { MatchResult result
        (λ query. IsAskableBetween image.now.timetable.stops (question query)
        × AsksBetween image.now.names (ask_value ask.now).from (ask_value ask.now).to (asked_window (ask_value ask.now))
        (question query))
        (IsNoQuestion image.now (ask_value ask.now).from (ask_value ask.now).to (asked_window (ask_value ask.now))) }
{
    let from: &[&str] = &ask.from;
    let to: &[&str] = &ask.to;
    let window = Window {
        from: ask.after,
        until: ask.until,
        by: ask.by,
    };
    question_between(alloc, image, from, to, window)
}
