//! What sessions are answered from, and the streams that each reads and writes.

ghost use Rattle.std.specs.Prelude.{◌≡◌};
ghost use Rattle.session.specs.Forms.{bare};

use crate::reply_form::ReplyForm;
use answer_replies::PointForm;
use lines::Counted;
use std::alloc::Global;

/// What sessions are answered from: memory, the shelves with the versions, the gate that hears of
/// scans, and the form in which profiles are replied.
#[derive(Drop)]
pub struct SessionServer<'a, T, G> {
    pub alloc: Global,
    pub shelves: &'a T,
    pub gate: &'a G,
    pub form: ReplyForm,
}

impl<'a, T, G> SessionServer<'a, T, G> {
    /// With these shelves and this gate; its replies are bare, over windows of any length, from one stop to one other.
    pub fn new(alloc: Global, shelves: &'a T, gate: &'a G) -> SessionServer<'a, T, G>
        ensures shelves { result.shelves.now ≡ shelves.now }
        ensures form { result.form ≡ bare }
    {
        SessionServer {
            alloc,
            shelves,
            gate,
            form: ReplyForm::of(PointForm::Bare),
        }
    }
}

/// Where a session's requests are read and its replies are written, each with the number of its calls that failed; each
/// reply is noted with the seat as it was then.
#[derive(Drop)]
pub struct Streams<I, O, S> {
    pub reader: Counted<I>,
    pub writer: Counted<O, S>,
}

impl<I, O, S> Streams<I, O, S> {
    ghost use Rattle.session.specs.Streams.{AreNew};

    /// No call has failed yet, and nothing was replied.
    pub fn new(reader: I, writer: O) -> Streams<I, O, S>
        ensures { AreNew reader writer result }
    {
        Streams {
            reader: Counted::new(reader),
            writer: Counted::new(writer),
        }
    }
}
