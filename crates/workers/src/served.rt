//! How sessions ended.

ghost use Rattle.std.specs.Prelude.{◌≡◌, ◌++◌, ◌∷◌, [], IfSome};
ghost use Rattle.lines.specs.Streams.{inner_of};
ghost use Rattle.workers.specs.Ends.{end_of as end_of_outcome};

use crate::clients::Client;
use load_orders::GhostList;
use session::{Ended, SessionFault, Streams};
use std::marker::Model;

/// How a session ended.
#[derive(Clone, Copy, Debug, PartialEq, Eq)]
pub enum SessionEnd {
    /// All its lines were answered.
    Ended,
    /// Its client couldn't be opened, a read or a write failed, or a line was too long.
    Failed,
    /// It had too many requests.
    Spent,
}

/// How a session ended, by what came of it.
pub(crate) fn end_of(outcome: Result<Ended, SessionFault>) -> SessionEnd
    ensures { result ≡ end_of_outcome outcome }
{
    match outcome {
        Ok(Ended) => SessionEnd::Ended,
        Err(SessionFault::ReadFailed | SessionFault::WriteFailed) => SessionEnd::Failed,
        Err(SessionFault::TooManyRequests) => SessionEnd::Spent,
    }
}

/// How many sessions ended in each way: those of one worker, and at the end those of all. Contracts see the list of the
/// sessions: for each, how it ended and, if its client could be opened, the client's reader and writer as they were
/// then.
#[derive(Drop)]
pub struct Served<R, W, S> {
    ended: u64,
    failed: u64,
    spent: u64,
    sessions: GhostList<(Option<Streams<R, W, S>>, SessionEnd)>,
}

impl<R, W, S> Model for Served<R, W, S> {
    ghost use Rattle.std.specs.Prelude.{List};
    ghost use Rattle.workers.specs.Ends.{AreCounted, Session};

    ghost Value = { List (Session R W S) };

    ghost view = { λ s. s.sessions };

    ghost invariant = { λ s. AreCounted s.sessions s.ended s.failed s.spent };
}

impl<R, W, S> Served<R, W, S> {
    ghost use Rattle.std.specs.Prelude.{◌≡◌, ◌++◌, ◌∷◌, []};
    ghost use Rattle.workers.specs.Ends.{ended_in, failed_in, spent_in};

    /// Counts no session.
    pub fn new() -> Served<R, W, S>
        ensures { result ≡ [] }
    {
        Served {
            ended: 0,
            failed: 0,
            spent: 0,
            sessions: GhostList::none(),
        }
    }

    // Counts a session and notes it.
    fn add(&mut self, session: &(Option<Streams<R, W, S>>, SessionEnd))
        ensures { self.new ≡ self.old ++ session.now ∷ [] }
    {
        match session.1 {
            SessionEnd::Ended => self.ended = self.ended.saturating_add(1),
            SessionEnd::Failed => self.failed = self.failed.saturating_add(1),
            SessionEnd::Spent => self.spent = self.spent.saturating_add(1),
        }
        self.sessions.note(session);
    }

    /// Adds another worker's sessions.
    pub fn join(&mut self, other: Served<R, W, S>)
        ensures { self.new ≡ self.old ++ other }
    {
        let Served {
            ended,
            failed,
            spent,
            sessions,
        } = other;
        self.ended = self.ended.saturating_add(ended);
        self.failed = self.failed.saturating_add(failed);
        self.spent = self.spent.saturating_add(spent);
        self.sessions.append(sessions);
    }

    /// How many sessions ended with all lines answered. This count and the others stop at the greatest value.
    pub fn ended(&self) -> u64
        ensures { result ≡ ended_in self.now }
    {
        self.ended
    }

    /// How many sessions couldn't be opened, or ended where a read or a write failed.
    pub fn failed(&self) -> u64
        ensures { result ≡ failed_in self.now }
    {
        self.failed
    }

    /// How many sessions ended after too many requests.
    pub fn spent(&self) -> u64
        ensures { result ≡ spent_in self.now }
    {
        self.spent
    }
}

/// Notes the session, and closes its client, if it could be opened, with the very reader and writer that are noted.
pub(crate) fn close_client<C: Client, S>(
    served: &mut Served<C::Reader, C::Writer, S>,
    session: (Option<Streams<C::Reader, C::Writer, S>>, SessionEnd),
)
    requires closes { IfSome session.0 (λ now. C.words.closes (inner_of now.reader) (inner_of now.writer) session.1) }
    ensures { served.new ≡ served.old ++ session ∷ [] }
{
    served.add(&session);
    let (streams, end) = session;
    if let Some(Streams { reader, writer }) = streams {
        C::close(reader.into_inner(), writer.into_inner(), end);
    }
}
