//! The log of what is read for a reply.

ghost use Rattle.std.specs.Prelude.{◌≡◌, []};
ghost use Rattle.lines.specs.LineReads.{reads_of};
ghost use Rattle.session.specs.Replies.{reads_for};

use lines::LineReads;
use orders::Gate;
use profile_scan::ReadLog;

/// The connections that a reply's scan asked for. It is made where the gate is entered, so no scan that notes its reads
/// begins before. It can't be dropped: it is noted as the reply is written.
pub(crate) struct ReplyLog {
    reads: LineReads,
}

impl ReplyLog {
    /// Enters the gate, for a scan that is about to begin. Nothing is noted yet.
    pub(crate) fn behind<G: Gate>(gate: &G) -> ReplyLog
        ensures { reads_of result.reads ≡ [] }
    {
        gate.enter();
        ReplyLog {
            reads: LineReads::new(),
        }
    }
}

/// What was read for a reply, which is nothing if no scan was made.
pub(crate) fn into_reads(log: Option<ReplyLog>) -> LineReads
    ensures { reads_of result ≡ reads_for log }
{
    match log {
        Some(ReplyLog { reads }) => reads,
        None => LineReads::new(),
    }
}

impl ReadLog for ReplyLog {
    ghost use Rattle.lines.specs.LineReads.{reads_of};

    ghost reads = { λ log. reads_of log.reads };

    #[inline(always)]
    fn note(&mut self, index: usize) {
        self.reads.note(index);
    }
}
