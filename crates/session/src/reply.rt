//! Replies, as whole lines, each with the log of what was read for it.

ghost use Rattle.std.specs.Prelude.{◌≡◌, string_bytes};
ghost use Rattle.session.specs.Lines.{no_question_line, order_fault_line, pin_fault_line, query_fault_line};
ghost use Rattle.session.specs.Lines.{refusal_line};
ghost use Rattle.session.specs.Replies.{line_bytes, plain, reply_value, scan_text};

use crate::reply_log::ReplyLog;
use arrayvec::ArrayString;
use orders::OrderFault;
use profile_scan::ReadLog;
use session_texts::{Refusal, load_refused_line, moved_line};
use shelves::PinFault;
use station_answers::NoQuestion;
use std::alloc::AllocError;
use timetable::QueryFault;

/// A line with its LF.
#[derive(Drop)]
pub(crate) enum ReplyLine {
    Fixed(&'static str),
    Short(ArrayString<64>),
    Made(String),
}

impl ReplyLine {
    /// Its bytes.
    pub(crate) fn bytes(&self) -> &[u8]
        ensures { result.now ≡ line_bytes self.now }
    {
        match self {
            ReplyLine::Fixed(line) => line.as_bytes(),
            ReplyLine::Short(line) => line.as_bytes(),
            ReplyLine::Made(line) => line.as_bytes(),
        }
    }
}

/// A reply, and the log of what its scan read, if one was made. It can't be dropped, as its log.
pub(crate) struct SessionReply {
    pub(crate) line: ReplyLine,
    pub(crate) log: Option<ReplyLog>,
}

impl SessionReply {
    /// The reply after a scan, with the log of what it read: the line that was made, or that memory ran out.
    pub(crate) fn after_scan(made: Result<String, AllocError>, log: ReplyLog) -> SessionReply
        ensures text { (reply_value result).text ≡ scan_text made }
        ensures read { (reply_value result).read ≡ ⟦<ReplyLog as ReadLog>⟧.reads log }
    {
        let line = match made {
            Ok(line) => ReplyLine::Made(line),
            Err(AllocError) => ReplyLine::Fixed(Refusal::OutOfMemory.line()),
        };
        SessionReply {
            line,
            log: Some(log),
        }
    }

    // A reply for which nothing is read.
    fn of(line: ReplyLine) -> SessionReply
        ensures { reply_value result ≡ plain (line_bytes line) }
    {
        SessionReply { line, log: None }
    }

    pub(crate) fn fixed(line: &'static str) -> SessionReply
        ensures { reply_value result ≡ plain line.now }
    {
        SessionReply::of(ReplyLine::Fixed(line))
    }

    pub(crate) fn made(line: String) -> SessionReply
        ensures { reply_value result ≡ plain (string_bytes line) }
    {
        SessionReply::of(ReplyLine::Made(line))
    }

    pub(crate) fn refusal(refusal: Refusal) -> SessionReply
        ensures { reply_value result ≡ plain (refusal_line refusal) }
    {
        SessionReply::fixed(refusal.line())
    }

    pub(crate) fn pin_fault(fault: PinFault) -> SessionReply
        ensures { reply_value result ≡ plain (pin_fault_line fault) }
    {
        match fault {
            PinFault::Moved { newest } => SessionReply::of(ReplyLine::Short(moved_line(newest))),
            PinFault::AlreadyPinned => SessionReply::refusal(Refusal::AlreadyPinned),
            PinFault::NotPinned => SessionReply::refusal(Refusal::NotPinned),
            PinFault::SeatLost => SessionReply::refusal(Refusal::SeatLost),
            PinFault::OutOfMemory => SessionReply::refusal(Refusal::OutOfMemory),
        }
    }

    pub(crate) fn no_question(fault: NoQuestion) -> SessionReply
        ensures { reply_value result ≡ plain (no_question_line fault) }
    {
        match fault {
            NoQuestion::Bad(fault) => SessionReply::query_fault(fault),
            NoQuestion::OutOfMemory => SessionReply::refusal(Refusal::OutOfMemory),
        }
    }

    pub(crate) fn query_fault(fault: QueryFault) -> SessionReply
        ensures { reply_value result ≡ plain (query_fault_line fault) }
    {
        match fault {
            QueryFault::UnknownStop => SessionReply::refusal(Refusal::UnknownStop),
            QueryFault::SameStop => SessionReply::refusal(Refusal::SameStop),
            QueryFault::BadWindow => SessionReply::refusal(Refusal::BadWindow),
        }
    }

    pub(crate) fn order_fault(fault: OrderFault) -> SessionReply
        ensures { reply_value result ≡ plain (order_fault_line fault) }
    {
        match fault {
            OrderFault::UnknownFeed => SessionReply::refusal(Refusal::UnknownFeed),
            OrderFault::OrdersFull => SessionReply::refusal(Refusal::OrdersFull),
            OrderFault::OutOfMemory => SessionReply::refusal(Refusal::OutOfMemory),
            OrderFault::LoadRefused { refusal } => {
                SessionReply::of(ReplyLine::Short(load_refused_line(refusal)))
            }
            OrderFault::LoaderGone => SessionReply::refusal(Refusal::LoaderGone),
        }
    }
}
