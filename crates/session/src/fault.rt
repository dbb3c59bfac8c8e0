//! How a session ends.

ghost use Rattle.std.specs.Prelude.{◌≡◌};
ghost use Rattle.session.specs.FaultNumber.{numbered_session_fault};

use reasoning::variant_name;
use thiserror::Error;

/// All lines were read and answered.
#[derive(Clone, Copy, Debug, PartialEq, Eq)]
pub struct Ended;

/// Why a session ended before all lines were answered.
#[derive(Clone, Copy, Debug, PartialEq, Eq, Error)]
pub enum SessionFault {
    /// A read failed, or a line went on past 16,777,216 bytes.
    #[error("the requests can't be read")]
    ReadFailed = 117,
    /// A reply couldn't be written, or not wholly.
    #[error("a reply can't be written")]
    WriteFailed = 118,
    /// A million requests were answered, and there are more.
    #[error("there are too many requests")]
    TooManyRequests = 119,
}

impl SessionFault {
    /// The number under which the fault is reported, from 117 to 119.
    pub fn number(self) -> u8
        ensures { result ≡ (numbered_session_fault self).0 }
    {
        self as u8
    }

    /// The name under which the fault is reported, as `ReadFailed`.
    pub fn name(self) -> &'static str
        ensures { result.now ≡ (numbered_session_fault self).1 }
    {
        variant_name!(self, SessionFault: ReadFailed, WriteFailed, TooManyRequests)
    }
}
