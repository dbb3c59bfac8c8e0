//! What follows when a connection can't be accepted.

ghost use Rattle.std.specs.Prelude.{◌≡◌};
ghost use Rattle.csa_program.specs.Accepting.{next_try_after};

use std::io::ErrorKind;

/// When accepting is tried again after it failed.
#[derive(Clone, Copy, Debug, PartialEq, Eq)]
pub enum NextTry {
    /// At once: only this connection is lost.
    AtOnce,
    /// After a pause: what is wanting may be there again.
    Later,
    /// Never: no further connection can be accepted.
    Never,
}

/// When accepting is tried again after an error of this kind.
///
/// The system has no kind of its own for a process or a machine without free descriptors, or without memory for buffers
/// of the network: these are uncategorized.
pub fn next_try(kind: ErrorKind) -> NextTry
    ensures { result ≡ next_try_after kind }
{
    match kind {
        ErrorKind::Interrupted | ErrorKind::ConnectionAborted | ErrorKind::ConnectionReset =>
            NextTry::AtOnce,
        ErrorKind::OutOfMemory
        | ErrorKind::NetworkDown
        | ErrorKind::NetworkUnreachable
        | ErrorKind::HostUnreachable
        | ErrorKind::Uncategorized => NextTry::Later,
        _ => NextTry::Never,
    }
}
