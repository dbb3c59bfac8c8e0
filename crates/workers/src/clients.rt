//! Who is served.

ghost use Rattle.workers.specs.Words.{ClientWords};

use crate::served::SessionEnd;
use lines::{ReadStream, WriteStream};

/// A client couldn't be opened.
#[derive(Clone, Copy, Debug, PartialEq, Eq)]
pub struct ConnFault;

/// A client, who asks for one session. The reader and the writer that `open` gives may be of types that can't be
/// dropped: `close` takes them back.
pub trait Client {
    type Reader: ReadStream + Send;

    type Writer: WriteStream + Send;

    // What may come of opening the client, and whether a reader and a writer may be closed.
    ghost words: { ClientWords Self Self.Reader Self.Writer };

    /// Where its requests are read and its replies are written.
    fn open(self) -> Result<(Self::Reader, Self::Writer), ConnFault>
        ensures { words.opens self result };

    /// Called once the client's session has ended, with what `open` gave and how the session ended. Nothing else
    /// depends on what is done here.
    fn close(reader: Self::Reader, writer: Self::Writer, end: SessionEnd)
        requires { words.closes reader writer end };
}
