//! The end of a session whose client has sent more than was read.

use crate::logging::Host;
use std::io::Read;
use std::net::{Shutdown, TcpStream};
use std::time::Duration;

/// How many blocks are read at most, of 4,096 bytes each.
const MOST_BLOCKS: u32 = 65_536;

/// How many seconds it takes at most.
const MOST_SECONDS: u64 = 10;

/// After how many seconds a client that sends nothing has sent everything.
const SILENT_SECONDS: u64 = 1;

/// Lets a client have all replies that were written, although not all of its bytes were read: if a socket is closed
/// then, the system discards what the client hasn't got yet.
///
/// The client sees that no more replies come. Then what it sends is read and dropped: until it ends the connection,
/// or sends nothing for a second, but at most 268,435,456 bytes, and for some ten seconds.
pub fn drain<L: Host>(stream: &TcpStream, reader: &mut TcpStream, host: &L) {
    let silence = Some(Duration::from_secs(SILENT_SECONDS));
    if stream.shutdown(Shutdown::Write).is_err() || stream.set_read_timeout(silence).is_err() {
        return;
    }
    let begun = host.now();
    let mut block = [0u8; 4096];
    for _ in 0..MOST_BLOCKS {
        match reader.read(&mut block) {
            Ok(0) | Err(_) => return,
            Ok(_) => {}
        }
        match host.elapsed(begun) {
            Some(lasted) if lasted.as_secs() < MOST_SECONDS => {}
            _ => return,
        }
    }
}
