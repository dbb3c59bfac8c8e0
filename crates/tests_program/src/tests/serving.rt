//! `csa serve`: what is reported about wrong words. How it serves is tested with the built program (`.ci/server`), and
//! in the tests of workers.

use crate::tests::transcript::try_transcripts;
use std::alloc::{AllocError, Global};
use std::net::{Ipv4Addr, TcpListener};
use std::test::Fail;

const WRONG_WORDS: &str = "
# Ports, workers, sessions, zones, times and feeds of a wrong form.
run serve --image - --port 65536 --workers 2 --sessions 1 --first 20240115 --days 1 --zone fixed:0 slow=slow_feed
complains 64
run serve --image - --port 0 --workers 0 --sessions 1 --first 20240115 --days 1 --zone fixed:0 slow=slow_feed
complains 64
run serve --image - --port 0 --workers 17 --sessions 1 --first 20240115 --days 1 --zone fixed:0 slow=slow_feed
complains 64
run serve --image - --port 0 --workers 2 --sessions -1 --first 20240115 --days 1 --zone fixed:0 slow=slow_feed
complains 64
run serve --image - --port 0 --workers 2 --sessions 1 --first 20240115 --days 1 --zone utc slow=slow_feed
complains 64
run serve --image - --port 0 --workers 2 --sessions 1 --idle 4294967296 --first 20240115 --days 1 --zone fixed:0
complains 64
run serve --image - --port 0 --workers 2 --sessions 1 --longest 0 --first 20240115 --days 1 --zone fixed:0
complains 64
run serve --image - --port 0 --workers 2 --sessions 1 --idle 0 --first 20240115 --days 1 --zone fixed:0 slow=slow_feed
tells error: --idle \"0\": a number of seconds must be 1 to 4294967295
tells 
tells Usage: csa serve [OPTIONS] --image <IMAGE> --port <P> --workers <W> --sessions <N> --first <DAY> --days <N> \
--zone <ZONE> [NAME=FOLDER]...
tells 
tells For more information, try 'csa serve --help'.
ends 64
run serve --image - --port 0 --workers 2 --sessions 1 --first 20240115 --days 1 --zone fixed:0 slow
complains 64
run serve --image - --port 0 --workers 2 --sessions 1 --first 20240115 --days 1 --zone fixed:0 slow=
complains 64
run serve --image - --port 0 --workers 2 --sessions 1 --first 20240115 --days 1 --zone fixed:0 \
a=slow b=slow a=flat
tells error: \"a=flat\": there is a feed of this name already
tells 
tells Usage: csa serve [OPTIONS] --image <IMAGE> --port <P> --workers <W> --sessions <N> --first <DAY> --days <N> \
--zone <ZONE> [NAME=FOLDER]...
tells 
tells For more information, try 'csa serve --help'.
ends 64

# An image that can't be read.
run serve --image 'no such file' --port 0 --workers 2 --sessions 1 --first 20240115 --days 1 --zone fixed:0 slow=slow_feed
complains 3

# A zone that is none is refused before an image that is none.
run serve --image - --port 0 --workers 2 --sessions 1 --first 20240115 --days 1 --zone posix:none slow=slow_feed
tells csa: --zone: file:PATH must be a time zone file (TZif), posix:TEXT a rule such as CET-1CEST,M3.5.0,M10.5.0/3
answers refused 21 BadZone
run serve --image - --port 0 --workers 2 --sessions 1 --first today --days 1 --zone posix:none slow=slow_feed
tells csa: --zone: file:PATH must be a time zone file (TZif), posix:TEXT a rule such as CET-1CEST,M3.5.0,M10.5.0/3
answers refused 21 BadZone
sample
cut 3
run serve --image - --port 0 --workers 2 --sessions 1 --first today-1 --days 1 --zone fixed:0 slow=slow_feed
answers refused 51 OddLength
run serve --image - --port 0 --workers 2 --sessions 1 --first 20240115 --days 1 --zone fixed:0 slow=slow_feed
answers refused 51 OddLength
";

/// A port that is taken, PORT, is reported; before that, that clocks of a feed would count from another base than the
/// image's, and each feed that has no folder.
const TAKEN: &str = "
sample
folder fast_feed
file flat_feed
run serve --image - --port PORT --workers 2 --sessions 1 --first 20240115 --days 1 --zone fixed:0 \
slow=slow_feed fast=fast_feed flat=flat_feed
tells csa: warning: feed slow: slow_feed: no such file or folder
tells csa: warning: feed flat: flat_feed: not a folder
tells csa: can't listen at port PORT: it is in use
ends 3
run serve --image - --port PORT --workers 2 --sessions 1 --first 20240116 --days 1 --zone fixed:0 \
slow=slow_feed fast=fast_feed flat=flat_feed
tells csa: warning: the image's clocks count from 1705276800 (2024-01-15T00:00:00Z), those of a feed that is \
loaded from 1705363200 (2024-01-16T00:00:00Z)
tells csa: warning: feed slow: slow_feed: no such file or folder
tells csa: warning: feed flat: flat_feed: not a folder
tells csa: can't listen at port PORT: it is in use
ends 3
remove fast_feed
remove flat_feed
";

/// Adds a text with a number in the place of each PORT.
fn add_with_port(text: &mut String, transcript: &str, port: &str) -> Result<(), AllocError> {
    let mut is_first = true;
    for piece in transcript.split("PORT") {
        if !is_first {
            text.push_str(port)?;
        }
        text.push_str(piece)?;
        is_first = false;
    }
    Ok(())
}

/// The transcript of a port that is taken.
fn taken(alloc: Global, port: u16) -> Result<String, AllocError> {
    let port = format!(in alloc; "{port}")?;
    let mut text = String::new(alloc);
    add_with_port(&mut text, TAKEN, port.as_str())?;
    Ok(text)
}

#[test]
fn what_cannot_be_served_is_reported(rt: HostRuntime) -> Result<(), Fail> {
    let listener = TcpListener::bind(&rt, (Ipv4Addr::LOCALHOST, 0))?;
    let taken = taken(rt.alloc(), listener.local_addr()?.port())?;
    try_transcripts(&rt, &[WRONG_WORDS, taken.as_str()])
}
