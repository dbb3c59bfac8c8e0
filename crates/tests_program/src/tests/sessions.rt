//! A server and a client in one process, over a socket: a session loads a feed from a folder.

use crate::tests::base_feed;
use crate::tests::running::Machine;
use csa_program::run;
use image_files::{ImageDisk, WatchedWriter};
use image_layout::{Words, sample_words};
use std::alloc::Global;
use std::io::{IsTerminal, Read, Write};
use std::net::{Ipv4Addr, Net, Shutdown, TcpListener, TcpStream};
use std::process::Abort;
use std::sync::{Mutex, Wait};
use std::test::Fail;
use std::time::Duration;
use std::{fs, io, thread};

/// The requests of a client: the profile is answered over the version that is pinned, whatever is loaded meanwhile.
const ASKED: &str = "{\"do\":\"pin\"}
{\"do\":\"load\",\"feed\":\"slow\",\"wait\":true}
{\"do\":\"profile\",\"from\":\"A\",\"to\":\"C\",\"after\":\"07:00:00\",\
\"until\":\"09:00:00\",\"by\":\"10:00:00\",\"criterion\":\"arrival\"}
";

const REPLIES: &str = "{\"base\":1705276800,\"ok\":\"pin\",\"version\":1}
{\"feed\":\"slow\",\"ok\":\"load\",\"version\":2}
{\"ok\":\"profile\",\"points\":[{\"arr\":\"08:20:00\",\"dep\":\"08:00:00\",\
\"journey\":\"ride 0 0 walk 1 1 0 ride 2 2\"}],\"version\":1,\"walk\":null}
";

/// The words of the server: it serves the sample, from standard input, to one session, and has the feed `slow` in a
/// folder.
const WORDS: [&str; 17] = [
    "csa",
    "serve",
    "--image",
    "-",
    "--port",
    "0",
    "--workers",
    "2",
    "--sessions",
    "1",
    "--first",
    "20240115",
    "--days",
    "1",
    "--zone",
    "fixed:0",
    "slow=base_feed",
];

/// How often a client looks whether the server listens, a millisecond apart.
const LOOKS: u32 = 20_000;

/// A writer whose bytes another thread reads.
#[derive(Drop)]
struct Heard<'a, R> {
    rt: &'a R,
    bytes: &'a Mutex<Vec<u8>>,
}

impl<'a, R: Wait> Write for Heard<'a, R> {
    fn write(&mut self, piece: &[u8]) -> io::Result<usize> {
        self.bytes.lock(self.rt).extend_from_slice(piece)?;
        Ok(piece.len())
    }

    fn flush(&mut self) -> io::Result<()> {
        Ok(())
    }
}

impl<'a, R> IsTerminal for Heard<'a, R> {
    fn is_terminal(&self) -> bool {
        false
    }
}

/// The port that a server printed, once it did.
fn port_in(printed: &[u8]) -> Option<u16> {
    let line = str::from_utf8(printed).ok()?;
    let port = line.strip_prefix("listening ")?.strip_suffix("\n")?;
    port.parse::<u16>().ok()
}

/// Waits until the server listens, and returns its port.
fn port_of<R: Machine>(rt: &R, printed: &Mutex<Vec<u8>>) -> Option<u16> {
    for _ in 0..LOOKS {
        let port = port_in(&printed.lock(rt));
        if port.is_some() {
            return port;
        }
        thread::sleep(rt, Duration::from_millis(1));
    }
    None
}

/// Asks at the port, and returns all replies.
fn replies_at<
    R: Machine + ImageDisk<Image = R::File> + Net<Listener = TcpListener, Stream = TcpStream>,
>(rt: &R, port: u16) -> io::Result<Vec<u8>> {
    let mut stream = TcpStream::connect(rt, (Ipv4Addr::LOCALHOST, port))?;
    stream.write_all(ASKED.as_bytes())?;
    stream.shutdown(Shutdown::Write)?;
    let mut replies = Vec::new(rt.alloc());
    stream.read_to_end(&mut replies)?;
    Ok(replies)
}

/// Asserts what the server wrote to the output and the errors, its status, and what the client read.
fn expect_served<R: Machine + Abort>(
    rt: &R,
    status: u8,
    replies: Option<&[u8]>,
    printed: &[u8],
    reported: &[u8],
) {
    assert!(rt; status == 0);
    assert!(rt; replies == Some(REPLIES.as_bytes()));
    assert!(rt; printed.ends_with(b"\nserved 1\n"));
    assert!(rt; reported.ends_with(b"loaded slow version 2\n"));
}

/// Each line has its reply, and the loader reports the version that the folder became.
#[test]
fn a_client_beside_its_server(rt: HostRuntime) -> Result<(), Fail> {
    let alloc: Global = rt.alloc();
    base_feed::make(&rt)?;
    let image = Words::to_bytes(alloc, &sample_words())?;
    let (printed, reported) = (Mutex::new(Vec::new(alloc)), Mutex::new(Vec::new(alloc)));
    let (rt, printed, reported) = (&rt, &printed, &reported);
    let (status, replies) = thread::join(
        rt,
        move || -> u8 {
            let mut input = image.as_slice();
            let mut output = Heard { rt, bytes: printed };
            let mut errors = Heard {
                rt,
                bytes: reported,
            };
            let mut watched = WatchedWriter::of(&mut output);
            run(rt, &WORDS, &mut input, &mut watched, &mut errors)
        },
        move || -> Option<Vec<u8>> { replies_at(rt, port_of(rt, printed)?).ok() },
    );
    expect_served(
        rt,
        status,
        replies.as_deref(),
        &printed.lock(rt),
        &reported.lock(rt),
    );
    Ok(fs::remove_dir_all(rt, "base_feed")?)
}
