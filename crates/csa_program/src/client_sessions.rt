//! Sessions of clients, as a server keeps and logs them.

ghost use Rattle.std.specs.Prelude.{◌≡◌, is_some};

use crate::logging::Host;
use command_endings::StartInstant;
use command_requests::Seconds;
use std::time::Duration;
use workers::SessionEnd;

/// How the sessions of a server are kept.
#[derive(Clone, Copy, Drop)]
pub struct SessionRules {
    /// For how long a client may send nothing, or take nothing. `None`: for any time.
    pub idle: Option<Seconds>,
    /// Whether sessions are logged.
    pub log: bool,
}

/// A client's session.
#[derive(Drop)]
pub struct ClientSession<'a, L> {
    /// The client's number among those that were accepted, from 1 on.
    number: u64,
    begun: StartInstant,
    rules: SessionRules,
    host: &'a L,
}

impl<'a, L: Host> ClientSession<'a, L> {
    /// The session of the client of this number begins, and is logged if sessions are.
    pub fn begin(number: u64, rules: SessionRules, host: &'a L) -> ClientSession<'a, L>
        ensures number { result.number ≡ number }
        ensures rules { result.rules ≡ rules }
    {
        let begun = host.now();
        if rules.log {
            host.log_begin(number);
        }
        ClientSession {
            number,
            begun,
            rules,
            host,
        }
    }

    /// The session ended so. It is logged if sessions are: with the number of its requests, and the longest time that
    /// one of them took.
    pub fn end(&self, end: SessionEnd, requests: u64, slowest: Duration) {
        if self.rules.log {
            self.host
                .log_end(self.number, end, requests, self.begun, slowest);
        }
    }

    /// Whether only clients are served that keep to the rule for idle ones, and so none that speak HTTP.
    pub fn is_strict(&self) -> bool
        ensures { result ≡ is_some self.now.rules.idle }
    {
        self.rules.idle.is_some()
    }

    /// The instant, if the session is logged.
    pub fn instant(&self) -> Option<StartInstant> {
        if self.rules.log {
            Some(self.host.now())
        } else {
            None
        }
    }

    /// How long something has lasted; nothing if the clock can't be read.
    pub fn elapsed(&self, begun: StartInstant) -> Duration {
        match self.host.elapsed(begun) {
            Some(lasted) => lasted,
            None => Duration::ZERO,
        }
    }

    /// The server's host.
    pub fn host(&self) -> &'a L {
        self.host
    }
}
