//! Sessions over TCP.

ghost use Rattle.std.specs.Prelude.{◌≡◌, ◌⊎◌, ◌↔◌, ◌+◌, ◌++◌, ◌∷◌, [], true};
ghost use Rattle.std.specs.Prelude.{false, IfOk, IfSome, IsTrue, MatchOption, ⊤, ◌-◌, ◌^◌, ℕ, map, min};
ghost use Rattle.csa_program.specs.Acceptor.{AreCountedOff};

use crate::accepting::{NextTry, next_try};
use crate::client_sessions::{ClientSession, SessionRules};
use crate::draining::drain;
use crate::logging::Host;
use crate::requests::Requests;
use command_requests::Seconds;
use load_orders::GhostList;
use std::io;
use std::net::{TcpListener, TcpStream};
use std::time::Duration;
use workers::{Client, Clients, ConnFault, SessionEnd};

/// A client whose TCP connection was accepted, and how its session is kept.
#[derive(Drop)]
pub struct Visitor<'a, L> {
    stream: TcpStream,
    number: u64,
    rules: SessionRules,
    host: &'a L,
}

// Each reply is sent at once. A read and a write fail once the client has sent nothing, or taken nothing, for so long.
fn make_ready(stream: &TcpStream, idle: Option<Seconds>) -> io::Result<()> {
    stream.set_nodelay(true)?;
    if let Some(idle) = idle {
        let longest = Duration::from_secs(u64::from(idle.number));
        stream.set_read_timeout(Some(longest))?;
        stream.set_write_timeout(Some(longest))?;
    }
    Ok(())
}

impl<'a, L: Host + Sync> Client for Visitor<'a, L> {
    type Reader = Requests<TcpStream, ClientSession<'a, L>>;

    type Writer = TcpStream;

    // What is written goes to the client's own socket.
    ghost words = { record {
      opens = λ visitor result. IfOk result (λ opened. opened.1 ≡ visitor.stream);
      closes = λ reader writer end. Unit {0};
    } };

    /// Each reply is sent at once.
    fn open(self) -> Result<(Requests<TcpStream, ClientSession<'a, L>>, TcpStream), ConnFault> {
        let Visitor {
            stream,
            number,
            rules,
            host,
        } = self;
        let client_session = ClientSession::begin(number, rules, host);
        match (make_ready(&stream, rules.idle), stream.try_clone()) {
            (Ok(()), Ok(reader)) => Ok((Requests::new(reader, client_session), stream)),
            _ => {
                client_session.end(SessionEnd::Failed, 0, Duration::ZERO);
                Err(ConnFault)
            }
        }
    }

    /// If the session ended before the client's requests did, the client is left time for the replies that were
    /// written.
    fn close(
        reader: Requests<TcpStream, ClientSession<'a, L>>,
        writer: TcpStream,
        end: SessionEnd,
    ) {
        let mut reader = reader;
        let slowest = reader.slowest();
        if end != SessionEnd::Ended && !reader.has_failed() {
            let host = reader.client_session.host();
            drain(&writer, reader.stream(), host);
        }
        reader.client_session.end(end, reader.count(), slowest);
    }
}

/// Accepts connections, as many as are wanted. Contracts see the clients that came.
#[derive(Drop)]
pub struct Acceptor<'a, L> {
    listener: &'a TcpListener,
    left: u64,
    is_endless: bool,
    failed: bool,
    /// How many were accepted.
    accepted: u64,
    rules: SessionRules,
    host: &'a L,
    came: GhostList<Visitor<'a, L>>,
}

impl<'a, L> Acceptor<'a, L> {
    /// An acceptor for so many connections, or for connections without end if that is 0, whose sessions are kept by
    /// these rules.
    pub fn new(
        listener: &'a TcpListener,
        connections: u64,
        rules: SessionRules,
        host: &'a L,
    ) -> Acceptor<'a, L>
        ensures left { result.left ≡ connections }
        ensures endless { IsTrue result.is_endless ↔ (connections ≡ 0) }
        ensures whole { result.failed ≡ false }
        ensures rules { result.rules ≡ rules }
        ensures none_came { result.came ≡ [] }
        ensures counted { AreCountedOff connections result.left result.accepted result.is_endless result.failed [] }
    {
        Acceptor {
            listener,
            left: connections,
            is_endless: connections == 0,
            failed: false,
            accepted: 0,
            rules,
            host,
            came: GhostList::none(),
        }
    }

    /// Whether accepting failed.
    pub fn has_failed(&self) -> bool
        ensures { result ≡ self.now.failed }
    {
        self.failed
    }

    // The client of this connection, who has the next number and is noted as one who came.
    fn visitor(&mut self, stream: TcpStream) -> Visitor<'a, L>
        ensures stream { result.stream ≡ stream }
        ensures left { self.new.left ≡ self.old.left }
        ensures endless { self.new.is_endless ≡ self.old.is_endless }
        ensures failed { self.new.failed ≡ self.old.failed }
        ensures number { result.number ≡ self.new.accepted }
        ensures next { self.new.accepted ≡ min (self.old.accepted + 1) (2 ^ 64 - 1) }
        ensures rules { (result.rules ≡ self.old.rules) × (self.new.rules ≡ self.old.rules) }
        ensures came { self.new.came ≡ self.old.came ++ result ∷ [] }
    {
        self.accepted = self.accepted.saturating_add(1);
        let visitor = Visitor {
            stream,
            number: self.accepted,
            rules: self.rules,
            host: self.host,
        };
        self.came.note(&visitor);
        visitor
    }
}

impl<'a, L: Host> Acceptor<'a, L> {
    // Accepts a connection. One that ended before it was accepted is passed over, and not counted. If accepting fails
    // for another reason, this is reported, and accepting is tried again as long as that may help.
    fn accept(&mut self) -> Option<TcpStream>
        ensures failed { MatchOption result (self.new.failed ≡ true) (λ _. self.new.failed ≡ self.old.failed) }
        ensures left { self.new.left ≡ self.old.left }
        ensures endless { self.new.is_endless ≡ self.old.is_endless }
        ensures came { self.new.came ≡ self.old.came }
        ensures accepted { self.new.accepted ≡ self.old.accepted }
        ensures rules { self.new.rules ≡ self.old.rules }
    {
        let accepted = accepted_at(self.listener, self.host);
        if accepted.is_none() {
            self.failed = true;
        }
        accepted
    }
}

// The next connection; `None` where no more can be accepted.
fn accepted_at<L: Host>(listener: &TcpListener, host: &L) -> Option<TcpStream> {
    let mut is_waiting = false;
    for _ in 0..u64::MAX {
        match listener.accept() {
            Ok((stream, _)) => {
                if is_waiting {
                    host.tell_recovery();
                }
                return Some(stream);
            }
            Err(error) => match next_try(error.kind()) {
                NextTry::AtOnce => {}
                NextTry::Later => {
                    if !is_waiting {
                        host.tell_failure(&error, false);
                    }
                    is_waiting = true;
                    host.pause();
                }
                NextTry::Never => {
                    host.tell_failure(&error, true);
                    return None;
                }
            },
        }
    }
    None
}

impl<'a, L: Host> Clients<Visitor<'a, L>> for Acceptor<'a, L> {
    // No client comes any more: accepting failed, or as many as are wanted were accepted. A fact is how many clients
    // are wanted, or 0 if there is no end to them: of those who came each has the next number, and they are counted
    // off.
    ghost words = { record {
      came = λ acceptor. acceptor.came;
      none_left = λ acceptor. (acceptor.failed ≡ true) ⊎ ((acceptor.is_endless ≡ false) × (acceptor.left ≡ 0));
      Fact = ℕ;
      holds = λ acceptor wanted. AreCountedOff wanted acceptor.left acceptor.accepted acceptor.is_endless
          acceptor.failed
          (map (λ visitor. visitor.number) acceptor.came);
    } };

    /// The next connection. If there is an end to them, one is counted off what is left, even if accepting then fails.
    fn next(&mut self) -> Option<Visitor<'a, L>>
        ensures came { MatchOption result (self.new.came ≡ self.old.came)
            (λ client. self.new.came ≡ self.old.came ++ client ∷ []) }
        ensures none { MatchOption result ((self.new.failed ≡ true)
            ⊎ ((self.new.is_endless ≡ false) × (self.new.left ≡ 0))) (λ _. ⊤) }
        ensures spent { MatchOption result ((self.new.failed ≡ true)
            ⊎ ((self.old.is_endless ≡ false) × (self.old.left ≡ 0))) (λ _. ⊤) }
        ensures endless { self.new.is_endless ≡ self.old.is_endless }
        ensures left { IfSome result (λ _. (self.old.is_endless ≡ true) ⊎ (self.new.left + 1 ≡ self.old.left)) }
        ensures failed { IfSome result (λ _. self.new.failed ≡ self.old.failed) }
        ensures deaf { self.old.failed ≡ true → self.new.failed ≡ true }
        ensures rules { self.new.rules ≡ self.old.rules }
        ensures number { IfSome result (λ client. client.number ≡ min (self.old.accepted + 1) (2 ^ 64 - 1)) }
        ensures holds { (wanted : ℕ)
            → AreCountedOff wanted self.old.left self.old.accepted self.old.is_endless self.old.failed
            (map (λ visitor. visitor.number) self.old.came)
            → AreCountedOff wanted self.new.left self.new.accepted self.new.is_endless self.new.failed
            (map (λ visitor. visitor.number) self.new.came) }
    {
        if !self.is_endless {
            if self.left == 0 {
                return None;
            }
            self.left -= 1;
        }
        match self.accept() {
            Some(stream) => Some(self.visitor(stream)),
            None => None,
        }
    }
}
