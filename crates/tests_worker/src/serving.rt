//! Clients in memory, served by threads.

mod collecting;
mod holding;
mod releasing;
mod spending;

ghost use Rattle.std.specs.Prelude.{◌≡◌, ◌≤◌, [], All, length, IfOk, MatchOption};
ghost use Rattle.workers.specs.Sessions.{MayClose};
ghost use Rattle.shelves.specs.ShelfSeats.{shelf_seats};
ghost use Rattle.workers.specs.Words.{sessions_of};

use feed_files::{FeedFiles, MemoryFiles};
use feed_loader::Plan;
use gtfs_tables::Day;
use image_layout::sample_words;
use image_verifier::verify;
use load_orders::GhostList;
use orders::{Gate, OpenGate};
use service_days::Zone;
use shelves::{PublishFault, ShelfLoader, ShelfSeat, Shelves, ShelvesName};
use std::alloc::{AllocError, Global};
use std::io::Write;
use std::marker::Brand;
use std::process::Abort;
use std::sync::atomic::{AtomicU64, Ordering};
use std::sync::{Arc, Mutex, Wait};
use std::test::Fail;
use std::thread::Threads;
use std::time::{Clock, Duration, Instant};
use std::{io, thread};
use workers::*;

/// The files of a small feed, in which a change at the second stop takes 121 s.
const FILES: [(&str, &[u8]); 6] = [
    ("agency.txt", b"agency_timezone\nEtc/UTC\n"),
    ("stops.txt", b"stop_id\nA\nB\nC\n"),
    ("trips.txt", b"service_id,trip_id\nS,T1\nS,T2\n"),
    (
        "stop_times.txt",
        b"trip_id,arrival_time,departure_time,stop_id,stop_sequence\nT1,08:00:00,08:00:00,A,1\nT1,08:10:00,08:10:00,B,2\nT1,08:30:00,08:30:00,C,3\nT2,08:12:00,08:12:00,B,1\nT2,08:20:00,08:20:00,C,2\n",
    ),
    (
        "calendar.txt",
        b"service_id,monday,tuesday,wednesday,thursday,friday,saturday,sunday,start_date,end_date\nS,1,1,1,1,1,1,1,20240115,20240115\n",
    ),
    (
        "transfers.txt",
        b"from_stop_id,to_stop_id,transfer_type,min_transfer_time\nB,B,2,121\n",
    ),
];

/// The files of a feed with agencies and trips alone.
const BAD_FILES: [(&str, &[u8]); 2] = [
    ("agency.txt", b"agency_timezone\nEtc/UTC\n"),
    ("trips.txt", b"service_id,trip_id\nS,T1\nS,T2\n"),
];

const PROFILE: &str =
    "{\"do\":\"profile\",\"from\":\"A\",\"to\":\"C\",\"after\":\"07:00:00\",\"until\":\"09:00:00\",\"by\":\"10:00:00\",\"criterion\":\"arrival\"}\n";

/// The reply to that profile, with legs.
const WITH_LEGS: &str =
    "{\"ok\":\"profile\",\"points\":[{\"arr\":\"08:20:00\",\"dep\":\"08:00:00\",\"journey\":\"ride 0 0 walk 1 1 0 ride 2 2\",\"legs\":[{\"arr\":\"08:10:00\",\"day\":20240115,\"dep\":\"08:00:00\",\"from\":\"A\",\"to\":\"B\",\"trip\":\"T1\"},{\"from\":\"B\",\"secs\":0,\"to\":\"B\"},{\"arr\":\"08:20:00\",\"day\":20240115,\"dep\":\"08:12:00\",\"from\":\"B\",\"to\":\"C\",\"trip\":\"T2\"}]}],\"version\":1,\"walk\":null}\n";

/// The requests of a session that orders a load, and the replies.
const LOADING: (&str, &str) = (
    "{\"do\":\"pin\"}\n{\"do\":\"load\",\"feed\":\"slow\"}\n{\"do\":\"profile\",\"from\":\"A\",\"to\":\"C\",\"after\":\"07:00:00\",\"until\":\"09:00:00\",\"by\":\"10:00:00\",\"criterion\":\"arrival\"}\n",
    "{\"base\":1705276800,\"ok\":\"pin\",\"version\":1}\n{\"feed\":\"slow\",\"ok\":\"load\"}\n{\"ok\":\"profile\",\"points\":[{\"arr\":\"08:20:00\",\"dep\":\"08:00:00\",\"journey\":\"ride 0 0 walk 1 1 0 ride 2 2\"}],\"version\":1,\"walk\":null}\n",
);

/// The requests of a session that waits for loads, and the replies. The third load is for the third day, 20240117.
const WAITING: (&str, &str) = (
    "{\"do\":\"pin\"}\n{\"do\":\"load\",\"feed\":\"slow\",\"wait\":true}\n{\"do\":\"pin\"}\n{\"do\":\"release\"}\n{\"do\":\"pin\"}\n{\"do\":\"load\",\"feed\":\"bad\",\"wait\":true}\n{\"do\":\"load\",\"feed\":\"none\",\"wait\":true}\n{\"do\":\"load\",\"feed\":\"slow\",\"wait\":true}\n{\"do\":\"release\"}\n{\"do\":\"pin\"}\n",
    "{\"base\":1705276800,\"ok\":\"pin\",\"version\":1}\n{\"feed\":\"slow\",\"ok\":\"load\",\"version\":2}\n{\"error\":92,\"name\":\"AlreadyPinned\"}\n{\"ok\":\"release\"}\n{\"base\":1705276800,\"ok\":\"pin\",\"version\":2}\n{\"error\":120,\"name\":\"LoadRefused\",\"refusal\":1}\n{\"error\":114,\"name\":\"UnknownFeed\"}\n{\"feed\":\"slow\",\"ok\":\"load\",\"version\":3}\n{\"ok\":\"release\"}\n{\"base\":1705449600,\"ok\":\"pin\",\"version\":3}\n",
);

/// What the loader tells about the loads of the session that waits.
const LOADED: &str =
    "loaded slow version 2\n0: 2 3 2 3\nload bad refused 1 MissingFile stops.txt 0\n1: 1\n\
loaded slow version 3\n0: 3 3 0 0\n";

/// A writer to bytes that several threads may share; or one whose reader is gone, so that writes fail.
#[derive(Drop)]
struct Shared<'a, R> {
    rt: &'a R,
    bytes: &'a Mutex<Vec<u8>>,
    is_gone: bool,
}

impl<'a, R: Wait> Write for Shared<'a, R> {
    fn write(&mut self, piece: &[u8]) -> io::Result<usize> {
        if self.is_gone {
            return Err(io::Error::from(io::ErrorKind::BrokenPipe));
        }
        self.bytes.lock(self.rt).extend_from_slice(piece)?;
        Ok(piece.len())
    }

    fn flush(&mut self) -> io::Result<()> {
        Ok(())
    }
}

/// A client whose requests are in memory. One without a writer can't be opened.
#[derive(Drop)]
struct Visitor<'a, R> {
    requests: &'static [u8],
    replies: Option<Shared<'a, R>>,
}

impl<'a, R: Wait + Sync> Client for Visitor<'a, R> {
    type Reader = &'static [u8];

    type Writer = Shared<'a, R>;

    ghost words = { record { opens = λ client result. Unit {0}; closes = λ reader writer end. Unit {0} } };

    fn open(self) -> Result<(&'static [u8], Shared<'a, R>), ConnFault> {
        match self.replies {
            Some(replies) => Ok((self.requests, replies)),
            None => Err(ConnFault),
        }
    }

    fn close(_reader: &'static [u8], mut writer: Shared<'a, R>, end: SessionEnd) {
        if end == SessionEnd::Spent {
            let _ = writer.write_all(b"spent\n");
        }
    }
}

/// Visitors who wait in a row: the last one is served first.
#[derive(Drop)]
struct Row<C> {
    visitors: Vec<C>,
    came: GhostList<C>,
}

impl<C> Clients<C> for Row<C> {
    ghost words = { record {
      came = λ row. row.came;
      none_left = λ row. row.visitors.items ≡ [];
      Fact = Unit {0};
      holds = λ row fact. Unit {0};
    } };

    fn next(&mut self) -> Option<C> {
        let next = self.visitors.pop();
        if let Some(client) = &next {
            self.came.note(client);
        }
        next
    }
}

/// The feeds `slow` and `bad`. Each load is for the day after that of the one before it, from 20240115 on.
#[derive(Drop)]
struct TwoFeeds {
    names: Vec<String>,
    loads: AtomicU64,
}

impl Feeds for TwoFeeds {
    type Files = MemoryFiles<'static>;

    type Leave = ();

    ghost words = { record {
      named = λ feeds. feeds.names.items;
      are_files = λ feeds index files. Unit {0};
      is_plan = λ feeds plan. Unit {0};
    } };

    fn names(&self) -> &[String] {
        &self.names
    }

    fn plan(&self, _alloc: Global) -> Result<Plan, AllocError> {
        let moved = self.loads.fetch_add(1, Ordering::SeqCst) % 10;
        Ok(Plan {
            first_day: Day {
                year: 2024,
                month: 1,
                day: 15 + moved as u8,
            },
            days: 1,
            zone: Zone::fixed(0),
            strict: false,
        })
    }

    fn files(&self, index: usize, _permit: DrawPermit<()>) -> Option<MemoryFiles<'static>>
        ensures { MatchOption result (length self.now.names.items ≤ index)
            (λ files. (⟦<MemoryFiles<'static> as FeedFiles>⟧.words.failed files ≡ []) × Unit {0}) }
    {
        if index == 1 {
            return Some(MemoryFiles::of(&BAD_FILES));
        }
        Some(MemoryFiles::of(&FILES))
    }

    fn begin(&self, _index: usize) -> Option<Instant> {
        None
    }

    fn finish<E: Write>(
        &self,
        errors: &mut E,
        index: usize,
        _begun: Option<Instant>,
        outcome: Result<LoadedVersion, LoadRefusal>,
    ) {
        let _ = match outcome {
            Ok(LoadedVersion { version, report }) => write!(
                errors,
                "{index}: {version} {} {} {}\n",
                report.stops, report.runs, report.connections
            ),
            Err(refusal) => write!(errors, "{index}: {}\n", refusal.number()),
        };
    }
}

fn two_feeds(alloc: Global) -> Result<TwoFeeds, AllocError> {
    let slow = String::from_str(alloc, "slow")?;
    let bad = String::from_str(alloc, "bad")?;
    let names = vec![in alloc; slow, bad]?;
    Ok(TwoFeeds {
        names,
        loads: AtomicU64::new(0),
    })
}

/// A gate that may keep the first scan waiting until another is over.
#[derive(Drop)]
struct Meeting<'a, R> {
    rt: &'a R,
    entered: AtomicU64,
    left: AtomicU64,
    missed: AtomicU64,
    sleeps: u32,
}

impl<'a, R: Clock> Gate for Meeting<'a, R> {
    fn enter(&self) {
        if self.entered.fetch_add(1, Ordering::SeqCst) > 0 {
            return;
        }
        for _ in 0..self.sleeps {
            if self.left.load(Ordering::SeqCst) > 0 {
                return;
            }
            thread::sleep(self.rt, Duration::from_millis(1));
        }
        self.missed.store(1, Ordering::SeqCst);
    }

    fn leave(&self) {
        self.left.fetch_add(1, Ordering::SeqCst);
    }
}

/// Shelves with the sample, the loader's seat, and one or two workers' seats.
fn shelves_for(alloc: Global, two: bool) -> Result<(Shelves, ShelfLoader, Vec<ShelfSeat>), Fail>
    ensures loader { IfOk result (λ made. made.1.table ≡ made.0) }
    ensures seats { IfOk result (λ made. All (λ seat. seat.table ≡ made.0) made.2.items) }
    ensures count { IfOk result (λ made. (1 ≤ length made.2.items) × (length made.2.items ≤ 2)) }
{
    let Ok(image) = verify(alloc, sample_words().to_vec(alloc)?) else {
        return Err(AllocError.into());
    };
    let Ok(shared) = Arc::new(alloc, image) else {
        return Err(AllocError.into());
    };
    let Ok((shelves, loader, mut seats)) = Shelves::new(alloc, shared) else {
        return Err(AllocError.into());
    };
    seats.truncate(if two { 2 } else { 1 });
    Ok((shelves, loader, seats))
}

/// How many sessions ended in each way.
#[derive(Clone, Copy, Debug, PartialEq, Eq)]
struct EndCounts {
    ended: u64,
    failed: u64,
    spent: u64,
}

/// Serves clients over these shelves, under a name, with the two feeds: how their sessions ended.
fn count_ends<
    B: ShelvesName + Send + Sync,
    C: Client + Drop + Send,
    K: Clients<C> + Drop,
    G: Gate + Sync,
    E: Write + Send + Drop,
    R: Threads + Wait + Sync,
>(
    rt: &R,
    alloc: Global,
    clients: K,
    shelves: Shelves,
    seats: Vec<ShelfSeat>,
    loader: ShelfLoader,
    gate: &G,
    form: ReplyForm,
    errors: E,
) -> Result<EndCounts, AllocError>
    requires shelves { shelves ≡ B.table }
    requires seats { All (λ seat. seat.table ≡ shelves) seats.items }
    requires loader { loader.table ≡ shelves }
    requires some { 1 ≤ length seats.items }
    requires few { length seats.items ≤ 16 }
    requires closes { MayClose (sessions_of form C.words C.Reader.words C.Writer.words shelf_seats) seats.items }
{
    let feeds = two_feeds(alloc)?;
    let Ok(ran) = run_shelves::<B, _, _, _, _, _, _>(
        rt,
        alloc,
        clients,
        shelves,
        seats,
        loader,
        &feeds,
        (),
        gate,
        form,
        errors,
    ) else {
        return Err(AllocError);
    };
    Ok(EndCounts {
        ended: ran.served.ended(),
        failed: ran.served.failed(),
        spent: ran.served.spent(),
    })
}

/// Serves the visitors: how their sessions ended, and what was written to the errors.
fn serve_all<R: Threads + Wait + Sync + Abort, G: Gate + Sync>(
    rt: &R,
    alloc: Global,
    visitors: Vec<Visitor<'_, R>>,
    two: bool,
    gate: &G,
    form: ReplyForm,
) -> Result<(EndCounts, Vec<u8>), Fail> {
    let (shelves, loader, seats) = shelves_for(alloc, two)?;
    let reported = Mutex::new(Vec::new(alloc));
    let row = Row {
        visitors,
        came: GhostList::none(),
    };
    let errors = Shared {
        rt,
        bytes: &reported,
        is_gone: false,
    };
    let counts = count_ends::<Brand, _, _, _, _, _>(
        rt, alloc, row, shelves, seats, loader, gate, form, errors,
    )?;
    Ok((counts, reported.into_inner()))
}

/// What a visitor does with the replies.
#[derive(Clone, Copy, PartialEq, Eq)]
enum Manner {
    Reads,
    GoesAway,
    /// It can't be opened.
    IsShut,
}

/// Serves visitors with these requests and manners, the last first: how their sessions ended, what was replied, and
/// what was written to the errors.
fn serve_asking<R: Threads + Wait + Sync + Abort, G: Gate + Sync>(
    rt: &R,
    alloc: Global,
    asking: &[(&'static str, Manner)],
    two: bool,
    gate: &G,
) -> Result<(EndCounts, Vec<u8>, Vec<u8>), Fail> {
    serve_in(rt, alloc, asking, two, gate, ReplyForm::of(PointForm::Bare))
}

/// The same, with the form in which profiles are replied to.
fn serve_in<R: Threads + Wait + Sync + Abort, G: Gate + Sync>(
    rt: &R,
    alloc: Global,
    asking: &[(&'static str, Manner)],
    two: bool,
    gate: &G,
    form: ReplyForm,
) -> Result<(EndCounts, Vec<u8>, Vec<u8>), Fail> {
    let bytes = Mutex::new(Vec::new(alloc));
    let mut visitors = Vec::new(alloc);
    for (requests, manner) in asking {
        visitors.push(visitor_of(rt, *requests, *manner, &bytes))?;
    }
    let (counts, reported) = serve_all(rt, alloc, visitors, two, gate, form)?;
    Ok((counts, bytes.into_inner(), reported))
}

/// A visitor whose replies go to these bytes.
fn visitor_of<'a, R>(
    rt: &'a R,
    requests: &'static str,
    manner: Manner,
    bytes: &'a Mutex<Vec<u8>>,
) -> Visitor<'a, R> {
    let replies = match manner {
        Manner::IsShut => None,
        Manner::Reads | Manner::GoesAway => Some(Shared {
            rt,
            bytes,
            is_gone: manner == Manner::GoesAway,
        }),
    };
    Visitor {
        requests: requests.as_bytes(),
        replies,
    }
}

/// Asserts how sessions ended, the replies, and what was written to the errors.
fn assert_served(
    rt: &impl Abort,
    served: &(EndCounts, Vec<u8>, Vec<u8>),
    ended: u64,
    failed: u64,
    replies: &str,
    errors: &str,
) {
    let (counts, replied, reported) = served;
    let spent = 0;
    let wanted = EndCounts {
        ended,
        failed,
        spent,
    };
    assert_eq!(rt; *counts, wanted);
    assert_eq!(rt; str::from_utf8(replied).unwrap_or("?"), replies);
    assert_eq!(rt; str::from_utf8(reported).unwrap_or("?"), errors);
}

/// What the loader tells about one load.
const LOADED_ONCE: &str = "loaded slow version 2\n0: 2 3 2 3\n";

/// A session pins, orders a load, and goes on with the version that it holds; the loader tells which version it
/// published.
#[test]
fn a_client_is_served(rt: HostRuntime) -> Result<(), Fail> {
    let (requests, expected) = LOADING;
    let asking = [(requests, Manner::Reads), ("", Manner::IsShut)];
    let served = serve_asking(&rt, rt.alloc(), &asking, true, &OpenGate)?;
    assert_served(&rt, &served, 1, 1, expected, LOADED_ONCE);
    Ok(())
}

/// Workers reply in the form that they are given.
#[test]
fn legs_are_replied(rt: HostRuntime) -> Result<(), Fail> {
    let asking = [(PROFILE, Manner::Reads)];
    let form = ReplyForm::of(PointForm::WithLegs);
    let served = serve_in(&rt, rt.alloc(), &asking, false, &OpenGate, form)?;
    assert_served(&rt, &served, 1, 0, WITH_LEGS, "");
    Ok(())
}

/// A client that waits for a load gets its version, and pins it; or it gets the number with which the load was
/// refused.
#[test]
fn loads_are_waited_for(rt: HostRuntime) -> Result<(), Fail> {
    let (requests, expected) = WAITING;
    let asking = [(requests, Manner::Reads)];
    let served = serve_asking(&rt, rt.alloc(), &asking, false, &OpenGate)?;
    assert_served(&rt, &served, 1, 0, expected, LOADED);
    Ok(())
}

/// The reply to the only one of these clients that goes on reading.
const PINNED: &str = "{\"base\":1705276800,\"ok\":\"pin\",\"version\":2}\n";

/// If a client waits for a load and goes away, its load is carried out, its session fails, and its worker serves the
/// next client. One that goes away with a version pinned leaves its seat idle.
#[test]
fn whoever_waits_may_go_away(rt: HostRuntime) -> Result<(), Fail> {
    let pin = "{\"do\":\"pin\"}\n";
    let wait = "{\"do\":\"load\",\"feed\":\"slow\",\"wait\":true}\n";
    let asking = [
        (pin, Manner::Reads),
        (wait, Manner::GoesAway),
        (pin, Manner::GoesAway),
    ];
    let served = serve_asking(&rt, rt.alloc(), &asking, false, &OpenGate)?;
    assert_served(&rt, &served, 1, 2, PINNED, LOADED_ONCE);
    Ok(())
}

/// A load that finds no shelf free is reported with the counts of all shelves.
#[test]
fn full_shelves_are_reported(rt: HostRuntime) -> Result<(), Fail> {
    let alloc: Global = rt.alloc();
    let counts = [1, 1, 1, 1, 1, 1, 1, 0];
    let refusal = LoadRefusal::Publish(PublishFault::ShelvesFull { counts });
    let line = format!(in alloc; "load slow refused {refusal}\n")?;
    assert!(rt; line.as_str() == "load slow refused 94 ShelvesFull 1 1 1 1 1 1 1 0\n");
    Ok(())
}

/// Whether the second of two scans was over before the first had waited for so many milliseconds.
fn scans_meet<R: Threads + Wait + Sync + Clock + Abort>(
    rt: &R,
    alloc: Global,
    two: bool,
    sleeps: u32,
) -> Result<bool, Fail> {
    let gate = Meeting {
        rt,
        entered: AtomicU64::new(0),
        left: AtomicU64::new(0),
        missed: AtomicU64::new(0),
        sleeps,
    };
    let asking = [(PROFILE, Manner::Reads), (PROFILE, Manner::Reads)];
    let (counts, _, _) = serve_asking(rt, alloc, &asking, two, &gate)?;
    assert!(rt; counts.ended == 2);
    Ok(gate.missed.load(Ordering::SeqCst) == 0)
}

#[test]
fn two_scans_at_once(rt: HostRuntime) -> Result<(), Fail> {
    let alloc: Global = rt.alloc();
    assert!(&rt; scans_meet(&rt, alloc, true, 10_000)?);
    assert!(&rt; !scans_meet(&rt, alloc, false, 10_000)?);
    Ok(())
}

/// Whichever growth is refused, every thread that was started ends, and the test ends with `AllocError`.
#[test]
fn refused_growth_serves_nobody(rt: HostRuntime) -> Result<(), Fail> {
    let alloc: Global = rt.alloc();
    let (counts, _) = serve_all(
        &rt,
        alloc,
        Vec::new(alloc),
        true,
        &OpenGate,
        ReplyForm::of(PointForm::Bare),
    )?;
    assert!(rt; counts.ended == 0);
    Ok(())
}
