//! `csa serve --image IMAGE --port P --workers W --sessions N [--legs] [--log] [--idle SECS] [--longest SECS] [--sets]
//! --first DAY --days N --zone ZONE [NAME=FOLDER]..`.

ghost use denote.Param.Send.{IsSync};
ghost use Rattle.std.specs.Prelude.{◌≡◌, ◌≢◌, ◌<◌, ◌≤◌, ◌⊎◌, [], All, List, Option, length, map};
ghost use Rattle.std.specs.Prelude.{slice_get, Some, string_bytes, Bool, IfOk, IfSome, MatchOption, ℕ};
ghost use Rattle.std.specs.Io.KnownBytes.{Appends};
ghost use Rattle.command_requests.specs.declared.ends.SessionCounts.{SessionCounts};
ghost use Rattle.command_requests.specs.declared.statuses.TheConstants.{ACCEPTED, INPUT_OUTPUT, OUT_OF_MEMORY};
ghost use Rattle.shelves.specs.ShelfSeats.{SeatsHanded, shelf_seats};
ghost use Rattle.workers.specs.Headline.{SeatsAreReadyAt, IsServerRunAt, server_input_of};
ghost use Rattle.workers.specs.Sessions.{MayClose};
ghost use Rattle.shelves.specs.ShelfLoads.{shelf_loader};
ghost use Rattle.feed_loads.specs.Words.{loads_of, outcomes_of};
ghost use Rattle.workers.specs.Words.{sessions_of};
ghost use Rattle.image_files.specs.Held.{IsLeftAlone};
ghost use Rattle.csa_program.specs.Acceptor.{AreCountedOff};
ghost use Rattle.csa_program.specs.Hosting.{IsHosted, IsRunTo, first_loader, form_asked};
ghost use Rattle.csa_program.specs.Running.{IsServeEnd};
ghost use Rattle.std.specs.Option.{option_map};
ghost use Rattle.csa_program.specs.Serving.{IsEndAt, IsNoServerEnd, IsServerEnd, MayHost, counts_of};
ghost use Rattle.csa_program.specs.Serving.{points_with, port_text, served_text};
ghost use Rattle.feed_plans.specs.Planning.{IsPlanBy};

use crate::bases::warn_of_bases;
use crate::client_sessions::{ClientSession, SessionRules};
use crate::explaining::{Explains, warn_of_idle_feed};
use crate::folders::warn_of_folders;
use crate::line_queue::{LineQueue, LineWriter};
use crate::listening::{BoundListener, FolderLeave, bound_at};
use crate::logging::{Host, LoaderErrors, SharedErrors, log_load};
use crate::machine::Machine;
use crate::requests::Requests;
use crate::sockets::{Acceptor, Visitor};
use command_endings::{StartInstant, status};
use command_requests::{NamedFolder, Seconds, ServeRequest, SessionCounts};
use feed_commands::{explain_load, refuse_feed, report_unread_zone};
use feed_files::{Disk, FeedFiles, FolderFiles};
use feed_loader::Plan;
use feed_messages::reason_of;
use feed_plans::{PlanFailure, WallClock, plan_at, zone_and_plan};
use image_commands::open_image;
use image_files::{ImageDisk, Watched, WatchedRead};
use image_verifier::Verified;
use lines::{ReadStream, WriteStream};
use orders::OpenGate;
use shelves::{NamedLoader, NamedNotice, NamedSeat, ShelfLoader, ShelfSeat, Shelves, ShelvesName};
use std::alloc::{AllocError, Global};
use std::io::{ErrorKind, Write};
use std::marker::{Brand, PhantomData};
use std::net::{Net, TcpListener, TcpStream};
use std::rt::Files;
use std::snapshot::Snapshot;
use std::sync::{Arc, Wait};
use std::thread;
use std::thread::Threads;
use std::time::{Clock, Instant};
use text_pieces::{put_number, put_text};
use workers::{
    Client, Clients, DrawPermit, Feeds, LoadRefusal, LoadedVersion, PointForm, ReplyForm, Served,
    ServingOutcome, WorkersFault, run_shelves,
};

/// What a server that is asked for is begun with, beside its image.
#[derive(Drop)]
struct Setup<'a> {
    alloc: Global,
    request: &'a ServeRequest<'a>,
    names: Vec<String>,
    /// The bytes of the zone's file: with them a plan is made for each load.
    zone_bytes: Vec<u8>,
    /// The plan that was made when the server began.
    first: Plan,
    ghost named: { length names.items ≡ length request.now.feeds.items },
    ghost texts: { map string_bytes names.items ≡ map (λ feed. feed.name.now) request.now.feeds.items },
}

/// The feeds that may be loaded: those that the command line names.
#[derive(Drop)]
struct Folders<'a, H: WallClock> {
    disk: &'a H,
    setup: &'a Setup<'a>,
    ghost made: { IsPlanBy (H.may_show disk.now) setup.now.request.now.plan setup.now.zone_bytes.items
        setup.now.first },
}

impl<'a, H: Disk + Explains + Clock + WallClock + Sync> Feeds for Folders<'a, H> {
    type Files = FolderFiles<'a, H>;

    type Leave = FolderLeave;

    // The files are those of the folder that goes with the feed's name, of which nothing was read yet.
    ghost words = { record {
      named = λ folders. folders.setup.now.names.items;
      are_files = λ folders index files.
          (slice_get (map (λ feed. feed.folder.now) folders.setup.now.request.now.feeds.items) index
          ≡ Some files.folder.now)
          × (files.reads ≡ []);
      is_plan = λ folders plan.
          IsPlanBy (H.may_show folders.disk.now) folders.setup.now.request.now.plan
          folders.setup.now.zone_bytes.items plan;
    } };

    fn names(&self) -> &[String] {
        &self.setup.names
    }

    // The zone was made of the same bytes before, so only memory can be missing.
    fn plan(&self, alloc: Global) -> Result<Plan, AllocError> {
        match plan_at(
            alloc,
            &self.setup.request.plan,
            &self.setup.zone_bytes,
            self.disk.instant(),
        ) {
            Ok(plan) => Ok(plan),
            Err(_) => Err(AllocError),
        }
    }

    // The trait's clause: a method with its associated type in a parameter has to repeat it.
    fn files(&self, index: usize, _permit: DrawPermit<FolderLeave>) -> Option<FolderFiles<'a, H>>
        ensures { MatchOption result (length self.now.setup.now.names.items ≤ index)
            (λ files. (⟦<FolderFiles<'a, H> as FeedFiles>⟧.words.failed files ≡ [])
            × ((slice_get (map (λ feed. feed.folder.now) self.now.setup.now.request.now.feeds.items) index
            ≡ Some files.folder.now) × (files.reads ≡ []))) }
    {
        match self.setup.request.feeds.get(index) {
            Some(feed) => Some(FolderFiles::new(self.disk, feed.folder)),
            None => None,
        }
    }

    fn begin(&self, _index: usize) -> Option<Instant> {
        Instant::now(self.disk).ok()
    }

    // Logs the load, if that is asked for. To explain a refused feed, its folder is looked at once more; of a loaded
    // feed of which no trip runs there is a warning.
    fn finish<W: Write>(
        &self,
        errors: &mut W,
        index: usize,
        begun: Option<Instant>,
        outcome: Result<LoadedVersion, LoadRefusal>,
    ) {
        let Some(feed) = self.setup.request.feeds.get(index) else {
            return;
        };
        if self.setup.request.log {
            log_load(
                self.disk,
                self.setup.alloc,
                feed.name,
                StartInstant::at(begun),
                outcome,
                errors,
            );
        }
        match &outcome {
            Ok(loaded) => warn_of_idle_feed(errors, feed.name, loaded),
            Err(refusal) => self.disk.explain_feed(feed.folder, refusal, errors),
        }
    }
}

/// A machine that servers run on. It has no code, only a word for contracts: how the sessions of a server may have
/// ended.
pub trait Hosts {
    // That there is a whole run, as `run_shelves` describes it, of a server that was asked for, with these counts. It
    // doesn't say that this run took place.
    ghost may_host: { Self → MayHost };
}

impl<'a, H: Disk + Explains + Clock + WallClock + Threads + Wait + Sync + 'a> Hosts for H {
    // Its clients come over TCP, and its feeds are those that the request names.
    ghost may_host = { λ machine. IsHosted (λ form. sessions_of form
        ⟦<Visitor<'a, SharedErrors<'a, H>> as Client>⟧.words
        ⟦<Requests<TcpStream, ClientSession<'a, SharedErrors<'a, H>>> as ReadStream>⟧.words
        ⟦<TcpStream as WriteStream>⟧.words shelf_seats)
        ⟦<Acceptor<'a, SharedErrors<'a, H>> as Clients<Visitor<'a, SharedErrors<'a, H>>>>⟧.words
        (loads_of ⟦<Folders<'a, H> as Feeds>⟧.words
        (outcomes_of ⟦<FolderFiles<'a, H> as FeedFiles>⟧.words shelf_loader shelf_seats.version))
        (λ request acceptor. (acceptor.rules.idle ≡ request.idle) × (acceptor.rules.log ≡ request.log))
        (λ acceptor. acceptor.failed)
        (λ request zone_bytes folders. (folders.disk.now ≡ machine) × (folders.setup.now.request.now ≡ request)
        × (folders.setup.now.zone_bytes.items ≡ zone_bytes)) };
}

/// A name of a server's run: a type that stands for how its sessions may have ended, so that what a thread returns says
/// of which run it is. Code that is generic over names is proved for every run. It is called with the kit's marker type
/// `Brand`, for which the caller's proof picks a run at each call, in place of the one in the `impl` below.
trait RunName {
    // Whether the sessions may have ended in these ways, while accepting failed or didn't.
    ghost may_end: { SessionCounts → Bool → Type 0 };
}

impl RunName for Brand {
    ghost may_end = { λ ends is_deaf. ⊥ };
}

/// How many sessions of a run ended in each way, and whether accepting failed.
#[derive(Drop)]
struct RunEnd<B: RunName> {
    ends: SessionCounts,
    is_deaf: bool,
    of: PhantomData<B>,
    ghost hosted: { ∥ B.may_end ends is_deaf ∥₁ },
}

/// What the thread has of a run that it is to host, beside the image, of which only contracts see the value here. It
/// owns nothing.
#[derive(Drop)]
struct PendingRun<'a, B: RunName, H: Hosts + WallClock> {
    folders: &'a Folders<'a, H>,
    image: &'a Snapshot<Verified>,
    of: PhantomData<B>,
    ghost named: { (ends : SessionCounts) (is_deaf : Bool)
        → H.Hosts.may_host folders.now.disk.now folders.now.setup.now.request.now image.now.value
        folders.now.setup.now.zone_bytes.items ends is_deaf → ∥ B.may_end ends is_deaf ∥₁ },
}

/// Serves sessions until as many were served as are asked for, or prints the first thing that is wrong.
pub fn run<
    H: Machine + ImageDisk<Image = H::File> + Net<Listener = TcpListener, Stream = TcpStream>,
    I: WatchedRead,
    O: Watched,
    E: Write + Send,
>(rt: &H, request: ServeRequest<'_>, input: &mut I, output: &mut O, errors: &mut E) -> u8
    ensures ended { IsServeEnd (H.ImageDisk.may_hold rt.now) (H.ImageDisk.may_fail rt.now) (H.WallClock.may_show rt.now)
        (I.remaining input.old)
        (I.may_fail input.old) request.entry (⟦<H as Hosts>⟧.may_host rt.now) (O.noted output.new) result
        (O.contents output.old) (O.contents output.new) }
    ensures input { IsLeftAlone request.entry.image.now input.old input.new }
{
    let alloc = rt.alloc();
    let (zone_bytes, first) = match zone_and_plan(rt, &request.plan) {
        Ok(first) => first,
        Err(PlanFailure::Refused(fault)) => {
            explain_load(&fault, errors);
            return refuse_feed(alloc, output, fault);
        }
        Err(PlanFailure::Unreadable(path)) => return report_unread_zone(rt, errors, path),
        Err(PlanFailure::OutOfMemory) => return status::OUT_OF_MEMORY,
    };
    let image = match open_image(rt, request.image, input, output, errors) {
        Ok(image) => image,
        Err(status) => return status,
    };
    let Ok(names) = names_of(alloc, &request.feeds) else {
        return status::OUT_OF_MEMORY;
    };
    let setup = Setup {
        alloc,
        request: &request,
        names,
        zone_bytes,
        first,
    };
    if !request.feeds.is_empty() {
        warn_of_bases(alloc, &image, &setup.first, errors);
    }
    warn_of_folders(rt, &request.feeds, errors);
    let bound = match bound_at(rt, request.port) {
        Ok(bound) => bound,
        Err(error) => return none_received(alloc, errors, request.port, error.kind()),
    };
    let folders = Folders {
        disk: rt,
        setup: &setup,
    };
    serve_at(bound, image, &folders, output, errors)
}

// The largest block whose return glibc's malloc takes note of, less the room that it needs itself.
const LARGEST_NOTED_BLOCK: usize = 32 * 1024 * 1024 - 65536;

// Lets the process keep memory that is freed, so that the next query needn't have it mapped again: glibc's malloc keeps
// up to twice the size of the largest block that it saw freed, for each thread. The block itself is never touched.
fn keep_freed_memory(alloc: Global) {
    let block: Result<Vec<u8>, AllocError> = Vec::with_capacity(alloc, LARGEST_NOTED_BLOCK);
    drop(block);
}

// Prints the port, serves the clients that come to it, and prints how many sessions there were.
fn serve_at<
    H: Disk + Explains + Clock + WallClock + Threads + Wait + Sync,
    O: Watched,
    E: Write + Send,
>(
    bound: BoundListener,
    image: Verified,
    folders: &Folders<'_, H>,
    output: &mut O,
    errors: &mut E,
) -> u8
    ensures { IsEndAt (⟦<H as Hosts>⟧.may_host folders.now.disk.now folders.now.setup.now.request.now image
        folders.now.setup.now.zone_bytes.items) bound.port (O.noted output.new) (O.contents output.old)
        (O.contents output.new) result }
{
    serve_named::<Brand, _, _, _>(bound, image, folders, output, errors)
}

// As `serve_at`, for the run whose name is `B`.
fn serve_named<
    B: RunName,
    H: Disk + Explains + Clock + WallClock + Threads + Wait + Sync,
    O: Watched,
    E: Write + Send,
>(
    bound: BoundListener,
    image: Verified,
    folders: &Folders<'_, H>,
    output: &mut O,
    errors: &mut E,
) -> u8
    requires named { (ends : SessionCounts) (is_deaf : Bool)
        → ⟦<H as Hosts>⟧.may_host folders.now.disk.now folders.now.setup.now.request.now image
        folders.now.setup.now.zone_bytes.items ends is_deaf → ∥ B.may_end ends is_deaf ∥₁ }
    ensures { IsEndAt B.may_end bound.port (O.noted output.new) (O.contents output.old) (O.contents output.new) result }
{
    let alloc = folders.setup.alloc;
    keep_freed_memory(alloc);
    let Ok((queue, writer)) = LineQueue::new(alloc) else {
        return status::OUT_OF_MEMORY;
    };
    let begun = tell_port(alloc, bound.port, output);
    if begun != status::ACCEPTED {
        return begun;
    }
    let shown = Snapshot::of(&image);
    let pending: PendingRun<'_, B, H> = PendingRun {
        folders,
        image: &shown,
        of: PhantomData,
    };
    match host_reported(pending, bound, image, queue, writer, errors) {
        Some(end) => {
            explain_failed(end.ends, errors);
            tell_served(alloc, end.ends, end.is_deaf, output)
        }
        None => status::OUT_OF_MEMORY,
    }
}

// Serves the clients that come to the port, while a thread of its own writes what the server's threads report. Returns
// how many sessions ended in each way, and whether accepting failed; `None` if the run gave no result: it lacked memory
// or a thread, or lost one.
fn host_reported<
    B: RunName,
    H: Disk + Explains + Clock + WallClock + Threads + Wait + Sync,
    E: Write + Send,
>(
    pending: PendingRun<'_, B, H>,
    bound: BoundListener,
    image: Verified,
    queue: LineQueue,
    writer: LineWriter,
    errors: &mut E,
) -> Option<RunEnd<B>>
    requires served { pending.image.now.value ≡ image }
{
    let rt = pending.folders.disk;
    let queue = &queue;
    let ((), end) = thread::join(
        rt,
        move || writer.write_all(rt, queue, errors),
        move || -> Option<RunEnd<B>>
            requires shared { IsSync H.row }
            requires served { pending.image.now.value ≡ image }
        { host_until_closed(pending, bound, image, queue) },
    );
    end
}

// Serves the clients that come to the port, and then closes the queue into which the server's threads report. Returns
// how many sessions ended in each way, and whether accepting failed; `None` if the run gave no result: it lacked memory
// or a thread, or lost one.
fn host_until_closed<B: RunName, H: Disk + Explains + Clock + WallClock + Threads + Wait + Sync>(
    pending: PendingRun<'_, B, H>,
    bound: BoundListener,
    image: Verified,
    queue: &LineQueue,
) -> Option<RunEnd<B>>
    requires served { pending.image.now.value ≡ image }
{
    let BoundListener {
        listener,
        port: _,
        leave,
    } = bound;
    let folders = pending.folders;
    let shared = SharedErrors::of(folders.disk, folders.setup.alloc, queue);
    let end = host_pending(pending, &listener, leave, image, &shared);
    queue.close(folders.disk);
    end
}

// Serves the clients that come to the listener, as the run that is pending.
fn host_pending<'d, B: RunName, H: Disk + Explains + Clock + WallClock + Threads + Wait + Sync>(
    pending: PendingRun<'_, B, H>,
    listener: &'d TcpListener,
    leave: FolderLeave,
    image: Verified,
    errors: &'d SharedErrors<'_, H>,
) -> Option<RunEnd<B>>
    requires served { pending.image.now.value ≡ image }
{
    match host(listener, leave, image, pending.folders, errors) {
        Some((ends, is_deaf)) => Some(RunEnd {
            ends,
            is_deaf,
            of: PhantomData,
        }),
        None => None,
    }
}

fn names_of(alloc: Global, feeds: &[NamedFolder<'_>]) -> Result<Vec<String>, AllocError>
    ensures count { IfOk result (λ names. length names.items ≡ length feeds.now) }
    ensures texts { IfOk result (λ names. map string_bytes names.items ≡ map (λ feed. feed.name.now) feeds.now) }
{
    let mut names = Vec::with_capacity(alloc, feeds.len())?;
    for feed in feeds {
        names.push(name_of(alloc, feed)?)?;
    }
    Ok(names)
}

fn name_of(alloc: Global, feed: &NamedFolder<'_>) -> Result<String, AllocError>
    ensures { IfOk result (λ name. string_bytes name ≡ feed.now.name.now) }
{
    String::from_str(alloc, feed.name)
}

// Serves the clients that come to the listener. Returns how many sessions ended in each way, and whether accepting
// failed; `None` if the run gave no result: it lacked memory or a thread, or lost one. Whatever the server's threads
// report goes into one queue.
fn host<'d, 'f, 'e, H: Disk + Explains + Clock + WallClock + Threads + Wait + Sync>(
    listener: &'d TcpListener,
    leave: FolderLeave,
    image: Verified,
    folders: &Folders<'f, H>,
    errors: &'d SharedErrors<'e, H>,
) -> Option<(SessionCounts, bool)>
    ensures { IfSome result (λ end. ⟦<H as Hosts>⟧.may_host folders.now.disk.now folders.now.setup.now.request.now
        image folders.now.setup.now.zone_bytes.items end.0 end.1) }
{
    let request = folders.setup.request;
    let Ok(made) = shelves_of(folders.setup.alloc, image, request.workers.number) else {
        return None;
    };
    let rules = SessionRules {
        idle: request.idle,
        log: request.log,
    };
    let acceptor = Acceptor::new(listener, request.sessions, rules, errors);
    let loader_errors = LoaderErrors::of(errors.another());
    match serve_accepted::<Brand, _, _, _>(acceptor, made, folders, leave, loader_errors) {
        Ok(end) => Some(end),
        Err(_) => None,
    }
}

// Serves the clients that come to the acceptor, at these shelves, whose name is `B`, with replies in the form that is
// asked for. Returns how many sessions ended in each way, and whether accepting failed.
fn serve_accepted<
    'd,
    'f,
    B: ShelvesName + Send + Sync,
    H: Disk + Explains + Clock + WallClock + Threads + Wait + Sync,
    L: Host + Sync,
    E: Write + Send + Drop,
>(
    acceptor: Acceptor<'d, L>,
    made: (Shelves, ShelfLoader, Vec<ShelfSeat>),
    folders: &Folders<'f, H>,
    leave: FolderLeave,
    errors: E,
) -> Result<(SessionCounts, bool), WorkersFault<Acceptor<'d, L>>>
    requires named { made.0 ≡ B.table }
    requires loader { made.1.table ≡ made.0 }
    requires seats { All (λ seat. seat.table ≡ made.0) made.2.items }
    requires new { SeatsHanded made.0 (length made.2.items) made.2.items }
    requires some { 1 ≤ length made.2.items }
    requires few { length made.2.items ≤ 16 }
    requires none_came { acceptor.came ≡ [] }
    ensures { IfOk result (λ end. IsRunTo (IsServerRunAt (sessions_of (form_asked folders.now.setup.now.request.now)
        ⟦<Visitor<'d, L> as Client>⟧.words ⟦<Requests<TcpStream, ClientSession<'d, L>> as ReadStream>⟧.words
        ⟦<TcpStream as WriteStream>⟧.words shelf_seats) ⟦<Acceptor<'d, L> as Clients<Visitor<'d, L>>>⟧.words
        (loads_of ⟦<Folders<'f, H> as Feeds>⟧.words
        (outcomes_of ⟦<FolderFiles<'f, H> as FeedFiles>⟧.words shelf_loader shelf_seats.version))
        (server_input_of acceptor.entry made.0 made.2.items made.1 folders.now))
        (λ wanted. AreCountedOff wanted acceptor.entry.left acceptor.entry.accepted
        acceptor.entry.is_endless acceptor.entry.failed []) (λ left. left.failed) end.0 end.1) }
{
    let form = form_of(folders.setup.request);
    let run_result = serve_all::<B, _, _, _, _>(acceptor, made, folders, leave, form, errors)?;
    Ok((ends_of(&run_result.served), run_result.clients.has_failed()))
}

// Serves all clients at these shelves, until none is left. It takes clients of any type: so what is proved of clients
// whose bytes are known is proved of the very code that serves sockets.
fn serve_all<
    'f,
    B: ShelvesName + Send + Sync,
    C: Client + Drop + Send,
    K: Clients<C> + Drop,
    H: Disk + Explains + Clock + WallClock + Threads + Wait + Sync,
    E: Write + Send + Drop,
>(
    clients: K,
    made: (Shelves, ShelfLoader, Vec<ShelfSeat>),
    folders: &Folders<'f, H>,
    leave: FolderLeave,
    form: ReplyForm,
    errors: E,
) -> Result<
    ServingOutcome<
        C::Reader,
        C::Writer,
        K,
        NamedSeat<B>,
        NamedLoader<B>,
        NamedNotice<B>,
        FolderFiles<'f, H>,
    >,
    WorkersFault<K>,
>
    requires ready { SeatsAreReadyAt B.table (server_input_of clients made.0 made.2.items made.1 folders.now) }
    requires new { SeatsHanded made.0 (length made.2.items) made.2.items }
    requires closes { MayClose (sessions_of form C.words C.Reader.words C.Writer.words shelf_seats)
        made.2.items }
    ensures many { IfOk result (λ run_result. K.words.came clients ≡ [] → length run_result.served ≡ length
        (K.words.came run_result.clients)) }
    ensures run { IfOk result (IsServerRunAt (sessions_of form C.words C.Reader.words C.Writer.words shelf_seats)
        K.words (loads_of ⟦<Folders<'f, H> as Feeds>⟧.words
        (outcomes_of ⟦<FolderFiles<'f, H> as FeedFiles>⟧.words shelf_loader shelf_seats.version))
        (server_input_of clients made.0 made.2.items made.1 folders.now)) }
{
    let (shelves, loader, seats) = made;
    run_shelves::<B, _, _, _, _, _, _>(
        folders.disk,
        folders.setup.alloc,
        clients,
        shelves,
        seats,
        loader,
        folders,
        leave,
        &OpenGate,
        form,
        errors,
    )
}

// In which form profiles are replied, for which windows, and whether between several stops.
fn form_of(request: &ServeRequest<'_>) -> ReplyForm
    ensures { result ≡ form_asked request.now }
{
    ReplyForm {
        points: points_of(request.legs),
        longest: number_of(request.longest),
        sets: request.sets,
    }
}

fn points_of(legs: bool) -> PointForm
    ensures { result ≡ points_with legs }
{
    if legs {
        PointForm::WithLegs
    } else {
        PointForm::Bare
    }
}

fn number_of(seconds: Option<Seconds>) -> Option<u32>
    ensures { result ≡ option_map (λ s. s.number) seconds }
{
    match seconds {
        Some(seconds) => Some(seconds.number),
        None => None,
    }
}

// Shelves with the image as version 1, and seats for so many workers, none of which has done anything yet.
fn shelves_of(
    alloc: Global,
    image: Verified,
    workers: usize,
) -> Result<(Shelves, ShelfLoader, Vec<ShelfSeat>), AllocError>
    requires { workers ≤ 16 }
    ensures first { IfOk result (λ made. made.1 ≡ first_loader made.0 image) }
    ensures seats { IfOk result (λ made. All (λ seat. seat.table ≡ made.0) made.2.items) }
    ensures new { IfOk result (λ made. SeatsHanded made.0 workers made.2.items) }
    ensures all { IfOk result (λ made. SeatsHanded made.0 (length made.2.items) made.2.items) }
{
    let Ok(shared) = Arc::new(alloc, image) else {
        return Err(AllocError);
    };
    let Ok((shelves, loader, mut seats)) = Shelves::new(alloc, shared) else {
        return Err(AllocError);
    };
    seats.truncate(workers);
    Ok((shelves, loader, seats))
}

// Reports that the server can't listen at the port, and why.
fn none_received<E: Write>(alloc: Global, errors: &mut E, port: u16, kind: ErrorKind) -> u8
    ensures { (result ≡ INPUT_OUTPUT) ⊎ (result ≡ OUT_OF_MEMORY) }
{
    let reason = reason_of(kind);
    match format!(in alloc; "csa: can't listen at port {port}: {reason}\n") {
        Ok(line) => {
            let _ = errors.write_all(line.as_bytes());
            status::INPUT_OUTPUT
        }
        Err(_) => status::OUT_OF_MEMORY,
    }
}

// Prints at which port the server listens.
fn tell_port<O: Watched>(alloc: Global, port: u16, output: &mut O) -> u8
    ensures { ((result ≡ ACCEPTED) × Appends (O.contents output.old) (O.contents output.new) (port_text port))
        ⊎ IsNoServerEnd port (O.noted output.new) (O.contents output.old) (O.contents output.new) result }
{
    match port_line(alloc, port) {
        Ok(line) => status::write_text(output, line.as_str(), status::ACCEPTED),
        Err(_) => status::OUT_OF_MEMORY,
    }
}

fn port_line(alloc: Global, port: u16) -> Result<String, AllocError>
    ensures { IfOk result (λ line. string_bytes line ≡ port_text port) }
{
    let mut line = String::new(alloc);
    put_number(&mut line, "listening ", u64::from(port))?;
    put_text(&mut line, "\n")?;
    Ok(line)
}

// Prints how many sessions there were. The status follows from how they ended and whether accepting failed, unless the
// line can't be printed.
fn tell_served<O: Watched>(alloc: Global, ends: SessionCounts, is_deaf: bool, output: &mut O) -> u8
    ensures { (port : ℕ) (before : Option (List ℕ)) → Appends before (O.contents output.old) (port_text port)
        → IsServerEnd port (O.noted output.new) before (O.contents output.new) ends is_deaf result }
{
    let status = ends.status(is_deaf);
    match served_line(alloc, ends) {
        Ok(line) => status::write_text(output, line.as_str(), status),
        Err(_) => status::OUT_OF_MEMORY,
    }
}

// Says why the status is that of a failure, if sessions failed. It takes no memory.
fn explain_failed<E: Write>(ends: SessionCounts, errors: &mut E) {
    if ends.failed > 0 {
        let (failed, all) = (ends.failed, ends.sessions());
        let _ = write!(errors, "csa: {failed} of {all} sessions failed: {LOST}\n");
    }
}

/// Why a session fails.
const LOST: &str =
    "a connection broke, was idle for longer than --idle allows, or with --idle began like HTTP; \
--log shows which";

fn served_line(alloc: Global, ends: SessionCounts) -> Result<String, AllocError>
    ensures { IfOk result (λ line. string_bytes line ≡ served_text ends) }
{
    let mut line = String::new(alloc);
    put_number(&mut line, "served ", ends.sessions())?;
    put_text(&mut line, "\n")?;
    Ok(line)
}

// How many sessions ended in each way.
fn ends_of<R, W, S>(served: &Served<R, W, S>) -> SessionCounts
    ensures { result ≡ counts_of served.now }
{
    SessionCounts {
        ended: served.ended(),
        failed: served.failed(),
        spent: served.spent(),
    }
}
