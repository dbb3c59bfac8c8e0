//! Workers at shelves without a lock, under a name that the caller picks.

ghost use Rattle.std.specs.Prelude.{◌≡◌, All, IfOk, MatchResult};
ghost use Rattle.workers.specs.Headline.{AllLoaded, AllServed, SeatsAreReadyAt, IsLeftAt, IsUnserved, KnowOneHistory};
ghost use Rattle.workers.specs.Headline.{PinnedAreLeftAloneAt, server_input_of};
ghost use Rattle.workers.specs.Sessions.{MayClose};
ghost use Rattle.shelves.specs.ShelfLoads.{shelf_loader};
ghost use Rattle.shelves.specs.ShelfSeats.{shelf_seats};
ghost use Rattle.feed_loads.specs.Words.{loads_of, outcomes_of};
ghost use Rattle.workers.specs.Words.{sessions_of};

use crate::clients::Client;
use crate::outcome::ServingOutcome;
use crate::running::{WorkersFault, run_workers};
use client_queue::Clients;
use feed_loads::Feeds;
use orders::Gate;
use session::ReplyForm;
use shelves::laws::{pinned_images_are_left_alone, seats_know_one_history};
use shelves::{
    NamedLoader, NamedNotice, NamedSeat, NamedShelves, ShelfLoader, ShelfSeat, Shelves, ShelvesName,
};
use std::alloc::{AllocError, Global};
use std::io::Write;
use std::sync::Wait;
use std::thread::Threads;

/// Serves all clients and loads the feeds that they order, as [`run_workers`] does, at shelves without a lock.
///
/// This contract is the headline of the program, in names of `specs/Headline.antt` and `Sessions`:
///
/// - `ready`: 1 to 16 seats and the loader's are of these shelves.
/// - `closes`: a client's reader and writer may be closed in any state in which a session at one of these seats may
///   leave them, with that session's end. Nothing else takes a reader or writer, so each is closed in the end.
/// - `left`: no further client comes, and what held of their source holds still; the seats are of these shelves. By a
///   law, in any one state of the table that has the loader and a seat, the histories that `loaded` and `served` speak
///   of are beginnings of one. After an `Err`, either no client was taken from the source, or no further one comes; of
///   sessions nothing is said then.
/// - `served`: each client who came was dealt to exactly one worker and had one session at its seat, unless it couldn't
///   be opened. Each line that was read has its reply, up to where the session ended. If the seat held nothing at
///   first, as a new one does, each profile is answered exactly, over the image that was published as the version that
///   the reply names, and for it each connection of the window was read once, which is noted with the reply; or the
///   reply says why it isn't: memory ran out, no version could be pinned, or the profile or its window can't be asked
///   of that image.
/// - `loaded`: the loader took exactly the orders that the sessions put, each once, and carried out each, from files
///   that were drawn for it. Each image that it published is that of the bytes that the files of the ordered feed gave.
/// - `pinned`: no image is collected while a seat of these shelves has it pinned. This is a law: shelves change by the
///   steps of seats and of the loader alone, and none of these breaks it.
pub fn run_shelves<
    B: ShelvesName + Send + Sync,
    C: Client + Drop + Send,
    K: Clients<C> + Drop,
    F: Feeds + Sync,
    G: Gate + Sync,
    E: Write + Send + Drop,
    R: Threads + Wait + Sync,
>(
    rt: &R,
    alloc: Global,
    clients: K,
    shelves: Shelves,
    seats: Vec<ShelfSeat>,
    loader: ShelfLoader,
    feeds: &F,
    leave: F::Leave,
    gate: &G,
    form: ReplyForm,
    errors: E,
) -> Result<
    ServingOutcome<C::Reader, C::Writer, K, NamedSeat<B>, NamedLoader<B>, NamedNotice<B>, F::Files>,
    WorkersFault<K>,
>
    requires ready { SeatsAreReadyAt B.table (server_input_of clients shelves seats.items loader feeds.now) }
    requires closes { MayClose (sessions_of form C.words C.Reader.words C.Writer.words shelf_seats) seats.items }
    ensures left { MatchResult result
        (IsLeftAt K.words (server_input_of clients shelves seats.items loader feeds.now))
        (IsUnserved K.words clients) }
    ensures served { IfOk result (AllServed (sessions_of form C.words C.Reader.words C.Writer.words shelf_seats)
        K.words F.words (server_input_of clients shelves seats.items loader feeds.now)) }
    ensures loaded { IfOk result (AllLoaded (loads_of F.words
        (outcomes_of F.Files.words shelf_loader
        shelf_seats.version))
        (server_input_of clients shelves seats.items loader feeds.now)) }
    ensures pinned { PinnedAreLeftAloneAt shelves }
{
    know_pins(&shelves);
    let Ok(seats) = named_seats::<B>(alloc, seats) else {
        return Err(WorkersFault::NotStarted { clients });
    };
    let shelves = NamedShelves::<B>::of(shelves);
    let loader = NamedLoader::<B>::of(loader);
    match run_workers(
        rt, alloc, clients, &shelves, seats, loader, feeds, leave, gate, form, errors,
    ) {
        Ok(run_result) => {
            know_one_history(&run_result.seats, &run_result.loader);
            Ok(run_result)
        }
        Err(fault) => Err(fault),
    }
}

// Does nothing: its contract is the law that no image is collected while a seat of these shelves has it pinned.
fn know_pins(shelves: &Shelves)
    ensures { PinnedAreLeftAloneAt shelves.now }
{
    pinned_images_are_left_alone();
}

// Does nothing: its contract is the law that what the seats know are beginnings of one history.
fn know_one_history<B: ShelvesName>(seats: &Vec<NamedSeat<B>>, loader: &NamedLoader<B>)
    ensures { All (KnowOneHistory loader.now) seats.now.items }
{
    seats_know_one_history();
}

// The seats, under their shelves' name.
fn named_seats<B: ShelvesName>(
    alloc: Global,
    mut seats: Vec<ShelfSeat>,
) -> Result<Vec<NamedSeat<B>>, AllocError>
    requires { All (λ seat. seat.table ≡ B.table) seats.items }
    ensures { IfOk result (λ named. named.items ≡ seats.items) }
{
    let Some(seat) = seats.pop() else {
        return Ok(Vec::new(alloc));
    };
    let mut named = named_seats(alloc, seats)?;
    named.push(NamedSeat::of(seat))?;
    Ok(named)
}
