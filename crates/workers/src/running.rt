//! The workers and the loader, in one scope.

ghost use denote.Param.Send.{IsSend, IsSync};
ghost use Rattle.std.specs.Prelude.{All, IfOk, MatchResult};
ghost use Rattle.client_queue.specs.Dealing.{IsExhausted};
ghost use Rattle.feed_loads.specs.Words.{loads_of, outcomes_of};
ghost use Rattle.workers.specs.Headline.{SeatsAreReady, IsServerRun, IsUnserved, server_input_of};
ghost use Rattle.workers.specs.Ordering.{route_to};
ghost use Rattle.workers.specs.Posts.{AreUnused, HaveServed, serving_state_of, posts_of, queues_of};
ghost use Rattle.workers.specs.Sessions.{MayBegin, MayClose, work_of, worker_starts};
ghost use Rattle.workers.specs.Words.{sessions_of};

use crate::clients::Client;
use crate::outcome::ServingOutcome;
use crate::posts::{Workplace, join_worker, start_worker};
use crate::served::Served;
use crate::shares::Work;
use client_queue::{Clients, Dealer, client_queue, deal_all};
use feed_loader::FeedFiles;
use feed_loads::{Feeds, LoadContext, close_and_join, start_loader};
use lines::{ReadStream, WriteStream};
use load_orders::{GhostList, OrderKeeper, order_queue};
use orders::Gate;
use session::ReplyForm;
use shelves::{Loads, Versions};
use std::alloc::Global;
use std::io::Write;
use std::sync::Wait;
use std::thread;
use std::thread::{Scope, Threads};
use thiserror::Error;

/// Why clients weren't served, or why nothing is known of their sessions; with the clients' source.
#[derive(Debug, Drop, Error)]
pub enum WorkersFault<K> {
    /// There was no memory or no thread for the workers, the loader or their queues. No client was taken from the
    /// source.
    #[error("there is no memory or no thread for the workers")]
    NotStarted { clients: K },
    /// All clients were dealt; but a worker or the loader returned before its queue was closed for it, or there was no
    /// memory to keep a worker's seat. A worker and the loader return early only if the other ends of their queue are
    /// gone, and those are kept until then.
    #[error("a worker or the loader was lost")]
    Lost { clients: K },
}

/// Serves all clients, with a worker for each seat, and loads the feeds that they order, with this leave. Profiles are
/// replied in this form. What came of a load is written to the error writer, and goes to the worker that waits for it.
/// This function returns when there are no more clients, all sessions have ended, and all orders were carried out.
pub fn run_workers<
    C: Client + Drop + Send,
    K: Clients<C> + Drop,
    T: Versions + Loads + Sync,
    F: Feeds + Sync,
    G: Gate + Sync,
    E: Write + Send + Drop,
    R: Threads + Wait + Sync,
>(
    rt: &R,
    alloc: Global,
    clients: K,
    shelves: &T,
    seats: Vec<T::Seat>,
    loader: T::Loader,
    feeds: &F,
    leave: F::Leave,
    gate: &G,
    form: ReplyForm,
    errors: E,
) -> Result<
    ServingOutcome<C::Reader, C::Writer, K, T::Seat, T::Loader, T::Notice, F::Files>,
    WorkersFault<K>,
>
where
    T::Seat: Send + Drop,
    T::Loader: Send + Drop,
    T::Notice: Send + Drop,
    requires ready { SeatsAreReady T.Versions.words T.Loads.words
        (server_input_of clients shelves.now seats.items loader feeds.now) }
    requires closes { MayClose (sessions_of form C.words C.Reader.words C.Writer.words T.Versions.words)
        seats.items }
    ensures { MatchResult result (IsServerRun (sessions_of form C.words C.Reader.words C.Writer.words T.Versions.words)
        K.words (loads_of F.words (outcomes_of
        F.Files.words T.Loads.words T.Versions.words.version))
        (server_input_of clients shelves.now seats.items loader feeds.now))
        (IsUnserved K.words clients) }
{
    thread::scope(
        thread::scope_env(),
        rt,
        move |scope| -> Result<
            ServingOutcome<C::Reader, C::Writer, K, T::Seat, T::Loader, T::Notice, F::Files>,
            WorkersFault<K>,
        >
            requires { IsSync R.row × IsSync T.row × IsSync F.row × IsSync G.row × IsSend T.Seat.row
                × IsSend T.Loader.row
                × IsSend T.Notice.row × IsSend C.row × IsSend C.Reader.row × IsSend C.Writer.row
                × IsSend F.Files.row × IsSend F.Leave.row × IsSend E.row
                × SeatsAreReady T.Versions.words T.Loads.words
                (server_input_of clients shelves.now seats.items loader feeds.now)
                × MayClose (sessions_of form C.words C.Reader.words C.Writer.words T.Versions.words)
                seats.items }
            ensures { MatchResult result (IsServerRun
                (sessions_of form C.words C.Reader.words C.Writer.words T.Versions.words)
                K.words (loads_of F.words (outcomes_of
                F.Files.words
                T.Loads.words T.Versions.words.version))
                (server_input_of clients shelves.entry.now seats.items loader feeds.entry.now))
                (IsUnserved K.words clients) }
        {
            let workplace = Workplace {
                rt,
                alloc,
                shelves,
                feeds,
                gate,
                form,
            };
            run_in(scope, &workplace, clients, seats, loader, leave, errors)
        },
    )
}

// Starts the loader in this scope, has all clients served at the seats, and joins the loader.
fn run_in<
    's,
    A,
    C: Client<Reader = I, Writer = O> + Drop + Send + 's,
    I: ReadStream + Send + 's,
    O: WriteStream + Send + 's,
    K: Clients<C> + Drop,
    S: Send + Drop + 's,
    L: Send + Drop + 's,
    N: Send + Drop + 's,
    D: FeedFiles + Send + Drop + 's,
    T: Versions<Seat = S, Notice = N> + Loads<Loader = L> + Sync + 's,
    V: Send + Drop + 's,
    F: Feeds<Files = D, Leave = V> + Sync + 's,
    G: Gate + Sync + 's,
    E: Write + Send + Drop + 's,
    R: Threads + Wait + Sync + 's,
>(
    scope: &Scope<'s, A>,
    workplace: &Workplace<'s, R, T, F, G>,
    clients: K,
    seats: Vec<S>,
    loader: L,
    leave: V,
    errors: E,
) -> Result<ServingOutcome<I, O, K, S, L, N, D>, WorkersFault<K>>
    requires ready { SeatsAreReady T.Versions.words T.Loads.words
        (server_input_of clients workplace.now.shelves.now seats.items loader workplace.now.feeds.now) }
    requires closes { MayClose (sessions_of workplace.now.form C.words I.words O.words T.Versions.words)
        seats.items }
    ensures { MatchResult result (IsServerRun
        (sessions_of workplace.now.form C.words I.words O.words T.Versions.words)
        K.words (loads_of F.words (outcomes_of D.words T.Loads.words T.Versions.words.version))
        (server_input_of clients workplace.now.shelves.now seats.items loader workplace.now.feeds.now))
        (IsUnserved K.words clients) }
{
    let Ok(mut dealer) = client_queue(workplace.alloc) else {
        return Err(WorkersFault::NotStarted { clients });
    };
    let Ok((mut asks, orders)) = order_queue(workplace.alloc, leave) else {
        return Err(WorkersFault::NotStarted { clients });
    };
    let loads = LoadContext {
        rt: workplace.rt,
        alloc: workplace.alloc,
        shelves: workplace.shelves,
        feeds: workplace.feeds,
    };
    let Ok(loading) = start_loader(scope, &loads, loader, orders, errors) else {
        return Err(WorkersFault::NotStarted { clients });
    };
    let takers = seats.len();
    let (clients, work) = serve_at_seats(
        scope,
        workplace,
        &mut dealer,
        &mut asks,
        clients,
        seats,
        takers,
    )?;
    dealer.all_were_taken();
    match close_and_join(workplace.rt, asks, loading) {
        Some((loader_orders, loader, used)) => Ok(ServingOutcome {
            served: work.served,
            clients,
            seats: work.seats,
            loader_orders,
            loader,
            worker_orders: work.asked,
            used,
        }),
        None => Err(WorkersFault::Lost { clients }),
    }
}

// Has all clients served, by a worker at each of these seats: starts the worker of the last seat, calls itself for the
// other seats, and joins that worker. Without a seat, it deals all clients and closes their queue for so many takers.
// Returns the clients' source, and what these workers return.
fn serve_at_seats<
    's,
    A,
    C: Client<Reader = I, Writer = O> + Drop + Send + 's,
    I: ReadStream + Send + 's,
    O: WriteStream + Send + 's,
    K: Clients<C> + Drop,
    S: Send + Drop + 's,
    N: Send + Drop + 's,
    T: Versions<Seat = S, Notice = N> + Sync + 's,
    F: Feeds + Sync + 's,
    G: Gate + Sync + 's,
    R: Threads + Wait + Sync + 's,
>(
    scope: &Scope<'s, A>,
    workplace: &Workplace<'s, R, T, F, G>,
    dealer: &mut Dealer<C>,
    asks: &mut OrderKeeper<N>,
    clients: K,
    mut seats: Vec<S>,
    takers: usize,
) -> Result<(K, Work<I, O, S, N>), WorkersFault<K>>
    requires begin { All (MayBegin (sessions_of workplace.now.form C.words I.words O.words T.words)
        workplace.now.shelves.now) seats.items }
    requires unused { AreUnused (queues_of dealer.old asks.old) }
    ensures source { MatchResult result (λ left. IsExhausted K.words clients left.0) (IsUnserved K.words clients) }
    ensures served { IfOk result (λ left. HaveServed
        (sessions_of workplace.now.form C.words I.words O.words T.words) (posts_of workplace.now.shelves.now
        (worker_starts seats.items (route_to (F.words.named workplace.now.feeds.now) asks.old.queue)) takers)
        (serving_state_of (K.words.came clients) (queues_of dealer.old asks.old))
        (serving_state_of (K.words.came left.0) (queues_of dealer.new asks.new))
        (work_of left.1.served left.1.seats.items left.1.asked)) }
{
    let Some(seat) = seats.pop() else {
        let source = deal_all(workplace.rt, clients, dealer, takers);
        let work = Work {
            served: Served::new(),
            seats,
            asked: GhostList::none(),
        };
        return Ok((source, work));
    };
    let Some(worker) = start_worker(scope, workplace, dealer, asks, seat) else {
        return Err(WorkersFault::NotStarted { clients });
    };
    let (source, work) = serve_at_seats(scope, workplace, dealer, asks, clients, seats, takers)?;
    match join_worker(workplace.rt, worker, dealer, asks, work) {
        Some(work) => Ok((source, work)),
        None => Err(WorkersFault::Lost { clients: source }),
    }
}
