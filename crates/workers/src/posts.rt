//! A worker's thread.

ghost use Rattle.std.specs.Prelude.{◌≡◌, ◌++◌, ◌∷◌, [], IfSome};
ghost use Rattle.client_queue.specs.Ends.{out_once_more};
ghost use Rattle.load_orders.specs.Keeping.{with_one_out};
ghost use Rattle.workers.specs.Posts.{IsJoined, IsWorked, place_of, post_of, queues_of};
ghost use Rattle.workers.specs.Sessions.{IsReadyToServe, MayBegin, share_of, work_of, worker_state};
ghost use Rattle.workers.specs.Words.{sessions_of};

use crate::clients::Client;
use crate::served::Served;
use crate::serving::SessionWorker;
use crate::shares::{Share, Work};
use client_queue::{Dealer, Taker};
use feed_loads::Feeds;
use lines::{ReadStream, WriteStream};
use load_orders::{OrderEnd, OrderKeeper, UsedOrders, WorkerOrders};
use orders::Gate;
use session::{ReplyForm, SessionServer};
use shelves::Versions;
use std::alloc::Global;
use std::marker::Model;
use std::snapshot::Snapshot;
use std::sync::Wait;
use std::thread::{Promise, PromisedHandle, Scope, Threads};

/// Where the workers of a server work: the runtime and its memory, the shelves, the feeds, the gate, and the form of
/// replies.
#[derive(Drop)]
pub(crate) struct Workplace<'a, R, T, F, G> {
    pub rt: &'a R,
    pub alloc: Global,
    pub shelves: &'a T,
    pub feeds: &'a F,
    pub gate: &'a G,
    pub form: ReplyForm,
}

/// A worker's post, which is the promise of its thread: at its seat of these shelves the worker serves the clients that
/// it takes at this end of their queue, with replies in this form, and asks for loads of these feeds at this end of the
/// queue of orders.
#[derive(Drop)]
pub(crate) struct WorkerPost<C: Drop, N: Drop, T, S, F> {
    shelves: Snapshot<T>,
    form: ReplyForm,
    taker: Snapshot<Taker<C>>,
    feeds: Snapshot<F>,
    end: Snapshot<OrderEnd<N>>,
    seat: Snapshot<S>,
}

impl<C: Drop, N: Drop, T, S, F> Model for WorkerPost<C, N, T, S, F> {
    ghost use Rattle.workers.specs.Posts.{PostValue, place_of, post_of};

    ghost Value = { PostValue T S C N F };

    ghost view = { λ post. post_of
        (place_of post.shelves.value post.form post.taker.value.queue post.feeds.value post.end.value.queue)
        post.seat.value };
}

impl<
    C: Client<Reader = I, Writer = O> + Drop,
    I: ReadStream + Send,
    O: WriteStream + Send,
    N: Drop,
    S,
    T: Versions<Seat = S, Notice = N>,
    F: Feeds,
> Promise<(Share<C, I, O, S>, UsedOrders<N>)> for WorkerPost<C, N, T, S, F> {
    ghost use Rattle.workers.specs.Posts.{IsWorked};
    ghost use Rattle.workers.specs.Sessions.{share_of};
    ghost use Rattle.workers.specs.Words.{sessions_of};

    ghost kept_by = { λ post done. IsWorked
        (sessions_of post.place.form C.words I.words O.words T.words) F.words post done.0.taker
        (share_of done.0.served done.0.seat done.1) };
}

/// Starts a worker in a thread of this scope, at this seat and at new ends of both queues. None if there was no memory
/// or no thread.
pub(crate) fn start_worker<
    's,
    A,
    C: Client<Reader = I, Writer = O> + Drop + Send + 's,
    I: ReadStream + Send + 's,
    O: WriteStream + Send + 's,
    S: Send + Drop + 's,
    N: Send + Drop + 's,
    T: Versions<Seat = S, Notice = N> + Sync + 's,
    F: Feeds + Sync + 's,
    G: Gate + Sync + 's,
    R: Wait + Sync + 's,
>(
    scope: &Scope<'s, A>,
    workplace: &Workplace<'s, R, T, F, G>,
    dealer: &mut Dealer<C>,
    asks: &mut OrderKeeper<N>,
    seat: S,
) -> Option<PromisedHandle<(Share<C, I, O, S>, UsedOrders<N>), WorkerPost<C, N, T, S, F>>>
    requires begin { MayBegin (sessions_of workplace.now.form C.words I.words O.words T.words) workplace.now.shelves.now
        seat }
    requires open { asks.old.closings ≡ 0 }
    ensures post { IfSome result (λ worker. worker.promise
        ≡ post_of (place_of workplace.now.shelves.now workplace.now.form dealer.old.queue workplace.now.feeds.now
        asks.old.queue) seat) }
    ensures ends { IfSome result (λ _. (dealer.new ≡ out_once_more dealer.old) × (asks.new ≡ with_one_out asks.old)) }
{
    let Ok(taker) = dealer.taker() else {
        return None;
    };
    let Ok(end) = asks.another_end() else {
        return None;
    };
    let rt = workplace.rt;
    let alloc = workplace.alloc;
    let shelves = workplace.shelves;
    let feeds = workplace.feeds;
    let gate = workplace.gate;
    let form = workplace.form;
    let post = WorkerPost {
        shelves: Snapshot::of(shelves),
        form,
        taker: Snapshot::of(&taker),
        feeds: Snapshot::of(feeds),
        end: Snapshot::of(&end),
        seat: Snapshot::of(&seat),
    };
    // Made here, since what a thread returns has to be of types that it captures.
    let unserved = Served::new();
    let started = scope.spawn_with(
        post,
        move || -> (Share<C, I, O, S>, UsedOrders<N>)
            requires { IsReadyToServe (sessions_of form C.words I.words O.words T.words)
                shelves.now taker unserved (worker_state seat [])
                × (end.items ≡ []) }
            ensures { IsWorked (sessions_of form C.words I.words O.words T.words) F.words
                (post_of (place_of shelves.entry.now form taker.queue feeds.entry.now end.queue) seat)
                result.0.taker (share_of result.0.served result.0.seat result.1) }
        {
            let session_server = SessionServer {
                alloc,
                shelves,
                gate,
                form,
            };
            let orders = WorkerOrders::new(rt, alloc, feeds.names(), shelves, end);
            let worker = SessionWorker { rt, session_server };
            let (share, orders) = worker.work(taker, seat, orders, unserved);
            (share, orders.into_used())
        },
    );
    match started {
        Ok(worker) => Some(worker),
        Err(_) => None,
    }
}

/// Joins a worker: takes back its ends of both queues, and adds what it left to the work. None if it returned before
/// its queue was closed for it, or if there is no memory for its seat.
pub(crate) fn join_worker<
    C: Client<Reader = I, Writer = O> + Drop,
    I: ReadStream + Send,
    O: WriteStream + Send,
    S: Drop,
    N: Drop,
    T: Versions<Seat = S, Notice = N>,
    F: Feeds,
    R: Threads,
>(
    rt: &R,
    worker: PromisedHandle<(Share<C, I, O, S>, UsedOrders<N>), WorkerPost<C, N, T, S, F>>,
    dealer: &mut Dealer<C>,
    asks: &mut OrderKeeper<N>,
    work: Work<I, O, S, N>,
) -> Option<Work<I, O, S, N>>
    requires clients { worker.promise.place.clients ≡ dealer.old.queue }
    requires orders { worker.promise.place.orders ≡ asks.old.queue }
    ensures { IfSome result (λ joined. IsJoined
        (sessions_of worker.promise.place.form C.words I.words O.words T.words) F.words worker.promise
        (queues_of dealer.old asks.old, work_of work.served work.seats.items work.asked)
        (queues_of dealer.new asks.new, work_of joined.served joined.seats.items joined.asked)) }
{
    let (share, used) = worker.join(rt);
    if !share.taker.is_closed() {
        return None;
    }
    dealer.take_back(share.taker);
    let Work {
        mut served,
        mut seats,
        mut asked,
    } = work;
    served.join(share.served);
    asked.note(&used);
    asks.take_in(used);
    let Ok(()) = seats.push(share.seat) else {
        return None;
    };
    Some(Work {
        served,
        seats,
        asked,
    })
}
