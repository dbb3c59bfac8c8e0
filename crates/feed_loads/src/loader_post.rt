//! The loader's thread.

ghost use Rattle.std.specs.Prelude.{◌≡◌, [], IsPermutation, IfNone, IfOk, IfSome, false};
ghost use Rattle.feed_loads.specs.Carrying.{LoadsValue, loads_value};
ghost use Rattle.feed_loads.specs.Posts.{IsLoaderDone, loader_post_of};
ghost use Rattle.feed_loads.specs.Words.{loads_of, outcomes_of};

use crate::carrying::LoadContext;
use crate::drawing::UsedFiles;
use crate::feeds::Feeds;
use feed_loader::FeedFiles;
use load_orders::{GhostList, LoaderOrders, OrderKeeper, UsedLoader};
use shelves::{Loads, Versions};
use std::alloc::AllocError;
use std::io::Write;
use std::marker::Model;
use std::snapshot::Snapshot;
use std::sync::Wait;
use std::thread::{Promise, PromisedHandle, Scope, Threads};

/// The loader's post, which is the promise of its thread: at its seat of these shelves the loader loads these feeds, as
/// the orders say that come to this end of their queue.
#[derive(Drop)]
pub struct LoaderPost<T, L, F, N: Drop, V> {
    shelves: Snapshot<T>,
    seat: Snapshot<L>,
    feeds: Snapshot<F>,
    orders: Snapshot<LoaderOrders<N, V>>,
}

impl<T, L, F, N: Drop, V> Model for LoaderPost<T, L, F, N, V> {
    ghost use Rattle.feed_loads.specs.Posts.{LoaderPostValue, loader_post_of};

    ghost Value = { LoaderPostValue T L F N };

    ghost view = { λ post. loader_post_of
        post.shelves.value post.seat.value post.feeds.value post.orders.value.queue };
}

impl<
    L,
    N: Drop,
    D: FeedFiles,
    T: Versions<Notice = N> + Loads<Loader = L>,
    V: Drop,
    F: Feeds<Files = D, Leave = V>,
> Promise<(LoaderOrders<N, V>, L, UsedFiles<D, N>)> for LoaderPost<T, L, F, N, V> {
    ghost use Rattle.feed_loads.specs.Carrying.{loads_value};
    ghost use Rattle.feed_loads.specs.Posts.{IsLoaderDone};
    ghost use Rattle.feed_loads.specs.Words.{loads_of, outcomes_of};

    ghost kept_by = { λ post done. IsLoaderDone
        (loads_of F.words (outcomes_of D.words
        T.Loads.words T.Versions.words.version))
        post (loads_value done.0 done.2) done.1 };
}

/// Starts the loader in a thread of this scope, at its seat and its end of the queue of orders, which is new. An error
/// means that there was no thread.
pub fn start_loader<
    's,
    A,
    R: Wait + Sync + 's,
    L: Send + Drop + 's,
    N: Send + Drop + 's,
    D: FeedFiles + Send + Drop + 's,
    T: Versions<Notice = N> + Loads<Loader = L> + Sync + 's,
    V: Send + Drop + 's,
    F: Feeds<Files = D, Leave = V> + Sync + 's,
    E: Write + Send + Drop + 's,
>(
    scope: &Scope<'s, A>,
    context: &LoadContext<'s, R, T, F>,
    seat: L,
    orders: LoaderOrders<N, V>,
    errors: E,
) -> Result<
    PromisedHandle<(LoaderOrders<N, V>, L, UsedFiles<D, N>), LoaderPost<T, L, F, N, V>>,
    AllocError,
>
    requires loads { T.Loads.words.fits context.now.shelves.now seat }
    requires none { (orders.taken ≡ []) × (orders.answered ≡ []) }
    ensures { IfOk result (λ loading. loading.promise
        ≡ loader_post_of context.now.shelves.now seat context.now.feeds.now orders.queue) }
{
    let rt = context.rt;
    let alloc = context.alloc;
    let shelves = context.shelves;
    let feeds = context.feeds;
    let post = LoaderPost {
        shelves: Snapshot::of(shelves),
        seat: Snapshot::of(&seat),
        feeds: Snapshot::of(feeds),
        orders: Snapshot::of(&orders),
    };
    // Made here, since what a thread returns has to be of types that it captures.
    let unused = GhostList::none();
    let started = scope.spawn_with(
        post,
        move || -> (LoaderOrders<N, V>, L, UsedFiles<D, N>)
            requires { T.Loads.words.fits shelves.now seat
                × (orders.taken ≡ []) × (orders.answered ≡ []) × (unused ≡ []) }
            ensures { IsLoaderDone
                (loads_of F.words (outcomes_of D.words
                T.Loads.words T.Versions.words.version))
                (loader_post_of shelves.entry.now seat feeds.entry.now orders.queue)
                (loads_value result.0 result.2) result.1 }
        {
            let loading = LoadContext {
                rt,
                alloc,
                shelves,
                feeds,
            };
            let (orders, seat, used, _) = loading.load_all(orders, seat, unused, errors);
            (orders, seat, used)
        },
    );
    match started {
        Ok(loading) => Ok(loading),
        Err(_) => Err(AllocError),
    }
}

/// Closes the queue of orders, once all workers' ends are back, and joins the loader. Returns the loader's end, its
/// seat and the files that it used. The loader took what was put, each order once. None if it left before the queue was
/// closed for it.
pub fn close_and_join<
    L: Drop,
    N: Drop,
    D: FeedFiles + Drop,
    T: Versions<Notice = N> + Loads<Loader = L>,
    V: Drop,
    F: Feeds<Files = D, Leave = V>,
    R: Threads + Wait,
>(
    rt: &R,
    mut asks: OrderKeeper<N>,
    loading: PromisedHandle<(LoaderOrders<N, V>, L, UsedFiles<D, N>), LoaderPost<T, L, F, N, V>>,
) -> Option<(UsedLoader<N>, L, UsedFiles<D, N>)>
    requires queue { loading.promise.queue ≡ asks.queue }
    requires back { asks.out ≡ 0 }
    ensures done { IfSome result (λ done. IsPermutation asks.put done.0.taken × IsLoaderDone
        (loads_of F.words (outcomes_of D.words
        T.Loads.words T.Versions.words.version))
        loading.promise (loads_value done.0 done.2) done.1) }
    ensures left { IfNone result ((loads : LoadsValue D N) × (seat : L) × IsLoaderDone
        (loads_of F.words (outcomes_of D.words
        T.Loads.words T.Versions.words.version))
        loading.promise loads seat × (loads.orders.closed ≡ false)) }
{
    asks.close(rt);
    let (orders, seat, used) = loading.join(rt);
    match asks.finish(orders) {
        Some(orders) => Some((orders, seat, used)),
        None => None,
    }
}
