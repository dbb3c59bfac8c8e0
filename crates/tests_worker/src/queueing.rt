//! The queue of load orders, and the answer channel to a client that waits.

ghost use Rattle.std.specs.Prelude.{◌≡◌, []};
ghost use Rattle.load_orders.specs.Answering.{AllAnswered};

use load_orders::{
    LoadAnswer, LoaderOrders, OrderFault, OrderKeeper, Orders, WorkerOrders, order_queue,
};
use shelves::{Edition, PinFault, SeatAnswer, Versions};
use std::alloc::{AllocError, Global};
use std::marker::Model;
use std::process::Abort;
use std::sync::Wait;
use std::test::*;
use std::thread;
use std::thread::Threads;
use timetable::Trace;

/// A seat at which nobody pins.
#[derive(Drop)]
struct Listener {
    answers: Trace<SeatAnswer>,
    seen: u64,
}

/// Shelves whose notices are the versions' numbers.
#[derive(Drop)]
struct Numbers<'a, R> {
    rt: &'a R,
}

impl<'a, R: Wait> Versions for Numbers<'a, R> {
    type Seat = Listener;

    type Notice = u64;

    ghost use Rattle.std.specs.Prelude.{[], None};

    ghost words = { record {
      fits = λ shelves seat. Unit {0};
      number = λ seat. 0;
      shown = λ seat. record { answers = seat.answers; held = None; seen = seat.seen };
      known = λ seat. record { events = []; replies = []; images = [] };
      version = λ notice. notice;
    } };

    // Nobody pins here.
    fn pin(&self, _seat: &mut Listener) -> Result<(), PinFault> {
        for _ in self.rt.forever() {}
        unreachable!()
    }

    fn edition(_seat: &Listener) -> Option<&Edition> {
        None
    }

    fn release(&self, seat: &mut Listener) -> Result<(), PinFault> {
        seat.answers.note(&SeatAnswer::ReleaseRefused {
            fault: PinFault::NotPinned,
        });
        Err(PinFault::NotPinned)
    }

    fn join(&self, seat: &mut Listener, notice: u64) {
        if seat.seen < notice {
            seat.seen = notice;
        }
    }

    fn version_of(notice: &u64) -> u64 {
        *notice
    }
}

fn two_names(alloc: Global) -> Result<Vec<String>, AllocError> {
    let mut names = Vec::new(alloc);
    names.push(String::from_str(alloc, "slow")?)?;
    names.push(String::from_str(alloc, "fast")?)?;
    Ok(names)
}

type Worker<'a, R> = WorkerOrders<'a, R, u64, Numbers<'a, R>>;

/// The loader's end of a queue. Each order that was taken from it was answered.
#[derive(Drop)]
struct Loader {
    orders: LoaderOrders<u64, ()>,
}

impl Model for Loader {
    ghost use Rattle.load_orders.specs.Answering.{AllAnswered};

    ghost Value = { Unit {0} };

    ghost view = { λ _. tt };

    ghost invariant = { λ loader. AllAnswered loader.orders };
}

impl Loader {
    /// The loader's end of a new queue.
    fn new(orders: LoaderOrders<u64, ()>) -> Loader
        requires { (orders.taken ≡ []) × (orders.answered ≡ []) }
    {
        Loader { orders }
    }

    /// Takes the next order, and answers it, if there is an answer; without one it takes no other order. Returns the
    /// index of the order's feed.
    fn answer_next<R: Wait>(self, rt: &R, answer: Option<LoadAnswer<u64>>) -> Option<usize> {
        let mut orders = self.orders;
        let (order, _) = orders.next(rt)?;
        let feed = order.feed;
        if let Some(answer) = answer {
            orders.answer(rt, order, answer);
        }
        Some(feed)
    }

    /// Takes the next order and answers it; the name of its feed.
    fn next_words<R: Wait>(&mut self, rt: &R) -> &'static str {
        take_and_answer(rt, &mut self.orders)
    }
}

/// Takes the next order and answers it; the name of its feed.
fn take_and_answer<R: Wait>(rt: &R, orders: &mut LoaderOrders<u64, ()>) -> &'static str
    requires answered { AllAnswered orders.old }
    ensures answered { AllAnswered orders.new }
    ensures queue { orders.new.queue ≡ orders.old.queue }
{
    let Some((order, _)) = orders.next(rt) else {
        return "nothing";
    };
    let feed = order.feed;
    orders.answer(rt, order, LoadAnswer::Unnoticed);
    match feed {
        0 => "slow",
        1 => "fast",
        _ => "another",
    }
}

/// The end that keeps a queue, two workers' ends and the loader's, while they are there.
#[derive(Drop)]
struct QueueEnds<'a, R: Wait> {
    keeper: Option<OrderKeeper<u64>>,
    workers: Vec<Worker<'a, R>>,
    loader: Option<Loader>,
}

/// The ends of a new queue.
fn new_ends<'a, R: Wait>(
    alloc: Global,
    names: &'a [String],
    shelves: &'a Numbers<'a, R>,
) -> Result<QueueEnds<'a, R>, AllocError> {
    let rt = shelves.rt;
    let (mut keeper, loader) = order_queue(alloc, ())?;
    let one = keeper.another_end()?;
    let other = keeper.another_end()?;
    let mut workers = Vec::with_capacity(alloc, 2)?;
    workers.push(WorkerOrders::new(rt, alloc, names, shelves, one))?;
    workers.push(WorkerOrders::new(rt, alloc, names, shelves, other))?;
    Ok(QueueEnds {
        keeper: Some(keeper),
        workers,
        loader: Some(Loader::new(loader)),
    })
}

/// The answer to an order.
fn order_words<R: Wait>(worker: &mut Worker<'_, R>, order: &str) -> &'static str {
    let (word, feed) = order.split_once(' ').unwrap_or((order, ""));
    let answer = match word {
        "awaits" => awaits(worker, feed),
        _ => worker.order(feed),
    };
    match answer {
        Ok(()) => "ok",
        Err(fault) => fault.name(),
    }
}

fn awaits<R: Wait>(worker: &mut Worker<'_, R>, feed: &str) -> Result<(), OrderFault> {
    match worker.order_wait(feed) {
        Ok(_) => Ok(()),
        Err(fault) => Err(fault),
    }
}

impl<'a, R: Wait> QueueEnds<'a, R> {
    /// Does what a line of a script says, and tells the answer.
    ///
    /// | line | what is done |
    /// |---|---|
    /// | `one orders FEED`, `other orders FEED` | the worker orders the feed |
    /// | `one awaits FEED`, `other awaits FEED` | the worker orders it and waits |
    /// | `loader takes` | the loader takes an order and answers it; tells its feed |
    /// | `loader goes`, `workers go` | drops the ends of these; with the workers, also the end that keeps the queue |
    fn answer(&mut self, rt: &R, deed: &str) -> &'static str {
        match deed {
            "loader goes" => {
                self.loader = None;
                "gone"
            }
            "workers go" => {
                self.workers.clear();
                self.keeper = None;
                "gone"
            }
            "loader takes" => self.take(rt),
            _ => self.order(deed),
        }
    }

    fn take(&mut self, rt: &R) -> &'static str {
        match &mut self.loader {
            Some(loader) => loader.next_words(rt),
            None => "no loader",
        }
    }

    fn order(&mut self, deed: &str) -> &'static str {
        let (who, order) = deed.split_once(' ').unwrap_or((deed, ""));
        let index = match who {
            "one" => 0,
            _ => 1,
        };
        match self.workers.get_mut(index) {
            Some(worker) => order_words(worker, order),
            None => "no worker",
        }
    }
}

fn play_line<R: Wait + Abort>(rt: &R, ends: &mut QueueEnds<'_, R>, line: &str) {
    let (deed, expected) = line.split_once(": ").unwrap_or((line, ""));
    assert_eq!(rt; ends.answer(rt, deed), expected, "{line}");
}

fn play<R: Wait + Abort>(rt: &R, ends: &mut QueueEnds<'_, R>, script: &str) {
    for line in script.split('\n') {
        play_line(rt, ends, line);
    }
}

/// Four orders wait; a fifth is refused, even if its client would wait for it; and an order that is taken makes room
/// again.
const FOUR_WAIT: &str = "\
one orders fast: ok
one orders none: UnknownFeed
one awaits none: UnknownFeed
other orders slow: ok
other orders fast: ok
one orders slow: ok
other orders slow: OrdersFull
other awaits slow: OrdersFull
other orders : UnknownFeed
loader takes: fast
loader takes: slow
other orders fast: ok
workers go: gone
loader takes: fast
loader takes: slow
loader takes: fast
loader takes: nothing";

const THE_LOADER_IS_GONE: &str = "\
loader goes: gone
one orders slow: LoaderGone
one awaits slow: LoaderGone
one awaits none: UnknownFeed";

#[test]
fn orders_wait(rt: HostRuntime) -> Result<(), Fail> {
    let names = two_names(rt.alloc())?;
    for script in [FOUR_WAIT, THE_LOADER_IS_GONE] {
        play_at_new_ends(&rt, rt.alloc(), &names, script)?;
    }
    Ok(())
}

fn play_at_new_ends<R: Wait + Abort>(
    rt: &R,
    alloc: Global,
    names: &[String],
    script: &str,
) -> Result<(), Fail> {
    let shelves = Numbers { rt };
    let mut ends = new_ends(alloc, names, &shelves)?;
    play(rt, &mut ends, script);
    Ok(())
}

/// What a client that waits for the feed `fast` gets if the loader answers this, and which feed the loader was given.
fn reported<R: Threads + Wait + Sync>(
    rt: &R,
    worker: &mut Worker<'_, R>,
    loader: Loader,
    answer: Option<LoadAnswer<u64>>,
) -> (Result<(u64, u64), OrderFault>, Option<usize>) {
    thread::join(
        rt,
        || worker.order_wait("fast"),
        move || -> Option<usize> { loader.answer_next(rt, answer) },
    )
}

/// Asserts what that client gets if the loader answers this, and that the loader was given the feed `fast`.
fn tells<'a, R: Threads + Wait + Sync + Abort>(
    alloc: Global,
    names: &'a [String],
    shelves: &'a Numbers<'a, R>,
    answer: Option<LoadAnswer<u64>>,
    expected: Result<(u64, u64), OrderFault>,
) -> Result<(), Fail> {
    let rt = shelves.rt;
    let (mut keeper, loader) = order_queue(alloc, ())?;
    let end = keeper.another_end()?;
    let mut worker = WorkerOrders::new(rt, alloc, names, shelves, end);
    let (version, feed) = reported(rt, &mut worker, Loader::new(loader), answer);
    assert!(rt; version == expected && feed == Some(1));
    Ok(())
}

fn each_answer<R: Threads + Wait + Sync + Abort>(
    rt: &R,
    alloc: Global,
    names: &[String],
) -> Result<(), Fail> {
    let shelves = Numbers { rt };
    let published = LoadAnswer::Published { notice: 7 };
    tells(alloc, names, &shelves, Some(published), Ok((7, 7)))?;
    let unnoticed = Err(OrderFault::OutOfMemory);
    tells(
        alloc,
        names,
        &shelves,
        Some(LoadAnswer::Unnoticed),
        unnoticed,
    )?;
    let refused = LoadAnswer::Refused { refusal: 101 };
    let fault = OrderFault::LoadRefused { refusal: 101 };
    tells(alloc, names, &shelves, Some(refused), Err(fault))?;
    tells(alloc, names, &shelves, None, Err(OrderFault::LoaderGone))
}

/// Each answer of the loader reaches the client that waits for it; if there is none, it is reported that the loader
/// is gone.
#[test]
fn answers_are_reported(rt: HostRuntime) -> Result<(), Fail> {
    let names = two_names(rt.alloc())?;
    each_answer(&rt, rt.alloc(), &names)
}

/// What the loader takes from a queue that was closed after one order, and whether all orders that were put were taken.
fn taken_of_closed<'a, R: Wait>(
    alloc: Global,
    names: &'a [String],
    shelves: &'a Numbers<'a, R>,
) -> Result<([&'static str; 2], bool), AllocError> {
    let rt = shelves.rt;
    let (mut keeper, mut orders) = order_queue(alloc, ())?;
    let end = keeper.another_end()?;
    let mut worker = WorkerOrders::new(rt, alloc, names, shelves, end);
    let _ = worker.order("fast");
    keeper.take_in(worker.into_used());
    keeper.close(rt);
    let words = [
        take_and_answer(rt, &mut orders),
        take_and_answer(rt, &mut orders),
    ];
    Ok((words, keeper.finish(orders).is_some()))
}

/// A closed queue gives the order that was put before, and no more, although the end that keeps it is still there.
#[test]
fn a_closed_queue_gives_no_more(rt: HostRuntime) -> Result<(), Fail> {
    let names = two_names(rt.alloc())?;
    let shelves = Numbers { rt: &rt };
    let (words, all) = taken_of_closed(rt.alloc(), &names, &shelves)?;
    assert!(rt; words == ["fast", "nothing"] && all);
    Ok(())
}

/// Four orders that fill the queue.
const FILLED: &str = "\
one orders slow: ok
other orders fast: ok
one orders fast: ok
other orders slow: ok";

/// Shows that these four orders wait, and no other.
const STILL_FILLED: &str = "\
one orders slow: OrdersFull
one awaits none: UnknownFeed
loader takes: slow
loader takes: fast
one orders slow: ok
workers go: gone
loader takes: fast
loader takes: slow
loader takes: slow
loader takes: nothing";

/// An order for which its worker would wait isn't put, since the queue is full, or there is no memory for an answer
/// channel. Neither changes the queue.
fn awaits_at_a_full_queue<R: Wait + Abort>(
    rt: &R,
    ends: &mut QueueEnds<'_, R>,
) -> Result<(), Fail> {
    play(rt, ends, FILLED);
    let answer = ends.answer(rt, "other awaits slow");
    play(rt, ends, STILL_FILLED);
    if answer == "OutOfMemory" {
        return Err(AllocError.into());
    }
    assert!(rt; answer == "OrdersFull");
    Ok(())
}

/// If a growth is refused before the ends are made, there is no queue; if one of an answer channel is refused, the
/// orders that wait stay as they are. Either ends the test with `AllocError`.
#[test]
fn refused_growth_makes_no_queue(rt: HostRuntime) -> Result<(), Fail> {
    let names = two_names(rt.alloc())?;
    let shelves = Numbers { rt: &rt };
    let mut ends = new_ends(rt.alloc(), &names, &shelves)?;
    awaits_at_a_full_queue(&rt, &mut ends)
}
