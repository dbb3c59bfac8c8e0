//! Orders of feeds by their names, which a worker puts in the queue.

ghost use Rattle.std.specs.Prelude.{◌≡◌, ◌++◌, ◌∷◌, [], map, string_bytes, List, Some, IfErr, IfOk, MatchResult};
ghost use Rattle.orders.specs.Ordering.{IsNotTaken, order_value};
ghost use Rattle.handoff.specs.Ends.{after_try, with_item};
ghost use Rattle.load_orders.specs.Asking.{AsksAndWaits, AsksOrder, HasAsked, IsNotAwaited, OrderRoute, Puts};
ghost use Rattle.load_orders.specs.Asking.{TakesNoOrder, Waits, awaited_order, dealings, fault_of_answer};
ghost use Rattle.load_orders.specs.Asking.{order_words, route_of};
ghost use Rattle.load_orders.specs.AnswerChannels.{AnswerChannelId, AnswerEndValue, received_at};
ghost use Rattle.load_orders.specs.declared.answer_channels.LoadAnswer.{LoadAnswer};

use crate::answer_channels::{LoadAnswer, UsedAnswerEnd, answer_channel};
use crate::ghost_list::GhostList;
use crate::names::index_of;
use crate::queue::{Order, OrderRule};
use handoff::{EachItemOnce, NotPut, PutEnd, UsedPutEnd};
use orders::{OrderFault, OrderRecord, Orders};
use shelves::Versions;
use std::alloc::Global;
use std::collections::LinkedList;
use std::marker::Model;
use std::sync::Wait;
use timetable::GhostValue;

/// A worker's end of the queue: it takes orders of feeds by their names, whose versions are published at the shelves.
#[derive(Drop)]
pub struct WorkerOrders<
    'a,
    R: Wait,
    N: Drop,
    T: Versions<Notice = N>,
    P: OrderRule<N> = EachItemOnce<4>,
> {
    rt: &'a R,
    alloc: Global,
    names: &'a [String],
    shelves: &'a T,
    end: PutEnd<Order<N>, P>,
    asked: GhostList<OrderRecord>,
    received: GhostList<UsedAnswerEnd<N>>,
}

impl<'a, R: Wait, N: Drop, T: Versions<Notice = N>, P: OrderRule<N>> Model
    for WorkerOrders<'a, R, N, T, P> {
    ghost use Rattle.std.specs.Prelude.{map, string_bytes};
    ghost use Rattle.load_orders.specs.Asking.{HasAsked, WorkerOrdersValue, order_words};

    ghost Value = { WorkerOrdersValue N };

    ghost view = { λ s. record {
      names = map string_bytes s.names.now;
      end = s.end;
      asked = s.asked;
      received =
          s.received;
    } };

    ghost invariant = { λ s. HasAsked (order_words P.Protocol.holds T.words.version) (record {
      names = map string_bytes s.names.now;
      end = s.end;
      asked = s.asked;
      received =
          s.received;
    }) };
}

/// A worker's orders once it asks for no more: what was asked for, and what that did at its end of the queue, which is
/// gone. It takes no bytes.
#[derive(Drop)]
pub struct UsedOrders<N: Drop> {
    names: GhostValue<LinkedList<LinkedList<u8>>>,
    pub(crate) end: UsedPutEnd<Order<N>>,
    asked: GhostList<OrderRecord>,
    received: GhostList<UsedAnswerEnd<N>>,
}

impl<N: Drop> Model for UsedOrders<N> {
    ghost use Rattle.load_orders.specs.Asking.{WorkerOrdersValue};

    ghost Value = { WorkerOrdersValue N };

    ghost view = { λ u. record { names = u.names.value; end = u.end; asked = u.asked; received = u.received } };
}

impl<'a, R: Wait, N: Drop, T: Versions<Notice = N>, P: OrderRule<N>> WorkerOrders<'a, R, N, T, P> {
    /// Takes orders of feeds by these names, and puts them at this end, at which nothing was put yet. The versions that
    /// come of them are published at these shelves. Nothing was asked for yet.
    pub fn new(
        rt: &'a R,
        alloc: Global,
        names: &'a [String],
        shelves: &'a T,
        end: PutEnd<Order<N>, P>,
    ) -> WorkerOrders<'a, R, N, T, P>
        requires { end.items ≡ [] }
        ensures { result ≡ record { names = map string_bytes names.now; end = end; asked = []; received = [] } }
    {
        WorkerOrders {
            rt,
            alloc,
            names,
            shelves,
            end,
            asked: GhostList::none(),
            received: GhostList::none(),
        }
    }

    /// Asks for no more. This end of the queue is dropped; contracts still see what was asked for.
    pub fn into_used(self) -> UsedOrders<N>
        ensures same { result ≡ self.entry }
        ensures asked { HasAsked (order_words P.Protocol.holds T.words.version) result }
    {
        let names = GhostValue::at(&self.names, &());
        let WorkerOrders {
            end,
            asked,
            received,
            ..
        } = self;
        let end = end.into_used();
        UsedOrders {
            names,
            end,
            asked,
            received,
        }
    }
}

// Puts an order, where there is room.
fn put<R: Wait, N: Drop, P: OrderRule<N>>(
    rt: &R,
    end: &mut PutEnd<Order<N>, P>,
    order: Order<N>,
) -> Result<(), OrderFault>
    ensures tried { end.new ≡ after_try end.old order result }
    ensures refused { IfErr result (TakesNoOrder P.Protocol.holds end.old) }
{
    match end.try_put(rt, order) {
        Ok(()) => Ok(()),
        Err(NotPut::Full) => Err(OrderFault::OrdersFull),
        Err(NotPut::NoTaker) => Err(OrderFault::LoaderGone),
    }
}

// Puts an order of the first feed of that name, where there is room.
fn put_named<R: Wait, N: Drop, P: OrderRule<N>>(
    rt: &R,
    names: &[String],
    feed: &str,
    end: &mut PutEnd<Order<N>, P>,
) -> Result<(), OrderFault>
    ensures plain { IfErr result IsNotTaken }
    ensures put { (received : List (AnswerEndValue N)) → Puts P.Protocol.holds feed.now result
        (dealings (map string_bytes names.now) end.old received)
        (dealings (map string_bytes names.now) end.new received) }
{
    match index_of(names, feed) {
        Some(index) => put(
            rt,
            end,
            Order {
                feed: index,
                answer_channel: None,
            },
        ),
        None => Err(OrderFault::UnknownFeed),
    }
}

// Puts an order of the first feed of that name, and waits for what comes of it.
fn wait_for<R: Wait, N: Drop, T: Versions<Notice = N>, P: OrderRule<N>>(
    rt: &R,
    alloc: Global,
    names: &[String],
    feed: &str,
    end: &mut PutEnd<Order<N>, P>,
    received: &mut GhostList<UsedAnswerEnd<N>>,
) -> Result<(u64, N), OrderFault>
    ensures { Waits (order_words P.Protocol.holds T.words.version) feed.now result
        (dealings (map string_bytes names.now) end.old received.old)
        (dealings (map string_bytes names.now) end.new received.new) }
{
    let Some(index) = index_of(names, feed) else {
        return Err(OrderFault::UnknownFeed);
    };
    match put_awaited(rt, alloc, index, end, received) {
        Ok(answer) => version_or_fault::<N, T>(answer),
        Err(fault) => Err(fault),
    }
}

// Puts an order with an answer channel, and waits for what comes of it, which is noted.
fn put_awaited<R: Wait, N: Drop, P: OrderRule<N>>(
    rt: &R,
    alloc: Global,
    index: usize,
    end: &mut PutEnd<Order<N>, P>,
    received: &mut GhostList<UsedAnswerEnd<N>>,
) -> Result<Option<LoadAnswer<N>>, OrderFault>
    ensures { MatchResult result
        (λ answer. (channel : AnswerChannelId) × (end.new ≡ with_item end.old (awaited_order index channel))
        × (received.new ≡ received.old ++ received_at channel answer ∷ []))
        (λ fault. IsNotAwaited P.Protocol.holds end.old fault end.new × (received.new ≡ received.old)) }
{
    let Ok((answer_channel, awaited)) = answer_channel(alloc) else {
        return Err(OrderFault::OutOfMemory);
    };
    let order = Order {
        feed: index,
        answer_channel: Some(answer_channel),
    };
    match put(rt, end, order) {
        Ok(()) => {
            let (answer, channel) = awaited.receive(rt);
            received.note(&channel);
            Ok(answer)
        }
        Err(fault) => Err(fault),
    }
}

// What came of a load, from the loader's answer, or from the lack of one: the version is that of the notice.
fn version_or_fault<N: Drop, T: Versions<Notice = N>>(
    answer: Option<LoadAnswer<N>>,
) -> Result<(u64, N), OrderFault>
    ensures { MatchResult result
        (λ came. (T.words.version came.1 ≡ came.0) × (answer ≡ Some (LoadAnswer.Published came.1)))
        (λ fault. fault_of_answer answer ≡ Some fault) }
{
    match answer {
        Some(LoadAnswer::Published { notice }) => Ok((T::version_of(&notice), notice)),
        Some(LoadAnswer::Unnoticed) => Err(OrderFault::OutOfMemory),
        Some(LoadAnswer::Refused { refusal }) => Err(OrderFault::LoadRefused { refusal }),
        None => Err(OrderFault::LoaderGone),
    }
}

impl<'a, R: Wait, N: Drop, T: Versions<Notice = N>, P: OrderRule<N>> Orders
    for WorkerOrders<'a, R, N, T, P> {
    type Notice = N;

    ghost Route = { OrderRoute N };

    ghost route = { λ orders. route_of orders };

    ghost asked = { λ orders. orders.asked };

    ghost notice_version = { T.words.version };

    /// Puts an order of the first feed of that name: `UnknownFeed` exactly where there is none,
    /// `OrdersFull` where four orders waited in the queue at one moment of the call.
    fn order(&mut self, feed: &str) -> Result<(), OrderFault>
        ensures asked { AsksOrder (order_words P.Protocol.holds T.words.version) (order_value feed.now result)
            self.old self.new }
        ensures plain { IfErr result IsNotTaken }
    {
        let outcome = put_named(self.rt, self.names, feed, &mut self.end);
        self.asked.note(&OrderRecord::put(feed, outcome));
        outcome
    }

    /// Puts an order as `order` does, and waits for its version. `LoadRefused` has the number that the loader answered.
    /// `LoaderGone` may also mean that the order was put and no answer came. `OutOfMemory` means that there was no
    /// memory to wait, and nothing was put; or none for a notice of the version that was published, which no shelves of
    /// this program answer.
    fn order_wait(&mut self, feed: &str) -> Result<(u64, N), OrderFault>
        ensures asked { AsksAndWaits (order_words P.Protocol.holds T.words.version) feed.now result
            self.old self.new }
        ensures notice { IfOk result (λ came. T.words.version came.1 ≡ came.0) }
    {
        let outcome = wait_for::<R, N, T, P>(
            self.rt,
            self.alloc,
            self.names,
            feed,
            &mut self.end,
            &mut self.received,
        );
        self.asked.note(&OrderRecord::waited(feed, &outcome));
        outcome
    }
}
