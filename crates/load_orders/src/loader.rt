//! The loader's end of the queue.

ghost use Rattle.std.specs.Prelude.{◌≡◌};
ghost use Rattle.load_orders.specs.Answering.{AllAnswered, AnswersOrder, IsSentBack, TakesOrder};

use crate::answer_channels::{AnswerSender, LoadAnswer, UsedAnswerEnd};
use crate::ghost_list::GhostList;
use crate::queue::Order;
use handoff::{EachItemOnce, TakeEnd, TakeRule, UsedTakeEnd};
use std::marker::{Model, PhantomData};
use std::snapshot::Snapshot;
use std::sync::Wait;
use timetable::GhostValue;

/// What the loader answered to an order. Contracts see the answer, and where it was sent.
#[derive(Drop)]
pub struct OrderAnswer<N: Drop> {
    answer: GhostValue<LoadAnswer<N>>,
    sent: Option<UsedAnswerEnd<N>>,
}

impl<N: Drop> Model for OrderAnswer<N> {
    ghost use Rattle.load_orders.specs.Answering.{AnsweredValue};

    ghost Value = { AnsweredValue N };

    ghost view = { λ a. record { answer = a.answer.value; sent = a.sent } };
}

/// The loader's end of the queue, which was made with a leave to load. Contracts see which queue; the orders that it
/// took, and what it answered, in order; whether it last asked for an order and none came; and whether the queue was
/// closed for it.
#[derive(Drop)]
pub struct LoaderOrders<N: Drop, V, P: TakeRule<Order<N>> = EachItemOnce<4>> {
    pub(crate) end: TakeEnd<Order<N>, P>,
    pub(crate) answered: GhostList<OrderAnswer<N>>,
    pub(crate) leave: GhostValue<V>,
}

impl<N: Drop, V, P: TakeRule<Order<N>>> Model for LoaderOrders<N, V, P> {
    ghost use Rattle.load_orders.specs.Answering.{LoaderOrdersValue};

    ghost Value = { LoaderOrdersValue N };

    ghost view = { λ s. record {
      queue = s.end.queue;
      taken = s.end.taken;
      answered = s.answered;
      over = s.end.over;
      closed = s.end.closed;
    } };
}

/// The loader's end once it has come back. Contracts see what it took and answered.
#[derive(Drop)]
pub struct UsedLoader<N: Drop> {
    pub(crate) end: UsedTakeEnd<Order<N>>,
    pub(crate) answered: GhostList<OrderAnswer<N>>,
}

impl<N: Drop> Model for UsedLoader<N> {
    ghost use Rattle.load_orders.specs.Answering.{LoaderOrdersValue};

    ghost Value = { LoaderOrdersValue N };

    ghost view = { λ s. record {
      queue = s.end.queue;
      taken = s.end.taken;
      answered = s.answered;
      over = s.end.over;
      closed = s.end.closed;
    } };
}

/// A permit to draw the files of one feed. Drawing takes it by value, so it can be used once. Only
/// [`LoaderOrders::next`] makes permits: one with each order that it takes from its queue. `V` is the type of the leave
/// that the queue was made with. A server has one leave of its type, and so one queue: it draws files at most once for
/// each order of that queue, and never without an order.
#[derive(Drop)]
pub struct DrawPermit<V> {
    leave: PhantomData<V>,
}

impl<N: Drop, V, P: TakeRule<Order<N>>> LoaderOrders<N, V, P> {
    /// Which queue it is, and which orders were taken of it so far, for contracts.
    pub fn taken_by_now(&self) -> Snapshot<TakeEnd<Order<N>, P>>
        ensures queue { result.value.queue ≡ self.now.queue }
        ensures taken { result.value.taken ≡ self.now.taken }
    {
        Snapshot::of(&self.end)
    }

    /// Takes the order that has waited longest, or waits for one; with it comes the permit to draw its feed's files.
    /// Each order taken before must have been answered. None if the queue was closed for the loader; then none ever
    /// comes. None also if all other ends are gone and the queue is empty: the contract says only that it was empty at
    /// one moment of the call; that the ends are gone, only tests show.
    pub fn next<R: Wait>(&mut self, rt: &R) -> Option<(Order<N>, DrawPermit<V>)>
        requires { AllAnswered self.old }
        ensures { TakesOrder P.Protocol.holds result self.old self.new }
    {
        match self.end.next(rt) {
            Some(order) => {
                let permit = DrawPermit { leave: PhantomData };
                Some((order, permit))
            }
            None => None,
        }
    }

    /// Sends what came of the order to the worker that waits for it, by the order's own answer channel. Perhaps none
    /// waits, or none does any more.
    pub fn answer<R: Wait>(&mut self, rt: &R, order: Order<N>, answer: LoadAnswer<N>)
        ensures { AnswersOrder order answer self.old self.new }
    {
        let kept = GhostValue::of(&answer);
        let sent = send_back(rt, order.answer_channel, answer);
        self.answered.note(&OrderAnswer { answer: kept, sent });
    }
}

// Answers the worker that waits at an answer channel, if there is one.
fn send_back<R: Wait, N: Drop>(
    rt: &R,
    answer_channel: Option<AnswerSender<N>>,
    answer: LoadAnswer<N>,
) -> Option<UsedAnswerEnd<N>>
    ensures { IsSentBack answer_channel answer result }
{
    match answer_channel {
        Some(channel) => Some(channel.send(rt, answer)),
        None => None,
    }
}
