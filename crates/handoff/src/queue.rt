//! What waits in the queue, and the queue's rule.

ghost use Rattle.std.specs.Prelude.{ℕ};

use crossbeam_channel::protocol::{Join, Lesson, Outcome, Protocol, Split};
use std::collections::LinkedList;
use std::marker::PhantomData;

/// What waits in the queue.
#[derive(Drop)]
pub enum Message<I: Drop> {
    /// An item.
    Item { item: I },
    /// Whoever takes this takes no more.
    Closing,
}

/// What the end that keeps the queue knows. No value of it is made.
pub struct KeeperView<I> {
    /// The items that were put here, and at the ends that came back.
    pub put: LinkedList<I>,
    /// The items that the ends that came back had taken.
    pub taken: LinkedList<I>,
    /// How many of the ends at which items are put are out.
    pub putting: u64,
    /// How many of the ends at which items are taken are out.
    pub taking: u64,
    /// How often the queue was closed.
    pub closings: u64,
    /// For how many of the ends that came back the queue had been closed.
    pub ended: u64,
}

/// What an end of the queue knows. No value of it is made.
pub enum EndView<I> {
    /// The end that keeps the queue.
    Keeping { view: KeeperView<I> },
    /// An end at which items are put: the items that were put, in order, and how many tries there were.
    Putting { items: LinkedList<I>, tries: u64 },
    /// An end at which items are taken: the items that were taken, in order, and how many closings.
    Taking { items: LinkedList<I>, ended: u64 },
    /// What is left of an end that came back, or that was split off for a try.
    Rests,
}

/// A rule of queues with this much room, which stays true whenever an end puts an item or tries to. Nothing here says
/// that it is true of a new queue, nor that it stays so when an end is added. So only the queue itself can say that it
/// was true of some messages at some moment.
pub trait PutRule<I: Drop>: Protocol<Message<I>, EndView<I>> {
    ghost use Rattle.handoff.specs.Queue.{IsKeptByPutting};

    ghost room: { ℕ };

    ghost kept: { IsKeptByPutting Self.holds room };
}

/// A rule of queues, which stays true whenever an end takes what comes first. As in `PutRule`, only the queue itself
/// can say that it was true at some moment.
pub trait TakeRule<I: Drop>: Protocol<Message<I>, EndView<I>> {
    ghost use Rattle.handoff.specs.Queue.{IsKeptByTaking};

    ghost kept: { IsKeptByTaking Self.holds };
}

/// The rule: at most `ROOM` messages wait; each item that was put was taken once, or waits; no other item was taken or
/// waits; and no item waits once a closing was taken.
pub struct EachItemOnce<const ROOM: usize>;

impl<I: Drop, const ROOM: usize> Protocol<Message<I>, EndView<I>> for EachItemOnce<ROOM> {
    ghost use Rattle.handoff.specs.Queue.{IsQueue, new_queue};

    ghost holds = { IsQueue ROOM };

    ghost first = { new_queue };
}

impl<I: Drop, const ROOM: usize> PutRule<I> for EachItemOnce<ROOM> {
    ghost use Rattle.handoff.specs.Rules.{kept_by_putting};

    ghost room = { ROOM };

    ghost kept = { kept_by_putting ROOM };
}

impl<I: Drop, const ROOM: usize> TakeRule<I> for EachItemOnce<ROOM> {
    ghost use Rattle.handoff.specs.Rules.{kept_by_taking};

    ghost kept = { kept_by_taking ROOM };
}

/// A message joins the queue, or leaves it. No value of it is made.
pub struct Moves<P> {
    rule: PhantomData<P>,
}

impl<I: Drop, P> Outcome<Message<I>, EndView<I>> for Moves<P> {
    ghost use Rattle.handoff.specs.Queue.{IsOneMore};

    ghost then = { IsOneMore };
}

impl<I: Drop, P: Protocol<Message<I>, EndView<I>>> Lesson<Message<I>, EndView<I>> for Moves<P> {
    ghost use Rattle.handoff.specs.Queue.{IsHeldBeside};

    ghost fact = { IsHeldBeside P.holds };
}

/// An end tries to put an item, and counts the try. The part that is split from it for this is let go.
pub struct Tries;

impl<I> Split<EndView<I>> for Tries {
    ghost use Rattle.handoff.specs.Queue.{tried};
    ghost use Rattle.handoff.specs.declared.queue.EndView.{EndView};

    ghost left = { tried };

    ghost right = { λ view. EndView.Rests };
}

/// An end goes out, at which no item was put yet.
pub struct PutterGoesOut;

impl<I> Split<EndView<I>> for PutterGoesOut {
    ghost use Rattle.handoff.specs.Queue.{new_putter, with_putter_out};

    ghost left = { with_putter_out };

    ghost right = { λ view. new_putter };
}

/// An end goes out, at which no item was taken yet.
pub struct TakerGoesOut;

impl<I> Split<EndView<I>> for TakerGoesOut {
    ghost use Rattle.handoff.specs.Queue.{new_taker, with_taker_out};

    ghost left = { with_taker_out };

    ghost right = { λ view. new_taker };
}

/// An end comes back.
pub struct EndComesBack;

impl<I> Join<EndView<I>> for EndComesBack {
    ghost use Rattle.handoff.specs.Queue.{with_back};
    ghost use Rattle.handoff.specs.declared.queue.EndView.{EndView};

    ghost both = { with_back };

    ghost spent = { EndView.Rests };
}

/// Once all ends are back, and the queue was closed for one of them: what was taken is what was put.
pub struct AllEndsBack;

impl<I: Drop> Lesson<Message<I>, EndView<I>> for AllEndsBack {
    ghost use Rattle.handoff.specs.Queue.{KnowsAllTaken};

    ghost fact = { λ view messages. KnowsAllTaken view };
}
