//! The ends at which items are taken.

ghost use Rattle.std.specs.Prelude.{◌≡◌};
ghost use Rattle.crossbeam_channel.specs.Claims.{view as view_of};
ghost use Rattle.handoff.specs.Ends.{TakesNext, items_of};

use crate::queue::{EndView, Message, Moves, TakeRule};
use crossbeam_channel::{Pass, RuledReceiver};
use reasoning::GhostValue;
use std::alloc::Global;
use std::marker::Model;
use std::sync::Wait;

/// An end of a queue at which items are taken. Contracts see which queue; the items that were taken here, in order;
/// whether it last asked for an item and none came; and whether the queue was closed for it.
#[derive(Drop)]
pub struct TakeEnd<I: Drop, P: TakeRule<I>> {
    pub(crate) receiver: RuledReceiver<Message<I>, EndView<I>, P, Global>,
    pub(crate) pass: Pass<Message<I>, EndView<I>>,
    pub(crate) over: bool,
    pub(crate) closed: bool,
}

impl<I: Drop, P: TakeRule<I>> Model for TakeEnd<I, P> {
    ghost use Rattle.crossbeam_channel.specs.Claims.{IsSeatAt, view as view_of};
    ghost use Rattle.crossbeam_channel.specs.Ends.{receives_on};
    ghost use Rattle.handoff.specs.Ends.{IsTakingSide, TakerValue, items_of};

    ghost Value = { TakerValue I };

    ghost view = { λ s. record {
      queue = (s.pass.table_id, s.pass.me.0.of);
      taken = items_of (view_of s.pass);
      over = s.over;
      closed = s.closed;
    } };

    ghost invariant = { λ s. IsSeatAt (receives_on s.receiver) s.pass × IsTakingSide s.closed (view_of s.pass) };
}

/// An end at which items were taken, once it is back. Contracts see what it was.
#[derive(Drop)]
pub struct UsedTakeEnd<I: Drop> {
    known: GhostValue<Pass<Message<I>, EndView<I>>>,
    over: bool,
    closed: bool,
}

impl<I: Drop> Model for UsedTakeEnd<I> {
    ghost use Rattle.crossbeam_channel.specs.Claims.{view as view_of};
    ghost use Rattle.handoff.specs.Ends.{TakerValue, items_of};

    ghost Value = { TakerValue I };

    ghost view = { λ s. record {
      queue = (s.known.value.table_id, s.known.value.me.0.of);
      taken = items_of (view_of s.known.value);
      over = s.over;
      closed = s.closed;
    } };
}

impl<I: Drop> UsedTakeEnd<I> {
    // The end that knows this.
    pub(crate) fn of(
        pass: &Pass<Message<I>, EndView<I>>,
        over: bool,
        closed: bool,
    ) -> UsedTakeEnd<I>
        ensures { result ≡ record {
          queue = (pass.now.table_id, pass.now.me.0.of);
          taken = items_of (view_of pass.now);
          over = over;
          closed = closed;
        } }
    {
        UsedTakeEnd {
            known: GhostValue::of(pass),
            over,
            closed,
        }
    }
}

impl<I: Drop, P: TakeRule<I>> TakeEnd<I, P> {
    /// Takes the item that has waited longest, or waits for one. Returns `None` if the queue was closed for this end,
    /// in this call or before; or if all other ends are gone and the queue is empty: the contract says only that it was
    /// empty at one moment of the call; that the ends are gone, only tests show.
    pub fn next<R: Wait>(&mut self, rt: &R) -> Option<I>
        ensures { TakesNext P.Protocol.holds self.old result self.new }
    {
        self.over = true;
        if self.closed {
            return None;
        }
        match self.receiver.recv_as::<Moves<P>, R>(rt, &mut self.pass) {
            Ok(Message::Item { item }) => {
                self.over = false;
                Some(item)
            }
            Ok(Message::Closing) => {
                self.closed = true;
                None
            }
            Err(_) => None,
        }
    }

    /// Whether the queue was closed for this end.
    pub fn is_closed(&self) -> bool
        ensures { result ≡ self.now.closed }
    {
        self.closed
    }
}
