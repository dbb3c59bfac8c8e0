//! The ends at which items are put.

ghost use Rattle.std.specs.Prelude.{◌≡◌, IfErr};
ghost use Rattle.handoff.specs.Ends.{IsTurnedAway, after_try};

use crate::queue::{EndView, Message, Moves, PutRule, Tries};
use crossbeam_channel::{Pass, RuledSender, TrySendError};
use std::alloc::Global;
use std::marker::Model;
use std::sync::Wait;

/// An end of a queue at which items are put. Contracts see which queue; the items that were put here, in order; and how
/// often one was tried to be put.
#[derive(Drop)]
pub struct PutEnd<I: Drop, P: PutRule<I>> {
    pub(crate) sender: RuledSender<Message<I>, EndView<I>, P, Global>,
    pub(crate) pass: Pass<Message<I>, EndView<I>>,
}

impl<I: Drop, P: PutRule<I>> Model for PutEnd<I, P> {
    ghost use Rattle.std.specs.Prelude.{◌≡◌};
    ghost use Rattle.crossbeam_channel.specs.Claims.{IsSeatAt, view as view_of};
    ghost use Rattle.crossbeam_channel.specs.Ends.{ruled_capacity, sends_on};
    ghost use Rattle.handoff.specs.Ends.{IsPuttingSide, PutterValue, items_of, tries_of};

    ghost Value = { PutterValue I };

    ghost view = { λ s. record {
      queue = (s.pass.table_id, s.pass.me.0.of);
      items = items_of (view_of s.pass);
      tries = tries_of (view_of s.pass);
    } };

    ghost invariant = { λ s. IsSeatAt (sends_on s.sender) s.pass × (ruled_capacity (sends_on s.sender) ≡ P.room)
        × IsPuttingSide (view_of s.pass) };
}

/// What is left of an end at which items were put. Contracts see what it was.
#[derive(Drop)]
pub struct UsedPutEnd<I: Drop> {
    pub(crate) pass: Pass<Message<I>, EndView<I>>,
}

impl<I: Drop> Model for UsedPutEnd<I> {
    ghost use Rattle.std.specs.Prelude.{◌≡◌, []};
    ghost use Rattle.crossbeam_channel.specs.Claims.{view as view_of};
    ghost use Rattle.handoff.specs.Ends.{IsPuttingSide, PutterValue, items_of, tries_of};

    ghost Value = { PutterValue I };

    ghost view = { λ s. record {
      queue = (s.pass.table_id, s.pass.me.0.of);
      items = items_of (view_of s.pass);
      tries = tries_of (view_of s.pass);
    } };

    ghost invariant = { λ s. (s.pass.me.1 ≡ []) × IsPuttingSide (view_of s.pass) };
}

/// Why an item isn't put.
#[derive(Clone, Copy, Drop)]
pub enum NotPut {
    /// There was no room at one moment of the try.
    Full,
    /// No end is left at which items are taken. Tests show it; no contract does.
    NoTaker,
}

impl<I: Drop, P: PutRule<I>> PutEnd<I, P> {
    /// Puts an item if there is room. One that isn't put is dropped.
    pub fn try_put<R: Wait>(&mut self, rt: &R, item: I) -> Result<(), NotPut>
        ensures tried { self.new ≡ after_try self.old item result }
        ensures refused { IfErr result (IsTurnedAway P.Protocol.holds P.room self.old) }
    {
        // Counts the try in what contracts see of this end: splitting its pass is the step by which that may change.
        drop(self.sender.another::<Tries>(&mut self.pass));
        match self
            .sender
            .try_send_as::<Moves<P>, R>(rt, &mut self.pass, Message::Item { item })
        {
            Ok(()) => Ok(()),
            Err(TrySendError::Full(_)) => Err(NotPut::Full),
            Err(TrySendError::Disconnected(_)) => Err(NotPut::NoTaker),
            Err(TrySendError::OutOfMemory(_)) => unreachable!(),
        }
    }

    /// Puts no more. This end is dropped; contracts still see what was put there.
    pub fn into_used(self) -> UsedPutEnd<I>
        ensures { result ≡ self }
    {
        let PutEnd { sender, pass } = self;
        drop(sender);
        UsedPutEnd { pass }
    }
}
