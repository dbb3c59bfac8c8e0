//! The end that keeps the queue.

ghost use Rattle.std.specs.Prelude.{◌≡◌, ◌<◌, false, true, IfOk, MatchBool};
ghost use Rattle.crossbeam_channel.specs.Claims.{IsSeatAt, view as view_of};
ghost use Rattle.crossbeam_channel.specs.Ends.{ruled_capacity, sends_on};
ghost use Rattle.crossbeam_channel.specs.Fifo.{Pushes};
ghost use Rattle.handoff.specs.Ends.{KeeperValue, SendsOut, closed_once_more, putter_back, putter_out, taker_back};
ghost use Rattle.handoff.specs.Ends.{taker_out, unused_putter, unused_taker, with_put};
ghost use Rattle.handoff.specs.Queue.{AllWereTaken, IsOneMore, IsQueue, nothing_kept};

use crate::putting::{PutEnd, UsedPutEnd};
use crate::queue::{
    AllEndsBack, EachItemOnce, EndComesBack, EndView, Message, Moves, PutterGoesOut, TakerGoesOut,
};
use crate::taking::{TakeEnd, UsedTakeEnd};
use crossbeam_channel::{Pass, RuledReceiver, RuledSender, bounded_with};
use std::alloc::{AllocError, Global};
use std::marker::Model;
use std::sync::Wait;

/// The end that keeps a queue: the others go out from it and come back, it closes the queue behind all items, and it
/// can put items itself. Contracts see which queue, what this end knows of it, and whether further ends may go out at
/// which items are taken.
#[derive(Drop)]
pub struct Keeper<I: Drop, const ROOM: usize> {
    sender: RuledSender<Message<I>, EndView<I>, EachItemOnce<ROOM>, Global>,
    receiver: Option<RuledReceiver<Message<I>, EndView<I>, EachItemOnce<ROOM>, Global>>,
    pass: Pass<Message<I>, EndView<I>>,
}

impl<I: Drop, const ROOM: usize> Model for Keeper<I, ROOM> {
    ghost use Rattle.std.specs.Prelude.{◌≡◌, IfSome, is_some};
    ghost use Rattle.crossbeam_channel.specs.Claims.{IsSeatAt, view as view_of};
    ghost use Rattle.crossbeam_channel.specs.Ends.{receives_on, ruled_capacity, sends_on};
    ghost use Rattle.handoff.specs.Ends.{IsKeeperSide, KeeperValue, keeper_of};

    ghost Value = { KeeperValue I };

    ghost view = { λ s. record {
      queue = (s.pass.table_id, s.pass.me.0.of);
      view = keeper_of (view_of s.pass);
      opens = is_some s.receiver;
    } };

    ghost invariant = { λ s. IsSeatAt (sends_on s.sender) s.pass × (ruled_capacity (sends_on s.sender) ≡ ROOM)
        × IsKeeperSide (view_of s.pass) × IfSome s.receiver (λ receiver. receives_on receiver ≡ sends_on s.sender) };
}

/// Makes an empty queue, in which `ROOM` items may wait, and returns the end that keeps it. No other end is out.
pub fn empty_queue<I: Drop, const ROOM: usize>(alloc: Global) -> Result<Keeper<I, ROOM>, AllocError>
    requires room { 0 < ROOM }
    ensures { IfOk result (λ keeper. keeper ≡ record { queue = keeper.queue; view = nothing_kept; opens = true }) }
{
    let (sender, receiver, pass) = bounded_with(alloc, ROOM)?;
    Ok(Keeper {
        sender,
        receiver: Some(receiver),
        pass,
    })
}

impl<I: Drop, const ROOM: usize> Keeper<I, ROOM> {
    /// Sends out a new end of this queue at which items are put; none was put there yet. If memory is refused, nothing
    /// changes.
    pub fn another_putter(&mut self) -> Result<PutEnd<I, EachItemOnce<ROOM>>, AllocError>
        requires open { self.old.view.closings ≡ 0 }
        ensures { SendsOut (unused_putter self.old.queue) putter_out result self.old self.new }
    {
        let sender = self.sender.try_clone()?;
        let pass = self.sender.another::<PutterGoesOut>(&mut self.pass);
        Ok(PutEnd { sender, pass })
    }

    /// Sends out a new end of this queue at which items are taken; none was taken there yet. If memory is refused,
    /// nothing changes.
    pub fn another_taker(&mut self) -> Result<TakeEnd<I, EachItemOnce<ROOM>>, AllocError>
        requires opens { self.old.opens ≡ true }
        ensures { SendsOut (unused_taker self.old.queue) taker_out result self.old self.new }
    {
        let Some(own) = &self.receiver else {
            unreachable!();
        };
        let receiver = own.try_clone()?;
        let pass = self.sender.another::<TakerGoesOut>(&mut self.pass);
        Ok(TakeEnd {
            receiver,
            pass,
            over: false,
            closed: false,
        })
    }

    /// Sends out the last such end. Once all of them are dropped, no item can be put any more.
    pub fn last_taker(&mut self) -> TakeEnd<I, EachItemOnce<ROOM>>
        requires opens { self.old.opens ≡ true }
        ensures taker { result ≡ unused_taker self.old.queue }
        ensures out { self.new ≡ record (taker_out self.old) { opens = false } }
    {
        let Some(receiver) = self.receiver.take() else {
            unreachable!();
        };
        let pass = self.sender.another::<TakerGoesOut>(&mut self.pass);
        TakeEnd {
            receiver,
            pass,
            over: false,
            closed: false,
        }
    }

    /// Puts an item, once there is room. As long as an end at which items are taken is out, what is put stays put.
    pub fn put<R: Wait>(&mut self, rt: &R, item: I)
        requires open { self.old.view.closings ≡ 0 }
        ensures { self.new ≡ with_put self.old item }
    {
        let message = Message::Item { item };
        send(rt, &self.sender, &mut self.pass, message);
    }

    /// Puts a closing behind all items, once there is room: the end that takes it takes no more. False if no end is out
    /// at which items are taken.
    pub fn close<R: Wait>(&mut self, rt: &R) -> bool
        requires back { self.old.view.putting ≡ 0 }
        ensures { MatchBool result (self.new ≡ closed_once_more self.old) (self.new ≡ self.old) }
    {
        self.sender
            .send_as::<Moves<EachItemOnce<ROOM>>, R>(rt, &mut self.pass, Message::Closing)
            .is_ok()
    }

    /// Takes in what was put at an end that isn't used any more.
    pub fn take_in(&mut self, used: UsedPutEnd<I>)
        requires queue { used.queue ≡ self.old.queue }
        ensures { self.new ≡ putter_back self.old used }
    {
        self.sender
            .absorb::<EndComesBack>(&mut self.pass, used.pass);
    }

    /// Takes back an end at which items were taken, and returns what it was.
    pub fn take_back(&mut self, taker: TakeEnd<I, EachItemOnce<ROOM>>) -> UsedTakeEnd<I>
        requires queue { taker.queue ≡ self.old.queue }
        ensures back { self.new ≡ taker_back self.old taker }
        ensures same { result ≡ taker }
    {
        let TakeEnd {
            receiver,
            pass,
            over,
            closed,
        } = taker;
        drop(receiver);
        let used = UsedTakeEnd::of(&pass, over, closed);
        self.sender.absorb::<EndComesBack>(&mut self.pass, pass);
        used
    }

    /// Changes nothing. Its contract says that once all ends are back, and the queue was closed for one of them, what
    /// was taken is what was put, each item once.
    pub fn all_were_taken(&mut self)
        ensures same { self.new ≡ self.old }
        ensures all { AllWereTaken self.old.view }
    {
        self.sender.learn_as::<AllEndsBack>(&mut self.pass);
    }
}

// Sends once there is room. What comes back unsent is sent again: nothing does while an end is out that receives, but
// no contract says so.
fn send<R: Wait, I: Drop, const ROOM: usize>(
    rt: &R,
    sender: &RuledSender<Message<I>, EndView<I>, EachItemOnce<ROOM>, Global>,
    pass: &mut Pass<Message<I>, EndView<I>>,
    mut message: Message<I>,
)
    requires channel { IsSeatAt (sends_on sender.now) pass.old }
    requires rule { Pushes (IsQueue ROOM) (ruled_capacity (sends_on sender.now)) pass.old.id (view_of pass.old) message
        (IsOneMore (view_of pass.old) message) }
    ensures channel { IsSeatAt (sends_on sender.now) pass.new × (pass.new.id ≡ pass.old.id) }
    ensures sent { IsOneMore (view_of pass.old) message (view_of pass.new) }
{
    for _ in rt.forever() {
        match sender.send_as::<Moves<EachItemOnce<ROOM>>, R>(rt, pass, message) {
            Ok(()) => return,
            Err(unsent) => message = unsent.into_inner(),
        }
    }
    unreachable!()
}
