//! The answer channel to a worker that waits for a load: one for each order, made for it, for one answer.

ghost use Rattle.std.specs.Prelude.{◌≡◌, ◌∷◌, [], Some, None, IfNone, IfOk, MatchOption};
ghost use Rattle.load_orders.specs.Answering.{IsSentAt};
ghost use Rattle.load_orders.specs.AnswerChannels.{WasEmpty, received_at};

use crossbeam_channel::protocol::{Lesson, Outcome, Protocol, Split};
use crossbeam_channel::{Pass, RuledReceiver, RuledSender, bounded_with};
use std::alloc::{AllocError, Global};
use std::collections::LinkedList;
use std::marker::{Model, PhantomData};
use std::sync::Wait;

/// What came of a load, as it is sent to the worker that waits for it.
#[derive(Drop)]
pub enum LoadAnswer<N> {
    /// A version was published, of which this is a notice.
    Published { notice: N },
    /// A version was published, and there was no memory for a notice of it.
    Unnoticed,
    /// The load or its publish was refused, with this number.
    Refused { refusal: u8 },
}

/// What an end of an answer channel knows. No value of it is made.
pub enum AnswerView<N> {
    /// The channel is new, and this is its one end.
    Whole,
    /// What was sent there, in order.
    Sending { sent: LinkedList<LoadAnswer<N>> },
    /// What was received there, in order.
    Receiving { received: LinkedList<LoadAnswer<N>> },
}

/// A rule of answer channels, which stays true whenever an answer is received. Nothing here says that it is true of a
/// new channel. So only the channel itself can say that it was true while no answer was in the channel.
pub trait AnswerRule<N: Drop>: Protocol<LoadAnswer<N>, AnswerView<N>> {
    ghost use Rattle.load_orders.specs.AnswerChannels.{IsKeptByReceiving};

    ghost kept: { IsKeptByReceiving Self.holds };
}

/// The rule of an answer channel: one end sends, and one receives what was sent.
pub struct OneSender;

impl<N: Drop> Protocol<LoadAnswer<N>, AnswerView<N>> for OneSender {
    ghost use Rattle.load_orders.specs.AnswerChannels.{IsAnswerChannel, new_channel};

    ghost holds = { IsAnswerChannel };

    ghost first = { new_channel };
}

impl<N: Drop> AnswerRule<N> for OneSender {
    ghost use Rattle.load_orders.specs.AnswerRules.{one_receives};

    ghost kept = { one_receives };
}

/// An answer is sent.
pub struct SendsAnswer;

impl<N: Drop> Outcome<LoadAnswer<N>, AnswerView<N>> for SendsAnswer {
    ghost use Rattle.load_orders.specs.AnswerChannels.{IsOneAnswerMore};

    ghost then = { IsOneAnswerMore };
}

impl<N: Drop> Lesson<LoadAnswer<N>, AnswerView<N>> for SendsAnswer {
    ghost use Rattle.std.specs.Prelude.{⊤};

    ghost fact = { λ view items. ⊤ };
}

/// An answer is received. No value of it is made.
pub struct ReceivesAnswer<P> {
    rule: PhantomData<P>,
}

impl<N: Drop, P> Outcome<LoadAnswer<N>, AnswerView<N>> for ReceivesAnswer<P> {
    ghost use Rattle.load_orders.specs.AnswerChannels.{IsOneAnswerMore};

    ghost then = { IsOneAnswerMore };
}

impl<N: Drop, P: AnswerRule<N>> Lesson<LoadAnswer<N>, AnswerView<N>> for ReceivesAnswer<P> {
    ghost use Rattle.handoff.specs.Queue.{IsHeldBeside};

    ghost fact = { IsHeldBeside P.Protocol.holds };
}

/// A new channel has two ends: one that sends, and one that receives.
pub struct SplitsInTwo;

impl<N: Drop> Split<AnswerView<N>> for SplitsInTwo {
    ghost use Rattle.load_orders.specs.AnswerChannels.{none_received, none_sent};

    ghost left = { λ view. none_sent };

    ghost right = { λ view. none_received };
}

/// Where the loader sends what came of an order, once. Contracts see which channel it is.
#[derive(Drop)]
pub struct AnswerSender<N: Drop> {
    sender: RuledSender<LoadAnswer<N>, AnswerView<N>, OneSender, Global>,
    pass: Pass<LoadAnswer<N>, AnswerView<N>>,
}

impl<N: Drop> Model for AnswerSender<N> {
    ghost use Rattle.std.specs.Prelude.{◌≡◌};
    ghost use Rattle.crossbeam_channel.specs.Claims.{IsSeatAt, view as view_of};
    ghost use Rattle.crossbeam_channel.specs.Ends.{sends_on, ruled_capacity};
    ghost use Rattle.load_orders.specs.AnswerChannels.{AnswerChannelId, none_sent};

    ghost Value = { AnswerChannelId };

    ghost view = { λ s. s.pass.table_id };

    ghost invariant = { λ s. IsSeatAt (sends_on s.sender) s.pass × (ruled_capacity (sends_on s.sender) ≡ 1)
        × (view_of s.pass ≡ none_sent) };
}

/// Where the worker that waits receives what came of the order. Contracts see which channel it is.
#[derive(Drop)]
pub struct AnswerReceiver<N: Drop, P: AnswerRule<N> = OneSender> {
    receiver: RuledReceiver<LoadAnswer<N>, AnswerView<N>, P, Global>,
    pass: Pass<LoadAnswer<N>, AnswerView<N>>,
}

impl<N: Drop, P: AnswerRule<N>> Model for AnswerReceiver<N, P> {
    ghost use Rattle.std.specs.Prelude.{◌≡◌};
    ghost use Rattle.crossbeam_channel.specs.Claims.{IsSeatAt, view as view_of};
    ghost use Rattle.crossbeam_channel.specs.Ends.{receives_on};
    ghost use Rattle.load_orders.specs.AnswerChannels.{AnswerChannelId, none_received};

    ghost Value = { AnswerChannelId };

    ghost view = { λ s. s.pass.table_id };

    ghost invariant = { λ s. IsSeatAt (receives_on s.receiver) s.pass × (view_of s.pass ≡ none_received) };
}

/// An answer channel that was used. Contracts see which, and the answers that were sent there, or received,
/// as its own end knows them.
#[derive(Drop)]
pub struct UsedAnswerEnd<N: Drop> {
    pass: Pass<LoadAnswer<N>, AnswerView<N>>,
}

impl<N: Drop> Model for UsedAnswerEnd<N> {
    ghost use Rattle.crossbeam_channel.specs.Claims.{view as view_of};
    ghost use Rattle.load_orders.specs.AnswerChannels.{AnswerEndValue, answers_of};

    ghost Value = { AnswerEndValue N };

    ghost view = { λ s. record { channel = s.pass.table_id; answers = answers_of (view_of s.pass) } };
}

/// A new answer channel for one answer: where it is sent, and where it is received.
pub(crate) fn answer_channel<N: Drop>(
    alloc: Global,
) -> Result<(AnswerSender<N>, AnswerReceiver<N>), AllocError>
    ensures { IfOk result (λ ends. ends.0 ≡ ends.1) }
{
    let (sender, receiver, mut pass) = bounded_with(alloc, 1)?;
    // The pass of a new channel is split: the part that stays with `pass` sends, the other one receives.
    let receiving = sender.another::<SplitsInTwo>(&mut pass);
    let awaited = AnswerReceiver {
        receiver,
        pass: receiving,
    };
    Ok((AnswerSender { sender, pass }, awaited))
}

impl<N: Drop> AnswerSender<N> {
    // Sends the answer to the worker that waits, if it still does.
    pub(crate) fn send<R: Wait>(self, rt: &R, answer: LoadAnswer<N>) -> UsedAnswerEnd<N>
        ensures { IsSentAt self answer result }
    {
        let AnswerSender { sender, mut pass } = self;
        drop(sender.try_send_as::<SendsAnswer, R>(rt, &mut pass, answer));
        UsedAnswerEnd { pass }
    }
}

impl<N: Drop, P: AnswerRule<N>> AnswerReceiver<N, P> {
    // Waits for the answer. None if the other end is gone and there is no answer: the contract says only that there was
    // none at one moment of the call; that the other end is gone, only tests show.
    pub(crate) fn receive<R: Wait>(self, rt: &R) -> (Option<LoadAnswer<N>>, UsedAnswerEnd<N>)
        ensures received { result.1 ≡ received_at self result.0 }
        ensures none { IfNone result.0 (WasEmpty P.Protocol.holds) }
    {
        let AnswerReceiver { receiver, mut pass } = self;
        let answer = receiver.recv_as::<ReceivesAnswer<P>, R>(rt, &mut pass).ok();
        (answer, UsedAnswerEnd { pass })
    }
}
