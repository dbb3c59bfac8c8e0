//! Orders, and the rule of the queue in which they wait.

use crate::answer_channels::AnswerSender;
use handoff::{EachItemOnce, PutEnd, PutRule};

/// An order to load a feed: its index in the list of feeds, and the answer channel to the worker that waits for what
/// comes of it, if one does.
#[derive(Drop)]
pub struct Order<N: Drop> {
    pub feed: usize,
    pub answer_channel: Option<AnswerSender<N>>,
}

/// An end of the queue at which orders are put.
pub type OrderEnd<N> = PutEnd<Order<N>, EachItemOnce<4>>;

/// A rule of queues in which four orders may wait.
pub trait OrderRule<N: Drop>: PutRule<Order<N>> {
    ghost use Rattle.std.specs.Prelude.{◌≡◌};

    ghost four: { Self.room ≡ 4 };
}

impl<N: Drop> OrderRule<N> for EachItemOnce<4> {
    ghost use Rattle.load_orders.specs.Asking.{four_wait};

    ghost four = { four_wait };
}
