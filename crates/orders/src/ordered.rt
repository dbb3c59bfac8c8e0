//! Orders as contracts see them.

use crate::fault::OrderFault;
use std::collections::LinkedList;
use std::marker::Model;
use timetable::GhostValue;

/// The answer to an order.
#[derive(Clone, Copy, Debug, PartialEq, Eq)]
pub enum OrderOutcome {
    /// Whether an order that nobody waits for was taken.
    Put { taken: Result<(), OrderFault> },
    /// The version that an order that was waited for gave, or why it gave none.
    Waited { version: Result<u64, OrderFault> },
}

/// An order that was asked for: the feed's name, which only contracts see, and the answer.
#[derive(Drop)]
pub struct OrderRecord {
    feed: GhostValue<LinkedList<u8>>,
    outcome: OrderOutcome,
}

impl Model for OrderRecord {
    ghost use Rattle.orders.specs.Ordering.{OrderValue};

    ghost Value = { OrderValue };

    ghost view = { λ o. record { feed = o.feed.value; outcome = o.outcome } };
}

impl OrderRecord {
    ghost use Rattle.std.specs.Prelude.{◌≡◌};
    ghost use Rattle.orders.specs.Ordering.{order_value, version_alone, waited_value};

    /// An order that nobody waits for. It takes no memory.
    pub fn put(feed: &str, taken: Result<(), OrderFault>) -> OrderRecord
        ensures { result ≡ order_value feed.now taken }
    {
        OrderRecord {
            feed: GhostValue::at(&feed, &()),
            outcome: OrderOutcome::Put { taken },
        }
    }

    /// An order that was waited for, by its answer: a version with a notice of it, or a fault. It takes no memory.
    pub fn waited<N>(feed: &str, waited_for: &Result<(u64, N), OrderFault>) -> OrderRecord
        ensures { result ≡ waited_value feed.now (version_alone waited_for.now) }
    {
        let version = match waited_for {
            Ok((version, _)) => Ok(*version),
            Err(fault) => Err(*fault),
        };
        OrderRecord {
            feed: GhostValue::at(&feed, &()),
            outcome: OrderOutcome::Waited { version },
        }
    }
}
