//! Why an order isn't taken.

ghost use Rattle.std.specs.Prelude.{◌≡◌};
ghost use Rattle.orders.specs.Ordering.{order_fault_name, order_fault_number};

use reasoning::variant_name;
use thiserror::Error;

/// Why an order to load a feed wasn't taken, or why one that was waited for gave no version.
#[derive(Clone, Copy, Debug, PartialEq, Eq, Error)]
pub enum OrderFault {
    #[error("there is no feed of this name")]
    UnknownFeed,
    /// As many orders as may wait are waiting.
    #[error("too many orders are waiting")]
    OrdersFull,
    /// The feed's load or its publish was refused, with this number.
    #[error("the load was refused with fault {refusal}")]
    LoadRefused { refusal: u8 },
    /// There was no memory to wait, or none to report the version that was published.
    #[error("out of memory")]
    OutOfMemory,
    #[error("the loader no longer takes orders")]
    LoaderGone,
}

impl OrderFault {
    /// The fault's number: 114 to 116, 120 or 121.
    pub fn number(self) -> u8
        ensures { result ≡ order_fault_number self }
    {
        match self {
            OrderFault::UnknownFeed => 114,
            OrderFault::OrdersFull => 115,
            OrderFault::OutOfMemory => 116,
            OrderFault::LoadRefused { refusal: _ } => 120,
            OrderFault::LoaderGone => 121,
        }
    }

    /// The fault's name, such as `OrdersFull`.
    pub fn name(self) -> &'static str
        ensures { result.now ≡ order_fault_name self }
    {
        variant_name!(
            self, OrderFault:
            UnknownFeed, OrdersFull, OutOfMemory, LoadRefused, LoaderGone
        )
    }
}
