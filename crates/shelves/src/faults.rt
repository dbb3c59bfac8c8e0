//! Why a version wasn't pinned, released or published.

ghost use Rattle.std.specs.Prelude.{◌≡◌};
ghost use Rattle.shelves.specs.FaultNumber.{pin_fault_number, pin_fault_name, publish_fault_number, publish_fault_name};

use reasoning::variant_name;
use thiserror::Error;

/// Why a pin or a release was refused.
#[derive(Clone, Copy, Debug, PartialEq, Eq, Error)]
pub enum PinFault {
    /// Each version that a look found was gone before it could be held. `newest` is the last of them.
    #[error("each version was gone before it could be held; the last was version {newest}")]
    Moved { newest: u64 },
    #[error("the seat holds a version already")]
    AlreadyPinned,
    #[error("the seat holds no version")]
    NotPinned,
    /// The shelves say something else of the seat's worker than the seat does.
    #[error("the shelves and the seat disagree about the seat's worker")]
    SeatLost,
    #[error("out of memory")]
    OutOfMemory,
}

impl PinFault {
    /// The fault's number: 91 to 93, 97 or 98.
    pub fn number(self) -> u8
        ensures { result ≡ pin_fault_number self }
    {
        match self {
            PinFault::Moved { newest: _ } => 91,
            PinFault::AlreadyPinned => 92,
            PinFault::NotPinned => 93,
            PinFault::SeatLost => 97,
            PinFault::OutOfMemory => 98,
        }
    }

    /// The fault's name, such as `SeatLost`.
    pub fn name(self) -> &'static str
        ensures { result.now ≡ pin_fault_name self }
    {
        variant_name!(self, PinFault: Moved, AlreadyPinned, NotPinned, SeatLost, OutOfMemory)
    }
}

/// Why an image wasn't published.
#[derive(Clone, Copy, Debug, PartialEq, Eq, Error)]
pub enum PublishFault {
    /// Workers are at each shelf but the current one. `counts` says how many are at each, and has 0 for the current
    /// one.
    #[error("workers are at every shelf but the current one: {counts:?}")]
    ShelvesFull { counts: [u8; 8] },
    /// The last version that there is was published.
    #[error("no version number is left")]
    VersionsSpent,
    #[error("out of memory")]
    OutOfMemory,
}

impl PublishFault {
    /// The fault's number, from 94 to 96.
    pub fn number(self) -> u8
        ensures { result ≡ publish_fault_number self }
    {
        match self {
            PublishFault::ShelvesFull { counts: _ } => 94,
            PublishFault::VersionsSpent => 95,
            PublishFault::OutOfMemory => 96,
        }
    }

    /// The fault's name, such as `ShelvesFull`.
    pub fn name(self) -> &'static str
        ensures { result.now ≡ publish_fault_name self }
    {
        variant_name!(self, PublishFault: ShelvesFull, VersionsSpent, OutOfMemory)
    }
}
