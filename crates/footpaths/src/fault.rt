//! Why listed footpaths have no closure.

ghost use Rattle.std.specs.Prelude.{◌≡◌};
ghost use Rattle.footpaths.specs.declared.fault.FootFault.TheVariants.{OutOfMemory};

use reasoning::variant_name;
use std::alloc::AllocError;
use thiserror::Error;

/// Why a closure isn't made.
#[derive(Clone, Copy, Debug, PartialEq, Eq, Error)]
pub enum FootFault {
    /// A footpath of the closure takes more than `timetable::limits::MAX_WALK_SECS`.
    #[error("a walk takes too long")]
    WalkTooLong = 41,
    /// The closure has more footpaths than `timetable::limits::MAX_FOOTPATHS`.
    #[error("there are too many footpaths")]
    TooManyFootpaths = 42,
    #[error("out of memory")]
    OutOfMemory = 43,
}

impl FootFault {
    ghost use Rattle.std.specs.Prelude.{codes};
    ghost use Rattle.footpaths.specs.FaultNumber.{numbered_fault};

    /// The number of the fault, from 41 to 43.
    pub fn number(self) -> u8
        ensures { result ≡ (numbered_fault self).0 }
    {
        self as u8
    }

    /// The name of the fault, such as `WalkTooLong`.
    pub fn name(self) -> &'static str
        ensures { result.now ≡ (numbered_fault self).1 }
    {
        variant_name!(self, FootFault: WalkTooLong, TooManyFootpaths, OutOfMemory)
    }
}

impl From<AllocError> for FootFault {
    ghost from_gives = { λ _ e. e ≡ OutOfMemory };

    fn from(_e: AllocError) -> FootFault {
        FootFault::OutOfMemory
    }
}
