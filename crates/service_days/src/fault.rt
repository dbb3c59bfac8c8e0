//! What can be wrong with a zone or with a day.

ghost use Rattle.std.specs.Prelude.{◌≡◌};
ghost use Rattle.service_days.specs.Faults.{numbered_fault};

use reasoning::variant_name;
use thiserror::Error;

/// Why there is no zone, or no start of a day.
#[derive(Clone, Copy, Debug, PartialEq, Eq, Error)]
pub enum DayFault {
    #[error("the time zone is refused")]
    BadZone = 21,
    #[error("the day isn't a civil date, or its noon has no instant")]
    DayOutOfRange = 22,
    #[error("out of memory")]
    OutOfMemory = 23,
}

impl DayFault {
    /// Returns the number of the fault.
    pub fn number(self) -> u8
        ensures { result ≡ (numbered_fault self).0 }
    {
        self as u8
    }

    /// Returns the name of the fault, such as `BadZone`.
    pub fn name(self) -> &'static str
        ensures { result.now ≡ (numbered_fault self).1 }
    {
        variant_name!(self, DayFault: BadZone, DayOutOfRange, OutOfMemory)
    }
}
