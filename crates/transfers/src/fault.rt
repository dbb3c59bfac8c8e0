//! Why a feed's footpaths aren't listed.

use std::alloc::AllocError;
use thiserror::Error;

/// Why a feed's footpaths aren't listed.
#[derive(Clone, Copy, Debug, PartialEq, Eq, Error)]
pub enum ListingFault {
    #[error("there are more footpaths than are allowed")]
    TooMany,
    #[error("out of memory")]
    OutOfMemory,
}

impl From<AllocError> for ListingFault {
    ghost use Rattle.std.specs.Prelude.{◌≡◌};
    ghost use Rattle.transfers.specs.declared.fault.ListingFault.TheVariants.{OutOfMemory};

    ghost from_gives = { λ _ outcome. outcome ≡ OutOfMemory };

    fn from(_: AllocError) -> ListingFault {
        ListingFault::OutOfMemory
    }
}
