//! Why a text is no journey.

ghost use Rattle.std.specs.Prelude.{◌≡◌};
ghost use Rattle.journeys.specs.Numbers.{text_name, text_number};
ghost use Rattle.journeys.specs.declared.text_fault.TextFault.TheVariants.{OutOfMemory};

use reasoning::variant_name;
use std::alloc::AllocFailed;
use thiserror::Error;

/// Why no journey is read from a text.
#[derive(Clone, Copy, Debug, PartialEq, Eq, Error)]
pub enum TextFault {
    #[error("the text isn't that of a journey")]
    BadText,
    #[error("out of memory")]
    OutOfMemory,
}

impl TextFault {
    /// The fault's number, 80; out of memory has none.
    pub fn number(self) -> Option<u8>
        ensures { result ≡ text_number self }
    {
        match self {
            TextFault::BadText => Some(80),
            TextFault::OutOfMemory => None,
        }
    }

    /// The fault's name, as `BadText`.
    pub fn name(self) -> &'static str
        ensures { result.now ≡ text_name self }
    {
        variant_name!(self, TextFault: BadText, OutOfMemory)
    }
}

impl<T: Drop> From<AllocFailed<T>> for TextFault {
    ghost from_gives = { λ _ e. e ≡ OutOfMemory };

    fn from(_e: AllocFailed<T>) -> TextFault {
        TextFault::OutOfMemory
    }
}
