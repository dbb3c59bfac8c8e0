//! Laws of listed footpaths. The functions do nothing: their contracts are the laws.

ghost use Rattle.std.specs.Prelude.{◌≡◌};

use crate::claims::{MAX_SECS, USUAL_SECS};

/// The longest and the usual time of a transfer, in seconds.
pub fn limits()
    ensures longest { MAX_SECS ≡ 86400 }
    ensures usual { USUAL_SECS ≡ 120 }
{}
