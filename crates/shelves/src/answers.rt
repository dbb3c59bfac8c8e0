//! What seats were answered so far.

use crate::collected::Collected;
use crate::faults::{PinFault, PublishFault};
use image_verifier::Verified;
use std::snapshot::Snapshot;

/// An answer to a worker's seat. Only contracts see it.
#[derive(Drop)]
pub enum SeatAnswer {
    Pinned {
        version: u64,
        image: Snapshot<Verified>,
    },
    PinRefused {
        fault: PinFault,
    },
    Released,
    ReleaseRefused {
        fault: PinFault,
    },
}

/// An answer to the loader's seat. Only contracts see it.
#[derive(Drop)]
pub enum LoaderAnswer {
    Published {
        version: u64,
        image: Snapshot<Verified>,
    },
    PublishRefused {
        fault: PublishFault,
    },
    Collected {
        found: Collected,
    },
}
