//! An edition: a version with its verified image.

use image_verifier::Verified;
use std::alloc::Global;
use std::sync::Arc;

/// A version and its image.
#[derive(Drop)]
pub struct Edition {
    pub version: u64,
    pub image: Arc<Verified, Global>,
}
