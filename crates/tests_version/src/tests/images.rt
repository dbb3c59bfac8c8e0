//! Images that can be told apart.

use image_layout::sample_words;
use image_verifier::{Verified, verify};
use std::alloc::{AllocError, Global};
use std::sync::Arc;

/// The sample with another base, in seconds.
pub(crate) fn image(alloc: Global, base: u32) -> Result<Arc<Verified, Global>, AllocError> {
    let mut words = sample_words().to_vec(alloc)?;
    if let Some(word) = words.get_mut(7) {
        *word = base;
    }
    let Ok(image) = verify(alloc, words) else {
        return Err(AllocError);
    };
    match Arc::new(alloc, image) {
        Ok(shared) => Ok(shared),
        Err(_) => Err(AllocError),
    }
}

/// An image that may become versions, and where their slots are made.
#[derive(Drop)]
pub(crate) struct ImageSource {
    pub(crate) alloc: Global,
    pub(crate) image: Arc<Verified, Global>,
}

impl ImageSource {
    pub(crate) fn new(alloc: Global, base: u32) -> Result<ImageSource, AllocError> {
        let image = image(alloc, base)?;
        Ok(ImageSource { alloc, image })
    }
}
