//! Images that several tests read.

use image_verifier::{Verified, verify};
use std::alloc::{AllocError, Global};

/// The image of these words. A refusal is returned as want of memory, since no other can occur.
pub fn image(alloc: Global, words: &[u32]) -> Result<Verified, AllocError> {
    verify(alloc, words.to_vec(alloc)?).map_err(|_refused| AllocError)
}

/// The sample in the second layout, with its first trip three times: at 09:00:00, 09:20:00 and 09:40:00, as repeats 0,
/// 1 and 2.
pub const REPEATED: [u32; 80] = [
    0x50415343, 2, 3, 4, 7, 3, 11, 1705276800, 0, 1, 2, 29520, 30000, 3, 3, 0, 1, 32400, 33000, 0,
    3, 1, 2, 33000, 34200, 0, 3, 0, 1, 33600, 34200, 1, 3, 1, 2, 34200, 35400, 1, 3, 0, 1, 34800,
    35400, 2, 3, 1, 2, 35400, 36600, 2, 3, 0, 1, 2, 3, 0, 0, 1, 0, 2, 0, 0, 1, 2, 3, 5, 7, 9, 11,
    20240115, 20240115, 20240115, 20240115, 0, 1, 2, 0, 0x54434241, 0x54315431, 0x00325431,
];
