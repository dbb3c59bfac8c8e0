//! What was found at the closing shelves: which were freed, and how many workers are still at the others.

/// What the tries at the closing shelves found.
#[derive(Clone, Copy, Debug, PartialEq, Eq)]
pub struct Collected {
    /// The shelves that these tries freed.
    pub freed: [bool; 8],
    /// How many workers are still at each closing shelf. 0 for the others.
    pub busy: [u8; 8],
}
