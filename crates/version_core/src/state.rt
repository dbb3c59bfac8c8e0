//! The parts of the table of versions: shelves, workers, and the greatest version.

/// The greatest version.
pub const MOST_VERSIONS: u64 = 1_000_000_000;

/// What a shelf is for.
#[derive(Clone, Copy, PartialEq, Eq, Debug)]
pub enum Shelf {
    /// No version stands here, though late workers may still be counted.
    Free,
    /// Workers that have looked at this version may take it.
    Open { version: u64 },
    /// The version stays until the last worker has left.
    Closing { version: u64 },
}

/// What a worker is doing.
#[derive(Clone, Copy, PartialEq, Eq, Debug)]
pub enum Worker {
    /// It is at no shelf.
    Idle,
    /// It saw this version as the current one, on this shelf.
    Looked { version: u64, shelf: usize },
    /// It took this shelf after the version that it had looked at was gone. It is counted there all the same.
    Late { shelf: usize },
    /// It holds the version on this shelf.
    Holding { shelf: usize, version: u64 },
}
