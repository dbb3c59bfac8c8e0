//! The events of the table of versions, and the replies to them.

/// What may happen to the table. Workers are numbered from 0 to 15, shelves from 0 to 7.
#[derive(Clone, Copy, PartialEq, Eq, Debug)]
pub enum Event {
    /// An idle worker looks at the current version.
    Look { worker: usize },
    /// A worker that has looked goes to the shelf that it saw.
    Take { worker: usize },
    /// A worker leaves the shelf that it holds, or at which it is late.
    Drop { worker: usize },
    /// A free shelf is opened with an edition, as the next version.
    Open { edition: u64 },
    /// The version that is open and unpublished becomes the current one.
    Publish,
    /// An open shelf whose version is neither current nor unpublished is closed.
    Close { shelf: usize },
    /// A closing shelf is freed, if no worker is there.
    Collect { shelf: usize },
    /// A worker asks for the version that it holds and its edition.
    Ask { worker: usize },
    /// A notice of the current version goes out.
    Note,
    /// A worker that is idle or holds a version takes in a notice of this version: from then on it
    /// has seen that version.
    Join { worker: usize, version: u64 },
}

/// The reply to an event.
#[derive(Clone, Copy, PartialEq, Eq, Debug)]
pub enum Reply {
    /// The current version, and its shelf.
    Looked { version: u64, shelf: usize },
    /// The worker holds the version that it had looked at.
    Holds { version: u64 },
    /// The shelf no longer has the version that the worker had looked at.
    Late,
    /// The worker is idle again.
    Dropped,
    /// The new version, and its shelf.
    Opened { version: u64, shelf: usize },
    /// No shelf is free. The counts say how many workers are at each of the eight.
    NoRoom { counts: [u8; 8] },
    /// The new current version.
    Published { version: u64 },
    /// The shelf is closing.
    Closing,
    /// The shelf is free.
    Freed,
    /// This many workers are still at the shelf.
    Busy { count: u8 },
    /// The version that the worker holds, and its edition.
    From { version: u64, edition: u64 },
    /// A notice of this version went out.
    Noted { version: u64 },
    /// The greatest version that the worker has seen.
    Joined { seen: u64 },
    /// The event isn't possible in this state, and changed nothing.
    NotNow,
}
