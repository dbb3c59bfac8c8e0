//! How many sessions of a server ended in each way, and what the server reports of them at its end.

ghost use Rattle.std.specs.Prelude.{◌≡◌};
ghost use Rattle.command_requests.specs.Ending.{sessions_in, status_of};

use crate::statuses;

/// How many sessions ended in each way.
#[derive(Clone, Copy, Drop)]
pub struct SessionCounts {
    /// All lines were answered.
    pub ended: u64,
    /// The session couldn't be opened, or a read or a write failed.
    pub failed: u64,
    /// There were too many requests.
    pub spent: u64,
}

impl SessionCounts {
    /// How many sessions there were. The sum saturates.
    pub fn sessions(self) -> u64
        ensures { result ≡ sessions_in self }
    {
        self.ended
            .saturating_add(self.failed)
            .saturating_add(self.spent)
    }

    /// The exit status of the server; `is_deaf` says whether it failed to accept a session.
    pub fn status(self, is_deaf: bool) -> u8
        ensures { result ≡ status_of is_deaf self }
    {
        if is_deaf || self.failed > 0 {
            statuses::INPUT_OUTPUT
        } else if self.spent > 0 {
            statuses::REFUSED
        } else {
            statuses::ACCEPTED
        }
    }
}
