//! The feeds that may be ordered.

ghost use Rattle.std.specs.Prelude.{◌≡◌, ◌≤◌, [], length, IfOk, MatchOption, MatchResult};
ghost use Rattle.feed_loader.specs.declared.plan.Plan.{Plan};
ghost use Rattle.feed_loads.specs.Loading.{HasDays};
ghost use Rattle.feed_loads.specs.Words.{FeedWords};

use crate::loading::LoadedVersion;
use crate::refusal::LoadRefusal;
use feed_loader::{FeedFiles, Plan};
use load_orders::DrawPermit;
use std::alloc::{AllocError, Global};
use std::io::Write;
use std::time::Instant;

/// The feeds that may be ordered by their names.
pub trait Feeds {
    type Files: FeedFiles + Send + Drop;

    /// The leave, or permission, to load these feeds. A server has one, and uses it up when it makes its queue of
    /// orders.
    type Leave: Send + Drop;

    // Their names, by index; whether these are the files of the feed at an index; and whether a feed may be loaded by
    // this plan.
    ghost words: { FeedWords Self Self.Files };

    /// Their names, by index.
    fn names(&self) -> &[String]
        ensures { result.now ≡ words.named self.now };

    /// The plan by which the next feed is loaded. It is made anew for each load, since it may depend on a clock. It
    /// fails only if memory runs out, and never since there is no plan.
    fn plan(&self, alloc: Global) -> Result<Plan, AllocError>
        ensures plan { MatchResult result (words.is_plan self.now)
            (λ _. (plan : Plan) × words.is_plan self.now plan) }
        ensures days { IfOk result HasDays };

    /// The files of the feed at the index, of which no read has failed yet. None only if there is no such feed. The
    /// permit is used up: the server's queue of orders gives one with each order, and nothing else makes any.
    fn files(&self, index: usize, permit: DrawPermit<Self::Leave>) -> Option<Self::Files>
        ensures { MatchOption result (length (words.named self.now) ≤ index)
            (λ files. (Self.Files.words.failed files ≡ [])
            × words.are_files self.now index files) };

    /// Called before the feed at the index is loaded. Returns the instant at which that is, for `finish`, or none.
    fn begin(&self, index: usize) -> Option<Instant>;

    /// Called when that load has ended and the loader has written its own line, with the writer of that line. Nothing
    /// else depends on what is done here.
    fn finish<E: Write>(
        &self,
        errors: &mut E,
        index: usize,
        begun: Option<Instant>,
        outcome: Result<LoadedVersion, LoadRefusal>,
    );
}
