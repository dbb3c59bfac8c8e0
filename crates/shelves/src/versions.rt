//! What a session needs of shelves, and what a loader needs.

ghost use Rattle.std.specs.Prelude.{◌≡◌, ◌+◌, None, Some, MatchOption, MatchResult, IfErr, IfOk};
ghost use Rattle.std.specs.Arc.{arc_value};
ghost use Rattle.shelves.specs.Seats.{ShowsPin, ShowsRelease, ShowsJoin, ShowsPublish, ShowsRefusal, ShowsCollection};
ghost use Rattle.shelves.specs.Seats.{KnowsItsSeats};
ghost use Rattle.shelves.specs.SeatHistory.{HoldsAsKnown, EndsPin, EndsRelease, IsPublished, EndsPublish};
ghost use Rattle.shelves.specs.SeatHistory.{FindsByTries, EachClosingIsTried, IsFullByTries, EndsRefused};
ghost use Rattle.shelves.specs.ShelfLoads.{IsSpentAt};
ghost use Rattle.shelves.specs.Words.{LoaderStillFits, LoaderWords, SeatWords, StillFits};

use crate::collected::Collected;
use crate::faults::{PinFault, PublishFault};
use image_verifier::Verified;
use shelf_steps::Edition;
use std::alloc::Global;
use std::sync::Arc;

/// Shelves from which workers' seats pin versions.
pub trait Versions {
    type Seat;

    /// The fact that a version was published at these shelves.
    type Notice;

    // What contracts say of seats and notices.
    ghost words: { SeatWords Self Self.Seat Self.Notice };

    /// Pins the version that a look of this call finds current. Refused with `AlreadyPinned` if the seat holds a
    /// version, and with `Moved` if each version that was found was gone before it could be held; the last look found
    /// `newest`.
    fn pin(&self, seat: &mut Self::Seat) -> Result<(), PinFault>
        requires { words.fits self.now seat.old }
        ensures still { StillFits words self.now seat.old seat.new }
        ensures pin { ShowsPin (words.shown seat.old) result (words.shown seat.new) }
        ensures refused { IfErr result KnowsItsSeats }
        ensures known { HoldsAsKnown (words.known seat.new) (words.number seat.new) (words.shown seat.new).held }
        ensures ends { EndsPin (words.known seat.old) (words.number seat.old) result (words.shown seat.new).held
            (words.known seat.new) };

    /// The version that the seat holds, with the image that the history published as that version; `None` if it holds
    /// none.
    fn edition(seat: &Self::Seat) -> Option<&Edition>
        ensures known { HoldsAsKnown (words.known seat.now) (words.number seat.now) (words.shown seat.now).held }
        ensures lent { MatchOption result ((words.shown seat.now).held ≡ None) (λ e. (words.shown seat.now).held
            ≡ Some (e.now.version, arc_value e.now.image)) };

    /// Releases the version that the seat holds; refused with `NotPinned` if it holds none.
    fn release(&self, seat: &mut Self::Seat) -> Result<(), PinFault>
        requires { words.fits self.now seat.old }
        ensures still { StillFits words self.now seat.old seat.new }
        ensures release { ShowsRelease (words.shown seat.old) result (words.shown seat.new) }
        ensures refused { IfErr result KnowsItsSeats }
        ensures ends { EndsRelease (words.known seat.old) (words.number seat.old) result (words.known seat.new) };

    /// Takes in the notice: from now on the seat has seen its version. Nothing else changes, and the seat learns
    /// nothing of the history.
    fn join(&self, seat: &mut Self::Seat, notice: Self::Notice)
        requires { words.fits self.now seat.old }
        ensures still { StillFits words self.now seat.old seat.new }
        ensures join { ShowsJoin (words.shown seat.old) (words.version notice) (words.shown seat.new) }
        ensures same { words.known seat.new ≡ words.known seat.old };

    /// The version that the notice is of.
    fn version_of(notice: &Self::Notice) -> u64
        ensures { result ≡ words.version notice.now };
}

/// Shelves on which one loader publishes versions.
pub trait Loads: Versions {
    type Loader;

    // What contracts say of the loader's seat.
    ghost words: { LoaderWords Self Self.Loader };

    /// Publishes the image as the next version, and returns that version with a notice of it. A refusal returns the
    /// image: with `VersionsSpent` exactly if the current version is the last that there is; with `ShelvesFull` if each
    /// closing shelf was tried and found in use; or with `OutOfMemory`.
    fn publish(
        &self,
        loader: &mut Self::Loader,
        image: Arc<Verified, Global>,
    ) -> Result<(u64, Option<Self::Notice>), (Arc<Verified, Global>, PublishFault)>
        requires { words.fits self.now loader.old }
        ensures still { LoaderStillFits words self.now loader.old loader.new }
        ensures back { IfErr result (λ e. e.0 ≡ image) }
        ensures current { MatchResult result (λ r. words.current loader.new ≡ r.0) (λ _. words.current loader.new
            ≡ words.current loader.old) }
        ensures next { IfOk result (λ r. r.0 ≡ words.current loader.old + 1) }
        ensures loader { MatchResult result (λ r.
            ShowsPublish (words.answers loader.old) (arc_value image) r.0 (words.answers loader.new))
            (λ e. ShowsRefusal (words.answers loader.old) e.1 (words.answers loader.new)) }
        ensures spent { IfErr result (λ e. IsSpentAt (words.current loader.old) e.1) }
        ensures full { IfErr result (λ e. IsFullByTries (words.known loader.old) e.1 (words.known loader.new)) }
        ensures refused { IfErr result (λ _. EndsRefused (words.known loader.old) (words.known loader.new)) }
        ensures notice { IfOk result (λ r. MatchOption r.1 ⊥ (λ n. Self.Versions.words.version n ≡ r.0)) }
        ensures published { IfOk result (λ r. IsPublished (words.known loader.new) r.0 (arc_value image)) }
        ensures ends { IfOk result (λ r. EndsPublish (words.known loader.old) r.0 (words.known loader.new)) };

    /// Tries each closing shelf once, and frees it if no worker is there.
    fn collect(&self, loader: &mut Self::Loader) -> Collected
        requires { words.fits self.now loader.old }
        ensures still { LoaderStillFits words self.now loader.old loader.new }
        ensures current { words.current loader.new ≡ words.current loader.old }
        ensures loader { ShowsCollection (words.answers loader.old) result (words.answers loader.new) }
        ensures tries { FindsByTries (words.known loader.old) result (words.known loader.new) }
        ensures all { EachClosingIsTried (words.known loader.old) result };
}
