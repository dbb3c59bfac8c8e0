//! Orders to load a feed.

ghost use Rattle.std.specs.Prelude.{◌≡◌, ℕ, List, [], ◌∷◌, ◌++◌, IfErr, IfOk};
ghost use Rattle.orders.specs.Ordering.{IsNotTaken, OrderValue, order_value, version_alone, waited_value};

use crate::fault::OrderFault;

/// Takes orders to load a feed by its name.
pub trait Orders {
    /// The fact that a version was published.
    type Notice;

    // What orders depend on, such as a queue and the feeds that there are. No call changes it.
    ghost Route: { Type 0 } = { Unit {0} };

    ghost route: { Self → Self.Route };

    // The orders that were asked for so far, taken or not.
    ghost asked: { Self → List OrderValue };

    // The version that a notice is of.
    ghost notice_version: { Self.Notice → ℕ };

    /// Orders a load of the feed. `Ok` says that the order was taken, which promises no load; the outcome isn't
    /// reported here.
    fn order(&mut self, feed: &str) -> Result<(), OrderFault>
        ensures asked { asked self.new ≡ asked self.old ++ order_value feed.now result ∷ [] }
        ensures route { Self.route self.new ≡ Self.route self.old }
        ensures refused { IfErr result IsNotTaken };

    /// Orders a load of the feed, waits for the outcome, and returns the version as which the feed was published, with
    /// a notice of it. With `OutOfMemory`, a version may have been published that isn't reported here.
    fn order_wait(&mut self, feed: &str) -> Result<(u64, Self::Notice), OrderFault>
        ensures asked { asked self.new ≡ asked self.old ++ waited_value feed.now (version_alone result) ∷ [] }
        ensures route { Self.route self.new ≡ Self.route self.old }
        ensures notice { IfOk result (λ r. notice_version r.1 ≡ r.0) };
}
