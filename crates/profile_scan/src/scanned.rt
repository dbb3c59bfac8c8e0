//! In which form a scan keeps trips and stops, by criterion.

use by_arrival::ByArrival;
use by_trips::ByTrips;
use criteria::{Arrival, ArrivalTrips, ArrivalTripsWalk, Criterion};
use scan_state::{InLists, Keeping};

/// A criterion by which one can scan: it chooses the form in which a scan keeps labels of trips and points of stops.
///
/// The answer doesn't depend on the form, only the time and the memory that it takes. `InLists<Self>` is right for any
/// criterion. A form of its own pays for a criterion whose values fit a fixed number of words, so that a whole front is
/// compared at once.
pub trait Scanned: Criterion {
    /// What a scan by this criterion keeps.
    type Kept: Keeping<Self>;
}

impl Scanned for Arrival {
    type Kept = ByArrival;
}

impl Scanned for ArrivalTrips {
    type Kept = ByTrips;
}

impl Scanned for ArrivalTripsWalk {
    type Kept = InLists<Self>;
}
