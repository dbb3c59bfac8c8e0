//! Departures with their arrivals.

/// A departure and its arrival, in seconds after the base.
#[derive(Clone, Copy, Debug, PartialEq, Eq)]
pub struct Span {
    pub departure: u32,
    pub arrival: u32,
}

impl Span {
    ghost use Rattle.std.specs.Prelude.{◌≡◌};
    ghost use Rattle.travel_times.specs.Figures.{travel};

    /// The seconds from the departure to the arrival; 0 if that isn't after it.
    pub fn travel(self) -> u32
        ensures { result ≡ travel self }
    {
        self.arrival.saturating_sub(self.departure)
    }
}
