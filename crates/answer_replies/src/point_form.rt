//! The form in which a profile's reply has journeys.

/// What the reply to a profile has of each point's journey.
#[derive(Clone, Copy, Debug, PartialEq, Eq)]
pub enum PointForm {
    /// Only its text, in numbers of the image.
    Bare,
    /// Its text, and its legs with the names of stops and trips.
    WithLegs,
}
