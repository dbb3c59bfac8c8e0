//! What is printed of a value, in a line or in a reply.

ghost use Rattle.std.specs.Prelude.{◌≡◌};
ghost use Rattle.criteria.specs.declared.figures.Figures.{Figures};

use crate::Criterion;

/// What is printed of a value: the arrival, in seconds after the base, and what else the criterion counts.
#[derive(Clone, Copy, Debug, PartialEq, Eq)]
pub struct Figures {
    pub arrival: u32,
    /// How many trips are ridden.
    pub trips: Option<u32>,
    /// The seconds of all footpaths.
    pub walked: Option<u32>,
}

/// A criterion whose values can be printed.
pub trait ShowsFigures: Criterion {
    // what is printed of each value
    ghost figures: { Self.V → Figures };

    /// What is printed of a value.
    fn figures_of(&self, value: &Self::V) -> Figures
        ensures { result ≡ figures value.now };

    // different values print differently
    ghost tells_apart: { (v w : Self.V) → figures v ≡ figures w → v ≡ w };
}
