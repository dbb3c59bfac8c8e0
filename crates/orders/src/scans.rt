//! What is notified of scans.

/// Is notified of each scan that a session makes.
pub trait Gate {
    /// A scan is about to begin.
    fn enter(&self);

    /// The scan is over, and its reply was written or couldn't be.
    fn leave(&self);
}

/// A gate that does nothing.
#[derive(Clone, Copy, Debug, Drop)]
pub struct OpenGate;

impl Gate for OpenGate {
    fn enter(&self) {}

    fn leave(&self) {}
}
