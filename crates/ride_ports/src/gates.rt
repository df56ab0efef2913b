//! Places at which a test may make a thread wait.

/// A gate has no meaning for what a caller does: passing it returns, sooner or later.
pub trait Gate: Sync {
    /// Passes the place of this number.
    fn pass(&self, place: u32);
}

/// The gate that returns at once.
#[derive(Clone, Copy, Default, PartialEq, Eq)]
pub struct OpenGate;

impl Gate for OpenGate {
    fn pass(&self, _place: u32) {}
}
