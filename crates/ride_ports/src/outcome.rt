//! How a session ran.

/// What kept a session from running whole, in the order in which its causes decide.
#[derive(Clone, Copy, Default, PartialEq, Eq)]
pub struct Ran {
    pub sink_failed: bool,
    pub no_memory: bool,
    pub source_failed: bool,
    pub too_long: bool,
}

impl Ran {
    ghost use Rattle.std.specs.Prelude.{◌≡◌};
    ghost use Rattle.ride_ports.specs.Status.{status_of};

    /// The exit status: 0 for a whole run, else that of the first cause.
    pub fn status(&self) -> u8
        ensures { result ≡ status_of self.now }
    {
        if self.sink_failed {
            6
        } else if self.no_memory {
            1
        } else if self.source_failed {
            5
        } else if self.too_long {
            8
        } else {
            0
        }
    }
}
