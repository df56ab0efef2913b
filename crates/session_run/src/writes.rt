//! What a session writes.
ghost use Rattle.std.specs.Prelude.{◌≡◌};
ghost use Rattle.session_run.specs.inner.Writing.{reach_of};

/// What a session writes: its log, or the sheets of its batches.
#[derive(Clone, Copy)]
pub(crate) enum Writes {
    Log,
    /// Each vehicle is sent ahead within this reach of seconds.
    Sheets(u64),
}

impl Writes {
    /// The reach of the sheets, where these are written.
    pub(crate) fn reach(&self) -> Option<u64>
        ensures { result ≡ reach_of self.now }
    {
        match self {
            Writes::Log => None,
            Writes::Sheets(reach) => Some(*reach),
        }
    }
}
