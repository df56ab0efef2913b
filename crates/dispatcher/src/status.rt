//! The exit statuses.
ghost use Rattle.std.specs.Prelude.{◌≡◌};
ghost use Rattle.dispatcher.specs.inner.Statuses.{code_of};

/// How a run ended.
#[derive(Clone, Copy)]
pub enum Status {
    /// The whole run was done.
    Whole,
    NoMemory,
    /// The words are not in order.
    WordsRefused,
    MapRefused,
    FleetRefused,
    /// The shelf, or a source that it brought, failed.
    SourceFailed,
    SinkFailed,
    /// An audit found the log wrong.
    LogWrong,
    /// A source gave more than its limit.
    LimitPassed,
}

impl Status {
    /// Returns the exit status.
    pub fn code(self) -> u8
        ensures { result ≡ code_of self }
    {
        match self {
            Status::Whole => 0,
            Status::NoMemory => 1,
            Status::WordsRefused => 2,
            Status::MapRefused => 3,
            Status::FleetRefused => 4,
            Status::SourceFailed => 5,
            Status::SinkFailed => 6,
            Status::LogWrong => 7,
            Status::LimitPassed => 8,
        }
    }
}
