//! What a command is answered, and what becomes of a request.
ghost use Rattle.std.specs.Prelude.{◌≡◌};

use crate::Ids;

/// The answer to a command.
#[derive(Drop)]
pub enum Reply {
    /// The request is accepted and waits.
    Waiting,
    /// The request is cancelled, and no vehicle had it.
    Cancelled,
    /// The request is cancelled, and its vehicle's plan is free of it.
    Freed { vehicle: u64 },
    /// The report is not later than planned.
    OnMap,
    /// The report is later than planned by so many seconds, and breaks the promises to these rides.
    Late { seconds: u64, broken: Ids },
    Picked { ride: u64 },
    Dropped { ride: u64 },
    /// Duty is as the driver says.
    Duty,
    /// The clock's time.
    Now { time: u64 },
    /// So many batches have been asked for.
    Asked { count: u64 },
    /// A line that is no command.
    Noted,
    /// The command changes nothing, for the reason of this code.
    Refused { code: u8 },
}

impl Reply {
    /// An equal reply.
    pub fn copy(&self) -> Reply
        ensures { result ≡ self.now }
    {
        match self {
            Reply::Waiting => Reply::Waiting,
            Reply::Cancelled => Reply::Cancelled,
            Reply::Freed { vehicle } => Reply::Freed { vehicle: *vehicle },
            Reply::OnMap => Reply::OnMap,
            Reply::Late { seconds, broken } => Reply::Late {
                seconds: *seconds,
                broken: broken.copy(),
            },
            Reply::Picked { ride } => Reply::Picked { ride: *ride },
            Reply::Dropped { ride } => Reply::Dropped { ride: *ride },
            Reply::Duty => Reply::Duty,
            Reply::Now { time } => Reply::Now { time: *time },
            Reply::Asked { count } => Reply::Asked { count: *count },
            Reply::Noted => Reply::Noted,
            Reply::Refused { code } => Reply::Refused { code: *code },
        }
    }
}

/// What has become of an accepted request.
#[derive(Clone, Copy, PartialEq, Eq)]
pub enum RequestState {
    Waiting,
    /// It is in the open batch of this number.
    InBatch(u64),
    /// The vehicle of this id has promised it.
    Confirmed(u64),
    /// It rides in the vehicle of this id.
    Aboard(u64),
    Done,
    /// The batch of this number turned it away.
    Away(u64),
    Cancelled,
}
