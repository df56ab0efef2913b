//! Who acts, and what feeds ask for.

/// Who makes an entry of the history. Feeds and desks are numbered from 1.
#[derive(Clone, Copy, PartialEq, Eq)]
pub enum Actor {
    Feed(u8),
    Desk(u8),
}

/// A line of a feed. Its numbers are as the line has them; a command with one out of its range is refused.
#[derive(Clone, Copy, PartialEq, Eq)]
pub enum Command {
    /// A rider asks for a ride.
    Request {
        id: u64,
        from: u64,
        to: u64,
        seats: u64,
        latest: u64,
        longest: u64,
        chairs: u64,
    },
    /// A rider takes a request back.
    Cancel {
        id: u64,
    },
    /// A driver reports a place and a time.
    At {
        vehicle: u64,
        node: u64,
        time: u64,
    },
    /// A driver has served the first stop.
    Done {
        vehicle: u64,
    },
    /// A driver comes on duty.
    On {
        vehicle: u64,
    },
    /// A driver goes off duty.
    Off {
        vehicle: u64,
    },
    /// The clock is at least at this time.
    Clock {
        time: u64,
    },
    /// One more batch is asked for.
    Ask,
    /// The line of this number, which is none of these.
    Bad {
        line: u64,
    },
}
