//! How long something takes.
use std::rt::Clock;
use std::time::{Duration, Instant};

/// A moment that the clock told, or none where it could not be read.
#[derive(Clone, Copy)]
pub(crate) struct Stopwatch {
    start: Option<Instant>,
}

impl Stopwatch {
    pub(crate) fn start(rt: &impl Clock) -> Stopwatch {
        Stopwatch {
            start: Instant::now(rt).ok(),
        }
    }

    /// The time since then. Where the clock cannot be read it is the longest time there is, which no reader takes for a time.
    pub(crate) fn elapsed(self, rt: &impl Clock) -> Duration {
        match self.start {
            Some(start) => start.elapsed(rt).unwrap_or(Duration::MAX),
            None => Duration::MAX,
        }
    }
}
