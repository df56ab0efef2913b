//! How a feed is read.
ghost use Rattle.std.specs.Prelude.{◌≡◌};
ghost use Rattle.command_lines.specs.Limits.{new_feed};

use crate::limits::FEED_LIMITS;

/// How a feed is read.
#[derive(Clone, Copy, PartialEq, Eq)]
pub struct FeedForm {
    /// The version of the log that its commands are spelled by.
    pub log: u8,
    /// The most lines that it may have.
    pub lines: u32,
}

impl FeedForm {
    /// Returns the form of a feed that begins, by a version of the log.
    pub fn new(log: u8) -> FeedForm
        ensures { result ≡ new_feed log }
    {
        FeedForm {
            log,
            lines: FEED_LIMITS.lines,
        }
    }
}
