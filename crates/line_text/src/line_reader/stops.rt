//! What stops the reading of a feed.
ghost use Rattle.std.specs.Prelude.{◌≡◌};
ghost use Rattle.line_text.specs.inner.line_reader.FeedRuns.{is_no_memory, is_source_failed, is_too_long, ran_of};

use crate::line_reader::ReadStop;
use ride_ports::Ran;

/// What stops the reading of a feed before its end.
#[derive(Clone, Copy, PartialEq, Eq)]
pub enum Stop {
    /// Memory was wanting.
    NoMemory,
    /// The feed gives no more lines.
    OfFeed(ReadStop),
}

/// How a session ran whose feed was stopped, or was not, and whose sink failed or did not.
pub fn ran_of(stop: Option<Stop>, sink_failed: bool) -> Ran
    ensures { result ≡ ran_of stop sink_failed }
{
    Ran {
        sink_failed,
        no_memory: is_no_memory(stop),
        source_failed: is_source_failed(stop),
        too_long: is_too_long(stop),
    }
}

/// Whether a feed was stopped for want of memory.
pub fn is_no_memory(stop: Option<Stop>) -> bool
    ensures { result ≡ is_no_memory stop }
{
    matches!(stop, Some(Stop::NoMemory))
}

/// Whether a feed was stopped by its source.
pub fn is_source_failed(stop: Option<Stop>) -> bool
    ensures { result ≡ is_source_failed stop }
{
    matches!(stop, Some(Stop::OfFeed(ReadStop::SourceFailed)))
}

/// Whether a feed was stopped by its length.
pub fn is_too_long(stop: Option<Stop>) -> bool
    ensures { result ≡ is_too_long stop }
{
    matches!(stop, Some(Stop::OfFeed(ReadStop::TooLong)))
}
