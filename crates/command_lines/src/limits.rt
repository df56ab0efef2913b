//! The limits of a feed.
use line_text::MOST_LINE;
use line_text::line_reader::Limits;

/// The limits of a feed: at most 2^26 bytes and 1,000,000 lines.
pub const FEED_LIMITS: Limits = Limits {
    line: MOST_LINE,
    bytes: 1 << 26,
    lines: 1_000_000,
};
