//! The limits of a log.
use line_text::line_reader::Limits;

/// The limits of a log: at most 2^30 bytes and 2,100,000 lines, each of at most 131,072 bytes without its LF.
pub const LOG_LIMITS: Limits = Limits {
    line: 131_072,
    bytes: 1 << 30,
    lines: 2_100_000,
};
