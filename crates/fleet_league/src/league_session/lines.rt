//! What the lines of a league's feed say.
use ride_model::Command;

/// What a line of a league's feed says.
#[derive(Clone, Copy)]
pub(crate) enum FeedLine {
    /// A command to the league, or a bad line.
    League(Command),
    /// A report of a driver to the company of a number.
    Company { company: u64, command: Command },
}
