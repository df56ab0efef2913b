//! How a feed ends.
ghost use Rattle.std.specs.Prelude.{◌≡◌, Option};
ghost use Rattle.session_loops.specs.inner.Stops.{ending_of};

use line_text::line_reader::Stop;
use ride_model::Ending;

/// How a feed ends that was stopped, or was not.
pub fn ending_of(stop: Option<Stop>) -> Ending
    ensures { result ≡ ending_of stop }
{
    match stop {
        Some(_) => Ending::Cut,
        None => Ending::Whole,
    }
}
