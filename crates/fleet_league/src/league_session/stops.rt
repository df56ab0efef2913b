//! How a league's feed ends.
ghost use Rattle.std.specs.Prelude.{◌≡◌, Option};
ghost use Rattle.fleet_league.specs.inner.league_session.LeagueRuns.{ending_of};

use line_text::line_reader::Stop;
use ride_model::Ending;

/// The ending of a feed that was stopped, or was not: none where its text stops short of the last line.
pub(crate) fn ending_of(stop: Option<Stop>) -> Option<Ending>
    ensures { result ≡ ending_of stop }
{
    match stop {
        None => Some(Ending::Whole),
        Some(Stop::OfFeed(_)) => Some(Ending::Cut),
        Some(Stop::NoMemory) => None,
    }
}
