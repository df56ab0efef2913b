//! What a league starts with.
ghost use Rattle.std.specs.Prelude.{◌≡◌};
ghost use Rattle.ride_model.specs.Fleet.{MayStart};
ghost use Rattle.fleet_league.specs.league_session.League.{league_start};

use adaptive_roads::Roads;
use ride_model::{Fleet, Settings};
use std::marker::Model;

/// A map, settings and two fleets that a league may start with. To contracts it is the league at its start.
#[derive(Drop)]
pub(crate) struct Outset<'r> {
    pub(crate) roads: &'r Roads,
    pub(crate) settings: Settings,
    pub(crate) first: Fleet,
    pub(crate) second: Fleet,
}

impl<'r> Model for Outset<'r> {
    ghost use Rattle.ride_model.specs.Fleet.{MayStart};
    ghost use Rattle.fleet_league.specs.league_session.League.{LeagueState, league_start};

    ghost Value = { LeagueState };

    ghost view = { λ o. league_start o.roads.now o.settings o.first o.second };

    ghost invariant = { λ o. MayStart o.roads.now o.settings o.first
        × MayStart o.roads.now o.settings o.second };
}

impl<'r> Outset<'r> {
    /// The outset of two fleets over one map, with the same settings.
    pub(crate) fn new(
        roads: &'r Roads,
        settings: Settings,
        first: Fleet,
        second: Fleet,
    ) -> Outset<'r>
        requires first { MayStart roads.now settings first }
        requires second { MayStart roads.now settings second }
        ensures { result ≡ league_start roads.now settings first second }
    {
        Outset {
            roads,
            settings,
            first,
            second,
        }
    }
}
