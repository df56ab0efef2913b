//! What a history starts with.
ghost use Rattle.std.specs.Prelude.{◌≡◌};
ghost use Rattle.model_laws.specs.history_laws.Start.{IsStart};
ghost use Rattle.ride_model.specs.Fleet.{MayStart};
ghost use Rattle.ride_model.specs.State.{start_state};

use adaptive_roads::Roads;
use ride_model::{Fleet, Settings};
use std::marker::Model;

/// A map, settings and a fleet that a history may start with. To contracts it is the state before anything happened.
#[derive(Drop)]
pub(crate) struct Outset<'r> {
    pub(crate) roads: &'r Roads,
    pub(crate) settings: Settings,
    pub(crate) fleet: Fleet,
}

impl<'r> Model for Outset<'r> {
    ghost use Rattle.ride_model.specs.Fleet.{MayStart};
    ghost use Rattle.ride_model.specs.State.{State, start_state};

    ghost Value = { State };

    ghost view = { λ o. start_state o.roads.now o.settings o.fleet };

    ghost invariant = { λ o. MayStart o.roads.now o.settings o.fleet };
}

impl<'r> Outset<'r> {
    /// Returns the outset of a history.
    pub(crate) fn new(roads: &'r Roads, settings: Settings, fleet: Fleet) -> Outset<'r>
        requires start { MayStart roads.now settings fleet }
        ensures state { result ≡ start_state roads.now settings fleet }
        ensures start { IsStart (start_state roads.now settings fleet) }
    {
        // These calls tell that the map and the fleet are within their limits.
        let _nodes = roads.nodes();
        let _vehicles = fleet.vehicles();
        Outset {
            roads,
            settings,
            fleet,
        }
    }
}
