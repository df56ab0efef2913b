//! What a company of a day starts with.
ghost use Rattle.std.specs.Prelude.{◌≡◌, IfOk};
ghost use Rattle.ride_model.specs.Fleet.{MayStart};
ghost use Rattle.city_maker.specs.Fleets.{default_settings};
ghost use Rattle.league_trials.specs.Sides.{half_of};

use adaptive_roads::Roads;
use ride_model::{Fleet, NoMemory, Settings};
use std::alloc::Global;
use std::marker::Model;
use std::process::Abort;

/// A map, a city's settings and a fleet that a company may start with. To contracts it is the state before anything happened.
#[derive(Drop)]
pub(crate) struct Outset<'r> {
    pub(crate) roads: &'r Roads,
    pub(crate) settings: Settings,
    pub(crate) fleet: Fleet,
}

impl<'r> Model for Outset<'r> {
    ghost use Rattle.std.specs.Prelude.{◌≡◌};
    ghost use Rattle.ride_model.specs.Fleet.{MayStart};
    ghost use Rattle.ride_model.specs.State.{State, start_state};
    ghost use Rattle.city_maker.specs.Fleets.{default_settings};

    ghost Value = { State };

    ghost view = { λ o. start_state o.roads.now o.settings o.fleet };

    ghost invariant = { λ o. MayStart o.roads.now o.settings o.fleet
        × (o.settings ≡ default_settings) };
}

impl<'r> Outset<'r> {
    /// The outset of a city's fleet.
    pub(crate) fn new(roads: &'r Roads, settings: Settings, fleet: Fleet) -> Outset<'r>
        requires settings { settings ≡ default_settings }
        requires start { MayStart roads.now settings fleet }
    {
        Outset {
            roads,
            settings,
            fleet,
        }
    }

    /// The same of the vehicles whose ids have this rest by 2, with ample memory.
    pub(crate) fn half(&self, rt: &impl Abort, alloc: Global, rest: u64) -> Outset<'r> {
        let Ok(fleet) = half_of(alloc, &self.fleet, rest) else {
            panic!(rt; "there is memory");
        };
        Outset {
            roads: self.roads,
            settings: self.settings,
            fleet,
        }
    }
}

// The vehicles of a fleet whose ids have this rest by 2.
fn half_of(alloc: Global, fleet: &Fleet, rest: u64) -> Result<Fleet, NoMemory>
    ensures { IfOk result (λ half. half ≡ half_of rest fleet.now) }
{
    let mut vehicles = Vec::new(alloc);
    for vehicle in fleet.vehicles() {
        if vehicle.id % 2 == rest {
            vehicles.push(vehicle.copy())?;
        }
    }
    Ok(Fleet::new(vehicles))
}
