//! Cities.
ghost use Rattle.std.specs.Prelude.{◌≡◌, All, IfOk};
ghost use Rattle.ride_model.specs.Fleet.{MayStart};
ghost use Rattle.ride_model.specs.Text.{IsSpelledCommand};
ghost use Rattle.city_maker.specs.inner.Plan.{IsPlan};
ghost use Rattle.city_maker.specs.Roads.{network_of};
ghost use Rattle.city_maker.specs.Fleets.{default_settings, fleet_of};
ghost use Rattle.city_maker.specs.Feed.{commands_of};
ghost use Rattle.city_maker.specs.inner.Cities.{IsOnMap};

use crate::CityPlan;
use crate::feed::commands;
use crate::fleets::vehicles;
use crate::roads::grid;
use ride_model::{Command, Fleet, ItemList, Network, NoMemory, Settings};
use std::alloc::Global;

/// Commands, in order.
pub type CommandList = ItemList<Command>;

/// The settings where none is set.
const DEFAULTS: Settings = Settings {
    batch: 32,
    penalty: 3_600,
    drive: 1,
    wait: 0,
    lead: 0,
    dwell: 0,
    log: 1,
};

/// A city to drill: its roads, its settings, its fleet, and what feed 1 gives.
#[derive(Drop)]
pub struct City {
    pub network: Network,
    pub settings: Settings,
    pub fleet: Fleet,
    pub commands: CommandList,
}

/// The city of a plan.
pub fn make_city(alloc: Global, plan: &CityPlan) -> Result<City, NoMemory>
    requires { IsPlan plan.now }
    ensures network { IfOk result (λ city. city.network ≡ network_of plan.now) }
    ensures settings { IfOk result (λ city. city.settings ≡ default_settings) }
    ensures fleet { IfOk result (λ city. city.fleet ≡ fleet_of plan.now) }
    ensures commands { IfOk result (λ city. city.commands ≡ commands_of plan.now) }

    ensures start { IfOk result (λ city. MayStart city.network city.settings city.fleet) }

    // Each command has a text, and each node that it names is on the map.
    ensures spelled { IfOk result (λ city. All (IsSpelledCommand 1) city.commands) }
    ensures on_map { IfOk result (λ city. All (IsOnMap city.network) city.commands) }
{
    let mut roads = grid(alloc, plan.side, plan.seed)?;
    let vehicles = vehicles(alloc, plan, &mut roads.draws)?;
    let commands = commands(alloc, plan, &mut roads.draws)?;
    Ok(City {
        network: Network::new(plan.side * plan.side, roads.arcs),
        settings: DEFAULTS,
        fleet: Fleet::new(vehicles),
        commands: CommandList::of(commands),
    })
}
