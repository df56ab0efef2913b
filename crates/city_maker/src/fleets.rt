//! The fleet of a city.
ghost use Rattle.std.specs.Prelude.{◌≡◌, ◌+◌, ◌<◌, OnOk, IfOk};
ghost use Rattle.city_maker.specs.Draws.{state_after};
ghost use Rattle.city_maker.specs.inner.Plan.{IsPlan};
ghost use Rattle.city_maker.specs.Fleets.{fleet_of, road_draws, vehicle_of};

use crate::CityPlan;
use crate::draws::Draws;
use arrayvec::ArrayVec;
use ride_model::{NoMemory, Vehicle};
use std::alloc::Global;

/// The seats of a vehicle.
const SEATS: u32 = 4;

/// The vehicles of a city, drawn after its roads.
pub fn vehicles(alloc: Global, plan: &CityPlan, draws: &mut Draws) -> Result<Vec<Vehicle>, NoMemory>
    requires plan { IsPlan plan.now }
    requires drawn { draws.old.state ≡ state_after plan.now.seed (road_draws plan.now) }
    ensures vehicles { IfOk result (λ vehicles. vehicles.items ≡ fleet_of plan.now) }
    ensures drawn { OnOk result
        (draws.new.state ≡ state_after plan.now.seed (road_draws plan.now + plan.now.vehicles)) }
{
    let mut vehicles = Vec::new(alloc);
    for before in 0..plan.vehicles {
        vehicles.push(vehicle(plan, before, draws))?;
    }
    Ok(vehicles)
}

// The vehicle that comes after so many others, idle at a drawn node.
fn vehicle(plan: &CityPlan, before: u32, draws: &mut Draws) -> Vehicle
    requires plan { IsPlan plan.now }
    requires in_fleet { before < plan.now.vehicles }
    requires drawn { draws.old.state ≡ state_after plan.now.seed (road_draws plan.now + before) }
    ensures vehicle { result ≡ vehicle_of plan.now before }
    ensures drawn { draws.new.state
        ≡ state_after plan.now.seed (road_draws plan.now + (before + 1)) }
{
    Vehicle {
        id: u64::from(before) + 1,
        seats: SEATS,
        chairs: 0,
        at: 1 + draws.draw(plan.side * plan.side),
        ready: 0,
        duty: true,
        version: 0,
        rides: ArrayVec::new(),
        stops: ArrayVec::new(),
    }
}
