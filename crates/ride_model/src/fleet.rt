//! Fleets of vehicles.
ghost use Rattle.std.specs.Prelude.{◌≡◌};
ghost use Rattle.ride_model.specs.Fleet.{IsFleet};

use crate::Vehicle;
use std::marker::Model;

/// Vehicles in the fleet's order: at most 1,000, of distinct ids below 10^18.
#[derive(Drop)]
pub struct Fleet {
    vehicles: Vec<Vehicle>,
}

impl Model for Fleet {
    ghost use Rattle.std.specs.Prelude.{List};
    ghost use Rattle.ride_model.specs.declared.vehicle.Vehicle.{Vehicle};
    ghost use Rattle.ride_model.specs.Fleet.{IsFleet};

    ghost Value = { List Vehicle };

    ghost view = { λ fleet. fleet.vehicles.items };

    ghost invariant = { λ fleet. IsFleet fleet.vehicles.items };
}

impl Fleet {
    /// The fleet of these vehicles, in order.
    pub fn new(vehicles: Vec<Vehicle>) -> Fleet
        requires { IsFleet vehicles.items }
        ensures { result ≡ vehicles.items }
    {
        Fleet { vehicles }
    }

    /// The vehicles, in order.
    #[inline]
    pub fn vehicles(&self) -> &[Vehicle]
        ensures items { result.now ≡ self.now }
        ensures is_fleet { IsFleet self.now }
    {
        self.vehicles.as_slice()
    }

    /// The vehicles, in order, as a vector.
    pub fn into_vehicles(self) -> Vec<Vehicle>
        ensures items { result.items ≡ self }
        ensures is_fleet { IsFleet self }
    {
        self.vehicles
    }
}
