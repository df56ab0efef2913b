//! Vehicles as a line gives them.
ghost use Rattle.std.specs.Prelude.{◌≡◌, ◌==◌, ◌<◌, ◌^◌, false};
ghost use Rattle.std.specs.List.{list_any};
ghost use Rattle.line_text.specs.Fields.{numbers_of};
ghost use Rattle.ride_model.specs.Fleet.{idle_vehicle};
ghost use Rattle.fleet_file.specs.FleetText.{has_value_out, vehicle_from};

use arrayvec::ArrayVec;
use line_text::Fields;
use ride_model::Vehicle;
use ride_model::limits::{LATEST_TIME, MOST_VEHICLE_CHAIRS, MOST_VEHICLE_SEATS};

/// The numbers of a vehicle line.
#[derive(Clone, Copy)]
pub struct NewVehicle {
    pub id: u64,
    pub seats: u64,
    pub node: u64,
    pub ready: u64,
    pub chairs: u64,
}

/// Reads the fields after `vehicle`.
pub fn read_vehicle(fields: &mut Fields<'_>) -> Option<NewVehicle>
    ensures { result ≡ vehicle_from (numbers_of fields.old) }
{
    let numbers = fields.numbers::<5>()?;
    let (id, seats, node, ready, chairs) = match numbers.as_slice() {
        [id, seats, node, ready] => (*id, *seats, *node, *ready, 0),
        [id, seats, node, ready, chairs] => (*id, *seats, *node, *ready, *chairs),
        _ => return None,
    };
    Some(NewVehicle {
        id,
        seats,
        node,
        ready,
        chairs,
    })
}

/// Whether a value is out of its range.
pub fn has_value_out(new: &NewVehicle) -> bool
    ensures { result ≡ has_value_out new.now }
{
    new.seats == 0
        || new.seats > MOST_VEHICLE_SEATS
        || new.chairs > MOST_VEHICLE_CHAIRS
        || new.ready > LATEST_TIME
}

/// The vehicle, idle and on duty.
pub fn idle_vehicle(new: &NewVehicle) -> Vehicle
    requires values { has_value_out new.now ≡ false }
    requires node { new.now.node < 2 ^ 32 }
    ensures { result
        ≡ idle_vehicle new.now.id new.now.seats new.now.chairs new.now.node new.now.ready }
{
    Vehicle {
        id: new.id,
        seats: new.seats as u32,
        chairs: new.chairs as u32,
        at: new.node as u32,
        ready: new.ready,
        duty: true,
        version: 0,
        rides: ArrayVec::new(),
        stops: ArrayVec::new(),
    }
}

/// Whether a vehicle has this id.
pub fn has_id(vehicles: &[Vehicle], id: u64) -> bool
    ensures { result ≡ list_any (λ vehicle. vehicle.id == id) vehicles.now }
{
    vehicles.iter().any(|vehicle| vehicle.id == id)
}
