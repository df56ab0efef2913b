//! Where a ride more fits beside what is aboard.
ghost use Rattle.std.specs.Prelude.{◌≡◌};
ghost use Rattle.ride_model.specs.inner.Vehicle.{IsRoutedSomewhere};
ghost use Rattle.insertion.specs.inner.Rooms.{fits_beside, rooms_of};

use arrayvec::ArrayVec;
use ride_model::{Load, Ride, Vehicle};
use stop_plans::{load_at_start, loads};

/// Whether a ride fits beside the load before each place of a vehicle's plan. It is found once for all pairs of places, and no plan with
/// the ride on the way past a place where it does not fit needs to be made.
pub fn rooms_of(vehicle: &Vehicle, ride: &Ride) -> ArrayVec<bool, 17>
    requires { IsRoutedSomewhere vehicle.now }
    ensures { result.items ≡ rooms_of vehicle.now ride.now }
{
    let mut rooms = ArrayVec::new();
    rooms.push(fits_beside(vehicle, ride, load_at_start(vehicle)));
    let loads = loads(vehicle);
    for load in loads.as_slice() {
        rooms.push(fits_beside(vehicle, ride, *load));
    }
    rooms
}

// Whether a ride fits beside a load.
fn fits_beside(vehicle: &Vehicle, ride: &Ride, load: Load) -> bool
    ensures { result ≡ fits_beside vehicle.now ride.now load }
{
    let seats = u64::from(load.seats) + u64::from(ride.seats);
    let chairs = u64::from(load.chairs) + u64::from(ride.chairs);
    seats <= u64::from(vehicle.seats) && chairs <= u64::from(vehicle.chairs)
}
