//! Whether what is aboard fits.
ghost use Rattle.std.specs.Prelude.{◌≡◌};
ghost use Rattle.std.specs.List.{list_all};
ghost use Rattle.ride_model.specs.Loads.{fits_load, loads_fit};
ghost use Rattle.ride_model.specs.inner.Vehicle.{IsRoutedSomewhere};

use ride_model::{Load, Vehicle};
use stop_plans::{load_at_start, loads};

/// Whether what is aboard fits at the start and after each stop.
pub fn has_room(vehicle: &Vehicle) -> bool
    requires { IsRoutedSomewhere vehicle.now }
    ensures { result ≡ loads_fit vehicle.now }
{
    fits(vehicle, load_at_start(vehicle)) && all_fit(vehicle, loads(vehicle).as_slice())
}

// Whether all these loads fit.
fn all_fit(vehicle: &Vehicle, loads: &[Load]) -> bool
    ensures { result ≡ list_all (fits_load vehicle.now) loads.now }
{
    for load in loads {
        if !fits(vehicle, *load) {
            return false;
        }
    }
    true
}

// Whether a load fits.
fn fits(vehicle: &Vehicle, load: Load) -> bool
    ensures { result ≡ fits_load vehicle.now load }
{
    load.seats <= vehicle.seats && load.chairs <= vehicle.chairs
}
