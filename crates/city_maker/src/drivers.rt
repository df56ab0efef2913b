//! What the drivers of a city report.
ghost use Rattle.std.specs.Prelude.{◌≡◌};
ghost use Rattle.ride_model.specs.Drill.{next_report};
ghost use Rattle.ride_model.specs.inner.Vehicle.{IsRoutedSomewhere};

use ride_model::{Command, Vehicle};

/// What the driver of a vehicle reports next: that the first stop is served, where the vehicle is there by the clock; that
/// the vehicle reaches it, where it does so by the clock or has left before the clock; and else nothing.
pub fn next_report(vehicle: &Vehicle, clock: u64) -> Option<Command>
    requires { IsRoutedSomewhere vehicle.now }
    ensures { result ≡ next_report vehicle.now clock }
{
    let first = vehicle.stops.as_slice().first()?;
    let time = vehicle.ready + first.leg;
    if time <= clock && vehicle.at == first.node {
        Some(Command::Done {
            vehicle: vehicle.id,
        })
    } else if time <= clock || vehicle.ready < clock {
        Some(Command::At {
            vehicle: vehicle.id,
            node: u64::from(first.node),
            time,
        })
    } else {
        None
    }
}
