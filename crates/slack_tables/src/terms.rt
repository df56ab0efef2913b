//! What a search for places goes by, besides the plan and the times near the ride.
ghost use Rattle.std.specs.Prelude.{◌≡◌};
ghost use Rattle.slack_tables.specs.inner.Search.{terms_of};

use ride_model::{Load, Ride, Settings, Vehicle};

/// The vehicle's start and room, the ride's load and limits, and what a second costs.
#[derive(Clone, Copy, PartialEq, Eq, Default)]
pub struct Terms {
    /// The time of the batch.
    pub time: u64,
    pub start: u64,
    pub dwell: u64,
    /// What a second of driving costs.
    pub drive: u64,
    /// What a second until the pickup costs.
    pub wait: u64,
    pub latest: u64,
    pub longest: u64,
    /// The load of the ride.
    pub takes: Load,
    /// The most load of the vehicle.
    pub most: Load,
}

/// The terms of a search for places of a ride in the plan of a vehicle that leaves at `start`.
#[inline]
pub fn terms_of(vehicle: &Vehicle, ride: &Ride, start: u64, now: u64, settings: &Settings) -> Terms
    ensures { result ≡ terms_of vehicle.now ride.now start now settings.now }
{
    Terms {
        time: now,
        start,
        dwell: settings.dwell,
        drive: settings.drive,
        wait: settings.wait,
        latest: ride.latest,
        longest: ride.longest,
        takes: Load {
            seats: ride.seats,
            chairs: ride.chairs,
        },
        most: Load {
            seats: vehicle.seats,
            chairs: vehicle.chairs,
        },
    }
}
