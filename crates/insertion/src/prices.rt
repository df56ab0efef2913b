//! When a vehicle would start for a batch, and what the change of its plan costs.
ghost use Rattle.std.specs.Prelude.{◌≡◌, ◌≤◌, ◌+◌, ◌*◌, ◌&&◌, length, nat_le};
ghost use Rattle.ride_model.specs.Offers.{is_idle, is_open, start_of};
ghost use Rattle.ride_model.specs.declared.limits.TheConstants.{GREATEST_WEIGHT, LATEST_TIME, LONGEST_LEAD, MOST_STOPS};

use ride_model::{Settings, Vehicle};

/// Whether a vehicle is open to a batch of this time, and these are places in order and in range of its plan.
pub fn may_offer(vehicle: &Vehicle, i: usize, j: usize, time: u64) -> bool
    ensures { result ≡ (is_open vehicle.now time && nat_le i j
        && nat_le j (length vehicle.now.stops.items)) }
{
    is_open(vehicle, time) && i <= j && j <= number_of_stops(vehicle)
}

/// Whether it is on duty, and idle or not yet at its next node.
pub fn is_open(vehicle: &Vehicle, time: u64) -> bool
    ensures { result ≡ is_open vehicle.now time }
{
    vehicle.duty && (is_idle(vehicle) || time <= vehicle.ready)
}

/// When a vehicle would start for a batch of this time: an idle one not before the time and the lead.
pub fn start_of(vehicle: &Vehicle, lead: u64, time: u64) -> u64
    requires lead_limit { lead ≤ LONGEST_LEAD }
    requires time_limit { time ≤ LATEST_TIME }
    ensures { result ≡ start_of vehicle.now lead time }
{
    if is_idle(vehicle) {
        vehicle.ready.max(time + lead)
    } else {
        vehicle.ready
    }
}

/// The number of stops of a vehicle's plan.
pub fn number_of_stops(vehicle: &Vehicle) -> usize
    ensures number { result ≡ length vehicle.now.stops.items }
    ensures few { result ≤ MOST_STOPS }
{
    vehicle.stops.as_slice().len()
}

fn is_idle(vehicle: &Vehicle) -> bool
    ensures { result ≡ is_idle vehicle.now }
{
    number_of_stops(vehicle) == 0
}

/// The cost of so many more seconds of driving, and of so many to the pickup.
pub fn cost(settings: &Settings, driven: u64, waited: u64) -> u64
    requires drive_limit { settings.now.drive ≤ GREATEST_WEIGHT }
    requires wait_limit { settings.now.wait ≤ GREATEST_WEIGHT }
    requires short_drive { driven ≤ 3000000000000000 }
    requires short_wait { waited ≤ 15000000000000000 }
    ensures { result ≡ settings.now.drive * driven + settings.now.wait * waited }
{
    settings.drive * driven + settings.wait * waited
}
