//! Vehicles with their rides and stops.
ghost use Rattle.std.specs.Prelude.{◌≡◌, ◌≤◌, length};
ghost use Rattle.ride_model.specs.declared.limits.TheConstants.{MOST_STOPS};

use arrayvec::ArrayVec;

/// A ride: a rider's trip from one node to another.
#[derive(Clone, Copy, PartialEq, Eq, Default)]
pub struct Ride {
    pub id: u64,
    /// The node of the pickup.
    pub from: u32,
    /// The node of the drop-off.
    pub to: u32,
    pub seats: u32,
    /// Places for wheelchairs.
    pub chairs: u32,
    /// The latest time of the pickup.
    pub latest: u64,
    /// The most seconds from pickup to drop-off.
    pub longest: u64,
    /// The time of the pickup, once the rider is aboard.
    pub picked: Option<u64>,
}

/// What is aboard of a vehicle.
#[derive(Clone, Copy, PartialEq, Eq, Default)]
pub struct Load {
    pub seats: u32,
    pub chairs: u32,
}

/// What happens at a stop.
#[derive(Clone, Copy, PartialEq, Eq, Default)]
pub enum Kind {
    #[default]
    Pickup,
    Dropoff,
}

/// A stop of a vehicle's plan.
#[derive(Clone, Copy, PartialEq, Eq, Default)]
pub struct Stop {
    /// The ride's id.
    pub ride: u64,
    pub kind: Kind,
    pub node: u32,
    /// The seconds from the stop before, or from the vehicle's `at`.
    pub leg: u64,
}

/// A vehicle with what it has promised.
#[derive(Drop)]
pub struct Vehicle {
    pub id: u64,
    pub seats: u32,
    pub chairs: u32,
    /// The committed next node.
    pub at: u32,
    /// When the vehicle is at `at`, and free to drive on.
    pub ready: u64,
    /// Whether the driver takes new rides.
    pub duty: bool,
    /// How often plan, place or duty have changed.
    pub version: u64,
    /// The rides that are confirmed and not yet dropped, in order of confirmation.
    pub rides: ArrayVec<Ride, 16>,
    /// The stops, in driving order.
    pub stops: ArrayVec<Stop, 16>,
}

impl Vehicle {
    /// An equal vehicle.
    pub fn copy(&self) -> Vehicle
        ensures { result ≡ self.now }
    {
        Vehicle {
            id: self.id,
            seats: self.seats,
            chairs: self.chairs,
            at: self.at,
            ready: self.ready,
            duty: self.duty,
            version: self.version,
            rides: copy_of(self.rides.as_slice()),
            stops: copy_of(self.stops.as_slice()),
        }
    }
}

fn copy_of<T: Copy + Default>(items: &[T]) -> ArrayVec<T, 16>
    requires { length items.now ≤ MOST_STOPS }
    ensures { result.items ≡ items.now }
{
    let mut copy = ArrayVec::new();
    for item in items {
        copy.push(*item);
    }
    copy
}
