// Vehicles, rides and settings that are drawn, on a road of four nodes in a line.
ghost use Rattle.std.specs.Prelude.{◌≡◌, ◌<◌, ◌≤◌, [], All, None, IsTrue};
ghost use Rattle.ride_model.specs.declared.vehicle.Ride.{Ride};
ghost use Rattle.ride_model.specs.Settings.{IsSettings};
ghost use Rattle.ride_model.specs.Vehicle.{IsLawful};
ghost use Rattle.plan_trials.specs.SmallPlans.{four_nodes};
ghost use Rattle.plan_trials.specs.LineRoad.{is_ride, vehicle_with};
ghost use Rattle.plan_trials.specs.NearInLine.{are_settings};

use super::slack::{agrees, fast};
use arrayvec::ArrayVec;
use ride_model::{Kind, Ride, Settings, Stop, Vehicle};
use stop_plans::insert_ride;

// Rides are numbered from here on.
const FIRST: u64 = 100;

// Numbers drawn by the linear congruential generator that the C standard gives as an example.
#[derive(Drop)]
struct Draws {
    state: u32,
}

impl Draws {
    // A number below `many`.
    fn below(&mut self, many: u32) -> u32
        requires { 0 < many }
        ensures { result < many }
    {
        self.state = self.state.wrapping_mul(1_103_515_245).wrapping_add(12_345);
        (self.state >> 16) % many
    }
}

fn drawn_ride(draws: &mut Draws, id: u64) -> Ride
    ensures ride { IsTrue (is_ride result) }
    ensures id { result.id ≡ id }
    ensures waits { result.picked ≡ None }
{
    let from = 1 + draws.below(4);
    let other = 1 + draws.below(3);
    Ride {
        id,
        from,
        to: if other < from { other } else { other + 1 },
        seats: 1 + draws.below(2),
        chairs: draws.below(2),
        latest: 30 * u64::from(draws.below(40)),
        longest: 60 + 30 * u64::from(draws.below(20)),
        picked: None,
    }
}

fn drawn_settings(draws: &mut Draws) -> Settings
    ensures { IsTrue (are_settings result) }
{
    Settings {
        batch: 32,
        penalty: 3_600,
        drive: u64::from(draws.below(4)),
        wait: u64::from(draws.below(4)),
        lead: 60 * u64::from(draws.below(3)),
        dwell: 15 * u64::from(draws.below(3)),
        log: 2,
    }
}

fn idle_vehicle(draws: &mut Draws) -> Vehicle
    ensures lawful { IsLawful four_nodes result }
    ensures no_rides { result.rides.items ≡ [] }
{
    Vehicle {
        id: 1,
        seats: 2 + draws.below(4),
        chairs: draws.below(3),
        at: 1 + draws.below(4),
        ready: 30 * u64::from(draws.below(10)),
        duty: true,
        version: 0,
        rides: ArrayVec::new(),
        stops: ArrayVec::new(),
    }
}

// Whether the searches agree on rides that are drawn one after another. Each that has an offer goes into the plan.
fn agree_on_rides(draws: &mut Draws, vehicle: &mut Vehicle, settings: &Settings) -> bool
    requires lawful { IsLawful four_nodes vehicle.old }
    requires earlier { All (λ (ride : Ride). ride.id < 100) vehicle.old.rides.items }
    requires settings { IsTrue (are_settings settings.now) }
{
    for number in 0..12 {
        let ride = drawn_ride(draws, FIRST + number);
        let offer = fast(vehicle, &ride, settings);
        if !agrees(offer, vehicle, &ride, settings) {
            return false;
        }
        if let Some(offer) = offer {
            insert_ride(vehicle, ride, &offer);
        }
    }
    true
}

/// How many rides a vehicle takes on which the searches agree.
fn rides_agreed(draws: &mut Draws) -> Option<usize> {
    let settings = drawn_settings(draws);
    let mut vehicle = idle_vehicle(draws);
    if agree_on_rides(draws, &mut vehicle, &settings) {
        Some(vehicle.rides.len())
    } else {
        None
    }
}

#[test]
fn both_searches_agree_on_drawn_plans(rt: HostRuntime) {
    let mut draws = Draws { state: 1 };
    let mut most_rides = 0;
    for _ in 0..40 {
        let rides = rides_agreed(&mut draws).expect(&rt, "an agreement");
        most_rides = most_rides.max(rides);
    }
    // Some plan grew.
    assert!(rt; most_rides > 3);
}
