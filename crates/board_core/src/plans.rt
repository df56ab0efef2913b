//! Changes of one vehicle's plan, place or duty. Each raises its version.
ghost use Rattle.std.specs.Prelude.{◌≡◌, ◌<◌, ◌≤◌, ◌+◌, ◌^◌, ◌++◌, [], ◌∷◌, List, length, map, All, MatchOption};
ghost use Rattle.ride_model.specs.declared.vehicle.Stop.{Stop};
ghost use Rattle.ride_model.specs.Road.{IsRoadMap, IsNode};
ghost use Rattle.ride_model.specs.Vehicle.{IsLawful};
ghost use Rattle.ride_model.specs.inner.Vehicle.{IsLawfulSomewhere};
ghost use Rattle.ride_model.specs.Insertion.{without_ride, stops_without};
ghost use Rattle.ride_model.specs.Step.{raised, served, served_reply};
ghost use Rattle.ride_model.specs.declared.limits.TheConstants.{LATEST_READY, LONGEST_DWELL, MOST_STOPS};
ghost use Rattle.stop_plans.specs.inner.Change.{HasFirstStopAt};
ghost use Rattle.stop_plans.specs.inner.First.{IsFirst, is_visit};
ghost use Rattle.stop_plans.specs.inner.Legged.{relegged};
ghost use Rattle.board_core.specs.inner.Legs.{nodes_without, leg_along, HasWaiting};

use crate::setup::Setup;
use arrayvec::ArrayVec;
use ride_model::{Kind, Reply, Stop, Vehicle};
use stop_plans::{remove_ride, serve_first};

/// The first stop of a vehicle.
pub(crate) fn first_stop(vehicle: &Vehicle) -> Option<Stop>
    ensures { MatchOption result (vehicle.now.stops.items ≡ [])
        (λ stop. (rest : List Stop) × (vehicle.now.stops.items ≡ stop ∷ rest)) }
{
    vehicle.stops.as_slice().first().copied()
}

/// Frees a vehicle of a ride that is not aboard.
pub(crate) fn free(vehicle: &mut Vehicle, setup: &mut Setup, id: u64)
    requires map { IsRoadMap setup.old.roads }
    requires lawful { IsLawful setup.old.roads vehicle.old }
    requires version { vehicle.old.version < 2 ^ 63 }
    requires waits { HasWaiting vehicle.old id }
    ensures vehicle { vehicle.new ≡ raised (without_ride setup.old.roads vehicle.old id) }
    ensures setup { setup.new ≡ setup.old }
{
    let nodes = nodes_without(vehicle, id);
    let pickup = place_of(vehicle.stops.as_slice(), id, Kind::Pickup);
    let dropoff = place_of(vehicle.stops.as_slice(), id, Kind::Dropoff);
    let first = leg_along(setup, nodes.as_slice(), pickup);
    let second = leg_along(setup, nodes.as_slice(), dropoff - 1);
    remove_ride(vehicle, id, first, second);
    vehicle.version += 1;
}

// Where the vehicle is, and the nodes of its stops that are not of the ride.
fn nodes_without(vehicle: &Vehicle, id: u64) -> ArrayVec<u32, 17>
    ensures { result.items ≡ nodes_without vehicle.now id }
{
    let mut nodes = ArrayVec::new();
    nodes.push(vehicle.at);
    push_others(&mut nodes, vehicle.stops.as_slice(), id);
    nodes
}

// Adds the nodes of the stops that are not of the ride.
fn push_others(nodes: &mut ArrayVec<u32, 17>, stops: &[Stop], id: u64)
    requires one { length nodes.old.items ≡ 1 }
    requires few { length stops.now ≤ MOST_STOPS }
    ensures { nodes.new.items ≡ nodes.old.items
        ++ map (λ (stop : Stop). stop.node) (stops_without id stops.now) }
{
    for stop in stops {
        if stop.ride != id {
            nodes.push(stop.node);
        }
    }
}

// The first place at which a ride is picked up or dropped, or the number of stops.
fn place_of(stops: &[Stop], id: u64, kind: Kind) -> usize
    ensures { IsFirst (is_visit id kind) stops.now result }
{
    for (place, stop) in stops.iter().enumerate() {
        if stop.ride == id && stop.kind == kind {
            return place;
        }
    }
    stops.len()
}

// The travel time from the node at a place to the next, 0 where there is none.
fn leg_along(setup: &mut Setup, nodes: &[u32], place: usize) -> u64
    requires nodes { All (IsNode setup.old.roads) nodes.now }
    requires place { place ≤ MOST_STOPS }
    ensures leg { result ≡ leg_along setup.old.roads nodes.now place }
    ensures setup { setup.new ≡ setup.old }
{
    if place + 1 >= nodes.len() {
        return 0;
    }
    setup.time(nodes[place], nodes[place + 1]).unwrap_or(0)
}

/// Puts an idle vehicle at a node.
pub(crate) fn put_at(vehicle: &mut Vehicle, node: u32, time: u64)
    requires version { vehicle.old.version < 2 ^ 63 }
    ensures vehicle { vehicle.new ≡ raised (record vehicle.old { at = node; ready = time }) }
{
    vehicle.at = node;
    vehicle.ready = time;
    vehicle.version += 1;
}

/// Puts a vehicle that drives at a node from which its first stop is so far away.
pub(crate) fn put_before(vehicle: &mut Vehicle, node: u32, time: u64, leg: u64)
    requires version { vehicle.old.version < 2 ^ 63 }
    requires drives { 1 ≤ length vehicle.old.stops.items }
    ensures { vehicle.new ≡ raised (record vehicle.old {
      at = node;
      ready = time;
      stops = record { items = relegged 0 leg vehicle.old.stops.items };
    }) }
{
    vehicle.stops.as_mut_slice()[0].leg = leg;
    put_at(vehicle, node, time);
}

/// Serves the first stop, which is at the vehicle's node.
pub(crate) fn serve(vehicle: &mut Vehicle, dwell: u64) -> Reply
    requires lawful { IsLawfulSomewhere vehicle.old }
    requires version { vehicle.old.version < 2 ^ 63 }
    requires at_stop { HasFirstStopAt vehicle.old }
    requires dwell_limit { dwell ≤ LONGEST_DWELL }
    requires in_the_day { vehicle.old.ready + dwell ≤ LATEST_READY }
    ensures vehicle { (stop : Stop) (rest : List Stop) → vehicle.old.stops.items ≡ stop ∷ rest
        → vehicle.new ≡ raised (served dwell vehicle.old stop rest stop.kind) }
    ensures reply { (stop : Stop) (rest : List Stop) → vehicle.old.stops.items ≡ stop ∷ rest
        → result ≡ served_reply stop stop.kind }
{
    let reply = serve_first(vehicle, dwell);
    vehicle.version += 1;
    reply
}
