//! The requests that have no seat, and the vehicles that may be sent towards them.
ghost use Rattle.std.specs.Prelude.{◌≡◌, ◌==◌, not, filter, map, IfOk};
ghost use Rattle.std.specs.List.{list_any};
ghost use Rattle.ride_model.specs.declared.offer.Seat.{Seat};
ghost use Rattle.ride_model.specs.declared.vehicle.Ride.{Ride};
ghost use Rattle.ride_model.specs.Seating.{has_seat};
ghost use Rattle.idle_moves.specs.declared.standby.Standby.{Standby};
ghost use Rattle.idle_moves.specs.Sheet.{stands_by};
ghost use Rattle.idle_moves.specs.inner.Standby.{standby_of};

use ride_model::{NoMemory, Ride, Seat, Vehicle};
use std::alloc::Global;

/// A vehicle that may be sent ahead, and where it stands.
#[derive(Clone, Copy)]
pub(crate) struct Standby {
    pub(crate) vehicle: u64,
    pub(crate) version: u64,
    pub(crate) node: u32,
}

// Whether a request has a seat.
fn has_seat(seats: &[Seat], request: u64) -> bool
    ensures { result ≡ has_seat seats.now request }
{
    seats.iter().any(|seat| seat.request == request)
}

// Whether a vehicle has a seat.
fn is_seated(seats: &[Seat], vehicle: u64) -> bool
    ensures { result ≡ list_any (λ (seat : Seat). seat.vehicle == vehicle) seats.now }
{
    seats.iter().any(|seat| seat.vehicle == vehicle)
}

// Whether a vehicle may be sent ahead.
fn stands_by(seats: &[Seat], vehicle: &Vehicle) -> bool
    ensures { result ≡ stands_by seats.now vehicle.now }
{
    vehicle.stops.is_empty() && vehicle.duty && !is_seated(seats, vehicle.id)
}

// Where a vehicle stands.
fn standby_of(vehicle: &Vehicle) -> Standby
    ensures { result ≡ standby_of vehicle.now }
{
    Standby {
        vehicle: vehicle.id,
        version: vehicle.version,
        node: vehicle.at,
    }
}

/// The requests that have no seat, in order.
pub(crate) fn left_out(
    alloc: Global,
    requests: &[Ride],
    seats: &[Seat],
) -> Result<Vec<Ride>, NoMemory>
    ensures { IfOk result (λ rides. rides.items
        ≡ filter (λ (ride : Ride). not (has_seat seats.now ride.id)) requests.now) }
{
    requests
        .iter()
        .filter(|ride| !has_seat(seats, ride.id))
        .copied()
        .collect(alloc)
}

/// The vehicles that may be sent ahead, in order.
pub(crate) fn standing_by(
    alloc: Global,
    vehicles: &[Vehicle],
    seats: &[Seat],
) -> Result<Vec<Standby>, NoMemory>
    ensures { IfOk result (λ found. found.items
        ≡ map standby_of (filter (stands_by seats.now) vehicles.now)) }
{
    vehicles
        .iter()
        .filter(|vehicle| stands_by(seats, vehicle))
        .map(|vehicle| standby_of(vehicle))
        .collect(alloc)
}

/// The nodes where vehicles stand.
pub(crate) fn nodes_of(alloc: Global, vehicles: &[Standby]) -> Result<Vec<u32>, NoMemory>
    ensures { IfOk result (λ nodes. nodes.items
        ≡ map (λ (vehicle : Standby). vehicle.node) vehicles.now) }
{
    vehicles.iter().map(|vehicle| vehicle.node).collect(alloc)
}
