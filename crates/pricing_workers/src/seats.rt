//! The offer of a vehicle to a request at given places.
ghost use Rattle.std.specs.Prelude.{◌≡◌, IfOk};
ghost use Rattle.std.specs.Result.{OnOk};
ghost use Rattle.ride_model.specs.Road.{IsRoadMap};
ghost use Rattle.ride_model.specs.Vehicle.{IsLawful, IsRide};
ghost use Rattle.batch_commit.specs.inner.Table.{IsPriceable};
ghost use Rattle.insertion.specs.inner.Asked.{HoldsTimes};
ghost use Rattle.pricing_workers.specs.inner.Seats.{IsOfferOf, IsWithin};
ghost use Rattle.pricing_workers.specs.inner.Wanted.{nodes_of};

use crate::pairs::near;
use crate::pricer::Pricer;
use crate::times::Times;
use batch_commit::Batch;
use insertion::{Near, offer_at};
use ride_model::{Offer, Ride, Vehicle};
use ride_ports::NoMemory;
use std::alloc::Global;

/// A seat by the places in the batch of its request and its vehicle, and its places in the vehicle's plan.
#[derive(Clone, Copy, PartialEq, Eq)]
pub struct SeatPlaces {
    pub request: u32,
    pub vehicle: u32,
    pub i: u32,
    pub j: u32,
}

/// The offer of a seat's vehicle to its request at its places, if there is one.
pub fn offer_of_seat(
    batch: &Batch,
    pricer: &mut Pricer,
    seat: SeatPlaces,
) -> Result<Option<Offer>, NoMemory>
    requires seat { IsWithin batch.now seat }
    requires priceable { IsPriceable pricer.old batch.now }
    ensures offer { IfOk result (IsOfferOf pricer.old batch.now seat) }
    ensures pricer { pricer.new ≡ pricer.old }
{
    let ride = &batch.requests()[seat.request as usize];
    let vehicle = &batch.vehicles().vehicles()[seat.vehicle as usize];
    let near = near_of(pricer, vehicle, ride)?;
    let (time, settings) = (batch.time(), batch.settings());
    Ok(offer_at(vehicle, ride, seat.i, seat.j, time, settings, &near))
}

// The times between a vehicle's nodes and a ride's.
fn near_of(pricer: &mut Pricer, vehicle: &Vehicle, ride: &Ride) -> Result<Near, NoMemory>
    requires lawful { IsLawful pricer.old vehicle.now }
    requires ride_fits { IsRide pricer.old ride.now }
    ensures times { IfOk result (HoldsTimes pricer.old vehicle.now ride.now) }
    ensures map_fits { OnOk result (IsRoadMap pricer.old) }
    ensures pricer { pricer.new ≡ pricer.old }
{
    let nodes = nodes_of(pricer.alloc(), vehicle)?;
    let mut times = Times::new(pricer.alloc(), nodes.len())?;
    pricer.times.look();
    let roads = pricer.times.towards(nodes.as_slice());
    times.fill(&roads, &mut pricer.scratches[0], ride);
    Ok(near(&times, 0, vehicle))
}

// The nodes of a vehicle: where it is, then those of its stops.
fn nodes_of(alloc: Global, vehicle: &Vehicle) -> Result<Vec<u32>, NoMemory>
    ensures { IfOk result (λ nodes. nodes.items ≡ nodes_of vehicle.now) }
{
    let mut nodes = Vec::new(alloc);
    nodes.push(vehicle.at)?;
    for stop in vehicle.stops.as_slice() {
        nodes.push(stop.node)?;
    }
    Ok(nodes)
}
