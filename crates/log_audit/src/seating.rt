//! Whether the seats of a commit are a seating of its batch, and what it costs.
ghost use Rattle.std.specs.Prelude.{◌≡◌, ◌≤◌, ◌+◌, ◌-◌, ◌*◌, ◌^◌, ◌==◌, ◌↔◌, length, map, filter, sum_by, nat_eq, position, All, None, IfOk, IsSome, IsTrue, MatchOption};
ghost use Rattle.std.specs.List.{IsDistinct, list_any};
ghost use Rattle.ride_model.specs.declared.offer.Seat.{Seat};
ghost use Rattle.ride_model.specs.declared.vehicle.Ride.{Ride};
ghost use Rattle.ride_model.specs.declared.vehicle.Vehicle.{Vehicle};
ghost use Rattle.ride_model.specs.Seating.{has_seat, seat_offer};
ghost use Rattle.ride_model.specs.Vehicle.{ride_ids};
ghost use Rattle.ride_model.specs.declared.limits.TheConstants.{LARGEST_BATCH};
ghost use Rattle.batch_commit.specs.inner.Table.{IsPriceable, IsTableOf};
ghost use Rattle.pricing_workers.specs.inner.Seats.{IsOfferOf, IsWithin};
ghost use Rattle.log_audit.specs.declared.seating.Placed.{Placed};
ghost use Rattle.log_audit.specs.inner.Seated.{ArePlaced, IsPlaced, IsSeatedAt};

use batch_commit::{Batch, PriceTable};
use pricing_workers::{Pricer, SeatPlaces, offer_of_seat};
use ride_model::{NoMemory, Offer, Ride, Seat, Vehicle};
use std::alloc::Global;

/// A seat by the places in the batch of its request and its vehicle, with its own offer.
#[derive(Clone, Copy)]
pub(crate) struct Placed {
    pub(crate) request: u32,
    pub(crate) vehicle: u32,
    pub(crate) offer: Offer,
}

/// The places and offers of seats, where they are a seating of the batch of this cost. The table is the batch's.
pub(crate) fn seated(
    pricing: &mut Pricer<'_>,
    batch: &Batch,
    table: &PriceTable,
    seats: &[Seat],
    cost: u64,
) -> Result<Option<Vec<Placed>>, NoMemory>
    requires priceable { IsPriceable pricing.old batch.now }
    requires table { IsTableOf pricing.old batch.now table.now }
    ensures seated { IfOk result (λ placed. MatchOption placed
        (IsSeatedAt pricing.old batch.now seats.now cost → ⊥)
        (λ placed. IsSeatedAt pricing.old batch.now seats.now cost
        × ArePlaced pricing.old batch.now seats.now placed.items)) }
    ensures kept { pricing.new ≡ pricing.old }
{
    if !stand_in_order(pricing.alloc(), batch.requests(), seats)? || !drive_once(seats) {
        return Ok(None);
    }
    let Some(placed) = placed_of(pricing, batch, table, seats)? else {
        return Ok(None);
    };
    // This call tells that the vehicles differ.
    let _vehicles = batch.vehicles().vehicles();
    if cost_of(batch, placed.as_slice()) == u128::from(cost) {
        Ok(Some(placed))
    } else {
        Ok(None)
    }
}

// Whether seats are of some of these requests, each once and in their order.
fn stand_in_order(alloc: Global, requests: &[Ride], seats: &[Seat]) -> Result<bool, NoMemory>
    ensures { IfOk result (λ stand. IsTrue stand
        ↔ (map (λ (seat : Seat). seat.request) seats.now
        ≡ filter (has_seat seats.now) (ride_ids requests.now))) }
{
    let ids = seated_ids(alloc, requests, seats)?;
    let seats = request_ids(alloc, seats)?;
    Ok(seats.as_slice() == ids.as_slice())
}

// The ids of the requests that have a seat.
fn seated_ids(alloc: Global, requests: &[Ride], seats: &[Seat]) -> Result<Vec<u64>, NoMemory>
    ensures { IfOk result (λ ids. ids.items ≡ filter (has_seat seats.now) (ride_ids requests.now)) }
{
    let mut ids = Vec::new(alloc);
    for ride in requests {
        if has_seat(seats, ride.id) {
            ids.push(ride.id)?;
        }
    }
    Ok(ids)
}

// The requests of seats.
fn request_ids(alloc: Global, seats: &[Seat]) -> Result<Vec<u64>, NoMemory>
    ensures { IfOk result (λ ids. ids.items ≡ map (λ (seat : Seat). seat.request) seats.now) }
{
    seats.iter().map(|seat| seat.request).collect(alloc)
}

// Whether a request has a seat.
fn has_seat(seats: &[Seat], id: u64) -> bool
    ensures { result ≡ has_seat seats.now id }
{
    seats.iter().any(|seat| seat.request == id)
}

// Whether no two seats are of one vehicle.
fn drive_once(seats: &[Seat]) -> bool
    ensures { IsTrue result ↔ IsDistinct nat_eq (map (λ (seat : Seat). seat.vehicle) seats.now) }
{
    for (place, seat) in seats.iter().enumerate() {
        if drives(&seats[..place], seat.vehicle) {
            return false;
        }
    }
    true
}

// Whether one of these seats is of a vehicle.
fn drives(seats: &[Seat], vehicle: u64) -> bool
    ensures { result ≡ list_any (λ (seat : Seat). seat.vehicle == vehicle) seats.now }
{
    seats.iter().any(|seat| seat.vehicle == vehicle)
}

// The places and offers of seats, where each has an offer.
fn placed_of(
    pricing: &mut Pricer<'_>,
    batch: &Batch,
    table: &PriceTable,
    seats: &[Seat],
) -> Result<Option<Vec<Placed>>, NoMemory>
    requires priceable { IsPriceable pricing.old batch.now }
    requires table { IsTableOf pricing.old batch.now table.now }
    ensures placed { IfOk result (λ placed. MatchOption placed
        (All (λ seat. IsSome (seat_offer pricing.old batch.now seat)) seats.now → ⊥)
        (λ placed. ArePlaced pricing.old batch.now seats.now placed.items)) }
    ensures kept { pricing.new ≡ pricing.old }
{
    let mut all = Vec::with_capacity(pricing.alloc(), seats.len())?;
    for seat in seats {
        let Some(placed) = placed_seat(pricing, batch, table, seat)? else {
            return Ok(None);
        };
        all.push(placed)?;
    }
    Ok(Some(all))
}

// The places and the offer of a seat, where it has one.
fn placed_seat(
    pricing: &mut Pricer<'_>,
    batch: &Batch,
    table: &PriceTable,
    seat: &Seat,
) -> Result<Option<Placed>, NoMemory>
    requires priceable { IsPriceable pricing.old batch.now }
    requires table { IsTableOf pricing.old batch.now table.now }
    ensures placed { IfOk result (λ placed. MatchOption placed
        (seat_offer pricing.old batch.now seat.now ≡ None)
        (IsPlaced pricing.old batch.now seat.now)) }
    ensures kept { pricing.new ≡ pricing.old }
{
    let Some(request) = place_of_request(batch.requests(), seat.request) else {
        return Ok(None);
    };
    let Some(vehicle) = place_of_vehicle(batch.vehicles().vehicles(), seat.vehicle) else {
        return Ok(None);
    };
    let (request, vehicle) = (request as u32, vehicle as u32);
    let places = SeatPlaces {
        request,
        vehicle,
        i: seat.i,
        j: seat.j,
    };
    match offer_at(pricing, batch, table, places)? {
        Some(offer) => Ok(Some(Placed {
            request,
            vehicle,
            offer,
        })),
        None => Ok(None),
    }
}

// The offer of a seat's vehicle to its request at its places, if there is one: that of their cell where it has these places, as it has for
// most seats, so that only others are priced once more.
fn offer_at(
    pricing: &mut Pricer<'_>,
    batch: &Batch,
    table: &PriceTable,
    seat: SeatPlaces,
) -> Result<Option<Offer>, NoMemory>
    requires seat { IsWithin batch.now seat }
    requires priceable { IsPriceable pricing.old batch.now }
    requires table { IsTableOf pricing.old batch.now table.now }
    ensures offer { IfOk result (IsOfferOf pricing.old batch.now seat) }
    ensures kept { pricing.new ≡ pricing.old }
{
    match table.cell(seat.request, seat.vehicle) {
        Some(least) if least.i == seat.i && least.j == seat.j => Ok(Some(*least)),
        _ => offer_of_seat(batch, pricing, seat),
    }
}

// The place of the request of an id.
fn place_of_request(rides: &[Ride], id: u64) -> Option<usize>
    ensures { result ≡ position (λ (ride : Ride). ride.id == id) rides.now }
{
    rides.iter().position(|ride| ride.id == id)
}

// The place of the vehicle of an id.
fn place_of_vehicle(vehicles: &[Vehicle], id: u64) -> Option<usize>
    ensures { result ≡ position (λ (v : Vehicle). v.id == id) vehicles.now }
{
    vehicles.iter().position(|vehicle| vehicle.id == id)
}

// What the seats cost by their offers, with the penalty for each request without a seat.
fn cost_of(batch: &Batch, placed: &[Placed]) -> u128
    requires { length placed.now ≤ LARGEST_BATCH }
    ensures { result ≡ sum_by (λ (one : Placed). one.offer.cost) placed.now
        + batch.now.settings.penalty * (length batch.now.requests - length placed.now) }
{
    let offers: u128 = total(placed);
    let left_out = batch.requests().len().saturating_sub(placed.len());
    offers + u128::from(batch.settings().penalty) * left_out as u128
}

// What the offers cost in all.
fn total(placed: &[Placed]) -> u128
    requires { length placed.now ≤ LARGEST_BATCH }
    ensures cost { result ≡ sum_by (λ (one : Placed). one.offer.cost) placed.now }
    ensures limit { result ≤ 128 * 2 ^ 64 }
{
    let mut sum = 0;
    for one in placed {
        sum += u128::from(one.offer.cost);
    }
    sum
}
