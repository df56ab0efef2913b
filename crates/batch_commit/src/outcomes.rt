//! What a commit makes of each request of its batch.
ghost use Rattle.std.specs.Prelude.{◌≡◌, ◌-◌, ◌^◌, ◌<◌, length, map, min, ℕ, Some, option_copied};
ghost use Rattle.ride_model.specs.declared.entry.Outcome.{Outcome};
ghost use Rattle.ride_model.specs.declared.vehicle.Vehicle.{Vehicle};
ghost use Rattle.ride_model.specs.State.{State};
ghost use Rattle.ride_model.specs.Offers.{start_of};
ghost use Rattle.ride_model.specs.Vehicle.{ride_ids};
ghost use Rattle.ride_model.specs.Seating.{vehicle_ids, find_vehicle};
ghost use Rattle.ride_model.specs.Batch.{seat_of, priced_start, version_of, seated_outcome, outcome_by, outcomes_of};
ghost use Rattle.batch_commit.specs.inner.Solved.{StandsSo};

use crate::Batch;
use ride_model::{Outcome, OutcomeList, Seat, Vehicle};

// The outcome of a request.
fn outcome_for(
    batch: &Batch,
    seats: &[Seat],
    id: u64,
    cancelled: bool,
    now: u64,
    vehicles: &[Vehicle],
) -> Outcome
    ensures { (s : State) → s.vehicles ≡ vehicles.now → s.clock ≡ now
        → result ≡ outcome_by batch.now s cancelled (seat_of seats.now id) }
{
    if cancelled {
        return Outcome::Gone;
    }
    match find_seat(seats, id) {
        None => Outcome::Away,
        Some(seat) => outcome_of_seat(batch, &seat, now, vehicles),
    }
}

// The seat of a request.
#[tactic(auto, using(crate::proofs::Found::find_rules))]
fn find_seat(seats: &[Seat], id: u64) -> Option<Seat>
    ensures { result ≡ seat_of seats.now id }
{
    for seat in seats {
        if seat.request == id {
            return Some(*seat);
        }
    }
    None
}

// The outcome of a seated request.
fn outcome_of_seat(batch: &Batch, seat: &Seat, now: u64, vehicles: &[Vehicle]) -> Outcome
    ensures { (s : State) → s.vehicles ≡ vehicles.now → s.clock ≡ now
        → result ≡ seated_outcome batch.now s seat.now }
{
    let copies = batch.vehicles().vehicles();
    let named = version_in(copies, seat.vehicle);
    let stands = version_in(vehicles, seat.vehicle);
    let start = start_in(batch, seat.vehicle);
    if named != stands {
        Outcome::Moved { named, stands }
    } else if start < now {
        Outcome::Behind { start, now }
    } else {
        Outcome::Confirmed
    }
}

// The vehicle of an id.
#[tactic(auto, using(crate::proofs::Found::find_rules))]
fn find_copy(vehicles: &[Vehicle], id: u64) -> Option<&Vehicle>
    ensures { option_copied result ≡ find_vehicle vehicles.now id }
{
    for vehicle in vehicles {
        if vehicle.id == id {
            return Some(vehicle);
        }
    }
    None
}

// The version of the vehicle of an id, 0 where there is none.
fn version_in(vehicles: &[Vehicle], id: u64) -> u64
    ensures { result ≡ version_of vehicles.now id }
{
    match find_copy(vehicles, id) {
        None => 0,
        Some(vehicle) => vehicle.version,
    }
}

// When the vehicle of an id would start for the batch by its copy; the greatest number where that is beyond it.
fn start_in(batch: &Batch, id: u64) -> u64
    ensures { result ≡ min (priced_start batch.now id) (2 ^ 64 - 1) }
{
    match find_copy(batch.vehicles().vehicles(), id) {
        None => 0,
        Some(vehicle) => start_of_copy(vehicle, batch.time(), batch.settings().lead),
    }
}

// When a vehicle would start for a batch of a time.
fn start_of_copy(vehicle: &Vehicle, time: u64, lead: u64) -> u64
    ensures { result ≡ min (start_of vehicle.now lead time) (2 ^ 64 - 1) }
{
    let ready = vehicle.ready;
    if vehicle.stops.is_empty() {
        ready.max(time.saturating_add(lead))
    } else {
        ready
    }
}

// Decides each request in turn.
pub fn decide_each(
    batch: &Batch,
    seats: &[Seat],
    now: u64,
    vehicles: &[Vehicle],
    cancelled: &[bool],
    outcomes: &mut OutcomeList,
)
    requires one_flag_each { length cancelled.now ≡ length batch.now.requests }
    requires one_each { map (λ (item : ℕ × Outcome). item.0) outcomes.old
        ≡ ride_ids batch.now.requests }
    ensures decided { (s : State) → StandsSo batch.now now vehicles.now cancelled.now s
        → outcomes.new ≡ outcomes_of batch.now seats.now s }
    ensures one_each_still { map (λ (item : ℕ × Outcome). item.0) outcomes.new
        ≡ ride_ids batch.now.requests }
{
    let requests = batch.requests();
    for r in 0..requests.len() {
        let id = requests[r].id;
        let outcome = outcome_for(batch, seats, id, cancelled[r], now, vehicles);
        outcomes.set(r, (id, outcome));
    }
}
