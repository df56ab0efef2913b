//! What a commit makes of requests and vehicles.
ghost use Rattle.std.specs.Prelude.{◌≡◌, ◌<◌, ◌+◌, ◌^◌, ℕ, length, slice_index_or};
ghost use Rattle.ride_model.specs.declared.entry.Outcome.TheVariants.{Confirmed};
ghost use Rattle.ride_model.specs.declared.entry.Outcome.{Outcome};
ghost use Rattle.ride_model.specs.declared.vehicle.Vehicle.{Vehicle};
ghost use Rattle.ride_model.specs.Road.{RoadMap};
ghost use Rattle.ride_model.specs.State.{State};
ghost use Rattle.ride_model.specs.Step.{raised};
ghost use Rattle.ride_model.specs.Batch.{seat_of, outcome_of, after_outcome, after_outcomes};
ghost use Rattle.ride_model.specs.Seating.{vehicle_ids};
ghost use Rattle.stop_plans.specs.inner.Change.{InsertsInto};
ghost use Rattle.board_core.specs.inner.Given.{Given};
ghost use Rattle.board_core.specs.inner.Service.{state_at};
ghost use Rattle.board_core.specs.inner.Settling.{started, IsCommitted, IsSettledTo, IsToConfirm};

use crate::places::Places;
use crate::service::Service;
use batch_commit::Solved;
use ride_model::{Offer, Outcome, RequestState, Ride, Seat, Vehicle};
use stop_plans::insert_ride;

impl Service {
    /// Makes of each request of a solved batch what its outcome says.
    pub(crate) fn settle(&mut self, places: &Places, solved: &Solved)
        requires fleet { places.now ≡ vehicle_ids self.old.vehicles.items }
        requires settled { (setup : Given) × (moment : State) × IsCommitted setup moment solved.now
            × IsSettledTo moment solved.now 0 self.old }
        ensures { (setup : Given) (moment rest : State) → IsCommitted setup moment solved.now
            → IsSettledTo moment solved.now 0 self.old
            → after_outcomes solved.now.batch solved.now.answer.seating moment
            solved.now.batch.requests (state_at setup self.old rest)
            ≡ state_at setup self.new rest }
    {
        for (r, ride) in solved.batch().requests().iter().enumerate() {
            self.settle_one(places, solved, r, *ride);
        }
    }

    // Makes of one request what its outcome says.
    fn settle_one(&mut self, places: &Places, solved: &Solved, r: usize, ride: Ride)
        requires fleet { places.now ≡ vehicle_ids self.old.vehicles.items }
        requires within { r < length solved.now.batch.requests }
        requires ride { ride ≡ slice_index_or solved.now.batch.requests r ride }
        requires settled { (setup : Given) × (moment : State) × IsCommitted setup moment solved.now
            × IsSettledTo moment solved.now r self.old }
        ensures settled { (setup : Given) (moment : State) → IsCommitted setup moment solved.now
            → IsSettledTo moment solved.now r self.old
            → IsSettledTo moment solved.now (r + 1) self.new }
        ensures state { (setup : Given) (moment rest : State) → IsCommitted setup moment solved.now
            → IsSettledTo moment solved.now r self.old
            → after_outcome solved.now.batch ride (seat_of solved.now.answer.seating ride.id)
            (outcome_of solved.now.batch solved.now.answer.seating moment ride.id)
            (state_at setup self.old rest)
            ≡ state_at setup self.new rest }
    {
        match outcome_at(solved, r) {
            Outcome::Gone => {}
            Outcome::Away => {
                let number = solved.batch().number();
                self.requests.set_state(ride.id, RequestState::Away(number));
            }
            Outcome::Moved { .. } | Outcome::Behind { .. } => {
                self.requests.set_state(ride.id, RequestState::Waiting);
            }
            Outcome::Confirmed => self.confirm(places, solved, r, ride),
        }
    }

    // Confirms a request: its vehicle has the ride, and the request is that vehicle's.
    fn confirm(&mut self, places: &Places, solved: &Solved, r: usize, ride: Ride)
        requires fleet { places.now ≡ vehicle_ids self.old.vehicles.items }
        requires within { r < length solved.now.batch.requests }
        requires ride { ride ≡ slice_index_or solved.now.batch.requests r ride }
        requires confirms { (setup : Given) × (moment : State)
            × IsToConfirm setup moment solved.now r ride self.old }
        ensures settled { (setup : Given) (moment : State)
            → IsToConfirm setup moment solved.now r ride self.old
            → IsSettledTo moment solved.now (r + 1) self.new }
        ensures state { (setup : Given) (moment rest : State)
            → IsToConfirm setup moment solved.now r ride self.old
            → after_outcome solved.now.batch ride (seat_of solved.now.answer.seating ride.id)
            Confirmed (state_at setup self.old rest)
            ≡ state_at setup self.new rest }
    {
        let Some(seat) = find_seat(solved.answer().seating.items(), ride.id) else {
            return;
        };
        let Some(place) = self.place_of(places, seat.vehicle) else {
            return;
        };
        let Some(offer) = solved.table().cell(r as u32, place as u32) else {
            return;
        };
        seat_ride(&mut self.vehicles[place], ride, offer);
        self.requests
            .set_state(ride.id, RequestState::Confirmed(seat.vehicle));
    }
}

// The outcome of a request, by its place in the batch.
fn outcome_at(solved: &Solved, r: usize) -> Outcome
    requires { r < length solved.now.answer.outcomes }
    ensures { (d : ℕ × Outcome) → result ≡ (slice_index_or solved.now.answer.outcomes r d).1 }
{
    let (_, outcome) = solved.answer().outcomes.items()[r];
    outcome
}

// The seat of a request.
#[tactic(auto, using(batch_commit::proofs::Found::find_rules))]
fn find_seat(seats: &[Seat], id: u64) -> Option<Seat>
    ensures { result ≡ seat_of seats.now id }
{
    for seat in seats {
        if seat.request == id {
            return Some(*seat);
        }
    }
    None
}

// Puts a ride into a vehicle's plan at the places of an offer. An idle vehicle starts at the offer's start.
fn seat_ride(vehicle: &mut Vehicle, ride: Ride, offer: &Offer)
    requires version { vehicle.old.version < 2 ^ 63 }
    requires inserts { (roads : RoadMap) × (new : Vehicle)
        × InsertsInto roads (started vehicle.old offer.now.start) ride offer.now new }
    ensures { (roads : RoadMap) (new : Vehicle)
        → InsertsInto roads (started vehicle.old offer.now.start) ride offer.now new
        → vehicle.new ≡ raised new }
{
    if vehicle.stops.is_empty() {
        vehicle.ready = offer.start;
    }
    insert_ride(vehicle, ride, offer);
    vehicle.version += 1;
}
