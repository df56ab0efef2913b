//! A request is closed at most once, and what a commit confirms stands as it was priced.
ghost use Rattle.std.specs.Prelude.{◌≡◌, ◌≤◌, ℕ, List, [], ◌∷◌, ◌++◌, Contains, Some, IsTrue, IsSomeAnd};
ghost use Rattle.ride_model.specs.declared.command.Actor.TheVariants.{Desk};
ghost use Rattle.ride_model.specs.declared.entry.Entry.{Entry};
ghost use Rattle.ride_model.specs.declared.entry.Event.TheVariants.{Committed};
ghost use Rattle.ride_model.specs.declared.entry.Outcome.{Outcome};
ghost use Rattle.ride_model.specs.declared.entry.Outcome.TheVariants.{Confirmed};
ghost use Rattle.ride_model.specs.declared.offer.Seat.{Seat};
ghost use Rattle.ride_model.specs.declared.reply.RequestState.{RequestState};
ghost use Rattle.ride_model.specs.declared.vehicle.Vehicle.{Vehicle};
ghost use Rattle.ride_model.specs.Seating.{BatchCopy, find_vehicle};
ghost use Rattle.ride_model.specs.State.{State, request_state, open_batch_numbered};
ghost use Rattle.ride_model.specs.Legal.{IsLegal, replay};
ghost use Rattle.model_laws.specs.history_laws.Start.{IsStart};
ghost use Rattle.model_laws.specs.inner.history_laws.Closing.{is_closed, closings_of};

/// A request that is closed stays as it is.
pub fn closed_requests_stay_closed()
    ensures { (feeds desks : ℕ) (start : State) (first second : List Entry) → IsStart start
        → IsLegal feeds desks start (first ++ second) → (id : ℕ) (state : RequestState)
        → request_state (replay start first) id ≡ Some state → IsTrue (is_closed state)
        → request_state (replay start (first ++ second)) id ≡ Some state }
{}

/// A request is dropped, turned away or cancelled at most once, and only one of the three.
pub fn a_request_is_closed_at_most_once()
    ensures { (feeds desks : ℕ) (start : State) (entries : List Entry) (id : ℕ) → IsStart start
        → IsLegal feeds desks start entries → closings_of id entries ≤ 1 }
{}

/// Where a commit confirms a request, its vehicle is as in the batch's copies, over which the seat was priced.
pub fn confirmed_pairs_stand()
    ensures { (feeds desks : ℕ) (start : State) (before after : List Entry)
        (desk number cost : ℕ) (seats : List Seat)
        (prices pays : List (ℕ × ℕ)) (outcomes : List (ℕ × Outcome))
        (batch : BatchCopy) (seat : Seat) → IsStart start
        → IsLegal feeds desks start (before
        ++ record { actor = Desk desk; event = Committed number cost seats prices pays outcomes }
        ∷ after)
        → open_batch_numbered (replay start before) desk number ≡ Some batch → Contains seats seat
        → Contains outcomes (seat.request, Confirmed)
        → IsSomeAnd (find_vehicle batch.vehicles seat.vehicle)
        (λ (v : Vehicle). find_vehicle (replay start before).vehicles seat.vehicle ≡ Some v) }
{}
