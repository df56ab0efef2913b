//! What opening and abandoning a batch change.
ghost use Rattle.std.specs.Prelude.{◌≡◌, ◌+◌, ◌++◌, ◌∷◌, [], ◌&&◌, ℕ, Some, option_map, map, take, if◌then◌else◌};
ghost use Rattle.ride_model.specs.declared.reply.RequestState.TheVariants.{Waiting, InBatch};
ghost use Rattle.ride_model.specs.Seating.{BatchCopy};
ghost use Rattle.ride_model.specs.State.{State, AcceptedRequest, request_state};
ghost use Rattle.ride_model.specs.Batch.{waiting_rides, next_batch, after_opening, after_abandon};
ghost use Rattle.model_laws.specs.inner.Requests.{is_of, is_in};

/// A batch takes the first waiting requests, in order of acceptance, and copies of all vehicles.
pub fn opening_takes_the_first_waiting()
    ensures requests { (s : State) (desk : ℕ)
        → (next_batch s desk).requests ≡ take s.settings.batch (waiting_rides s) }
    ensures vehicles { (s : State) (desk : ℕ) → (next_batch s desk).vehicles ≡ s.vehicles }
{}

/// An opening puts the batch's requests into it, counts it and keeps it open; nothing else changes.
pub fn opening_changes_nothing_else()
    ensures states { (s : State) (batch : BatchCopy) (id : ℕ)
        → request_state (after_opening s batch) id
        ≡ (if is_of batch.requests id then option_map (λ _. InBatch batch.number)
        (request_state s id) else request_state s id) }
    ensures others { (s : State) (batch : BatchCopy) → after_opening s batch
        ≡ record s {
          requests = (after_opening s batch).requests;
          opened = s.opened + 1;
          batches = s.batches ++ batch ∷ [];
        } }
    ensures rides { (s : State) (batch : BatchCopy)
        → map (λ (r : AcceptedRequest). r.ride) (after_opening s batch).requests
        ≡ map (λ (r : AcceptedRequest). r.ride) s.requests }
{}

/// An abandon lets exactly those requests wait again that are still in the batch; nothing else changes but that the batch
/// is no longer open.
pub fn abandon_gives_back_what_is_in_the_batch()
    ensures states { (s : State) (batch : BatchCopy) (id : ℕ)
        → request_state (after_abandon batch s) id
        ≡ (if is_of batch.requests id
        && is_in batch.number (request_state s id) then Some Waiting else request_state s id) }
    ensures others { (s : State) (batch : BatchCopy) → after_abandon batch s
        ≡ record s {
          requests = (after_abandon batch s).requests;
          batches = (after_abandon batch s).batches;
        } }
{}
