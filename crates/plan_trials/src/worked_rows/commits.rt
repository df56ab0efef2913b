//! What a commit makes of pairs that went stale.
#![tactic(auto, unfolding(ride_model::specs::Road::travel, ride_model::specs::Road::travel_within, ride_model::specs::Offers::offer_of))]

ghost use Rattle.std.specs.Prelude.{◌≡◌, [], ◌∷◌, Some};
ghost use Rattle.ride_model.specs.declared.entry.Outcome.TheVariants.{Confirmed, Away, Gone, Moved, Behind};
ghost use Rattle.ride_model.specs.declared.reply.RequestState.TheVariants.{Waiting, InBatch, Cancelled};
ghost use Rattle.ride_model.specs.State.{request_state};
ghost use Rattle.ride_model.specs.Batch.{outcomes_of, after_commit};
ghost use Rattle.plan_trials.specs.worked_rows.Roads.{default_settings};
ghost use Rattle.plan_trials.specs.worked_rows.Runs.{seat};
ghost use Rattle.plan_trials.specs.worked_rows.Stale.{batch_of, at_commit};
ghost use Rattle.plan_trials.specs.worked_rows.Vehicles.{idle_vehicle, ride_7, ride_of_one, with_ride_7};

/// A vehicle that changed, a start behind the clock, a cancelled request and one without a seat are named as such; a pair
/// that stands is confirmed.
pub fn stale_pairs_are_named()
    ensures moved { outcomes_of (batch_of default_settings
        (ride_of_one 8 4 3 600 300)) (seat 8 1 0 0 ∷ [])
        (at_commit default_settings (ride_of_one 8 4 3 600 300) (InBatch 1) (with_ride_7 2) 0)
        ≡ (8, Moved 0 1) ∷ [] }
    ensures behind { outcomes_of (batch_of
        (record default_settings { lead = 10 }) ride_7) (seat 7 1 0 0 ∷ [])
        (at_commit (record default_settings { lead = 10 }) ride_7 (InBatch 1) (idle_vehicle 1 2 1)
        20) ≡ (7, Behind 10 20) ∷ [] }
    ensures gone { outcomes_of (batch_of default_settings ride_7) (seat 7 1 0 0 ∷ [])
        (at_commit default_settings ride_7 Cancelled (idle_vehicle 1 2 1) 0) ≡ (7, Gone) ∷ [] }
    ensures away { outcomes_of (batch_of default_settings ride_7) []
        (at_commit default_settings ride_7 (InBatch 1) (idle_vehicle 1 2 1) 0) ≡ (7, Away) ∷ [] }
    ensures confirmed { outcomes_of (batch_of default_settings ride_7) (seat 7 1 0 0 ∷ [])
        (at_commit default_settings ride_7 (InBatch 1) (idle_vehicle 1 2 1) 0)
        ≡ (7, Confirmed) ∷ [] }
{}

/// Where several apply, a cancelled request is gone and not away, and a pair is moved before it is behind.
pub fn first_outcome_that_applies()
    ensures gone { outcomes_of (batch_of default_settings ride_7) []
        (at_commit default_settings ride_7 Cancelled (idle_vehicle 1 2 1) 0) ≡ (7, Gone) ∷ [] }
    ensures moved { outcomes_of (batch_of default_settings
        (ride_of_one 8 4 3 600 300)) (seat 8 1 0 0 ∷ [])
        (at_commit default_settings (ride_of_one 8 4 3 600 300) (InBatch 1) (with_ride_7 2) 20)
        ≡ (8, Moved 0 1) ∷ [] }
    ensures on_time { outcomes_of
        (batch_of (record default_settings { lead = 10 }) ride_7) (seat 7 1 0 0 ∷ [])
        (at_commit (record default_settings { lead = 10 }) ride_7 (InBatch 1)
        (idle_vehicle 1 2 1) 10) ≡ (7, Confirmed) ∷ [] }
{}

/// A request whose pair went stale waits again, and the vehicle stays as it was.
pub fn stale_requests_wait_again()
    ensures waits { request_state
        (after_commit (batch_of default_settings (ride_of_one 8 4 3 600 300)) (seat 8 1 0 0 ∷ [])
        (at_commit default_settings (ride_of_one 8 4 3 600 300) (InBatch 1) (with_ride_7 2) 0)) 8
        ≡ Some Waiting }
    ensures vehicles { (after_commit
        (batch_of default_settings (ride_of_one 8 4 3 600 300)) (seat 8 1 0 0 ∷ [])
        (at_commit default_settings (ride_of_one 8 4 3 600 300) (InBatch 1) (with_ride_7 2)
        0)).vehicles ≡ with_ride_7 2 ∷ [] }
    ensures gone { (after_commit (batch_of default_settings ride_7) (seat 7 1 0 0 ∷ [])
        (at_commit default_settings ride_7 Cancelled (idle_vehicle 1 2 1) 0)).vehicles
        ≡ idle_vehicle 1 2 1 ∷ [] }
{}
