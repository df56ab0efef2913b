//! A commit changes only vehicles that stand as they were priced.
ghost use Rattle.std.specs.Prelude.{◌≡◌, ◌≢◌, ℕ, List, [], ◌∷◌, ◌++◌, Some};
ghost use Rattle.ride_model.specs.declared.command.Actor.TheVariants.{Desk};
ghost use Rattle.ride_model.specs.declared.entry.Entry.{Entry};
ghost use Rattle.ride_model.specs.declared.entry.Event.TheVariants.{Committed};
ghost use Rattle.ride_model.specs.declared.entry.Outcome.{Outcome};
ghost use Rattle.ride_model.specs.declared.offer.Seat.{Seat};
ghost use Rattle.ride_model.specs.Batch.{version_of};
ghost use Rattle.ride_model.specs.Seating.{BatchCopy, find_vehicle};
ghost use Rattle.ride_model.specs.State.{State, open_batch_numbered};
ghost use Rattle.ride_model.specs.Legal.{IsLegal, replay};
ghost use Rattle.model_laws.specs.history_laws.Start.{IsStart};

/// A vehicle whose version is not that of the batch's copy is as it was before the commit.
pub fn a_commit_changes_only_standing_vehicles()
    ensures { (feeds desks : ℕ) (start : State) (before : List Entry)
        (desk number cost : ℕ) (seats : List Seat)
        (prices pays : List (ℕ × ℕ)) (outcomes : List (ℕ × Outcome)) (batch : BatchCopy) (id : ℕ)
        → IsStart start
        → IsLegal feeds desks start before
        → open_batch_numbered (replay start before) desk number ≡ Some batch
        → version_of batch.vehicles id ≢ version_of (replay start before).vehicles id
        → find_vehicle (replay start (before
        ++ record { actor = Desk desk; event = Committed number cost seats prices pays outcomes }
        ∷ [])).vehicles id
        ≡ find_vehicle (replay start before).vehicles id }
{}
