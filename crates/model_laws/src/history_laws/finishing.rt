//! A history whose actors' own parts say that they ended whole is finished.
ghost use Rattle.std.specs.Prelude.{◌≤◌, ℕ, List};
ghost use Rattle.ride_model.specs.declared.entry.Entry.{Entry};
ghost use Rattle.ride_model.specs.State.{State};
ghost use Rattle.ride_model.specs.History.{IsFinished};
ghost use Rattle.ride_model.specs.Legal.{IsLegal};
ghost use Rattle.model_laws.specs.history_laws.Start.{IsStart};
ghost use Rattle.model_laws.specs.inner.history_laws.Finishing.{AllWhole};

/// Where every actor ended whole and none gave a batch up, each batch that was asked for was opened, and none is open.
pub fn whole_histories_are_finished()
    ensures { (feeds desks : ℕ) (start : State) (entries : List Entry) → IsStart start → 1 ≤ desks
        → IsLegal feeds desks start entries → AllWhole feeds desks entries
        → IsFinished feeds desks start entries }
{}
