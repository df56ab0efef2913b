//! Every legal history has a text.
ghost use Rattle.std.specs.Prelude.{ℕ, List};
ghost use Rattle.ride_model.specs.declared.entry.Entry.{Entry};
ghost use Rattle.ride_model.specs.State.{State};
ghost use Rattle.ride_model.specs.Legal.{IsLegal};
ghost use Rattle.ride_model.specs.Text.{IsOneOrTwo, HasText};
ghost use Rattle.model_laws.specs.history_laws.Start.{IsStart};
ghost use Rattle.model_laws.specs.inner.history_laws.Start.{IsFedWithin};

/// The numbers of every legal history have at most 18 digits, where those of its commands have.
pub fn every_legal_history_has_a_text()
    ensures { (feeds desks : ℕ) (start : State) (entries : List Entry) → IsStart start
        → IsOneOrTwo feeds → IsOneOrTwo desks
        → IsLegal feeds desks start entries → IsFedWithin start.settings.log entries
        → HasText start.settings.log feeds desks entries }
{}
