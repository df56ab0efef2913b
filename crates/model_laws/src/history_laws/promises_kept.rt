//! Every legal history keeps its promises.
ghost use Rattle.std.specs.Prelude.{ℕ, List};
ghost use Rattle.ride_model.specs.declared.entry.Entry.{Entry};
ghost use Rattle.ride_model.specs.State.{State};
ghost use Rattle.ride_model.specs.Legal.{IsLegal};
ghost use Rattle.ride_model.specs.Promises.{KeepsPromises};
ghost use Rattle.model_laws.specs.history_laws.Start.{IsStart};

/// In every legal history a late report that names a ride is the only event after which one of the ride's limits may be
/// exceeded, and every vehicle is lawful.
pub fn every_legal_history_keeps_its_promises()
    ensures { (feeds desks : ℕ) (start : State) (entries : List Entry) → IsStart start
        → IsLegal feeds desks start entries
        → KeepsPromises start entries }
{}
