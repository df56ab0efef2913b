//! Histories are legal entry by entry.
ghost use Rattle.std.specs.Prelude.{◌≡◌, ℕ, List, ◌++◌, ◌↔◌};
ghost use Rattle.ride_model.specs.declared.entry.Entry.{Entry};
ghost use Rattle.ride_model.specs.State.{State};
ghost use Rattle.ride_model.specs.Legal.{IsLegal, replay};

/// Every prefix of a legal history is legal, and what follows is legal from the state after the prefix.
pub fn parts_of_a_legal_history_are_legal()
    ensures { (feeds desks : ℕ) (s : State) (first second : List Entry)
        → IsLegal feeds desks s (first ++ second)
        ↔ (IsLegal feeds desks s first × IsLegal feeds desks (replay s first) second) }
{}

/// The state after a history is that of its entries, replayed in order.
pub fn replay_goes_entry_by_entry()
    ensures { (s : State) (first second : List Entry)
        → replay s (first ++ second) ≡ replay (replay s first) second }
{}
