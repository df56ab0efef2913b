//! The state of every legal history is consistent.
ghost use Rattle.std.specs.Prelude.{◌≡◌, ◌≤◌, ℕ, List, ◌++◌, length, All, Contains};
ghost use Rattle.ride_model.specs.declared.entry.Entry.{Entry};
ghost use Rattle.ride_model.specs.declared.vehicle.Vehicle.{Vehicle};
ghost use Rattle.ride_model.specs.State.{State};
ghost use Rattle.ride_model.specs.Legal.{IsLegal, replay};
ghost use Rattle.ride_model.specs.declared.limits.TheConstants.{MOST_STOPS};
ghost use Rattle.model_laws.specs.history_laws.Start.{IsStart};
ghost use Rattle.model_laws.specs.inner.history_laws.Start.{fed_total};
ghost use Rattle.model_laws.specs.inner.history_laws.Consistent.{IsConsistent};

/// Each vehicle is lawful and has just the rides of the requests that it has promised or carries; each open batch is in
/// order; numbers are within their limits.
pub fn every_state_is_consistent()
    ensures { (feeds desks : ℕ) (start : State) (entries : List Entry) → IsStart start
        → IsLegal feeds desks start entries
        → IsConsistent desks (fed_total entries) start (replay start entries) }
{}

/// Two records of a vehicle with equal versions are equal.
pub fn equal_versions_are_equal_records()
    ensures { (feeds desks : ℕ) (start : State) (first second : List Entry) → IsStart start
        → IsLegal feeds desks start (first ++ second) → (earlier later : Vehicle)
        → Contains (replay start first).vehicles earlier
        → Contains (replay start (first ++ second)).vehicles later
        → earlier.id ≡ later.id → earlier.version ≡ later.version → earlier ≡ later }
{}

/// A vehicle has at most 16 stops, and no more rides than stops.
pub fn plans_have_at_most_16_stops()
    ensures stops { (feeds desks : ℕ) (start : State) (entries : List Entry) → IsStart start
        → IsLegal feeds desks start entries
        → All (λ (v : Vehicle). length v.stops.items ≤ MOST_STOPS) (replay start entries).vehicles }
    ensures rides { (feeds desks : ℕ) (start : State) (entries : List Entry) → IsStart start
        → IsLegal feeds desks start entries
        → All (λ (v : Vehicle). length v.rides.items ≤ length v.stops.items)
        (replay start entries).vehicles }
{}
