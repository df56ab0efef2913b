//! What holds of every text.
ghost use Rattle.std.specs.Prelude.{◌≡◌, ◌≢◌, ℕ, List, Result, Err};
ghost use Rattle.ride_model.specs.declared.settings.Settings.{Settings};
ghost use Rattle.ride_model.specs.declared.vehicle.Vehicle.{Vehicle};
ghost use Rattle.fleet_file.specs.declared.errors.FleetError.{FleetError};
ghost use Rattle.fleet_file.specs.declared.errors.FleetError.TheVariants.{NoMemory, ReadFault};
ghost use Rattle.fleet_file.specs.FleetText.{fleet_text};

/// Every text gives one answer, settings and vehicles or a refusal, and no other; want of memory
/// and faults of reading are none.
pub fn a_text_has_one_answer()
    ensures total { (nodes : ℕ) (bytes : List ℕ)
        → (answer : Result (Settings × List Vehicle) FleetError) × (fleet_text nodes bytes ≡ answer)
        × ((other : Result (Settings × List Vehicle) FleetError) → fleet_text nodes bytes ≡ other
        → other ≡ answer) }
    ensures no_memory { (nodes : ℕ) (bytes : List ℕ) → fleet_text nodes bytes ≢ Err NoMemory }
    ensures no_fault { (nodes : ℕ) (bytes : List ℕ) → fleet_text nodes bytes ≢ Err ReadFault }
{}
