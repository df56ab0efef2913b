//! What holds of every text.
ghost use Rattle.std.specs.Prelude.{◌≡◌, ◌≢◌, ℕ, List, Result, Err};
ghost use Rattle.ride_model.specs.Road.{RoadMap};
ghost use Rattle.gr_reader.specs.declared.errors.MapError.{MapError};
ghost use Rattle.gr_reader.specs.declared.errors.MapError.TheVariants.{NoMemory, ReadFault};
ghost use Rattle.gr_reader.specs.MapText.{map_text};

/// Every text gives one answer, a map or a refusal, and no other; want of memory and faults of
/// reading are none.
pub fn a_text_has_one_answer()
    ensures total { (bytes : List ℕ)
        → (answer : Result RoadMap MapError) × (map_text bytes ≡ answer)
        × ((other : Result RoadMap MapError) → map_text bytes ≡ other → other ≡ answer) }
    ensures no_memory { (bytes : List ℕ) → map_text bytes ≢ Err NoMemory }
    ensures no_fault { (bytes : List ℕ) → map_text bytes ≢ Err ReadFault }
{}
