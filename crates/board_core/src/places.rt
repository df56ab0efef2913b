//! Where the vehicle of an id stands in its fleet.
ghost use Rattle.std.specs.Prelude.{◌≡◌, ◌<◌, length, slice_index_or, position, Some, None, MatchOption, IfOk, nat_eq};
ghost use Rattle.std.specs.List.{IsDistinct};
ghost use Rattle.ride_model.specs.declared.vehicle.Vehicle.{Vehicle};
ghost use Rattle.ride_model.specs.Seating.{vehicle_ids};

use indexmap::IndexSet;
use ride_model::{NoMemory, Vehicle};
use std::alloc::Global;
use std::marker::Model;

/// The ids of a fleet, in order; the place of one is found in constant time.
#[derive(Drop)]
pub(crate) struct Places {
    ids: IndexSet<u64>,
}

impl Model for Places {
    ghost use Rattle.std.specs.Prelude.{ℕ, List};

    ghost Value = { List ℕ };

    ghost view = { λ places. places.ids.keys };
}

impl Places {
    pub(crate) fn new(alloc: Global, fleet: &[Vehicle]) -> Result<Places, NoMemory>
        requires { IsDistinct nat_eq (vehicle_ids fleet.now) }
        ensures { IfOk result (λ places. places ≡ vehicle_ids fleet.now) }
    {
        let mut ids = IndexSet::with_capacity(alloc, fleet.len())?;
        for vehicle in fleet {
            ids.insert(vehicle.id)?;
        }
        Ok(Places { ids })
    }

    /// The place of an id.
    pub(crate) fn of(&self, id: u64) -> Option<usize>
        ensures { result ≡ position (nat_eq id) self.now }
    {
        self.ids.get_index_of(&id)
    }
}
