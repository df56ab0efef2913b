//! What a company hands on of itself: its time, its vehicles' versions, and their prices.
ghost use Rattle.std.specs.Prelude.{◌≡◌, ◌*◌, ◌<◌, length};
ghost use Rattle.dual_check.specs.Cells.{cell_at};

use ride_model::VersionList;
use std::marker::Model;

/// A company's vehicles at a time, in fleet order, and their prices for some rides.
#[derive(Drop)]
pub struct Quote {
    /// The company's clock, in seconds.
    pub time: u64,
    /// Its vehicles' ids with their versions.
    pub plans: VersionList,
    pub prices: PriceRows,
}

/// For each ride a price of each vehicle, or none where the vehicle has no offer. Contracts see a grid: a row for each ride, a
/// column for each vehicle.
#[derive(Drop)]
pub struct PriceRows {
    rides: u32,
    vehicles: u32,
    cells: Vec<Option<u64>>,
}

impl Model for PriceRows {
    ghost use Rattle.std.specs.Prelude.{◌≡◌, ◌*◌, length};
    ghost use Rattle.dual_check.specs.Cells.{GridCells};

    ghost Value = { GridCells };

    ghost view = { λ p. record { rows = p.rides; columns = p.vehicles; cells = p.cells.items } };

    ghost invariant = { λ p. length p.cells.items ≡ p.rides * p.vehicles };
}

impl PriceRows {
    /// The rows of these cells, ride by ride.
    pub fn of(rides: u32, vehicles: u32, cells: Vec<Option<u64>>) -> PriceRows
        requires { length cells.items ≡ rides * vehicles }
        ensures { result ≡ record { rows = rides; columns = vehicles; cells = cells.items } }
    {
        PriceRows {
            rides,
            vehicles,
            cells,
        }
    }

    pub fn rides(&self) -> u32
        ensures { result ≡ self.now.rows }
    {
        self.rides
    }

    pub fn vehicles(&self) -> u32
        ensures { result ≡ self.now.columns }
    {
        self.vehicles
    }

    /// The price of a vehicle for a ride, by their places.
    #[inline]
    pub fn cell(&self, ride: u32, vehicle: u32) -> Option<u64>
        requires ride_in { ride < self.now.rows }
        requires vehicle_in { vehicle < self.now.columns }
        ensures { result ≡ cell_at self.now ride vehicle }
    {
        self.cells[ride as usize * self.vehicles as usize + vehicle as usize]
    }
}
