//! Price tables.
ghost use Rattle.std.specs.Prelude.{◌≡◌, ◌+◌, ◌*◌, ◌<◌, length, slice_set, Some, None, option_copied};
ghost use Rattle.batch_commit.specs.inner.Table.{Table, cell_at};

use ride_model::Offer;
use std::marker::Model;

/// For each request and vehicle of a batch an offer, where there is one.
#[derive(Drop)]
pub struct PriceTable {
    requests: u32,
    vehicles: u32,
    cells: Vec<Option<Offer>>,
}

impl Model for PriceTable {
    ghost use Rattle.std.specs.Prelude.{◌≡◌, ◌*◌, length};
    ghost use Rattle.batch_commit.specs.inner.Table.{Table};

    ghost Value = { Table };

    ghost view = { λ t. record { rows = t.requests; columns = t.vehicles; cells = t.cells.items } };

    ghost invariant = { λ t. length t.cells.items ≡ t.requests * t.vehicles };
}

impl PriceTable {
    /// The table of these cells, request by request.
    pub fn of(requests: u32, vehicles: u32, cells: Vec<Option<Offer>>) -> PriceTable
        requires { length cells.items ≡ requests * vehicles }
        ensures { result ≡ record { rows = requests; columns = vehicles; cells = cells.items } }
    {
        PriceTable {
            requests,
            vehicles,
            cells,
        }
    }

    /// The offer of a vehicle to a request, by their places in the batch.
    #[inline]
    pub fn cell(&self, request: u32, vehicle: u32) -> Option<&Offer>
        requires request_in { request < self.now.rows }
        requires vehicle_in { vehicle < self.now.columns }
        ensures { option_copied result ≡ cell_at self.now request vehicle }
    {
        self.cells[place(request, vehicle, self.vehicles)].as_ref()
    }

    /// Replaces the offer of a vehicle to a request.
    pub fn put(&mut self, request: u32, vehicle: u32, offer: Offer)
        requires request_in { request < self.old.rows }
        requires vehicle_in { vehicle < self.old.columns }
        ensures { self.new ≡ record self.old {
          cells = slice_set self.old.cells
              (request * self.old.columns + vehicle) (Some offer);
        } }
    {
        let at = place(request, vehicle, self.vehicles);
        self.cells[at] = Some(offer);
    }
}

// The place of a cell.
fn place(request: u32, vehicle: u32, vehicles: u32) -> usize
    ensures { result ≡ request * vehicles + vehicle }
{
    request as usize * vehicles as usize + vehicle as usize
}
