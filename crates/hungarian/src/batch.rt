//! Batches, solved as grids of the costs in their tables.
ghost use Rattle.std.specs.Prelude.{◌≡◌, IfOk};
ghost use Rattle.ride_model.specs.Road.{RoadMap};
ghost use Rattle.ride_model.specs.Seating.{IsLeastSeating};
ghost use Rattle.batch_commit.specs.inner.Table.{FitsBatch, HasSmallCosts, IsTableOf};
ghost use Rattle.batch_commit.specs.inner.Answer.{CertifiesOverCells, undecided};

use crate::costs::cost_grid;
use crate::seating::{pays_by, prices_by, seats_by};
use crate::solve_grid;
use batch_commit::{Answer, Batch, PriceTable};
use ride_model::NoMemory;
use std::alloc::Global;

/// A least seating of a batch, by the costs in its table's cells, with prices and payments that certify it.
pub fn solve(alloc: Global, batch: &Batch, table: &PriceTable) -> Result<Answer, NoMemory>
    requires fits { FitsBatch batch.now table.now }
    requires small { HasSmallCosts table.now }
    ensures certified { IfOk result
        (λ answer. CertifiesOverCells batch.now table.now
        answer.seating answer.prices answer.pays) }
    ensures undecided { IfOk result (λ answer. answer.outcomes ≡ undecided answer.prices) }
    ensures least { IfOk result (λ answer. (roads : RoadMap) → IsTableOf roads batch.now table.now
        → IsLeastSeating roads batch.now answer.seating) }
{
    let requests = batch.requests();
    let vehicles = batch.vehicles().vehicles();
    let grid = cost_grid(alloc, table, requests.len() as u32, vehicles.len() as u32)?;
    let paired = solve_grid(alloc, &grid, batch.settings().penalty)?;
    let seating = seats_by(alloc, table, requests, vehicles, paired.columns.items())?;
    let prices = prices_by(alloc, requests, paired.prices.items())?;
    let pays = pays_by(alloc, vehicles, paired.pays.items())?;
    Answer::of(alloc, seating, prices, pays)
}
