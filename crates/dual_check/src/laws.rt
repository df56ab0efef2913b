//! Weak duality: what prices certify costs least.
ghost use Rattle.ride_model.specs.Road.{RoadMap};
ghost use Rattle.ride_model.specs.Seating.{IsLeastSeating};
ghost use Rattle.batch_commit.specs.inner.Table.{FitsBatch, IsTableOf, HasSmallCosts};
ghost use Rattle.batch_commit.specs.inner.Answer.{CertifiesOverCells};
ghost use Rattle.dual_check.specs.Grid.{IsLeastPairing, CertifiesPairing};

use crate::{Grid, Paired};
use batch_commit::{Batch, PriceTable};
use ride_model::{AmountList, SeatList};

/// A pairing that prices certify is least.
pub fn weak_duality_grid(grid: &Grid, penalty: u64, paired: &Paired)
    requires { CertifiesPairing grid.now penalty paired.now.columns
        paired.now.prices paired.now.pays }
    ensures { IsLeastPairing grid.now penalty paired.now.columns }
{}

/// A seating that prices certify over a table's cells is least over each map over which the table is the batch's.
pub fn weak_duality(
    batch: &Batch,
    table: &PriceTable,
    seating: &SeatList,
    prices: &AmountList,
    pays: &AmountList,
)
    requires fits { FitsBatch batch.now table.now }
    requires small { HasSmallCosts table.now }
    requires certified { CertifiesOverCells batch.now table.now seating.now prices.now pays.now }
    ensures { (roads : RoadMap) → IsTableOf roads batch.now table.now
        → IsLeastSeating roads batch.now seating.now }
{
    // These calls tell that the requests differ, and the vehicles.
    let _requests = batch.requests();
    let _vehicles = batch.vehicles().vehicles();
}
