//! The costs of a price table as a grid.
ghost use Rattle.std.specs.Prelude.{◌≡◌, ◌≢◌, ℕ, ◌+◌, ◌*◌, ◌<◌, ◌≤◌, length, IfOk, None};
ghost use Rattle.batch_commit.specs.inner.Table.{HasSmallCosts, cell_at as offer_at};
ghost use Rattle.dual_check.specs.Cells.{cell_at};
ghost use Rattle.ride_model.specs.declared.limits.TheConstants.{LARGEST_BATCH, MOST_VEHICLES};
ghost use Rattle.hungarian.specs.inner.Costs.{cost_of, HasCosts};

use batch_commit::PriceTable;
use dual_check::Grid;
use ride_model::NoMemory;
use std::alloc::Global;

/// The cost in a cell, if it has an offer.
fn cost_at(table: &PriceTable, row: u32, column: u32) -> Option<u64>
    requires row_in { row < table.now.rows }
    requires column_in { column < table.now.columns }
    ensures { result ≡ cost_of (offer_at table.now row column) }
{
    match table.cell(row, column) {
        Some(offer) => Some(offer.cost),
        None => None,
    }
}

/// Writes the costs of a row into a grid that has none there.
fn fill_row(grid: &mut Grid, table: &PriceTable, row: u32, columns: u32)
    requires sized { length grid.old.cells ≡ grid.old.rows * grid.old.columns }
    requires row_in { row < grid.old.rows }
    requires rows_are { grid.old.rows ≡ table.now.rows }
    requires columns_are { columns ≡ grid.old.columns }
    requires same { table.now.columns ≡ columns }
    requires small { HasSmallCosts table.now }
    requires bare { (column : ℕ) → column < columns → cell_at grid.old row column ≡ None }
    ensures sized { length grid.new.cells ≡ grid.new.rows * grid.new.columns }
    ensures rows { grid.new.rows ≡ grid.old.rows }
    ensures columns { grid.new.columns ≡ grid.old.columns }
    ensures filled { (column : ℕ) → column < columns
        → cell_at grid.new row column ≡ cost_of (offer_at table.now row column) }
    ensures others { (other column : ℕ) → other ≢ row → column < columns
        → cell_at grid.new other column ≡ cell_at grid.old other column }
{
    for column in 0..columns {
        if let Some(cost) = cost_at(table, row, column) {
            grid.set(row, column, cost);
        }
    }
}

/// A grid of the costs in a table's cells.
pub(crate) fn cost_grid(
    alloc: Global,
    table: &PriceTable,
    rows: u32,
    columns: u32,
) -> Result<Grid, NoMemory>
    requires rows_are { table.now.rows ≡ rows }
    requires columns_are { table.now.columns ≡ columns }
    requires few_rows { rows ≤ LARGEST_BATCH }
    requires few_columns { columns ≤ MOST_VEHICLES }
    requires small { HasSmallCosts table.now }
    ensures { IfOk result (HasCosts table.now) }
{
    let mut grid = Grid::new(alloc, rows, columns)?;
    for row in 0..rows {
        fill_row(&mut grid, table, row, columns);
    }
    Ok(grid)
}
