//! The grid of the prices of several companies.
ghost use Rattle.std.specs.Prelude.{◌≡◌, ℕ, ◌+◌, ◌<◌, ◌≤◌, ◌^◌, length, sum_by, All, IfOk, IfSome, None};
ghost use Rattle.dual_check.specs.Cells.{cell_at};
ghost use Rattle.dual_check.specs.declared.grids.TheConstants.{WIDEST_GRID};
ghost use Rattle.fleet_league.specs.declared.quotes.Quote.{Quote};
ghost use Rattle.fleet_league.specs.inner.Filling.{ChangesOnly};
ghost use Rattle.fleet_league.specs.Round.{IsUnion, StandsFrom, company_prices};
ghost use Rattle.fleet_league.specs.inner.Round.{IsPriced};

use crate::{NoMemory, PriceRows, Quote};
use dual_check::Grid;
use std::alloc::Global;

/// The union grid of quotes.
pub(crate) fn union_of(alloc: Global, quotes: &[Quote]) -> Result<Grid, NoMemory>
    requires some_company { 1 ≤ length quotes.now }
    requires few_companies { length quotes.now ≤ 8 }
    requires priced { All (λ (quote : Quote). IsPriced quote.prices) quotes.now }
    requires same_rides { (rides : ℕ)
        × All (λ (quote : Quote). quote.prices.rows ≡ rides) quotes.now }
    ensures { IfOk result (IsUnion (company_prices quotes.now)) }
{
    let rides = quotes[0].prices.rides();
    let mut grid = Grid::new(alloc, rides, vehicles_of(quotes))?;
    let mut first = 0;
    for quote in quotes {
        fill_block(&mut grid, first, &quote.prices);
        first += quote.prices.vehicles();
    }
    // This call tells that the grid is within its limits.
    let _rows = grid.rows();
    Ok(grid)
}

/// The number of vehicles of all companies.
fn vehicles_of(quotes: &[Quote]) -> u32
    requires few_companies { length quotes.now ≤ 8 }
    requires priced { All (λ (quote : Quote). IsPriced quote.prices) quotes.now }
    ensures sum { result ≡ sum_by (λ (quote : Quote). quote.prices.columns) quotes.now }
    ensures few { result ≤ WIDEST_GRID }
{
    let mut vehicles = 0;
    for quote in quotes {
        vehicles += quote.prices.vehicles();
    }
    vehicles
}

/// Writes a company's prices into the columns of a grid from one on, which have no amounts yet.
fn fill_block(grid: &mut Grid, first: u32, prices: &PriceRows)
    requires priced { IsPriced prices.now }
    requires rows { prices.now.rows ≡ grid.old.rows }
    requires columns { first + prices.now.columns ≤ grid.old.columns }
    requires bare { (row column : ℕ) → row < prices.now.rows → first ≤ column
        → column < first + prices.now.columns
        → cell_at grid.old row column ≡ None }
    ensures stands { StandsFrom first prices.now grid.new }
    ensures others { ChangesOnly (λ _ column. (first ≤ column)
        × (column < first + prices.now.columns)) grid.old grid.new }
{
    for row in 0..prices.rides() {
        fill_row(grid, first, prices, row);
    }
}

/// Writes a row of a company's prices.
fn fill_row(grid: &mut Grid, first: u32, prices: &PriceRows, row: u32)
    requires priced { IsPriced prices.now }
    requires row_in { row < prices.now.rows }
    requires rows { prices.now.rows ≡ grid.old.rows }
    requires columns { first + prices.now.columns ≤ grid.old.columns }
    requires bare { (column : ℕ) → column < prices.now.columns
        → cell_at grid.old row (first + column) ≡ None }
    ensures filled { (column : ℕ) → column < prices.now.columns
        → cell_at grid.new row (first + column) ≡ cell_at prices.now row column }
    ensures others { ChangesOnly (λ other column. (other ≡ row) × (first ≤ column)
        × (column < first + prices.now.columns))
        grid.old grid.new }
{
    // This call tells that a grid has at most 8,000 columns.
    let _columns = grid.columns();
    for vehicle in 0..prices.vehicles() {
        write_cell(grid, row, first + vehicle, prices.cell(row, vehicle));
    }
}

/// Writes an amount, if there is one, into a cell that has none.
fn write_cell(grid: &mut Grid, row: u32, column: u32, amount: Option<u64>)
    requires row_in { row < grid.old.rows }
    requires column_in { column < grid.old.columns }
    requires small { IfSome amount (λ a. a < 2 ^ 42) }
    requires bare { cell_at grid.old row column ≡ None }
    ensures cell { cell_at grid.new row column ≡ amount }
    ensures others { ChangesOnly (λ other place. (other ≡ row)
        × (place ≡ column)) grid.old grid.new }
{
    // This call tells that each row has its cells.
    let _rows = grid.rows();
    if let Some(amount) = amount {
        grid.set(row, column, amount);
    }
}
