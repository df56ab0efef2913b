//! Tables of amounts.
ghost use Rattle.std.specs.Prelude.{◌≡◌, ◌+◌, ◌<◌, ◌≤◌, length, IfSome, MatchBool};
ghost use Rattle.dual_check.specs.Cells.{GridCells, cell_at};
ghost use Rattle.dual_check.specs.declared.grids.TheConstants.{WIDEST_GRID};
ghost use Rattle.dual_check.specs.inner.Parts.{CoversCells, CoversRow};
ghost use Rattle.dual_check.specs.inner.Costs.{cost_grid};

use crate::{Cell, Grid};
use batch_commit::PriceTable;

/// A table with an amount or none for each of its rows and columns.
pub trait Amounts {
    ghost as_grid: { Self → GridCells };

    /// The amount of a row and a column.
    fn amount(&self, row: u32, column: u32) -> Option<u64>
        requires row_in { row < (as_grid self.now).rows }
        requires column_in { column < (as_grid self.now).columns }
        ensures { result ≡ cell_at (as_grid self.now) row column };

    /// Whether a row's price is above none of its amounts and the column's payment.
    fn is_row_covered(&self, row: u32, price: u64, pays: &[u64]) -> bool
        requires row_in { row < (as_grid self.now).rows }
        requires pays_each { length pays.now ≡ (as_grid self.now).columns }
        requires few { (as_grid self.now).columns ≤ WIDEST_GRID }
        ensures { MatchBool result (CoversRow (as_grid self.now) row price pays.now)
            (CoversRow (as_grid self.now) row price pays.now → ⊥) }
    {
        for (column, pay) in pays.iter().enumerate() {
            if let Some(amount) = self.amount(row, column as u32)
                && !is_covered(price, amount, *pay)
            {
                return false;
            }
        }
        true
    }
}

impl Amounts for Grid {
    ghost as_grid = { λ grid. grid };

    #[inline]
    fn amount(&self, row: u32, column: u32) -> Option<u64> {
        self.cell(row, column)
    }

    fn is_row_covered(&self, row: u32, price: u64, pays: &[u64]) -> bool {
        are_cells_covered(self.row(row), price, pays)
    }
}

impl Amounts for PriceTable {
    ghost as_grid = { cost_grid };

    #[inline]
    fn amount(&self, row: u32, column: u32) -> Option<u64> {
        self.cell(row, column).map(|offer| offer.cost)
    }
}

// Whether a price is above none of a row's amounts and the column's payment.
fn are_cells_covered(cells: &[Cell], price: u64, pays: &[u64]) -> bool
    requires { length pays.now ≡ length cells.now }
    ensures { MatchBool result (CoversCells cells.now price pays.now)
        (CoversCells cells.now price pays.now → ⊥) }
{
    // Without an early end the cells are compared several at a time.
    let mut covered = true;
    for (cell, pay) in cells.iter().zip(pays) {
        covered &= is_cell_covered(*cell, price, *pay);
    }
    covered
}

// Whether a price is at most the amount of a cell, if any, and a payment.
#[inline(always)]
fn is_cell_covered(cell: Cell, price: u64, pay: u64) -> bool
    ensures { MatchBool result (IfSome cell (λ amount. price ≤ amount + pay))
        (IfSome cell (λ amount. price ≤ amount + pay) → ⊥) }
{
    price.saturating_sub(pay) <= cell.amount_or_most()
}

// Whether a price is at most an amount and a payment.
fn is_covered(price: u64, amount: u64, pay: u64) -> bool
    ensures { MatchBool result (price ≤ amount + pay) (price ≤ amount + pay → ⊥) }
{
    price.saturating_sub(pay) <= amount
}
