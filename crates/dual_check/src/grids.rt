//! Grids of amounts.
ghost use Rattle.std.specs.Prelude.{◌≡◌, ◌+◌, ◌*◌, ◌<◌, ◌≤◌, ◌^◌, length, replicate, slice_set, take, drop, All, None, Some, IfOk};
ghost use Rattle.ride_model.specs.declared.limits.TheConstants.{LARGEST_BATCH};
ghost use Rattle.dual_check.specs.Cells.{cell_at, IsSmall, IsGrid};
ghost use Rattle.dual_check.specs.declared.grids.TheConstants.{WIDEST_GRID};

use crate::Cell;
use ride_model::NoMemory;
use std::alloc::Global;
use std::marker::Model;

/// The most columns of a grid: the vehicles of eight fleets.
pub const WIDEST_GRID: u32 = 8_000;

/// For each row and column an amount, or none.
#[derive(Drop)]
pub struct Grid {
    rows: u32,
    columns: u32,
    cells: Vec<Cell>,
}

impl Model for Grid {
    ghost use Rattle.dual_check.specs.Cells.{GridCells, IsGrid};

    ghost Value = { GridCells };

    ghost view = { λ g. record { rows = g.rows; columns = g.columns; cells = g.cells.items } };

    ghost invariant = { λ g. IsGrid (record { rows = g.rows; columns = g.columns; cells = g.cells.items }) };
}

impl Grid {
    /// A grid without amounts.
    pub fn new(alloc: Global, rows: u32, columns: u32) -> Result<Grid, NoMemory>
        requires rows_limit { rows ≤ LARGEST_BATCH }
        requires columns_limit { columns ≤ WIDEST_GRID }
        ensures { IfOk result (λ grid. grid
            ≡ record { rows = rows; columns = columns; cells = replicate (rows * columns) None }) }
    {
        let cells = vec![in alloc; Cell::empty(); rows as usize * columns as usize]?;
        Ok(Grid {
            rows,
            columns,
            cells,
        })
    }

    /// Puts an amount into a cell.
    pub fn set(&mut self, row: u32, column: u32, amount: u64)
        requires row_in { row < self.old.rows }
        requires column_in { column < self.old.columns }
        requires amount_limit { amount < 2 ^ 42 }
        ensures { self.new ≡ record self.old {
          cells = slice_set self.old.cells
              (row * self.old.columns + column) (Some amount);
        } }
    {
        let place = row as usize * self.columns as usize + column as usize;
        self.cells[place] = Cell::of(amount);
    }

    /// The amount of a row and a column.
    #[inline]
    pub fn cell(&self, row: u32, column: u32) -> Option<u64>
        requires row_in { row < self.now.rows }
        requires column_in { column < self.now.columns }
        ensures { result ≡ cell_at self.now row column }
    {
        self.cells[row as usize * self.columns as usize + column as usize].amount()
    }

    /// The cells of a row.
    #[inline]
    pub fn row(&self, row: u32) -> &[Cell]
        requires { row < self.now.rows }
        ensures cells { result.now ≡ take self.now.columns
            (drop (row * self.now.columns) self.now.cells) }
        ensures one_each { length result.now ≡ self.now.columns }
        ensures amounts_limit { All IsSmall result.now }
    {
        let columns = self.columns as usize;
        let start = row as usize * columns;
        &self.cells[start..start + columns]
    }

    pub fn rows(&self) -> u32
        ensures rows { result ≡ self.now.rows }
        ensures limits { IsGrid self.now }
    {
        self.rows
    }

    pub fn columns(&self) -> u32
        ensures columns { result ≡ self.now.columns }
        ensures limits { IsGrid self.now }
    {
        self.columns
    }
}
