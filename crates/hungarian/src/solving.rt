//! The rows of a grid, one after another.
ghost use Rattle.std.specs.Prelude.{◌+◌, ◌<◌, ◌≤◌, IfOk, OnOk};
ghost use Rattle.ride_model.specs.declared.limits.TheConstants.{GREATEST_PENALTY};
ghost use Rattle.dual_check.specs.Cells.{IsGrid};
ghost use Rattle.dual_check.specs.Grid.{CertifiesPairing, IsLeastPairing};
ghost use Rattle.hungarian.specs.inner.Labels.{IsSized};
ghost use Rattle.hungarian.specs.inner.Partial.{IsPartial};

use crate::duals::Duals;
use crate::matches::Matches;
use crate::search::Search;
use dual_check::{ColumnList, Grid, NumberList, Paired};
use ride_model::NoMemory;
use std::alloc::Global;

/// Adds a row to a least pairing of the rows before it.
fn add_row(
    grid: &Grid,
    penalty: u64,
    row: u32,
    matches: &mut Matches,
    duals: &mut Duals,
    search: &mut Search,
)
    requires grid { IsGrid grid.now }
    requires penalty_limit { penalty ≤ GREATEST_PENALTY }
    requires row_in { row < grid.now.rows }
    requires partial { IsPartial grid.now penalty row matches.old duals.old }
    requires sized { IsSized grid.now.columns search.old }
    ensures partial { IsPartial grid.now penalty (row + 1) matches.new duals.new }
    ensures sized { IsSized grid.now.columns search.new }
{
    let path = search.path(grid, penalty, matches, duals, row);
    duals.raise(matches, search, row, path.distance);
    matches.take_over(search, path.exit);
}

/// Adds all rows to an empty pairing.
fn add_rows(
    alloc: Global,
    grid: &Grid,
    penalty: u64,
    matches: &mut Matches,
    duals: &mut Duals,
) -> Result<(), NoMemory>
    requires penalty_limit { penalty ≤ GREATEST_PENALTY }
    requires partial { IsPartial grid.now penalty 0 matches.old duals.old }
    ensures { OnOk result (IsPartial grid.now penalty grid.now.rows matches.new duals.new) }
{
    let mut search = Search::new(alloc, grid.columns())?;
    for row in 0..grid.rows() {
        add_row(grid, penalty, row, matches, duals, &mut search);
    }
    Ok(())
}

/// A least pairing of a grid, with prices that certify it, where each row may be left out at the penalty.
pub fn solve_grid(alloc: Global, grid: &Grid, penalty: u64) -> Result<Paired, NoMemory>
    requires penalty_limit { penalty ≤ GREATEST_PENALTY }
    ensures certified { IfOk result
        (λ paired. CertifiesPairing grid.now penalty paired.columns paired.prices paired.pays) }
    ensures least { IfOk result (λ paired. IsLeastPairing grid.now penalty paired.columns) }
{
    let mut matches = Matches::new(alloc, grid.rows(), grid.columns())?;
    let mut duals = Duals::new(alloc, grid.rows(), grid.columns())?;
    add_rows(alloc, grid, penalty, &mut matches, &mut duals)?;
    Ok(Paired {
        columns: ColumnList::of(matches.columns),
        prices: NumberList::of(duals.prices),
        pays: NumberList::of(duals.pays),
    })
}
