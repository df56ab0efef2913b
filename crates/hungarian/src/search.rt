//! Searches for shortest augmenting paths.
ghost use Rattle.std.specs.Prelude.{◌≡◌, ℕ, ◌+◌, ◌-◌, ◌<◌, ◌≤◌, length, slice_set, slice_index_or, replicate, Some, None, IfOk};
ghost use Rattle.ride_model.specs.declared.limits.TheConstants.{GREATEST_PENALTY};
ghost use Rattle.dual_check.specs.Grid.{price_at};
ghost use Rattle.hungarian.specs.inner.Mates.{mate};
ghost use Rattle.hungarian.specs.inner.Ways.{IsShortened, IsNearest, IsRelaxable};
ghost use Rattle.hungarian.specs.inner.Labels.{distance_at, source_at, rank_at, IsSized, IsNext, IsPath, sooner_path};
ghost use Rattle.dual_check.specs.Cells.{cell_at, IsGrid};
ghost use Rattle.dual_check.specs.declared.grids.TheConstants.{WIDEST_GRID};
ghost use Rattle.hungarian.specs.inner.Partial.{IsPartial};

use crate::duals::Duals;
use crate::matches::Matches;
use crate::relaxing::{Reach, relax};
use dual_check::Grid;
use ride_model::NoMemory;
use std::alloc::Global;

/// Where a path ends: at a free column, or at a row that gives its column up.
#[derive(Clone, Copy)]
pub(crate) enum Exit {
    Column(u32),
    Row(u32),
}

/// A path from the root: its length and its end.
#[derive(Clone, Copy)]
pub(crate) struct Path {
    pub(crate) distance: u64,
    pub(crate) exit: Exit,
}

/// How far the columns are from the root, from which rows they are reached, and at which step each was settled: 0 while
/// it is open.
pub(crate) struct Search {
    pub(crate) distances: Vec<u64>,
    pub(crate) sources: Vec<u32>,
    pub(crate) ranks: Vec<u32>,
    pub(crate) steps: u32,
}

impl Drop for Search {
    fn drop(self) {
        let Search {
            distances,
            sources,
            ranks,
            steps: _,
        } = self;
        drop(distances);
        drop(sources);
        drop(ranks);
    }
}

impl Search {
    /// A search of so many columns.
    pub(crate) fn new(alloc: Global, columns: u32) -> Result<Search, NoMemory>
        ensures { IfOk result (IsSized columns) }
    {
        Ok(Search {
            distances: vec![in alloc; 0; columns as usize]?,
            sources: vec![in alloc; 0; columns as usize]?,
            ranks: vec![in alloc; 0; columns as usize]?,
            steps: 0,
        })
    }

    /// Opens all columns, none of them nearer than a limit.
    fn begin(&mut self, limit: u64)
        ensures distances { self.new.distances.items
            ≡ replicate (length self.old.distances.items) limit }
        ensures sources { self.new.sources.items ≡ self.old.sources.items }
        ensures ranks { self.new.ranks.items ≡ replicate (length self.old.ranks.items) 0 }
        ensures steps { self.new.steps ≡ 0 }
    {
        self.distances.fill(limit);
        self.ranks.fill(0);
        self.steps = 0;
    }

    /// Settles an open column, and answers its distance.
    fn settle(&mut self, column: u32) -> u64
        requires room { self.old.steps < WIDEST_GRID }
        requires column_in { column < length self.old.ranks.items }
        requires same { length self.old.distances.items ≡ length self.old.ranks.items }
        ensures distance { result ≡ distance_at self.old column }
        ensures ranks { self.new.ranks.items
            ≡ slice_set self.old.ranks.items column (self.old.steps + 1) }
        ensures steps { self.new.steps ≡ self.old.steps + 1 }
        ensures distances { self.new.distances.items ≡ self.old.distances.items }
        ensures sources { self.new.sources.items ≡ self.old.sources.items }
    {
        self.steps += 1;
        self.ranks[column as usize] = self.steps;
        self.distances[column as usize]
    }

    /// Shortens the ways to all columns by a reached row, and finds the nearest open column that is nearer than a limit.
    fn advance(&mut self, grid: &Grid, duals: &Duals, reach: Reach, limit: u64) -> Option<u32>
        requires grid { IsGrid grid.now }
        requires row_in { reach.row < grid.now.rows }
        requires sized { IsSized grid.now.columns self.old }
        requires pays_each { length duals.now.pays.items ≡ grid.now.columns }
        requires relaxable { (column : ℕ) → column < grid.now.columns
            → IsRelaxable reach (cell_at grid.now reach.row column)
            (price_at duals.now.pays.items column) }
        ensures shortened { (column : ℕ) → column < grid.now.columns
            → IsShortened reach (cell_at grid.now reach.row column)
            (price_at duals.now.pays.items column)
            (distance_at self.old column) (source_at self.old column)
            (distance_at self.new column) (source_at self.new column) }
        ensures next { IsNext self.new grid.now.columns limit result }
        ensures ranks { self.new.ranks.items ≡ self.old.ranks.items }
        ensures steps { self.new.steps ≡ self.old.steps }
        ensures sized { IsSized grid.now.columns self.new }
    {
        let nearest = relax(
            reach,
            grid.row(reach.row),
            duals.pays.as_slice(),
            self.ranks.as_slice(),
            limit,
            self.distances.as_mut_slice(),
            self.sources.as_mut_slice(),
        );
        nearest.column
    }

    /// Finds a shortest path from a row without a column.
    pub(crate) fn path(
        &mut self,
        grid: &Grid,
        penalty: u64,
        matches: &Matches,
        duals: &Duals,
        root: u32,
    ) -> Path
        requires grid { IsGrid grid.now }
        requires penalty_limit { penalty ≤ GREATEST_PENALTY }
        requires root_in { root < grid.now.rows }
        requires partial { IsPartial grid.now penalty root matches.now duals.now }
        requires sized { IsSized grid.now.columns self.old }
        ensures { IsPath grid.now penalty matches.now duals.now root self.new result }
    {
        self.begin(penalty);
        let mut reach = Reach {
            row: root,
            distance: 0,
            price: duals.prices[root as usize],
        };
        let mut leaving = Path {
            distance: penalty - reach.price,
            exit: Exit::Row(root),
        };
        while let Some(column) = self.advance(grid, duals, reach, leaving.distance) {
            let distance = self.settle(column);
            let Some(row) = matches.rows[column as usize] else {
                return Path {
                    distance,
                    exit: Exit::Column(column),
                };
            };
            reach = Reach {
                row,
                distance,
                price: duals.prices[row as usize],
            };
            leaving = sooner(leaving, reach, penalty);
        }
        leaving
    }
}

/// The shorter of a path and the one that ends by leaving out a row.
fn sooner(path: Path, reach: Reach, penalty: u64) -> Path
    requires distance_limit { reach.distance ≤ GREATEST_PENALTY }
    requires penalty_limit { penalty ≤ GREATEST_PENALTY }
    requires capped { reach.price ≤ penalty }
    ensures { result ≡ sooner_path path reach penalty }
{
    let distance = reach.distance + (penalty - reach.price);
    if distance < path.distance {
        Path {
            distance,
            exit: Exit::Row(reach.row),
        }
    } else {
        path
    }
}
