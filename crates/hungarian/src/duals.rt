//! The rows' prices and the columns' payments.
ghost use Rattle.std.specs.Prelude.{◌≡◌, ℕ, ◌<◌, ◌≤◌, length, replicate, Some, None, IfOk};
ghost use Rattle.dual_check.specs.Grid.{price_at};
ghost use Rattle.hungarian.specs.inner.Mates.{mate, AreMates};
ghost use Rattle.hungarian.specs.inner.Labels.{distance_at, rank_at};
ghost use Rattle.hungarian.specs.inner.Rises.{IsRaised, IsColumnRaised, AreRaisable, IsRaisable};

use crate::matches::Matches;
use crate::search::Search;
use ride_model::NoMemory;
use std::alloc::Global;

/// The dual prices: of each row, and what each column pays.
#[derive(Drop)]
pub(crate) struct Duals {
    pub(crate) prices: Vec<u64>,
    pub(crate) pays: Vec<u64>,
}

impl Duals {
    /// Nothing is priced and nothing is paid.
    pub(crate) fn new(alloc: Global, rows: u32, columns: u32) -> Result<Duals, NoMemory>
        ensures prices { IfOk result (λ duals. duals.prices.items ≡ replicate rows 0) }
        ensures pays { IfOk result (λ duals. duals.pays.items ≡ replicate columns 0) }
    {
        Ok(Duals {
            prices: vec![in alloc; 0; rows as usize]?,
            pays: vec![in alloc; 0; columns as usize]?,
        })
    }

    /// Raises what a column pays, and the price of its row, by what is left of a distance past the column; leaves an
    /// open column as it is.
    fn raise_column(&mut self, matches: &Matches, search: &Search, column: usize, far: u64)
        requires { IsRaisable matches.now search.now far column self.old }
        ensures { IsColumnRaised matches.now search.now far column self.old self.new }
    {
        if search.ranks[column] == 0 {
            return;
        }
        let rise = far - search.distances[column];
        self.pays[column] += rise;
        let Some(row) = matches.rows[column] else {
            return;
        };
        self.prices[row as usize] += rise;
    }

    /// Raises the price of each row that a search reached, and what each column pays that it settled, by what is left
    /// of the path's distance.
    pub(crate) fn raise(&mut self, matches: &Matches, search: &Search, root: u32, far: u64)
        requires { AreRaisable matches.now search.now root far self.old }
        ensures { IsRaised matches.now search.now root far self.old self.new }
    {
        for column in 0..self.pays.len() {
            self.raise_column(matches, search, column, far);
        }
        self.prices[root as usize] += far;
    }
}
