//! Which column each row has.
ghost use Rattle.std.specs.Prelude.{◌≡◌, ℕ, ◌<◌, length, slice_set, replicate, Some, None, IfOk};
ghost use Rattle.hungarian.specs.inner.Mates.{mate, AreMates};
ghost use Rattle.hungarian.specs.inner.Labels.{rank_at};
ghost use Rattle.hungarian.specs.inner.Turned.{IsTurned, IsFlippable, IsLeft, IsReady};

use crate::search::{Exit, Search};
use ride_model::NoMemory;
use std::alloc::Global;

/// The column of each row, and the row of each column.
#[derive(Drop)]
pub(crate) struct Matches {
    pub(crate) columns: Vec<Option<u32>>,
    pub(crate) rows: Vec<Option<u32>>,
}

impl Matches {
    /// No row has a column.
    pub(crate) fn new(alloc: Global, rows: u32, columns: u32) -> Result<Matches, NoMemory>
        ensures columns { IfOk result (λ matches. matches.columns.items ≡ replicate rows None) }
        ensures rows { IfOk result (λ matches. matches.rows.items ≡ replicate columns None) }
    {
        Ok(Matches {
            columns: vec![in alloc; None; rows as usize]?,
            rows: vec![in alloc; None; columns as usize]?,
        })
    }

    /// Gives a row a column, and answers the column that it had.
    fn pair(&mut self, row: u32, column: u32) -> Option<u32>
        requires row_in { row < length self.old.columns.items }
        requires column_in { column < length self.old.rows.items }
        ensures had { result ≡ mate self.old.columns.items row }
        ensures columns { self.new.columns.items
            ≡ slice_set self.old.columns.items row (Some column) }
        ensures rows { self.new.rows.items ≡ slice_set self.old.rows.items column (Some row) }
    {
        let had = self.columns[row as usize];
        self.columns[row as usize] = Some(column);
        self.rows[column as usize] = Some(row);
        had
    }

    /// Gives each row on the way back from a column to the root the column that was reached from it.
    fn flip(&mut self, search: &Search, last: u32)
        requires { (root : ℕ) × IsFlippable search.now root last self.old }
        ensures { (root : ℕ) → IsFlippable search.now root last self.old
            → IsTurned search.now root (λ _. ⊥) self.old self.new }
    {
        let mut column = last;
        while let Some(next) = self.pair(search.sources[column as usize], column) {
            column = next;
        }
    }

    /// Takes a path over, up to its exit.
    pub(crate) fn take_over(&mut self, search: &Search, exit: Exit)
        requires { (root : ℕ) × IsReady search.now root exit self.old }
        ensures { (root : ℕ) → IsReady search.now root exit self.old
            → IsTurned search.now root (IsLeft exit) self.old self.new }
    {
        match exit {
            Exit::Column(column) => self.flip(search, column),
            Exit::Row(row) => {
                if let Some(column) = self.columns[row as usize] {
                    self.columns[row as usize] = None;
                    self.flip(search, column);
                }
            }
        }
    }
}
