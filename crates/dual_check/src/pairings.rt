//! Pairings of the rows and columns of a table of amounts, and what they cost.
ghost use Rattle.std.specs.Prelude.{◌≡◌, ◌<◌, ◌≤◌, ◌*◌, ◌^◌, ℕ, length, IfSome, MatchBool, Some};
ghost use Rattle.ride_model.specs.declared.limits.TheConstants.{LARGEST_BATCH};
ghost use Rattle.dual_check.specs.Grid.{column_of, IsPairing, row_cost, pairing_cost};
ghost use Rattle.dual_check.specs.inner.Parts.{StandsInCell, StandsInCells, IsFree, HasColumnsOnce};

use crate::amounts::Amounts;

/// Whether columns of rows are a pairing of the table, which has so many columns.
pub fn is_pairing<T: Amounts>(table: &T, columns: &[Option<u32>], many: u32) -> bool
    requires few { length columns.now ≤ LARGEST_BATCH }
    requires columns_each { length columns.now ≡ (T.as_grid table.now).rows }
    requires many_is { many ≡ (T.as_grid table.now).columns }
    ensures { MatchBool result (IsPairing (T.as_grid table.now) columns.now)
        (IsPairing (T.as_grid table.now) columns.now → ⊥) }
{
    stands_in_cells(table, columns, many) && has_columns_once(columns)
}

// Whether each row's column is one of the table's, with an amount there.
fn stands_in_cells<T: Amounts>(table: &T, columns: &[Option<u32>], many: u32) -> bool
    requires few { length columns.now ≤ LARGEST_BATCH }
    requires columns_each { length columns.now ≡ (T.as_grid table.now).rows }
    requires many_is { many ≡ (T.as_grid table.now).columns }
    ensures { MatchBool result (StandsInCells (T.as_grid table.now) columns.now)
        (StandsInCells (T.as_grid table.now) columns.now → ⊥) }
{
    for (row, column) in columns.iter().enumerate() {
        if !stands_in_cell(table, row as u32, *column, many) {
            return false;
        }
    }
    true
}

// Whether a row's column is one of the table's, with an amount there.
fn stands_in_cell<T: Amounts>(table: &T, row: u32, column: Option<u32>, many: u32) -> bool
    requires row_in { row < (T.as_grid table.now).rows }
    requires many_is { many ≡ (T.as_grid table.now).columns }
    ensures { MatchBool result (StandsInCell (T.as_grid table.now) row column)
        (StandsInCell (T.as_grid table.now) row column → ⊥) }
{
    match column {
        None => true,
        Some(column) => column < many && table.amount(row, column).is_some(),
    }
}

// Whether no two rows have one column.
fn has_columns_once(columns: &[Option<u32>]) -> bool
    ensures { MatchBool result (HasColumnsOnce columns.now) (HasColumnsOnce columns.now → ⊥) }
{
    for row in 0..columns.len() {
        if !is_free(&columns[..row], columns[row]) {
            return false;
        }
    }
    true
}

// Whether a column, if any, is of none of these rows.
fn is_free(columns: &[Option<u32>], column: Option<u32>) -> bool
    ensures { MatchBool result (IsFree columns.now column) (IsFree columns.now column → ⊥) }
{
    match column {
        None => true,
        Some(column) => !has_column(columns, column),
    }
}

// Whether a column is of one of these rows.
fn has_column(columns: &[Option<u32>], column: u32) -> bool
    ensures { MatchBool result
        ((row : ℕ) × (column_of columns.now row ≡ Some column))
        ((row : ℕ) → column_of columns.now row ≡ Some column → ⊥) }
{
    for other in columns {
        if *other == Some(column) {
            return true;
        }
    }
    false
}

/// What a pairing costs.
pub fn cost_of<T: Amounts>(table: &T, penalty: u64, columns: &[Option<u32>]) -> u128
    requires few { length columns.now ≤ LARGEST_BATCH }
    requires paired { IsPairing (T.as_grid table.now) columns.now }
    ensures cost { result ≡ pairing_cost (T.as_grid table.now) penalty columns.now }
    ensures limit { result ≤ 128 * 2 ^ 64 }
{
    let mut cost = 0;
    for (row, column) in columns.iter().enumerate() {
        cost += u128::from(cost_of_row(table, penalty, row as u32, *column));
    }
    cost
}

// What a row costs by its column.
fn cost_of_row<T: Amounts>(table: &T, penalty: u64, row: u32, column: Option<u32>) -> u64
    requires row_in { row < (T.as_grid table.now).rows }
    requires column_in { IfSome column (λ c. c < (T.as_grid table.now).columns) }
    ensures { result ≡ row_cost (T.as_grid table.now) penalty row column }
{
    match column {
        None => penalty,
        Some(column) => table.amount(row, column).unwrap_or(0),
    }
}
