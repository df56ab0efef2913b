//! Whether prices certify a pairing of a table of amounts.
ghost use Rattle.std.specs.Prelude.{◌≡◌, ◌+◌, ◌≤◌, length, sum, MatchBool};
ghost use Rattle.ride_model.specs.declared.limits.TheConstants.{LARGEST_BATCH};
ghost use Rattle.dual_check.specs.declared.grids.TheConstants.{WIDEST_GRID};
ghost use Rattle.dual_check.specs.Grid.{IsPairing, CertifiesPairing, pairing_cost};
ghost use Rattle.dual_check.specs.inner.Parts.{CoversGrid};

use crate::amounts::Amounts;
use crate::pairings::{cost_of, is_pairing};
use crate::prices::{are_capped, total};

/// Whether prices of a table's rows and payments of its columns certify a pairing.
pub fn certifies_pairing<T: Amounts>(
    table: &T,
    penalty: u64,
    columns: &[Option<u32>],
    prices: &[u64],
    pays: &[u64],
) -> bool
    requires few_rows { (T.as_grid table.now).rows ≤ LARGEST_BATCH }
    requires few_columns { (T.as_grid table.now).columns ≤ WIDEST_GRID }
    requires columns_each { length columns.now ≡ (T.as_grid table.now).rows }
    requires prices_each { length prices.now ≡ (T.as_grid table.now).rows }
    requires pays_each { length pays.now ≡ (T.as_grid table.now).columns }
    ensures { MatchBool result
        (CertifiesPairing (T.as_grid table.now) penalty columns.now prices.now pays.now)
        (CertifiesPairing (T.as_grid table.now) penalty columns.now prices.now pays.now → ⊥) }
{
    is_pairing(table, columns, pays.len() as u32)
        && are_capped(prices, penalty)
        && are_rows_covered(table, prices, pays)
        && is_balanced(table, penalty, columns, prices, pays)
}

// Whether no row's price is above an amount and its column's payment.
fn are_rows_covered<T: Amounts>(table: &T, prices: &[u64], pays: &[u64]) -> bool
    requires few_rows { (T.as_grid table.now).rows ≤ LARGEST_BATCH }
    requires few_columns { (T.as_grid table.now).columns ≤ WIDEST_GRID }
    requires prices_each { length prices.now ≡ (T.as_grid table.now).rows }
    requires pays_each { length pays.now ≡ (T.as_grid table.now).columns }
    ensures { MatchBool result (CoversGrid (T.as_grid table.now) prices.now pays.now)
        (CoversGrid (T.as_grid table.now) prices.now pays.now → ⊥) }
{
    for (row, price) in prices.iter().enumerate() {
        if !table.is_row_covered(row as u32, *price, pays) {
            return false;
        }
    }
    true
}

// Whether the prices are the pairing's cost and the payments.
fn is_balanced<T: Amounts>(
    table: &T,
    penalty: u64,
    columns: &[Option<u32>],
    prices: &[u64],
    pays: &[u64],
) -> bool
    requires few_rows { length prices.now ≤ LARGEST_BATCH }
    requires few_columns { length pays.now ≤ WIDEST_GRID }
    requires columns_few { length columns.now ≤ LARGEST_BATCH }
    requires paired { IsPairing (T.as_grid table.now) columns.now }
    ensures { MatchBool result
        (sum prices.now ≡ pairing_cost (T.as_grid table.now) penalty columns.now + sum pays.now)
        (sum prices.now ≡ pairing_cost (T.as_grid table.now) penalty columns.now + sum pays.now
        → ⊥) }
{
    total(prices) == cost_of(table, penalty, columns) + total(pays)
}
