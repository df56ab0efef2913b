//! Whether prices certify a grid's pairing.
ghost use Rattle.std.specs.Prelude.{MatchBool};
ghost use Rattle.dual_check.specs.Grid.{CertifiesPairing};

use crate::certificates::certifies_pairing;
use crate::{Grid, Paired};

/// Whether a pairing's prices certify it.
pub fn certifies_grid(grid: &Grid, penalty: u64, paired: &Paired) -> bool
    ensures { MatchBool result
        (CertifiesPairing grid.now penalty paired.now.columns paired.now.prices paired.now.pays)
        (CertifiesPairing grid.now penalty paired.now.columns paired.now.prices paired.now.pays
        → ⊥) }
{
    let columns = paired.columns.items();
    let prices = paired.prices.items();
    let pays = paired.pays.items();
    let rows = grid.rows() as usize;
    if columns.len() != rows || prices.len() != rows || pays.len() != grid.columns() as usize {
        return false;
    }
    certifies_pairing(grid, penalty, columns, prices, pays)
}
