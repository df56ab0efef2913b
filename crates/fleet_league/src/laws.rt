//! What a certified pairing says of some of its columns.
ghost use Rattle.std.specs.Prelude.{◌≡◌, ◌≤◌, length};
ghost use Rattle.dual_check.specs.Grid.{CertifiesPairing};
ghost use Rattle.fleet_league.specs.inner.Restriction.{IsPart, IsRestrictedTo, chosen_columns, rows_into};

use dual_check::{Grid, Paired};

/// The rows that a certified pairing pairs into some columns, with these columns and their prices, again certify their pairing,
/// also where it costs more to leave a row out.
pub fn restriction(
    grid: &Grid,
    penalty: u64,
    paired: &Paired,
    chosen: &[bool],
    part: &Grid,
    own_penalty: u64,
    own: &Paired,
)
    requires certified { CertifiesPairing grid.now penalty paired.now.columns
        paired.now.prices paired.now.pays }
    requires chosen { length chosen.now ≡ grid.now.columns }
    requires part { IsPart grid.now (rows_into chosen.now paired.now.columns)
        (chosen_columns chosen.now) part.now }
    requires penalty { penalty ≤ own_penalty }
    requires own { IsRestrictedTo chosen.now paired.now.columns paired.now.prices paired.now.pays
        own.now.columns own.now.prices own.now.pays }
    ensures { CertifiesPairing part.now own_penalty own.now.columns own.now.prices own.now.pays }
{}
