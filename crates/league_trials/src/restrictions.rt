//! A company's part of a round is certified by its part of the prices.
ghost use Rattle.std.specs.Prelude.{◌≡◌, IfOk};
ghost use Rattle.league_trials.specs.TwoCompanies.{union, round, part, own};

use dual_check::{ColumnList, Grid, NumberList, Paired, certifies_grid};
use fleet_league::NoMemory;
use fleet_league::laws::restriction;
use std::alloc::Global;
use std::process::Abort;

// What leaving a ride out costs.
const PENALTY: u64 = 3600;

// The prices of both companies.
fn union(alloc: Global) -> Result<Grid, NoMemory>
    ensures { IfOk result (λ grid. grid ≡ union) }
{
    let mut grid = Grid::new(alloc, 2, 2)?;
    grid.set(0, 0, 120);
    grid.set(0, 1, 120);
    grid.set(1, 0, 60);
    grid.set(1, 1, 180);
    Ok(grid)
}

// Each ride in the vehicle of another company.
fn round(alloc: Global) -> Result<Paired, NoMemory>
    ensures { IfOk result (λ paired. paired ≡ round) }
{
    Ok(Paired {
        columns: ColumnList::of([Some(1), Some(0)].to_vec(alloc)?),
        prices: NumberList::of([120, 60].to_vec(alloc)?),
        pays: NumberList::of([0, 0].to_vec(alloc)?),
    })
}

// The first company's price for the ride that it takes.
fn part(alloc: Global) -> Result<Grid, NoMemory>
    ensures { IfOk result (λ grid. grid ≡ part) }
{
    let mut grid = Grid::new(alloc, 1, 1)?;
    grid.set(0, 0, 60);
    Ok(grid)
}

// That ride in its vehicle.
fn own(alloc: Global) -> Result<Paired, NoMemory>
    ensures { IfOk result (λ paired. paired ≡ own) }
{
    Ok(Paired {
        columns: ColumnList::of([Some(0)].to_vec(alloc)?),
        prices: NumberList::of([60].to_vec(alloc)?),
        pays: NumberList::of([0].to_vec(alloc)?),
    })
}

// The pairing of a grid is certified, and so is that of its part.
fn expect_certified(
    rt: &impl Abort,
    grid: &Grid,
    paired: &Paired,
    less: &Grid,
    paired_less: &Paired,
)
    requires grid { grid.now ≡ union }
    requires paired { paired.now ≡ round }
    requires less { less.now ≡ part }
    requires paired_less { paired_less.now ≡ own }
{
    assert!(rt; certifies_grid(grid, PENALTY, paired));
    let chosen = &[true, false];
    restriction(grid, PENALTY, paired, chosen, less, PENALTY, paired_less);
    assert!(rt; certifies_grid(less, PENALTY, paired_less));
}

#[test]
fn a_company_s_part_of_a_round_is_certified(rt: HostRuntime) {
    let Ok(grid) = union(rt.alloc()) else {
        panic!(&rt; "there is memory");
    };
    let Ok(paired) = round(rt.alloc()) else {
        panic!(&rt; "there is memory");
    };
    let Ok(part) = part(rt.alloc()) else {
        panic!(&rt; "there is memory");
    };
    let Ok(own) = own(rt.alloc()) else {
        panic!(&rt; "there is memory");
    };
    expect_certified(&rt, &grid, &paired, &part, &own);
}
