//! Least pairings of generated grids.
ghost use Rattle.std.specs.Prelude.{◌≡◌, ◌+◌, ◌<◌, ◌≤◌, IfOk};

use crate::grid::mix;
use crate::stopwatch::Stopwatch;
use dual_check::Grid;
use hungarian::solve_grid;
use std::alloc::{AllocError, Global};
use std::io;
use std::rt::Clock;

const PENALTY: u64 = 1_000_000_000_000;

/// A grid to be paired: so many rows and columns, with drawn amounts or with the products of their numbers.
#[derive(Clone, Copy)]
struct Trial {
    rows: u32,
    columns: u32,
    product: bool,
}

/// The amount of a row and a column, from 0.
fn amount(row: u32, column: u32, product: bool) -> u64
    requires row_in { row < 128 }
    requires column_in { column < 8000 }
    ensures { result < 2000000 }
{
    if product {
        (u64::from(row) + 1) * (u64::from(column) + 1)
    } else {
        u64::from(mix(row + 1, column + 1) % 1_000_000)
    }
}

/// Puts the amounts of a row into a grid.
fn fill_row(grid: &mut Grid, row: u32, columns: u32, product: bool)
    requires row_in { row < grid.old.rows }
    requires few_rows { grid.old.rows ≤ 128 }
    requires columns { columns ≡ grid.old.columns }
    requires few_columns { columns ≤ 8000 }
    ensures rows { grid.new.rows ≡ grid.old.rows }
    ensures columns { grid.new.columns ≡ grid.old.columns }
{
    for column in 0..columns {
        grid.set(row, column, amount(row, column, product));
    }
}

fn generate(alloc: Global, trial: Trial) -> Result<Grid, AllocError>
    requires rows { trial.rows ≤ 128 }
    requires columns { trial.columns ≤ 8000 }
    ensures rows { IfOk result (λ grid. grid.rows ≡ trial.rows) }
    ensures columns { IfOk result (λ grid. grid.columns ≡ trial.columns) }
{
    let mut grid = Grid::new(alloc, trial.rows, trial.columns)?;
    for row in 0..trial.rows {
        fill_row(&mut grid, row, trial.columns, trial.product);
    }
    Ok(grid)
}

/// The cost of a row that goes to a column or to none.
fn cost_of(grid: &Grid, row: u32, column: Option<u32>) -> u64 {
    match column {
        Some(column) if row < grid.rows() && column < grid.columns() => {
            grid.cell(row, column).unwrap_or(PENALTY)
        }
        _ => PENALTY,
    }
}

/// The cost of a grid's least pairing.
fn least_cost(alloc: Global, grid: &Grid) -> Result<u64, AllocError> {
    let paired = solve_grid(alloc, grid, PENALTY)?;
    let mut cost = 0u64;
    for (row, column) in (0..grid.rows()).zip(paired.columns.items()) {
        cost = cost.wrapping_add(cost_of(grid, row, *column));
    }
    Ok(cost)
}

/// The cost of a trial's least pairing.
fn cost_of_trial(alloc: Global, trial: Trial) -> Result<u64, AllocError>
    requires rows { trial.rows ≤ 128 }
    requires columns { trial.columns ≤ 8000 }
{
    let grid = generate(alloc, trial)?;
    least_cost(alloc, &grid)
}

/// Prints the least cost of a grid of products, which takes no time but for a solver that tries all pairings.
pub fn product(rt: &impl Print, alloc: Global) -> io::Result<()> {
    let cost = cost_of_trial(
        alloc,
        Trial {
            rows: 128,
            columns: 1000,
            product: true,
        },
    )?;
    println!(rt; "product 128 x 1000 cost {cost}")
}

/// The cost of a trial's least pairing, and the fewest microseconds of twenty turns.
fn best_of_twenty(rt: &impl Clock, alloc: Global, trial: Trial) -> Result<(u64, u128), AllocError>
    requires rows { trial.rows ≤ 128 }
    requires columns { trial.columns ≤ 8000 }
{
    let grid = generate(alloc, trial)?;
    let mut best = u128::MAX;
    let mut cost = 0;
    for _ in 0..20 {
        let watch = Stopwatch::start(rt);
        cost = least_cost(alloc, &grid)?;
        best = best.min(watch.elapsed(rt).as_micros());
    }
    Ok((cost, best))
}

/// Times a trial, the best of twenty turns.
fn time(rt: &(impl Clock + Print), alloc: Global, name: &str, trial: Trial) -> io::Result<()>
    requires rows { trial.rows ≤ 128 }
    requires columns { trial.columns ≤ 8000 }
{
    let (cost, best) = best_of_twenty(rt, alloc, trial)?;
    let (rows, columns) = (trial.rows, trial.columns);
    println!(rt; "{name} {rows} x {columns} cost {cost} best {best} microseconds")
}

/// Times least pairings of grids as large as a batch, and of eight times as many columns.
pub fn grids(rt: &(impl Clock + Print), alloc: Global) -> io::Result<()> {
    let random = Trial {
        rows: 128,
        columns: 1000,
        product: false,
    };
    time(rt, alloc, "random", random)?;
    time(
        rt,
        alloc,
        "random",
        Trial {
            columns: 8000,
            ..random
        },
    )?;
    time(
        rt,
        alloc,
        "product",
        Trial {
            product: true,
            ..random
        },
    )
}
