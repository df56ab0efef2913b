//! Small grids, of which the least costs were found by trying all pairings.
ghost use Rattle.std.specs.Prelude.{◌≡◌, ◌<◌, ◌≤◌};
ghost use Rattle.dual_check.specs.Cells.{IsGrid};

use dual_check::{Grid, Paired};
use hungarian::solve_grid;
use std::alloc::Global;
use std::process::Abort;

// The greatest amount of a cell.
const MOST: u64 = (1 << 42) - 1;

const MOST_PENALTY: u64 = 1_000_000_000_000;

/// A grid's amounts, row by row, and what a least pairing costs.
struct Case {
    rows: u32,
    columns: u32,
    amounts: &'static [Option<u64>],
    penalty: u64,
    cost: u64,
}

/// Each row moves the rows before it.
const MOVING: [Option<u64>; 16] = [
    Some(2),
    Some(3),
    None,
    None,
    Some(1),
    Some(4),
    Some(6),
    None,
    Some(1),
    Some(5),
    Some(7),
    Some(9),
    Some(2),
    None,
    None,
    Some(11),
];

/// Grids without amounts, columns or rows.
static EMPTY: [Case; 3] = [
    Case {
        rows: 2,
        columns: 2,
        amounts: &[None; 4],
        penalty: 7,
        cost: 14,
    },
    Case {
        rows: 3,
        columns: 0,
        amounts: &[],
        penalty: 5,
        cost: 15,
    },
    Case {
        rows: 0,
        columns: 3,
        amounts: &[],
        penalty: 5,
        cost: 0,
    },
];

/// Ties.
static TIES: [Case; 2] = [
    Case {
        rows: 3,
        columns: 3,
        amounts: &[Some(4); 9],
        penalty: 10,
        cost: 12,
    },
    Case {
        rows: 3,
        columns: 2,
        amounts: &[Some(4); 6],
        penalty: 10,
        cost: 18,
    },
];

/// The greatest amounts and penalties.
static GREATEST: [Case; 3] = [
    Case {
        rows: 2,
        columns: 2,
        amounts: &[Some(MOST), Some(MOST), Some(MOST), Some(5)],
        penalty: MOST_PENALTY,
        cost: 1_000_000_000_005,
    },
    Case {
        rows: 2,
        columns: 2,
        amounts: &[Some(1), Some(2), Some(0), Some(3)],
        penalty: 0,
        cost: 0,
    },
    Case {
        rows: 3,
        columns: 2,
        amounts: &[Some(9), None, Some(8), None, None, None],
        penalty: MOST_PENALTY,
        cost: 2_000_000_000_008,
    },
];

/// Each row moves the rows before it.
static MOVED: [Case; 2] = [
    Case {
        rows: 4,
        columns: 4,
        amounts: &MOVING,
        penalty: 100,
        cost: 20,
    },
    Case {
        rows: 4,
        columns: 4,
        amounts: &MOVING,
        penalty: 8,
        cost: 18,
    },
];

// Writes the amounts, row by row, into a grid of so many columns.
fn write(grid: &mut Grid, amounts: &[Option<u64>]) {
    let columns = grid.columns() as usize;
    if columns == 0 {
        return;
    }
    for (place, amount) in amounts.iter().enumerate() {
        let (row, column) = (place / columns, place % columns);
        if let Some(amount) = amount
            && *amount <= MOST
            && row < grid.rows() as usize
            && column < grid.columns() as usize
        {
            grid.set(row as u32, column as u32, *amount);
        }
    }
}

// What a row costs by its column.
fn row_cost(grid: &Grid, penalty: u64, row: usize, column: Option<u32>) -> u64 {
    match column {
        None => penalty,
        Some(column) if row < grid.rows() as usize && column < grid.columns() => {
            grid.cell(row as u32, column).unwrap_or(0)
        }
        Some(_) => 0,
    }
}

// What a pairing costs.
fn cost(grid: &Grid, penalty: u64, paired: &Paired) -> u64 {
    let mut sum = 0u64;
    for (row, column) in paired.columns.items().iter().enumerate() {
        sum = sum.wrapping_add(row_cost(grid, penalty, row, *column));
    }
    sum
}

fn expect_case(rt: &impl Abort, alloc: Global, case: &Case) {
    assert!(rt; case.rows < 10 && case.columns < 100 && case.penalty <= MOST_PENALTY);
    let mut grid = Grid::new(alloc, case.rows, case.columns).expect(rt, "there is memory");
    write(&mut grid, case.amounts);
    let paired = solve_grid(alloc, &grid, case.penalty).expect(rt, "there is memory");
    let cost = cost(&grid, case.penalty, &paired);
    assert!(rt; cost == case.cost, "{cost}, and not {}", case.cost);
}

fn expect_cases(rt: &impl Abort, alloc: Global, cases: &[Case]) {
    for case in cases {
        expect_case(rt, alloc, case);
    }
}

// The cell of row r and column c, both from 0, has the amount (r + 1) (c + 1).
fn write_products(grid: &mut Grid, row: u32)
    requires row { row < 8 }
    requires grid { grid.old.rows ≡ 8 }
    requires columns { grid.old.columns ≡ 30 }
    ensures rows { grid.new.rows ≡ 8 }
    ensures columns { grid.new.columns ≡ 30 }
{
    for column in 0..30 {
        grid.set(row, column, (u64::from(row) + 1) * (u64::from(column) + 1));
    }
}

// The cost of a least pairing of products.
fn cost_of_products(rt: &impl Abort, alloc: Global) -> u64 {
    let mut grid = Grid::new(alloc, 8, 30).expect(rt, "there is memory");
    for row in 0..8 {
        write_products(&mut grid, row);
    }
    let paired = solve_grid(alloc, &grid, MOST_PENALTY).expect(rt, "there is memory");
    cost(&grid, MOST_PENALTY, &paired)
}

#[test]
fn pairings_are_least(rt: HostRuntime) {
    expect_cases(&rt, rt.alloc(), &EMPTY);
    expect_cases(&rt, rt.alloc(), &TIES);
    expect_cases(&rt, rt.alloc(), &GREATEST);
    expect_cases(&rt, rt.alloc(), &MOVED);
    assert!(rt; cost_of_products(&rt, rt.alloc()) == 120);
}
