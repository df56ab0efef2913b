//! Certificates of small grids, each broken in one number.
use dual_check::laws::weak_duality_grid;
use dual_check::*;
use std::alloc::Global;
use std::process::Abort;

/// The greatest amount of a cell.
const MOST: u64 = (1 << 42) - 1;

/// A grid, and a certificate of a pairing. A table has a few of them: the time that a check takes for a table grows with the square of its
/// length.
struct Case {
    name: &'static str,
    rows: u32,
    columns: u32,
    /// Amounts with their rows and columns. Other cells have none.
    amounts: &'static [(u32, u32, u64)],
    penalty: u64,
    /// The column of each row.
    pairs: &'static [Option<u32>],
    /// The price of each row.
    prices: &'static [u64],
    /// What each column pays.
    pays: &'static [u64],
    certified: bool,
}

/// One vehicle and two requests: the prices are right, or not.
static PRICES: [Case; 3] = [
    Case {
        name: "certified",
        rows: 2,
        columns: 1,
        amounts: &[(0, 0, 180), (1, 0, 240)],
        penalty: 3600,
        pairs: &[Some(0), None],
        prices: &[3540, 3600],
        pays: &[3360],
        certified: true,
    },
    Case {
        name: "prices of 0",
        rows: 2,
        columns: 1,
        amounts: &[(0, 0, 180), (1, 0, 240)],
        penalty: 3600,
        pairs: &[Some(0), None],
        prices: &[0, 0],
        pays: &[0],
        certified: false,
    },
    Case {
        name: "a price lower by one",
        rows: 2,
        columns: 1,
        amounts: &[(0, 0, 180), (1, 0, 240)],
        penalty: 3600,
        pairs: &[Some(0), None],
        prices: &[3539, 3600],
        pays: &[3360],
        certified: false,
    },
];

/// The pairs that prices have to cover.
static COVERED: [Case; 2] = [
    Case {
        name: "the seated pair not covered",
        rows: 2,
        columns: 1,
        amounts: &[(0, 0, 180), (1, 0, 240)],
        penalty: 3600,
        pairs: &[Some(0), None],
        prices: &[3540, 3599],
        pays: &[3359],
        certified: false,
    },
    Case {
        name: "the other pair not covered",
        rows: 2,
        columns: 1,
        amounts: &[(0, 0, 180), (1, 0, 240)],
        penalty: 3600,
        pairs: &[Some(0), None],
        prices: &[3539, 3600],
        pays: &[3359],
        certified: false,
    },
];

/// Other pairings of them.
static PAIRINGS: [Case; 3] = [
    Case {
        name: "a column twice",
        rows: 2,
        columns: 1,
        amounts: &[(0, 0, 180), (1, 0, 240)],
        penalty: 3600,
        pairs: &[Some(0), Some(0)],
        prices: &[180, 240],
        pays: &[0],
        certified: false,
    },
    Case {
        name: "a column out of range",
        rows: 2,
        columns: 1,
        amounts: &[(0, 0, 180), (1, 0, 240)],
        penalty: 3600,
        pairs: &[Some(1), None],
        prices: &[180, 240],
        pays: &[0],
        certified: false,
    },
    Case {
        name: "another pairing",
        rows: 2,
        columns: 1,
        amounts: &[(0, 0, 180), (1, 0, 240)],
        penalty: 3600,
        pairs: &[None, Some(0)],
        prices: &[3540, 3600],
        pays: &[3360],
        certified: false,
    },
];

/// Greedy is dearer.
static GREEDY: [Case; 2] = [
    Case {
        name: "the least pairing",
        rows: 2,
        columns: 2,
        amounts: &[(0, 0, 120), (0, 1, 180), (1, 0, 60), (1, 1, 240)],
        penalty: 3600,
        pairs: &[Some(1), Some(0)],
        prices: &[180, 120],
        pays: &[60, 0],
        certified: true,
    },
    Case {
        name: "the greedy one",
        rows: 2,
        columns: 2,
        amounts: &[(0, 0, 120), (0, 1, 180), (1, 0, 60), (1, 1, 240)],
        penalty: 3600,
        pairs: &[Some(0), Some(1)],
        prices: &[180, 120],
        pays: &[60, 0],
        certified: false,
    },
];

/// A price is at most the penalty.
static MOST_PRICES: [Case; 3] = [
    Case {
        name: "no amount, at the penalty",
        rows: 1,
        columns: 1,
        amounts: &[],
        penalty: 100,
        pairs: &[None],
        prices: &[100],
        pays: &[0],
        certified: true,
    },
    Case {
        name: "no amount where the row is paired",
        rows: 1,
        columns: 1,
        amounts: &[],
        penalty: 100,
        pairs: &[Some(0)],
        prices: &[0],
        pays: &[0],
        certified: false,
    },
    Case {
        name: "a price above the penalty",
        rows: 1,
        columns: 1,
        amounts: &[(0, 0, 180)],
        penalty: 100,
        pairs: &[None],
        prices: &[180],
        pays: &[80],
        certified: false,
    },
];

/// The greatest numbers.
static GREATEST: [Case; 3] = [
    Case {
        name: "the greatest amount",
        rows: 1,
        columns: 1,
        amounts: &[(0, 0, MOST)],
        penalty: MOST,
        pairs: &[Some(0)],
        prices: &[MOST],
        pays: &[0],
        certified: true,
    },
    Case {
        name: "the greatest penalty",
        rows: 1,
        columns: 1,
        amounts: &[(0, 0, MOST)],
        penalty: u64::MAX,
        pairs: &[Some(0)],
        prices: &[u64::MAX],
        pays: &[u64::MAX - MOST],
        certified: true,
    },
    Case {
        name: "the greatest penalty of a row that is not paired",
        rows: 1,
        columns: 1,
        amounts: &[(0, 0, MOST)],
        penalty: u64::MAX,
        pairs: &[None],
        prices: &[u64::MAX],
        pays: &[u64::MAX],
        certified: false,
    },
];

/// Grids without rows, and lists of other lengths.
static NO_ROWS: [Case; 3] = [
    Case {
        name: "no row",
        rows: 0,
        columns: 2,
        amounts: &[],
        penalty: 0,
        pairs: &[],
        prices: &[],
        pays: &[0, 0],
        certified: true,
    },
    Case {
        name: "no row, and a column pays",
        rows: 0,
        columns: 2,
        amounts: &[],
        penalty: 0,
        pairs: &[],
        prices: &[],
        pays: &[1, 0],
        certified: false,
    },
    Case {
        name: "a payment missing",
        rows: 0,
        columns: 2,
        amounts: &[],
        penalty: 0,
        pairs: &[],
        prices: &[],
        pays: &[0],
        certified: false,
    },
];

/// Grids without columns, and lists of other lengths.
static NO_COLUMNS: [Case; 4] = [
    Case {
        name: "no column",
        rows: 2,
        columns: 0,
        amounts: &[],
        penalty: 7,
        pairs: &[None, None],
        prices: &[7, 7],
        pays: &[],
        certified: true,
    },
    Case {
        name: "no column, at no penalty",
        rows: 2,
        columns: 0,
        amounts: &[],
        penalty: 0,
        pairs: &[None, None],
        prices: &[0, 0],
        pays: &[],
        certified: true,
    },
    Case {
        name: "a price too many",
        rows: 2,
        columns: 0,
        amounts: &[],
        penalty: 7,
        pairs: &[None, None],
        prices: &[7, 7, 0],
        pays: &[],
        certified: false,
    },
    Case {
        name: "a pair missing",
        rows: 2,
        columns: 0,
        amounts: &[],
        penalty: 7,
        pairs: &[None],
        prices: &[7, 7],
        pays: &[],
        certified: false,
    },
];

fn set(rt: &impl Abort, grid: &mut Grid, row: u32, column: u32, amount: u64) {
    assert!(rt; row < grid.rows() && column < grid.columns() && amount <= MOST);
    grid.set(row, column, amount);
    assert!(rt; grid.cell(row, column) == Some(amount));
}

fn grid_of(rt: &impl Abort, alloc: Global, case: &Case) -> Grid {
    assert!(rt; case.rows <= 2 && case.columns <= 2);
    let mut grid = Grid::new(alloc, case.rows, case.columns).expect(rt, "there is memory");
    for (row, column, amount) in case.amounts {
        set(rt, &mut grid, *row, *column, *amount);
    }
    grid
}

fn numbers(rt: &impl Abort, alloc: Global, items: &[u64]) -> NumberList {
    NumberList::of(items.to_vec(alloc).expect(rt, "there is memory"))
}

fn paired_of(rt: &impl Abort, alloc: Global, case: &Case) -> Paired {
    let columns = case.pairs.to_vec(alloc).expect(rt, "there is memory");
    Paired {
        columns: ColumnList::of(columns),
        prices: numbers(rt, alloc, case.prices),
        pays: numbers(rt, alloc, case.pays),
    }
}

// Whether the prices certify the pairing, which is least then.
fn is_certified(grid: Grid, penalty: u64, paired: Paired) -> bool {
    let certified = certifies_grid(&grid, penalty, &paired);
    if certified {
        weak_duality_grid(&grid, penalty, &paired);
    }
    certified
}

fn expect_case(rt: &impl Abort, alloc: Global, case: &Case) {
    let grid = grid_of(rt, alloc, case);
    let paired = paired_of(rt, alloc, case);
    let certified = is_certified(grid, case.penalty, paired);
    assert!(rt; certified == case.certified, "{}", case.name);
}

fn expect_cases(rt: &impl Abort, alloc: Global, cases: &[Case]) {
    for case in cases {
        expect_case(rt, alloc, case);
    }
}

#[test]
fn prices_certify_least_pairings_alone(rt: HostRuntime) {
    expect_cases(&rt, rt.alloc(), &PRICES);
    expect_cases(&rt, rt.alloc(), &COVERED);
    expect_cases(&rt, rt.alloc(), &PAIRINGS);
    expect_cases(&rt, rt.alloc(), &GREEDY);
    expect_cases(&rt, rt.alloc(), &MOST_PRICES);
    expect_cases(&rt, rt.alloc(), &GREATEST);
    expect_cases(&rt, rt.alloc(), &NO_ROWS);
    expect_cases(&rt, rt.alloc(), &NO_COLUMNS);
}
