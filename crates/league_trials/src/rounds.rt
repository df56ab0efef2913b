//! Rounds of two companies with one vehicle each.
ghost use Rattle.std.specs.Prelude.{◌≡◌, ◌<◌, ◌^◌, IfOk, IfSome};
ghost use Rattle.fleet_league.specs.inner.Round.{IsPriced};

use dual_check::{Grid, Paired, certifies_grid};
use fleet_league::{NoMemory, PriceRows, Quote, settle};
use ride_model::VersionList;
use std::alloc::Global;
use std::process::Abort;

// What leaving a ride out costs.
const PENALTY: u64 = 3600;

// The prices of each company's vehicle for two rides, and the columns in which a least pairing seats them.
struct Case {
    what: &'static str,
    first: [Option<u32>; 2],
    second: [Option<u32>; 2],
    columns: [Option<u32>; 2],
}

static CASES: [Case; 3] = [
    Case {
        what: "each ride in the vehicle of another company",
        first: [Some(120), Some(60)],
        second: [Some(120), Some(180)],
        columns: [Some(1), Some(0)],
    },
    Case {
        what: "a vehicle without an offer for one ride takes the other",
        first: [Some(120), Some(60)],
        second: [None, Some(180)],
        columns: [Some(0), Some(1)],
    },
    Case {
        what: "a ride without an offer is left out",
        first: [None, Some(60)],
        second: [None, Some(180)],
        columns: [None, Some(0)],
    },
];

fn price_of(seconds: Option<u32>) -> Option<u64>
    ensures { IfSome result (λ price. price < 2 ^ 42) }
{
    match seconds {
        Some(seconds) => Some(u64::from(seconds)),
        None => None,
    }
}

// A quote of one vehicle for two rides.
fn quote(alloc: Global, prices: &[Option<u32>; 2]) -> Result<Quote, NoMemory>
    ensures priced { IfOk result (λ quote. IsPriced quote.prices) }
    ensures rides { IfOk result (λ quote. quote.prices.rows ≡ 2) }
{
    let mut cells = Vec::with_capacity(alloc, 2)?;
    cells.push(price_of(prices[0]))?;
    cells.push(price_of(prices[1]))?;
    Ok(Quote {
        time: 0,
        plans: VersionList::of(Vec::new(alloc)),
        prices: PriceRows::of(2, 1, cells),
    })
}

fn settled(alloc: Global, case: &Case) -> Result<Paired, NoMemory> {
    let first = quote(alloc, &case.first)?;
    let second = quote(alloc, &case.second)?;
    settle(alloc, PENALTY, &[first, second])
}

// A quote of one vehicle for no rides.
fn quote_of_none(alloc: Global) -> Quote
    ensures priced { IsPriced result.prices }
    ensures rides { result.prices.rows ≡ 0 }
{
    Quote {
        time: 0,
        plans: VersionList::of(Vec::new(alloc)),
        prices: PriceRows::of(0, 1, Vec::new(alloc)),
    }
}

/// Writes a company's prices into its column.
pub(crate) fn write(grid: &mut Grid, column: u32, prices: &[Option<u32>; 2])
    requires rows { grid.old.rows ≡ 2 }
    requires column { column < grid.old.columns }
    ensures rows { grid.new.rows ≡ 2 }
    ensures columns { grid.new.columns ≡ grid.old.columns }
{
    if let Some(seconds) = prices[0] {
        grid.set(0, column, u64::from(seconds));
    }
    if let Some(seconds) = prices[1] {
        grid.set(1, column, u64::from(seconds));
    }
}

// The prices of both companies.
fn union(alloc: Global, case: &Case) -> Result<Grid, NoMemory> {
    let mut grid = Grid::new(alloc, 2, 2)?;
    write(&mut grid, 0, &case.first);
    write(&mut grid, 1, &case.second);
    Ok(grid)
}

fn expect_round(rt: &impl Abort, alloc: Global, case: &Case) {
    let Ok(paired) = settled(alloc, case) else {
        panic!(rt; "there is memory");
    };
    let Ok(grid) = union(alloc, case) else {
        panic!(rt; "there is memory");
    };
    assert!(rt;
        paired.columns.items() == case.columns.as_slice(),
        "{}",
        case.what
    );
    assert!(rt; certifies_grid(&grid, PENALTY, &paired), "{}", case.what);
}

// A round of no rides pays nothing.
fn expect_none(rt: &impl Abort, alloc: Global) {
    let quotes = [quote_of_none(alloc), quote_of_none(alloc)];
    let Ok(paired) = settle(alloc, PENALTY, &quotes) else {
        panic!(rt; "there is memory");
    };
    assert!(rt; paired.columns.items().is_empty() && paired.prices.items().is_empty());
    assert!(rt; paired.pays.items() == [0, 0].as_slice());
}

#[test]
fn rides_are_seated_over_both_companies(rt: HostRuntime) {
    for case in CASES.as_slice() {
        expect_round(&rt, rt.alloc(), case);
    }
    expect_none(&rt, rt.alloc());
}
