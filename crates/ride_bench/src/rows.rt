//! Full rows of travel times on a generated map.
ghost use Rattle.std.specs.Prelude.{◌≡◌, ◌≤◌, length, All, IfOk};
ghost use Rattle.plan_trials.specs.trial_town.Streets.{IsPlace};

use crate::grid::{Grid, generate};
use crate::sources::Sources;
use crate::stopwatch::Stopwatch;
use ride_model::Network;
use road_times::{Roads, Scratch, Side};
use std::alloc::{AllocError, Global};
use std::io;
use std::rt::Clock;

/// A map of a few crossings.
pub(crate) const SMALL: Grid = Grid {
    nodes: 40,
    width: 6,
    kept: 7,
};

/// A map of New York's size.
pub(crate) const NEW_YORK: Grid = Grid {
    nodes: 264_346,
    width: 514,
    kept: 7,
};

/// So many nodes, spread over the map.
pub(crate) fn spread(alloc: Global, nodes: u32, many: u32) -> Result<Vec<u32>, AllocError>
    requires many { (1 ≤ many) × (many ≤ nodes) }
    requires nodes { nodes ≤ 500000 }
    ensures nodes { IfOk result (λ list. All (IsPlace nodes) list.items) }
    ensures count { IfOk result (λ list. length list.items ≡ many) }
{
    let mut list = Vec::new(alloc);
    let sources = Sources::spread(nodes, many);
    for place in 0..many {
        list.push(sources.node(place))?;
    }
    Ok(list)
}

/// The sum of the times that a row has.
pub(crate) fn sum_of(row: &[Option<u64>]) -> u64 {
    let mut sum = 0u64;
    for time in row {
        sum = sum.wrapping_add(time.unwrap_or(0));
    }
    sum
}

/// How many times a row has.
fn count_of(row: &[Option<u64>]) -> u64 {
    let mut count = 0u64;
    for time in row {
        count = count.wrapping_add(u64::from(time.is_some()));
    }
    count
}

/// Prints how many nodes were reached, and the sum of their times.
fn print_row(rt: &impl Print, source: u32, row: &[Option<u64>]) -> io::Result<()> {
    let reached = count_of(row);
    let sum = sum_of(row);
    println!(rt; "from {source} reached {reached} sum {sum}")
}

/// Fills the rows of so many nodes by one scratch, and prints what each holds. Returns the microseconds that the searches took together.
fn time_turns(
    rt: &(impl Clock + Print),
    alloc: Global,
    roads: &Roads,
    wanted: &[u32],
    row: &mut [Option<u64>],
    turns: u32,
) -> io::Result<u128>
    requires nodes { roads.now.nodes ≤ 500000 }
    requires wanted { All (IsPlace roads.now.nodes) wanted.now }
    requires places { length row.old ≡ length wanted.now }
    requires turns { (1 ≤ turns) × (turns ≤ roads.now.nodes) }
{
    let mut scratch = Scratch::new(alloc, roads)?;
    let sources = Sources::spread(roads.nodes(), turns);
    let mut total = 0u128;
    for turn in 0..turns {
        let source = sources.node(turn);
        let watch = Stopwatch::start(rt);
        roads.rows(&mut scratch, source, Side::Out, wanted, row);
        let micros = watch.elapsed(rt).as_micros();
        print_row(rt, source, row)?;
        total = total.wrapping_add(micros);
    }
    Ok(total)
}

/// Makes room for rows to all nodes, and fills those of so many.
fn time_rows(
    rt: &(impl Clock + Print),
    alloc: Global,
    roads: &Roads,
    turns: u32,
) -> io::Result<u128>
    requires nodes { roads.now.nodes ≤ 500000 }
    requires turns { (1 ≤ turns) × (turns ≤ roads.now.nodes) }
{
    let wanted = spread(alloc, roads.nodes(), roads.nodes())?;
    let mut row = vec![in alloc; None; wanted.len()]?;
    time_turns(rt, alloc, roads, &wanted, &mut row, turns)
}

/// The roads of a map, whose size is printed.
pub(crate) fn roads_of(rt: &impl Print, alloc: Global, map: &Network) -> io::Result<Roads>
    ensures nodes { IfOk result (λ roads. roads.nodes ≡ map.now.nodes) }
{
    println!(rt; "nodes {} arcs {}", map.nodes(), map.arcs().len())?;
    Ok(Roads::new(alloc, map)?)
}

/// The roads of a generated map.
fn generated(rt: &impl Print, alloc: Global, grid: Grid) -> io::Result<Roads>
    requires nodes { (1 ≤ grid.nodes) × (grid.nodes ≤ 500000) }
    requires width { (1 ≤ grid.width) × (grid.width ≤ 500000) }
    ensures nodes { IfOk result (λ roads. roads.nodes ≡ grid.nodes) }
{
    let map = generate(alloc, grid)?;
    roads_of(rt, alloc, &map)
}

/// The microseconds of so many rows of a generated map.
fn time_generated(
    rt: &(impl Clock + Print),
    alloc: Global,
    grid: Grid,
    turns: u32,
) -> io::Result<u128>
    requires nodes { (1 ≤ grid.nodes) × (grid.nodes ≤ 500000) }
    requires width { (1 ≤ grid.width) × (grid.width ≤ 500000) }
    requires turns { (1 ≤ turns) × (turns ≤ grid.nodes) }
{
    let roads = generated(rt, alloc, grid)?;
    time_rows(rt, alloc, &roads, turns)
}

/// Prints the rows of a small map.
pub fn small(rt: &(impl Clock + Print), alloc: Global) -> io::Result<()> {
    time_generated(rt, alloc, SMALL, 4)?;
    Ok(())
}

/// Times rows of a map of New York's size.
pub fn new_york(rt: &(impl Clock + Print), alloc: Global) -> io::Result<()> {
    let total = time_generated(rt, alloc, NEW_YORK, 30)?;
    println!(rt; "mean of 30 rows: {} microseconds", total / 30)
}
