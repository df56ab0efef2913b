//! Both ways to search a pair's places, over the first batch of a generated city.
ghost use Rattle.std.specs.Prelude.{◌≡◌, ◌≤◌, ◌<◌, Some, IfOk, length};
ghost use Rattle.ride_model.specs.State.{open_batch_numbered};
ghost use Rattle.board_core.specs.Recorded.{state_of};

use super::Town;
use super::days::{opened, tell};
use adaptive_roads::Roads;
use batch_commit::{Batch, PriceTable};
use board_core::Board;
use pricing_workers::{Pricer, Search, price_batch_by};
use ride_model::{Command, NoMemory};
use ride_ports::OpenGate;
use std::alloc::Global;
use std::process::Abort;
use std::thread::Threads;

/// What the least offer of a pair costs, where there is one.
fn cost_at(table: &PriceTable, request: u32, vehicle: u32) -> Option<u64>
    requires request { request < table.now.rows }
    requires vehicle { vehicle < table.now.columns }
{
    match table.cell(request, vehicle) {
        Some(offer) => Some(offer.cost),
        None => None,
    }
}

/// Every vehicle costs a request the same by both tables; answers how many can take it.
fn count_alike(
    rt: &impl Abort,
    fast: &PriceTable,
    plain: &PriceTable,
    request: u32,
    vehicles: u32,
) -> u32
    requires fast { (request < fast.now.rows) × (vehicles ≤ fast.now.columns) }
    requires plain { (request < plain.now.rows) × (vehicles ≤ plain.now.columns) }
{
    let mut offers = 0u32;
    for vehicle in 0..vehicles {
        let cost = cost_at(fast, request, vehicle);
        assert!(rt; cost == cost_at(plain, request, vehicle));
        offers = offers.wrapping_add(u32::from(cost.is_some()));
    }
    offers
}

/// The same of all requests, some of which a vehicle can take.
fn expect_alike(
    rt: &impl Abort,
    fast: &PriceTable,
    plain: &PriceTable,
    requests: u32,
    vehicles: u32,
)
    requires fast { (requests ≤ fast.now.rows) × (vehicles ≤ fast.now.columns) }
    requires plain { (requests ≤ plain.now.rows) × (vehicles ≤ plain.now.columns) }
{
    let mut offers = 0u32;
    for request in 0..requests {
        offers = offers.wrapping_add(count_alike(rt, fast, plain, request, vehicles));
    }
    assert!(rt; offers > 0);
}

/// The prices of an open batch, by one of the ways to search a pair's places.
fn table_of<R: Threads + Sync>(
    rt: &R,
    alloc: Global,
    search: Search,
    board: &Board<'_>,
    batch: &Batch,
    roads: &Roads,
) -> Result<PriceTable, NoMemory>
    requires held { open_batch_numbered (state_of board.now) batch.now.desk batch.now.number
        ≡ Some batch.now }
    requires roads { roads.now ≡ board.now.start.roads }
    ensures rows { IfOk result (λ table. table.rows ≡ length batch.now.requests) }
    ensures columns { IfOk result (λ table. table.columns ≡ length batch.now.vehicles) }
{
    // This call tells that the history is legal.
    let _history = board.entries();
    let mut pricer = Pricer::new(alloc, roads, 2)?;
    price_batch_by(rt, search, batch, &mut pricer, &OpenGate)
}

// An open batch is of eight requests over twenty vehicles, and each pair costs the same by both searches.
fn expect_batch<R: Threads + Sync + Abort>(
    rt: &R,
    alloc: Global,
    board: &Board<'_>,
    batch: &Batch,
    roads: &Roads,
)
    requires held { open_batch_numbered (state_of board.now) batch.now.desk batch.now.number
        ≡ Some batch.now }
    requires roads { roads.now ≡ board.now.start.roads }
{
    assert!(rt; batch.requests().len() == 8);
    assert!(rt; batch.vehicles().vehicles().len() == 20);
    let Ok(fast) = table_of(rt, alloc, Search::BySlack, board, batch, roads) else {
        panic!(rt; "there is memory");
    };
    let Ok(plain) = table_of(rt, alloc, Search::ByWholePlans, board, batch, roads) else {
        panic!(rt; "there is memory");
    };
    expect_alike(rt, &fast, &plain, 8, 20);
}

/// The batch after the first commands, of which the last asks for it.
fn first_batch(rt: &impl Abort, board: &mut Board<'_>, commands: &[Command]) -> Batch
    ensures start { board.new.start ≡ board.old.start }
    ensures held { open_batch_numbered (state_of board.new) result.desk result.number
        ≡ Some result }
{
    for command in commands {
        tell(rt, board, 1, *command);
    }
    opened(rt, board, 1)
}

/// The first batch of a town's feed, on a new board.
pub(super) fn expect_first_batch<R: Threads + Sync + Abort>(
    rt: &R,
    alloc: Global,
    town: Town<'_>,
    commands: &[Command],
) {
    let Town {
        roads,
        settings,
        fleet,
    } = town;
    // A clock, the eight requests of a group, and what asks for their batch.
    assert!(rt; commands.len() >= 10);
    let Ok(mut board) = Board::new(alloc, roads, settings, fleet, 1, 1) else {
        panic!(rt; "there is memory");
    };
    let batch = first_batch(rt, &mut board, &commands[..10]);
    expect_batch(rt, alloc, &board, &batch, roads);
}
