//! The table of a batch.
ghost use Rattle.std.specs.Prelude.{◌≡◌, All, IfOk};
ghost use Rattle.std.specs.Result.{OnOk};
ghost use Rattle.ride_model.specs.Road.{IsNode, IsRoadMap};
ghost use Rattle.batch_commit.specs.inner.Table.{HasSmallCosts, IsPriceable, IsTableOf};
ghost use Rattle.pricing_workers.specs.inner.Pairs.{MayFill};

use crate::cells::{Job, table_of};
use crate::pairs::Search;
use crate::pricer::Pricer;
use crate::wanted::Wanted;
use adaptive_roads::{Roads, Scratch};
use batch_commit::{Batch, PriceTable};
use ride_ports::{Gate, NoMemory};
use std::thread::Threads;

/// How many rows of travel times a request asks for.
const ROWS_A_REQUEST: usize = 4;

/// The least offer of each vehicle of a batch to each of its requests: rows of times over the roads, by as many workers as the pricer has
/// and there are requests, and pairs in parallel. A worker passes the gate at place 7 before the rows of each request. The hierarchy of the
/// roads is made first, where that pays.
pub fn price_batch<R: Threads + Sync, G: Gate>(
    rt: &R,
    batch: &Batch,
    pricer: &mut Pricer,
    gate: &G,
) -> Result<PriceTable, NoMemory>
    requires priceable { IsPriceable pricer.old batch.now }
    ensures table { IfOk result (λ table. IsTableOf pricer.old batch.now table) }
    ensures small { IfOk result HasSmallCosts }
    ensures fits { IsRoadMap pricer.old }
    ensures pricer { pricer.new ≡ pricer.old }
{
    price_batch_by(rt, Search::BySlack, batch, pricer, gate)
}

/// The same by one of the ways to search a pair's places.
pub fn price_batch_by<R: Threads + Sync, G: Gate>(
    rt: &R,
    search: Search,
    batch: &Batch,
    pricer: &mut Pricer,
    gate: &G,
) -> Result<PriceTable, NoMemory>
    requires priceable { IsPriceable pricer.old batch.now }
    ensures table { IfOk result (λ table. IsTableOf pricer.old batch.now table) }
    ensures small { IfOk result HasSmallCosts }
    ensures fits { IsRoadMap pricer.old }
    ensures pricer { pricer.new ≡ pricer.old }
{
    // The number of nodes is asked for the proof alone: with it comes that the map is within its limits.
    let _nodes = pricer.roads().nodes();
    priced(rt, search, batch, pricer, gate)
}

// The table of a batch.
fn priced<R: Threads + Sync, G: Gate>(
    rt: &R,
    search: Search,
    batch: &Batch,
    pricer: &mut Pricer,
    gate: &G,
) -> Result<PriceTable, NoMemory>
    requires priceable { IsPriceable pricer.old batch.now }
    ensures table { IfOk result (λ table. IsTableOf pricer.old batch.now table) }
    ensures pricer { pricer.new ≡ pricer.old }
{
    let (alloc, roads) = (pricer.alloc(), pricer.roads());
    roads.prepare_for(alloc, ROWS_A_REQUEST * batch.requests().len());
    pricer.times.look();
    renew_wanted(&mut pricer.wanted, batch, roads)?;
    let wanted = &pricer.wanted;
    let towards = pricer.times.towards(wanted.nodes.as_slice());
    let job = Job {
        search,
        roads: &towards,
        batch,
        wanted,
    };
    let scratches = pricer.scratches.as_mut_slice();
    let table = table_of(rt, alloc, &job, &mut pricer.rows, scratches, gate)?;
    roads.note(take_settled(scratches));
    Ok(table)
}

// Makes it what is wanted for a batch, of a map that is within its limits, as all roads are.
fn renew_wanted(wanted: &mut Wanted, batch: &Batch, roads: &Roads) -> Result<(), NoMemory>
    requires priceable { IsPriceable roads.now batch.now }
    ensures ready { OnOk result (MayFill roads.now batch.now wanted.new) }
    ensures inside { OnOk result (All (IsNode roads.now) wanted.new.nodes.items) }
{
    // The number of nodes is asked for the proof alone: with it comes that the map is within its limits.
    let _ = roads.nodes();
    wanted.renew(batch)?;
    Ok(())
}

// How many nodes the searches of workers have settled since this was asked last.
fn take_settled(scratches: &mut [Scratch]) -> u64
    ensures { scratches.new ≡ scratches.old }
{
    let mut settled = 0u64;
    for scratch in scratches.iter_mut() {
        settled = settled.saturating_add(scratch.take_settled());
    }
    settled
}
