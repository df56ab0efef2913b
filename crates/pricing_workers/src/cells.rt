//! The cells of a batch, some requests at a time.
ghost use Rattle.std.specs.Prelude.{◌≡◌, ◌+◌, ◌*◌, ◌^◌, ◌<◌, ◌≤◌, length, All, IfOk};
ghost use Rattle.ride_model.specs.declared.limits.TheConstants.{LARGEST_BATCH};
ghost use Rattle.ride_model.specs.inner.Seating.{IsBatchOver};
ghost use Rattle.batch_commit.specs.inner.Table.{IsTableOf};
ghost use Rattle.pricing_workers.specs.inner.Cells.{ArePairsOf, AreRowsOf};
ghost use Rattle.pricing_workers.specs.inner.Pairs.{IsRequest, MayFill, MayPriceAll};
ghost use Rattle.pricing_workers.specs.inner.Rows.{HasRows};

use crate::pairs::{Search, price_pair};
use crate::rows::fill_times;
use crate::times::{Times, renew_times};
use crate::wanted::Wanted;
use adaptive_roads::{BatchRoads, Scratch};
use batch_commit::{Batch, PriceTable};
use rayon::prelude::*;
use ride_model::{Offer, Ride};
use ride_ports::{Gate, NoMemory};
use std::alloc::Global;
use std::thread::Threads;

// Memory: the times of a request take 64 bytes for each wanted node. A batch of 1,000 vehicles of 16 stops wants 17,000 nodes, so
// that those of 32 requests take 35 megabytes; those of all of 128 would take 139.

/// The most requests of which times are kept at once.
const MOST_AT_ONCE: usize = 32;

/// So many pairs take longer to price than a thread to start: a thread prices no fewer, but where there are no more.
const PAIRS_A_CHUNK: usize = 2048;

/// What all workers of a batch read.
#[derive(Clone, Copy)]
pub(crate) struct Job<'a> {
    pub(crate) search: Search,
    pub(crate) roads: &'a BatchRoads<'a>,
    pub(crate) batch: &'a Batch,
    pub(crate) wanted: &'a Wanted,
}

/// The table of a batch, by as many workers as there are scratches and requests.
pub(crate) fn table_of<R: Threads + Sync, G: Gate>(
    rt: &R,
    alloc: Global,
    job: &Job,
    rows: &mut Vec<Times>,
    scratches: &mut [Scratch],
    gate: &G,
) -> Result<PriceTable, NoMemory>
    requires ready { MayFill job.now.roads.now.roads job.now.batch.now job.now.wanted.now }
    requires over_map { IsBatchOver job.now.roads.now.roads job.now.batch.now }
    requires wanted { job.now.roads.now.wanted ≡ job.now.wanted.now.nodes.items }
    requires some_scratch { 1 ≤ length scratches.old }
    requires scratches { All (λ scratch. scratch.nodes ≡ job.now.roads.now.roads.nodes)
        scratches.old }
    ensures table { IfOk result (IsTableOf job.now.roads.now.roads job.now.batch.now) }
    ensures scratches { scratches.new ≡ scratches.old }
{
    let requests = job.batch.requests();
    let columns = job.batch.vehicles().vehicles().len();
    let mut cells = vec![in alloc; None; requests.len() * columns]?;
    let count = requests.len().max(1);
    let (workers, at_once) = (count.min(scratches.len()), count.min(MOST_AT_ONCE));
    renew_times(alloc, rows, at_once, job.wanted.nodes.len())?;
    let own = &mut scratches[..workers];
    let times = &mut rows.as_mut_slice()[..at_once];
    fill_parts(rt, job, requests, own, times, gate, cells.as_mut_slice());
    Ok(PriceTable::of(requests.len() as u32, columns as u32, cells))
}

// Fills the cells of requests: of all at once where there are times for so many, and else of one half after the other.
fn fill_parts<R: Threads + Sync, G: Gate>(
    rt: &R,
    job: &Job,
    requests: &[Ride],
    scratches: &mut [Scratch],
    times: &mut [Times],
    gate: &G,
    cells: &mut [Option<Offer>],
)
    requires ready { MayFill job.now.roads.now.roads job.now.batch.now job.now.wanted.now }
    requires few { length requests.now ≤ LARGEST_BATCH }
    requires requests { All (IsRequest job.now.roads.now.roads job.now.batch.now) requests.now }
    requires wanted { job.now.roads.now.wanted ≡ job.now.wanted.now.nodes.items }
    requires workers { (1 ≤ length scratches.old) × (length scratches.old ≤ LARGEST_BATCH) }
    requires scratches { All (λ scratch. scratch.nodes ≡ job.now.roads.now.roads.nodes)
        scratches.old }
    requires some_times { 1 ≤ length times.old }
    requires times { All (HasRows (length job.now.wanted.now.nodes.items)) times.old }
    requires cells { length cells.old ≡ length requests.now * length job.now.batch.now.vehicles }
    ensures cells { AreRowsOf job.now.roads.now.roads job.now.batch.now requests.now cells.new }
    ensures scratches { scratches.new ≡ scratches.old }
    ensures times { All (HasRows (length job.now.wanted.now.nodes.items)) times.new }
    ensures times_count { length times.new ≡ length times.old }
{
    if requests.len() <= times.len() {
        let own = &mut times[..requests.len()];
        fill_times(rt, job.roads, requests, scratches, own, gate);
        price_pairs(rt, job, requests, own, cells);
        return;
    }
    let columns = job.batch.vehicles().vehicles().len();
    let (front, back) = requests.split_at(requests.len() / 2);
    let (front_cells, back_cells) = cells.split_at_mut(front.len() * columns);
    fill_parts(rt, job, front, scratches, times, gate, front_cells);
    fill_parts(rt, job, back, scratches, times, gate, back_cells);
}

// Prices all pairs of requests whose times are at hand, in parallel.
fn price_pairs<R: Threads + Sync>(
    rt: &R,
    job: &Job,
    requests: &[Ride],
    times: &[Times],
    cells: &mut [Option<Offer>],
)
    requires ready { MayPriceAll job.now.roads.now.roads job.now.batch.now job.now.wanted.now
        requests.now times.now }
    requires cells { length cells.old ≡ length requests.now * length job.now.batch.now.vehicles }
    ensures { AreRowsOf job.now.roads.now.roads job.now.batch.now requests.now cells.new }
{
    par_chunks_mut_for_each(
        rt,
        cells,
        PAIRS_A_CHUNK,
        |first: usize, chunk: &mut [Option<Offer>]|
            requires { MayPriceAll job.now.roads.now.roads job.now.batch.now job.now.wanted.now
                requests.now times.now
                × (first + length chunk.now
                ≤ length requests.now * length job.now.batch.now.vehicles)
                × (length requests.now * length job.now.batch.now.vehicles < 2 ^ 64) }
            ensures { ArePairsOf job.entry.now.roads.now.roads job.entry.now.batch.now
                requests.entry.now first chunk.new
                × (length chunk.new ≡ length chunk.old) }
        { fill_pairs(job, requests, times, first, chunk) },
    );
}

// Fills the cells of pairs, of which the first has this number: those of a request are numbered before those of the next.
fn fill_pairs(
    job: &Job,
    requests: &[Ride],
    times: &[Times],
    first: usize,
    cells: &mut [Option<Offer>],
)
    requires ready { MayPriceAll job.now.roads.now.roads job.now.batch.now job.now.wanted.now
        requests.now times.now }
    requires inside { first + length cells.old
        ≤ length requests.now * length job.now.batch.now.vehicles }
    requires countable { length requests.now * length job.now.batch.now.vehicles < 2 ^ 64 }
    ensures pairs { ArePairsOf job.now.roads.now.roads job.now.batch.now requests.now first
        cells.new }
    ensures count { length cells.new ≡ length cells.old }
{
    let columns = job.batch.vehicles().vehicles().len();
    for place in 0..cells.len() {
        let pair = first + place;
        let (row, column) = (pair / columns, pair % columns);
        let (ride, own) = (&requests[row], &times[row]);
        cells[place] = price_pair(job.search, job.batch, job.wanted, own, ride, column);
    }
}
