//! Batches that are priced and seated.
ghost use Rattle.std.specs.Prelude.{◌≡◌, IfOk, IfErr};
ghost use Rattle.batch_commit.specs.inner.Table.{IsPriceable, IsTableOf};
ghost use Rattle.batch_commit.specs.inner.Answer.{CertifiesOverCells, undecided};

use crate::batches::price_batch_by;
use crate::pairs::Search;
use crate::pricer::Pricer;
use batch_commit::{Answer, Batch, PriceTable, Solved};
use hungarian::solve;
use ride_ports::{Gate, NoMemory};
use std::thread::Threads;

/// Prices and seats a batch: returns it with a least seating and its prices, or the batch again where memory is wanting. The workers
/// pass the gate as those of `price_batch`.
pub fn seat_batch<R: Threads + Sync, G: Gate>(
    rt: &R,
    batch: Batch,
    pricer: &mut Pricer,
    gate: &G,
) -> Result<Solved, Batch>
    requires priceable { IsPriceable pricer.old batch }
    ensures batch { IfOk result (λ solved. solved.batch ≡ batch) }
    ensures table { IfOk result (λ solved. IsTableOf pricer.old batch solved.table) }
    ensures same_batch { IfErr result (λ same. same ≡ batch) }
    ensures pricer { pricer.new ≡ pricer.old }
{
    seat_batch_by(rt, Search::BySlack, batch, pricer, gate)
}

/// The same by one of the ways to search a pair's places.
pub fn seat_batch_by<R: Threads + Sync, G: Gate>(
    rt: &R,
    search: Search,
    batch: Batch,
    pricer: &mut Pricer,
    gate: &G,
) -> Result<Solved, Batch>
    requires priceable { IsPriceable pricer.old batch }
    ensures batch { IfOk result (λ solved. solved.batch ≡ batch) }
    ensures table { IfOk result (λ solved. IsTableOf pricer.old batch solved.table) }
    ensures same_batch { IfErr result (λ same. same ≡ batch) }
    ensures pricer { pricer.new ≡ pricer.old }
{
    match seated(rt, search, &batch, pricer, gate) {
        Ok((table, answer)) => Ok(Solved::tie(batch, table, answer)),
        Err(_) => Err(batch),
    }
}

// The table of a batch, and its answer.
fn seated<R: Threads + Sync, G: Gate>(
    rt: &R,
    search: Search,
    batch: &Batch,
    pricer: &mut Pricer,
    gate: &G,
) -> Result<(PriceTable, Answer), NoMemory>
    requires priceable { IsPriceable pricer.old batch.now }
    ensures table { IfOk result (λ pair. IsTableOf pricer.old batch.now pair.0) }
    ensures certified { IfOk result
        (λ pair. CertifiesOverCells batch.now pair.0 pair.1.seating pair.1.prices pair.1.pays) }
    ensures undecided { IfOk result (λ pair. pair.1.outcomes ≡ undecided pair.1.prices) }
    ensures pricer { pricer.new ≡ pricer.old }
{
    let table = price_batch_by(rt, search, batch, pricer, gate)?;
    let answer = solve(pricer.alloc(), batch, &table)?;
    Ok((table, answer))
}
