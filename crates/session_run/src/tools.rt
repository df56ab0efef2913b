//! What the desk of a session of one feed works with.
ghost use Rattle.std.specs.Prelude.{◌≡◌, ◌≤◌, IfOk, IfErr};
ghost use Rattle.ride_model.specs.declared.limits.TheConstants.{LONGEST_REACH};
ghost use Rattle.batch_commit.specs.inner.Table.{IsPriceable, IsTableOf};
ghost use Rattle.idle_moves.specs.Sheet.{IsSheet};

use adaptive_roads::{Roads, TravelTimes};
use batch_commit::{Batch, Solved};
use idle_moves::{MoveSheet, plan_moves};
use pricing_workers::{Pricer, seat_batch};
use ride_model::NoMemory;
use ride_ports::OpenGate;
use std::alloc::Global;
use std::marker::Model;
use std::thread::Threads;

/// What prices and seats batches, and what plans the sheets after them. To contracts it is the map.
pub(crate) struct Tools<'r> {
    pricer: Pricer<'r>,
    times: TravelTimes<'r>,
}

impl<'r> Model for Tools<'r> {
    ghost use Rattle.std.specs.Prelude.{◌≡◌};
    ghost use Rattle.ride_model.specs.Road.{RoadMap};

    ghost Value = { RoadMap };

    ghost view = { λ t. t.pricer };

    ghost invariant = { λ t. t.times ≡ t.pricer };
}

impl Drop for Tools<'_> {
    fn drop(self) {
        let Tools { pricer, times } = self;
        drop(pricer);
        drop(times);
    }
}

impl<'r> Tools<'r> {
    /// Tools for so many workers over these roads.
    pub(crate) fn new(
        alloc: Global,
        roads: &'r Roads,
        workers: usize,
    ) -> Result<Tools<'r>, NoMemory>
        requires { 1 ≤ workers }
        ensures { IfOk result (λ tools. tools ≡ roads.now) }
    {
        Ok(Tools {
            pricer: Pricer::new(alloc, roads, workers)?,
            times: TravelTimes::new(alloc, roads)?,
        })
    }

    /// Goes on with the hierarchy of the roads while there is nothing to price.
    pub(crate) fn prepare(&self) {
        self.pricer.prepare();
    }

    /// Prices and seats a batch: returns it with a least seating and its prices, or the batch again where memory is wanting.
    pub(crate) fn seat_batch<R: Threads + Sync>(
        &mut self,
        rt: &R,
        batch: Batch,
    ) -> Result<Solved, Batch>
        requires priceable { IsPriceable self.old batch }
        ensures batch { IfOk result (λ solved. solved.batch ≡ batch) }
        ensures table { IfOk result (λ solved. IsTableOf self.old batch solved.table) }
        ensures same_batch { IfErr result (λ same. same ≡ batch) }
        ensures kept { self.new ≡ self.old }
    {
        seat_batch(rt, batch, &mut self.pricer, &OpenGate)
    }

    /// The orders that send idle vehicles ahead after a solved batch, each within a reach of seconds.
    pub(crate) fn moves(&mut self, solved: &Solved, reach: u64) -> Result<MoveSheet, NoMemory>
        requires reach_limit { reach ≤ LONGEST_REACH }
        requires priceable { IsPriceable self.old solved.now.batch }
        ensures sheet { IfOk result (IsSheet self.old solved.now.batch
            solved.now.answer.seating reach) }
        ensures kept { self.new ≡ self.old }
    {
        plan_moves(
            self.pricer.alloc(),
            solved.batch(),
            solved.answer(),
            reach,
            &mut self.times,
        )
    }
}
