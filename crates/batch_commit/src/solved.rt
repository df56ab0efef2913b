//! Solved batches.
ghost use Rattle.std.specs.Prelude.{◌≡◌, length, map};
ghost use Rattle.ride_model.specs.declared.vehicle.Vehicle.{Vehicle};
ghost use Rattle.ride_model.specs.State.{State};
ghost use Rattle.ride_model.specs.Seating.{vehicle_ids};
ghost use Rattle.ride_model.specs.Batch.{outcomes_of};
ghost use Rattle.batch_commit.specs.inner.Answer.{undecided, CertifiesOverCells};
ghost use Rattle.batch_commit.specs.inner.Table.{FitsBatch};
ghost use Rattle.batch_commit.specs.inner.Solved.{StandsSo};

use crate::outcomes::decide_each;
use crate::{Answer, Batch, PriceTable};
use ride_model::Vehicle;
use std::marker::Model;

/// A batch with its table, and an answer whose prices certify its seating over the table's cells.
pub struct Solved {
    batch: Batch,
    table: PriceTable,
    answer: Answer,
}

impl Model for Solved {
    ghost use Rattle.batch_commit.specs.inner.Solved.{SolvedBatch, IsSolved};

    ghost Value = { SolvedBatch };

    ghost view = { λ s. record { batch = s.batch; table = s.table; answer = s.answer } };

    ghost invariant = { λ s. IsSolved s.batch s.table s.answer };
}

impl Drop for Solved {
    fn drop(self) {
        let Solved {
            batch,
            table,
            answer,
        } = self;
        drop(batch);
        drop(table);
        drop(answer);
    }
}

impl Solved {
    /// Ties an answer to its batch and its table.
    pub fn tie(batch: Batch, table: PriceTable, answer: Answer) -> Solved
        requires fits { FitsBatch batch table }
        requires certified { CertifiesOverCells batch table
            answer.seating answer.prices answer.pays }
        requires undecided { answer.outcomes ≡ undecided answer.prices }
        ensures { result ≡ record { batch = batch; table = table; answer = answer } }
    {
        Solved {
            batch,
            table,
            answer,
        }
    }

    pub fn batch(&self) -> &Batch
        ensures { result.now ≡ self.now.batch }
    {
        &self.batch
    }

    pub fn table(&self) -> &PriceTable
        ensures table { result.now ≡ self.now.table }
        ensures fits { FitsBatch self.now.batch self.now.table }
    {
        &self.table
    }

    pub fn answer(&self) -> &Answer
        ensures answer { result.now ≡ self.now.answer }
        ensures certified { CertifiesOverCells self.now.batch self.now.table
            self.now.answer.seating self.now.answer.prices
            self.now.answer.pays }
    {
        &self.answer
    }

    /// The answer, with its outcomes as they are.
    pub fn into_answer(self) -> Answer
        ensures { result ≡ self.answer }
    {
        let Solved {
            batch,
            table,
            answer,
        } = self;
        drop(batch);
        drop(table);
        answer
    }
}

/// Writes what a commit makes of each request: at the time `now`, with these vehicles, in fleet order, and a flag for each
/// request that was cancelled since the batch was opened.
pub fn decide(solved: &mut Solved, now: u64, vehicles: &[Vehicle], cancelled: &[bool])
    requires same_vehicles { vehicle_ids vehicles.now ≡ vehicle_ids solved.old.batch.vehicles }
    requires one_flag_each { length cancelled.now ≡ length solved.old.batch.requests }
    ensures decided { (s : State) → StandsSo solved.old.batch now vehicles.now cancelled.now s
        → solved.new.answer.outcomes ≡ outcomes_of solved.old.batch solved.old.answer.seating s }
    ensures others { solved.new
        ≡ record solved.old {
          answer = record solved.old.answer { outcomes = solved.new.answer.outcomes };
        } }
{
    decide_each(
        &solved.batch,
        solved.answer.seating.items(),
        now,
        vehicles,
        cancelled,
        &mut solved.answer.outcomes,
    );
}
