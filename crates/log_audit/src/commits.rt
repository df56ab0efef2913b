//! Commits: the seats are a seating, its cost is the cost that is said, the prices certify it, and the outcomes are those of the moment.
ghost use Rattle.std.specs.Prelude.{◌≡◌, ℕ, ◌++◌, ◌∷◌, [], List, All, Some, IfOk, OnOk, MatchOption};
ghost use Rattle.ride_model.specs.declared.command.Actor.TheVariants.{Desk};
ghost use Rattle.ride_model.specs.declared.entry.Entry.{Entry};
ghost use Rattle.ride_model.specs.declared.entry.Event.TheVariants.{Committed};
ghost use Rattle.ride_model.specs.declared.entry.Outcome.{Outcome};
ghost use Rattle.ride_model.specs.Road.{IsRoadMap, RoadMap};
ghost use Rattle.ride_model.specs.Seating.{Certifies, IsSeating};
ghost use Rattle.ride_model.specs.inner.Seating.{IsBatchOver};
ghost use Rattle.ride_model.specs.State.{open_batch_numbered};
ghost use Rattle.ride_model.specs.Text.{IsOneOrTwo};
ghost use Rattle.batch_commit.specs.inner.Answer.{CertifiesOverCells, IsSeatAt, undecided};
ghost use Rattle.batch_commit.specs.inner.Table.{IsTableOf};
ghost use Rattle.board_core.specs.Recorded.{state_of};
ghost use Rattle.log_audit.specs.inner.Auditing.{IsAuditing, IsJudged, IsLineOf};
ghost use Rattle.log_audit.specs.inner.Seated.{ArePlaced};

use crate::Why;
use crate::auditor::Auditor;
use crate::fault::Fault;
use crate::seating::{Placed, seated};
use batch_commit::{Answer, Batch, PriceTable, Solved};
use dual_check::certifies;
use pricing_workers::{price_batch_by, seat_batch_by};
use ride_model::{AmountList, NoMemory, Seat, SeatList};
use ride_ports::OpenGate;
use std::alloc::AllocError;
use std::thread::Threads;

/// What a commit says but for the outcomes.
#[derive(Drop)]
pub(crate) struct Commit {
    pub(crate) number: u64,
    pub(crate) cost: u64,
    pub(crate) seats: SeatList,
    pub(crate) prices: AmountList,
    pub(crate) pays: AmountList,
}

impl<'r> Auditor<'r> {
    /// Judges the line of a commit.
    #[tactic(auto, using(crate::proofs::Legality::fault_actor))]
    pub(crate) fn judge_committed<R: Threads + Sync>(
        &mut self,
        rt: &R,
        desk: u8,
        commit: Commit,
        line: &[u8],
    ) -> Result<Option<Fault>, NoMemory>
        requires auditing { IsAuditing self.old }
        requires desk { IsOneOrTwo desk }
        ensures { (outcomes : List (ℕ × Outcome))
            → IsLineOf self.old.log (record {
              actor = Desk desk;
              event = Committed commit.number commit.cost commit.seats commit.prices
                  commit.pays outcomes;
            }) line.now
            → IfOk result (IsJudged self.old self.new (record {
              actor = Desk desk;
              event = Committed commit.number commit.cost commit.seats
                  commit.prices commit.pays outcomes;
            })) }
    {
        // This call tells that the history is legal.
        let _history = self.board.entries();
        let Some(batch) = self.take_numbered(desk, commit.number) else {
            return Ok(Some(Fault::of(Why::Actor)));
        };
        let priced = price_batch_by(rt, self.search, &batch, &mut self.pricing, &OpenGate)?;
        let seats = commit.seats.items();
        let Some(placed) = seated(&mut self.pricing, &batch, &priced, seats, commit.cost)? else {
            return Ok(Some(Fault::with_batch(Why::Seating, batch)));
        };
        let placed = placed.as_slice();
        let Some((table, answer)) = self.certified(priced, &batch, commit, placed)? else {
            return Ok(Some(Fault::with_batch(Why::Prices, batch)));
        };
        self.board.commit(Solved::tie(batch, table, answer));
        // This call tells that the history is legal and has a text.
        let _history = self.board.entries();
        Ok(self.unless_told(line, Why::Outcomes))
    }

    // A batch's table with the seats' own offers, and the commit's answer, where its prices certify its seating.
    fn certified(
        &self,
        table: PriceTable,
        batch: &Batch,
        commit: Commit,
        placed: &[Placed],
    ) -> Result<Option<(PriceTable, Answer)>, NoMemory>
        requires fits { IsRoadMap self.now.pricing }
        requires over_map { IsBatchOver self.now.pricing batch.now }
        requires table { IsTableOf self.now.pricing batch.now table }
        requires seating { IsSeating self.now.pricing batch.now commit.seats }
        requires placed { ArePlaced self.now.pricing batch.now commit.seats placed.now }
        ensures { IfOk result (λ certified. MatchOption certified
            (Certifies self.now.pricing batch.now commit.seats commit.prices commit.pays → ⊥)
            (λ pair. IsTableOf self.now.pricing batch.now pair.0
            × (pair.1 ≡ record {
              seating = commit.seats;
              prices = commit.prices;
              pays = commit.pays;
              outcomes = undecided commit.prices;
            })
            × CertifiesOverCells batch.now pair.0 commit.seats commit.prices commit.pays
            × Certifies self.now.pricing batch.now commit.seats commit.prices commit.pays)) }
    {
        let Some(table) = with_own_offers(table, batch, commit.seats.items(), placed) else {
            return Ok(None);
        };
        if !certifies(batch, &table, &commit.seats, &commit.prices, &commit.pays) {
            return Ok(None);
        }
        let alloc = self.pricing.alloc();
        let answer = Answer::of(alloc, commit.seats, commit.prices, commit.pays)?;
        Ok(Some((table, answer)))
    }

    /// Commits a batch by a least seating and the prices that certify it.
    pub(crate) fn commit_least<R: Threads + Sync>(
        &mut self,
        rt: &R,
        batch: Batch,
    ) -> Result<(), NoMemory>
        requires roads { self.old.pricing ≡ self.old.board.start.roads }
        requires is_open { open_batch_numbered (state_of self.old.board)
            batch.desk batch.number ≡ Some batch }
        ensures grows { OnOk result ((due : Entry)
            × (self.new.board.history ≡ self.old.board.history ++ due ∷ [])) }
        ensures others { self.new.board ≡ record self.old.board {
          history = self.new.board.history;
          spare = self.new.board.spare;
        } }
        ensures log { self.new.log ≡ self.old.log }
    {
        // This call tells that the history is legal.
        let _history = self.board.entries();
        let seated = seat_batch_by(rt, self.search, batch, &mut self.pricing, &OpenGate);
        let Ok(solved) = seated else {
            return Err(AllocError);
        };
        self.board.commit(solved);
        Ok(())
    }
}

// A batch's table with the seats' own offers in their cells, where each costs no more than its pair's price.
fn with_own_offers(
    table: PriceTable,
    batch: &Batch,
    seats: &[Seat],
    placed: &[Placed],
) -> Option<PriceTable>
    requires table { (roads : RoadMap) × IsTableOf roads batch.now table
        × IsSeating roads batch.now seats.now
        × ArePlaced roads batch.now seats.now placed.now }
    ensures table { (roads : RoadMap) → IsTableOf roads batch.now table
        → IsSeating roads batch.now seats.now
        → ArePlaced roads batch.now seats.now placed.now → MatchOption result
        ((prices pays : List (ℕ × ℕ)) → Certifies roads batch.now seats.now prices pays → ⊥)
        (λ own. IsTableOf roads batch.now own
        × All (λ seat. (r : ℕ) × (c : ℕ) × IsSeatAt batch.now own seat r c) seats.now) }
{
    // These calls tell that the requests differ, and the vehicles.
    let _requests = batch.requests();
    let _vehicles = batch.vehicles().vehicles();
    let mut table = table;
    for one in placed {
        let least = table.cell(one.request, one.vehicle)?;
        if one.offer.cost > least.cost {
            return None;
        }
        table.put(one.request, one.vehicle, one.offer);
    }
    Some(table)
}
