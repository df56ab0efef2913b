//! What desks do: they open batches, commit them and give them up.
ghost use Rattle.std.specs.Prelude.{◌≡◌, ◌≢◌, ◌≤◌, ◌<◌, ◌^◌, ℕ, [], ◌++◌, ◌∷◌, sum_by, Ok, Some, IfOk, OnErr, IsNone, IsFalse};
ghost use Rattle.ride_model.specs.declared.command.Actor.TheVariants.{Desk};
ghost use Rattle.ride_model.specs.declared.entry.Event.TheVariants.{Committed};
ghost use Rattle.ride_model.specs.State.{has_ended, open_batch_of, open_batch_numbered};
ghost use Rattle.ride_model.specs.Seating.{BatchCopy};
ghost use Rattle.ride_model.specs.Legal.{IsNumbered, versions_of};
ghost use Rattle.ride_model.specs.Vehicle.{ride_ids};
ghost use Rattle.batch_commit.specs.inner.Table.{IsTableOf};
ghost use Rattle.model_laws.specs.inner.history_laws.Consistent.{IsOpenBatch};
ghost use Rattle.board_core.specs.inner.Opening.{opening_at};
ghost use Rattle.board_core.specs.Recorded.{Recorded, state_of, opened_entry};
ghost use Rattle.board_core.specs.inner.Recorded.{committed_entry, abandoned_entry};
ghost use Rattle.board_core.specs.inner.Settling.{balance};

use crate::board::feeds::append;
use crate::service::copies_of;
use crate::{Board, Opening};
use batch_commit::{Batch, Solved, decide};
use ride_model::{Actor, AmountList, Event, Fleet, IdList, NoMemory, Ride, Vehicle, VersionList};
use std::alloc::Global;

impl<'r> Board<'r> {
    /// Opens a desk's next batch, where one was asked for.
    pub fn open_batch(&mut self, desk: u8) -> Result<Opening, NoMemory>
        requires desk { IsNumbered self.old.desks desk }
        requires not_ended { IsFalse (has_ended (state_of self.old) (Desk desk)) }
        requires none_open { IsNone (open_batch_of (state_of self.old) desk) }
        ensures opening { IfOk result
            (λ opening. opening ≡ opening_at self.old.feeds (state_of self.old) desk) }
        ensures entry { (batch : BatchCopy) → result ≡ Ok (Opening.Batch batch)
            → self.new.history ≡ self.old.history ++ opened_entry batch ∷ [] }
        ensures no_entry { ((batch : BatchCopy) → result ≢ Ok (Opening.Batch batch))
            → self.new.history ≡ self.old.history }
        ensures open_now { (batch : BatchCopy) → result ≡ Ok (Opening.Batch batch)
            → IsOpenBatch self.old.desks (state_of self.new) batch }
        ensures no_memory { OnErr result (self.new ≡ self.old) }
        ensures others { self.new ≡ record self.old {
          history = self.new.history;
          spare = self.new.spare;
        } }
        ensures spare { self.old.spare ≤ self.new.spare }
    {
        self.setup.look();
        if self.kept.opened >= self.service.asked {
            return Ok(if self.kept.have_feeds_ended(self.feeds) {
                Opening::Ended
            } else {
                Opening::Idle
            });
        }
        // One place is for the opening, and one for what will close the batch.
        self.history
            .reserve(self.spare as usize + self.kept.places_kept() + 2)?;
        let alloc = *self.history.allocator();
        let number = self.kept.opened + 1;
        let batch = self.service.batch(alloc, &self.setup, number, desk)?;
        let ids = ids_of(alloc, batch.requests())?;
        let plans = versions_of(alloc, batch.vehicles().vehicles())?;
        self.service.put_in(ids.as_slice(), batch.number());
        self.kept.open(desk);
        let event = Event::Opened {
            batch: batch.number(),
            time: batch.time(),
            requests: IdList::of(ids),
            plans: VersionList::of(plans),
        };
        append(&mut self.history, Actor::Desk(desk), event);
        Ok(Opening::Batch(batch))
    }

    /// Commits an open batch by its answer. Takes no memory.
    pub fn commit(&mut self, solved: Solved)
        requires is_open { open_batch_numbered (state_of self.old) solved.batch.desk
            solved.batch.number ≡ Some solved.batch }
        requires table { IsTableOf self.old.start.roads solved.batch solved.table }
        ensures entry { self.new.history
            ≡ self.old.history ++ committed_entry (state_of self.old) solved ∷ [] }
        ensures others { self.new ≡ record self.old {
          history = self.new.history;
          spare = self.new.spare;
        } }
        ensures spare { self.old.spare ≤ self.new.spare }
    {
        let mut solved = solved;
        // This call tells that the answer's prices certify its seating.
        let _answer = solved.answer();
        let cancelled = self.service.cancelled(solved.batch().requests());
        decide(
            &mut solved,
            self.service.clock,
            self.service.vehicles.as_slice(),
            cancelled.as_slice(),
        );
        self.service.settle(self.setup.places(), &solved);
        let desk = solved.batch().desk();
        self.kept.close(desk);
        append(&mut self.history, Actor::Desk(desk), commit_of(solved));
    }

    /// Gives an open batch up, for want of memory: its requests that were not cancelled wait again. Takes no memory.
    pub fn abandon(&mut self, batch: Batch)
        requires is_open { open_batch_numbered (state_of self.old) batch.desk batch.number
            ≡ Some batch }
        ensures entry { self.new.history ≡ self.old.history ++ abandoned_entry batch ∷ [] }
        ensures others { self.new ≡ record self.old {
          history = self.new.history;
          spare = self.new.spare;
        } }
        ensures spare { self.old.spare ≤ self.new.spare }
    {
        let desk = batch.desk();
        self.service.release(&batch);
        self.kept.give_up(desk);
        let event = Event::Abandoned {
            batch: batch.number(),
        };
        append(&mut self.history, Actor::Desk(desk), event);
    }
}

// The commit of a solved batch. Its cost is what the certificate balances: the prices less the payments.
fn commit_of(solved: Solved) -> Event
    ensures { result ≡ Committed solved.batch.number (balance solved) solved.answer.seating
        solved.answer.prices solved.answer.pays
        solved.answer.outcomes }
{
    let number = solved.batch().number();
    let cost = cost_of(&solved);
    let answer = solved.into_answer();
    Event::Committed {
        batch: number,
        cost,
        seats: answer.seating,
        prices: answer.prices,
        pays: answer.pays,
        outcomes: answer.outcomes,
    }
}

// What the requests are priced at less what the vehicles pay.
fn cost_of(solved: &Solved) -> u64
    ensures { result ≡ balance solved.now }
{
    // These calls tell that there are few requests, and that the penalty is within its range.
    let _requests = solved.batch().requests();
    let _settings = solved.batch().settings();
    let answer = solved.answer();
    total(answer.prices.items()) - total(answer.pays.items())
}

// The sum of amounts.
fn total(amounts: &[(u64, u64)]) -> u64
    requires { sum_by (λ (item : ℕ × ℕ). item.1) amounts.now < 2 ^ 64 }
    ensures { result ≡ sum_by (λ (item : ℕ × ℕ). item.1) amounts.now }
{
    amounts.iter().map(|amount| amount.1).sum()
}

// The ids of rides.
fn ids_of(alloc: Global, rides: &[Ride]) -> Result<Vec<u64>, NoMemory>
    ensures { IfOk result (λ ids. ids.items ≡ ride_ids rides.now) }
{
    rides.iter().map(|ride| ride.id).collect(alloc)
}

// The vehicles' versions.
fn versions_of(alloc: Global, vehicles: &[Vehicle]) -> Result<Vec<(u64, u64)>, NoMemory>
    ensures { IfOk result (λ versions. versions.items ≡ versions_of vehicles.now) }
{
    vehicles
        .iter()
        .map(|vehicle| (vehicle.id, vehicle.version))
        .collect(alloc)
}
