//! Awards: a company confirms its part of a round, or says what has changed since its quote.
ghost use Rattle.std.specs.Prelude.{◌≡◌, ◌≢◌, ℕ, List, [], length, nat_eq, option_map, Ok, Contains, All, IfOk, OnOk, OnErr, IsErr, IsTrue, IsFalse};
ghost use Rattle.std.specs.List.{IsDistinct};
ghost use Rattle.ride_model.specs.declared.vehicle.Ride.{Ride};
ghost use Rattle.ride_model.specs.Text.{IsSpelled};
ghost use Rattle.ride_model.specs.Vehicle.{ride_ids};
ghost use Rattle.batch_commit.specs.inner.Table.{IsTableOf};
ghost use Rattle.board_core.specs.Recorded.{state_of};
ghost use Rattle.fleet_league.specs.declared.briefs.Settled.TheVariants.{Confirmed};
ghost use Rattle.fleet_league.specs.inner.Winning.{MayWin};
ghost use Rattle.fleet_league.specs.inner.Prices.{IsNewRide};
ghost use Rattle.fleet_league.specs.inner.Quoting.{quoting_batch};
ghost use Rattle.fleet_league.specs.Awards.{won_rides, AddsAward};
ghost use Rattle.fleet_league.specs.inner.Awards.{AreOfOneState, HasRoomFor, first_moved, moved_answer, settled_at, AddsPart};

use crate::confirming::confirm;
use crate::{Brief, Company, Quote, Settled};
use batch_commit::PriceTable;
use pricing_workers::Pricer;
use ride_model::{NoMemory, Vehicle};
use std::alloc::AllocError;
use std::thread::Threads;

impl<'r> Company<'r> {
    /// Confirms every win of a brief on its vehicle, by one batch of the wins that is asked for, opened and committed; or answers
    /// what has changed since the quote, and changes nothing. The prices of the wins and the pays certify them over the prices that
    /// the quoted vehicles have. Where memory is wanting an open batch is given up, and the company is open no more.
    pub fn award<R: Threads + Sync>(
        &mut self,
        rt: &R,
        pricer: &mut Pricer,
        quote: &Quote,
        brief: &Brief,
    ) -> Result<Settled, NoMemory>
        requires roads { pricer.old ≡ self.old.board.start.roads }
        requires is_open { IsTrue self.old.is_open }
        requires of_one_state { AreOfOneState self.old.board quote.now brief.now }
        requires rides { All (IsNewRide (state_of self.old.board)) (won_rides brief.now.wins) }
        requires ids_differ { IsDistinct nat_eq (ride_ids (won_rides brief.now.wins)) }
        requires ids_spelled { All (λ (ride : Ride). IsSpelled ride.id) (won_rides brief.now.wins) }
        requires chairs { self.old.board.start.settings.log ≡ 1
            → All (λ (ride : Ride). ride.chairs ≡ 0) (won_rides brief.now.wins) }
        requires room { HasRoomFor self.old.board (length brief.now.wins) }
        ensures settled { IfOk result (λ settled. settled
            ≡ settled_at (state_of self.old.board).clock
            (state_of self.old.board).vehicles quote.now) }
        ensures unsettled { result ≢ Ok Confirmed → OnOk result (self.new ≡ self.old) }
        ensures no_wins { brief.now.wins ≡ [] → self.new ≡ self.old }
        ensures confirmed { result ≡ Ok Confirmed → brief.now.wins ≢ []
            → AddsAward (state_of self.old.board) brief.now
            self.old.board.history self.new.board.history }
        ensures stays_open { OnOk result (IsTrue self.new.is_open) }
        ensures no_memory { IsErr result
            → settled_at (state_of self.old.board).clock
            (state_of self.old.board).vehicles quote.now ≡ Confirmed }
        ensures spent { OnErr result (IsFalse self.new.is_open) }
        ensures part { OnErr result (AddsPart (state_of self.old.board) brief.now.wins
            self.old.board.history self.new.board.history) }
        ensures none_open { OnErr result ((state_of self.new.board).batches ≡ []) }
        ensures others { self.new ≡ record self.old {
          board = record self.old.board {
            history = self.new.board.history;
            spare = self.new.board.spare;
          };
          is_open = self.new.is_open;
        } }
        ensures pricer { pricer.new ≡ pricer.old }
    {
        // This call tells that the history is legal.
        let _history = self.board.entries();
        let settled = settled_at(quote, self.board.now(), self.board.vehicles());
        if !matches!(settled, Settled::Confirmed) || brief.wins.items().is_empty() {
            return Ok(settled);
        }
        let Ok(table) = self.price_won(rt, pricer, brief.wins.items()) else {
            self.is_open = false;
            return Err(AllocError);
        };
        self.award_priced(table, brief)?;
        Ok(Settled::Confirmed)
    }

    /// The same for a brief over the vehicles as they stand, by the table of the rides of its wins.
    pub fn award_priced(&mut self, table: PriceTable, brief: &Brief) -> Result<(), NoMemory>
        requires may { (rides : List Ride) × MayWin self.old rides brief.now }
        requires table { IsTableOf self.old.board.start.roads
            (quoting_batch (state_of self.old.board) (won_rides brief.now.wins)) table }
        ensures no_wins { brief.now.wins ≡ [] → self.new ≡ self.old }
        ensures confirmed { brief.now.wins ≢ []
            → OnOk result (AddsAward (state_of self.old.board) brief.now
            self.old.board.history self.new.board.history) }
        ensures stays_open { OnOk result (IsTrue self.new.is_open) }
        ensures spent { OnErr result (IsFalse self.new.is_open) }
        ensures part { OnErr result (AddsPart (state_of self.old.board) brief.now.wins
            self.old.board.history self.new.board.history) }
        ensures none_open { OnErr result ((state_of self.new.board).batches ≡ []) }
        ensures others { self.new ≡ record self.old {
          board = record self.old.board {
            history = self.new.board.history;
            spare = self.new.board.spare;
          };
          is_open = self.new.is_open;
        } }
    {
        if brief.wins.items().is_empty() {
            return Ok(());
        }
        // This call tells that the history is legal.
        let _history = self.board.entries();
        self.is_open = false;
        confirm(&mut self.board, self.alloc, table, brief)?;
        self.is_open = true;
        Ok(())
    }
}

// What is answered to an award of a quote at a time, with these vehicles.
fn settled_at(quote: &Quote, time: u64, vehicles: &[Vehicle]) -> Settled
    requires { length quote.now.plans ≡ length vehicles.now }
    ensures { result ≡ settled_at time vehicles.now quote.now }
{
    if let Some(moved) = first_moved(quote.plans.items(), vehicles) {
        return moved;
    }
    if quote.time == time {
        Settled::Confirmed
    } else {
        Settled::Timed {
            named: quote.time,
            stands: time,
        }
    }
}

// The answer that names the first vehicle whose version is not the quoted one.
fn first_moved(plans: &[(u64, u64)], vehicles: &[Vehicle]) -> Option<Settled>
    requires { length plans.now ≡ length vehicles.now }
    ensures { result ≡ option_map moved_answer (first_moved plans.now vehicles.now) }
{
    for (place, vehicle) in vehicles.iter().enumerate() {
        let named = plans[place].1;
        if named != vehicle.version {
            return Some(Settled::Moved {
                vehicle: vehicle.id,
                named,
                stands: vehicle.version,
            });
        }
    }
    None
}
