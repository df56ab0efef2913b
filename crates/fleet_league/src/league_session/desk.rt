//! The desk that judges a league's requests.
ghost use Rattle.std.specs.Prelude.{◌≡◌, ◌<◌, ◌≤◌, ◌+◌, ℕ, [], length, take, nat_eq, Some, None, All, IfOk, OnOk, IsTrue};
ghost use Rattle.std.specs.List.{IsDistinct};
ghost use Rattle.ride_model.specs.declared.reply.RequestState.TheVariants.{Cancelled, InBatch};
ghost use Rattle.ride_model.specs.declared.vehicle.Ride.{Ride};
ghost use Rattle.ride_model.specs.Batch.{waiting_rides, with_request_states};
ghost use Rattle.ride_model.specs.History.{fed_commands};
ghost use Rattle.ride_model.specs.Seating.{BatchCopy};
ghost use Rattle.ride_model.specs.State.{State, request_state};
ghost use Rattle.ride_model.specs.Step.{step};
ghost use Rattle.ride_model.specs.Text.{IsSpelled, IsSpelledCommand};
ghost use Rattle.ride_model.specs.Vehicle.{ride_ids};
ghost use Rattle.ride_model.specs.declared.limits.TheConstants.{LARGEST_BATCH};
ghost use Rattle.ride_model.specs.inner.Limits.{most_commands};
ghost use Rattle.model_laws.specs.inner.history_laws.Consistent.{IsOpenBatch};
ghost use Rattle.board_core.specs.Recorded.{state_of};
ghost use Rattle.fleet_league.specs.league_session.League.{after_round};
ghost use Rattle.fleet_league.specs.inner.league_session.LeagueBoards.{HasOpened, IsDesk, is_riders};

use crate::league_session::outset::Outset;
use batch_commit::Batch;
use board_core::{Board, Opening};
use ride_model::limits::MOST_BATCHES;
use ride_model::{Command, Fleet, NoMemory, Reply, Ride};
use std::alloc::Global;
use std::marker::Model;

/// The requests of a league, on a board without vehicles. A round takes the first that wait, and closes them.
#[derive(Drop)]
pub(crate) struct RequestDesk<'r> {
    board: Board<'r>,
}

impl<'r> Model for RequestDesk<'r> {
    ghost use Rattle.board_core.specs.Recorded.{Recorded};

    ghost Value = { Recorded };

    ghost view = { λ d. d.board };
}

impl<'r> RequestDesk<'r> {
    /// A desk without requests.
    pub(crate) fn new(alloc: Global, outset: &Outset<'r>) -> Result<RequestDesk<'r>, NoMemory>
        ensures start { IfOk result (λ desk. desk.start ≡ outset.now.desk) }
        ensures history { IfOk result (λ desk. desk.history ≡ []) }
        ensures fits { IfOk result IsDesk }
    {
        let nobody = Fleet::new(Vec::new(alloc));
        let board = Board::new(alloc, outset.roads, outset.settings, nobody, 1, 1)?;
        Ok(RequestDesk { board })
    }

    /// The board that judges requests.
    pub(crate) fn board(&self) -> &Board<'r>
        ensures { result.now ≡ self.now }
    {
        &self.board
    }

    /// Answers a request, or a cancellation.
    pub(crate) fn answer(&mut self, command: &Command) -> Result<Reply, NoMemory>
        requires fits { IsDesk self.old }
        requires riders { IsTrue (is_riders command.now) }
        requires few { length (fed_commands 1 self.old.history) < most_commands }
        requires spelled { IsSpelledCommand self.old.start.settings.log command.now }
        ensures reply { IfOk result (λ reply. reply
            ≡ (step (state_of self.old) command.now).reply) }
        ensures state { OnOk result (state_of self.new
            ≡ (step (state_of self.old) command.now).state) }
        ensures fits { OnOk result (IsDesk self.new) }
        ensures one_more { OnOk result
            (length (fed_commands 1 self.new.history)
            ≡ length (fed_commands 1 self.old.history) + 1) }
        ensures start { self.new.start ≡ self.old.start }
    {
        self.board.apply(1, command)
    }

    /// Opens a round, which takes the first requests that wait; None where all rounds were made.
    pub(crate) fn open_round(&mut self) -> Result<Option<Batch>, NoMemory>
        requires fits { IsDesk self.old }
        requires few { length (fed_commands 1 self.old.history) < most_commands }
        ensures none_left { IfOk result
            (λ opened. opened ≡ None → (MOST_BATCHES ≤ (state_of self.old).asked)
            × (self.new ≡ self.old)) }
        ensures opened { (batch : BatchCopy) → IfOk result (λ opened. opened ≡ Some batch
            → ((state_of self.old).asked < MOST_BATCHES)
            × HasOpened (state_of self.old) batch self.new) }
        ensures rides { (batch : BatchCopy) → IfOk result (λ opened. opened ≡ Some batch
            → batch.requests ≡ take (state_of self.old).settings.batch
            (waiting_rides (state_of self.old))) }
        ensures open_now { (batch : BatchCopy) → IfOk result (λ opened. opened ≡ Some batch
            → IsOpenBatch 1 (state_of self.new) batch) }
        ensures one_more { OnOk result
            (length (fed_commands 1 self.new.history)
            ≤ length (fed_commands 1 self.old.history) + 1) }
        ensures start { self.new.start ≡ self.old.start }
    {
        // This call tells that the history is legal.
        let _history = self.board.entries();
        if self.board.asked() >= MOST_BATCHES {
            return Ok(None);
        }
        self.board.apply(1, &Command::Ask)?;
        let Opening::Batch(batch) = self.board.open_batch(1)? else {
            return Ok(None);
        };
        // This call tells that the history is legal.
        let _history = self.board.entries();
        Ok(Some(batch))
    }

    /// Closes the requests of an open round.
    pub(crate) fn close_round(&mut self, batch: Batch) -> Result<(), NoMemory>
        requires opened { (before : State) × HasOpened before batch self.old }
        requires few { length (fed_commands 1 self.old.history) + LARGEST_BATCH < most_commands }
        ensures state { (before : State) → HasOpened before batch self.old
            → OnOk result (state_of self.new ≡ after_round before batch.requests) }
        ensures fits { OnOk result (IsDesk self.new) }
        ensures some_more { OnOk result
            (length (fed_commands 1 self.new.history)
            ≤ length (fed_commands 1 self.old.history) + LARGEST_BATCH) }
        ensures start { self.new.start ≡ self.old.start }
    {
        cancel_all(&mut self.board, batch.requests())?;
        self.board.abandon(batch);
        Ok(())
    }
}

// Cancels the requests of rides, which are in a batch.
fn cancel_all(board: &mut Board<'_>, rides: &[Ride]) -> Result<(), NoMemory>
    requires one_feed { board.old.feeds ≡ 1 }
    requires none_ended { (state_of board.old).ended ≡ [] }
    requires in_batch { (number : ℕ)
        × All (λ (ride : Ride). request_state (state_of board.old) ride.id
        ≡ Some (InBatch number)) rides.now }
    requires differ { IsDistinct nat_eq (ride_ids rides.now) }
    requires few { length (fed_commands 1 board.old.history) + length rides.now < most_commands }
    requires spelled { All (λ (ride : Ride). IsSpelled ride.id) rides.now }
    ensures cancelled { OnOk result
        (state_of board.new ≡ with_request_states Cancelled rides.now (state_of board.old)) }
    ensures counted { OnOk result (length (fed_commands 1 board.new.history)
        ≡ length (fed_commands 1 board.old.history) + length rides.now) }
    ensures others { board.new ≡ record board.old {
      history = board.new.history;
      spare = board.new.spare;
    } }
{
    for ride in rides {
        board.apply(1, &Command::Cancel { id: ride.id })?;
    }
    Ok(())
}
