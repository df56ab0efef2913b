//! The wins of an award as requests of one batch.
ghost use Rattle.std.specs.Prelude.{◌≡◌, ◌+◌, ◌≤◌, ◌++◌, ℕ, take, OnOk, OnErr};
ghost use Rattle.board_core.specs.Recorded.{state_of};
ghost use Rattle.ride_model.specs.declared.limits.TheConstants.{MOST_BATCHES};
ghost use Rattle.fleet_league.specs.Awards.{won_rides, request_of, asking_entries};
ghost use Rattle.fleet_league.specs.inner.Awards.{request_entries};
ghost use Rattle.fleet_league.specs.inner.Awarding.{MayAsk};

use crate::Win;
use board_core::Board;
use ride_model::{Command, NoMemory, Ride};

/// Requests the rides of wins, and asks for a batch of them.
pub(crate) fn ask(board: &mut Board<'_>, wins: &[Win]) -> Result<(), NoMemory>
    requires may { MayAsk board.old (won_rides wins.now) }
    requires few_asked { (state_of board.old).asked + 1 ≤ MOST_BATCHES }
    ensures asked { OnOk result (board.new.history
        ≡ board.old.history ++ asking_entries (state_of board.old) wins.now) }
    ensures cut { OnErr result ((many : ℕ)
        × (board.new.history ≡ board.old.history
        ++ take many (asking_entries (state_of board.old) wins.now))) }
    ensures others { board.new ≡ record board.old {
      history = board.new.history;
      spare = board.new.spare;
    } }
{
    request_each(board, wins)?;
    board.apply(1, &Command::Ask)?;
    Ok(())
}

// Requests the rides of wins.
fn request_each(board: &mut Board<'_>, wins: &[Win]) -> Result<(), NoMemory>
    requires may { MayAsk board.old (won_rides wins.now) }
    ensures asked { OnOk result (board.new.history
        ≡ board.old.history ++ request_entries wins.now) }
    ensures cut { OnErr result ((many : ℕ)
        × (board.new.history ≡ board.old.history ++ take many (request_entries wins.now))) }
    ensures others { board.new ≡ record board.old {
      history = board.new.history;
      spare = board.new.spare;
    } }
{
    for win in wins {
        board.apply(1, &request_of(&win.ride))?;
    }
    Ok(())
}

// The command that asks for a ride.
fn request_of(ride: &Ride) -> Command
    ensures { result ≡ request_of ride.now }
{
    Command::Request {
        id: ride.id,
        from: u64::from(ride.from),
        to: u64::from(ride.to),
        seats: u64::from(ride.seats),
        latest: ride.latest,
        longest: ride.longest,
        chairs: u64::from(ride.chairs),
    }
}
