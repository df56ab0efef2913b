//! The wins of an award as one batch, which is asked for, opened and committed.
ghost use Rattle.std.specs.Prelude.{◌≡◌, [], OnOk, OnErr};
ghost use Rattle.batch_commit.specs.inner.Table.{IsTableOf};
ghost use Rattle.board_core.specs.Recorded.{state_of};
ghost use Rattle.fleet_league.specs.inner.Companies.{IsIdle};
ghost use Rattle.fleet_league.specs.Awards.{won_rides, AddsAward};
ghost use Rattle.fleet_league.specs.inner.Awards.{AddsPart};
ghost use Rattle.fleet_league.specs.inner.Awarding.{MayConfirm};
ghost use Rattle.fleet_league.specs.inner.Quoting.{quoting_batch};

use crate::Brief;
use crate::asking::ask;
use crate::seating::solved;
use batch_commit::PriceTable;
use board_core::{Board, Opening};
use ride_model::NoMemory;
use std::alloc::{AllocError, Global};

/// Confirms the wins of a brief, of which there are some, by the table of their rides; an open batch is given up where memory is
/// wanting.
pub(crate) fn confirm(
    board: &mut Board<'_>,
    alloc: Global,
    table: PriceTable,
    brief: &Brief,
) -> Result<(), NoMemory>
    requires may { MayConfirm board.old brief.now }
    requires table { IsTableOf board.old.start.roads
        (quoting_batch (state_of board.old) (won_rides brief.now.wins)) table }
    ensures added { OnOk result (AddsAward (state_of board.old) brief.now
        board.old.history board.new.history) }
    ensures idle { OnOk result (IsIdle board.new) }
    ensures part { OnErr result (AddsPart (state_of board.old) brief.now.wins
        board.old.history board.new.history) }
    ensures none_open { OnErr result ((state_of board.new).batches ≡ []) }
    ensures others { board.new ≡ record board.old {
      history = board.new.history;
      spare = board.new.spare;
    } }
{
    ask(board, brief.wins.items())?;
    let Opening::Batch(batch) = board.open_batch(1)? else {
        // One more batch was asked for than was opened.
        return Ok(());
    };
    // This call tells that the history is legal.
    let _history = board.entries();
    match solved(alloc, batch, table, brief) {
        Ok(solved) => {
            board.commit(solved);
            Ok(())
        }
        Err(batch) => {
            board.abandon(batch);
            Err(AllocError)
        }
    }
}
