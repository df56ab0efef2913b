//! The answer to one command.
ghost use Rattle.std.specs.Prelude.{◌≡◌, ◌<◌, ◌≤◌, ℕ, length, true, Some, IfOk, OnErr};
ghost use Rattle.std.specs.Option.{ForSome};
ghost use Rattle.ride_model.specs.History.{fed_commands};
ghost use Rattle.ride_model.specs.Text.{IsSpelledCommand};
ghost use Rattle.ride_model.specs.declared.limits.TheConstants.{LONGEST_REACH};
ghost use Rattle.ride_model.specs.inner.Limits.{most_commands};
ghost use Rattle.board_core.specs.Recorded.{state_of};
ghost use Rattle.session_run.specs.inner.Planning.{AddsSheets, is_whole, sheets_in};
ghost use Rattle.session_run.specs.inner.Running.{Answers, IsSession, Stops};

use crate::batches::{Answered, run_batch};
use crate::tools::Tools;
use board_core::Board;
use ride_model::{Command, NoMemory, Reply};
use std::thread::Threads;

/// Answers a command, and runs a batch after an accepted ask, for which moves of idle vehicles are planned where a reach is given.
pub(crate) fn answer<'r, R: Threads + Sync>(
    board: &mut Board<'r>,
    tools: &mut Tools<'r>,
    rt: &R,
    command: &Command,
    reach: Option<u64>,
) -> Result<Answered, NoMemory>
    requires session { IsSession board.old }
    requires all_opened { (state_of board.old).opened ≡ (state_of board.old).asked }
    requires roads { tools.old ≡ board.old.start.roads }
    requires few { length (fed_commands 1 board.old.history) < most_commands }
    requires spelled { IsSpelledCommand board.old.start.settings.log command.now }
    requires reach_limit { ForSome reach (λ r. r ≤ LONGEST_REACH) }
    ensures answered { IfOk result
        (λ answered. Answers (is_whole answered) command.now board.old board.new) }
    ensures sheets { IfOk result (λ answered. is_whole answered ≡ true
        → (r : ℕ) → reach ≡ Some r → AddsSheets r (sheets_in answered) board.old board.new) }
    ensures stopped { OnErr result (Stops command.now board.old board.new) }
    ensures tools { tools.new ≡ tools.old }
{
    // This call tells that the board has a feed.
    let _entries = board.entries();
    let reply = board.apply(1, command)?;
    if matches!(reply, Reply::Asked { .. }) {
        return run_batch(board, tools, rt, reach);
    }
    Ok(Answered::Whole(None))
}
