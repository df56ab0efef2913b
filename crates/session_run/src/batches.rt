//! The batch after an accepted ask.
ghost use Rattle.std.specs.Prelude.{◌≡◌, ◌≤◌, ◌++◌, ◌∷◌, [], ℕ, true, Some, IfOk, MatchOption, OnErr};
ghost use Rattle.std.specs.Option.{ForSome};
ghost use Rattle.ride_model.specs.declared.limits.TheConstants.{LONGEST_REACH};
ghost use Rattle.batch_commit.specs.inner.Table.{IsPriceable, IsTableOf};
ghost use Rattle.board_core.specs.Recorded.{state_of};
ghost use Rattle.board_core.specs.inner.Recorded.{committed_entry};
ghost use Rattle.session_run.specs.inner.Planning.{AddsSheets, CommitsPlanned, IsPlanned, is_whole, sheets_in};
ghost use Rattle.session_run.specs.inner.Running.{Closes, IsAsked, IsOpened, RunsBatch};

use crate::tools::Tools;
use batch_commit::{Batch, Solved};
use board_core::{Board, Opening};
use idle_moves::MoveSheet;
use ride_model::NoMemory;
use std::thread::Threads;

/// What became of a command, and of the batch after an accepted ask.
#[derive(Drop)]
pub(crate) enum Answered {
    /// Each batch was committed. Its sheet, where one was and sheets are planned.
    Whole(Option<MoveSheet>),
    /// Memory was wanting for a batch, which was given up, or for the sheet of one.
    Wanting,
}

impl Answered {
    /// Whether memory was not wanting.
    pub(crate) fn is_whole(&self) -> bool
        ensures { result ≡ is_whole self.now }
    {
        match self {
            Answered::Whole(_) => true,
            Answered::Wanting => false,
        }
    }

    /// The sheet that was planned.
    pub(crate) fn sheet(&self) -> Option<&MoveSheet>
        ensures { MatchOption result (sheets_in self.now ≡ [])
            (λ sheet. sheets_in self.now ≡ sheet.now ∷ []) }
    {
        match self {
            Answered::Whole(sheet) => sheet.as_ref(),
            Answered::Wanting => None,
        }
    }
}

/// Opens the next batch and commits it at once, or gives it up where memory is wanting. Where a reach is given, moves of idle
/// vehicles are planned before the commit.
pub(crate) fn run_batch<'r, R: Threads + Sync>(
    board: &mut Board<'r>,
    tools: &mut Tools<'r>,
    rt: &R,
    reach: Option<u64>,
) -> Result<Answered, NoMemory>
    requires asked { IsAsked board.old }
    requires roads { tools.old ≡ board.old.start.roads }
    requires reach_limit { ForSome reach (λ r. r ≤ LONGEST_REACH) }
    ensures ran { IfOk result (λ answered. RunsBatch (is_whole answered) board.old board.new) }
    ensures sheets { IfOk result (λ answered. is_whole answered ≡ true
        → (r : ℕ) → reach ≡ Some r → AddsSheets r (sheets_in answered) board.old board.new) }
    ensures no_memory { OnErr result (board.new ≡ board.old) }
    ensures tools { tools.new ≡ tools.old }
{
    let Opening::Batch(batch) = board.open_batch(1)? else {
        return Ok(Answered::Whole(None));
    };
    Ok(close_batch(board, tools, rt, batch, reach))
}

/// Commits an open batch, or gives it up where memory is wanting.
fn close_batch<R: Threads + Sync>(
    board: &mut Board<'_>,
    tools: &mut Tools<'_>,
    rt: &R,
    batch: Batch,
    reach: Option<u64>,
) -> Answered
    requires opened { IsOpened batch board.old }
    requires roads { tools.old ≡ board.old.start.roads }
    requires reach_limit { ForSome reach (λ r. r ≤ LONGEST_REACH) }
    ensures closed { Closes (is_whole result) board.old board.new }
    ensures planned { is_whole result ≡ true
        → CommitsPlanned reach batch result board.old board.new }
    ensures tools { tools.new ≡ tools.old }
{
    // This call tells that the history is legal.
    let _history = board.entries();
    match tools.seat_batch(rt, batch) {
        Ok(solved) => {
            let answered = plan(tools, &solved, reach);
            commit(board, solved);
            answered
        }
        Err(batch) => {
            board.abandon(batch);
            Answered::Wanting
        }
    }
}

/// Plans the moves of a solved batch, where a reach is given.
fn plan(tools: &mut Tools<'_>, solved: &Solved, reach: Option<u64>) -> Answered
    requires reach_limit { ForSome reach (λ r. r ≤ LONGEST_REACH) }
    requires priceable { IsPriceable tools.old solved.now.batch }
    ensures planned { IsPlanned tools.old reach solved.now result }
    ensures tools { tools.new ≡ tools.old }
{
    let Some(reach) = reach else {
        return Answered::Whole(None);
    };
    match tools.moves(solved, reach) {
        Ok(sheet) => Answered::Whole(Some(sheet)),
        Err(_) => Answered::Wanting,
    }
}

/// Commits an open batch.
fn commit(board: &mut Board<'_>, solved: Solved)
    requires opened { IsOpened solved.batch board.old }
    requires table { IsTableOf board.old.start.roads solved.batch solved.table }
    ensures closed { Closes true board.old board.new }
    ensures entry { board.new.history
        ≡ board.old.history ++ committed_entry (state_of board.old) solved ∷ [] }
{
    board.commit(solved);
    // This call tells that the history is legal.
    let _history = board.entries();
}
