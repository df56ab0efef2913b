//! The steps of a drill.
ghost use Rattle.std.specs.Prelude.{◌≡◌, ℕ, ◌+◌, ◌<◌, ◌++◌, [], ◌∷◌, length, List, All, OnOk};
ghost use Rattle.std.specs.List.{flat_map};
ghost use Rattle.ride_model.specs.Drill.{DrillStep, Follows, IsDrilled, give};
ghost use Rattle.ride_model.specs.History.{fed_commands};
ghost use Rattle.ride_model.specs.Text.{IsSpelledCommand};
ghost use Rattle.ride_model.specs.inner.Limits.{most_commands};
ghost use Rattle.city_maker.specs.Steps.{last_steps, steps_with};
ghost use Rattle.session_run.specs.inner.Drills.{GoesBy, IsDrilling};

use super::reports::drive_all;
use crate::answers::answer;
use crate::tools::Tools;
use board_core::Board;
use ride_model::{Actor, Command, Ending, NoMemory};
use std::alloc::AllocError;
use std::thread::Threads;

/// The most reports of a drill. Where no more are left memory counts as wanting, as it would be long before.
const MOST_REPORTS: u32 = 999_999_999;

/// Gives all commands of the first feed, and lets all drivers report after each clock.
pub(super) fn run_commands<'r, R: Threads + Sync>(
    board: &mut Board<'r>,
    tools: &mut Tools<'r>,
    rt: &R,
    commands: &[Command],
    vehicles: u32,
) -> Result<(), NoMemory>
    requires drilling { IsDrilling board.old }
    requires fresh { board.old.history ≡ [] }
    requires roads { tools.old ≡ board.old.start.roads }
    requires vehicles { length board.old.start.vehicles ≡ vehicles }
    requires few { length commands.now < most_commands }
    requires spelled { All (IsSpelledCommand board.old.start.settings.log) commands.now }
    ensures drilling { OnOk result (IsDrilling board.new) }
    ensures follows { OnOk result
        (Follows board.new.start (flat_map (steps_with vehicles) commands.now) board.new.history) }
    ensures start { OnOk result (board.new.start ≡ board.old.start) }
{
    let mut left = MOST_REPORTS;
    for command in commands {
        take_steps(board, tools, rt, command, vehicles, &mut left)?;
    }
    Ok(())
}

// Gives a command, after which all drivers report where it is a clock.
fn take_steps<'r, R: Threads + Sync>(
    board: &mut Board<'r>,
    tools: &mut Tools<'r>,
    rt: &R,
    command: &Command,
    vehicles: u32,
    left: &mut u32,
) -> Result<(), NoMemory>
    requires drilling { IsDrilling board.old }
    requires roads { tools.old ≡ board.old.start.roads }
    requires vehicles { length board.old.start.vehicles ≡ vehicles }
    requires given { length (fed_commands 1 board.old.history) < most_commands }
    requires reported { length (fed_commands 2 board.old.history) + left.old < most_commands }
    requires spelled { IsSpelledCommand board.old.start.settings.log command.now }
    ensures goes { OnOk result (GoesBy (steps_with vehicles command.now) 1 left.old
        left.new board.old board.new) }
    ensures tools { tools.new ≡ tools.old }
{
    give(board, tools, rt, command)?;
    if matches!(command, Command::Clock { .. }) {
        return drive_all(board, vehicles, left);
    }
    Ok(())
}

// Gives a command, and runs a batch after an accepted ask.
fn give<'r, R: Threads + Sync>(
    board: &mut Board<'r>,
    tools: &mut Tools<'r>,
    rt: &R,
    command: &Command,
) -> Result<(), NoMemory>
    requires drilling { IsDrilling board.old }
    requires roads { tools.old ≡ board.old.start.roads }
    requires given { length (fed_commands 1 board.old.history) < most_commands }
    requires spelled { IsSpelledCommand board.old.start.settings.log command.now }
    ensures goes { OnOk result ((left : ℕ)
        → GoesBy (give command.now ∷ []) 1 left left board.old board.new) }
    ensures tools { tools.new ≡ tools.old }
{
    if answer(board, tools, rt, command, None)?.is_whole() {
        Ok(())
    } else {
        Err(AllocError)
    }
}

/// Both feeds end, and then the desk, all of them whole.
pub(super) fn end_all(board: &mut Board<'_>)
    requires drilling { IsDrilling board.old }
    ensures drilled { (steps : List DrillStep) → Follows board.old.start steps board.old.history
        → IsDrilled board.new.start (steps ++ last_steps) board.new.history }
    ensures start { board.new.start ≡ board.old.start }
{
    board.end(Actor::Feed(1), Ending::Whole);
    board.end(Actor::Feed(2), Ending::Whole);
    board.end(Actor::Desk(1), Ending::Whole);
    // This call tells that the history is legal.
    let _history = board.entries();
}
