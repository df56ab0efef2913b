//! What the drivers of a drill report.
ghost use Rattle.std.specs.Prelude.{◌≡◌, ◌+◌, ◌<◌, [], ◌∷◌, length, map, slice_get, Some, IfSome, OnOk};
ghost use Rattle.std.specs.List.{range_with_len};
ghost use Rattle.ride_model.specs.declared.vehicle.Vehicle.{Vehicle};
ghost use Rattle.ride_model.specs.Drill.{drive, next_report};
ghost use Rattle.ride_model.specs.History.{fed_commands};
ghost use Rattle.ride_model.specs.Text.{IsSpelledCommand};
ghost use Rattle.ride_model.specs.inner.Limits.{most_commands};
ghost use Rattle.board_core.specs.Recorded.{state_of};
ghost use Rattle.session_run.specs.inner.Drills.{GoesBy, IsDrilling};

use board_core::Board;
use city_maker::next_report;
use ride_model::{Command, NoMemory};
use std::alloc::AllocError;

/// The driver of each vehicle reports, in fleet order, until nothing more is to be reported. Memory counts as wanting where
/// no reports are left.
pub(super) fn drive_all(
    board: &mut Board<'_>,
    vehicles: u32,
    left: &mut u32,
) -> Result<(), NoMemory>
    requires drilling { IsDrilling board.old }
    requires vehicles { length board.old.start.vehicles ≡ vehicles }
    requires few { length (fed_commands 2 board.old.history) + left.old < most_commands }
    ensures { OnOk result (GoesBy (map drive (range_with_len 0 vehicles)) 0 left.old
        left.new board.old board.new) }
{
    for place in 0..vehicles {
        drive(board, place as usize, left)?;
    }
    Ok(())
}

// The driver of the vehicle at a place reports until nothing more is to be reported.
fn drive(board: &mut Board<'_>, place: usize, left: &mut u32) -> Result<(), NoMemory>
    requires drilling { IsDrilling board.old }
    requires place { place < length board.old.start.vehicles }
    requires few { length (fed_commands 2 board.old.history) + left.old < most_commands }
    ensures { OnOk result (GoesBy (drive place ∷ []) 0 left.old left.new board.old board.new) }
{
    for _ in 0..*left {
        let Some(command) = report_of(board, place) else {
            return Ok(());
        };
        board.apply(2, &command)?;
        *left -= 1;
    }
    Err(AllocError)
}

// What the driver of the vehicle at a place reports next.
fn report_of(board: &Board<'_>, place: usize) -> Option<Command>
    requires { place < length board.now.start.vehicles }
    ensures report { (v : Vehicle) × (slice_get (state_of board.now).vehicles place ≡ Some v)
        × (result ≡ next_report v (state_of board.now).clock) }
    ensures spelled { IfSome result (IsSpelledCommand board.now.start.settings.log) }
{
    // This call tells that the history is legal.
    let _history = board.entries();
    next_report(&board.vehicles()[place], board.now())
}
