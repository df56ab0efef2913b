//! The line of a drill.
ghost use Rattle.std.specs.Prelude.{◌≡◌, ◌++◌, decimal, length, IfOk, OnOk};
ghost use Rattle.city_maker.specs.inner.Plan.{IsPlan};
ghost use Rattle.city_maker.specs.Roads.{network_of};
ghost use Rattle.city_maker.specs.Steps.{start_of};
ghost use Rattle.session_run.specs.Drills.{summary_line};

use board_core::Board;
use city_maker::CityPlan;
use line_text::put_number;
use ride_model::NoMemory;
use std::alloc::{AllocError, Global};

/// The most entries of a history that is counted. Where there are more memory counts as wanting, as it would be long before.
const MOST_ENTRIES: usize = 1 << 40;

/// The line of a plan's drill, by its history.
pub(super) fn summary_of(
    alloc: Global,
    plan: &CityPlan,
    arcs: u64,
    board: &Board<'_>,
) -> Result<Vec<u8>, NoMemory>
    requires plan { IsPlan plan.now }
    requires arcs { arcs ≡ length (network_of plan.now).arcs }
    requires start { board.now.start ≡ start_of plan.now }
    ensures { IfOk result (λ line. line.items ≡ summary_line plan.now board.now.history) }
{
    if board.entries().len() > MOST_ENTRIES {
        return Err(AllocError);
    }
    let totals = board.totals();
    let mut line = Vec::new(alloc);
    push(
        &mut line,
        b"drill nodes ",
        u64::from(plan.side) * u64::from(plan.side),
    )?;
    push(&mut line, b" arcs ", arcs)?;
    push(&mut line, b" vehicles ", u64::from(plan.vehicles))?;
    push(&mut line, b" requests ", u64::from(plan.requests))?;
    push(&mut line, b" batches ", board.opened())?;
    push(&mut line, b" confirmed ", totals.confirmed)?;
    push(&mut line, b" away ", totals.away)?;
    push(&mut line, b" dropped ", totals.dropped)?;
    line.push(b'\n')?;
    Ok(line)
}

// Appends a word and a number.
fn push(line: &mut Vec<u8>, word: &[u8], number: u64) -> Result<(), NoMemory>
    ensures { OnOk result (line.new.items ≡ line.old.items ++ word.now ++ decimal number) }
{
    line.extend_from_slice(word)?;
    line.extend_from_slice(put_number(number).as_slice())?;
    Ok(())
}
