//! Drills: the session of a generated city, of which a line is written.
ghost use Rattle.std.specs.Prelude.{◌≡◌, ◌<◌, ◌++◌, [], List, length, true, false, All, IfOk, OnOk};
ghost use Rattle.std.specs.List.{flat_map};
ghost use Rattle.ride_model.specs.declared.entry.Entry.{Entry};
ghost use Rattle.ride_model.specs.Drill.{IsDrilled};
ghost use Rattle.ride_model.specs.Text.{IsSpelledCommand};
ghost use Rattle.ride_model.specs.inner.Limits.{most_commands};
ghost use Rattle.ride_ports.specs.Count.{KeepsCount};
ghost use Rattle.city_maker.specs.inner.Plan.{IsPlan};
ghost use Rattle.city_maker.specs.Steps.{Drilled, last_steps, steps_with};
ghost use Rattle.session_run.specs.Drills.{summary_line};
ghost use Rattle.session_run.specs.Logged.{IsLogged};

mod reports;
mod summary;
mod walk;

use crate::tools::Tools;
use adaptive_roads::Roads;
use board_core::Board;
use city_maker::{City, CityPlan, make_city};
use pricing_workers::workers_at_hand;
use ride_model::{Command, NoMemory};
use ride_ports::{Ran, Sink, write_all};
use std::alloc::Global;
use std::thread::Threads;
use summary::summary_of;
use walk::{end_all, run_commands};

/// Runs the session of a plan's city, in which the drivers of the vehicles report what they do after each clock and each
/// batch that is asked for is closed at once, and writes one line with its totals.
pub fn drill<R: Threads + Sync, K: Sink>(rt: &R, alloc: Global, plan: &CityPlan, out: &mut K) -> Ran
    requires { IsPlan plan.now }

    // The line is that of a history of the plan's drill.
    ensures drilled { result.no_memory ≡ false → (entries : List Entry) × Drilled plan.now entries
        × IsLogged result [] (K.written out.old) (K.written out.new)
        (summary_line plan.now entries) }
    ensures nothing_written { result.no_memory ≡ true → K.written out.new ≡ K.written out.old }
    ensures sink_faults { KeepsCount result.sink_failed (K.faults out.old) (K.faults out.new) }
    ensures no_source { result.source_failed ≡ false }
    ensures no_limit { result.too_long ≡ false }
{
    match line_of(rt, alloc, plan) {
        Ok(line) => Ran {
            sink_failed: write_all(out, line.as_slice()).is_err(),
            no_memory: false,
            source_failed: false,
            too_long: false,
        },
        Err(_) => Ran {
            sink_failed: false,
            no_memory: true,
            source_failed: false,
            too_long: false,
        },
    }
}

// The line of a drill.
fn line_of<R: Threads + Sync>(rt: &R, alloc: Global, plan: &CityPlan) -> Result<Vec<u8>, NoMemory>
    requires { IsPlan plan.now }
    ensures { IfOk result (λ line. (entries : List Entry) × Drilled plan.now entries
        × (line.items ≡ summary_line plan.now entries)) }
{
    let City {
        network,
        settings,
        fleet,
        commands,
    } = make_city(alloc, plan)?;
    let roads = Roads::new(alloc, &network)?;
    let mut board = Board::new(alloc, &roads, settings, fleet, 2, 1)?;
    run(
        rt,
        alloc,
        &roads,
        &mut board,
        commands.items(),
        plan.vehicles,
    )?;
    summary_of(alloc, plan, network.arcs().len() as u64, &board)
}

// Goes through all steps of a drill.
fn run<'r, R: Threads + Sync>(
    rt: &R,
    alloc: Global,
    roads: &'r Roads,
    board: &mut Board<'r>,
    commands: &[Command],
    vehicles: u32,
) -> Result<(), NoMemory>
    requires fresh { board.old.history ≡ [] }
    requires feeds { board.old.feeds ≡ 2 }
    requires desks { board.old.desks ≡ 1 }
    requires roads { roads.now ≡ board.old.start.roads }
    requires vehicles { length board.old.start.vehicles ≡ vehicles }
    requires few { length commands.now < most_commands }
    requires spelled { All (IsSpelledCommand board.old.start.settings.log) commands.now }
    ensures drilled { OnOk result
        (IsDrilled board.new.start (flat_map (steps_with vehicles) commands.now
        ++ last_steps) board.new.history) }
    ensures start { OnOk result (board.new.start ≡ board.old.start) }
{
    // This call tells how boards start.
    let _history = board.entries();
    let mut tools = Tools::new(alloc, roads, workers_at_hand(rt))?;
    run_commands(board, &mut tools, rt, commands, vehicles)?;
    end_all(board);
    Ok(())
}
