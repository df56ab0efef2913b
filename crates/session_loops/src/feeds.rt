//! The loop of a feed.
ghost use Rattle.std.specs.Prelude.{◌≡◌, ◌<◌, ◌≤◌, [], length, false, OnErr, OnOk};
ghost use Rattle.ride_model.specs.Text.{IsSpelledCommand};
ghost use Rattle.ride_model.specs.inner.Limits.{most_commands, most_earlier_commands};
ghost use Rattle.ride_ports.specs.Count.{KeepsCount};
ghost use Rattle.command_lines.specs.inner.Feeds.{HasGiven};
ghost use Rattle.command_lines.specs.inner.Limits.{IsForm};
ghost use Rattle.turn_lock.specs.Passes.{knowledge};
ghost use Rattle.fleet_board.specs.inner.Passes.{AddsNone, IsPoint, commands_in, root_of};
ghost use Rattle.fleet_board.specs.Roles.{MayFeed};
ghost use Rattle.fleet_board.specs.Sharing.{MayUse};
ghost use Rattle.session_loops.specs.inner.Loops.{RunsFeed};
ghost use Rattle.session_loops.specs.inner.Making.{AddsAnswer, HasSubmitted};
ghost use Rattle.line_text.specs.inner.line_reader.FeedRuns.{is_source_failed};

use crate::stops::ending_of;
use command_lines::{FeedForm, FeedReader};
use fleet_board::{ActorPass, SharedBoard};
use line_text::line_reader::{Stop, ran_of};
use ride_model::{Command, NoMemory};
use ride_ports::{Gate, Ran, Source};
use std::alloc::Global;
use std::sync::Wait;

/// Submits each command of a source once and in order, and ends the feed: whole where the source was read to its end, else
/// cut. The pass is the feed's. It passes the gate at place 3 before each submit and at 4 after its reply, and as the second
/// feed at 5 and 6.
pub fn feed_loop<'r, R: Wait, S: Source, G: Gate>(
    rt: &R,
    alloc: Global,
    board: &SharedBoard<'r>,
    pass: &mut ActorPass<'r>,
    source: &mut S,
    gate: &G,
    form: FeedForm,
) -> Ran
    requires feed { MayFeed board.now pass.old }
    requires form { IsForm form }
    requires log { form.log ≡ (root_of (knowledge pass.old)).start.settings.log }
    requires few { length (commands_in (knowledge pass.old).own) ≤ most_earlier_commands }
    ensures pass { MayUse board.now pass.new }
    ensures point { IsPoint (knowledge pass.new) }
    ensures ran { RunsFeed form (S.left source.old) (S.left source.new) result
        (knowledge pass.old) (knowledge pass.new) }
    ensures sink { result.sink_failed ≡ false }
    ensures faults { KeepsCount result.source_failed (S.faults source.old) (S.faults source.new) }
{
    let stop = run_feed(rt, alloc, board, pass, source, gate, form);
    board.end(rt, pass, ending_of(stop));
    ran_of(stop, false)
}

// Submits the commands of a source to its end, or until something stops them.
fn run_feed<'r, R: Wait, S: Source, G: Gate>(
    rt: &R,
    alloc: Global,
    board: &SharedBoard<'r>,
    pass: &mut ActorPass<'r>,
    source: &mut S,
    gate: &G,
    form: FeedForm,
) -> Option<Stop>
    requires feed { MayFeed board.now pass.old }
    requires form { IsForm form }
    requires log { form.log ≡ (root_of (knowledge pass.old)).start.settings.log }
    requires few { length (commands_in (knowledge pass.old).own) ≤ most_earlier_commands }
    ensures feed { MayFeed board.now pass.new }
    ensures submitted { HasSubmitted form (S.left source.old) (S.left source.new) result
        (knowledge pass.old) (knowledge pass.new) }
    ensures faults { KeepsCount (is_source_failed result)
        (S.faults source.old) (S.faults source.new) }
{
    match FeedReader::new(alloc, form) {
        Ok(mut reader) => submit_commands(rt, board, pass, &mut reader, source, gate),
        Err(_) => Some(Stop::NoMemory),
    }
}

// Submits the commands that a reader gives, until it gives no more or memory is wanting.
fn submit_commands<'r, R: Wait, S: Source, G: Gate>(
    rt: &R,
    board: &SharedBoard<'r>,
    pass: &mut ActorPass<'r>,
    reader: &mut FeedReader,
    source: &mut S,
    gate: &G,
) -> Option<Stop>
    requires feed { MayFeed board.now pass.old }
    requires version { reader.old.form.log ≡ (root_of (knowledge pass.old)).start.settings.log }
    requires few { length (commands_in (knowledge pass.old).own) ≤ most_earlier_commands }
    requires nothing_given { HasGiven reader.old (S.left source.old) [] [] }
    ensures feed { MayFeed board.now pass.new }
    ensures submitted { HasSubmitted reader.old.form (S.left source.old)
        (S.left source.new) result (knowledge pass.old)
        (knowledge pass.new) }
    ensures faults { KeepsCount (is_source_failed result)
        (S.faults source.old) (S.faults source.new) }
{
    'commands: loop {
        match reader.next_command(source) {
            Ok(Some(command)) => match submit(rt, board, pass, &command, gate) {
                Ok(()) => {}
                Err(_) => return Some(Stop::NoMemory),
            },
            Ok(None) => return None,
            Err(stop) => return Some(Stop::OfFeed(stop)),
        }
    }
}

// Submits a command, and passes the gate before it and after its reply.
fn submit<'r, R: Wait, G: Gate>(
    rt: &R,
    board: &SharedBoard<'r>,
    pass: &mut ActorPass<'r>,
    command: &Command,
    gate: &G,
) -> Result<(), NoMemory>
    requires feed { MayFeed board.now pass.old }
    requires few { length (commands_in (knowledge pass.old).own) < most_commands }
    requires spelled { IsSpelledCommand
        (root_of (knowledge pass.old)).start.settings.log command.now }
    ensures feed { MayFeed board.now pass.new }
    ensures answered { OnOk result
        (AddsAnswer command.now (knowledge pass.old) (knowledge pass.new)) }
    ensures no_memory { OnErr result (AddsNone (knowledge pass.old) (knowledge pass.new)) }
{
    let (before, after) = places_of(pass.number());
    gate.pass(before);
    let _reply = board.submit(rt, pass, command)?;
    gate.pass(after);
    Ok(())
}

// The places of the gate before a submit of a feed, and after its reply.
fn places_of(feed: u32) -> (u32, u32) {
    if feed == 1 { (3, 4) } else { (5, 6) }
}
