//! The loop of the scribe.
ghost use Rattle.std.specs.Prelude.{◌≡◌, ℕ, ◌+◌, ◌<◌, [], false, true, drop, length, take, is_err, All, IfOk, List, OnOk, OnErr, Option};
ghost use Rattle.ride_model.specs.Text.{HasLine, IsOneOrTwo, entry_lines};
ghost use Rattle.ride_ports.specs.Count.{KeepsCount};
ghost use Rattle.turn_lock.specs.Passes.{knowledge};
ghost use Rattle.fleet_board.specs.inner.Passes.{AddsNone, IsPoint, all_ended, root_of, seen_state};
ghost use Rattle.fleet_board.specs.Sharing.{MayUse};
ghost use Rattle.line_text.specs.inner.text_page.Output.{HasPut, IsFresh, Puts};
ghost use Rattle.session_loops.specs.inner.Loops.{HasScribed, HasScribedSome, HasSeenAll};

use crate::logging::put_all;
use fleet_board::{ActorPass, SharedBoard, Tail};
use line_text::text_page::Output;
use ride_model::{Entry, NoMemory};
use ride_ports::{Failed, Sink};
use std::alloc::{AllocError, Global};
use std::sync::Wait;

/// The most entries that are copied while the board's turn is held.
const MOST: u32 = 1024;

/// What a scribe has written.
#[derive(Clone, Copy, PartialEq, Eq)]
pub struct Scribed {
    /// How many entries, from the first one on.
    pub entries: u64,
    /// Whether no other comes after them. It is false for want of memory alone.
    pub whole: bool,
}

/// Writes the lines of the history as it grows, until all actors have ended and all is written. Whenever it has caught up, what
/// it has is written out, and it sleeps until there is more.
pub fn scribe_loop<'r, R: Wait, K: Sink>(
    rt: &R,
    alloc: Global,
    board: &SharedBoard<'r>,
    pass: &mut ActorPass<'r>,
    out: &mut K,
    log: u8,
) -> Result<Scribed, Failed>
    requires pass { MayUse board.now pass.old }
    requires point { IsPoint (knowledge pass.old) }
    requires log { log ≡ (root_of (knowledge pass.old)).start.settings.log }
    ensures pass { MayUse board.now pass.new }
    ensures point { IsPoint (knowledge pass.new) }
    ensures none { AddsNone (knowledge pass.old) (knowledge pass.new) }
    ensures written { IfOk result
        (λ scribed. HasScribed log (K.written out.old) (K.written out.new)
        scribed.entries (knowledge pass.new).seen) }
    ensures whole { IfOk result (λ scribed. scribed.whole ≡ true
        → HasSeenAll scribed.entries (knowledge pass.new)) }
    ensures prefix { OnErr result
        (HasScribedSome log (K.written out.old) (K.written out.new) (knowledge pass.new).seen) }
    ensures sink_faults { KeepsCount (is_err result) (K.faults out.old) (K.faults out.new) }
{
    let Ok(mut output) = Output::new(alloc) else {
        return Ok(Scribed {
            entries: 0,
            whole: false,
        });
    };
    let mut entries = 0;
    'looks: for _ in rt.forever() {
        let Ok((tail, count)) = next_tail(rt, alloc, board, pass, entries) else {
            return written_out(&mut output, out, entries);
        };
        put_tail(&mut output, out, tail.entries.as_slice(), log);
        if output.failed() {
            return Err(Failed);
        }
        entries = count;
        if tail.entries.is_empty() {
            if tail.settled {
                return Ok(Scribed {
                    entries,
                    whole: true,
                });
            }
            board.wait_for_news(rt, pass);
        }
    }
    unreachable!()
}

// The next entries from a place on, and the place behind them.
fn next_tail<'r, R: Wait>(
    rt: &R,
    alloc: Global,
    board: &SharedBoard<'r>,
    pass: &mut ActorPass<'r>,
    from: u64,
) -> Result<(Tail, u64), NoMemory>
    requires pass { MayUse board.now pass.old }
    requires point { IsPoint (knowledge pass.old) }
    ensures pass { MayUse board.now pass.new }
    ensures point { IsPoint (knowledge pass.new) }
    ensures none { AddsNone (knowledge pass.old) (knowledge pass.new) }
    ensures entries { IfOk result
        (λ found. found.0.entries.items ≡ take 1024 (drop from (knowledge pass.new).seen)) }
    ensures settled { IfOk result (λ found. found.0.settled
        ≡ all_ended (root_of (knowledge pass.new)).feeds (root_of (knowledge pass.new)).desks
        (seen_state (knowledge pass.new))) }
    ensures count { IfOk result (λ found. found.1 ≡ from + length found.0.entries.items) }
{
    let tail = board.tail(rt, alloc, pass, from, MOST)?;
    // More entries than a number counts do not fit into memory.
    let count = from
        .checked_add(tail.entries.len() as u64)
        .ok_or(AllocError)?;
    Ok((tail, count))
}

// Puts entries on the page. Where they are fewer than a look copies, the scribe has caught up, and the page is written out.
fn put_tail<K: Sink>(output: &mut Output, out: &mut K, entries: &[Entry], log: u8)
    requires log { IsOneOrTwo log }
    requires have_lines { All (HasLine log) entries.now }
    ensures logged { Puts (K.written out.old) (K.faults out.old) output.old
        (K.written out.new) (K.faults out.new) output.new
        (entry_lines log entries.now) }
    ensures caught_up { length entries.now < 1024 → output.new.failed ≡ false
        → output.new.page ≡ [] }
{
    put_all(output, out, entries, log);
    if entries.len() == MOST as usize {
        return;
    }
    output.end(out);
}

// Writes the page out for want of memory.
fn written_out<K: Sink>(output: &mut Output, out: &mut K, entries: u64) -> Result<Scribed, Failed>
    ensures logged { (before : Option (List ℕ)) (faults : ℕ) (text : List ℕ)
        → HasPut before (K.written out.old) faults (K.faults out.old) output.old text
        → HasPut before (K.written out.new) faults (K.faults out.new) output.new text }
    ensures nothing_left { OnOk result (IsFresh output.new) }
    ensures failed { OnErr result (output.new.failed ≡ true) }
    ensures scribed { IfOk result
        (λ scribed. scribed ≡ record { entries = entries; whole = false }) }
{
    output.end(out);
    if output.failed() {
        return Err(Failed);
    }
    Ok(Scribed {
        entries,
        whole: false,
    })
}
