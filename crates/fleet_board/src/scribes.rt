//! What every pass may see of the history: entries from a place on, and that there is more than it has seen.
ghost use Rattle.std.specs.Prelude.{◌≡◌, take, drop, IfOk};
ghost use Rattle.board_core.specs.Recorded.{state_of};
ghost use Rattle.turn_lock.specs.Passes.{knowledge};
ghost use Rattle.fleet_board.specs.inner.Passes.{IsPoint, AddsNone, root_of, seen_state, all_ended};
ghost use Rattle.fleet_board.specs.Sharing.{MayUse};

use crate::{ActorPass, SharedBoard};
use board_core::Board;
use ride_model::{Actor, Entry, NoMemory};
use std::alloc::Global;
use std::sync::Wait;

/// Entries of the history.
#[derive(Drop)]
pub struct Tail {
    pub entries: Vec<Entry>,
    /// Whether all actors have ended: no entry is to come.
    pub settled: bool,
}

impl<'r> SharedBoard<'r> {
    /// Up to `most` entries from a place on, as many as there are.
    pub fn tail<R: Wait>(
        &self,
        rt: &R,
        alloc: Global,
        pass: &mut ActorPass<'r>,
        from: u64,
        most: u32,
    ) -> Result<Tail, NoMemory>
        requires pass { MayUse self.now pass.old }
        requires point { IsPoint (knowledge pass.old) }
        ensures pass { MayUse self.now pass.new }
        ensures point { IsPoint (knowledge pass.new) }
        ensures none { AddsNone (knowledge pass.old) (knowledge pass.new) }
        ensures entries { IfOk result
            (λ tail. tail.entries.items ≡ take most (drop from (knowledge pass.new).seen)) }
        ensures settled { IfOk result (λ tail. tail.settled
            ≡ all_ended (root_of (knowledge pass.new)).feeds (root_of (knowledge pass.new)).desks
            (seen_state (knowledge pass.new))) }
    {
        let kept = self.take_turn(rt, pass);
        let tail = tail_of(alloc, &kept.board, from, most);
        self.lock.leave_same(pass, kept);
        tail
    }

    /// Waits until the history is longer than what the pass has seen, the end of an actor being an entry as well. A waiting
    /// thread sleeps. What is new is seen at the next call.
    pub fn wait_for_news<R: Wait>(&self, rt: &R, pass: &ActorPass<'r>)
        requires { MayUse self.now pass.now }
    {
        self.lock.wait_for_news(rt, pass);
    }
}

// Entries of a board from a place on, and whether its actors have all ended.
fn tail_of(alloc: Global, board: &Board<'_>, from: u64, most: u32) -> Result<Tail, NoMemory>
    ensures entries { IfOk result
        (λ tail. tail.entries.items ≡ take most (drop from board.now.history)) }
    ensures settled { IfOk result
        (λ tail. tail.settled ≡ all_ended board.now.feeds board.now.desks (state_of board.now)) }
{
    let entries = copies_of(alloc, board.entries(), from as usize, most as usize)?;
    Ok(Tail {
        entries,
        settled: have_all_ended(board),
    })
}

// Copies of up to so many entries from a place on.
fn copies_of(
    alloc: Global,
    entries: &[Entry],
    from: usize,
    most: usize,
) -> Result<Vec<Entry>, NoMemory>
    ensures { IfOk result (λ copies. copies.items ≡ take most (drop from entries.now)) }
{
    let from = from.min(entries.len());
    let many = most.min(entries.len() - from);
    let wanted = &entries[from..from + many];
    let mut copies = Vec::with_capacity(alloc, many)?;
    for entry in wanted {
        copies.push(entry.try_copy()?)?;
    }
    Ok(copies)
}

// Whether all actors of a board have ended.
fn have_all_ended(board: &Board<'_>) -> bool
    ensures { result ≡ all_ended board.now.feeds board.now.desks (state_of board.now) }
{
    // This call tells that there are one or two feeds, and one or two desks.
    let _entries = board.entries();
    let feeds = board.has_ended(Actor::Feed(1))
        && (board.feeds() == 1 || board.has_ended(Actor::Feed(2)));
    let desks = board.has_ended(Actor::Desk(1))
        && (board.desks() == 1 || board.has_ended(Actor::Desk(2)));
    feeds && desks
}
