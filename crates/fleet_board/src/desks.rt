//! What desks do: they open batches, commit them and give them up.
ghost use Rattle.std.specs.Prelude.{IfOk, OnErr};
ghost use Rattle.batch_commit.specs.inner.Table.{IsTableOf};
ghost use Rattle.board_core.specs.inner.Recorded.{committed_entry, abandoned_entry};
ghost use Rattle.turn_lock.specs.Passes.{knowledge};
ghost use Rattle.fleet_board.specs.inner.Passes.{IsPoint, IsDesk, AddsNone, AddsEntry, root_of, seen_state, state_before};
ghost use Rattle.fleet_board.specs.inner.Openings.{HasNoneOpen, HasOpen, Opens};
ghost use Rattle.fleet_board.specs.inner.Commits.{CommitsSolved, ChangesOnlyStanding};
ghost use Rattle.fleet_board.specs.Sharing.{MayUse};

use crate::{ActorPass, SharedBoard};
use batch_commit::{Batch, Solved};
use board_core::Opening;
use ride_model::NoMemory;
use std::sync::Wait;

impl<'r> SharedBoard<'r> {
    /// Opens the next batch of the pass's desk, where one was asked for.
    pub fn open_batch<R: Wait>(&self, rt: &R, pass: &mut ActorPass<'r>) -> Result<Opening, NoMemory>
        requires pass { MayUse self.now pass.old }
        requires point { IsPoint (knowledge pass.old) }
        requires desk { IsDesk (knowledge pass.old) }
        requires none_open { HasNoneOpen (knowledge pass.old) }
        ensures pass { MayUse self.now pass.new }
        ensures point { IsPoint (knowledge pass.new) }
        ensures desk { IsDesk (knowledge pass.new) }
        ensures opening { IfOk result (Opens (knowledge pass.old) (knowledge pass.new)) }
        ensures no_memory { OnErr result (AddsNone (knowledge pass.old) (knowledge pass.new)) }
        ensures none_open { OnErr result (HasNoneOpen (knowledge pass.new)) }
    {
        let mut kept = self.take_turn(rt, pass);
        let desk = (pass.number() - 2) as u8;
        match kept.board.open_batch(desk) {
            Ok(Opening::Batch(batch)) => {
                self.leave_with(pass, kept);
                Ok(Opening::Batch(batch))
            }
            Ok(Opening::Idle) => {
                self.lock.leave_same(pass, kept);
                Ok(Opening::Idle)
            }
            Ok(Opening::Ended) => {
                self.lock.leave_same(pass, kept);
                Ok(Opening::Ended)
            }
            Err(no_memory) => {
                self.lock.leave_same(pass, kept);
                Err(no_memory)
            }
        }
    }

    /// Commits the open batch of the pass's desk by its answer. Takes no memory.
    pub fn commit<R: Wait>(&self, rt: &R, pass: &mut ActorPass<'r>, solved: Solved)
        requires pass { MayUse self.now pass.old }
        requires point { IsPoint (knowledge pass.old) }
        requires desk { IsDesk (knowledge pass.old) }
        requires is_open { HasOpen (knowledge pass.old) solved.batch }
        requires table { IsTableOf (root_of
            (knowledge pass.old)).start.roads solved.batch solved.table }
        ensures pass { MayUse self.now pass.new }
        ensures point { IsPoint (knowledge pass.new) }
        ensures desk { IsDesk (knowledge pass.new) }
        ensures none_open { HasNoneOpen (knowledge pass.new) }
        ensures entry { AddsEntry (knowledge pass.old) (knowledge pass.new)
            (committed_entry (state_before (knowledge pass.new)) solved) }
        ensures certified { CommitsSolved (state_before (knowledge pass.new)) solved }
        ensures standing { ChangesOnlyStanding (state_before (knowledge pass.new)) solved.batch
            (seen_state (knowledge pass.new)) }
    {
        let mut kept = self.take_turn(rt, pass);
        kept.board.commit(solved);
        self.leave_with(pass, kept);
    }

    /// Gives the open batch of the pass's desk up, for want of memory: its requests that were not cancelled wait again. Takes
    /// no memory.
    pub fn abandon<R: Wait>(&self, rt: &R, pass: &mut ActorPass<'r>, batch: Batch)
        requires pass { MayUse self.now pass.old }
        requires point { IsPoint (knowledge pass.old) }
        requires desk { IsDesk (knowledge pass.old) }
        requires is_open { HasOpen (knowledge pass.old) batch }
        ensures pass { MayUse self.now pass.new }
        ensures point { IsPoint (knowledge pass.new) }
        ensures desk { IsDesk (knowledge pass.new) }
        ensures none_open { HasNoneOpen (knowledge pass.new) }
        ensures entry { AddsEntry (knowledge pass.old)
            (knowledge pass.new) (abandoned_entry batch) }
    {
        let mut kept = self.take_turn(rt, pass);
        kept.board.abandon(batch);
        self.leave_with(pass, kept);
    }
}
