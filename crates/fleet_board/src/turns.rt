//! A turn: what it finds, and how it is handed on.
ghost use Rattle.std.specs.Prelude.{◌≡◌, [], ◌∷◌, ◌++◌};
ghost use Rattle.ride_model.specs.declared.entry.Entry.{Entry};
ghost use Rattle.turn_lock.specs.inner.History.{GrowsByOne};
ghost use Rattle.turn_lock.specs.Knowledge.{after_enter, after_leave, after_note};
ghost use Rattle.turn_lock.specs.Passes.{MayEnter, MayLeave, HasRoot, knowledge};
ghost use Rattle.fleet_board.specs.inner.Passes.{IsPoint, maker_of};
ghost use Rattle.fleet_board.specs.inner.Turns.{IsTold, Finds, as_began};

use crate::{ActorPass, Kept, SharedBoard};
use std::sync::Wait;

impl<'r> SharedBoard<'r> {
    /// Waits for the turn.
    pub(crate) fn take_turn<R: Wait>(&self, rt: &R, pass: &mut ActorPass<'r>) -> Kept<'r>
        requires pass { MayEnter self.now.lock pass.old }
        requires point { IsPoint (knowledge pass.old) }
        ensures pass { MayLeave self.now.lock pass.new }
        ensures knows { knowledge pass.new ≡ after_enter (knowledge pass.old) result.board.history }
        ensures root { HasRoot pass.old (as_began result.board) }
        ensures finds { Finds (knowledge pass.old) result.board }
    {
        let kept = self.lock.enter(rt, pass);
        // This call tells what is so of every board.
        let _entries = kept.board.entries();
        kept
    }

    /// Hands the turn on, in which an entry of the pass was added.
    pub(crate) fn leave_with(&self, pass: &mut ActorPass<'r>, kept: Kept<'r>)
        requires pass { MayLeave self.now.lock pass.old }
        requires root { HasRoot pass.old (as_began kept.board) }
        requires grown { GrowsByOne maker_of (knowledge pass.old).number
            (knowledge pass.old).seen kept.board.history }
        ensures pass { MayEnter self.now.lock pass.new }
        ensures knows { knowledge pass.new
            ≡ after_leave (after_note (knowledge pass.old) kept.entry.board.history) }
        ensures own { (entry : Entry)
            → kept.entry.board.history ≡ (knowledge pass.old).seen ++ entry ∷ []
            → (knowledge pass.new).own ≡ (knowledge pass.old).own ++ entry ∷ [] }
        ensures told { IsTold kept.entry.board }
    {
        // This call tells what is so of every board.
        let _entries = kept.board.entries();
        self.lock.leave_with(pass, kept);
    }
}
