//! What every actor does in the end.
ghost use Rattle.std.specs.Prelude.{◌≡◌, ◌≤◌, ◌^◌};
ghost use Rattle.ride_model.specs.declared.entry.Event.TheVariants.{Finish};
ghost use Rattle.ride_model.specs.Legal.{IsLegalEvent};
ghost use Rattle.board_core.specs.Recorded.{end_entry};
ghost use Rattle.turn_lock.specs.Passes.{knowledge};
ghost use Rattle.fleet_board.specs.inner.Passes.{IsPoint, AddsEntry, actor_of, root_of, seen_state};
ghost use Rattle.fleet_board.specs.Sharing.{MayUse};

use crate::{ActorPass, SharedBoard};
use ride_model::{Actor, Ending};
use std::sync::Wait;

impl<'r> SharedBoard<'r> {
    /// Ends the actor of the pass. Takes no memory.
    pub fn end<R: Wait>(&self, rt: &R, pass: &mut ActorPass<'r>, ending: Ending)
        requires pass { MayUse self.now pass.old }
        requires point { IsPoint (knowledge pass.old) }
        requires may_end { IsLegalEvent (root_of (knowledge pass.old)).feeds
            (root_of (knowledge pass.old)).desks
            (seen_state (knowledge pass.old))
            (actor_of (knowledge pass.old).number) (Finish ending) }
        ensures pass { MayUse self.now pass.new }
        ensures point { IsPoint (knowledge pass.new) }
        ensures entry { AddsEntry (knowledge pass.old) (knowledge pass.new)
            (end_entry (actor_of (knowledge pass.old).number) ending) }
    {
        let mut kept = self.take_turn(rt, pass);
        let actor = actor_of(pass.number());
        kept.board.end(actor, ending);
        self.leave_with(pass, kept);
    }
}

// The actor of a pass.
fn actor_of(number: u32) -> Actor
    requires { number ≤ 4 }
    ensures { result ≡ actor_of number }
{
    if number <= 2 {
        Actor::Feed(number as u8)
    } else {
        Actor::Desk((number - 2) as u8)
    }
}
