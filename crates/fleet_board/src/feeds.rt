//! What feeds do: they submit commands.
ghost use Rattle.std.specs.Prelude.{◌≡◌, ◌<◌, length, IfOk, OnErr};
ghost use Rattle.ride_model.specs.declared.command.Actor.TheVariants.{Feed};
ghost use Rattle.ride_model.specs.declared.entry.Event.TheVariants.{Fed};
ghost use Rattle.ride_model.specs.Step.{step};
ghost use Rattle.ride_model.specs.Text.{IsSpelledCommand};
ghost use Rattle.ride_model.specs.inner.Limits.{most_commands};
ghost use Rattle.turn_lock.specs.Passes.{knowledge};
ghost use Rattle.fleet_board.specs.inner.Passes.{IsPoint, IsFeed, AddsNone, AddsEntry, commands_in, root_of, state_before};
ghost use Rattle.fleet_board.specs.Sharing.{MayUse};

use crate::{ActorPass, SharedBoard};
use ride_model::{Command, NoMemory, Reply};
use std::sync::Wait;

impl<'r> SharedBoard<'r> {
    /// Answers a command of the pass's feed, and adds it with its reply.
    pub fn submit<R: Wait>(
        &self,
        rt: &R,
        pass: &mut ActorPass<'r>,
        command: &Command,
    ) -> Result<Reply, NoMemory>
        requires pass { MayUse self.now pass.old }
        requires point { IsPoint (knowledge pass.old) }
        requires feed { IsFeed (knowledge pass.old) }
        requires few { length (commands_in (knowledge pass.old).own) < most_commands }
        requires spelled { IsSpelledCommand
            (root_of (knowledge pass.old)).start.settings.log command.now }
        ensures pass { MayUse self.now pass.new }
        ensures point { IsPoint (knowledge pass.new) }
        ensures feed { IsFeed (knowledge pass.new) }
        ensures entry { IfOk result (λ reply. AddsEntry (knowledge pass.old) (knowledge pass.new)
            (record { actor = Feed (knowledge pass.old).number; event = Fed command.now reply })) }
        ensures reply { IfOk result (λ reply. reply
            ≡ (step (state_before (knowledge pass.new)) command.now).reply) }
        ensures no_memory { OnErr result (AddsNone (knowledge pass.old) (knowledge pass.new)) }
    {
        let mut kept = self.take_turn(rt, pass);
        let feed = pass.number() as u8;
        match kept.board.apply(feed, command) {
            Ok(reply) => {
                self.leave_with(pass, kept);
                Ok(reply)
            }
            Err(no_memory) => {
                self.lock.leave_same(pass, kept);
                Err(no_memory)
            }
        }
    }
}
