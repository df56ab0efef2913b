//! What feeds do, and who may end.
ghost use Rattle.std.specs.Prelude.{◌<◌, ◌↔◌, length, IfOk, IsTrue, IsFalse};
ghost use Rattle.ride_model.specs.declared.command.Actor.TheVariants.{Feed};
ghost use Rattle.ride_model.specs.declared.entry.Event.TheVariants.{Fed, Finish};
ghost use Rattle.ride_model.specs.declared.reply.Reply.{Reply};
ghost use Rattle.ride_model.specs.Legal.{IsNumbered, IsLegalEvent};
ghost use Rattle.ride_model.specs.State.{has_ended};
ghost use Rattle.board_core.specs.Recorded.{state_of, end_entry};
ghost use Rattle.log_audit.specs.inner.Auditing.{IsAuditing, IsJudged, IsLineOf};
ghost use Rattle.log_audit.specs.declared.limits.TheConstants.{LOG_LIMITS};

use crate::Why;
use crate::auditor::Auditor;
use crate::fault::Fault;
use ride_model::{Actor, Command, Ending, NoMemory};

impl<'r> Auditor<'r> {
    /// Judges the line of a feed's command with its reply.
    #[tactic(auto, using(crate::proofs::Legality::fault_actor))]
    pub(crate) fn judge_fed(
        &mut self,
        feed: u8,
        command: &Command,
        line: &[u8],
    ) -> Result<Option<Fault>, NoMemory>
        requires auditing { IsAuditing self.old }
        requires few { length self.old.board.history < LOG_LIMITS.lines }
        requires line { (reply : Reply)
            × IsLineOf self.old.log (record {
              actor = Feed feed;
              event = Fed command.now reply;
            }) line.now }
        ensures { (reply : Reply) → IsLineOf self.old.log
            (record { actor = Feed feed; event = Fed command.now reply }) line.now
            → IfOk result (IsJudged self.old self.new
            (record { actor = Feed feed; event = Fed command.now reply })) }
    {
        if !self.may_feed(feed) {
            return Ok(Some(Fault::of(Why::Actor)));
        }
        let _reply = self.board.apply(feed, command)?;
        // This call tells that the history is legal and has a text.
        let _history = self.board.entries();
        Ok(self.unless_told(line, Why::Reply))
    }

    /// Judges the end of an actor.
    #[tactic(auto, using(crate::proofs::Legality::fault_actor))]
    pub(crate) fn judge_end(&mut self, actor: Actor, ending: Ending) -> Option<Fault>
        requires { IsAuditing self.old }
        ensures { IsJudged self.old self.new (end_entry actor ending) result }
    {
        if !self.may_finish(actor, ending) {
            return Some(Fault::of(Why::Actor));
        }
        self.board.end(actor, ending);
        None
    }

    // Whether an actor may end so.
    fn may_finish(&self, actor: Actor, ending: Ending) -> bool
        ensures { IsTrue result ↔ IsLegalEvent self.now.board.feeds self.now.board.desks
            (state_of self.now.board) actor (Finish ending) }
    {
        match actor {
            Actor::Feed(feed) => self.may_feed(feed),
            Actor::Desk(desk) => self.may_end(desk, ending),
        }
    }

    // Whether a feed is one of the log's and has not ended.
    fn may_feed(&self, feed: u8) -> bool
        ensures { IsTrue result ↔ (IsNumbered self.now.board.feeds feed
            × IsFalse (has_ended (state_of self.now.board) (Feed feed))) }
    {
        1 <= feed && feed <= self.board.feeds() && !self.board.has_ended(Actor::Feed(feed))
    }
}
