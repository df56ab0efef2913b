//! What desks do but for commits.
ghost use Rattle.std.specs.Prelude.{◌≡◌, ℕ, ◌↔◌, List, None, IfOk, IsTrue, IsFalse};
ghost use Rattle.ride_model.specs.declared.command.Actor.TheVariants.{Desk};
ghost use Rattle.ride_model.specs.declared.entry.Event.TheVariants.{Opened, Abandoned};
ghost use Rattle.ride_model.specs.Batch.{may_open};
ghost use Rattle.ride_model.specs.Legal.{IsNumbered, MayEnd, all_feeds_ended};
ghost use Rattle.ride_model.specs.State.{has_ended, open_batch_numbered};
ghost use Rattle.ride_model.specs.Text.{IsOneOrTwo};
ghost use Rattle.board_core.specs.Recorded.{state_of};
ghost use Rattle.log_audit.specs.inner.Auditing.{IsAuditing, IsJudged, IsLineOf};
ghost use Rattle.log_audit.specs.inner.OpenBatches.{with_batch};

use crate::Why;
use crate::auditor::Auditor;
use crate::fault::Fault;
use batch_commit::Batch;
use board_core::Opening;
use ride_model::{Actor, Ending, NoMemory};

impl<'r> Auditor<'r> {
    /// Judges the line of an opening.
    #[tactic(auto, using(crate::proofs::Legality::fault_actor))]
    pub(crate) fn judge_opened(&mut self, desk: u8, line: &[u8]) -> Result<Option<Fault>, NoMemory>
        requires auditing { IsAuditing self.old }
        requires desk { IsOneOrTwo desk }
        ensures { (batch time : ℕ) (requests : List ℕ) (plans : List (ℕ × ℕ))
            → IsLineOf self.old.log (record {
              actor = Desk desk;
              event = Opened batch time requests plans;
            }) line.now
            → IfOk result (IsJudged self.old self.new
            (record { actor = Desk desk; event = Opened batch time requests plans })) }
    {
        if !self.may_open(desk) {
            return Ok(Some(Fault::of(Why::Actor)));
        }
        let Opening::Batch(batch) = self.board.open_batch(desk)? else {
            unreachable!();
        };
        self.batches.put(desk, batch);
        // This call tells that the history is legal and has a text.
        let _history = self.board.entries();
        Ok(self.unless_told(line, Why::Batch))
    }

    /// Judges that a batch is given up.
    #[tactic(auto, using(crate::proofs::Legality::fault_actor))]
    pub(crate) fn judge_abandoned(&mut self, desk: u8, number: u64) -> Option<Fault>
        requires auditing { IsAuditing self.old }
        requires desk { IsOneOrTwo desk }
        ensures { IsJudged self.old self.new
            (record { actor = Desk desk; event = Abandoned number }) result }
    {
        // This call tells that the history is legal.
        let _history = self.board.entries();
        let Some(batch) = self.take_numbered(desk, number) else {
            return Some(Fault::of(Why::Actor));
        };
        self.board.abandon(batch);
        None
    }

    /// Takes out a desk's open batch, where it has this number.
    pub(crate) fn take_numbered(&mut self, desk: u8, number: u64) -> Option<Batch>
        requires auditing { IsAuditing self.old }
        requires desk { IsOneOrTwo desk }
        ensures batch { result ≡ open_batch_numbered (state_of self.old.board) desk number }
        ensures left { self.new ≡ record self.old {
          batches = with_batch
              desk None self.old.batches;
        } }
    {
        // This call tells that the history is legal.
        let _history = self.board.entries();
        let batch = self.batches.take(desk)?;
        if batch.number() == number {
            Some(batch)
        } else {
            None
        }
    }

    // Whether a desk is one of the log's, has not ended, and may end so.
    pub(crate) fn may_end(&self, desk: u8, ending: Ending) -> bool
        ensures { IsTrue result ↔ (IsNumbered self.now.board.desks desk
            × IsFalse (has_ended (state_of self.now.board) (Desk desk))
            × MayEnd self.now.board.feeds (state_of self.now.board) desk ending) }
    {
        self.is_desk(desk)
            && !self.board.has_ended(Actor::Desk(desk))
            && self.board.open_of(desk).is_none()
            && (ending == Ending::Cut || self.is_all_opened())
    }

    // Whether a desk is one of the log's and may open a batch.
    fn may_open(&self, desk: u8) -> bool
        ensures { IsTrue result ↔ (IsNumbered self.now.board.desks desk
            × IsTrue (may_open (state_of self.now.board) desk)) }
    {
        self.is_desk(desk)
            && !self.board.has_ended(Actor::Desk(desk))
            && self.board.open_of(desk).is_none()
            && self.board.opened() < self.board.asked()
    }

    fn is_desk(&self, desk: u8) -> bool
        ensures { IsTrue result ↔ IsNumbered self.now.board.desks desk }
    {
        1 <= desk && desk <= self.board.desks()
    }

    // Whether as many batches were opened as were asked for, and all feeds have ended.
    fn is_all_opened(&self) -> bool
        ensures { IsTrue result ↔ (((state_of self.now.board).opened
            ≡ (state_of self.now.board).asked)
            × IsTrue (all_feeds_ended self.now.board.feeds (state_of self.now.board))) }
    {
        // This call tells that there are one or two feeds.
        let _history = self.board.entries();
        self.board.opened() == self.board.asked()
            && self.board.has_ended(Actor::Feed(1))
            && (self.board.feeds() == 1 || self.board.has_ended(Actor::Feed(2)))
    }
}
