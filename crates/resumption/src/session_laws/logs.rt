//! Sessions and audits together: what one writes the other takes.
ghost use Rattle.std.specs.Prelude.{◌≡◌, ◌++◌, ℕ, List, Option, Result, Ok};
ghost use Rattle.ride_ports.specs.declared.outcome.Ran.{Ran};
ghost use Rattle.command_lines.specs.Limits.{new_feed};
ghost use Rattle.ride_model.specs.declared.entry.Entry.{Entry};
ghost use Rattle.ride_model.specs.State.{State};
ghost use Rattle.ride_model.specs.Text.{text_of};
ghost use Rattle.board_core.specs.declared.board.totals.Totals.{Totals};
ghost use Rattle.board_core.specs.Totals.{AreTotalsOf};
ghost use Rattle.session_run.specs.Replay.{IsReplay};
ghost use Rattle.live_sessions.specs.Resuming.{HasResumed, HaveFewCommands};
ghost use Rattle.live_sessions.specs.Serving.{FeedRun, HasServed, IsFeedOf};
ghost use Rattle.log_audit.specs.declared.verdict.AuditFault.{AuditFault};
ghost use Rattle.log_audit.specs.declared.verdict.Verdict.{Verdict};
ghost use Rattle.log_audit.specs.declared.verdict.Verdict.TheVariants.{Yes};
ghost use Rattle.log_audit.specs.Audit.{IsAnswer};
ghost use Rattle.line_text.specs.line_reader.Limits.{IsTooLong};
ghost use Rattle.log_audit.specs.declared.limits.TheConstants.{LOG_LIMITS};

/// The log of a replay, that of a service, and that of a session that went on from such a log, is within the limits of an audit,
/// which answers yes with its totals. So it is however the session ended, and however often it went on.
pub fn logs_of_sessions_can_be_audited()
    ensures replayed { (start : State) (ran : Ran) (feed : Option (List ℕ))
        (taken : List ℕ) (entries : List Entry)
        → IsReplay start ran feed taken entries
        → IsTooLong LOG_LIMITS (text_of start.settings.log 1 1 entries) → ⊥ }
    ensures replay_audited { (start : State) (ran : Ran) (feed : Option (List ℕ))
        (taken : List ℕ) (entries : List Entry)
        (totals : Totals) (answer : Result Verdict AuditFault)
        → IsReplay start ran feed taken entries
        → AreTotalsOf 1 1 start entries totals
        → IsAnswer start (text_of start.settings.log 1 1 entries) answer
        → answer ≡ Ok (Yes totals) }
    ensures served { (start : State) (desks : ℕ) (riders drivers : FeedRun) (ran : Ran)
        (riders_taken drivers_taken : List ℕ) (entries : List Entry)
        → HasServed start 2 desks ran entries
        → IsFeedOf (new_feed start.settings.log) 1 riders ran riders_taken entries
        → IsFeedOf (new_feed start.settings.log) 2 drivers ran drivers_taken entries
        → IsTooLong LOG_LIMITS (text_of start.settings.log 2 desks entries) → ⊥ }
    ensures service_audited { (start : State) (desks : ℕ) (riders drivers : FeedRun) (ran : Ran)
        (riders_taken drivers_taken : List ℕ) (entries : List Entry)
        (totals : Totals) (answer : Result Verdict AuditFault)
        → HasServed start 2 desks ran entries
        → IsFeedOf (new_feed start.settings.log) 1 riders ran riders_taken entries
        → IsFeedOf (new_feed start.settings.log) 2 drivers ran drivers_taken entries
        → AreTotalsOf 2 desks start entries totals
        → IsAnswer start (text_of start.settings.log 2 desks entries) answer
        → answer ≡ Ok (Yes totals) }
    ensures replay_few { (start : State) (ran : Ran) (feed : Option (List ℕ))
        (taken : List ℕ) (entries : List Entry)
        → IsReplay start ran feed taken entries → HaveFewCommands 1 entries }
    ensures service_few { (start : State) (desks : ℕ) (riders drivers : FeedRun) (ran : Ran)
        (riders_taken drivers_taken : List ℕ) (entries : List Entry)
        → HasServed start 2 desks ran entries
        → IsFeedOf (new_feed start.settings.log) 1 riders ran riders_taken entries
        → IsFeedOf (new_feed start.settings.log) 2 drivers ran drivers_taken entries
        → HaveFewCommands 2 entries }
    ensures resumption_few { (start : State) (feeds desks : ℕ) (before : List Entry)
        (riders drivers : FeedRun) (ran : Ran) (written_before written_after : Option (List ℕ))
        → HaveFewCommands feeds before
        → (resumed : HasResumed start feeds desks before riders drivers ran
        written_before written_after) → HaveFewCommands feeds (before ++ resumed.more) }
    ensures resumed { (start : State) (feeds desks : ℕ) (before : List Entry)
        (riders drivers : FeedRun) (ran : Ran) (written_before written_after : Option (List ℕ))
        → HaveFewCommands feeds before
        → (resumed : HasResumed start feeds desks before riders drivers ran
        written_before written_after)
        → IsTooLong LOG_LIMITS
        (text_of start.settings.log feeds desks (before ++ resumed.more)) → ⊥ }
    ensures resumption_audited { (start : State) (feeds desks : ℕ) (before : List Entry)
        (riders drivers : FeedRun) (ran : Ran) (written_before written_after : Option (List ℕ))
        (totals : Totals) (answer : Result Verdict AuditFault)
        → HaveFewCommands feeds before
        → (resumed : HasResumed start feeds desks before riders drivers ran
        written_before written_after)
        → AreTotalsOf feeds desks start (before ++ resumed.more) totals
        → IsAnswer start (text_of start.settings.log feeds desks (before ++ resumed.more)) answer
        → answer ≡ Ok (Yes totals) }
{}
