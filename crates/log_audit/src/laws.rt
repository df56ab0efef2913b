//! What holds of every log.
ghost use Rattle.std.specs.Prelude.{◌≡◌, ◌↔◌, ◌≤◌, ℕ, List, length, All, Result, Ok};
ghost use Rattle.line_text.specs.Lines.{lines_of};
ghost use Rattle.line_text.specs.line_reader.Limits.{IsTooLong};
ghost use Rattle.ride_model.specs.declared.entry.Entry.{Entry};
ghost use Rattle.ride_model.specs.History.{fed_commands};
ghost use Rattle.ride_model.specs.Legal.{IsLegal, IsLegalEntry, IsNumbered, replay};
ghost use Rattle.ride_model.specs.State.{State};
ghost use Rattle.ride_model.specs.Text.{HasText, text_of};
ghost use Rattle.command_lines.specs.Limits.{feed_limits};
ghost use Rattle.model_laws.specs.history_laws.Start.{IsStart};
ghost use Rattle.board_core.specs.declared.board.totals.Totals.{Totals};
ghost use Rattle.board_core.specs.Totals.{AreTotalsOf};
ghost use Rattle.log_audit.specs.declared.verdict.AuditFault.{AuditFault};
ghost use Rattle.log_audit.specs.declared.verdict.Verdict.{Verdict};
ghost use Rattle.log_audit.specs.declared.verdict.Verdict.TheVariants.{Yes};
ghost use Rattle.log_audit.specs.declared.verdict.Why.{Why};
ghost use Rattle.log_audit.specs.Audit.{IsAnswer};
ghost use Rattle.log_audit.specs.declared.limits.TheConstants.{LOG_LIMITS};
ghost use Rattle.log_audit.specs.Words.{Meets};

/// An entry is legal after a legal history exactly where it meets each word.
pub fn words_together_are_legality()
    ensures { (feeds desks : ℕ) (start : State) (entries : List Entry) (entry : Entry)
        → IsStart start
        → IsLegal feeds desks start entries
        → IsLegalEntry feeds desks (replay start entries) entry
        ↔ ((why : Why) → Meets why feeds desks (replay start entries) entry.actor entry.event) }
{}

/// A log has at most one answer.
pub fn a_log_has_one_answer()
    ensures { (start : State) (bytes : List ℕ) (answer other : Result Verdict AuditFault)
        → IsStart start
        → IsAnswer start bytes answer → IsAnswer start bytes other → other ≡ answer }
{}

/// A log is within the limits of an audit where no feed gave more commands than it may have lines, and no line of a log
/// is too long.
pub fn every_log_is_within_limits()
    ensures text { (feeds desks : ℕ) (start : State) (entries : List Entry) → IsStart start
        → IsLegal feeds desks start entries → HasText start.settings.log feeds desks entries
        → ((feed : ℕ) → IsNumbered feeds feed
        → length (fed_commands feed entries) ≤ feed_limits.lines)
        → IsTooLong LOG_LIMITS (text_of start.settings.log feeds desks entries) → ⊥ }
    ensures lines { (feeds desks : ℕ) (start : State) (entries : List Entry) → IsStart start
        → IsLegal feeds desks start entries → HasText start.settings.log feeds desks entries
        → All (λ line. length line ≤ LOG_LIMITS.line)
        (lines_of (text_of start.settings.log feeds desks entries)) }
{}

/// So an audit of such a log answers yes, with the history's totals.
pub fn such_a_log_is_answered_yes()
    ensures { (feeds desks : ℕ) (start : State) (entries : List Entry) (totals : Totals)
        (answer : Result Verdict AuditFault) → IsStart start
        → IsLegal feeds desks start entries → HasText start.settings.log feeds desks entries
        → ((feed : ℕ) → IsNumbered feeds feed
        → length (fed_commands feed entries) ≤ feed_limits.lines)
        → AreTotalsOf feeds desks start entries totals
        → IsAnswer start (text_of start.settings.log feeds desks entries) answer
        → answer ≡ Ok (Yes totals) }
{}
