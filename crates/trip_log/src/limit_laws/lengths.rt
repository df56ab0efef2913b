//! A history has few entries beside its commands, and no long line.
ghost use Rattle.std.specs.Prelude.{◌≡◌, ◌≤◌, ◌+◌, ◌*◌, ℕ, List, length, All};
ghost use Rattle.line_text.specs.Lines.{lines_of};
ghost use Rattle.ride_model.specs.declared.entry.Entry.{Entry};
ghost use Rattle.ride_model.specs.History.{fed_commands};
ghost use Rattle.ride_model.specs.Legal.{IsLegal};
ghost use Rattle.ride_model.specs.declared.limits.TheConstants.{MOST_BATCHES};
ghost use Rattle.ride_model.specs.State.{State};
ghost use Rattle.ride_model.specs.Text.{HasText, IsOneOrTwo, entry_line, text_of};
ghost use Rattle.model_laws.specs.history_laws.Start.{IsStart};
ghost use Rattle.model_laws.specs.inner.history_laws.Start.{fed_total};
ghost use Rattle.trip_log.specs.inner.limit_laws.Longest.{longest_batch, longest_end, longest_fed, longest_head, longest_line, most_ends};

/// The commands of a legal history are those of its feeds.
pub fn commands_come_from_feeds()
    ensures one_feed { (desks : ℕ) (start : State) (entries : List Entry)
        → IsLegal 1 desks start entries
        → fed_total entries ≡ length (fed_commands 1 entries) }
    ensures two_feeds { (desks : ℕ) (start : State) (entries : List Entry)
        → IsLegal 2 desks start entries
        → fed_total entries
        ≡ length (fed_commands 1 entries) + length (fed_commands 2 entries) }
{}

/// A legal history has an entry for each command, at most two for each batch that may be asked for, and at most one for
/// the end of each feed and desk.
pub fn entries_are_few()
    ensures { (feeds desks : ℕ) (start : State) (entries : List Entry) → IsStart start
        → IsOneOrTwo feeds → IsOneOrTwo desks → IsLegal feeds desks start entries
        → length entries ≤ fed_total entries + 2 * MOST_BATCHES + most_ends }
{}

/// The text of a legal history has so many bytes at most for each command, for each batch that may be asked for, for each end
/// and for the head.
pub fn texts_are_short()
    ensures { (feeds desks : ℕ) (start : State) (entries : List Entry) → IsStart start
        → IsLegal feeds desks start entries → HasText start.settings.log feeds desks entries
        → length (text_of start.settings.log feeds desks entries)
        ≤ longest_fed * fed_total entries + longest_batch * MOST_BATCHES
        + longest_end * most_ends + longest_head }
{}

/// A text has a line for the head and one for each entry.
pub fn texts_have_a_line_for_each_entry()
    ensures { (log feeds desks : ℕ) (entries : List Entry) → HasText log feeds desks entries
        → length (lines_of (text_of log feeds desks entries)) ≡ length entries + 1 }
{}

/// No line of a legal history is longer than the longest commit's.
pub fn lines_are_short()
    ensures entries { (feeds desks : ℕ) (start : State) (entries : List Entry) → IsStart start
        → IsLegal feeds desks start entries → HasText start.settings.log feeds desks entries
        → All (λ entry. length (entry_line start.settings.log entry) ≤ longest_line + 1)
        entries }
    ensures lines { (feeds desks : ℕ) (start : State) (entries : List Entry) → IsStart start
        → IsLegal feeds desks start entries → HasText start.settings.log feeds desks entries
        → All (λ line. length line ≤ longest_line)
        (lines_of (text_of start.settings.log feeds desks entries)) }
{}
