//! What the bytes of a log tell.
ghost use Rattle.std.specs.Prelude.{◌≡◌, ◌++◌, ◌∷◌, [], ℕ, List, map};
ghost use Rattle.line_text.specs.Lines.{ended_lines, rest_of};
ghost use Rattle.ride_model.specs.declared.entry.Entry.{Entry};
ghost use Rattle.ride_model.specs.Text.{HasLine, HasText, IsOneOrTwo, entry_line, entry_lines, head_line, text_of};
ghost use Rattle.trip_log.specs.inner.Cuts.{front_of};

/// Equal head lines have equal numbers.
pub fn heads_differ()
    ensures { (log feeds desks other_log other_feeds other_desks : ℕ)
        → IsOneOrTwo log → IsOneOrTwo feeds → IsOneOrTwo desks
        → IsOneOrTwo other_log → IsOneOrTwo other_feeds → IsOneOrTwo other_desks
        → head_line log feeds desks ≡ head_line other_log other_feeds other_desks
        → (log ≡ other_log) × (feeds ≡ other_feeds) × (desks ≡ other_desks) }
{}

/// Entries with equal lines are equal.
pub fn lines_differ()
    ensures { (log : ℕ) (entry other : Entry) → IsOneOrTwo log → HasLine log entry
        → HasLine log other
        → entry_line log entry ≡ entry_line log other → entry ≡ other }
{}

/// Histories with equal texts are equal, and so are the numbers of their heads.
pub fn texts_differ()
    ensures { (log feeds desks other_log other_feeds other_desks : ℕ) (entries others : List Entry)
        → HasText log feeds desks entries → HasText other_log other_feeds other_desks others
        → text_of log feeds desks entries ≡ text_of other_log other_feeds other_desks others
        → (log ≡ other_log) × (feeds ≡ other_feeds) × (desks ≡ other_desks) × (entries ≡ others) }
{}

/// A text tells its lines one by one: where another text goes on after it, the heads are equal, the other's entries go on
/// after its entries, and what follows is their lines.
pub fn texts_go_on_by_lines()
    ensures { (log feeds desks other_log other_feeds other_desks : ℕ)
        (entries others : List Entry) (rest : List ℕ)
        → HasText log feeds desks entries → HasText other_log other_feeds other_desks others
        → text_of other_log other_feeds other_desks others ≡ text_of log feeds desks entries ++ rest
        → (log ≡ other_log) × (feeds ≡ other_feeds) × (desks ≡ other_desks)
        × ((later : List Entry) × (others ≡ entries ++ later) × (rest ≡ entry_lines log later)) }
{}

/// Cut at its LFs, a text is the head line and one line for each entry, each without its LF, and nothing after them.
pub fn texts_are_cut_into_lines()
    ensures lines { (log feeds desks : ℕ) (entries : List Entry) → HasText log feeds desks entries
        → ended_lines (text_of log feeds desks entries)
        ≡ front_of (head_line log feeds desks)
        ∷ map (λ entry. front_of (entry_line log entry)) entries }
    ensures rest { (log feeds desks : ℕ) (entries : List Entry) → HasText log feeds desks entries
        → rest_of (text_of log feeds desks entries) ≡ [] }
{}
