//! What gives sources by their names.
ghost use Rattle.std.specs.Prelude.{◌≡◌, ◌<◌, ◌≤◌, ◌+◌, ◌++◌, ◌∷◌, [], ℕ, List, length, Option, IfOk, OnOk, OnErr, string_bytes};
ghost use Rattle.ride_ports.specs.Count.{Rose};
ghost use Rattle.ride_ports.specs.Contents.{Contents, GivenBack, given_back};
ghost use Rattle.ride_ports.specs.inner.Contents.{IsContentOf};

use crate::sources::{Failed, Source};

/// What brings sources by their names, at most eight in its life.
pub trait Shelf {
    type Src: Source;

    // The bytes of each name, where the shelf tells them.
    ghost contents: { Self → Option Contents };

    // The count of faults.
    ghost faults: { Self → ℕ };

    // The names that were asked for, in order.
    ghost asked: { Self → List (List ℕ) };

    // How many of them it brought.
    ghost brought: { Self → ℕ };

    // The sources that were given back, in order.
    ghost back: { Self → List GivenBack };

    /// Brings the source of this name, none of whose bytes is read yet. A name without bytes is
    /// a fault.
    fn bring(&mut self, name: String) -> Result<Self::Src, Failed>
        requires { length (asked self.old) < 8 }
        ensures asked { asked self.new ≡ asked self.old ++ string_bytes name ∷ [] }
        ensures counted { OnOk result (brought self.new ≡ brought self.old + 1) }
        ensures failed_counts_none { OnErr result (brought self.new ≡ brought self.old) }
        ensures bytes { IfOk result (λ src.
            IsContentOf (contents self.old) (string_bytes name) (Self.Src.left src)) }
        ensures unharmed { IfOk result (λ src. Self.Src.faults src ≡ 0) }
        ensures failed_only_at_fault { OnErr result (Rose (faults self.old) (faults self.new)) }
        ensures ok_counts_none { OnOk result (faults self.new ≡ faults self.old) }
        ensures count_never_falls { faults self.old ≤ faults self.new }
        ensures back_stays { back self.new ≡ back self.old }
        ensures contents_stay { contents self.new ≡ contents self.old };

    /// Takes a source back. A fault of the source is one of the shelf.
    fn give_back(&mut self, src: Self::Src)
        requires { length (back self.old) < 8 }
        ensures kept { back self.new ≡
            back self.old ++ given_back (Self.Src.faults src) (Self.Src.left src) ∷ [] }
        ensures fault_rises { 0 < Self.Src.faults src → Rose (faults self.old) (faults self.new) }
        ensures sound_counts_none { Self.Src.faults src ≡ 0 → faults self.new ≡ faults self.old }
        ensures count_never_falls { faults self.old ≤ faults self.new }
        ensures asked_stays { asked self.new ≡ asked self.old }
        ensures brought_stays { brought self.new ≡ brought self.old }
        ensures contents_stay { contents self.new ≡ contents self.old };
}
