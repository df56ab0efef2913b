//! What gives bytes.
ghost use Rattle.std.specs.Prelude.{◌≡◌, ◌↔◌, ◌<◌, ◌≤◌, ℕ, List, [], length, take, Option, IfSome, IfOk, OnOk, OnErr};
ghost use Rattle.ride_ports.specs.Bytes.{Reads};
ghost use Rattle.ride_ports.specs.Count.{Rose};

/// The outside failed at a read, a write or a name, and counted that.
#[derive(Clone, Copy, Debug, PartialEq, Eq)]
pub struct Failed;

/// What gives bytes, piece by piece.
pub trait Source: Send {
    // The bytes that are not read yet, where the source tells them.
    ghost left: { Self → Option (List ℕ) };

    // The count of faults.
    ghost faults: { Self → ℕ };

    /// Puts the next bytes into the front of the buffer and answers how many they are. On a
    /// buffer that is not empty, 0 is the end.
    fn read(&mut self, buffer: &mut [u8]) -> Result<usize, Failed>
        ensures room { IfOk result (λ n. n ≤ length buffer.new) }
        ensures bytes { IfOk result (λ n.
            Reads (left self.old) (left self.new) (take n buffer.new)) }
        ensures end { IfOk result (λ n. 0 < length buffer.new →
            IfSome (left self.old) (λ bytes. (n ≡ 0) ↔ (bytes ≡ []))) }
        ensures failed_stays { OnErr result (left self.new ≡ left self.old) }
        ensures failed_only_at_fault { OnErr result (Rose (faults self.old) (faults self.new)) }
        ensures ok_counts_none { OnOk result (faults self.new ≡ faults self.old) }
        ensures count_never_falls { faults self.old ≤ faults self.new };
}
