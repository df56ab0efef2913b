//! What takes bytes.
ghost use Rattle.std.specs.Prelude.{◌≡◌, ◌<◌, ◌≤◌, ℕ, List, length, take, Option, IfOk, OnOk, OnErr, is_err};
ghost use Rattle.ride_ports.specs.Bytes.{Writes, WritesPrefix};
ghost use Rattle.ride_ports.specs.Count.{KeepsCount, Rose};

use crate::sources::Failed;

/// What takes bytes, piece by piece.
pub trait Sink: Send {
    // The bytes that were taken, where the sink tells them.
    ghost written: { Self → Option (List ℕ) };

    // The count of faults.
    ghost faults: { Self → ℕ };

    /// Takes the front of the piece and answers how many bytes that is.
    fn write(&mut self, piece: &[u8]) -> Result<usize, Failed>
        ensures room { IfOk result (λ n. n ≤ length piece.now) }
        ensures progress { IfOk result (λ n. 0 < length piece.now → 0 < n) }
        ensures bytes { IfOk result (λ n.
            Writes (written self.old) (written self.new) (take n piece.now)) }
        ensures failed_stays { OnErr result (written self.new ≡ written self.old) }
        ensures failed_only_at_fault { OnErr result (Rose (faults self.old) (faults self.new)) }
        ensures ok_counts_none { OnOk result (faults self.new ≡ faults self.old) }
        ensures count_never_falls { faults self.old ≤ faults self.new };
}

/// Writes the whole piece, in as many writes as the sink wants.
pub fn write_all<K: Sink>(sink: &mut K, piece: &[u8]) -> Result<(), Failed>
    ensures whole { OnOk result (Writes (K.written sink.old) (K.written sink.new) piece.now) }
    ensures prefix { OnErr result
        (WritesPrefix (K.written sink.old) (K.written sink.new) piece.now) }
    ensures faults { KeepsCount (is_err result) (K.faults sink.old) (K.faults sink.new) }
{
    let mut done = 0;
    while done < piece.len() {
        done += sink.write(&piece[done..])?;
    }
    Ok(())
}
