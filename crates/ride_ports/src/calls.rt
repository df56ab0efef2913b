//! The numbered calls of a form over memory.
ghost use Rattle.std.specs.Prelude.{◌≡◌, ◌<◌, ◌≤◌, IfOk, is_err};
ghost use Rattle.ride_ports.specs.inner.Calls.{after_call, ArePieces, fails_next, most_bytes, most_bytes_at, no_call};
ghost use Rattle.ride_ports.specs.Count.{most_count};
ghost use Rattle.ride_ports.specs.inner.Count.{raised};

use crate::sources::Failed;
use std::marker::Model;

/// The calls that were made, those that fail, and the most bytes that each of the others moves.
#[derive(Drop)]
pub(crate) struct Calls<'a> {
    pieces: &'a [usize],
    failing: &'a [u64],
    made: u64,
    faults: u64,
}

impl<'a> Model for Calls<'a> {
    ghost use Rattle.std.specs.Prelude.{◌≤◌};
    ghost use Rattle.ride_ports.specs.inner.Calls.{ArePieces, CallState};
    ghost use Rattle.ride_ports.specs.Count.{most_count};

    ghost Value = { CallState };

    ghost view = { λ c.
        record {
          pieces = c.pieces.now;
          failing = c.failing.now;
          made = c.made;
          faults = c.faults;
        } };

    ghost invariant = { λ c. ArePieces c.pieces.now };
}

impl<'a> Calls<'a> {
    pub(crate) fn new(pieces: &'a [usize], failing: &'a [u64]) -> Calls<'a>
        requires { ArePieces pieces.now }
        ensures { result ≡ no_call pieces.now failing.now }
    {
        Calls {
            pieces,
            failing,
            made: 0,
            faults: 0,
        }
    }

    /// The count of faults.
    pub(crate) fn faults(&self) -> u64
        ensures { result ≡ self.now.faults }
    {
        self.faults
    }

    /// Counts the next call. It fails, which is counted too, or it may move so many bytes.
    pub(crate) fn begin(&mut self) -> Result<usize, Failed>
        ensures fails { is_err result ≡ fails_next self.old }
        ensures most { IfOk result (λ n. n ≡ most_bytes self.old) }
        ensures some { IfOk result (λ n. 0 < n) }
        ensures counted { self.new ≡ after_call self.old (fails_next self.old) }
        ensures small { self.old.faults ≤ most_count }
    {
        self.made = self.made.saturating_add(1);
        if self.failing.contains(&self.made) {
            return Err(self.fail());
        }
        Ok(most_bytes_at(self.pieces, self.made))
    }

    /// Counts a fault of the call that began last.
    pub(crate) fn fail(&mut self) -> Failed
        ensures { self.new ≡ record self.old { faults = raised self.old.faults } }
    {
        self.faults = self.faults.saturating_add(1);
        Failed
    }
}

/// The most bytes that the call of this number moves: past the end of the list its last item
/// holds, and an empty list sets no bound.
fn most_bytes_at(pieces: &[usize], call: u64) -> usize
    requires { 0 < call }
    ensures most { result ≡ most_bytes_at pieces.now call }
    ensures some { ArePieces pieces.now → 0 < result }
{
    let index = (call - 1) as usize;
    let piece = pieces.get(index).or(pieces.last());
    piece.copied().unwrap_or(usize::MAX)
}
