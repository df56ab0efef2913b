//! A source over bytes in memory.
ghost use Rattle.std.specs.Prelude.{◌≡◌, ◌↔◌, ◌<◌, ◌≤◌, [], length, min, take, Some, IfOk, OnOk, OnErr, is_err};
ghost use Rattle.ride_ports.specs.Bytes.{Reads};
ghost use Rattle.ride_ports.specs.inner.Calls.{after_call, ArePieces, fails_next, most_bytes, no_call};
ghost use Rattle.ride_ports.specs.Count.{Rose};

use crate::calls::Calls;
use crate::sources::{Failed, Source};
use std::marker::Model;

/// Gives bytes in memory, in pieces of given lengths, and fails at given calls.
#[derive(Drop)]
pub struct MemSource<'a> {
    left: &'a [u8],
    calls: Calls<'a>,
}

impl<'a> Model for MemSource<'a> {
    ghost use Rattle.ride_ports.specs.inner.Memory.{SourceState};

    ghost Value = { SourceState };

    ghost view = { λ s. record { left = s.left.now; calls = s.calls } };
}

impl<'a> MemSource<'a> {
    /// Calls are numbered from 1, and failed ones count. Call k fails where k stands in
    /// `failing`. Else it gives at most item k of `pieces`: past the list's end its last item
    /// holds, and an empty list sets no bound.
    pub fn new(bytes: &'a [u8], pieces: &'a [usize], failing: &'a [u64]) -> MemSource<'a>
        requires { ArePieces pieces.now }
        ensures { result ≡ record { left = bytes.now; calls = no_call pieces.now failing.now } }
    {
        MemSource {
            left: bytes,
            calls: Calls::new(pieces, failing),
        }
    }

    /// What it has left.
    pub(crate) fn left(&self) -> &'a [u8]
        ensures { result.now ≡ self.now.left }
    {
        self.left
    }

    /// Its count of faults.
    pub fn faults(&self) -> u64
        ensures { result ≡ self.now.calls.faults }
    {
        self.calls.faults()
    }
}

impl<'a> Source for MemSource<'a> {
    ghost left = { λ s. Some s.left };

    ghost faults = { λ s. s.calls.faults };

    fn read(&mut self, buffer: &mut [u8]) -> Result<usize, Failed>
        ensures room { IfOk result (λ n. n ≤ length buffer.new) }
        ensures bytes { IfOk result (λ n.
            Reads (Some self.old.left) (Some self.new.left) (take n buffer.new)) }
        ensures end { IfOk result (λ n. 0 < length buffer.new → (n ≡ 0) ↔ (self.old.left ≡ [])) }
        ensures failed_stays { OnErr result (Some self.new.left ≡ Some self.old.left) }
        ensures failed_only_at_fault { OnErr result
            (Rose self.old.calls.faults self.new.calls.faults) }
        ensures ok_counts_none { OnOk result (self.new.calls.faults ≡ self.old.calls.faults) }
        ensures count_never_falls { self.old.calls.faults ≤ self.new.calls.faults }

        // What the lists of the pieces and of the failing calls say.
        ensures fails { is_err result ≡ fails_next self.old.calls }
        ensures count { IfOk result (λ n.
            n ≡ min (min (most_bytes self.old.calls) (length buffer.new)) (length self.old.left)) }
        ensures calls { self.new.calls ≡ after_call self.old.calls (fails_next self.old.calls) }
    {
        let most = self.calls.begin()?;
        let count = most.min(buffer.len()).min(self.left.len());
        let (piece, left) = self.left.split_at(count);
        buffer[..count].copy_from_slice(piece);
        self.left = left;
        Ok(count)
    }
}
