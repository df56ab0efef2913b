//! A sink into memory.
ghost use Rattle.std.specs.Prelude.{◌≡◌, ◌<◌, ◌≤◌, ◌-◌, ◌++◌, [], length, min, take, Some, IfOk, OnOk, OnErr, is_err};
ghost use Rattle.ride_ports.specs.Bytes.{Writes};
ghost use Rattle.ride_ports.specs.inner.Calls.{after_call, ArePieces, most_bytes, no_call};
ghost use Rattle.ride_ports.specs.Count.{Rose};
ghost use Rattle.ride_ports.specs.inner.Memory.{refuses_next};

use crate::NoMemory;
use crate::calls::Calls;
use crate::sinks::Sink;
use crate::sources::Failed;
use std::alloc::Global;
use std::marker::Model;

/// Takes bytes into memory up to its room, in pieces of given lengths, and fails at given calls
/// and where it is full.
#[derive(Drop)]
pub struct MemSink<'a> {
    written: Vec<u8>,
    room: usize,
    calls: Calls<'a>,
}

impl<'a> Model for MemSink<'a> {
    ghost use Rattle.std.specs.Prelude.{◌≤◌, vec_capacity, length};
    ghost use Rattle.ride_ports.specs.inner.Memory.{SinkState};

    ghost Value = { SinkState };

    ghost view = { λ s. record { written = s.written.items; room = s.room; calls = s.calls } };

    ghost invariant = { λ s.
        (length s.written.items ≤ s.room) × (s.room ≤ vec_capacity s.written) };
}

impl<'a> MemSink<'a> {
    /// Takes memory for the whole room. Calls are numbered from 1, and failed ones count. Call k
    /// fails where k stands in `failing`. Else it takes at most item k of `pieces`: past the
    /// list's end its last item holds, and an empty list sets no bound.
    pub fn new(
        alloc: Global,
        room: usize,
        pieces: &'a [usize],
        failing: &'a [u64],
    ) -> Result<MemSink<'a>, NoMemory>
        requires { ArePieces pieces.now }
        ensures { IfOk result (λ sink.
            sink ≡ record { written = []; room = room; calls = no_call pieces.now failing.now }) }
    {
        Ok(MemSink {
            written: Vec::with_capacity(alloc, room)?,
            room,
            calls: Calls::new(pieces, failing),
        })
    }

    /// What it took.
    pub fn written(&self) -> &[u8]
        ensures { result.now ≡ self.now.written }
    {
        self.written.as_slice()
    }

    /// Its count of faults.
    pub fn faults(&self) -> u64
        ensures { result ≡ self.now.calls.faults }
    {
        self.calls.faults()
    }
}

impl<'a> Sink for MemSink<'a> {
    ghost written = { λ s. Some s.written };

    ghost faults = { λ s. s.calls.faults };

    fn write(&mut self, piece: &[u8]) -> Result<usize, Failed>
        ensures room { IfOk result (λ n. n ≤ length piece.now) }
        ensures progress { IfOk result (λ n. 0 < length piece.now → 0 < n) }
        ensures bytes { IfOk result (λ n.
            Writes (Some self.old.written) (Some self.new.written) (take n piece.now)) }
        ensures failed_stays { OnErr result (Some self.new.written ≡ Some self.old.written) }
        ensures failed_only_at_fault { OnErr result
            (Rose self.old.calls.faults self.new.calls.faults) }
        ensures ok_counts_none { OnOk result (self.new.calls.faults ≡ self.old.calls.faults) }
        ensures count_never_falls { self.old.calls.faults ≤ self.new.calls.faults }

        // What the room and the lists of the pieces and of the failing calls say.
        ensures fails { is_err result ≡ refuses_next self.old }
        ensures count { IfOk result (λ n.
            n ≡ min (min (most_bytes self.old.calls) (length piece.now))
            (self.old.room - length self.old.written)) }
        ensures calls { self.new.calls ≡ after_call self.old.calls (refuses_next self.old) }
        ensures room_stays { self.new.room ≡ self.old.room }
    {
        let most = self.calls.begin()?;
        let room = self.room - self.written.len();
        if room == 0 {
            return Err(self.calls.fail());
        }
        let count = most.min(piece.len()).min(room);
        self.written.extend_from_slice(&piece[..count]).unwrap();
        Ok(count)
    }
}
