//! The bytes that were read and are not cut into lines yet.
ghost use Rattle.std.specs.Prelude.{◌≡◌, ◌<◌, ◌≤◌, [], drop, length, take, IfErr, IfOk, IfSome, OnErr};
ghost use Rattle.ride_ports.specs.Bytes.{Reads};
ghost use Rattle.ride_ports.specs.Count.{KeepsCount};
ghost use Rattle.line_text.specs.declared.line_reader.answers.ReadStop.TheVariants.{SourceFailed};
ghost use Rattle.line_text.specs.inner.line_reader.Reader.{is_fault};

use crate::line_reader::{NoMemory, ReadStop};
use ride_ports::Source;
use std::alloc::Global;
use std::marker::Model;

/// The bytes of one read.
const PIECE: usize = 1 << 14;

/// The bytes of the last read that are not used yet.
#[derive(Drop)]
pub(crate) struct Piece {
    buffer: Vec<u8>,
    start: usize,
    end: usize,
}

impl Model for Piece {
    ghost use Rattle.std.specs.Prelude.{◌≡◌, ◌≤◌, ℕ, List, vec_len, slice_range};

    ghost Value = { List ℕ };

    ghost view = { λ p. slice_range p.buffer.items p.start p.end };

    ghost invariant = { λ p. (vec_len p.buffer ≡ 16384) × (p.start ≤ p.end) × (p.end ≤ 16384) };
}

impl Piece {
    pub(crate) fn new(alloc: Global) -> Result<Piece, NoMemory>
        ensures { IfOk result (λ piece. piece ≡ []) }
    {
        let buffer = vec![in alloc; 0; PIECE]?;
        Ok(Piece {
            buffer,
            start: 0,
            end: 0,
        })
    }

    /// The bytes that are not used yet.
    pub(crate) fn bytes(&self) -> &[u8]
        ensures { result.now ≡ self.now }
    {
        &self.buffer[self.start..self.end]
    }

    /// Forgets the first bytes.
    pub(crate) fn use_up(&mut self, used: usize)
        requires { used ≤ length self.old }
        ensures { self.new ≡ drop used self.old }
    {
        self.start += used;
    }

    /// Reads the next bytes, at most so many, and answers how many they are.
    pub(crate) fn refill<S: Source>(
        &mut self,
        source: &mut S,
        most: usize,
    ) -> Result<usize, ReadStop>
        requires { 0 < most }
        ensures count { IfOk result (λ count. count ≡ length self.new) }
        ensures within { IfOk result (λ count. count ≤ most) }
        ensures bytes { IfOk result (λ _. Reads (S.left source.old) (S.left source.new) self.new) }
        ensures end { IfOk result (λ count. count ≡ 0
            → IfSome (S.left source.new) (λ bytes. bytes ≡ [])) }
        ensures only_faults { IfErr result (λ stop. stop ≡ SourceFailed) }
        ensures failed_stays { OnErr result (S.left source.new ≡ S.left source.old) }
        ensures faults { KeepsCount (is_fault result) (S.faults source.old) (S.faults source.new) }
    {
        let count = read_into(source, self.buffer.as_mut_slice(), PIECE.min(most))?;
        self.start = 0;
        self.end = count;
        Ok(count)
    }
}

/// Reads bytes into the front of a buffer, at most so many; answers how many.
fn read_into<S: Source>(source: &mut S, buffer: &mut [u8], room: usize) -> Result<usize, ReadStop>
    requires some { 0 < room }
    requires within { room ≤ length buffer.old }
    ensures same_length { length buffer.new ≡ length buffer.old }
    ensures within { IfOk result (λ count. count ≤ room) }
    ensures bytes { IfOk result (λ count.
        Reads (S.left source.old) (S.left source.new) (take count buffer.new)) }
    ensures end { IfOk result (λ count. count ≡ 0
        → IfSome (S.left source.new) (λ bytes. bytes ≡ [])) }
    ensures only_faults { IfErr result (λ stop. stop ≡ SourceFailed) }
    ensures failed_stays { OnErr result (S.left source.new ≡ S.left source.old) }
    ensures faults { KeepsCount (is_fault result) (S.faults source.old) (S.faults source.new) }
{
    match source.read(&mut buffer[..room]) {
        Ok(count) => Ok(count),
        Err(_) => Err(ReadStop::SourceFailed),
    }
}
