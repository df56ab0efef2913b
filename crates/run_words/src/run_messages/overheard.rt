//! A sink that remembers the first bytes that it was to take, for what is said on standard error.
use arrayvec::ArrayVec;
use ride_ports::{Failed, Sink};

/// Takes bytes as the sink that it holds, and remembers the first of them, and of those of a write that failed.
#[derive(Drop)]
pub struct Overheard<K> {
    sink: K,
    first: ArrayVec<u8, 48>,
}

impl<K> Overheard<K> {
    pub fn new(sink: K) -> Overheard<K> {
        Overheard {
            sink,
            first: ArrayVec::new(),
        }
    }

    /// Returns the sink.
    pub fn sink(&self) -> &K {
        &self.sink
    }

    /// Returns the first bytes that were taken or were to be taken by a write that failed, 48 at most.
    pub fn first(&self) -> &[u8] {
        self.first.as_slice()
    }
}

impl<K: Sink> Sink for Overheard<K> {
    ghost written = { λ s. K.written s.sink };

    ghost faults = { λ s. K.faults s.sink };

    fn write(&mut self, piece: &[u8]) -> Result<usize, Failed> {
        match self.sink.write(piece) {
            Ok(taken) => {
                remember(&mut self.first, &piece[..taken]);
                Ok(taken)
            }
            Err(failed) => {
                remember(&mut self.first, piece);
                Err(failed)
            }
        }
    }
}

// Remembers as much of a piece as there is room for.
fn remember(first: &mut ArrayVec<u8, 48>, piece: &[u8]) {
    for byte in piece.iter() {
        if first.try_push(*byte).is_err() {
            return;
        }
    }
}
