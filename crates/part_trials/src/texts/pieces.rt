//! The lengths of pieces, as tables of trials have them.
ghost use Rattle.ride_ports.specs.inner.Calls.{ArePieces};

use std::process::Abort;

/// No piece is empty.
pub fn expect_pieces(rt: &impl Abort, pieces: &[usize])
    ensures { ArePieces pieces.now }
{
    assert!(rt; pieces.iter().all(|count| *count > 0));
}
