//! What the actors of a session share.
use fleet_board::SharedBoard;
use std::alloc::Global;

/// What all actors of a session share: what starts threads and waits, where memory is taken, the board, the gate, and the version of the
/// log.
#[derive(Drop)]
pub(crate) struct Shared<'a, 'r, R, G> {
    pub(crate) rt: &'a R,
    pub(crate) alloc: Global,
    pub(crate) board: &'a SharedBoard<'r>,
    pub(crate) gate: &'a G,
    pub(crate) log: u8,
}
