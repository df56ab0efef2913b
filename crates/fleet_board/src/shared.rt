//! A board that keeps its history for a turn lock.
ghost use Rattle.std.specs.Prelude.{[]};
ghost use Rattle.fleet_board.specs.inner.Passes.{maker_of};

use board_core::Board;
use ride_model::Entry;
use turn_lock::{Chronicle, Pass, TurnLock};

/// A board whose history is that of its entries. It began with the same start, feeds and desks, and nothing in its history.
#[derive(Drop)]
pub struct Kept<'r> {
    pub(crate) board: Board<'r>,
}

impl<'r> Chronicle for Kept<'r> {
    type Root = Board<'r>;

    type Item = Entry;

    ghost root = { λ k. record k.board { history = []; spare = 0 } };

    ghost history = { λ k. k.board.history };

    ghost maker = { maker_of };
}

/// The right of one actor, or of the scribe, to use a shared board. It may go to another thread.
pub type ActorPass<'r> = Pass<Kept<'r>>;

/// A board that threads share by reference, each with its own pass.
#[derive(Drop)]
pub struct SharedBoard<'r> {
    pub(crate) lock: TurnLock<Kept<'r>>,
}
