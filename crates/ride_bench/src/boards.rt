//! A board of one vehicle on the road of a small town.
ghost use Rattle.std.specs.Prelude.{◌≡◌, [], IfOk};

use adaptive_roads::Roads;
use board_core::Board;
use plan_trials::trial_town::fleet;
use ride_model::{NoMemory, Settings};
use std::alloc::Global;

const SETTINGS: Settings = Settings {
    batch: 1,
    penalty: 3600,
    drive: 1,
    wait: 1,
    lead: 0,
    dwell: 30,
    log: 1,
};

/// A board of two feeds and one desk, on which nothing happened yet.
pub(crate) fn board(alloc: Global, roads: &Roads) -> Result<Board<'_>, NoMemory>
    requires { roads.now.nodes ≡ 4 }
    ensures feeds { IfOk result (λ board. board.feeds ≡ 2) }
    ensures history { IfOk result (λ board. board.history ≡ []) }
{
    Board::new(alloc, roads, SETTINGS, fleet(alloc, roads)?, 2, 1)
}
