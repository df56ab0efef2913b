//! The workers that price batches.
ghost use Rattle.std.specs.Prelude.{◌≤◌};

use ride_model::limits::MOST_WORKERS;
use std::thread::{Threads, available_parallelism};

/// As many workers as there are processors, up to the most that a desk may have: each has a scratch as large as the map.
pub fn workers_at_hand(rt: &impl Threads) -> usize
    ensures least { 1 ≤ result }
    ensures most { result ≤ MOST_WORKERS }
{
    match available_parallelism(rt) {
        Ok(processors) => processors.get().min(MOST_WORKERS as usize),
        Err(_) => 1,
    }
}
