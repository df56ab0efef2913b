//! The roads of a city.
ghost use Rattle.std.specs.Prelude.{◌≡◌, ◌<◌, ◌≤◌, ◌*◌, ℕ, List, [], ◌∷◌, ◌++◌, length, OnOk, IfOk};
ghost use Rattle.std.specs.List.{flat_map, range_with_len};
ghost use Rattle.city_maker.specs.Roads.{neighbour_pairs, pairs_at};
ghost use Rattle.city_maker.specs.inner.Growth.{HasJoined};

use crate::draws::Draws;
use ride_model::{NoMemory, RoadArc};
use std::alloc::Global;

/// The least seconds of an arc.
const LEAST_SECONDS: u32 = 30;
/// How many seconds an arc may take, from the least on.
const SECONDS_RANGE: u32 = 91;

/// The arcs so far, and the draws that are left.
#[derive(Drop)]
pub struct Roads {
    pub arcs: Vec<RoadArc>,
    pub draws: Draws,
}

/// The roads of a square grid with so many rows and columns.
pub fn grid(alloc: Global, side: u32, seed: u32) -> Result<Roads, NoMemory>
    requires { side ≤ 100 }
    ensures { IfOk result (HasJoined seed (neighbour_pairs side)) }
{
    let mut roads = Roads {
        arcs: Vec::new(alloc),
        draws: Draws::new(seed),
    };
    for row in 0..side {
        roads.join_row(side, row)?;
    }
    Ok(roads)
}

impl Roads {
    // Joins each node of a row to its right neighbour and to its lower one.
    fn join_row(&mut self, side: u32, row: u32) -> Result<(), NoMemory>
        requires side { side ≤ 100 }
        requires row { row < side }
        ensures { OnOk result ((seed : ℕ) (pairs : List (ℕ × ℕ)) → HasJoined seed pairs self.old
            → HasJoined seed (pairs ++ flat_map (pairs_at side row) (range_with_len 0 side))
            self.new) }
    {
        for column in 0..side {
            self.join_neighbours(side, row, column)?;
        }
        Ok(())
    }

    // Joins a node to its right neighbour and then to its lower one, where there is one.
    fn join_neighbours(&mut self, side: u32, row: u32, column: u32) -> Result<(), NoMemory>
        requires side { side ≤ 100 }
        requires row { row < side }
        requires column { column < side }
        ensures { OnOk result ((seed : ℕ) (pairs : List (ℕ × ℕ)) → HasJoined seed pairs self.old
            → HasJoined seed (pairs ++ pairs_at side row column) self.new) }
    {
        let node = row * side + column + 1;
        if column + 1 < side {
            self.join(node, node + 1)?;
        }
        if row + 1 < side {
            self.join(node, node + side)?;
        }
        Ok(())
    }

    // Joins two nodes in both directions.
    fn join(&mut self, first: u32, second: u32) -> Result<(), NoMemory>
        ensures { OnOk result ((seed : ℕ) (pairs : List (ℕ × ℕ)) → HasJoined seed pairs self.old
            → HasJoined seed (pairs ++ (first, second) ∷ []) self.new) }
    {
        let seconds = LEAST_SECONDS + self.draws.draw(SECONDS_RANGE);
        self.arcs.push(RoadArc {
            tail: first,
            head: second,
            seconds,
        })?;
        self.arcs.push(RoadArc {
            tail: second,
            head: first,
            seconds,
        })?;
        Ok(())
    }
}
