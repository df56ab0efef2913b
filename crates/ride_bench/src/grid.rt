// Generated maps: crossings on a grid, of whose streets a part is there, and arcs that are drawn.
ghost use Rattle.std.specs.Prelude.{◌≡◌, ◌≤◌, ◌<◌, ◌+◌, length, All, IfOk};
ghost use Rattle.plan_trials.specs.trial_town.Streets.{IsPlace, AreStreets};

use ride_model::{Network, RoadArc};
use std::alloc::{AllocError, Global};

/// So many crossings, with so many in a line, and so many of ten streets.
#[derive(Clone, Copy)]
pub(crate) struct Grid {
    pub(crate) nodes: u32,
    pub(crate) width: u32,
    pub(crate) kept: u32,
}

/// A number that depends on both, as evenly spread as a draw.
pub(crate) fn mix(a: u32, b: u32) -> u32 {
    let mut x = a.wrapping_mul(2_654_435_761) ^ b.wrapping_mul(2_246_822_519);
    x ^= x >> 15;
    x = x.wrapping_mul(2_654_435_761);
    x ^ (x >> 13)
}

/// Adds a street in both directions, with 2 to 60 seconds, unless the map leaves it out.
fn add_street(arcs: &mut Vec<RoadArc>, grid: Grid, from: u32, to: u32) -> Result<(), AllocError>
    requires from { IsPlace grid.nodes from }
    requires to { IsPlace grid.nodes to }
    requires streets { AreStreets grid.nodes arcs.old.items }
    ensures streets { AreStreets grid.nodes arcs.new.items }
    ensures few { length arcs.new.items ≤ length arcs.old.items + 2 }
{
    let drawn = mix(from, to);
    if drawn % 10 >= grid.kept {
        return Ok(());
    }
    let seconds = 2 + (drawn >> 8) % 59;
    arcs.push(RoadArc {
        tail: from,
        head: to,
        seconds,
    })?;
    arcs.push(RoadArc {
        tail: to,
        head: from,
        seconds,
    })?;
    Ok(())
}

/// The map of a grid. A crossing has at most two streets to later ones, so there are never too many arcs.
pub(crate) fn generate(alloc: Global, grid: Grid) -> Result<Network, AllocError>
    requires nodes { (1 ≤ grid.nodes) × (grid.nodes ≤ 500000) }
    requires width { (1 ≤ grid.width) × (grid.width ≤ 500000) }
    ensures { IfOk result (λ map. map.nodes ≡ grid.nodes) }
{
    let mut arcs = Vec::new(alloc);
    for place in 0..grid.nodes {
        let node = place + 1;
        if node % grid.width != 0 && node < grid.nodes {
            add_street(&mut arcs, grid, node, node + 1)?;
        }
        if node + grid.width <= grid.nodes {
            add_street(&mut arcs, grid, node, node + grid.width)?;
        }
    }
    Ok(Network::new(grid.nodes, arcs))
}

/// A map of arcs between nodes that are drawn.
pub(crate) fn drawn(alloc: Global, nodes: u32, count: u32) -> Result<Network, AllocError>
    requires nodes { (1 ≤ nodes) × (nodes ≤ 500000) }
    requires count { count ≤ 2000000 }
    ensures { IfOk result (λ map. map.nodes ≡ nodes) }
{
    let mut arcs = Vec::new(alloc);
    for place in 0..count {
        let tail = mix(place, 1);
        let head = mix(place, 2);
        arcs.push(RoadArc {
            tail: 1 + tail % nodes,
            head: 1 + head % nodes,
            seconds: 2 + mix(place, 3) % 59,
        })?;
    }
    Ok(Network::new(nodes, arcs))
}
