//! Where two climbs meet: one pass over the levels, for the least sum of both labels.
//!
//! A least way from one node to another climbs to its highest node and descends from there. The climb from its beginning labels that
//! node, and so does the climb from its end, against the arcs.
ghost use Rattle.std.specs.Prelude.{◌≡◌, ℕ, ◌≤◌, length};
ghost use Rattle.adaptive_roads.specs.inner.road_hierarchy.Marks.{node_at};
ghost use Rattle.adaptive_roads.specs.inner.road_hierarchy.Sweep.{never};
ghost use Rattle.adaptive_roads.specs.inner.road_hierarchy.Meet.{IsMeeting};

use crate::road_hierarchy::sweep::NEVER;

/// The least sum of both labels of a level, `NEVER` where no sum is below it.
pub(crate) fn least_sum(ups: &[u64], downs: &[u64]) -> u64
    requires sized { length downs.now ≡ length ups.now }
    requires ups { (level : ℕ) → node_at ups.now level ≤ never }
    requires downs { (level : ℕ) → node_at downs.now level ≤ never }
    ensures { IsMeeting ups.now downs.now (length ups.now) result }
{
    let mut least = NEVER;
    for (up, down) in ups.iter().zip(downs) {
        least = least.min(*up + *down);
    }
    least
}
