//! The climb: one pass over the levels above a node, which relaxes the arcs that lead up from each level that was reached.
//!
//! Each arc leads to a higher level, so that the label of a level is final once the pass comes to it, and no queue is needed.
ghost use Rattle.std.specs.Prelude.{◌≡◌, ℕ, ◌+◌, ◌<◌, ◌≤◌, ◌⊎◌, length};
ghost use Rattle.adaptive_roads.specs.inner.contraction.Levels.{level_in};
ghost use Rattle.adaptive_roads.specs.inner.road_hierarchy.Parts.{AreParts, IsIn};
ghost use Rattle.adaptive_roads.specs.inner.road_hierarchy.Descents.{upper_at};
ghost use Rattle.adaptive_roads.specs.inner.road_hierarchy.Marks.{node_at};
ghost use Rattle.adaptive_roads.specs.inner.road_hierarchy.Climb.{IsRelaxed, IsClimb};
ghost use Rattle.adaptive_roads.specs.inner.road_hierarchy.Sweep.{never};

use crate::road_hierarchy::descents::{Descents, Upper};
use crate::road_hierarchy::sweep::NEVER;

/// Takes all labels away.
fn clear(labels: &mut [u64])
    ensures { (level : ℕ) → level < length labels.old → node_at labels.new level ≡ never }
{
    for label in labels.iter_mut() {
        *label = NEVER;
    }
}

/// Lowers the labels of the levels to which arcs lead from a level with this label.
#[inline]
fn relax(uppers: &[Upper], levels: &[u32], label: u64, labels: &mut [u64])
    requires low { label ≤ never }
    requires known { (k : ℕ) → k < length uppers.now
        → (upper_at uppers.now k).node < length levels.now }
    requires inside { (k : ℕ) → k < length uppers.now
        → level_in levels.now (upper_at uppers.now k).node < length labels.old }
    ensures { IsRelaxed levels.now uppers.now (length uppers.now) label labels.old labels.new }
{
    for upper in uppers {
        let level = levels[upper.node as usize] as usize;
        labels[level] = labels[level].min(label + u64::from(upper.seconds));
    }
}

/// Climbs from the node of a level: labels each level by the least weight of a way up to its node.
pub(crate) fn climb(ascents: &Descents, levels: &[u32], first: usize, labels: &mut [u64])
    requires parts { AreParts (length labels.old) ascents.now.starts.items
        (length ascents.now.uppers.items) }
    requires first { first < length labels.old }
    requires known { (level place : ℕ) → level < length labels.old
        → IsIn ascents.now.starts.items level place
        → (upper_at ascents.now.uppers.items place).node < length levels.now }
    requires higher { (level place : ℕ) → level < length labels.old
        → IsIn ascents.now.starts.items level place
        → (level < level_in levels.now (upper_at ascents.now.uppers.items place).node)
        × (level_in levels.now (upper_at ascents.now.uppers.items place).node < length labels.old) }
    ensures { IsClimb levels.now ascents.now.starts.items ascents.now.uppers.items first
        (length labels.old) labels.new }
{
    clear(labels);
    labels[first] = 0;
    for level in first..labels.len() {
        let label = labels[level];
        if label >= NEVER {
            continue;
        }
        relax(ascents.at(level), levels, label, labels);
    }
}
