//! The nodes from which arcs lead down to a wanted node: marks of all nodes, in the order of their levels.
ghost use Rattle.std.specs.Prelude.{◌≡◌, ℕ, ◌+◌, ◌<◌, ◌≤◌, ◌≢◌, length, All, IfOk};
ghost use Rattle.adaptive_roads.specs.inner.contraction.Levels.{level_in};
ghost use Rattle.adaptive_roads.specs.inner.road_hierarchy.Links.{IsLinkBy};
ghost use Rattle.adaptive_roads.specs.inner.road_hierarchy.Parts.{IsIn, AreParts};
ghost use Rattle.adaptive_roads.specs.inner.road_hierarchy.Descents.{upper_at};
ghost use Rattle.adaptive_roads.specs.inner.road_hierarchy.Marks.{IsMarked, AreClosed, AreClosedBelow, node_at};

use crate::road_hierarchy::Hierarchy;
use crate::road_hierarchy::descents::{Descents, Upper};
use road_times::Side;
use std::alloc::{AllocError, Global};

/// Marks the wanted nodes.
fn mark_wanted(marks: &mut [bool], wanted: &[u32])
    requires { All (λ node. node < length marks.old) wanted.now }
    ensures { (place : ℕ) → place < length wanted.now
        → IsMarked marks.new (node_at wanted.now place) }
{
    for node in wanted {
        marks[*node as usize] = true;
    }
}

/// Marks the upper ends of the arcs that lead down to a node.
fn mark_uppers(marks: &mut [bool], uppers: &[Upper])
    requires { (place : ℕ) → place < length uppers.now
        → (upper_at uppers.now place).node < length marks.old }
    ensures marked { (place : ℕ) → place < length uppers.now
        → IsMarked marks.new (upper_at uppers.now place).node }
    ensures kept { (node : ℕ) → IsMarked marks.old node → IsMarked marks.new node }
    ensures others { (node : ℕ) → ((place : ℕ) → place < length uppers.now
        → (upper_at uppers.now place).node ≢ node)
        → IsMarked marks.new node → IsMarked marks.old node }
{
    for upper in uppers {
        marks[upper.node as usize] = true;
    }
}

/// Marks what leads down to a marked node, from the lowest node on.
fn mark_upward(marks: &mut [bool], descents: &Descents, order: &[u32], levels: &[u32])
    requires parts { AreParts (length order.now) descents.now.starts.items
        (length descents.now.uppers.items) }
    requires ordered { (level : ℕ) → level < length order.now
        → (node_at order.now level < length marks.old)
        × (level_in levels.now (node_at order.now level) ≡ level) }
    requires higher { (level place : ℕ) → level < length order.now
        → IsIn descents.now.starts.items level place
        → ((upper_at descents.now.uppers.items place).node < length marks.old)
        × (level < level_in levels.now (upper_at descents.now.uppers.items place).node) }
    ensures kept { (node : ℕ) → IsMarked marks.old node → IsMarked marks.new node }
    ensures closed { AreClosedBelow descents.now.starts.items descents.now.uppers.items order.now
        (length order.now) marks.new }
{
    for (level, node) in order.iter().enumerate() {
        if !marks[*node as usize] {
            continue;
        }
        mark_uppers(marks, descents.at(level));
    }
}

/// Marks the wanted nodes, and all nodes from which arcs lead down to a marked one.
pub(crate) fn marks_of(
    alloc: Global,
    hierarchy: &Hierarchy,
    side: Side,
    wanted: &[u32],
) -> Result<Vec<bool>, AllocError>
    requires { All (λ node. node ≤ hierarchy.now.nodes) wanted.now }
    ensures sized { IfOk result (λ marks. length marks.items ≡ hierarchy.now.nodes + 1) }
    ensures wanted { IfOk result (λ marks. (place : ℕ) → place < length wanted.now
        → IsMarked marks.items (node_at wanted.now place)) }
    ensures closed { IfOk result (λ marks.
        AreClosed (IsLinkBy side hierarchy.now.arcs) (level_in hierarchy.now.levels) marks.items) }
{
    let levels = hierarchy.levels();
    let mut marks = vec![in alloc; false; levels.len()]?;
    mark_wanted(marks.as_mut_slice(), wanted);
    mark_upward(
        marks.as_mut_slice(),
        hierarchy.descents_by(side),
        hierarchy.order(),
        levels,
    );
    Ok(marks)
}
