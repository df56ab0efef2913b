//! The part of a hierarchy that rows to some wanted nodes need, selected once for many rows.
ghost use Rattle.std.specs.Prelude.{◌≡◌, ℕ, ◌+◌, ◌^◌, ◌<◌, ◌≤◌, ◌++◌, [], ◌∷◌, length, map, All, IfOk, OnOk, slice_set};
ghost use Rattle.adaptive_roads.specs.inner.contraction.Levels.{level_in};
ghost use Rattle.adaptive_roads.specs.inner.road_hierarchy.Links.{IsLinkBy};
ghost use Rattle.adaptive_roads.specs.inner.road_hierarchy.Descents.{upper_at};
ghost use Rattle.adaptive_roads.specs.inner.road_hierarchy.Marks.{AreClosed, node_at};
ghost use Rattle.adaptive_roads.specs.inner.road_hierarchy.Selection.{IsSelectionOf, IsSelectingOf, IsFrom, step_from};

use crate::road_hierarchy::Hierarchy;
use crate::road_hierarchy::descents::Upper;
use crate::road_hierarchy::marks::marks_of;
use road_times::Side;
use std::alloc::{AllocError, Global};
use std::marker::Model;

/// An arc that leads down, from the node at a place.
#[derive(Clone, Copy)]
pub(crate) struct Step {
    pub(crate) place: u32,
    pub(crate) seconds: u32,
}

/// The nodes from which arcs lead down to wanted nodes, the highest first, with those arcs.
///
/// The steps down to the node at a place stand from `starts[place]` up to `starts[place + 1]`, and each comes from an earlier
/// place. `ranks` has the level of the node at each place, so that a sweep looks nothing up by nodes, and `places` the place of each
/// wanted node.
pub struct Selected {
    pub(crate) side: Side,
    pub(crate) nodes: Vec<u32>,
    pub(crate) ranks: Vec<u32>,
    pub(crate) starts: Vec<usize>,
    pub(crate) steps: Vec<Step>,
    pub(crate) places: Vec<u32>,
}

impl Model for Selected {
    ghost use Rattle.adaptive_roads.specs.inner.road_hierarchy.Selection.{Selection};

    ghost Value = { Selection };

    ghost use Rattle.std.specs.Prelude.{◌≡◌, length};
    ghost use Rattle.adaptive_roads.specs.inner.road_hierarchy.Selection.{selection_of, AreLaidOut};

    ghost view = { λ s. selection_of s.side s.nodes.items s.ranks.items s.starts.items s.steps.items s.places.items };

    ghost invariant = { λ s. AreLaidOut s.nodes.items s.starts.items s.steps.items s.places.items
        × (length s.ranks.items ≡ length s.nodes.items) };
}

impl Drop for Selected {
    fn drop(self) {
        let Selected {
            side: _,
            nodes,
            ranks,
            starts,
            steps,
            places,
        } = self;
        drop(nodes);
        drop(ranks);
        drop(starts);
        drop(steps);
        drop(places);
    }
}

/// What is selected so far, with the place of each node.
#[derive(Drop)]
struct Selecting {
    nodes: Vec<u32>,
    starts: Vec<usize>,
    steps: Vec<Step>,
    places: Vec<u32>,
}

/// Appends the steps from upper ends.
fn append_steps(steps: &mut Vec<Step>, uppers: &[Upper], places: &[u32]) -> Result<(), AllocError>
    requires { (k : ℕ) → k < length uppers.now → (upper_at uppers.now k).node < length places.now }
    ensures { OnOk result (steps.new.items
        ≡ steps.old.items ++ map (step_from places.now) uppers.now) }
{
    for upper in uppers {
        steps.push(Step {
            place: places[upper.node as usize],
            seconds: upper.seconds,
        })?;
    }
    Ok(())
}

impl Selecting {
    /// Nothing is selected of so many nodes.
    fn new(alloc: Global, nodes: u32) -> Result<Selecting, AllocError>
        ensures nodes { IfOk result (λ s. s.nodes.items ≡ []) }
        ensures starts { IfOk result (λ s. s.starts.items ≡ 0 ∷ []) }
        ensures steps { IfOk result (λ s. s.steps.items ≡ []) }
        ensures places { IfOk result (λ s. length s.places.items ≡ nodes + 1) }
    {
        let mut starts = Vec::new(alloc);
        starts.push(0)?;
        Ok(Selecting {
            nodes: Vec::new(alloc),
            starts,
            steps: Vec::new(alloc),
            places: vec![in alloc; 0u32; nodes as usize + 1]?,
        })
    }

    /// Selects a node, with the steps that were appended last.
    fn add(&mut self, node: u32) -> Result<(), AllocError>
        requires node { node < length self.old.places.items }
        requires few { length self.old.nodes.items < 2 ^ 32 }
        ensures nodes { OnOk result (self.new.nodes.items ≡ self.old.nodes.items ++ node ∷ []) }
        ensures starts { OnOk result (self.new.starts.items
            ≡ self.old.starts.items ++ length self.old.steps.items ∷ []) }
        ensures steps { OnOk result (self.new.steps.items ≡ self.old.steps.items) }
        ensures places { OnOk result (self.new.places.items
            ≡ slice_set self.old.places.items node (length self.old.nodes.items)) }
    {
        self.places[node as usize] = self.nodes.len() as u32;
        self.nodes.push(node)?;
        self.starts.push(self.steps.len())?;
        Ok(())
    }

    /// Selects a contracted node, with the steps down to it.
    fn add_below(&mut self, node: u32, uppers: &[Upper]) -> Result<(), AllocError>
        requires node { node < length self.old.places.items }
        requires few { length self.old.nodes.items < 2 ^ 32 }
        requires inside { (k : ℕ) → k < length uppers.now
            → (upper_at uppers.now k).node < length self.old.places.items }
        ensures nodes { OnOk result (self.new.nodes.items ≡ self.old.nodes.items ++ node ∷ []) }
        ensures starts { OnOk result (self.new.starts.items
            ≡ self.old.starts.items ++ length self.new.steps.items ∷ []) }
        ensures steps { OnOk result (self.new.steps.items
            ≡ self.old.steps.items ++ map (step_from self.old.places.items) uppers.now) }
        ensures places { OnOk result (self.new.places.items
            ≡ slice_set self.old.places.items node (length self.old.nodes.items)) }
    {
        append_steps(&mut self.steps, uppers, self.places.as_slice())?;
        self.add(node)
    }

    /// Selects the marked nodes that are contracted, from the highest down.
    fn add_contracted(
        &mut self,
        hierarchy: &Hierarchy,
        side: Side,
        marks: &[bool],
    ) -> Result<(), AllocError>
        requires sized { length marks.now ≡ hierarchy.now.nodes + 1 }
        requires closed { AreClosed (IsLinkBy side hierarchy.now.arcs)
            (level_in hierarchy.now.levels) marks.now }
        requires none { IsSelectingOf hierarchy.now side marks.now
            (IsFrom hierarchy.now.levels (length hierarchy.now.order)) self.old }
        ensures { OnOk result (IsSelectingOf hierarchy.now side marks.now
            (IsFrom hierarchy.now.levels 0) self.new) }
    {
        let order = hierarchy.order();
        let descents = hierarchy.descents_by(side);
        let mut level = order.len();
        while level > 0 {
            level -= 1;
            let node = order[level];
            if !marks[node as usize] {
                continue;
            }
            self.add_below(node, descents.at(level))?;
        }
        Ok(())
    }
}

/// The places of the wanted nodes.
fn places_of(alloc: Global, wanted: &[u32], places: &[u32]) -> Result<Vec<u32>, AllocError>
    requires { All (λ node. node < length places.now) wanted.now }
    ensures { IfOk result (λ list. list.items ≡ map (node_at places.now) wanted.now) }
{
    let mut list = Vec::with_capacity(alloc, wanted.len())?;
    for node in wanted {
        list.push(places[*node as usize])?;
    }
    Ok(list)
}

/// The levels of nodes.
fn ranks_of(alloc: Global, nodes: &[u32], levels: &[u32]) -> Result<Vec<u32>, AllocError>
    requires { All (λ node. node < length levels.now) nodes.now }
    ensures { IfOk result (λ list. list.items ≡ map (level_in levels.now) nodes.now) }
{
    let mut list = Vec::with_capacity(alloc, nodes.len())?;
    for node in nodes {
        list.push(levels[*node as usize])?;
    }
    Ok(list)
}

impl Selected {
    /// How many nodes were selected.
    pub fn count(&self) -> usize
        ensures { result ≡ length self.now.nodes }
    {
        self.nodes.len()
    }

    /// Selects what rows to the wanted nodes need, or rows from them. A node may be wanted more than once.
    pub fn of(
        alloc: Global,
        hierarchy: &Hierarchy,
        side: Side,
        wanted: &[u32],
    ) -> Result<Selected, AllocError>
        requires { All (λ node. (1 ≤ node) × (node ≤ hierarchy.now.nodes)) wanted.now }
        ensures selection { IfOk result (IsSelectionOf hierarchy.now) }
        ensures side { IfOk result (λ selected. selected.side ≡ side) }
        ensures wanted { IfOk result (λ selected. selected.wanted ≡ wanted.now) }
    {
        let marks = marks_of(alloc, hierarchy, side, wanted)?;
        let mut selecting = Selecting::new(alloc, hierarchy.nodes())?;
        selecting.add_contracted(hierarchy, side, &marks)?;
        let places = places_of(alloc, wanted, &selecting.places)?;
        let ranks = ranks_of(alloc, &selecting.nodes, hierarchy.levels())?;
        Ok(Selected {
            side,
            nodes: selecting.nodes,
            ranks,
            starts: selecting.starts,
            steps: selecting.steps,
            places,
        })
    }
}
