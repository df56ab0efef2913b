//! A hierarchy that was made, with the map that it was made of.
ghost use Rattle.std.specs.Prelude.{◌≡◌, ◌↔◌, IfOk, IfSome, IsTrue};
ghost use Rattle.adaptive_roads.specs.inner.Made.{IsMadeOf};

use crate::road_hierarchy::Hierarchy;
use ride_model::{Network, NoMemory};
use road_times::Roads;
use std::alloc::Global;
use std::marker::Model;

/// A hierarchy, and the network of which it was made.
#[derive(Drop)]
pub(crate) struct Made {
    network: Network,
    hierarchy: Hierarchy,
}

impl Model for Made {
    ghost use Rattle.adaptive_roads.specs.inner.Made.{MadeOf, IsMadeOf};

    ghost Value = { MadeOf };

    ghost view = { λ made. record { roads = made.network; hierarchy = made.hierarchy } };

    ghost invariant = { λ made. IsMadeOf made.network made.hierarchy };
}

/// Whether two networks have the same nodes and arcs.
fn are_same(one: &Network, other: &Network) -> bool
    ensures { IsTrue result ↔ (one.now ≡ other.now) }
{
    if one.nodes() != other.nodes() {
        return false;
    }
    one.arcs() == other.arcs()
}

impl Made {
    /// A hierarchy that was made of this network.
    pub(crate) fn new(network: Network, hierarchy: Hierarchy) -> Made
        requires { IsMadeOf network hierarchy }
    {
        Made { network, hierarchy }
    }

    /// The hierarchy, if it was made of these roads, which are compared arc by arc.
    pub(crate) fn hierarchy_of(
        &self,
        alloc: Global,
        roads: &Roads,
    ) -> Result<Option<&Hierarchy>, NoMemory>
        ensures { IfOk result (λ found.
            IfSome found (λ hierarchy. IsMadeOf roads.now hierarchy.now)) }
    {
        let network = roads.network(alloc)?;
        if are_same(&self.network, &network) {
            return Ok(Some(&self.hierarchy));
        }
        Ok(None)
    }
}
