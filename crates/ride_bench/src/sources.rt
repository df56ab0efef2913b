//! Nodes that are spread over a map.
ghost use Rattle.std.specs.Prelude.{◌≡◌, ◌≤◌, ◌<◌, ◌*◌};

/// So many nodes of a map, so far apart.
#[derive(Clone, Copy)]
pub(crate) struct Sources {
    pub(crate) nodes: u32,
    pub(crate) count: u32,
    step: u32,
    ghost apart: { 1 ≤ step },
    ghost within: { count * step ≤ nodes },
}

impl Sources {
    /// So many nodes from the first on, spread over the map.
    pub(crate) fn spread(nodes: u32, count: u32) -> Sources
        requires { (1 ≤ count) × (count ≤ nodes) }
        ensures nodes { result.nodes ≡ nodes }
        ensures count { result.count ≡ count }
    {
        Sources {
            nodes,
            count,
            step: nodes / count,
        }
    }

    /// The node of a turn.
    pub(crate) fn node(self, turn: u32) -> u32
        requires { turn < self.count }
        ensures some { 1 ≤ result }
        ensures within { result ≤ self.nodes }
    {
        1 + turn * self.step
    }
}
