// The table of links: which place follows which.
ghost use Rattle.std.specs.Prelude.{◌≡◌, ◌≢◌, ℕ, ◌<◌, length, IfOk};
ghost use Rattle.link_lists.specs.inner.Circles.{next_of, before_of, IsAlone, IsJoined, IsInserted, IsTakenOut};

use std::alloc::{AllocError, Global};

/// The two neighbours of a place on its circle.
#[derive(Clone, Copy)]
pub(crate) struct Link {
    pub(crate) next: u32,
    pub(crate) before: u32,
}

/// A table in which each place is a circle of its own.
#[tactic(auto, unfolding(crate::specs::inner::Circles::next_of))]
pub(crate) fn alone(alloc: Global, places: u32) -> Result<Vec<Link>, AllocError>
    ensures places { IfOk result (λ table. length table.items ≡ places) }
    ensures alone { IfOk result (λ table. (place : ℕ) → place < places
        → IsAlone table.items place) }
{
    let mut table = Vec::with_capacity(alloc, places as usize)?;
    for place in 0..places {
        table.push(Link {
            next: place,
            before: place,
        })?;
    }
    Ok(table)
}

/// Lets `to` follow `from`.
#[tactic(auto, unfolding(crate::specs::inner::Circles::next_of, crate::specs::inner::Circles::before_of))]
fn join(table: &mut [Link], from: u32, to: u32)
    requires from_in { from < length table.old }
    requires to_in { to < length table.old }
    ensures { IsJoined table.old table.new from to }
{
    table[from as usize].next = to;
    table[to as usize].before = from;
}

/// The place that follows.
#[tactic(auto, unfolding(crate::specs::inner::Circles::next_of))]
pub(crate) fn next(table: &[Link], place: u32) -> u32
    requires { place < length table.now }
    ensures { result ≡ next_of table.now place }
{
    table[place as usize].next
}

/// The place that comes before.
#[tactic(auto, unfolding(crate::specs::inner::Circles::before_of))]
pub(crate) fn before(table: &[Link], place: u32) -> u32
    requires { place < length table.now }
    ensures { result ≡ before_of table.now place }
{
    table[place as usize].before
}

/// Puts a node that is a circle of its own directly behind the place.
pub(crate) fn insert_behind(table: &mut [Link], place: u32, node: u32)
    requires place_in { place < length table.old }
    requires node_in { node < length table.old }
    requires next_in { next_of table.old place < length table.old }
    requires other_place { place ≢ node }
    requires other_next { next_of table.old place ≢ node }
    ensures { IsInserted table.old table.new place node }
{
    let following = next(table, place);
    join(table, place, node);
    join(table, node, following);
}

/// Takes a node out of its circle.
pub(crate) fn take_out(table: &mut [Link], node: u32)
    requires node_in { node < length table.old }
    requires next_in { next_of table.old node < length table.old }
    requires before_in { before_of table.old node < length table.old }
    requires other_next { next_of table.old node ≢ node }
    requires other_before { before_of table.old node ≢ node }
    ensures { IsTakenOut table.old table.new node }
{
    let following = next(table, node);
    let preceding = before(table, node);
    join(table, preceding, following);
    join(table, node, node);
}
