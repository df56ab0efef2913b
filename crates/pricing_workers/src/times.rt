//! A request's rows of times.
ghost use Rattle.std.specs.Prelude.{◌≡◌, ◌+◌, ◌≤◌, ◌<◌, length, map, take, All, IfOk};
ghost use Rattle.std.specs.Result.{OnOk};
ghost use Rattle.ride_model.specs.Road.{IsRoadMap, IsNode};
ghost use Rattle.pricing_workers.specs.inner.Rows.{HasRows, HoldsRows, near_at};

use adaptive_roads::{BatchRoads, Scratch};
use insertion::NearStop;
use ride_model::Ride;
use ride_ports::NoMemory;
use road_times::Side;
use std::alloc::Global;

/// The times between a request's two nodes and each wanted node, and from its pickup to its drop-off, absent where there is no
/// way. One of these serves a request after another, batch after batch.
#[derive(Drop)]
pub(crate) struct Times {
    /// From each node to the pickup.
    pub(crate) to_from: Vec<Option<u64>>,
    /// From the pickup to each node.
    pub(crate) from_here: Vec<Option<u64>>,
    /// From each node to the drop-off.
    pub(crate) to_to: Vec<Option<u64>>,
    /// From the drop-off to each node.
    pub(crate) to_here: Vec<Option<u64>>,
    pub(crate) direct: Option<u64>,
}

impl Times {
    /// Rows with room for so many nodes.
    pub(crate) fn new(alloc: Global, nodes: usize) -> Result<Times, NoMemory>
        ensures { IfOk result (HasRows nodes) }
    {
        Ok(Times {
            to_from: vec![in alloc; None; nodes]?,
            from_here: vec![in alloc; None; nodes]?,
            to_to: vec![in alloc; None; nodes]?,
            to_here: vec![in alloc; None; nodes]?,
            direct: None,
        })
    }

    /// Makes the rows just so long. Memory is taken only for more than any batch before had.
    pub(crate) fn renew(&mut self, nodes: usize) -> Result<(), NoMemory>
        ensures { OnOk result (HasRows nodes self.new) }
    {
        self.to_from.resize(nodes, None)?;
        self.from_here.resize(nodes, None)?;
        self.to_to.resize(nodes, None)?;
        self.to_here.resize(nodes, None)?;
        Ok(())
    }

    /// Fills the rows for a request: four from its nodes, and the time between them.
    pub(crate) fn fill(&mut self, roads: &BatchRoads, scratch: &mut Scratch, ride: &Ride)
        requires rows { HasRows (length roads.now.wanted) self.old }
        requires scratch { scratch.old.nodes ≡ roads.now.roads.nodes }
        requires from { IsNode roads.now.roads ride.now.from }
        requires to { IsNode roads.now.roads ride.now.to }
        ensures rows { HoldsRows roads.now.roads ride.now roads.now.wanted self.new }
        ensures scratch { scratch.new ≡ scratch.old }
        ensures fits { IsRoadMap roads.now.roads }
    {
        let (from, to) = (ride.from, ride.to);
        roads.rows(scratch, from, Side::Back, self.to_from.as_mut_slice());
        roads.rows(scratch, from, Side::Out, self.from_here.as_mut_slice());
        roads.rows(scratch, to, Side::Back, self.to_to.as_mut_slice());
        roads.rows(scratch, to, Side::Out, self.to_here.as_mut_slice());
        self.direct = roads.time(scratch, from, to);
    }

    /// The times at the wanted node of this number.
    #[inline]
    pub(crate) fn at(&self, node: usize) -> NearStop
        requires to_from { node < length self.now.to_from.items }
        requires from_here { node < length self.now.from_here.items }
        requires to_to { node < length self.now.to_to.items }
        requires to_here { node < length self.now.to_here.items }
        ensures { result ≡ near_at self.now node }
    {
        NearStop {
            to_from: self.to_from[node],
            from_here: self.from_here[node],
            to_to: self.to_to[node],
            to_here: self.to_here[node],
        }
    }
}

/// Makes so many times ready for a batch: each has room for just so many nodes. Those beyond stay as they are.
pub(crate) fn renew_times(
    alloc: Global,
    times: &mut Vec<Times>,
    count: usize,
    nodes: usize,
) -> Result<(), NoMemory>
    ensures count { OnOk result (count ≤ length times.new.items) }
    ensures rows { OnOk result (All (HasRows nodes) (take count times.new.items)) }
{
    for place in 0..count {
        renew_times_at(alloc, times, place, nodes)?;
    }
    Ok(())
}

// Makes the next times ready.
fn renew_times_at(
    alloc: Global,
    times: &mut Vec<Times>,
    place: usize,
    nodes: usize,
) -> Result<(), NoMemory>
    requires count { place ≤ length times.old.items }
    requires rows { All (HasRows nodes) (take place times.old.items) }
    ensures count { OnOk result (place + 1 ≤ length times.new.items) }
    ensures rows { OnOk result (All (HasRows nodes) (take (place + 1) times.new.items)) }
{
    if place < times.len() {
        times[place].renew(nodes)?;
        return Ok(());
    }
    times.push(Times::new(alloc, nodes)?)?;
    Ok(())
}
