//! What whoever asks for travel times works with.
ghost use Rattle.std.specs.Prelude.{◌≡◌, length, All, IfOk};

use crate::Roads;
use crate::road_hierarchy::SweepRoom;
use ride_model::NoMemory;
use std::alloc::Global;
use std::marker::Model;

// Memory: what a search takes, and 16 bytes a node.

/// Room for searches and for climbs and sweeps over roads, so that these take no memory, and a count of the nodes that searches settled.
#[derive(Drop)]
pub struct Scratch {
    pub(crate) search: road_times::Scratch,
    pub(crate) sweep: SweepRoom,
    settled: u64,
}

impl Model for Scratch {
    ghost use Rattle.std.specs.Prelude.{◌+◌, ◌≤◌};
    ghost use Rattle.road_times.specs.inner.Room.{Room};

    ghost Value = { Room };

    ghost view = { λ s. s.search };

    ghost invariant = { λ s. s.search.nodes + s.search.nodes ≤ s.sweep.places };
}

impl Scratch {
    /// A scratch for these roads.
    pub fn new(alloc: Global, roads: &Roads) -> Result<Scratch, NoMemory>
        ensures { IfOk result (λ scratch. scratch.nodes ≡ roads.now.nodes) }
    {
        let nodes = roads.nodes() as usize;
        let search = road_times::Scratch::new(alloc, roads.searched())?;
        Ok(Scratch {
            search,
            sweep: SweepRoom::new(alloc, 2 * nodes)?,
            settled: 0,
        })
    }

    /// Counts the nodes of the last search.
    pub(crate) fn count(&mut self)
        ensures { self.new ≡ self.old }
    {
        let settled = self.search.settled() as u64;
        self.settled = self.settled.saturating_add(settled);
    }

    /// Returns how many nodes searches have settled since the last time that this was asked: no travel time depends on it.
    pub fn take_settled(&mut self) -> u64
        ensures { self.new ≡ self.old }
    {
        let settled = self.settled;
        self.settled = 0;
        settled
    }
}

/// A scratch for each of so many workers.
pub fn scratches(alloc: Global, roads: &Roads, workers: usize) -> Result<Vec<Scratch>, NoMemory>
    ensures count { IfOk result (λ scratches. length scratches.items ≡ workers) }
    ensures nodes { IfOk result (λ scratches.
        All (λ scratch. scratch.nodes ≡ roads.now.nodes) scratches.items) }
{
    let mut scratches = Vec::with_capacity(alloc, workers)?;
    for _ in 0..workers {
        scratches.push(Scratch::new(alloc, roads)?)?;
    }
    Ok(scratches)
}
