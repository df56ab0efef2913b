//! What prices one batch after another.
ghost use Rattle.std.specs.Prelude.{◌≡◌, ◌≤◌, IfOk};

use crate::times::Times;
use crate::wanted::Wanted;
use adaptive_roads::{Roads, Scratch, TravelTimes, scratches};
use ride_model::NoMemory;
use std::alloc::Global;
use std::marker::Model;

// Memory: for each vehicle of the largest batch about 4 kilobytes of plan and tables; for each request whose times are kept at once 64
// bytes a wanted node of the largest batch; and for each worker a scratch.

/// Prices one batch after another: travel times over roads, a scratch for each worker, and what a batch leaves to the next, on which no
/// price depends. To contracts it is the map.
pub struct Pricer<'r> {
    alloc: Global,
    pub(crate) times: TravelTimes<'r>,
    pub(crate) scratches: Vec<Scratch>,
    pub(crate) wanted: Wanted,
    /// The rows of those requests that are priced at once.
    pub(crate) rows: Vec<Times>,
}

impl<'r> Model for Pricer<'r> {
    ghost use Rattle.std.specs.Prelude.{◌≡◌, ◌≤◌, length, All};
    ghost use Rattle.ride_model.specs.Road.{RoadMap};

    ghost Value = { RoadMap };

    ghost view = { λ p. p.times };

    ghost invariant = { λ p. (1 ≤ length p.scratches.items)
        × All (λ scratch. scratch.nodes ≡ p.times.nodes) p.scratches.items };
}

impl Drop for Pricer<'_> {
    fn drop(self) {
        let Pricer {
            alloc: _,
            times,
            scratches,
            wanted,
            rows,
        } = self;
        drop(times);
        drop(scratches);
        drop(wanted);
        drop(rows);
    }
}

impl<'r> Pricer<'r> {
    /// A pricer over these roads, of so many workers.
    pub fn new(alloc: Global, roads: &'r Roads, workers: usize) -> Result<Pricer<'r>, NoMemory>
        requires { 1 ≤ workers }
        ensures { IfOk result (λ p. p ≡ roads.now) }
    {
        Ok(Pricer {
            alloc,
            times: TravelTimes::new(alloc, roads)?,
            scratches: scratches(alloc, roads, workers)?,
            wanted: Wanted::new(alloc),
            rows: Vec::new(alloc),
        })
    }

    /// The allocator.
    pub fn alloc(&self) -> Global {
        self.alloc
    }

    /// The roads.
    pub fn roads(&self) -> &'r Roads
        ensures { result.now ≡ self.now }
    {
        self.times.roads()
    }

    /// Goes on with the hierarchy of the roads while there is nothing to price, as `Roads::prepare`. Returns whether something was done.
    pub fn prepare(&self) -> bool {
        self.roads().prepare(self.alloc)
    }
}
