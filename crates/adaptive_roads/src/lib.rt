//! The roads of a city: searched at first, and by a hierarchy once that pays. To contracts they are the map, and that they adapt is
//! nobody else's matter: whoever asks for travel times has them by whichever is at hand.
//!
//! Making a hierarchy takes about as long as 120 searches of the whole map. So it is made before the rows of a batch where these and what
//! was searched before come to so much, and in pieces while its owner has nothing else to do. What is counted is nodes and links, never
//! time. One thread makes it, for all that read the roads; the others search meanwhile, and none waits. Where memory is wanting, or a map
//! does not contract, it is searched for good. The times are the same either way.
#![tactic(auto)]

ghost use Rattle.std.specs.Prelude.{◌≡◌, IfOk, IfSome};
ghost use Rattle.ride_model.specs.Road.{IsRoadMap};
ghost use Rattle.adaptive_roads.specs.inner.Made.{IsMadeOf};

use crate::road_hierarchy::Hierarchy;
use made::Made;
use making::{Making, Progress, contract_more};
use ride_model::{Network, NoMemory};
use std::alloc::Global;
use std::marker::Model;
use std::mem;
use std::sync::atomic::{AtomicBool, AtomicU64, Ordering};
use std::sync::{Mutex, OnceLock};

mod batch_roads;
pub mod contraction;
pub mod hierarchy_laws;
mod made;
mod making;
pub mod road_hierarchy;
mod scratch;
mod selections;
mod travel_times;

pub use batch_roads::BatchRoads;
pub use scratch::{Scratch, scratches};
pub use travel_times::TravelTimes;

/// How many times as many nodes as the map has are settled by searches before its contraction pays.
const MAPS_BEFORE: u64 = 120;

/// How many links are looked at in a piece of a contraction: some 50 milliseconds.
const LINKS_A_PIECE: u64 = 1_000_000;

// Memory: while the map is contracted, what a contraction takes, and a network; after that, what a hierarchy takes, and the network, by
// which others see that it is one of their roads. Who takes it makes another network to compare them, and frees it.

/// The roads of a map, and a hierarchy of them as far as it is made. Threads share them by reference. To contracts they are the map.
#[derive(Drop)]
pub struct Roads {
    searched: road_times::Roads,
    made: OnceLock<Made>,
    making: Mutex<Making>,
    /// Whether the hierarchy is made, or given up.
    is_over: AtomicBool,
    /// How many nodes searches have settled.
    settled: AtomicU64,
}

impl Model for Roads {
    ghost use Rattle.ride_model.specs.Road.{RoadMap};

    ghost Value = { RoadMap };

    ghost view = { λ roads. roads.searched };
}

impl Roads {
    /// The roads of a map, of which nothing was searched.
    pub fn new(alloc: Global, map: &Network) -> Result<Roads, NoMemory>
        ensures { IfOk result (λ roads. roads ≡ map.now) }
    {
        Ok(Roads {
            searched: road_times::Roads::new(alloc, map)?,
            made: OnceLock::new(),
            making: Mutex::new(Making::NotBegun),
            is_over: AtomicBool::new(false),
            settled: AtomicU64::new(0),
        })
    }

    /// The number of nodes.
    pub fn nodes(&self) -> u32
        ensures nodes { result ≡ self.now.nodes }
        ensures fits { IsRoadMap self.now }
    {
        self.searched.nodes()
    }

    /// Notes how many nodes searches settled: by that it is chosen when to contract, and no time depends on it.
    pub fn note(&self, settled: u64) {
        self.settled.fetch_add(settled, Ordering::SeqCst);
    }

    /// Makes the hierarchy at once, where so many rows and what was searched before would take longer, and no other thread makes it.
    pub fn prepare_for(&self, alloc: Global, rows: usize) {
        let nodes = u64::from(self.nodes());
        let before = self.settled.load(Ordering::SeqCst);
        let together = nodes.saturating_mul(rows as u64).saturating_add(before);
        if together >= nodes.saturating_mul(MAPS_BEFORE) {
            self.go_on(alloc, u64::MAX);
        }
    }

    /// Goes on with the hierarchy, some 50 milliseconds. Returns whether something was done: not where it is made or given up, or where
    /// another thread makes it.
    pub fn prepare(&self, alloc: Global) -> bool {
        self.go_on(alloc, LINKS_A_PIECE)
    }

    // Looks at so many links more, where no other thread does. Returns whether something was done.
    fn go_on(&self, alloc: Global, links: u64) -> bool {
        if self.is_over.load(Ordering::SeqCst) {
            return false;
        }
        let Some(mut making) = self.making.try_lock() else {
            return false;
        };
        let before = mem::replace(&mut *making, Making::Over);
        match contract_more(alloc, &self.searched, before, links) {
            Ok(Progress::More(contracting)) => *making = Making::Contracting(contracting),
            Ok(Progress::Made(made)) => self.keep(made),
            Ok(Progress::Never) | Err(_) => self.is_over.store(true, Ordering::SeqCst),
        }
        true
    }

    // Keeps the hierarchy for all.
    fn keep(&self, made: Made) {
        let _ = self.made.try_set(made);
        self.is_over.store(true, Ordering::SeqCst);
    }

    /// What was made, once it is. Of what it keeps its type alone is known: who takes it sees first that it is of these roads.
    pub(crate) fn made(&self) -> Option<&Made> {
        self.made.get()
    }

    /// The roads as searches know them.
    pub(crate) fn searched(&self) -> &road_times::Roads
        ensures { result.now ≡ self.now }
    {
        &self.searched
    }
}
