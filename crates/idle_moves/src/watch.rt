//! Which orders still stand.
ghost use Rattle.std.specs.Prelude.{◌≡◌, ◌≤◌, ◌<◌, ◌+◌, ◌↔◌, length, take, drop, true, Contains, IfErr, IfOk, IsOk, IsTrue, OnErr};
ghost use Rattle.ride_model.specs.Legal.{versions_of};
ghost use Rattle.turn_lock.specs.Passes.{knowledge};
ghost use Rattle.fleet_board.specs.inner.Passes.{AddsNone, IsPoint};
ghost use Rattle.fleet_board.specs.Sharing.{MayUse};
ghost use Rattle.idle_moves.specs.inner.Watch.{Watches, version_in, watched_ids};

use crate::Move;
use crate::entries::{take_entries, versions_of};
use fleet_board::{ActorPass, SharedBoard};
use indexmap::IndexMap;
use ride_model::{Fleet, NoMemory};
use std::alloc::{AllocError, Global};
use std::marker::Model;
use std::sync::Wait;

/// The most entries that are counted.
const MOST_ENTRIES: u64 = 1 << 62;

/// The versions of a fleet's vehicles as the history of a shared board raises them, entry by entry.
///
/// The entries tell which versions rise, so that no state is replayed, and a vehicle is found by its id in constant time.
#[derive(Drop)]
pub struct VersionWatch {
    /// The number of entries that were taken into account.
    place: u64,
    /// The version of each vehicle, by its id and in fleet order.
    versions: IndexMap<u64, u64>,
}

impl Model for VersionWatch {
    ghost use Rattle.idle_moves.specs.inner.Watch.{Watched};

    ghost Value = { Watched };

    ghost view = { λ watch. record { place = watch.place; versions = watch.versions.entries } };
}

impl VersionWatch {
    /// A watch over a fleet, before the first entry.
    pub fn new(alloc: Global, fleet: &Fleet) -> Result<VersionWatch, NoMemory>
        ensures { IfOk result (λ watch. watch
            ≡ record { place = 0; versions = versions_of fleet.now }) }
    {
        let versions = versions_of(alloc, fleet.vehicles())?;
        Ok(VersionWatch { place: 0, versions })
    }

    /// Takes up to `most` entries of the history into account, from the watch's place on, and answers whether it has caught up:
    /// whether fewer stood there.
    pub fn catch_up<'r, R: Wait>(
        &mut self,
        rt: &R,
        alloc: Global,
        board: &SharedBoard<'r>,
        pass: &mut ActorPass<'r>,
        most: u32,
    ) -> Result<bool, NoMemory>
        requires pass { MayUse board.now pass.old }
        requires point { IsPoint (knowledge pass.old) }
        requires watches { Watches (knowledge pass.old) self.old }
        requires some { 1 ≤ most }
        ensures pass { MayUse board.now pass.new }
        ensures point { IsPoint (knowledge pass.new) }
        ensures none { AddsNone (knowledge pass.old) (knowledge pass.new) }
        ensures watches { Watches (knowledge pass.new) self.new }
        ensures place { IfOk result (λ _. self.new.place
            ≡ self.old.place + length (take most (drop self.old.place (knowledge pass.new).seen))) }
        ensures caught_up { IfOk result
            (λ caught_up. IsTrue caught_up
            ↔ (length (drop self.old.place (knowledge pass.new).seen) < most)) }
        ensures at_end { IfOk result (λ caught_up. caught_up ≡ true
            → self.new.place ≡ length (knowledge pass.new).seen) }
        ensures vehicles { watched_ids self.new ≡ watched_ids self.old }
        ensures no_memory { OnErr result (self.new ≡ self.old) }
    {
        let tail = board.tail(rt, alloc, pass, self.place, most)?;
        // A longer history does not fit into memory.
        if pass.seen() > MOST_ENTRIES {
            return Err(AllocError);
        }
        take_entries(&mut self.versions, tail.entries.as_slice());
        self.place += tail.entries.len() as u64;
        Ok(tail.entries.len() < most as usize)
    }

    /// Whether an order stands: whether its vehicle still has the version that the order names. Else the error has that version,
    /// and the one that stands.
    pub fn stands(&self, order: &Move) -> Result<(), (u64, u64)>
        requires { Contains (watched_ids self.now) order.now.vehicle }
        ensures stands { IsOk result ↔ (order.now.version ≡ version_in self.now order.now.vehicle) }
        ensures versions { IfErr result
            (λ versions. versions ≡ (order.now.version, version_in self.now order.now.vehicle)) }
    {
        let standing = self.version(order.vehicle);
        if order.version == standing {
            Ok(())
        } else {
            Err((order.version, standing))
        }
    }

    // The version of a vehicle.
    fn version(&self, vehicle: u64) -> u64
        ensures { result ≡ version_in self.now vehicle }
    {
        match self.versions.get(&vehicle) {
            Some(version) => *version,
            None => 0,
        }
    }
}
