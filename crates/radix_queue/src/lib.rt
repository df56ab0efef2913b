//! A monotone priority queue over numbered nodes.
//!
//! A radix heap: Ahuja, Mehlhorn, Orlin and Tarjan, "Faster algorithms for the shortest path problem",
//! 1990. A key stands in a bucket by the highest bit in which it differs from the floor. The floor is the
//! key that was taken last, and no key below it comes in. A node of a higher bucket that is opened goes to
//! a lower one, so a node moves at most 64 times between two calls that lower its key.
#![tactic(auto)]

ghost use Rattle.std.specs.Prelude.{◌≡◌, ◌≢◌, ℕ, ◌<◌, ◌≤◌, ◌↔◌, length, replicate, None, Some, IsNone, IfOk, IfSome, IfNone};
ghost use Rattle.radix_queue.specs.inner.Queue.{key_of, lesser_key, IsEmpty, IsAboveFloor, IsLeast};

use std::alloc::{AllocError, Global};
use std::marker::Model;

mod buckets;
mod marks;
mod spread;

use buckets::Buckets;
use spread::{bucket_of, empty, find_least, spread, withdraw};

/// Want of memory.
pub type NoMemory = AllocError;

/// A map from nodes to keys, of which no key is below the floor.
#[derive(Drop)]
pub struct RadixQueue {
    buckets: Buckets,
    keys: Vec<Option<u64>>,
    floor: u64,
}

impl Model for RadixQueue {
    ghost use Rattle.std.specs.Prelude.{length};
    ghost use Rattle.radix_queue.specs.inner.Queue.{Queue};

    ghost Value = { Queue };

    ghost use Rattle.radix_queue.specs.inner.Buckets.{IsPlaced};

    ghost view = { λ queue. record { floor = queue.floor; keys = queue.keys.items } };

    ghost invariant = { λ queue. IsPlaced queue.buckets queue.keys.items queue.floor 65 (length queue.keys.items) };
}

impl RadixQueue {
    /// An empty queue for the nodes below n.
    pub fn new(alloc: Global, n: u32) -> Result<RadixQueue, NoMemory>
        ensures empty { IfOk result (λ queue. queue.keys ≡ replicate n None) }
        ensures floor { IfOk result (λ queue. queue.floor ≡ 0) }
    {
        let keys = vec![in alloc; None; n as usize]?;
        let buckets = Buckets::new(alloc, n)?;
        Ok(RadixQueue {
            buckets,
            keys,
            floor: 0,
        })
    }

    /// Puts a node in, or lowers its key, if the key that it has is greater.
    pub fn put_or_lower(&mut self, node: u32, key: u64)
        requires node_in { node < length self.old.keys }
        requires floor { self.old.floor ≤ key }
        ensures key { key_of self.new node ≡ Some (lesser_key (key_of self.old node) key) }
        ensures others { (other : ℕ) → other ≢ node
            → key_of self.new other ≡ key_of self.old other }
        ensures same_floor { self.new.floor ≡ self.old.floor }
        ensures size { length self.new.keys ≡ length self.old.keys }
        ensures above { IsAboveFloor self.new }
    {
        if let Some(had) = self.keys[node as usize]
            && had <= key
        {
            return;
        }
        withdraw(&mut self.buckets, self.keys.as_slice(), self.floor, node);
        self.keys[node as usize] = Some(key);
        self.buckets.put(bucket_of(self.floor, key), node);
    }

    /// Takes out a node of least key, with its key, which becomes the floor.
    pub fn take_least(&mut self) -> Option<(u32, u64)>
        ensures none { IsNone result ↔ IsEmpty self.old }
        ensures unchanged { IfNone result (self.new ≡ self.old) }

        ensures least { IfSome result (λ least. IsLeast self.old least.0 least.1) }
        ensures taken_out { IfSome result (λ least. key_of self.new least.0 ≡ None) }
        ensures others { IfSome result
            (λ least. (other : ℕ) → other ≢ least.0
            → key_of self.new other ≡ key_of self.old other) }
        ensures floor { IfSome result (λ least. self.new.floor ≡ least.1) }
        ensures size { length self.new.keys ≡ length self.old.keys }
        ensures above { IsAboveFloor self.new }
    {
        let least = find_least(&self.buckets, self.keys.as_slice(), self.floor)?;
        self.buckets.remove(least.bucket, least.node);
        self.keys[least.node as usize] = None;
        self.floor = least.key;
        spread(
            &mut self.buckets,
            self.keys.as_slice(),
            least.bucket,
            least.key,
        );
        Some((least.node, least.key))
    }

    /// Takes all nodes out and sets the floor to 0, in time of the number of nodes that are there.
    pub fn clear(&mut self)
        ensures empty { self.new.keys ≡ replicate (length self.old.keys) None }
        ensures floor { self.new.floor ≡ 0 }
    {
        empty(&mut self.buckets, self.keys.as_mut_slice());
        self.floor = 0;
    }
}
