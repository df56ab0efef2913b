// The 65 buckets of a radix queue, and which of them have a node.
ghost use Rattle.std.specs.Prelude.{◌≡◌, ◌≢◌, ℕ, ◌+◌, ◌<◌, [], ◌∷◌, length, slice_get, Contains, IfOk, IfSome, IfNone, Some};
ghost use Rattle.link_lists.specs.inner.Family.{list_at, IsHeld, IsFamily, IsSameSize, without};
ghost use Rattle.radix_queue.specs.inner.Buckets.{IsLowest};

use crate::marks::{lowest_marked, marked, unmarked};
use link_lists::Links;
use std::alloc::{AllocError, Global};
use std::marker::Model;

/// One bucket for equal keys, and one for each bit of a key.
const BUCKETS: u32 = 65;

/// Lists of nodes, of which the lowest that has a node is found at once.
#[derive(Drop)]
pub(crate) struct Buckets {
    links: Links,
    filled: u64,
}

impl Model for Buckets {
    ghost use Rattle.link_lists.specs.inner.Family.{Family};

    ghost Value = { Family };

    ghost use Rattle.radix_queue.specs.inner.Buckets.{AreBuckets};

    ghost view = { λ buckets. buckets.links };

    ghost invariant = { λ buckets. AreBuckets buckets.links buckets.filled };
}

/// The lowest bucket that has a node, and its first node.
#[derive(Clone, Copy)]
pub(crate) struct Lowest {
    pub(crate) bucket: u32,
    pub(crate) first: u32,
}

impl Buckets {
    pub(crate) fn new(alloc: Global, nodes: u32) -> Result<Buckets, AllocError>
        ensures nodes { IfOk result (λ buckets. buckets.nodes ≡ nodes) }
        ensures lists { IfOk result (λ buckets. length buckets.lists ≡ 65) }
        ensures empty { IfOk result (λ buckets. (bucket : ℕ) → list_at buckets bucket ≡ []) }
        ensures family { IfOk result IsFamily }
    {
        let links = Links::new(alloc, nodes, BUCKETS)?;
        Ok(Buckets { links, filled: 0 })
    }

    /// Puts a node that is in no bucket into one.
    pub(crate) fn put(&mut self, bucket: u32, node: u32)
        requires bucket_in { bucket < 65 }
        requires node_in { node < self.old.nodes }
        requires free { ¬ (IsHeld self.old node) }
        ensures added { list_at self.new bucket ≡ node ∷ list_at self.old bucket }
        ensures others { (other : ℕ) → other ≢ bucket
            → list_at self.new other ≡ list_at self.old other }
        ensures size { IsSameSize self.old self.new }
        ensures family { IsFamily self.new }
    {
        self.links.push_front(bucket, node);
        self.filled = marked(self.filled, bucket);
    }

    /// Takes a node out of the bucket that it is in.
    pub(crate) fn remove(&mut self, bucket: u32, node: u32)
        requires bucket_in { bucket < 65 }
        requires here { Contains (list_at self.old bucket) node }
        ensures taken_out { (other : ℕ)
            → list_at self.new other ≡ without node (list_at self.old other) }
        ensures size { IsSameSize self.old self.new }
        ensures family { IsFamily self.new }
    {
        self.links.unlink(node);
        if self.links.first(bucket).is_none() {
            self.filled = unmarked(self.filled, bucket);
        }
    }

    /// The first node of a bucket.
    pub(crate) fn first(&self, bucket: u32) -> Option<u32>
        requires { bucket < 65 }
        ensures first { result ≡ slice_get (list_at self.now bucket) 0 }
        ensures family { IsFamily self.now }
    {
        self.links.first(bucket)
    }

    /// The node that follows a node in its bucket.
    pub(crate) fn next(&self, node: u32) -> Option<u32>
        requires { IsHeld self.now node }
        ensures { (bucket place : ℕ) → slice_get (list_at self.now bucket) place ≡ Some node
            → result ≡ slice_get (list_at self.now bucket) (place + 1) }
    {
        self.links.next(node)
    }

    /// The lowest bucket that has a node.
    pub(crate) fn lowest(&self) -> Option<Lowest>
        ensures some { IfSome result (λ lowest. IsLowest self.now lowest.bucket lowest.first) }
        ensures none { IfNone result ((bucket : ℕ) → list_at self.now bucket ≡ []) }
        ensures family { IsFamily self.now }
    {
        if let Some(first) = self.links.first(0) {
            return Some(Lowest { bucket: 0, first });
        }
        if self.filled == 0 {
            return None;
        }
        let bucket = lowest_marked(self.filled);
        let first = self.links.first(bucket).unwrap();
        Some(Lowest { bucket, first })
    }
}
