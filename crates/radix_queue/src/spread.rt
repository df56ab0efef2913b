// The buckets beside the keys of their nodes.
ghost use Rattle.std.specs.Prelude.{◌≡◌, ℕ, ◌<◌, ◌≤◌, [], length, slice_get, replicate, Contains, None, Some, IsSome, IfSome, IfNone};
ghost use Rattle.link_lists.specs.inner.Family.{list_at, IsHeld, IsFamily, IsSameSize};
ghost use Rattle.radix_queue.specs.inner.Buckets.{IsBucket, IsPlaced, IsLeastPlaced, key_in, opened_by};

use crate::buckets::{Buckets, Lowest};

/// A node of least key.
#[derive(Clone, Copy)]
pub(crate) struct Least {
    pub(crate) bucket: u32,
    pub(crate) node: u32,
    pub(crate) key: u64,
}

/// The bucket of a key: how many low bits it and the floor have to drop until they are the same.
pub(crate) fn bucket_of(floor: u64, key: u64) -> u32
    ensures within { result < 65 }
    ensures bucket { IsBucket floor key result }
{
    u64::BITS - (floor ^ key).leading_zeros()
}

fn key_at(keys: &[Option<u64>], node: u32) -> u64
    requires { IsSome (key_in keys.now node) }
    ensures { key_in keys.now node ≡ Some result }
{
    keys[node as usize].unwrap()
}

/// A node of least key in a bucket, by a walk along it.
fn least_in(buckets: &Buckets, keys: &[Option<u64>], lowest: Lowest) -> Least
    requires family { IsFamily buckets.now }
    requires first { slice_get (list_at buckets.now lowest.bucket) 0 ≡ Some lowest.first }
    requires keyed { (node : ℕ) → Contains (list_at buckets.now lowest.bucket) node
        → IsSome (key_in keys.now node) }
    ensures bucket { result.bucket ≡ lowest.bucket }
    ensures here { Contains (list_at buckets.now lowest.bucket) result.node }
    ensures key { key_in keys.now result.node ≡ Some result.key }
    ensures least { (node had : ℕ) → Contains (list_at buckets.now lowest.bucket) node
        → key_in keys.now node ≡ Some had → result.key ≤ had }
{
    let mut least = lowest.first;
    let mut least_key = key_at(keys, least);
    let mut current = buckets.next(least);
    while let Some(node) = current {
        let key = key_at(keys, node);
        if key < least_key {
            least = node;
            least_key = key;
        }
        current = buckets.next(node);
    }
    Least {
        bucket: lowest.bucket,
        node: least,
        key: least_key,
    }
}

/// A node of least key. In the first bucket each key is the floor, and any node will do.
pub(crate) fn find_least(buckets: &Buckets, keys: &[Option<u64>], floor: u64) -> Option<Least>
    requires { IsPlaced buckets.now keys.now floor 65 (length keys.now) }
    ensures some { IfSome result (λ least.
        IsLeastPlaced buckets.now keys.now floor least.bucket least.node least.key) }
    ensures none { IfNone result ((node : ℕ) → key_in keys.now node ≡ None) }
{
    let lowest = buckets.lowest()?;
    if lowest.bucket == 0 {
        return Some(Least {
            bucket: 0,
            node: lowest.first,
            key: floor,
        });
    }
    Some(least_in(buckets, keys, lowest))
}

/// Takes a node out of its bucket, if it is in one.
pub(crate) fn withdraw(buckets: &mut Buckets, keys: &[Option<u64>], floor: u64, node: u32)
    requires node_in { node < length keys.now }
    requires placed { IsPlaced buckets.old keys.now floor 65 (length keys.now) }
    ensures placed { IsPlaced buckets.new keys.now floor 65 node }
    ensures free { ¬ (IsHeld buckets.new node) }
{
    if let Some(had) = keys[node as usize] {
        buckets.remove(bucket_of(floor, had), node);
    }
}

/// Spreads the nodes of the bucket that was opened over those below. The floor is the least key there, so
/// that each of the nodes agrees with it in one bit more.
pub(crate) fn spread(buckets: &mut Buckets, keys: &[Option<u64>], bucket: u32, floor: u64)
    requires bucket_in { bucket < 65 }
    requires placed { IsPlaced buckets.old keys.now floor (opened_by bucket) (length keys.now) }
    ensures { IsPlaced buckets.new keys.now floor 65 (length keys.now) }
{
    if bucket == 0 {
        return;
    }
    while let Some(node) = buckets.first(bucket) {
        let key = key_at(keys, node);
        buckets.remove(bucket, node);
        buckets.put(bucket_of(floor, key), node);
    }
}

/// Takes all nodes out of their buckets, and their keys away.
pub(crate) fn empty(buckets: &mut Buckets, keys: &mut [Option<u64>])
    requires { (floor : ℕ) × IsPlaced buckets.old keys.old floor 65 (length keys.old) }
    ensures keys { keys.new ≡ replicate (length keys.old) None }
    ensures buckets { (bucket : ℕ) → list_at buckets.new bucket ≡ [] }
    ensures size { IsSameSize buckets.old buckets.new }
    ensures family { IsFamily buckets.new }
{
    while let Some(lowest) = buckets.lowest() {
        buckets.remove(lowest.bucket, lowest.first);
        keys[lowest.first as usize] = None;
    }
}
