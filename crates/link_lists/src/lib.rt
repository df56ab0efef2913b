//! Numbered lists over numbered nodes, each node in at most one list.
//!
//! All links stand in one table, so that no call after `new` takes memory, and each takes constant time.
#![tactic(auto)]

ghost use Rattle.std.specs.Prelude.{◌≡◌, ◌≢◌, ℕ, ◌+◌, ◌<◌, ◌++◌, [], ◌∷◌, ◌↔◌, length, slice_get, replicate, IsTrue, IfOk, IfSome, nat_lt, if◌then◌else◌};
ghost use Rattle.link_lists.specs.inner.Family.{Family, list_at, IsHeld, IsFamily, IsSameSize, without, with_behind};

use std::alloc::{AllocError, Global};
use std::marker::Model;

mod circles;

use circles::Link;

/// Want of memory.
pub type NoMemory = AllocError;

/// Numbered lists over the nodes 0 to n - 1, each node in at most one list.
///
/// Each list is a circle of links through a head of its own, which stands behind the nodes in the
/// table. A node in no list is a circle by itself.
#[derive(Drop)]
pub struct Links {
    nodes: u32,
    table: Vec<Link>,
}

impl Model for Links {
    ghost use Rattle.link_lists.specs.inner.Family.{Family};

    ghost Value = { Family };

    ghost use Rattle.link_lists.specs.inner.Circles.{family_of, Keeps};

    ghost view = { λ links. family_of links.table.items links.nodes };

    ghost invariant = { λ links. Keeps links.table.items (family_of links.table.items links.nodes) };
}

impl Links {
    /// Empty lists, with a place for each node and each list.
    ///
    /// Answers `NoMemory` too where nodes and lists are 2^32 or more together, which no table of 32-bit
    /// links can number.
    pub fn new(alloc: Global, nodes: u32, lists: u32) -> Result<Links, NoMemory>
        ensures nodes { IfOk result (λ links. links.nodes ≡ nodes) }
        ensures empty { IfOk result (λ links. links.lists ≡ replicate lists []) }
        ensures family { IfOk result IsFamily }
    {
        let places = nodes.checked_add(lists).ok_or(AllocError)?;
        let table = circles::alone(alloc, places)?;
        Ok(Links { nodes, table })
    }

    /// Puts a node that is in no list at a list's end.
    pub fn push_back(&mut self, list: u32, node: u32)
        requires list_in { list < length self.old.lists }
        requires node_in { node < self.old.nodes }
        requires free { ¬ (IsHeld self.old node) }
        ensures added { list_at self.new list ≡ list_at self.old list ++ node ∷ [] }
        ensures others { (other : ℕ) → other ≢ list
            → list_at self.new other ≡ list_at self.old other }
        ensures size { IsSameSize self.old self.new }
        ensures family { IsFamily self.new }
    {
        let head = self.head_of(list);
        let last = circles::before(self.table.as_slice(), head);
        circles::insert_behind(self.table.as_mut_slice(), last, node);
    }

    /// Puts a node that is in no list before a list's first.
    pub fn push_front(&mut self, list: u32, node: u32)
        requires list_in { list < length self.old.lists }
        requires node_in { node < self.old.nodes }
        requires free { ¬ (IsHeld self.old node) }
        ensures added { list_at self.new list ≡ node ∷ list_at self.old list }
        ensures others { (other : ℕ) → other ≢ list
            → list_at self.new other ≡ list_at self.old other }
        ensures size { IsSameSize self.old self.new }
        ensures family { IsFamily self.new }
    {
        let head = self.head_of(list);
        circles::insert_behind(self.table.as_mut_slice(), head, node);
    }

    /// Puts a node that is in no list directly behind one that is in a list.
    pub fn insert_after(&mut self, place: u32, node: u32)
        requires place_in { IsHeld self.old place }
        requires node_in { node < self.old.nodes }
        requires free { ¬ (IsHeld self.old node) }
        ensures added { (list : ℕ) → list_at self.new list
            ≡ with_behind place node (list_at self.old list) }
        ensures size { IsSameSize self.old self.new }
        ensures family { IsFamily self.new }
    {
        circles::insert_behind(self.table.as_mut_slice(), place, node);
    }

    /// Takes a node out of its list.
    pub fn unlink(&mut self, node: u32)
        requires { IsHeld self.old node }
        ensures taken_out { (list : ℕ)
            → list_at self.new list ≡ without node (list_at self.old list) }
        ensures size { IsSameSize self.old self.new }
        ensures family { IsFamily self.new }
    {
        circles::take_out(self.table.as_mut_slice(), node);
    }

    /// The first node of a list.
    pub fn first(&self, list: u32) -> Option<u32>
        requires { list < length self.now.lists }
        ensures first { result ≡ slice_get (list_at self.now list) 0 }
        ensures held { IfSome result (IsHeld self.now) }
        ensures family { IsFamily self.now }
    {
        let head = self.head_of(list);
        self.node_at(circles::next(self.table.as_slice(), head))
    }

    /// The node that follows a node in its list.
    pub fn next(&self, node: u32) -> Option<u32>
        requires { IsHeld self.now node }
        ensures next { (list place : ℕ) → slice_get (list_at self.now list) place ≡ Some node
            → result ≡ slice_get (list_at self.now list) (place + 1) }
        ensures held { IfSome result (IsHeld self.now) }
        ensures family { IsFamily self.now }
    {
        self.node_at(circles::next(self.table.as_slice(), node))
    }

    /// Whether a node is in a list.
    pub fn holds(&self, node: u32) -> bool
        requires { node < self.now.nodes }
        ensures held { IsTrue result ↔ IsHeld self.now node }
        ensures family { IsFamily self.now }
    {
        circles::next(self.table.as_slice(), node) != node
    }

    /// The place of a list's head, behind those of the nodes.
    fn head_of(&self, list: u32) -> u32
        requires { list < length self.now.lists }
        ensures { result ≡ self.now.nodes + list }
    {
        self.nodes + list
    }

    /// The node at a place, if no head stands there.
    fn node_at(&self, place: u32) -> Option<u32>
        ensures { result ≡ (if nat_lt place self.now.nodes then Some place else None) }
    {
        if place < self.nodes {
            Some(place)
        } else {
            None
        }
    }
}
