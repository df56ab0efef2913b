//! The places of acceptance of waiting requests, in rising order.
#![tactic(auto)]

ghost use Rattle.std.specs.Prelude.{◌≡◌, ◌<◌, ◌++◌, [], ◌∷◌, All, Contains, slice_get, IfOk};
ghost use Rattle.link_lists.specs.inner.Family.{without};
ghost use Rattle.wait_list.specs.inner.Waiting.{IsRising, places_below, places_above};
ghost use Rattle.wait_list.specs.inner.Split.{IsSplit};

use link_lists::Links;
use std::alloc::{AllocError, Global};
use std::marker::Model;

/// Want of memory.
pub type NoMemory = AllocError;

/// A list of places in rising order, each below a capacity that is chosen when it is made.
///
/// No call after `new` takes memory. `add`, `remove` and `first` take constant time.
#[derive(Drop)]
pub struct WaitList {
    links: Links,
}

impl Model for WaitList {
    ghost use Rattle.wait_list.specs.inner.Waiting.{Waiting};

    ghost Value = { Waiting };

    ghost use Rattle.wait_list.specs.inner.Split.{waiting_of, IsOneList};

    ghost view = { λ list. waiting_of list.links };

    ghost invariant = { λ list. IsOneList list.links };
}

impl WaitList {
    /// No place waits.
    pub fn new(alloc: Global, capacity: u32) -> Result<WaitList, NoMemory>
        ensures capacity { IfOk result (λ list. list.capacity ≡ capacity) }
        ensures empty { IfOk result (λ list. list.places ≡ []) }
    {
        let links = Links::new(alloc, capacity, 1)?;
        Ok(WaitList { links })
    }

    /// Adds a place above all that wait.
    pub fn add(&mut self, place: u32)
        requires in_range { place < self.old.capacity }
        requires last { All (λ other. other < place) self.old.places }
        ensures added { self.new.places ≡ self.old.places ++ place ∷ [] }
        ensures capacity { self.new.capacity ≡ self.old.capacity }
        ensures rising { IsRising self.new }
    {
        self.links.push_back(0, place);
    }

    /// Puts a place in between those below and those above.
    ///
    /// It is looked for from the front, in time of the number of places below it. A batch takes the
    /// places that have waited longest, so that those which it gives back are near the front.
    pub fn put_back(&mut self, place: u32)
        requires in_range { place < self.old.capacity }
        requires absent { ¬ (Contains self.old.places place) }
        ensures put { self.new.places
            ≡ places_below place self.old.places ++ place ∷ places_above place self.old.places }
        ensures capacity { self.new.capacity ≡ self.old.capacity }
        ensures rising { IsRising self.new }
    {
        match self.last_below(place) {
            None => self.links.push_front(0, place),
            Some(last) => self.links.insert_after(last, place),
        }
    }

    /// Takes a place out.
    pub fn remove(&mut self, place: u32)
        requires { Contains self.old.places place }
        ensures taken_out { self.new.places ≡ without place self.old.places }
        ensures capacity { self.new.capacity ≡ self.old.capacity }
        ensures rising { IsRising self.new }
    {
        self.links.unlink(place);
    }

    /// The lowest place that waits.
    pub fn first(&self) -> Option<u32>
        ensures first { result ≡ slice_get self.now.places 0 }
        ensures rising { IsRising self.now }
    {
        self.links.first(0)
    }

    /// The lowest place above one: at once where that one waits, and else in time of the number of places
    /// below it.
    pub fn after(&self, place: u32) -> Option<u32>
        requires { place < self.now.capacity }
        ensures next { result ≡ slice_get (places_above place self.now.places) 0 }
        ensures rising { IsRising self.now }
    {
        if self.links.holds(place) {
            return self.links.next(place);
        }
        match self.last_below(place) {
            None => self.links.first(0),
            Some(last) => self.links.next(last),
        }
    }

    /// The last place below one, by a walk from the front.
    fn last_below(&self, place: u32) -> Option<u32>
        ensures { IsSplit self.now.places place result }
    {
        let mut last = None;
        let mut current = self.links.first(0);
        while let Some(other) = current {
            if other >= place {
                break;
            }
            last = current;
            current = self.links.next(other);
        }
        last
    }
}
