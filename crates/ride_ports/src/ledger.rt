//! What a shelf keeps of its calls.
ghost use Rattle.std.specs.Prelude.{◌≡◌, ◌<◌, ◌≤◌, ◌+◌, length, map, string_bytes};
ghost use Rattle.std.specs.Option.{option_copied};
ghost use Rattle.ride_ports.specs.Contents.{given_back};
ghost use Rattle.ride_ports.specs.Count.{most_count};
ghost use Rattle.ride_ports.specs.inner.Count.{raised};
ghost use Rattle.ride_ports.specs.inner.Ledger.{after_asking, after_return, no_entry};

use crate::sources::Failed;
use arrayvec::ArrayVec;
use std::alloc::Global;
use std::marker::Model;

/// What is kept of a source that was given back: its count of faults and, where it tells them,
/// the bytes that it had left.
#[derive(Clone, Copy, Default)]
pub(crate) struct Returned<'a> {
    pub(crate) faults: u64,
    pub(crate) left: Option<&'a [u8]>,
}

/// The names that were asked for, how many of them were brought, the sources that were given
/// back, and the count of faults.
pub(crate) struct Ledger<'a> {
    asked: ArrayVec<String, 8, Global>,
    brought: u64,
    back: ArrayVec<Returned<'a>, 8>,
    faults: u64,
}

impl<'a> Model for Ledger<'a> {
    ghost use Rattle.std.specs.Prelude.{◌≤◌, map, string_bytes};
    ghost use Rattle.arrayvec.specs.ArrayVec.{array_vec_len};
    ghost use Rattle.ride_ports.specs.Count.{most_count};
    ghost use Rattle.ride_ports.specs.inner.Ledger.{LedgerState};

    ghost Value = { LedgerState };

    ghost use Rattle.ride_ports.specs.inner.Returned.{returned_state};

    ghost view = { λ l.
        record {
          asked = map string_bytes l.asked.items;
          brought = l.brought;
          back = map returned_state l.back.items;
          faults = l.faults;
        } };

    ghost invariant = { λ l.
        (l.brought ≤ array_vec_len l.asked) × (array_vec_len l.asked ≤ 8)
        × (l.faults ≤ most_count) };
}

impl Drop for Ledger<'_> {
    fn drop(self) {
        let Ledger {
            asked,
            brought: _,
            back,
            faults: _,
        } = self;
        drop(asked);
        drop(back);
    }
}

impl<'a> Ledger<'a> {
    /// The allocator is that of the names. Nothing is taken from it here.
    pub(crate) fn new(alloc: Global) -> Ledger<'a>
        ensures { result ≡ no_entry }
    {
        Ledger {
            asked: ArrayVec::new_in(alloc),
            brought: 0,
            back: ArrayVec::new(),
            faults: 0,
        }
    }

    /// The count of faults.
    pub(crate) fn faults(&self) -> u64
        ensures { result ≡ self.now.faults }
    {
        self.faults
    }

    /// The names that were asked for, in order.
    pub(crate) fn asked(&self) -> &[String]
        ensures { map string_bytes result.now ≡ self.now.asked }
    {
        self.asked.as_slice()
    }

    /// Keeps the name, and answers the number of the call from 1.
    pub(crate) fn ask(&mut self, name: String) -> usize
        requires { length self.old.asked < 8 }
        ensures kept { self.new ≡ after_asking self.old (string_bytes name) }
        ensures number { result ≡ length self.new.asked }
        ensures room { self.new.brought < length self.new.asked }
        ensures small { self.old.faults ≤ most_count }
    {
        self.asked.push(name);
        self.asked.len()
    }

    /// Counts a name that was brought.
    pub(crate) fn bring(&mut self)
        requires { self.old.brought < length self.old.asked }
        ensures { self.new ≡ record self.old { brought = self.old.brought + 1 } }
    {
        self.brought += 1;
    }

    /// Counts a fault.
    pub(crate) fn fail(&mut self) -> Failed
        ensures { self.new ≡ record self.old { faults = raised self.old.faults } }
    {
        self.faults = self.faults.saturating_add(1);
        Failed
    }

    /// Keeps what is told of a source that was given back, whose faults are one fault more.
    pub(crate) fn take_back(&mut self, faults: u64, left: Option<&'a [u8]>)
        requires { length self.old.back < 8 }
        ensures kept { self.new ≡
            after_return self.old (given_back faults (option_copied left.entry)) }
        ensures small { self.old.faults ≤ most_count }
    {
        if faults > 0 {
            self.faults = self.faults.saturating_add(1);
        }
        self.back.push(Returned { faults, left });
    }
}
