//! What the lock and its passes do.
ghost use Rattle.std.specs.Prelude.{◌≡◌, ◌≢◌, ◌+◌, ◌<◌, ◌≤◌, ◌^◌, [], ◌∷◌, ◌++◌, length, IsOk, IfOk, IfSome, IfNone};
ghost use mathlib.Core.List.{IsPrefix};
ghost use Rattle.turn_lock.specs.inner.History.{items_of, EndedStand, GrowsByOne};
ghost use Rattle.turn_lock.specs.Knowledge.{at_start, after_enter, after_leave, after_note, after_split, split_off, after_join};
ghost use Rattle.turn_lock.specs.inner.Steps.{Continues};
ghost use Rattle.turn_lock.specs.Passes.{IsPassOf, MayEnter, MayLeave, HasRoot, knowledge};

use crate::chronicle::Chronicle;
use crate::lock::{NoMemory, Pass, TurnLock};
use crate::plays::{Cut, Glue, Grab, HandOn, Look, Note};
use crate::rule::Opening;
use atomic_table::Table;
use std::alloc::{AllocError, Allocator};
use std::snapshot::Snapshot;
use std::sync::Wait;

// The word that is the length of the history.
const LENGTH: usize = 0;

// The word that says whether the turn is taken.
const TURN: usize = 1;

const FREE: u64 = 0;

const TAKEN: u64 = 1;

// The slot with the value.
const VALUE: usize = 0;

impl<T: Chronicle + Send> Pass<T> {
    /// The number that its items have as their maker's.
    pub fn number(&self) -> u32
        ensures { result ≡ (knowledge self.now).number }
    {
        self.number
    }

    /// How many items of the history it has seen.
    pub fn seen(&self) -> u64
        ensures { result ≡ length (knowledge self.now).seen }
    {
        self.seen
    }
}

impl<T: Chronicle + Send, A: Allocator> TurnLock<T, A> {
    /// A lock for at most so many numbers round a value whose history has so many items, and the pass of number 0, from which the
    /// others are split. Where memory is wanting the value is dropped.
    pub fn new(
        alloc: A,
        value: T,
        items: u64,
        passes: u32,
    ) -> Result<(TurnLock<T, A>, Pass<T>), NoMemory>
    where
        A: Clone,
        requires items { items ≡ length (T.history value) }
        requires passes { 0 < passes }
        ensures lock { IfOk result (λ r. IsPassOf r.0 r.1) }
        ensures pass { IfOk result (λ r. knowledge r.1
            ≡ at_start T.maker (T.root value) (T.history value) passes) }
    {
        let about = Opening {
            value: Snapshot::of(&value),
            passes,
        };
        let mut slots = Vec::with_capacity(alloc.clone()?, 1)?;
        slots.push(Some(value))?;
        let Ok((table, seat)) = Table::new(alloc, &[items, FREE], slots, &about) else {
            return Err(AllocError);
        };
        let pass = Pass {
            seat,
            number: 0,
            room: passes,
            seen: items,
        };
        Ok((TurnLock { table }, pass))
    }

    /// A new pass under a number of its own, for another thread. The items that the number had when the lock was made are its own.
    pub fn split(&self, pass: &mut Pass<T>) -> Pass<T>
        requires pass { MayEnter self.now pass.old }
        requires first { (knowledge pass.old).number ≡ 0 }
        requires room { 2 ≤ (knowledge pass.old).room }
        ensures lock { IsPassOf self.now pass.new × IsPassOf self.now result }
        ensures pass { knowledge pass.new ≡ after_split (knowledge pass.old) }
        ensures new_pass { knowledge result ≡ split_off T.maker (knowledge pass.old) }
    {
        let seat = self.table.shared.split_seat::<Cut<T>>(&mut pass.seat);
        pass.room -= 1;
        Pass {
            seat,
            number: pass.room,
            room: 1,
            seen: pass.seen,
        }
    }

    /// Takes a pass back. Its items stay in the history, and no later item has its number.
    pub fn join(&self, pass: &mut Pass<T>, other: Pass<T>)
        requires pass { MayEnter self.now pass.old }
        requires other { MayEnter self.now other }
        requires first { (knowledge pass.old).number ≡ 0 }
        requires numbered { (knowledge other).number ≢ 0 }
        ensures lock { IsPassOf self.now pass.new }
        ensures pass { knowledge pass.new ≡ after_join (knowledge pass.old) (knowledge other) }
        ensures seen { IsPrefix (knowledge pass.old).seen (knowledge pass.new).seen }
        ensures other_seen { IsPrefix (knowledge other).seen (knowledge pass.new).seen }
        ensures out { (knowledge pass.new).out + 1 ≡ (knowledge pass.old).out }
    {
        let Pass { seat, seen, .. } = other;
        let shared = &self.table.shared;
        shared.join_seat::<Glue>(&mut pass.seat, seat);
        shared.load::<Look>(&mut pass.seat, LENGTH);
        pass.seen = pass.seen.max(seen);
    }

    // Takes the turn if it is free.
    fn try_enter(&self, pass: &mut Pass<T>) -> Option<T>
        requires { MayEnter self.now pass.old }
        ensures lock { IsPassOf self.now pass.new }
        ensures entered { IfSome result
            (λ x. knowledge pass.new ≡ after_enter (knowledge pass.old) (T.history x)) }
        ensures value { IfSome result (Continues T.root T.history T.maker (knowledge pass.old)) }
        ensures taken { IfNone result (knowledge pass.new ≡ knowledge pass.old) }
        ensures others { IfNone result
            ((knowledge pass.old).number ≡ 0 → 0 < (knowledge pass.old).out) }
    {
        let shared = &self.table.shared;
        let found = shared.compare_exchange::<Grab>(&mut pass.seat, TURN, FREE, TAKEN);
        if found != FREE {
            return None;
        }
        let value = shared.exchange(&mut pass.seat, VALUE, None);
        pass.seen = shared.load::<Look>(&mut pass.seat, LENGTH);
        value
    }

    /// Waits for the turn and takes the value. A waiting thread sleeps until the turn is handed on.
    pub fn enter<R: Wait>(&self, rt: &R, pass: &mut Pass<T>) -> T
        requires { MayEnter self.now pass.old }
        ensures lock { IsPassOf self.now pass.new }
        ensures pass { knowledge pass.new ≡ after_enter (knowledge pass.old) (T.history result) }
        ensures root { HasRoot pass.old (T.root result) }
        ensures seen { IsPrefix (knowledge pass.old).seen (T.history result) }
        ensures own { items_of T.maker (knowledge pass.old).number (T.history result)
            ≡ (knowledge pass.old).own }
        ensures ended { (knowledge pass.old).number ≡ 0
            → EndedStand T.maker (knowledge pass.old).ended (T.history result) }
    {
        for _ in rt.forever() {
            if let Some(value) = self.try_enter(pass) {
                return value;
            }
            self.table.shared.park(rt, TURN, TAKEN as u32);
        }
        unreachable!()
    }

    /// Puts the value back, of which nothing was changed in its history, and hands the turn on.
    pub fn leave_same(&self, pass: &mut Pass<T>, value: T)
        requires pass { MayLeave self.now pass.old }
        requires root { HasRoot pass.old (T.root value) }
        requires same { T.history value ≡ (knowledge pass.old).seen }
        ensures lock { IsPassOf self.now pass.new }
        ensures pass { knowledge pass.new ≡ after_leave (knowledge pass.old) }
    {
        let shared = &self.table.shared;
        let _empty = shared.exchange(&mut pass.seat, VALUE, Some(value));
        shared.store::<HandOn>(&mut pass.seat, TURN, FREE);
        shared.wake_one(TURN);
    }

    /// Puts the value back, whose history has one item more, made by this pass, and hands the turn on. It wakes the passes
    /// that wait for news.
    pub fn leave_with(&self, pass: &mut Pass<T>, value: T)
        requires pass { MayLeave self.now pass.old }
        requires root { HasRoot pass.old (T.root value) }
        requires grown { GrowsByOne T.maker (knowledge pass.old).number
            (knowledge pass.old).seen (T.history value) }
        requires length { length (T.history value) < 2 ^ 64 }
        ensures lock { IsPassOf self.now pass.new }
        ensures pass { knowledge pass.new
            ≡ after_leave (after_note (knowledge pass.old) (T.history value)) }
        ensures own { (item : T.Item) → T.history value ≡ (knowledge pass.old).seen ++ item ∷ []
            → (knowledge pass.new).own ≡ (knowledge pass.old).own ++ item ∷ [] }
    {
        let shared = &self.table.shared;
        let _none = shared.exchange(&mut pass.seat, VALUE, Some(value));
        shared.fetch_add::<Note>(&mut pass.seat, LENGTH, 1);
        pass.seen += 1;
        shared.store::<HandOn>(&mut pass.seat, TURN, FREE);
        shared.wake_one(TURN);
        shared.wake_all(LENGTH);
    }

    /// Waits until the history is longer than what the pass has seen. A waiting thread sleeps until an item is noted, also
    /// where that happens between its look at the length and its sleep: it sleeps only on the length that it has looked at.
    ///
    /// It tells nothing of the history. What is new is seen at the next turn.
    pub fn wait_for_news<R: Wait>(&self, rt: &R, pass: &Pass<T>)
        requires { MayEnter self.now pass.now }
    {
        let shared = &self.table.shared;
        for _ in rt.forever() {
            if shared.peek(LENGTH) != pass.seen {
                return;
            }
            // A sleep is on the lower half of a word.
            shared.park(rt, LENGTH, (pass.seen % (1 << 32)) as u32);
        }
    }

    /// Gives the value back. This needs no memory, so it is never refused: the `Err`, which would hand back both the
    /// lock and the pass, does not come.
    ///
    /// No contract lets the lock be closed while another pass is out. `out` has to be 0, each split raises it by one,
    /// and only a join lowers it, which consumes the pass that comes back.
    pub fn close(self, mut pass: Pass<T>) -> Result<T, (TurnLock<T, A>, Pass<T>)>
        requires pass { MayEnter self pass }
        requires first { (knowledge pass).number ≡ 0 }
        requires none_out { (knowledge pass).out ≡ 0 }
        ensures done { IsOk result }
        ensures root { IfOk result (λ x. HasRoot pass (T.root x)) }
        ensures seen { IfOk result (λ x. IsPrefix (knowledge pass).seen (T.history x)) }
        ensures own { IfOk result (λ x. items_of T.maker 0 (T.history x) ≡ (knowledge pass).own) }
        ensures ended { IfOk result (λ x. EndedStand T.maker (knowledge pass).ended (T.history x)) }
    {
        match self.try_enter(&mut pass) {
            Some(value) => Ok(value),
            None => Err((self, pass)),
        }
    }
}
