//! What the passes know, and the rule that ties it to the words and the value that they share.
//! Word 0 is the length of the history, and word 1 is the turn: 0 where it is free and 1 where it is taken.
//! The one slot holds the value, and is out with the seat that has the turn.
ghost use Rattle.turn_lock.specs.inner.Rule.{IsKept};
ghost use Rattle.turn_lock.specs.inner.Steps.{first_view};

use crate::chronicle::Chronicle;
use atomic_table::TableRule;
use std::collections::LinkedList;
use std::snapshot::Snapshot;

/// The items of a pass that was joined into the pass of number 0.
/// It stands in contracts alone: no value of it is made.
pub struct Ended<I> {
    pub number: u32,
    pub items: LinkedList<I>,
}

/// What a pass knows. It stands in contracts alone: no value of it is made.
/// Only the pass of number 0 gives numbers, takes passes back, and has `out` and `ended`.
pub struct Knowledge<R, I> {
    pub number: u32,
    /// How many numbers are its own or not yet given. The next split gives the number `room - 1`.
    pub room: u32,
    /// How many passes it gave and has not taken back.
    pub out: u32,
    /// True from `enter` until `leave_same` or `leave_with`.
    pub has_turn: bool,
    /// The root of the lock's value, alone in its list.
    pub root: LinkedList<R>,
    /// The history when the lock was made.
    pub earlier: LinkedList<I>,
    /// A beginning of the history.
    pub seen: LinkedList<I>,
    /// The items of its number in the history.
    pub own: LinkedList<I>,
    /// The passes that were joined into it, with their items. No later item has such a number.
    pub ended: LinkedList<Ended<I>>,
}

/// What a seat at the table knows. No value of it is made.
pub struct View<R, I> {
    /// False once the seat was joined into another.
    pub is_live: bool,
    pub knowledge: Knowledge<R, I>,
    /// What the two passes of the last join had seen, and how many were out before it.
    pub first_seen: LinkedList<I>,
    pub second_seen: LinkedList<I>,
    pub was_out: u32,
}

/// What the table is told when it is made.
#[derive(Drop)]
pub struct Opening<T> {
    pub value: Snapshot<T>,
    pub passes: u32,
}

pub struct Turns;

impl<T: Chronicle> TableRule<Option<T>, View<T::Root, T::Item>, Opening<T>> for Turns {
    ghost holds = { λ key. IsKept T.root T.history T.maker (T.root key.value.value) };

    ghost first = { λ key. first_view T.maker (T.root key.value.value) (T.history key.value.value) key.passes };
}
