//! What each step tells, and how views are cut and joined.
ghost use Rattle.turn_lock.specs.inner.Steps.{Grabs, Notes, HandsOn, Looks, left_of, right_of, both_of, spent_view};

use crate::chronicle::Chronicle;
use crate::rule::View;
use atomic_table::{Join, Play, Split};
use std::marker::PhantomData;

/// Takes the turn, and the slot with it, where the turn is free.
pub(crate) struct Grab;

impl<T: Chronicle> Play<Option<T>, View<T::Root, T::Item>> for Grab {
    ghost then = { Grabs T.root T.history T.maker };
}

/// Counts the item by which the value in the slot has grown.
pub(crate) struct Note;

impl<T: Chronicle> Play<Option<T>, View<T::Root, T::Item>> for Note {
    ghost then = { Notes T.history };
}

/// Gives the turn and the slot back.
pub(crate) struct HandOn;

impl<T: Chronicle> Play<Option<T>, View<T::Root, T::Item>> for HandOn {
    ghost then = { HandsOn };
}

/// Learns what the rule says of a join and, with the turn, how long the history is.
pub(crate) struct Look;

impl<T: Chronicle> Play<Option<T>, View<T::Root, T::Item>> for Look {
    ghost then = { Looks };
}

/// Gives a number away, with the items that it had before the lock was made.
pub(crate) struct Cut<T> {
    _of: PhantomData<T>,
}

impl<T: Chronicle> Split<View<T::Root, T::Item>> for Cut<T> {
    ghost left = { left_of };

    ghost right = { right_of T.maker };
}

pub(crate) struct Glue;

impl<R, I> Join<View<R, I>> for Glue {
    ghost both = { both_of };

    ghost spent = { spent_view };
}
