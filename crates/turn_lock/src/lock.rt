//! The lock and its passes.
ghost use Rattle.std.specs.Prelude.{◌≡◌, true, length};
ghost use Rattle.turn_lock.specs.inner.Steps.{slots_of};

use crate::chronicle::Chronicle;
use crate::rule::{Opening, Turns, View};
use atomic_table::{Seat, Table};
use std::alloc::{AllocError, Allocator, Global};

/// Want of memory, std's own error.
pub type NoMemory = AllocError;

/// A lock round a value that keeps its own history. Threads share it by reference.
#[derive(Drop)]
pub struct TurnLock<T: Chronicle + Send, A: Allocator = Global> {
    pub(crate) table: Table<Option<T>, View<T::Root, T::Item>, Opening<T>, Turns, A>,
    ghost two_words: { table.shared.table_id.words ≡ 2 },
    ghost one_slot: { table.shared.table_id.slots ≡ 1 },
}

/// The right to take turns under one number. It may go to another thread.
/// A pass that is dropped, with the turn or without, never comes back: then the lock is not closed, and with the turn
/// no pass enters again.
#[derive(Drop)]
pub struct Pass<T: Chronicle + Send> {
    pub(crate) seat: Seat<Option<T>, View<T::Root, T::Item>>,
    pub(crate) number: u32,
    pub(crate) room: u32,
    pub(crate) seen: u64,
    ghost live: { seat.me.0.is_live ≡ true },
    ghost number_is: { number ≡ seat.me.0.knowledge.number },
    ghost room_is: { room ≡ seat.me.0.knowledge.room },
    ghost seen_is: { seen ≡ length seat.me.0.knowledge.seen },
    ghost slots_are: { seat.me.1 ≡ slots_of seat.me.0.knowledge.has_turn },
}
