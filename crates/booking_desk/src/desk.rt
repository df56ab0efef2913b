//! The booking desk.
ghost use Rattle.std.specs.Prelude.{◌≡◌, ◌≤◌, ◌∷◌, IsSome, IfOk, IfSome, OnErr, length, option_map};
ghost use Rattle.ride_model.specs.declared.limits.TheConstants.{MOST_REQUESTS};
ghost use Rattle.booking_desk.specs.Desk.{Booking, reply_to_book, request_id};
ghost use Rattle.booking_desk.specs.inner.Desk.{is_held, IsDesk, IsRequest, after_book, after_clock, after_take, after_unbook, due_of, new_desk};

use crate::{BookReply, NoMemory};
use indexmap::IndexMap;
use ride_model::Command;
use ride_model::limits::LATEST_TIME;
use ride_model::refusals::{BOOKED_BEFORE, DESK_FULL, LATE_RELEASE};
use std::alloc::Global;
use std::collections::BTreeMap;
use std::marker::Model;

/// Bookings, of which those that were neither unbooked nor taken are held in order of release and, of one release, of id.
///
/// A booking is made, unbooked and taken in logarithmic time.
#[derive(Drop)]
pub struct BookingDesk {
    most: u32,
    clock: u64,
    /// The release of each request that was ever booked, by its id.
    booked: IndexMap<u64, u64>,
    /// The requests that are held, by release and id.
    held: BTreeMap<(u64, u64), Command>,
}

impl Model for BookingDesk {
    ghost use Rattle.booking_desk.specs.Desk.{DeskState};

    ghost Value = { DeskState };

    ghost use Rattle.std.specs.Map.{keys_of};
    ghost use Rattle.booking_desk.specs.inner.Kept.{IsKept, bookings_in};

    ghost view = { λ desk. record { most = desk.most; clock = desk.clock; booked = keys_of desk.booked.entries; held = bookings_in desk.held.entries } };

    ghost invariant = { λ desk. IsKept desk.most desk.booked.entries desk.held.entries };
}

impl BookingDesk {
    /// A desk that takes at most so many bookings, with its clock at 0.
    pub fn new(alloc: Global, most: u32) -> Result<BookingDesk, NoMemory>
        requires { most ≤ MOST_REQUESTS }
        ensures { IfOk result (λ desk. desk ≡ new_desk most) }
    {
        let booked = IndexMap::with_capacity(alloc, most as usize)?;
        Ok(BookingDesk {
            most,
            clock: 0,
            booked,
            held: BTreeMap::new(alloc),
        })
    }

    /// Books a request, which is to be released at a time in seconds.
    pub fn book(&mut self, release: u64, request: &Command) -> Result<BookReply, NoMemory>
        requires { IsRequest request.now }
        ensures reply { IfOk result (λ reply. reply ≡ reply_to_book self.old release request.now) }
        ensures booked { IfOk result (λ _. self.new ≡ after_book self.old release request.now) }
        ensures no_memory { OnErr result (self.new ≡ self.old) }
    {
        let id = request_id(request);
        if release > LATEST_TIME {
            return Ok(BookReply::Refused { code: LATE_RELEASE });
        }
        if self.booked.contains_key(&id) {
            return Ok(BookReply::Refused {
                code: BOOKED_BEFORE,
            });
        }
        if self.booked.len() >= self.most as usize {
            return Ok(BookReply::Refused { code: DESK_FULL });
        }
        self.booked.insert(id, release)?;
        if release <= self.clock {
            return Ok(BookReply::Now);
        }
        match self.held.insert((release, id), *request) {
            Ok(_) => Ok(BookReply::Held),
            Err(failed) => {
                self.booked.pop();
                Err(NoMemory::from(failed))
            }
        }
    }

    /// Gives up the booking of an id, and answers whether it was held.
    pub fn unbook(&mut self, id: u64) -> bool
        ensures held { result ≡ is_held id self.old.held }
        ensures unbooked { self.new ≡ after_unbook self.old id }
    {
        let Some(release) = self.booked.get(&id).copied() else {
            return false;
        };
        self.held.remove(&(release, id)).is_some()
    }

    /// Moves the clock to a time, unless it is later already.
    pub fn clock(&mut self, time: u64)
        ensures { self.new ≡ after_clock self.old time }
    {
        self.clock = self.clock.max(time);
    }

    /// The number of bookings that are held.
    pub fn held(&self) -> u32
        ensures held { result ≡ length self.now.held }
        ensures desk { IsDesk self.now }
    {
        self.held.len() as u32
    }

    /// The first request that is due, in order of release and id: its release is at most the clock.
    pub fn due(&self) -> Option<Command>
        ensures { result ≡ option_map (λ (booking : Booking). booking.request) (due_of self.now) }
    {
        let ((release, _), request) = self.held.first_key_value()?;
        if *release > self.clock {
            return None;
        }
        Some(*request)
    }

    /// Takes the first booking that is due.
    pub fn take_due(&mut self)
        requires { IsSome (due_of self.old) }
        ensures taken { self.new ≡ after_take self.old }
        ensures stood_first { IfSome (due_of self.old)
            (λ booking. self.old.held ≡ booking ∷ self.new.held) }
    {
        self.held.pop_first();
    }
}

/// The id of a request.
fn request_id(request: &Command) -> u64
    requires { IsRequest request.now }
    ensures { result ≡ request_id request.now }
{
    match request {
        Command::Request { id, .. } => *id,
        _ => unreachable!(),
    }
}
