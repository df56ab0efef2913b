//! A day of bookings.
ghost use Rattle.std.specs.Prelude.{◌≤◌};
ghost use Rattle.booking_desk.specs.inner.Desk.{IsRequest};

use crate::stopwatch::Stopwatch;
use booking_desk::BookingDesk;
use ride_model::limits::MOST_REQUESTS;
use ride_model::{Command, NoMemory};
use std::alloc::Global;
use std::io;
use std::rt::Clock;

const SECONDS_OF_DAY: u64 = 86_400;

/// A request that is booked.
fn request(id: u32) -> Command
    ensures { IsRequest result }
{
    Command::Request {
        id: u64::from(id),
        from: 1,
        to: 2,
        seats: 1,
        latest: SECONDS_OF_DAY,
        longest: 3_600,
        chairs: 0,
    }
}

/// Books so many requests, each for a second of the day, out of order.
fn book_all(desk: &mut BookingDesk, many: u32) -> Result<(), NoMemory> {
    for id in 0..many {
        let release = u64::from(id) * 7_919 % SECONDS_OF_DAY;
        desk.book(release, &request(id))?;
    }
    Ok(())
}

/// Unbooks each second one.
fn unbook_half(desk: &mut BookingDesk, many: u32) {
    for id in (0..many).step_by(2) {
        desk.unbook(u64::from(id));
    }
}

/// Takes all that are due; answers how many they were.
fn take_all(desk: &mut BookingDesk) -> u32 {
    let held = desk.held();
    for _ in 0..held {
        if desk.due().is_none() {
            break;
        }
        desk.take_due();
    }
    held.saturating_sub(desk.held())
}

/// Releases the bookings of a day second by second; answers how many were released.
fn release_day(desk: &mut BookingDesk) -> u32 {
    let mut released = 0u32;
    for second in 0..SECONDS_OF_DAY {
        desk.clock(second);
        released = released.saturating_add(take_all(desk));
    }
    released
}

/// Books so many requests over a day, unbooks half of them and releases the others; answers how many were released.
fn day(alloc: Global, many: u32) -> Result<u32, NoMemory>
    requires { many ≤ 100000 }
{
    let mut desk = BookingDesk::new(alloc, many)?;
    book_all(&mut desk, many)?;
    unbook_half(&mut desk, many);
    Ok(release_day(&mut desk))
}

/// Prints how many of a day's bookings are released.
pub fn small(rt: &impl Print, alloc: Global) -> io::Result<()> {
    let released = day(alloc, 1_000)?;
    println!(rt; "bookings 1000 released {released}")
}

/// Times the bookings of a day at a full desk.
pub fn bookings<R: Clock + Print>(rt: &R, alloc: Global) -> io::Result<()> {
    let watch = Stopwatch::start(rt);
    let released = day(alloc, MOST_REQUESTS)?;
    let millis = watch.elapsed(rt).as_millis();
    println!(rt; "bookings 100000 released {released} in {millis} ms")
}
