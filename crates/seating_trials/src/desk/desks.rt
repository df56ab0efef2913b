//! Days of a desk, as lists of what is done and of what comes of it, and a plain desk that looks at all ids.
ghost use Rattle.booking_desk.specs.inner.Desk.{IsRequest};

use booking_desk::{BookReply, BookingDesk};
use ride_model::Command;
use ride_model::limits::MOST_REQUESTS;
use std::alloc::Global;
use std::process::Abort;

/// What is done at a desk.
#[derive(Clone, Copy)]
pub(super) enum Action {
    /// Books the request of an id for a release.
    Book(u64, u64),
    Unbook(u64),
    Clock(u64),
}

use Action::{Book, Clock, Unbook};

/// What a booking that is held answers, and one whose release has come.
pub(super) const HELD: u64 = 0;

pub(super) const NOW: u64 = 1;

const fn request(id: u64) -> Command
    ensures { IsRequest result }
{
    Command::Request {
        id,
        from: 2,
        to: 4,
        seats: 1,
        latest: 600,
        longest: 300,
        chairs: 0,
    }
}

fn book(rt: &impl Abort, desk: &mut BookingDesk, release: u64, id: u64) -> u64 {
    match desk.book(release, &request(id)) {
        Ok(BookReply::Held) => HELD,
        Ok(BookReply::Now) => NOW,
        Ok(BookReply::Refused { code }) => u64::from(code),
        Err(_) => panic!(rt; "there is memory"),
    }
}

fn take_due(rt: &impl Abort, desk: &mut BookingDesk) -> Option<u64> {
    let due = desk.due()?;
    desk.take_due();
    let Command::Request { id, .. } = due else {
        panic!(rt; "what is due is a request");
    };
    Some(id)
}

/// Does an action, and tells what a booking is answered, whether an unbooked one was held, or the ids that are released.
fn act(rt: &impl Abort, desk: &mut BookingDesk, action: Action, told: &mut Vec<u64>) {
    match action {
        Book(release, id) => tell(rt, told, book(rt, desk, release, id)),
        Unbook(id) => tell(rt, told, u64::from(desk.unbook(id))),
        Clock(time) => {
            desk.clock(time);
            for _ in 0..desk.held() {
                let Some(id) = take_due(rt, desk) else {
                    return;
                };
                tell(rt, told, id);
            }
        }
    }
}

fn tell(rt: &impl Abort, told: &mut Vec<u64>, number: u64) {
    assert!(rt; told.push(number).is_ok());
}

/// What a desk of so many bookings tells of a day.
fn told_of(rt: &impl Abort, alloc: Global, most: u32, actions: &[Action]) -> Vec<u64> {
    assert!(rt; most <= MOST_REQUESTS);
    let mut desk = BookingDesk::new(alloc, most).expect(rt, "there is memory");
    let mut told = Vec::new(alloc);
    for action in actions {
        act(rt, &mut desk, *action, &mut told);
    }
    told
}

/// A desk of some ids that looks at all of them.
pub(super) struct PlainDesk {
    /// The release of each id that is held, or one of the marks.
    releases: Vec<u64>,
    clock: u64,
}

const NOT_BOOKED: u64 = u64::MAX;

const NO_LONGER_HELD: u64 = u64::MAX - 1;

impl Drop for PlainDesk {
    fn drop(self) {
        let PlainDesk { releases, clock: _ } = self;
        drop(releases);
    }
}

impl PlainDesk {
    pub(super) fn new(rt: &impl Abort, alloc: Global) -> PlainDesk {
        let releases = vec![in alloc; NOT_BOOKED; 800];
        PlainDesk {
            releases: releases.expect(rt, "there is memory"),
            clock: 0,
        }
    }

    /// How many are held.
    pub(super) fn held(&self) -> u64 {
        let mut held = 0u64;
        for release in self.releases.as_slice() {
            held = held.wrapping_add(u64::from(*release < NO_LONGER_HELD));
        }
        held
    }

    /// Does an action, and tells the same as a desk.
    pub(super) fn act(&mut self, rt: &impl Abort, action: Action, told: &mut Vec<u64>) {
        match action {
            Book(release, id) => tell(rt, told, self.book(rt, release, id)),
            Unbook(id) => tell(rt, told, u64::from(self.let_go(id))),
            Clock(time) => {
                self.clock = self.clock.max(time);
                for _ in 0..self.releases.len() {
                    let Some(id) = self.first_due() else {
                        return;
                    };
                    self.let_go(id);
                    tell(rt, told, id);
                }
            }
        }
    }

    fn book(&mut self, rt: &impl Abort, release: u64, id: u64) -> u64 {
        if release > 1_000_000_000 {
            return 20;
        }
        let Some(kept) = self.releases.get_mut(id as usize) else {
            panic!(rt; "this desk has no such id");
        };
        if *kept != NOT_BOOKED {
            return 19;
        }
        if release <= self.clock {
            *kept = NO_LONGER_HELD;
            return NOW;
        }
        *kept = release;
        HELD
    }

    /// Lets the booking of an id go; answers whether it was held.
    fn let_go(&mut self, id: u64) -> bool {
        let Some(kept) = self.releases.get_mut(id as usize) else {
            return false;
        };
        if *kept >= NO_LONGER_HELD {
            return false;
        }
        *kept = NO_LONGER_HELD;
        true
    }

    /// The least id of the least release that has come.
    fn first_due(&self) -> Option<u64> {
        let mut least = NO_LONGER_HELD;
        let mut first = None;
        for (id, release) in self.releases.iter().enumerate() {
            if *release <= self.clock && *release < least {
                least = *release;
                first = Some(id as u64);
            }
        }
        first
    }
}

/// A day at a desk of so many bookings, and what it tells.
struct Day {
    most: u32,
    actions: &'static [Action],
    told: &'static [u64],
}

static DAYS: [Day; 4] = [
    // Of one release the lesser id comes first, and an unbooked booking is not released.
    Day {
        most: 100_000,
        actions: &[
            Book(60, 7),
            Book(60, 5),
            Book(30, 9),
            Unbook(9),
            Unbook(9),
            Clock(59),
            Clock(60),
        ],
        told: &[HELD, HELD, HELD, 1, 0, 5, 7],
    },
    // A release that has come, an id that was booked before, and a release above 10^9.
    Day {
        most: 100_000,
        actions: &[
            Book(0, 7),
            Book(5, 7),
            Book(1_000_000_001, 8),
            Book(1_000_000_000, 8),
        ],
        told: &[NOW, 19, 20, HELD],
    },
    // A desk that is full refuses new ids, of which the releases and the ids that were booked are told first.
    Day {
        most: 1,
        actions: &[Book(9, 1), Book(9, 2), Book(9, 1), Book(1_000_000_001, 1)],
        told: &[HELD, 22, 19, 20],
    },
    // The clock does not fall, and an id that was released or unbooked stays booked.
    Day {
        most: 9,
        actions: &[
            Clock(50),
            Clock(40),
            Book(45, 1),
            Book(51, 2),
            Clock(51),
            Book(60, 2),
            Unbook(2),
            Book(70, 3),
            Unbook(3),
            Book(80, 3),
        ],
        told: &[NOW, HELD, 2, 19, 0, HELD, 1, 19],
    },
];

/// The number after another of a linear congruential generator.
pub(super) fn after(seed: u64) -> u64 {
    seed.wrapping_mul(6_364_136_223_846_793_005)
        .wrapping_add(1_442_695_040_888_963_407)
}

/// Books 600 requests for releases of an hour, unbooks every third, and moves the clock in steps of a minute.
fn many_actions(rt: &impl Abort, alloc: Global) -> Vec<Action> {
    let mut actions = Vec::new(alloc);
    let mut seed = 7;
    for id in 0..600u64 {
        seed = after(seed);
        assert!(rt; actions.push(Book(1 + seed / 65_536 % 3_600, id)).is_ok());
        if id % 3 == 2 {
            assert!(rt; actions.push(Unbook(id - 2)).is_ok());
        }
    }
    for minute in 0..61u64 {
        assert!(rt; actions.push(Clock(minute * 60)).is_ok());
    }
    actions
}

/// What a plain desk tells of a day.
fn plainly_told_of(rt: &impl Abort, alloc: Global, actions: &[Action]) -> Vec<u64> {
    let mut desk = PlainDesk::new(rt, alloc);
    let mut told = Vec::new(alloc);
    for action in actions {
        desk.act(rt, *action, &mut told);
    }
    told
}

/// A desk tells the same of many actions as a plain one: each of 600 bookings that it is held, each of 200 that are unbooked that it
/// was, and 400 that are released.
fn expect_many(rt: &impl Abort, alloc: Global) {
    let actions = many_actions(rt, alloc);
    let told = told_of(rt, alloc, 1_000, actions.as_slice());
    let plain = plainly_told_of(rt, alloc, actions.as_slice());
    assert!(rt; told.len() == 1_200 && told.as_slice() == plain.as_slice());
}

#[test]
fn desks_tell_what_comes_of_their_days(rt: HostRuntime) {
    for day in DAYS.as_slice() {
        let told = told_of(&rt, rt.alloc(), day.most, day.actions);
        assert!(&rt; told.as_slice() == day.told);
    }
    expect_many(&rt, rt.alloc());
}
