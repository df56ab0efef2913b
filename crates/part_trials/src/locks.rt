//! A lock whose passes write numbers at the same time.
ghost use Rattle.std.specs.Prelude.{◌≡◌, ◌<◌, ◌≤◌, ◌^◌, [], length, OnOk};
ghost use Rattle.std.specs.Thread.{IsSync};
ghost use Rattle.turn_lock.specs.inner.History.{GrowsByOne};
ghost use Rattle.turn_lock.specs.Passes.{MayEnter, HasRoot, knowledge};

use std::alloc::{AllocError, Global};
use std::collections::LinkedList;
use std::process::Abort;
use std::sync::Wait;
use std::thread::{Threads, join};
use turn_lock::{Chronicle, Pass, TurnLock};

#[derive(Clone, Copy)]
struct Entry {
    by: u32,
    number: u32,
}

// Numbers, each with the pass that wrote it, beside limits that the value borrows.
#[derive(Drop)]
struct Numbers<'a> {
    limits: &'a [u32],
    entries: Vec<Entry>,
}

impl<'a> Chronicle for Numbers<'a> {
    type Root = LinkedList<u32>;

    type Item = Entry;

    ghost root = { λ l. l.limits.now };

    ghost history = { λ l. l.entries.items };

    ghost maker = { λ e. e.by };
}

// A chronicle that numbers can be written into.
trait Write: Chronicle {
    fn write(&mut self, by: u32, number: u32) -> Result<(), AllocError>
        ensures root { Self.root self.new ≡ Self.root self.old }
        ensures wrote { OnOk result (GrowsByOne Self.maker by
            (Self.history self.old) (Self.history self.new)) }
        ensures countable { OnOk result (length (Self.history self.new) < 2 ^ 64) };

    fn count(&self) -> usize;
}

impl<'a> Numbers<'a> {
    fn new(alloc: Global, limits: &'a [u32]) -> Numbers<'a>
        ensures { result.entries.items ≡ [] }
    {
        Numbers {
            limits,
            entries: Vec::new(alloc),
        }
    }
}

impl<'a> Write for Numbers<'a> {
    fn write(&mut self, by: u32, number: u32) -> Result<(), AllocError> {
        self.entries.push(Entry { by, number })?;
        Ok(())
    }

    fn count(&self) -> usize {
        self.entries.len()
    }
}

// Writes the numbers below `count`, each at a turn of its own.
fn write_all<T: Write + Send, R: Wait + Abort>(
    rt: &R,
    lock: &TurnLock<T>,
    mut pass: Pass<T>,
    count: u32,
) -> Pass<T>
    requires { MayEnter lock.now pass }
    ensures pass { MayEnter lock.now result }
    ensures number { (knowledge result).number ≡ (knowledge pass).number }
    ensures room { (knowledge result).room ≡ (knowledge pass).room }
    ensures out { (knowledge result).out ≡ (knowledge pass).out }
{
    for number in 0..count {
        let mut value = lock.enter(rt, &mut pass);
        let written = value.write(pass.number(), number);
        written.expect(rt, "there is memory");
        lock.leave_with(&mut pass, value);
    }
    pass
}

// Two threads write, each with its own pass.
fn write_both<T: Write + Send, R: Threads + Wait + Abort + Sync>(
    rt: &R,
    lock: &TurnLock<T>,
    one: Pass<T>,
    two: Pass<T>,
    count: u32,
) -> (Pass<T>, Pass<T>)
    requires one { MayEnter lock.now one }
    requires two { MayEnter lock.now two }
    ensures one { MayEnter lock.now result.0
        × ((knowledge result.0).number ≡ (knowledge one).number) }
    ensures two { MayEnter lock.now result.1
        × ((knowledge result.1).number ≡ (knowledge two).number) }
{
    join(
        rt,
        move || -> Pass<T>
            requires { MayEnter lock.now one }
            ensures { MayEnter lock.entry.now result
                × ((knowledge result).number ≡ (knowledge one).number) }
        { write_all(rt, lock, one, count) },
        move || -> Pass<T>
            requires { MayEnter lock.now two }
            ensures { MayEnter lock.entry.now result
                × ((knowledge result).number ≡ (knowledge two).number) }
        { write_all(rt, lock, two, count) },
    )
}

// Two passes write at the same time. They come back, and the lock is closed.
fn share_by_two<T: Write + Send, R: Threads + Wait + Abort + Sync>(
    rt: &R,
    lock: TurnLock<T>,
    mut first: Pass<T>,
    count: u32,
) -> T
    requires pass { MayEnter lock first }
    requires first { ((knowledge first).number ≡ 0) × (3 ≤ (knowledge first).room)
        × ((knowledge first).out ≡ 0) }
    ensures root { HasRoot first (T.root result) }
{
    let one = lock.split(&mut first);
    let two = lock.split(&mut first);
    let (one, two) = write_both(rt, &lock, one, two, count);
    lock.join(&mut first, one);
    lock.join(&mut first, two);
    match lock.close(first) {
        Ok(value) => value,
        Err(_) => unreachable!(),
    }
}

// Whether a pass wrote the numbers below `count` in order, and no others.
fn are_in_order(entries: &[Entry], by: u32, count: u32) -> bool {
    let mut next = 0;
    for entry in entries {
        if entry.by == by {
            if entry.number != next || next >= count {
                return false;
            }
            next += 1;
        }
    }
    next == count
}

// Whether a value has these limits, and a thousand numbers each of the passes 1 and 2.
fn has_thousands(value: Numbers, limits: &[u32]) -> bool {
    let entries = value.entries.as_slice();
    entries.len() == 2000
        && value.limits == limits
        && are_in_order(entries, 1, 1000)
        && are_in_order(entries, 2, 1000)
}

#[test]
fn two_passes_write_a_thousand_numbers_each(rt: HostRuntime) {
    let limits = [3, 5];
    let made = TurnLock::new(rt.alloc(), Numbers::new(rt.alloc(), &limits), 0, 3);
    let (lock, first) = made.expect(&rt, "there is memory");
    let value = share_by_two(&rt, lock, first, 1000);
    assert!(rt; has_thousands(value, &limits));
}

// Passes write and are joined in turn. Answers the numbers of the first three.
fn join_in_turn<T: Write + Send, R: Wait + Abort>(
    rt: &R,
    lock: TurnLock<T>,
    mut first: Pass<T>,
) -> ([u32; 3], T)
    requires pass { MayEnter lock first }
    requires first { ((knowledge first).number ≡ 0) × (4 ≤ (knowledge first).room)
        × ((knowledge first).out ≡ 0) }
{
    let one = lock.split(&mut first);
    let one = write_all(rt, &lock, one, 2);
    let two = lock.split(&mut first);
    let numbers = [first.number(), one.number(), two.number()];
    let two = write_all(rt, &lock, two, 1);
    lock.join(&mut first, one);
    let mut first = write_all(rt, &lock, first, 1);
    let three = lock.split(&mut first);
    let three = write_all(rt, &lock, three, 1);
    lock.join(&mut first, two);
    lock.join(&mut first, three);
    match lock.close(first) {
        Ok(value) => (numbers, value),
        Err(_) => unreachable!(),
    }
}

// Whether the entries are these, each by its pass.
fn has_entries(value: Numbers, made: &[(u32, u32)]) -> bool {
    let entries = value.entries.as_slice();
    for (entry, wanted) in entries.iter().zip(made) {
        if entry.by != wanted.0 || entry.number != wanted.1 {
            return false;
        }
    }
    entries.len() == made.len()
}

#[test]
fn items_stay_after_their_passes_are_joined(rt: HostRuntime) {
    let made = TurnLock::new(rt.alloc(), Numbers::new(rt.alloc(), &[]), 0, 4);
    let (lock, first) = made.expect(&rt, "there is memory");
    let (numbers, value) = join_in_turn(&rt, lock, first);
    let has_entries = has_entries(value, &[(3, 0), (3, 1), (2, 0), (0, 0), (1, 0)]);
    assert!(rt; numbers == [0, 3, 2] && has_entries);
}

// Numbers of which pass 2 has written one.
fn one_written(rt: &impl Abort, alloc: Global) -> Numbers<'static>
    ensures { length result.entries.items ≡ 1 }
{
    let mut value = Numbers::new(alloc, &[]);
    let written = value.entries.push(Entry { by: 2, number: 7 });
    written.expect(rt, "there is memory");
    value
}

#[test]
fn a_lock_goes_on_from_the_items_that_stand(rt: HostRuntime) {
    let made = TurnLock::new(rt.alloc(), one_written(&rt, rt.alloc()), 1, 4);
    let (lock, first) = made.expect(&rt, "there is memory");
    let seen = first.seen();
    let (numbers, value) = join_in_turn(&rt, lock, first);
    let has_entries = has_entries(value, &[(2, 7), (3, 0), (3, 1), (2, 0), (0, 0), (1, 0)]);
    assert!(rt; seen == 1 && numbers == [0, 3, 2] && has_entries);
}

// Waits for news, and then counts the items.
fn count_news<T: Write + Send, R: Wait>(rt: &R, lock: &TurnLock<T>, mut pass: Pass<T>) -> usize
    requires { MayEnter lock.now pass }
{
    lock.wait_for_news(rt, &pass);
    let value = lock.enter(rt, &mut pass);
    let count = value.count();
    lock.leave_same(&mut pass, value);
    count
}

// One thread waits for news while another writes a number.
fn count_beside<T: Write + Send, R: Threads + Wait + Abort + Sync>(
    rt: &R,
    lock: &TurnLock<T>,
    one: Pass<T>,
    two: Pass<T>,
) -> usize
    requires one { MayEnter lock.now one }
    requires two { MayEnter lock.now two }
{
    let (count, _two) = join(
        rt,
        move || -> usize
            requires { MayEnter lock.now one }
        { count_news(rt, lock, one) },
        move || -> Pass<T>
            requires { MayEnter lock.now two }
        { write_all(rt, lock, two, 1) },
    );
    count
}

// One of two passes waits for an item of the other. Answers what the first had seen before, how many items the one counts, and what
// the first has seen after an item of its own.
fn count_items<T: Write + Send, R: Threads + Wait + Abort + Sync>(
    rt: &R,
    lock: TurnLock<T>,
    mut first: Pass<T>,
) -> (u64, usize, u64)
    requires pass { MayEnter lock first }
    requires first { ((knowledge first).number ≡ 0) × (3 ≤ (knowledge first).room) }
{
    let one = lock.split(&mut first);
    let two = lock.split(&mut first);
    let seen = first.seen();
    let count = count_beside(rt, &lock, one, two);
    let first = write_all(rt, &lock, first, 1);
    (seen, count, first.seen())
}

#[test]
fn a_pass_that_waits_is_woken_by_an_item(rt: HostRuntime) {
    let made = TurnLock::new(rt.alloc(), Numbers::new(rt.alloc(), &[]), 0, 3);
    let (lock, first) = made.expect(&rt, "there is memory");
    assert!(rt; count_items(&rt, lock, first) == (0, 1, 2));
}
