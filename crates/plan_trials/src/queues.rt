//! A few nodes with near and far keys.
ghost use Rattle.std.specs.Prelude.{◌≡◌, length};

use radix_queue::*;
use std::alloc::Global;
use std::process::Abort;

/// What is done with a queue, and what is seen then.
#[derive(Clone, Copy)]
enum Step {
    /// A node gets a key, or a lower one.
    Put(u32, u64),
    /// Some node comes out, with this key.
    Least(u64),
    /// This node comes out, with this key.
    Node(u32, u64),
    /// No node is left.
    Empty,
    Clear,
}

/// The steps of a queue of so many nodes.
struct Case {
    nodes: u32,
    steps: &'static [Step],
}

/// Nodes come by rising keys, from the least key to the greatest.
const RISING: [Step; 13] = [
    Step::Put(0, 7),
    Step::Put(1, 3),
    Step::Put(2, 3 << 40),
    Step::Put(3, 3),
    Step::Put(4, u64::MAX),
    Step::Least(3),
    Step::Least(3),
    Step::Put(5, 6),
    Step::Least(6),
    Step::Least(7),
    Step::Least(3 << 40),
    Step::Node(4, u64::MAX),
    Step::Empty,
];

/// A key is lowered, and never raised.
const LOWERED: [Step; 6] = [
    Step::Put(0, 9),
    Step::Put(1, 8),
    Step::Put(0, 2),
    Step::Put(1, 10),
    Step::Node(0, 2),
    Step::Node(1, 8),
];

/// A cleared queue begins anew, with keys below those that came out.
const CLEARED: [Step; 8] = [
    Step::Put(0, 100),
    Step::Put(1, 200),
    Step::Put(2, 100),
    Step::Least(100),
    Step::Clear,
    Step::Empty,
    Step::Put(1, 4),
    Step::Node(1, 4),
];

static CASES: [Case; 3] = [
    Case {
        nodes: 6,
        steps: &RISING,
    },
    Case {
        nodes: 2,
        steps: &LOWERED,
    },
    Case {
        nodes: 3,
        steps: &CLEARED,
    },
];

// Takes a node of this key out.
fn expect_key(rt: &impl Abort, queue: &mut RadixQueue, wanted: u64) -> u32
    ensures floor { queue.new.floor ≡ wanted }
    ensures size { length queue.new.keys ≡ length queue.old.keys }
{
    let (node, key) = queue.take_least().expect(rt, "a node is there");
    assert!(rt; key == wanted, "not {wanted}");
    node
}

// Takes a step of a queue of so many nodes. Answers the least key that a node may have then.
fn take(rt: &impl Abort, queue: &mut RadixQueue, nodes: u32, floor: u64, step: Step) -> u64
    requires size { length queue.old.keys ≡ nodes }
    requires floor { queue.old.floor ≡ floor }
    ensures size { length queue.new.keys ≡ nodes }
    ensures floor { queue.new.floor ≡ result }
{
    match step {
        Step::Put(node, key) => {
            assert!(rt; node < nodes && floor <= key);
            queue.put_or_lower(node, key);
            floor
        }
        Step::Least(key) => {
            expect_key(rt, queue, key);
            key
        }
        Step::Node(node, key) => {
            let least = expect_key(rt, queue, key);
            assert!(rt; least == node);
            key
        }
        Step::Empty => {
            assert!(rt; queue.take_least().is_none());
            floor
        }
        Step::Clear => {
            queue.clear();
            0
        }
    }
}

fn take_all(rt: &impl Abort, alloc: Global, case: &Case) {
    let mut queue = RadixQueue::new(alloc, case.nodes).expect(rt, "there is memory");
    let mut floor = 0;
    for step in case.steps {
        floor = take(rt, &mut queue, case.nodes, floor, *step);
    }
}

#[test]
fn the_least_key_comes_whether_put_lowered_or_cleared(rt: HostRuntime) {
    for case in &CASES {
        take_all(&rt, rt.alloc(), case);
    }
}
