//! Short lists over six nodes, walked from their first nodes.
ghost use Rattle.std.specs.Prelude.{◌≡◌, ◌<◌, length};
ghost use Rattle.link_lists.specs.inner.Family.{IsSameSize};

use link_lists::*;
use std::alloc::Global;
use std::process::Abort;

/// What is done with a node that is in no list, or taken out of its list.
#[derive(Clone, Copy)]
enum Step {
    /// A list gets a node at its end.
    Back(u32, u32),
    /// A list gets a node at its front.
    Front(u32, u32),
    /// Behind a node of a list comes another.
    After(u32, u32),
    /// A node leaves its list.
    Out(u32),
}

/// Steps, and the nodes of both lists then.
struct Case {
    steps: &'static [Step],
    lists: [&'static [u32]; 2],
}

static CASES: [Case; 4] = [
    // Nodes go to both ends.
    Case {
        steps: &[
            Step::Back(0, 1),
            Step::Back(0, 2),
            Step::Back(1, 3),
            Step::Front(0, 0),
        ],
        lists: [&[0, 1, 2], &[3]],
    },
    // A node goes behind another.
    Case {
        steps: &[Step::Back(1, 4), Step::Back(1, 2), Step::After(4, 5)],
        lists: [&[], &[4, 5, 2]],
    },
    // A node is taken out.
    Case {
        steps: &[
            Step::Back(0, 5),
            Step::Back(0, 0),
            Step::Back(0, 3),
            Step::Out(0),
        ],
        lists: [&[5, 3], &[]],
    },
    // A node taken out enters another list.
    Case {
        steps: &[
            Step::Back(0, 5),
            Step::Back(0, 0),
            Step::Back(0, 3),
            Step::Out(0),
            Step::Back(1, 0),
        ],
        lists: [&[5, 3], &[0]],
    },
];

// Whether these are the nodes of a list, in order.
fn has_nodes(links: &Links, list: u32, nodes: &[u32]) -> bool
    requires { list < length links.now.lists }
{
    let mut current = links.first(list);
    for wanted in nodes {
        let Some(node) = current else {
            return false;
        };
        if node != *wanted {
            return false;
        }
        current = links.next(node);
    }
    current.is_none()
}

fn take(rt: &impl Abort, links: &mut Links, step: Step)
    requires nodes { links.old.nodes ≡ 6 }
    requires lists { length links.old.lists ≡ 2 }
    ensures { IsSameSize links.old links.new }
{
    match step {
        Step::Back(list, node) => {
            assert!(rt; list < 2 && node < 6 && !links.holds(node));
            links.push_back(list, node);
        }
        Step::Front(list, node) => {
            assert!(rt; list < 2 && node < 6 && !links.holds(node));
            links.push_front(list, node);
        }
        Step::After(place, node) => {
            assert!(rt; place < 6 && node < 6 && links.holds(place) && !links.holds(node));
            links.insert_after(place, node);
        }
        Step::Out(node) => {
            assert!(rt; node < 6 && links.holds(node));
            links.unlink(node);
        }
    }
}

// Whether both lists are as they should be after the steps.
fn ends_well(rt: &impl Abort, alloc: Global, case: &Case) -> bool {
    let mut links = Links::new(alloc, 6, 2).expect(rt, "there is memory");
    for step in case.steps {
        take(rt, &mut links, *step);
    }
    has_nodes(&links, 0, case.lists[0]) && has_nodes(&links, 1, case.lists[1])
}

#[test]
fn lists_keep_the_order_that_nodes_are_given(rt: HostRuntime) {
    for (number, case) in CASES.iter().enumerate() {
        assert!(rt; ends_well(&rt, rt.alloc(), case), "case {number}");
    }
}
