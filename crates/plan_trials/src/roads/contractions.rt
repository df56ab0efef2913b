// Maps that are contracted to the last node.

use super::maps::network;
use adaptive_roads::contraction::*;
use ride_model::Network;
use std::alloc::Global;
use std::process::Abort;

/// Four nodes in a line, both ways.
const LINE: [(u32, u32, u32); 6] = [
    (1, 2, 5),
    (2, 1, 5),
    (2, 3, 7),
    (3, 2, 7),
    (3, 4, 9),
    (4, 3, 9),
];

/// Parallel arcs, loops, zeros, and a node to which no arc leads.
const TANGLE: [(u32, u32, u32); 9] = [
    (1, 1, 0),
    (1, 2, 4),
    (1, 2, 3),
    (2, 3, 0),
    (3, 1, 0),
    (3, 3, 1),
    (4, 1, 1000000000),
    (4, 2, 0),
    (2, 1, 6),
];

/// A map of four nodes.
struct Case {
    name: &'static str,
    arcs: &'static [(u32, u32, u32)],
}

static CASES: [Case; 2] = [
    Case {
        name: "a line",
        arcs: &LINE,
    },
    Case {
        name: "a tangle",
        arcs: &TANGLE,
    },
];

// Contracts little by little. Answers whether it says that nothing is left.
fn contract_by_steps(rt: &impl Abort, contraction: &mut Contraction) -> bool {
    for _ in 0..1000 {
        let goes_on = contraction.contract_some(3);
        if !goes_on.expect(rt, "there is memory") {
            return true;
        }
    }
    false
}

// Whether nothing is left of a contraction, which has a level for each node and the arcs at least.
fn is_contracted(contraction: &Contraction, nodes: u32, arcs: usize) -> bool {
    let links = contraction.links();
    if !contraction.is_spent() || links == 0 || links < arcs {
        return false;
    }
    let last = contraction.link(links - 1);
    contraction.nodes() == nodes
        && contraction.order().len() == nodes as usize
        && contraction.levels().len() == nodes as usize + 1
        && last.tail <= nodes
        && last.head <= nodes
}

// Contracts the map of a case, which begins unspent.
fn expect_contracted(rt: &impl Abort, alloc: Global, case: &Case) {
    let map = network(rt, alloc, 4, case.arcs);
    let mut contraction = Contraction::new(alloc, &map).expect(rt, "there is memory");
    drop(map);
    let begins_unspent = contraction.order().is_empty() && !contraction.is_spent();
    let is_over = contract_by_steps(rt, &mut contraction);
    let is_contracted = is_contracted(&contraction, 4, case.arcs.len());
    assert!(rt; begins_unspent && is_over && is_contracted, "{}", case.name);
}

#[test]
fn a_line_and_a_tangle_are_contracted(rt: HostRuntime) {
    for case in &CASES {
        expect_contracted(&rt, rt.alloc(), case);
    }
}
