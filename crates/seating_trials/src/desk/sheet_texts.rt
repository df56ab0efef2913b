//! The lines of a text of sheets.
use idle_moves::{Move, MoveList, MoveSheet, print_end, print_head, print_sheet};
use ride_model::{AmountList, Ending};
use ride_ports::{Failed, MemSink};
use std::alloc::Global;
use std::process::Abort;

/// What is printed.
enum Printed {
    /// The head, with this reach.
    Head(u64),
    Sheet(Sheet),
    End(Ending),
}

/// The sheet of batch 1.
struct Sheet {
    cost: u64,
    moves: &'static [Move],
    prices: &'static [(u64, u64)],
    pays: &'static [(u64, u64)],
}

/// Vehicle 1 of version 0 is sent two minutes ahead to request 7 at node 3.
const FIRST: Move = Move {
    request: 7,
    vehicle: 1,
    version: 0,
    node: 3,
    seconds: 120,
};

static LINES: [(Printed, &str); 6] = [
    (Printed::Head(600), "ahead 1 reach 600\n"),
    (
        Printed::Sheet(Sheet {
            cost: 120,
            moves: &[FIRST],
            prices: &[(7, 120)],
            pays: &[],
        }),
        "moves 1 cost 120 goes 7:1@0:3:120 prices 7:120 pays\n",
    ),
    (
        Printed::Sheet(Sheet {
            cost: 119,
            moves: &[],
            prices: &[(7, 119)],
            pays: &[],
        }),
        "moves 1 cost 119 goes prices 7:119 pays\n",
    ),
    (
        Printed::Sheet(Sheet {
            cost: 720,
            moves: &[FIRST],
            prices: &[(7, 540), (8, 600)],
            pays: &[(1, 420)],
        }),
        "moves 1 cost 720 goes 7:1@0:3:120 prices 7:540 8:600 pays 1:420\n",
    ),
    (Printed::End(Ending::Whole), "end\n"),
    (Printed::End(Ending::Cut), "cut\n"),
];

fn amounts(rt: &impl Abort, alloc: Global, items: &[(u64, u64)]) -> AmountList {
    AmountList::of(Vec::from_slice(alloc, items).expect(rt, "there is memory"))
}

fn sheet_of(rt: &impl Abort, alloc: Global, sheet: &Sheet) -> MoveSheet {
    let moves = Vec::from_slice(alloc, sheet.moves).expect(rt, "there is memory");
    MoveSheet {
        batch: 1,
        cost: sheet.cost,
        moves: MoveList::of(moves),
        prices: amounts(rt, alloc, sheet.prices),
        pays: amounts(rt, alloc, sheet.pays),
    }
}

fn print(
    rt: &impl Abort,
    alloc: Global,
    printed: &Printed,
    sink: &mut MemSink<'_>,
) -> Result<(), Failed> {
    match printed {
        Printed::Head(reach) => print_head(*reach, sink),
        Printed::Sheet(given) => print_sheet(&sheet_of(rt, alloc, given), sink),
        Printed::End(ending) => print_end(*ending, sink),
    }
}

#[test]
fn sheets_are_lines(rt: HostRuntime) {
    for (printed, text) in LINES.as_slice() {
        let sink = MemSink::new(rt.alloc(), 100, &[], &[]);
        let mut sink = sink.expect(&rt, "there is memory");
        assert!(&rt; print(&rt, rt.alloc(), printed, &mut sink).is_ok());
        assert!(&rt; sink.written() == text.as_bytes());
    }
}
