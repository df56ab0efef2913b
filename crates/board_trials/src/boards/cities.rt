//! A generated city: two desks at once and the audit of their log, its first batch by both searches, and a drill of a smaller one.
ghost use Rattle.std.specs.Prelude.{[]};

use super::Town;
use super::days::is_spelled;
use super::searches::expect_first_batch;
use adaptive_roads::Roads;
use city_maker::{City, CityPlan, make_city};
use command_lines::print_command;
use live_sessions::{Outset, serve};
use log_audit::{Verdict, audit};
use ride_model::Command;
use ride_ports::{MemSink, MemSource, OpenGate, write_all};
use session_run::drill;
use std::alloc::Global;
use std::process::Abort;
use std::sync::Wait;
use std::thread::Threads;

/// A city of a hundred nodes.
const PLAN: CityPlan = CityPlan {
    side: 10,
    vehicles: 20,
    requests: 100,
    seed: 1,
};

/// A city of four nodes, with one vehicle and one request.
const SMALL: CityPlan = CityPlan {
    side: 2,
    vehicles: 1,
    requests: 1,
    seed: 1,
};

/// What is tried over the city.
enum Trial {
    /// Both searches price its first batch alike.
    Search,
    /// Two desks serve its riders, and write a log.
    Serve,
    /// Their log is right.
    Audit,
}

/// The requests among commands as a feed, with one `batch` after each eighth.
fn put_riders(rt: &impl Abort, commands: &[Command], feed: &mut MemSink<'_>) {
    let mut requests = 0u32;
    for command in commands {
        let Command::Request { .. } = command else {
            continue;
        };
        assert!(rt; is_spelled(command));
        assert!(rt; print_command(command, 1, feed).is_ok());
        assert!(rt; write_all(feed, b"\n").is_ok());
        requests = requests.wrapping_add(1);
        if requests % 8 == 0 {
            assert!(rt; write_all(feed, b"batch\n").is_ok());
        }
    }
}

/// Two desks serve riders, of which each prices by two workers.
fn serve_riders<R: Threads + Wait + Sync + Abort>(
    rt: &R,
    alloc: Global,
    town: Town<'_>,
    riders: &[u8],
    log: &mut MemSink<'_>,
) {
    let Town {
        roads,
        settings,
        fleet,
    } = town;
    let mut riders = MemSource::new(riders, &[], &[]);
    let mut drivers = MemSource::new(b"", &[], &[]);
    let outset = Outset {
        settings,
        fleet,
        workers: 2,
        desks: 2,
    };
    let ran = serve(
        rt,
        alloc,
        roads,
        outset,
        &mut riders,
        &mut drivers,
        log,
        &OpenGate,
    );
    assert!(rt; ran.status() == 0);
}

/// The log is right, of a hundred requests, twelve batches that are asked for, opened and committed, two feeds and two desks.
fn expect_audit<R: Threads + Sync + Abort>(rt: &R, alloc: Global, town: Town<'_>, log: &[u8]) {
    let Town {
        roads,
        settings,
        fleet,
    } = town;
    let mut source = MemSource::new(log, &[], &[]);
    match audit(rt, alloc, roads, settings, fleet, &mut source) {
        Ok(Verdict::Yes(totals)) => assert!(rt; totals.entries == 140 && totals.finished),
        Ok(Verdict::No { .. }) => panic!(rt; "the log is right"),
        Err(_) => panic!(rt; "there is memory"),
    }
}

fn on_city<R: Threads + Wait + Sync + Abort + AllocGlobal>(
    rt: &R,
    trial: Trial,
    log: &mut MemSink<'_>,
) {
    let alloc = rt.alloc();
    let Ok(city) = make_city(alloc, &PLAN) else {
        panic!(rt; "there is memory");
    };
    let City {
        network,
        settings,
        fleet,
        commands,
    } = city;
    let Ok(roads) = Roads::new(alloc, &network) else {
        panic!(rt; "there is memory");
    };
    let town = Town {
        roads: &roads,
        settings,
        fleet,
    };
    match trial {
        Trial::Search => expect_first_batch(rt, alloc, town, commands.items()),
        Trial::Serve => {
            let mut riders = MemSink::new(alloc, 100_000, &[], &[]).expect(rt, "there is memory");
            put_riders(rt, commands.items(), &mut riders);
            serve_riders(rt, alloc, town, riders.written(), log);
        }
        Trial::Audit => expect_audit(rt, alloc, town, log.written()),
    }
}

#[test]
fn both_searches_price_a_city_alike_and_two_desks_seat_it(rt: HostRuntime) {
    let log = MemSink::new(rt.alloc(), 1_000_000, &[], &[]);
    let mut log = log.expect(&rt, "there is memory");
    on_city(&rt, Trial::Search, &mut log);
    on_city(&rt, Trial::Serve, &mut log);
    on_city(&rt, Trial::Audit, &mut log);
}

#[test]
fn a_drill_of_the_smallest_city_has_its_line(rt: HostRuntime) {
    let out = MemSink::new(rt.alloc(), 200, &[], &[]);
    let mut out = out.expect(&rt, "there is memory");
    assert!(&rt; drill(&rt, rt.alloc(), &SMALL, &mut out).status() == 0);
    let line =
        "drill nodes 4 arcs 8 vehicles 1 requests 1 batches 1 confirmed 1 away 0 dropped 1\n";
    assert!(&rt; out.written() == line.as_bytes());
}
