//! Sessions over drawn feeds: whatever the two feeds hold and however the threads meet, an audit says yes to the log, in which
//! the lines of each feed stand once and in order.
use super::texts::has_lines;
use super::{Setup, WORKED, answer_to, expect_audit};
use std::process::Abort;
use std::sync::Wait;
use std::thread::Threads;

/// Three vehicles, whose batches of two start some seconds after they are opened.
const FLEET: &str = "set batch 2\nset lead 3\nset dwell 5\nset penalty 900\n\
vehicle 1 2 1 0\nvehicle 2 3 4 0\nvehicle 3 1 2 0\n";

/// How many sessions are run.
const SESSIONS: u32 = 200;

/// How many lines a feed has.
const LINES: u32 = 40;

/// Sessions of two desks and two workers.
const WORDS: &str = "serve --desks 2 --workers 2 --riders r --drivers d --map m --fleet f";

// A number that is drawn from a seed by a linear congruence, which gives the next seed.
fn draw(seed: &mut u32, below: u32) -> u32 {
    *seed = seed.wrapping_mul(1_103_515_245).wrapping_add(12_345);
    (*seed >> 16) % below.max(1)
}

// A feed of commands, whose requests have ids of one parity.
fn feed(rt: &(impl Abort + AllocGlobal), mut seed: u32, parity: u8) -> String {
    let mut text = String::new(rt.alloc());
    for line in 0..LINES {
        let id = line * 2 + u32::from(parity);
        push_command(rt, &mut text, &mut seed, id);
    }
    text
}

fn push_command(rt: &impl Abort, text: &mut String, seed: &mut u32, id: u32) {
    let vehicle = draw(seed, 4);
    let node = draw(seed, 5);
    let time = draw(seed, 600);
    match draw(seed, 10) {
        0..=3 => {
            let latest = time.saturating_add(60);
            let numbers = [id, node, draw(seed, 5), 1, latest, 400];
            push_line(rt, text, "request", &numbers);
        }
        4 => push_line(rt, text, "cancel", &[draw(seed, 80)]),
        5 => push_line(rt, text, "at", &[vehicle, node, time]),
        6 => push_line(rt, text, "done", &[vehicle]),
        7 => push_line(rt, text, "clock", &[time]),
        8 => push_line(rt, text, "no command", &[]),
        _ => push_line(rt, text, "batch", &[]),
    }
}

fn push_line(rt: &impl Abort, text: &mut String, word: &str, numbers: &[u32]) {
    text.push_str(word).expect(rt, "there is memory");
    for number in numbers {
        write!(text, " {number}").expect(rt, "there is memory");
    }
    text.push_str("\n").expect(rt, "there is memory");
}

#[test]
fn an_audit_says_yes_to_each_log_of_drawn_feeds_in_order(rt: HostRuntime) {
    for seed in 0..SESSIONS {
        expect_yes(&rt, seed);
    }
}

fn expect_yes<R: Abort + Threads + Wait + Sync + AllocGlobal>(rt: &R, seed: u32) {
    let shows = format!(in rt.alloc(); "seed {seed}").expect(rt, "there is memory");
    let riders = feed(rt, seed, 0);
    let drivers = feed(rt, seed.wrapping_mul(7_919), 1);
    expect_yes_to(rt, shows.as_str(), riders.as_str(), drivers.as_str());
}

// Asserts that a session over two feeds logs their lines in order, and that an audit says yes to its log.
fn expect_yes_to<'a, R: Abort + Threads + Wait + Sync + AllocGlobal>(
    rt: &R,
    shows: &str,
    riders: &'a str,
    drivers: &'a str,
) {
    let files = Setup {
        fleet: text!(FLEET),
        feed: text!(riders),
        drivers: text!(drivers),
        ..WORKED
    };
    let log = answer_to(rt, WORDS, files);
    assert!(rt; log.ends(0, 0), "{shows}: {}", log.text());
    expect_in_order(rt, shows, "f1", riders, log.text());
    expect_in_order(rt, shows, "f2", drivers, log.text());
    expect_audit(rt, shows, files, log.text(), "*finished yes\n");
}

// Asserts that the lines of a feed in a log are answers to its lines, in order, and then its end.
fn expect_in_order(
    rt: &(impl Abort + AllocGlobal),
    shows: &str,
    actor: &str,
    feed: &str,
    log: &str,
) {
    let answers = answers_of(rt, actor, feed);
    assert!(rt;
        has_lines(log, &[actor], answers.as_str()),
        "{shows}: {log}"
    );
}

// The pattern of the answers to a feed: each of its lines with what is replied, and its end.
fn answers_of(rt: &(impl Abort + AllocGlobal), actor: &str, feed: &str) -> String {
    let mut answers = String::new(rt.alloc());
    for line in feed.lines() {
        let told = if line == "no command" { "bad " } else { line };
        push_answer(rt, &mut answers, actor, told, "*\n");
    }
    push_answer(rt, &mut answers, actor, "end", "\n");
    answers
}

fn push_answer(rt: &impl Abort, answers: &mut String, actor: &str, told: &str, rest: &str) {
    write!(answers, "{actor} {told}{rest}").expect(rt, "there is memory");
}
