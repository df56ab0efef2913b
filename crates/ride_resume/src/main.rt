//! The program of sessions that go on from their logs: it reads its words, and ends with the status of `resume`.
#![tactic(auto)]

use dispatcher::WORDS_REFUSED;
use resumption::resume;
use ride_ports::{FileShelf, OpenGate, StdoutSink};
use run_words::run_messages::{Overheard, Program, command_words, tell};
use std::process::ExitCode;

fn main(rt: HostRuntime) -> ExitCode {
    let program = Program::Resume;
    let mut out = Overheard::new(StdoutSink::new(&rt));
    let words = match command_words(&rt, program, WORDS_REFUSED, &mut out) {
        Ok(words) => words,
        Err(status) => return ExitCode::from(status),
    };
    let (words, mut shelf) = (words.as_slice(), FileShelf::new(&rt));
    let status = resume(&rt, rt.alloc(), words, &mut shelf, &mut out, &OpenGate);
    tell(&rt, program, words, status, &shelf, &out);
    ExitCode::from(status)
}
