//! What is said on standard error: of a run that was not whole, in one line, and of a session that cannot be live. No clause speaks of
//! it.
use crate::RESUMPTION;
use crate::run_messages::options::{tell_options, tell_words};
use crate::run_messages::overheard::Overheard;
use crate::run_messages::programs::Program;
use crate::run_messages::texts::{tell_fleet, tell_map};
use crate::run_messages::verdicts::{LogNames, tell_wrong};
use ride_ports::{FileFault, FileShelf, StdoutSink};
use std::fmt::{self, Display, Formatter};
use std::io;
use std::rt::Files;
use std::thread::{Builder, Threads};

/// What is said where memory was wanting.
pub const MEMORY_WANTING: &str = "memory was wanting";

const FEED_LIMIT: &str = " has more than 67,108,864 bytes or 1,000,000 lines";

const FLEET_LIMIT: &str = " has more than 1,048,576 bytes";

const LOG_LIMIT: &str = " has more than 1,073,741,824 bytes or 2,100,000 lines";

const LATER_FEED_LIMIT: &str =
    " has more than 67,108,864 bytes, or more lines than its log leaves of 1,000,000";

const EARLIER_LOG_LIMIT: &str =
    " has more than 1,073,741,824 bytes or 2,100,000 lines, or answers more than 1,000,000 commands of a feed";

/// Says why a run was not whole, where its status is not 0.
pub fn tell<R: Files + Print + Eprint + Threads + Sync + AllocGlobal>(
    rt: &R,
    program: Program,
    words: &[String],
    status: u8,
    shelf: &FileShelf<'_, R>,
    out: &Overheard<StdoutSink<'_, R>>,
) {
    let report = Report {
        program,
        status,
        words,
        asked: shelf.asked(),
        file_fault: shelf.last_fault(),
        output_fault: out.sink().last_fault(),
        said: out.first(),
    };
    report.tell(rt);
}

// What there is to tell of a run.
#[derive(Clone, Copy, Drop)]
struct Report<'a> {
    program: Program,
    status: u8,
    words: &'a [String],
    // The names of files that were asked for, in order.
    asked: &'a [String],
    file_fault: Option<FileFault>,
    output_fault: Option<io::Error>,
    // The first bytes of what standard output took, or was to take.
    said: &'a [u8],
}

// What is said of a file, or of one of two.
#[derive(Clone, Copy, Drop)]
struct Said<'a> {
    name: &'a str,
    or: &'static str,
    other: &'a str,
    what: &'static str,
}

impl Display for Said<'_> {
    fn fmt<W: fmt::Write>(&self, f: &mut Formatter<W>) -> fmt::Result {
        f.write_str(self.name)?;
        f.write_str(self.or)?;
        f.write_str(self.other)?;
        f.write_str(self.what)
    }
}

impl<'a> Report<'a> {
    // Says why the run was not whole.
    fn tell<R: Files + Eprint + Threads + Sync + AllocGlobal>(&self, rt: &R) {
        let _ = match self.status {
            0 => Ok(()),
            2 => self.tell_refused(rt),
            3 => tell_map(rt, self.program, self.name(1)),
            4 => tell_fleet(rt, self.program, self.name(1), self.name(self.asked.len())),
            7 => tell_wrong(rt, self.log_names(), self.said),
            _ => self.tell_fault(rt),
        };
    }

    fn tell_refused<R: Eprint>(&self, rt: &R) -> io::Result<()> {
        match self.program {
            Program::Dispatch => tell_words(rt, self.words),
            Program::Resume => tell_options(rt, self.words, RESUMPTION),
        }
    }

    fn tell_fault<R: Eprint>(&self, rt: &R) -> io::Result<()> {
        let program = self.program.name();
        let said = self.said();
        match self.cause() {
            Some(cause) => eprintln!(rt; "{program}: {said}: {cause}"),
            None => eprintln!(rt; "{program}: {said}"),
        }
    }

    // What is said before the cause.
    fn said(&self) -> Said<'_> {
        match self.status {
            1 => self.memory_wanting(),
            5 => said_of(self.name_of_fault(), " could not be read"),
            6 => said_of("standard output", self.output_failed()),
            _ => self.limit_passed(),
        }
    }

    // The file that was asked for last tells how far the run had come.
    fn memory_wanting(&self) -> Said<'_> {
        if self.asked.is_empty() {
            return said_of("", MEMORY_WANTING);
        }
        said_of(self.name(self.asked.len()), self.what_was_wanting())
    }

    // A session that went on ends with the same status where its log tells that the day cannot be finished.
    fn what_was_wanting(&self) -> &'static str {
        match self.program {
            Program::Resume if self.asked.len() == 5 => {
                " was the last file that was asked for: memory was wanting, or the log tells of a cut or of a batch that was given up"
            }
            _ => " was the last file that was asked for when memory was wanting",
        }
    }

    // The system's reason, where it gave one.
    fn cause(&self) -> Option<io::Error> {
        match (self.status, self.file_fault) {
            (5, Some(fault)) => Some(fault.reason),
            (6, _) => self.output_fault,
            _ => None,
        }
    }

    fn name_of_fault(&self) -> &str {
        match self.file_fault {
            Some(fault) => self.name(fault.number),
            None => "a file",
        }
    }

    fn output_failed(&self) -> &'static str {
        match self.output_fault {
            Some(_) => " could not be written",
            None => " takes no more",
        }
    }

    // The names are asked for in order, so that their number tells which file passed its limit; both feeds of a session are read at
    // once.
    fn limit_passed(&self) -> Said<'_> {
        let last = self.asked.len();
        let word = self.program.word(self.words);
        let what = limit_of(word, last);
        match live_feeds(word) {
            Some((riders, drivers)) if last == drivers => Said {
                name: self.name(riders),
                or: " or ",
                other: self.name(drivers),
                what,
            },
            _ => said_of(self.name(last), what),
        }
    }

    // The files of a log.
    fn log_names(&self) -> LogNames<'_> {
        LogNames {
            map: self.name(1),
            fleet: self.name(2),
            log: self.name(3),
        }
    }

    // A name by its number from 1.
    fn name(&self, number: usize) -> &str {
        match self.asked.get(number.saturating_sub(1)) {
            Some(name) => name.as_str(),
            None => "a file",
        }
    }
}

/// Says so where the words ask for a session of two feeds, and no thread can be started: what should run side by side then runs one after
/// another, with the same promises.
pub fn tell_threads<R: Threads + Eprint>(rt: &R, program: Program, words: &[String]) {
    if live_feeds(program.word(words)).is_some() && !starts_threads(rt) {
        let program = program.name();
        let _ = eprintln!(rt;
            "{program}: no thread can be started, so that this session is not live: riders are read to their end first"
        );
    }
}

// The numbers of the files of riders and of drivers, where a word asks for both at once.
fn live_feeds(word: &str) -> Option<(usize, usize)> {
    match word {
        "serve" => Some((3, 4)),
        "resume" => Some((4, 5)),
        _ => None,
    }
}

// Whether a thread can be started now.
fn starts_threads<R: Threads>(rt: &R) -> bool {
    match Builder::new().spawn(rt, || ()) {
        Ok(thread) => {
            thread.join(rt);
            true
        }
        Err(_) => false,
    }
}

// What is said of one thing.
fn said_of<'a>(name: &'a str, what: &'static str) -> Said<'a> {
    Said {
        name,
        or: "",
        other: "",
        what,
    }
}

// What is said of the last of so many files of a word, which passed its limit.
fn limit_of(word: &str, files: usize) -> &'static str {
    match (word, files) {
        ("book", _) => FEED_LIMIT,
        (_, 1) => " has more than 134,217,728 bytes",
        (_, 2) | ("league", 3) => FLEET_LIMIT,
        ("audit", _) => LOG_LIMIT,
        ("resume", 3) => EARLIER_LOG_LIMIT,
        ("resume", _) => LATER_FEED_LIMIT,
        _ => FEED_LIMIT,
    }
}
