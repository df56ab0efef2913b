//! The words that a program is called with.
ghost use Rattle.std.specs.Prelude.{◌≡◌, ◌⊎◌, IfErr, IsErrOf, OnOk};
ghost use Rattle.ride_ports.specs.Bytes.{Writes, WritesPrefix};
ghost use Rattle.ride_ports.specs.Count.{Rose};

use crate::run_messages::messages::{MEMORY_WANTING, tell_threads};
use crate::run_messages::programs::Program;
use crate::run_messages::shown::Shown;
use ride_ports::{Sink, write_all};
use std::env::{self, Env};
use std::io;
use std::str::from_utf8;
use std::thread::Threads;

/// More bytes than the system lets a word have.
const ROOM_OF_A_WORD: usize = 131_072;

/// Returns the words of a run, and says where its session cannot be live. Words that cannot be read end the run with the status that is
/// returned: 1 for want of memory, and 2 where one is not UTF-8, which is refused as words are that are not in order.
pub fn command_words<R: Env + Eprint + Threads + AllocGlobal, K: Sink>(
    rt: &R,
    program: Program,
    refusal: &[u8],
    out: &mut K,
) -> Result<Vec<String>, u8>
    // Words that were read leave the sink as it was.
    ensures words { OnOk result (K.written out.new ≡ K.written out.old) }
    ensures words_count_none { OnOk result (K.faults out.new ≡ K.faults out.old) }

    // Those that were not leave what a run leaves that refuses its words.
    ensures statuses { IfErr result (λ status. (status ≡ 2) ⊎ (status ≡ 1)) }
    ensures unread { IsErrOf result 1 → K.written out.new ≡ K.written out.old }
    ensures refused { IsErrOf result 2
        → WritesPrefix (K.written out.old) (K.written out.new) refusal.now }
    ensures refused_whole { IsErrOf result 2 → (Rose (K.faults out.old) (K.faults out.new) → ⊥)
        → Writes (K.written out.old) (K.written out.new) refusal.now }
{
    match words_from(rt, program.first_word()) {
        Ok(words) => {
            tell_threads(rt, program, words.as_slice());
            Ok(words)
        }
        Err(error) if error.kind() == io::ErrorKind::InvalidData => {
            let _ = write_all(out, refusal);
            tell_no_text(rt, program.name());
            Err(2)
        }
        Err(_) => {
            let name = program.name();
            let _ = eprintln!(rt; "{name}: {MEMORY_WANTING}");
            Err(1)
        }
    }
}

// The words from one on.
fn words_from<R: Env + AllocGlobal>(rt: &R, first: usize) -> io::Result<Vec<String>> {
    let mut words = Vec::new(rt.alloc());
    for word in env::args(rt)?.skip(first) {
        words.push(word)?;
    }
    Ok(words)
}

// Says which word is not UTF-8, as far as there is room for it.
fn tell_no_text<R: Env + Eprint + AllocGlobal>(rt: &R, program: &str) {
    let _ = match word_without_text(rt) {
        Some(word) => {
            let word = Shown(word.as_slice());
            eprintln!(rt; "{program}: a word is not UTF-8: {word}")
        }
        None => eprintln!(rt; "{program}: a word is not UTF-8"),
    };
}

// The first word that is not UTF-8.
fn word_without_text<R: Env + AllocGlobal>(rt: &R) -> Option<Vec<u8>> {
    let mut word = vec![in rt.alloc(); 0; ROOM_OF_A_WORD].ok()?;
    for place in 0..usize::MAX {
        let length = rt.arg(place, word.as_mut_slice()).ok()?;
        if from_utf8(word.get(..length)?).is_err() {
            word.truncate(length);
            return Some(word);
        }
    }
    None
}
