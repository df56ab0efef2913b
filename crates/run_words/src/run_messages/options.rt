//! What is said on standard error of words that are refused: what is wrong, and how the word is used.
use crate::run_messages::faults::fault_of;
use crate::run_messages::shown::Shown;
use crate::{Usage, Word};
use std::io;

/// Says why words are refused: of a word its first fault and its options, and else every word with its options and what it does.
pub fn tell_words<R: Eprint>(rt: &R, words: &[String]) -> io::Result<()> {
    let name = match words.get(0) {
        Some(word) => word.as_str(),
        None => "",
    };
    match Word::named(name) {
        Some(word) => tell_word(rt, words, word.usage()),
        None => tell_all(rt, name),
    }
}

// A line for each word.
fn tell_all<R: Eprint>(rt: &R, name: &str) -> io::Result<()> {
    tell_no_word(rt, name)?;
    for word in Word::ALL.iter() {
        tell_usage(rt, word.usage())?;
    }
    tell_guide(rt)
}

fn tell_no_word<R: Eprint>(rt: &R, name: &str) -> io::Result<()> {
    if name.is_empty() {
        return eprintln!(rt;
            "ride_dispatch: a word is missing; these are all, with their options in any order:"
        );
    }
    let name = Shown(name.as_bytes());
    eprintln!(rt;
        "ride_dispatch: no such word: {name}; these are all, with their options in any order:"
    )
}

fn tell_usage<R: Eprint>(rt: &R, usage: Usage) -> io::Result<()> {
    let Usage {
        name,
        options,
        does,
    } = usage;
    eprintln!(rt; "  {name} {options}: {does}")
}

fn tell_guide<R: Eprint>(rt: &R) -> io::Result<()> {
    eprintln!(rt; "docs/guide.md says how they are used, docs/formats.md what each file holds.")
}

// What is wrong with the options of a word.
fn tell_word<R: Eprint>(rt: &R, words: &[String], usage: Usage) -> io::Result<()> {
    let Usage {
        name,
        options,
        does: _,
    } = usage;
    let fault = fault_of(words, options);
    eprintln!(rt; "ride_dispatch: {name}: {fault}; usage: ride_dispatch {name} {options}")
}

/// Says what is wrong with the options of a program that takes no word, and all its options where none is given.
pub fn tell_options<R: Eprint>(rt: &R, words: &[String], usage: Usage) -> io::Result<()> {
    let name = usage.name;
    if words.len() > 1 {
        let options = usage.options;
        let fault = fault_of(words, options);
        return eprintln!(rt; "{name}: {fault}; usage: {name} {options}");
    }
    eprintln!(rt; "{name}: options are missing; these are all, in any order:")?;
    tell_usage(rt, usage)?;
    tell_guide(rt)
}
