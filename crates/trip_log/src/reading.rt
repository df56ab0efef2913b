//! Reads the lines of the log.
ghost use Rattle.std.specs.Prelude.{◌≡◌, ◌≢◌, ◌++◌, ◌∷◌, [], ℕ, IfOk, IfSome, IfNone, IsTrue};
ghost use Rattle.ride_model.specs.declared.entry.Entry.{Entry};
ghost use Rattle.ride_model.specs.Text.{HasLine, IsOneOrTwo, entry_line, head_line};
ghost use Rattle.trip_log.specs.inner.Heads.{digit_from};

use crate::comparison::LineSink;
use crate::entries::entry_of;
use crate::printing::{print_entry, print_head};
use ride_model::{Entry, NoMemory};
use std::alloc::Global;

/// What the head of a log says: its version, how many feeds it has, and how many desks.
#[derive(Clone, Copy, PartialEq, Eq)]
pub struct Head {
    pub log: u8,
    pub feeds: u8,
    pub desks: u8,
}

/// The head that a line spells, given without its LF.
pub fn read_head(line: &[u8]) -> Option<Head>
    ensures log { IfSome result (λ head. IsOneOrTwo head.log) }
    ensures feeds { IfSome result (λ head. IsOneOrTwo head.feeds) }
    ensures desks { IfSome result (λ head. IsOneOrTwo head.desks) }
    ensures head { IfSome result (λ head. head_line head.log head.feeds head.desks
        ≡ line.now ++ 10 ∷ []) }
    ensures none { IfNone result ((log feeds desks : ℕ) → IsOneOrTwo log → IsOneOrTwo feeds
        → IsOneOrTwo desks
        → head_line log feeds desks ≢ line.now ++ 10 ∷ []) }
{
    let log = digit_at(line, 4)?;
    let feeds = digit_at(line, 12)?;
    let desks = digit_at(line, 20)?;
    if !spells_head(log, feeds, desks, line) {
        return None;
    }
    Some(Head { log, feeds, desks })
}

/// The entry that a line spells for a version of the log, given without its LF.
pub fn read_entry(alloc: Global, line: &[u8], log: u8) -> Result<Option<Entry>, NoMemory>
    requires { IsOneOrTwo log }
    ensures has_line { IfOk result (λ read. IfSome read (HasLine log)) }
    ensures an_entry { IfOk result
        (λ read. IfSome read (λ entry. entry_line log entry ≡ line.now ++ 10 ∷ [])) }
    ensures none { IfOk result (λ read.
        IfNone read ((entry : Entry) → HasLine log entry
        → entry_line log entry ≢ line.now ++ 10 ∷ [])) }
{
    let Some(entry) = entry_of(alloc, line, log)? else {
        return Ok(None);
    };
    if spells(&entry, log, line) {
        Ok(Some(entry))
    } else {
        Ok(None)
    }
}

// The digit 1 or 2 at a place.
fn digit_at(line: &[u8], place: usize) -> Option<u8>
    ensures { result ≡ digit_from line.now place }
{
    match line.get(place) {
        Some(b'1') => Some(1),
        Some(b'2') => Some(2),
        _ => None,
    }
}

// Whether the head line of these numbers is this line and an LF.
fn spells_head(log: u8, feeds: u8, desks: u8, line: &[u8]) -> bool
    requires log { IsOneOrTwo log }
    requires feeds { IsOneOrTwo feeds }
    requires desks { IsOneOrTwo desks }
    ensures is { IsTrue result → head_line log feeds desks ≡ line.now ++ 10 ∷ [] }
    ensures other { head_line log feeds desks ≡ line.now ++ 10 ∷ [] → IsTrue result }
{
    let mut sink = LineSink::new(line);
    let printed = print_head(log, feeds, desks, &mut sink);
    let whole = sink.is_whole();
    printed.is_ok() && whole
}

/// Whether the line of an entry is this line and an LF.
pub fn spells(entry: &Entry, log: u8, line: &[u8]) -> bool
    requires log { IsOneOrTwo log }
    requires has_line { HasLine log entry.now }
    ensures is { IsTrue result → entry_line log entry.now ≡ line.now ++ 10 ∷ [] }
    ensures other { entry_line log entry.now ≡ line.now ++ 10 ∷ [] → IsTrue result }
{
    let mut sink = LineSink::new(line);
    let printed = print_entry(entry, log, &mut sink);
    let whole = sink.is_whole();
    printed.is_ok() && whole
}
