//! The trusted edge over real files and standard output. What they hold and give is told to no
//! contract.
ghost use Rattle.std.specs.Prelude.{◌≡◌, None, map, string_bytes};

use crate::ledger::Ledger;
use crate::shelves::Shelf;
use crate::sinks::Sink;
use crate::sources::{Failed, Source};
use std::fs;
use std::io::{self, Read};
use std::marker::Model;
use std::rt::Files;

/// The last fault of a file: the number of its name among those that were asked for, from 1, and the system's reason.
#[derive(Clone, Copy, Drop)]
pub struct FileFault {
    pub number: usize,
    pub reason: io::Error,
}

/// Reads a file.
#[derive(Drop)]
pub struct FileSource<F> {
    file: F,
    faults: u64,
    /// The number of its name among those that were asked for, from 1.
    number: usize,
    /// The system's reason of its last fault.
    reason: Option<io::Error>,
}

impl<F> Model for FileSource<F> {
    ghost use Rattle.std.specs.Prelude.{ℕ};

    ghost Value = { ℕ };

    ghost view = { λ s. s.faults };
}

impl<F> FileSource<F> {
    /// Its count of faults.
    pub fn faults(&self) -> u64
        ensures { result ≡ self.now }
    {
        self.faults
    }
}

impl<F: Read + Send> Source for FileSource<F> {
    ghost left = { λ _. None };

    ghost faults = { λ s. s };

    fn read(&mut self, buffer: &mut [u8]) -> Result<usize, Failed> {
        match self.file.read(buffer) {
            Ok(count) => Ok(count),
            Err(reason) => {
                self.faults = self.faults.saturating_add(1);
                self.reason = Some(reason);
                Err(Failed)
            }
        }
    }
}

/// Opens files by their names.
#[derive(Drop)]
pub struct FileShelf<'a, R> {
    rt: &'a R,
    ledger: Ledger<'a>,
    fault: Option<FileFault>,
}

impl<'a, R> Model for FileShelf<'a, R> {
    ghost use Rattle.ride_ports.specs.inner.Ledger.{LedgerState};

    ghost Value = { LedgerState };

    ghost view = { λ s. s.ledger };
}

impl<'a, R: Files + AllocGlobal> FileShelf<'a, R> {
    ghost use Rattle.ride_ports.specs.inner.Ledger.{no_entry};

    /// The allocator is that of the names; nothing is taken from it here.
    pub fn new(rt: &'a R) -> FileShelf<'a, R>
        ensures { result ≡ no_entry }
    {
        FileShelf {
            rt,
            ledger: Ledger::new(rt.alloc()),
            fault: None,
        }
    }
}

impl<'a, R> FileShelf<'a, R> {
    /// Its count of faults.
    pub fn faults(&self) -> u64
        ensures { result ≡ self.now.faults }
    {
        self.ledger.faults()
    }

    /// The names that were asked for, in order.
    pub fn asked(&self) -> &[String]
        ensures { map string_bytes result.now ≡ self.now.asked }
    {
        self.ledger.asked()
    }

    /// The last fault, of a file that could not be opened or of one that was given back. It is for messages, and no clause
    /// speaks of it.
    pub fn last_fault(&self) -> Option<FileFault> {
        self.fault
    }
}

impl<'a, R: Files> Shelf for FileShelf<'a, R>
where
    R::File: Send,
{
    type Src = FileSource<R::File>;

    ghost contents = { λ _. None };

    ghost faults = { λ s. s.faults };

    ghost asked = { λ s. s.asked };

    ghost brought = { λ s. s.brought };

    ghost back = { λ s. s.back };

    fn bring(&mut self, name: String) -> Result<FileSource<R::File>, Failed> {
        let opened = fs::open(self.rt, name.as_str());
        let number = self.ledger.ask(name);
        match opened {
            Ok(file) => {
                self.ledger.bring();
                Ok(FileSource {
                    file,
                    faults: 0,
                    number,
                    reason: None,
                })
            }
            Err(reason) => {
                self.fault = Some(FileFault { number, reason });
                Err(self.ledger.fail())
            }
        }
    }

    fn give_back(&mut self, src: FileSource<R::File>) {
        self.ledger.take_back(src.faults, None);
        if let Some(reason) = src.reason {
            self.fault = Some(FileFault {
                number: src.number,
                reason,
            });
        }
    }
}

/// Writes to standard output.
#[derive(Drop)]
pub struct StdoutSink<'a, P> {
    rt: &'a P,
    faults: u64,
    /// The system's reason of its last fault, where it gave one.
    reason: Option<io::Error>,
}

impl<'a, P> Model for StdoutSink<'a, P> {
    ghost use Rattle.std.specs.Prelude.{ℕ};

    ghost Value = { ℕ };

    ghost view = { λ s. s.faults };
}

impl<'a, P: Print> StdoutSink<'a, P> {
    pub fn new(rt: &'a P) -> StdoutSink<'a, P>
        ensures { result ≡ 0 }
    {
        StdoutSink {
            rt,
            faults: 0,
            reason: None,
        }
    }
}

impl<'a, P> StdoutSink<'a, P> {
    /// Its count of faults.
    pub fn faults(&self) -> u64
        ensures { result ≡ self.now }
    {
        self.faults
    }

    /// The system's reason of its last fault, where it gave one. It is for messages, and no clause speaks of it.
    pub fn last_fault(&self) -> Option<io::Error> {
        self.reason
    }
}

impl<'a, P: Print + Sync> Sink for StdoutSink<'a, P> {
    ghost written = { λ _. None };

    ghost faults = { λ s. s };

    fn write(&mut self, piece: &[u8]) -> Result<usize, Failed> {
        match self.rt.write_some(piece) {
            Ok(count) if count > 0 || piece.is_empty() => return Ok(count),
            Ok(_) => self.reason = None,
            Err(reason) => self.reason = Some(reason),
        }
        self.faults = self.faults.saturating_add(1);
        Err(Failed)
    }
}
