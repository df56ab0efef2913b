//! The page on which text is put before it is written.
ghost use Rattle.std.specs.Prelude.{◌≡◌, ◌≤◌, ◌++◌, [], length, take, MatchBool, OnOk, OnErr, IfOk, is_err};
ghost use Rattle.ride_ports.specs.Bytes.{Writes, WritesPrefix};
ghost use Rattle.ride_ports.specs.Count.{KeepsCount, most_count};
ghost use Rattle.ride_ports.specs.inner.Count.{raised};

use crate::text_page::NoMemory;
use ride_ports::{Failed, Sink, write_all};
use std::alloc::Global;
use std::marker::Model;

/// The bytes for which a page takes memory at once.
pub(crate) const PAGE: usize = 1 << 16;

/// Takes text, and grows with it. As a sink it fails for want of memory alone.
#[derive(Drop)]
pub struct Page {
    text: Vec<u8>,
    faults: u64,
}

impl Model for Page {
    ghost use Rattle.std.specs.Prelude.{◌≤◌};
    ghost use Rattle.ride_ports.specs.Count.{most_count};
    ghost use Rattle.line_text.specs.inner.text_page.Output.{PageState};

    ghost Value = { PageState };

    ghost view = { λ p. record { text = p.text.items; faults = p.faults } };

    ghost invariant = { λ p. p.faults ≤ most_count };
}

impl Page {
    /// An empty page, with memory for 2^16 bytes.
    pub fn new(alloc: Global) -> Result<Page, NoMemory>
        ensures { IfOk result (λ page. page.text ≡ []) }
    {
        Ok(Page {
            text: Vec::with_capacity(alloc, PAGE)?,
            faults: 0,
        })
    }

    /// Puts bytes on the page.
    pub fn put(&mut self, bytes: &[u8]) -> Result<(), NoMemory>
        ensures put { OnOk result
            (self.new ≡ record self.old { text = self.old.text ++ bytes.now }) }
        ensures kept { OnErr result (self.new ≡ self.old) }
    {
        self.text.extend_from_slice(bytes)
    }

    /// Puts bytes on the page, where it stays within 2^16 bytes, and answers whether it did.
    pub(crate) fn add(&mut self, bytes: &[u8]) -> bool
        ensures { MatchBool result (self.new
            ≡ record self.old { text = self.old.text ++ bytes.now }) (self.new ≡ self.old) }
    {
        if bytes.len() > PAGE.saturating_sub(self.text.len()) {
            return false;
        }
        self.put(bytes).is_ok()
    }

    /// How many bytes stand on the page.
    pub(crate) fn length(&self) -> usize
        ensures { result ≡ length self.now.text }
    {
        self.text.len()
    }

    /// Takes all but the first bytes off the page.
    pub(crate) fn cut_to(&mut self, length: usize)
        ensures { self.new ≡ record self.old { text = take length self.old.text } }
    {
        self.text.truncate(length);
    }

    /// Writes the page, which is empty then.
    pub(crate) fn write_to<K: Sink>(&mut self, out: &mut K) -> Result<(), Failed>
        ensures whole { OnOk result (Writes (K.written out.old) (K.written out.new) self.old.text) }
        ensures emptied { OnOk result (self.new.text ≡ []) }
        ensures prefix { OnErr result
            (WritesPrefix (K.written out.old) (K.written out.new) self.old.text) }
        ensures faults { KeepsCount (is_err result) (K.faults out.old) (K.faults out.new) }
    {
        write_all(out, self.text.as_slice())?;
        self.text.clear();
        Ok(())
    }

    /// Counts a fault.
    pub(crate) fn fail(&mut self) -> Failed
        ensures failed { self.new ≡ record self.old { faults = raised self.old.faults } }
        ensures small { self.old.faults ≤ most_count }
    {
        self.faults = self.faults.saturating_add(1);
        Failed
    }
}

impl Sink for Page {
    ghost use Rattle.std.specs.Prelude.{Some};

    ghost written = { λ p. Some p.text };

    ghost faults = { λ p. p.faults };

    fn write(&mut self, piece: &[u8]) -> Result<usize, Failed> {
        match self.text.extend_from_slice(piece) {
            Ok(()) => Ok(piece.len()),
            Err(_) => Err(self.fail()),
        }
    }
}
