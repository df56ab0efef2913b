//! Text on its way to a sink.
ghost use Rattle.std.specs.Prelude.{◌≡◌, ◌≤◌, ◌+◌, ◌++◌, ℕ, [], false, true, length, take, is_err, nat_lt, IfOk, OnErr, OnOk, List, Option};
ghost use Rattle.line_text.specs.Fields.{is_over_long};
ghost use Rattle.line_text.specs.inner.Taking.{TakesOneMore};
ghost use Rattle.line_text.specs.inner.text_page.Output.{HasPut, IsFresh, Puts};

use crate::LineTaker;
use crate::text_page::NoMemory;
use crate::text_page::page::{PAGE, Page};
use ride_ports::{Failed, Sink, write_all};
use std::alloc::Global;
use std::marker::Model;

/// Text on its way to a sink, on a page. After a failure of the sink nothing more is written.
///
/// What prints itself onto a sink prints onto an output, which takes it on its page alone, up to 2^16 bytes. Where that gets full,
/// `back_to` writes what stood there before; the text is then printed to the sink itself, and `note` notes how that went. Only a
/// line that is taken, by `take_line`, may put more on the page.
#[derive(Drop)]
pub struct Output {
    page: Page,
    failed: bool,
}

impl Model for Output {
    ghost use Rattle.line_text.specs.inner.text_page.Output.{OutputState};

    ghost Value = { OutputState };

    ghost view = { λ o. record { page = o.page.text; full = o.page.faults; failed = o.failed } };
}

impl Output {
    /// An output on which nothing was put.
    pub fn new(alloc: Global) -> Result<Output, NoMemory>
        ensures { IfOk result IsFresh }
    {
        Ok(Output {
            page: Page::new(alloc)?,
            failed: false,
        })
    }

    /// Whether the sink failed.
    pub fn failed(&self) -> bool
        ensures { result ≡ self.now.failed }
    {
        self.failed
    }

    /// Puts bytes.
    pub fn put<K: Sink>(&mut self, out: &mut K, bytes: &[u8])
        ensures put { Puts (K.written out.old) (K.faults out.old) self.old (K.written out.new)
            (K.faults out.new) self.new bytes.now }
        ensures still_failed { self.old.failed ≡ true → self.new.failed ≡ true }
    {
        if self.failed {
            return;
        }
        if self.page.add(bytes) {
            return;
        }
        self.end(out);
        if self.failed {
            return;
        }
        self.failed = write_all(out, bytes).is_err();
    }

    /// Hands a line to who takes it, with the page. Where memory is wanting for it, it puts nothing.
    pub(crate) fn take_line<L: LineTaker>(
        &mut self,
        taker: &mut L,
        number: u64,
        line: &[u8],
        over: bool,
    ) -> Result<(), NoMemory>
        requires few { number ≤ L.most }
        requires so_far { (first : L) × (lines : List (List ℕ)) × (text : List ℕ)
            × L.takes first lines text taker.old × (number ≡ length lines + 1) }
        ensures taken { (first : L) (lines : List (List ℕ)) (text whole : List ℕ)
            → L.takes first lines text taker.old → number ≡ length lines + 1
            → line.now ≡ take 200 whole → over ≡ is_over_long whole
            → OnOk result (TakesOneMore L.takes first lines text whole
            self.old.page self.new.page taker.new) }
        ensures kept { OnErr result (self.new.page ≡ self.old.page) }
        ensures failed { self.new.failed ≡ self.old.failed }
    {
        let mark = self.page.length();
        let taken = taker.take_line(&mut self.page, number, line, over);
        if taken.is_err() {
            self.page.cut_to(mark);
        }
        taken
    }

    /// Whether more than 2^16 bytes stand on the page.
    pub(crate) fn is_above_page(&self) -> bool
        ensures { result ≡ nat_lt 65536 (length self.now.page) }
    {
        self.page.length() > PAGE
    }

    /// How many bytes stand on the page.
    pub fn mark(&self) -> usize
        ensures { result ≡ length self.now.page }
    {
        self.page.length()
    }

    /// Writes the first bytes of the page, up to a mark, and takes the others off it.
    pub fn back_to<K: Sink>(&mut self, out: &mut K, mark: usize)
        ensures put { (before : Option (List ℕ)) (faults : ℕ) (text : List ℕ)
            → HasPut before (K.written out.old) faults (K.faults out.old)
            (record self.old { page = take mark self.old.page }) text
            → HasPut before (K.written out.new) faults (K.faults out.new) self.new text }
        ensures nothing_left { self.new.failed ≡ false → self.new.page ≡ [] }
        ensures still_failed { self.old.failed ≡ true → self.new.failed ≡ true }
    {
        self.page.cut_to(mark);
        self.end(out);
    }

    /// Notes how a text was printed to the sink.
    pub fn note(&mut self, printed: Result<(), Failed>)
        ensures { self.new ≡ record self.old { failed = is_err printed } }
    {
        self.failed = printed.is_err();
    }

    /// Writes what is left on the page.
    pub fn end<K: Sink>(&mut self, out: &mut K)
        ensures put { (before : Option (List ℕ)) (faults : ℕ) (text : List ℕ)
            → HasPut before (K.written out.old) faults (K.faults out.old) self.old text
            → HasPut before (K.written out.new) faults (K.faults out.new) self.new text }
        ensures nothing_left { self.new.failed ≡ false → self.new.page ≡ [] }
        ensures still_failed { self.old.failed ≡ true → self.new.failed ≡ true }
    {
        if !self.failed {
            self.failed = self.page.write_to(out).is_err();
        }
    }
}

impl Sink for Output {
    ghost use Rattle.line_text.specs.inner.text_page.Output.{told_page};

    ghost written = { λ o. told_page o };

    ghost faults = { λ o. o.full };

    fn write(&mut self, piece: &[u8]) -> Result<usize, Failed> {
        let room = PAGE.saturating_sub(self.page.length());
        if room == 0 {
            return Err(self.page.fail());
        }
        self.page.write(&piece[..piece.len().min(room)])
    }
}
