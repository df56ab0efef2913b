//! A board, and what is written of it.
ghost use Rattle.std.specs.Prelude.{◌≡◌, ℕ, ◌<◌, ◌≤◌, ◌++◌, ◌∷◌, ◌||◌, [], length, take, not, false, true, if◌then◌else◌, nat_eq, IfOk, OnErr, OnOk, List, Option, Some};
ghost use Rattle.std.specs.List.{flat_map};
ghost use Rattle.ride_model.specs.declared.command.Actor.TheVariants.{Desk, Feed};
ghost use Rattle.ride_model.specs.declared.entry.Ending.TheVariants.{Cut, Whole};
ghost use Rattle.ride_model.specs.History.{fed_commands};
ghost use Rattle.ride_model.specs.Legal.{IsLegal};
ghost use Rattle.ride_model.specs.Text.{HasText, IsSpelledCommand, text_of};
ghost use Rattle.ride_model.specs.inner.Limits.{most_commands};
ghost use Rattle.board_core.specs.Recorded.{Recorded, end_entry, state_of};
ghost use Rattle.idle_moves.specs.AheadText.{sheet_line};
ghost use Rattle.idle_moves.specs.inner.AheadText.{last_line};
ghost use Rattle.line_text.specs.inner.text_page.Output.{HasPut, IsFresh};
ghost use Rattle.session_run.specs.inner.Planning.{is_whole, sheets_in};
ghost use Rattle.session_run.specs.inner.Reading.{HasTold, HasToldAll, IsTold};
ghost use Rattle.session_run.specs.inner.Telling.{GoesOnTo, GoesOnWith};
ghost use Rattle.session_run.specs.inner.Running.{IsRunning, IsSession, Stops};

use crate::answers::answer;
use crate::batches::Answered;
use crate::outset::Outset;
use crate::sheets::{put_end, put_reach, put_sheet};
use crate::tools::Tools;
use crate::writes::Writes;
use board_core::Board;
use line_text::text_page::Output;
use ride_model::{Actor, Command, Ending, Entry, NoMemory};
use ride_ports::Sink;
use session_loops::{put_all, put_head};
use std::alloc::Global;
use std::marker::Model;
use std::thread::Threads;

/// A board of one feed and one desk, what its desk works with, and what is written of it: its log, or the sheets of its batches.
pub(crate) struct Session<'r> {
    board: Board<'r>,
    tools: Tools<'r>,
    output: Output,
    writes: Writes,
    no_memory: bool,
}

impl<'r> Model for Session<'r> {
    ghost use Rattle.std.specs.Prelude.{◌≡◌, ◌≤◌};
    ghost use Rattle.std.specs.Option.{ForSome};
    ghost use Rattle.session_run.specs.inner.SessionState.{SessionState};
    ghost use Rattle.session_run.specs.inner.Writing.{reach_of};

    ghost Value = { SessionState };

    ghost view = { λ s. record {
      board = s.board;
      output = s.output;
      reach = reach_of s.writes;
      no_memory = s.no_memory;
    } };

    ghost use Rattle.ride_model.specs.declared.limits.TheConstants.{LONGEST_REACH};

    ghost invariant = { λ s. (s.tools ≡ s.board.start.roads)
        × ForSome (reach_of s.writes) (λ r. r ≤ LONGEST_REACH) };
}

impl Drop for Session<'_> {
    fn drop(self) {
        let Session {
            board,
            tools,
            output,
            writes: _,
            no_memory: _,
        } = self;
        drop(board);
        drop(tools);
        drop(output);
    }
}

impl<'r> Session<'r> {
    /// A session at its start, of which nothing is written.
    pub(crate) fn new(
        alloc: Global,
        outset: Outset<'r>,
        workers: usize,
    ) -> Result<Session<'r>, NoMemory>
        requires workers { 1 ≤ workers }
        ensures start { IfOk result (λ session. session.board.start ≡ outset.entry.start) }
        ensures history { IfOk result (λ session. session.board.history ≡ []) }
        ensures running { IfOk result (λ session. IsRunning session.board session.no_memory) }
        ensures output { IfOk result (λ session. IsFresh session.output) }
        ensures reach { IfOk result (λ session. session.reach ≡ outset.entry.reach) }
        ensures memory { IfOk result (λ session. session.no_memory ≡ false) }
    {
        let Outset {
            roads,
            settings,
            fleet,
            writes,
        } = outset;
        let tools = Tools::new(alloc, roads, workers)?;
        let output = Output::new(alloc)?;
        let board = Board::new(alloc, roads, settings, fleet, 1, 1)?;
        Ok(Session {
            board,
            tools,
            output,
            writes,
            no_memory: false,
        })
    }

    /// Whether memory was wanting.
    pub(crate) fn no_memory(&self) -> bool
        ensures { result ≡ self.now.no_memory }
    {
        self.no_memory
    }

    /// The history: legal, and with a text.
    pub(crate) fn entries(&self) -> &[Entry]
        ensures items { result.now ≡ self.now.board.history }
        ensures legal { IsLegal self.now.board.feeds self.now.board.desks
            self.now.board.start self.now.board.history }
        ensures text { HasText self.now.board.start.settings.log self.now.board.feeds
            self.now.board.desks self.now.board.history }
    {
        self.board.entries()
    }

    /// Whether the sink failed.
    pub(crate) fn sink_failed(&self) -> bool
        ensures { result ≡ self.now.output.failed }
    {
        self.output.failed()
    }

    /// Writes the first line, at once.
    pub(crate) fn begin<K: Sink>(&mut self, out: &mut K)
        requires fresh { IsFresh self.old.output }
        requires bare { self.old.board.history ≡ [] }
        ensures told { HasTold (K.written out.old) (K.written out.new)
            (K.faults out.old) (K.faults out.new) self.new }
        ensures others { self.new ≡ record self.old { output = self.new.output } }
    {
        self.tell_first(out);
        self.write_told(out, false);
    }

    // Writes what was told and is not written yet, unless more of the feed is at hand, and does something for the batches to come.
    fn write_told<K: Sink>(&mut self, out: &mut K, more: bool)
        ensures told { (earlier : Option (List ℕ)) (faults : ℕ)
            → HasTold earlier (K.written out.old) faults (K.faults out.old) self.old
            → HasTold earlier (K.written out.new) faults (K.faults out.new) self.new }
        ensures others { self.new ≡ record self.old { output = self.new.output } }
        ensures nothing_left { more ≡ false → self.new.output.failed ≡ false
            → self.new.output.page ≡ [] }
    {
        if more {
            return;
        }
        self.output.end(out);
        self.tools.prepare();
    }

    // Tells the first line.
    fn tell_first<K: Sink>(&mut self, out: &mut K)
        requires fresh { IsFresh self.old.output }
        requires bare { self.old.board.history ≡ [] }
        ensures told { HasTold (K.written out.old) (K.written out.new)
            (K.faults out.old) (K.faults out.new) self.new }
        ensures others { self.new ≡ record self.old { output = self.new.output } }
    {
        // This call tells that the version is 1 or 2.
        let _history = self.board.entries();
        match self.writes {
            Writes::Log => put_head(&mut self.output, out, self.board.log(), 1, 1),
            Writes::Sheets(reach) => put_reach(&mut self.output, out, reach),
        }
    }

    /// Answers a command and runs the batch after an accepted ask, and tells what became of it: it is written at once where it is not
    /// sure that more of the feed is at hand.
    pub(crate) fn take_command<R: Threads + Sync, K: Sink>(
        &mut self,
        rt: &R,
        out: &mut K,
        command: &Command,
        more: bool,
    ) -> Result<(), NoMemory>
        requires running { IsRunning self.old.board self.old.no_memory }
        requires few { length (fed_commands 1 self.old.board.history) < most_commands }
        requires spelled { IsSpelledCommand self.old.board.start.settings.log command.now }
        ensures running { OnOk result (IsRunning self.new.board self.new.no_memory) }
        ensures commands { OnOk result (fed_commands 1 self.new.board.history
            ≡ fed_commands 1 self.old.board.history ++ command.now ∷ []) }
        ensures stopped { OnErr result (Stops command.now self.old.board self.new.board) }
        ensures no_memory { OnErr result (self.new.no_memory ≡ true) }
        ensures start { self.new.board.start ≡ self.old.board.start }
        ensures reach { self.new.reach ≡ self.old.reach }
        ensures told { (earlier : Option (List ℕ)) (faults : ℕ)
            → HasTold earlier (K.written out.old) faults (K.faults out.old) self.old
            → HasTold earlier (K.written out.new) faults (K.faults out.new) self.new }
    {
        self.answer_command(rt, out, command)?;
        self.write_told(out, more);
        Ok(())
    }

    // Answers a command and runs the batch after an accepted ask, and tells what became of it.
    fn answer_command<R: Threads + Sync, K: Sink>(
        &mut self,
        rt: &R,
        out: &mut K,
        command: &Command,
    ) -> Result<(), NoMemory>
        requires running { IsRunning self.old.board self.old.no_memory }
        requires few { length (fed_commands 1 self.old.board.history) < most_commands }
        requires spelled { IsSpelledCommand self.old.board.start.settings.log command.now }
        ensures running { OnOk result (IsRunning self.new.board self.new.no_memory) }
        ensures commands { OnOk result (fed_commands 1 self.new.board.history
            ≡ fed_commands 1 self.old.board.history ++ command.now ∷ []) }
        ensures stopped { OnErr result (Stops command.now self.old.board self.new.board) }
        ensures no_memory { OnErr result (self.new.no_memory ≡ true) }
        ensures start { self.new.board.start ≡ self.old.board.start }
        ensures reach { self.new.reach ≡ self.old.reach }
        ensures told { (earlier : Option (List ℕ)) (faults : ℕ)
            → HasTold earlier (K.written out.old) faults (K.faults out.old) self.old
            → HasTold earlier (K.written out.new) faults (K.faults out.new) self.new }
    {
        let told = self.board.entries().len();
        let reach = self.writes.reach();
        match answer(&mut self.board, &mut self.tools, rt, command, reach) {
            Ok(answered) => {
                self.tell(out, told, &answered);
                Ok(())
            }
            Err(error) => {
                self.tell(out, told, &Answered::Wanting);
                Err(error)
            }
        }
    }

    /// Ends the feed and the desk, and what is written with them. The desk ends whole where all batches were opened.
    pub(crate) fn end<K: Sink>(&mut self, out: &mut K, ending: Ending)
        requires session { IsSession self.old.board }
        requires one_feed { self.old.board.feeds ≡ 1 }
        ensures history { self.new.board.history
            ≡ self.old.board.history ++ end_entry (Feed 1) ending
            ∷ end_entry (Desk 1) (if nat_eq (state_of self.old.board).opened
            (state_of self.old.board).asked then Whole else Cut) ∷ [] }
        ensures start { self.new.board.start ≡ self.old.board.start }
        ensures feeds { self.new.board.feeds ≡ self.old.board.feeds }
        ensures desks { self.new.board.desks ≡ self.old.board.desks }
        ensures reach { self.new.reach ≡ self.old.reach }
        ensures no_memory { self.new.no_memory ≡ self.old.no_memory }
        ensures told { (earlier : Option (List ℕ)) (faults : ℕ)
            → HasTold earlier (K.written out.old) faults (K.faults out.old) self.old
            → HasToldAll ending earlier (K.written out.new) faults (K.faults out.new) self.new }
        ensures nothing_left { self.new.output.failed ≡ false → self.new.output.page ≡ [] }
    {
        let told = self.board.entries().len();
        self.end_actors(ending);
        self.tell_end(out, told, ending);
        self.output.end(out);
    }

    // Ends the feed, and then the desk.
    fn end_actors(&mut self, ending: Ending)
        requires session { IsSession self.old.board }
        requires one_feed { self.old.board.feeds ≡ 1 }
        ensures history { self.new.board.history
            ≡ self.old.board.history ++ end_entry (Feed 1) ending
            ∷ end_entry (Desk 1) (if nat_eq (state_of self.old.board).opened
            (state_of self.old.board).asked then Whole else Cut) ∷ [] }
        ensures start { self.new.board.start ≡ self.old.board.start }
        ensures feeds { self.new.board.feeds ≡ self.old.board.feeds }
        ensures desks { self.new.board.desks ≡ self.old.board.desks }
        ensures others { self.new ≡ record self.old { board = self.new.board } }
    {
        let whole = self.board.opened() == self.board.asked();
        self.board.end(Actor::Feed(1), ending);
        let desk_ending = if whole { Ending::Whole } else { Ending::Cut };
        self.board.end(Actor::Desk(1), desk_ending);
    }

    // Writes what became of a command: the entries from a place on, or the sheet of the batch after it.
    fn tell<K: Sink>(&mut self, out: &mut K, told: usize, answered: &Answered)
        requires { told ≤ length self.old.board.history }
        ensures told { (earlier : Option (List ℕ)) (faults : ℕ) (board : Recorded)
            → GoesOnWith self.old.reach told answered.now board self.old.board
            → HasTold earlier (K.written out.old) faults (K.faults out.old)
            (record self.old { board = board })
            → HasTold earlier (K.written out.new) faults (K.faults out.new) self.new }
        ensures others { self.new ≡ record self.old {
          output = self.new.output;
          no_memory = self.old.no_memory || not (is_whole answered.now);
        } }
    {
        self.no_memory |= !answered.is_whole();
        match self.writes {
            Writes::Log => self.log_rest(out, told),
            Writes::Sheets(_) => self.tell_sheet(out, answered),
        }
    }

    // Writes the sheet of the batch after a command, if there is one and memory was not wanting.
    fn tell_sheet<K: Sink>(&mut self, out: &mut K, answered: &Answered)
        ensures told { (earlier : Option (List ℕ)) (faults : ℕ) (text : List ℕ)
            → HasPut earlier (K.written out.old) faults (K.faults out.old) self.old.output text
            → HasPut earlier (K.written out.new) faults (K.faults out.new) self.new.output
            (text ++ (if self.old.no_memory then []
            else flat_map sheet_line (sheets_in answered.now))) }
        ensures others { self.new ≡ record self.old { output = self.new.output } }
    {
        if self.no_memory {
            return;
        }
        if let Some(sheet) = answered.sheet() {
            put_sheet(&mut self.output, out, sheet);
        }
    }

    // Writes how the session ended: the entries from a place on, or the last line of the sheets.
    fn tell_end<K: Sink>(&mut self, out: &mut K, told: usize, ending: Ending)
        requires { told ≤ length self.old.board.history }
        ensures told { (earlier : Option (List ℕ)) (faults : ℕ) (board : Recorded)
            → GoesOnTo ending told board self.old.board
            → HasTold earlier (K.written out.old) faults (K.faults out.old)
            (record self.old { board = board })
            → HasToldAll ending earlier (K.written out.new) faults (K.faults out.new) self.new }
        ensures others { self.new ≡ record self.old { output = self.new.output } }
    {
        match self.writes {
            Writes::Log => self.log_rest(out, told),
            Writes::Sheets(_) => self.tell_last(out, ending),
        }
    }

    // Writes the last line of the sheets, unless memory was wanting.
    fn tell_last<K: Sink>(&mut self, out: &mut K, ending: Ending)
        ensures told { (earlier : Option (List ℕ)) (faults : ℕ) (text : List ℕ)
            → HasPut earlier (K.written out.old) faults (K.faults out.old) self.old.output text
            → HasPut earlier (K.written out.new) faults (K.faults out.new) self.new.output
            (text ++ (if self.old.no_memory then [] else last_line ending)) }
        ensures others { self.new ≡ record self.old { output = self.new.output } }
    {
        if !self.no_memory {
            put_end(&mut self.output, out, ending);
        }
    }

    // Logs the entries from a place on.
    fn log_rest<K: Sink>(&mut self, out: &mut K, told: usize)
        requires { told ≤ length self.old.board.history }
        ensures told { (earlier : Option (List ℕ)) (faults : ℕ)
            → HasPut earlier (K.written out.old) faults (K.faults out.old) self.old.output
            (text_of self.old.board.start.settings.log 1 1 (take told self.old.board.history))
            → IsTold earlier (K.written out.new) faults
            (K.faults out.new) self.new.output self.new.board }
        ensures others { self.new ≡ record self.old { output = self.new.output } }
    {
        let entries = self.board.entries();
        put_all(&mut self.output, out, &entries[told..], self.board.log());
    }
}
