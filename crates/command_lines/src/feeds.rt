//! The commands of a feed, one after the other.
ghost use Rattle.std.specs.Prelude.{◌≡◌, ℕ, ◌<◌, ◌≤◌, ◌++◌, ◌∷◌, [], false, List, Option, IfOk, IfSome, MatchOption, MatchResult};
ghost use Rattle.ride_model.specs.declared.command.Command.{Command};
ghost use Rattle.ride_model.specs.Text.{IsOneOrTwo, IsSpelledCommand};
ghost use Rattle.ride_ports.specs.Bytes.{Reads};
ghost use Rattle.ride_ports.specs.Count.{KeepsCount};
ghost use Rattle.line_text.specs.inner.line_reader.Reader.{IsShown, is_fault};
ghost use Rattle.std.specs.List.{cons_option};
ghost use Rattle.command_lines.specs.Commands.{said_by};
ghost use Rattle.command_lines.specs.inner.Limits.{IsForm};
ghost use Rattle.command_lines.specs.Feeds.{IsWhole};
ghost use Rattle.command_lines.specs.inner.Feeds.{HasCut, HasGiven, IsStopped, begins_with_letter, is_ready, lines_ahead};

use crate::forms::FeedForm;
use crate::limits::FEED_LIMITS;
use crate::reading::read_feed_line;
use line_text::line_reader::{Limits, LineReader, NextLine, ReadStop};
use ride_model::{Command, NoMemory};
use ride_ports::Source;
use std::alloc::Global;
use std::marker::Model;

/// Reads the commands of a feed, each as soon as its line has come. A feed has at most 2^26 bytes, and 1,000,000 lines or
/// fewer.
#[derive(Drop)]
pub struct FeedReader {
    form: FeedForm,
    lines: LineReader,
    /// Whether the feed was read to its end.
    ended: bool,
}

impl Model for FeedReader {
    ghost use Rattle.command_lines.specs.inner.Feeds.{FeedState};

    ghost Value = { FeedState };

    ghost view = { λ r. record { form = r.form; lines = r.lines; ended = r.ended } };
}

impl FeedReader {
    /// Returns a reader of a feed.
    pub fn new(alloc: Global, form: FeedForm) -> Result<FeedReader, NoMemory>
        requires { IsForm form }
        ensures form { IfOk result (λ reader. reader.form ≡ form) }
        ensures nothing_given { IfOk result
            (λ reader. (left : Option (List ℕ)) → HasGiven reader left [] []) }
    {
        let limits = Limits {
            lines: form.lines,
            ..FEED_LIMITS
        };
        let lines = LineReader::new(alloc, limits)?;
        Ok(FeedReader {
            form,
            lines,
            ended: false,
        })
    }

    /// Whether the next command stands whole in what was read, so that `next_command` waits for nothing. A line that does not begin
    /// with a letter may say nothing, and is not counted on.
    pub fn is_ready(&self) -> bool
        ensures { result ≡ is_ready self.now.lines.pending }
    {
        begins_with_letter(self.lines.pending()) && self.lines.has_line()
    }

    /// The next command, or None after the last. A bad line is a command too. After an error no more is read.
    pub fn next_command<S: Source>(&mut self, source: &mut S) -> Result<Option<Command>, ReadStop>
        requires given { (commands : List Command) × (bytes : List ℕ)
            × HasGiven self.old (S.left source.old) commands bytes }

        // The commands are those of the feed's bytes, each once and in order.
        ensures given { (more : List ℕ) × Reads (S.left source.old) (S.left source.new) more
            × ((commands : List Command) (bytes : List ℕ)
            → HasGiven self.old (S.left source.old) commands bytes
            → MatchResult result
            (λ said. MatchOption said
            (IsWhole self.old.form (S.left source.new) commands (bytes ++ more))
            (λ command. HasGiven self.new (S.left source.new)
            (commands ++ command ∷ []) (bytes ++ more)))
            (λ stop. IsStopped self.old.form stop commands (bytes ++ more))) }
        ensures form { self.new.form ≡ self.old.form }
        ensures spelled { IfOk result (λ said. IfSome said (IsSpelledCommand self.old.form.log)) }
        ensures faults { KeepsCount (is_fault result) (S.faults source.old) (S.faults source.new) }
    {
        while !self.ended {
            if let Some(command) = self.next_line(source)? {
                return Ok(Some(command));
            }
        }
        Ok(None)
    }

    /// Reads the next line, and answers what it says, if anything.
    fn next_line<S: Source>(&mut self, source: &mut S) -> Result<Option<Command>, ReadStop>
        requires form { IsForm self.old.form }
        requires going { self.old.ended ≡ false }
        requires given { (commands : List Command) × (bytes : List ℕ)
            × HasCut self.old commands bytes }
        ensures given { (more : List ℕ) × Reads (S.left source.old) (S.left source.new) more
            × ((commands : List Command) (bytes : List ℕ) → HasCut self.old commands bytes
            → MatchResult result
            (λ said. HasGiven self.new (S.left source.new)
            (commands ++ cons_option said []) (bytes ++ more))
            (λ stop. IsStopped self.old.form stop commands (bytes ++ more))) }
        ensures form { self.new.form ≡ self.old.form }
        ensures spelled { IfOk result (λ said. IfSome said (IsSpelledCommand self.old.form.log)) }
        ensures fewer { IfOk result (λ _. lines_ahead self.new < lines_ahead self.old) }
        ensures faults { KeepsCount (is_fault result) (S.faults source.old) (S.faults source.new) }
    {
        match self.lines.next(source) {
            Ok(NextLine::Line) => Ok(self.said()),
            Ok(NextLine::Unfinished) => {
                self.ended = true;
                Ok(self.said())
            }
            Ok(NextLine::End) => {
                self.ended = true;
                Ok(None)
            }
            Err(stop) => Err(stop),
        }
    }

    /// What the line says that was read last.
    fn said(&self) -> Option<Command>
        requires log { IsOneOrTwo self.now.form.log }
        requires line { (number : ℕ) × (line : List ℕ) × (number ≤ 1000000)
            × IsShown self.now.lines number line }
        requires limit { self.now.lines.limits.line ≡ 200 }
        ensures said { (number : ℕ) (line : List ℕ) → number ≤ 1000000
            → IsShown self.now.lines number line
            → result ≡ said_by self.now.form.log number line }
        ensures spelled { IfSome result (IsSpelledCommand self.now.form.log) }
    {
        read_feed_line(
            self.lines.line(),
            self.lines.over(),
            self.lines.number(),
            self.form.log,
        )
    }
}

/// Whether a text begins with a small letter, as each command does.
fn begins_with_letter(text: &[u8]) -> bool
    ensures { result ≡ begins_with_letter text.now }
{
    match text.first() {
        Some(first) => b'a' <= *first && *first <= b'z',
        None => false,
    }
}
