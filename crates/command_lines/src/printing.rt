//! Prints commands.
ghost use Rattle.std.specs.Prelude.{◌≡◌, ◌≢◌, ◌≤◌, ◌+◌, ◌*◌, ◌∷◌, ◌++◌, ℕ, List, length, map, All, IfSome, decimal, OnOk, OnErr, is_err, codes};
ghost use Rattle.std.specs.List.{join_with_byte};
ghost use Rattle.ride_ports.specs.Bytes.{Writes, WritesPrefix};
ghost use Rattle.ride_ports.specs.Count.{KeepsCount};
ghost use Rattle.ride_model.specs.declared.command.Command.TheVariants.{Bad};
ghost use Rattle.ride_model.specs.Text.{IsOneOrTwo, IsSpelled, IsSpelledCommand};
ghost use Rattle.command_lines.specs.Commands.{spelling_of};

use arrayvec::ArrayVec;
use line_text::put_number;
use ride_model::Command;
use ride_ports::{Failed, Sink, write_all};

// The most bytes of a spelling: the longest word, and seven numbers of 18 digits with a blank before each.
const MOST_SPELLING: usize = 140;

/// Prints a command in the canonical spelling of a version of the log.
pub fn print_command<K: Sink>(command: &Command, log: u8, sink: &mut K) -> Result<(), Failed>
    requires log { IsOneOrTwo log }
    requires not_bad { (number : ℕ) → command.now ≢ Bad number }
    requires spelled { IsSpelledCommand log command.now }
    ensures whole { OnOk result (Writes (K.written sink.old) (K.written sink.new)
        (spelling_of log command.now)) }
    ensures prefix { OnErr result
        (WritesPrefix (K.written sink.old) (K.written sink.new) (spelling_of log command.now)) }
    ensures faults { KeepsCount (is_err result) (K.faults sink.old) (K.faults sink.new) }
{
    write_all(sink, spelling(command, log).as_slice())
}

// The canonical spelling.
fn spelling(command: &Command, log: u8) -> ArrayVec<u8, MOST_SPELLING>
    requires not_bad { (number : ℕ) → command.now ≢ Bad number }
    requires spelled { IsSpelledCommand log command.now }
    ensures { result.items ≡ spelling_of log command.now }
{
    match command {
        Command::Request {
            id,
            from,
            to,
            seats,
            latest,
            longest,
            chairs,
        } => {
            let numbers = [*id, *from, *to, *seats, *latest, *longest, *chairs];
            let count = if log == 2 { 7 } else { 6 };
            word_and_numbers(b"request", &numbers[..count])
        }
        Command::Cancel { id } => word_and_numbers(b"cancel", &[*id]),
        Command::At {
            vehicle,
            node,
            time,
        } => word_and_numbers(b"at", &[*vehicle, *node, *time]),
        Command::Done { vehicle } => word_and_numbers(b"done", &[*vehicle]),
        Command::On { vehicle } => word_and_numbers(b"on", &[*vehicle]),
        Command::Off { vehicle } => word_and_numbers(b"off", &[*vehicle]),
        Command::Clock { time } => word_and_numbers(b"clock", &[*time]),
        Command::Ask => word_and_numbers(b"batch", &[]),
        Command::Bad { line } => word_and_numbers(b"bad", &[*line]),
    }
}

// A word, and after it numbers, each with a blank before it.
fn word_and_numbers(word: &[u8], numbers: &[u64]) -> ArrayVec<u8, MOST_SPELLING>
    requires short { length word.now ≤ 7 }
    requires few { length numbers.now ≤ 7 }
    requires spelled { All IsSpelled numbers.now }
    ensures { result.items ≡ join_with_byte 32 (word.now ∷ map decimal numbers.now) }
{
    let mut text = ArrayVec::new();
    extend(&mut text, word);
    for number in numbers {
        add_number(&mut text, *number);
    }
    text
}

// Adds a blank and a number at the end.
fn add_number(text: &mut ArrayVec<u8, MOST_SPELLING>, number: u64)
    requires room { length text.old.items + 19 ≤ 140 }
    requires spelled { IsSpelled number }
    ensures { text.new.items ≡ text.old.items ++ 32 ∷ decimal number }
{
    extend(text, b" ");
    extend(text, put_number(number).as_slice());
}

// Adds bytes at the end.
fn extend(text: &mut ArrayVec<u8, MOST_SPELLING>, bytes: &[u8])
    requires { length text.old.items + length bytes.now ≤ 140 }
    ensures { text.new.items ≡ text.old.items ++ bytes.now }
{
    let _ = text.try_extend_from_slice(bytes);
}
