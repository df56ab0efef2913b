//! Requests in their canonical spelling.
ghost use Rattle.std.specs.Prelude.{◌≡◌, ◌≢◌, ◌≤◌, ℕ, OnOk, OnErr, is_err};
ghost use Rattle.ride_ports.specs.Bytes.{Writes, WritesPrefix};
ghost use Rattle.ride_ports.specs.Count.{KeepsCount};
ghost use Rattle.ride_model.specs.declared.command.Command.TheVariants.{Bad};
ghost use Rattle.ride_model.specs.Text.{IsOneOrTwo, IsSpelledCommand};
ghost use Rattle.command_lines.specs.Commands.{spelling_of};
ghost use Rattle.booking_desk.specs.BookText.{spelled_for};
ghost use Rattle.booking_desk.specs.inner.Desk.{IsRequest};

use command_lines::print_command;
use ride_model::Command;
use ride_ports::{Failed, Sink};

/// Prints a request, with six numbers where it has no chairs, else with seven.
pub(crate) fn print_request<K: Sink>(request: &Command, sink: &mut K) -> Result<(), Failed>
    requires request { IsRequest request.now }
    requires spelled { IsSpelledCommand 2 request.now }
    ensures whole { OnOk result (Writes (K.written sink.old) (K.written sink.new)
        (spelling_of (spelled_for request.now) request.now)) }
    ensures prefix { OnErr result
        (WritesPrefix (K.written sink.old) (K.written sink.new)
        (spelling_of (spelled_for request.now) request.now)) }
    ensures faults { KeepsCount (is_err result) (K.faults sink.old) (K.faults sink.new) }
{
    print_command(request, spelled_for(request), sink)
}

/// The version of the log in whose canonical spelling a request stands.
fn spelled_for(request: &Command) -> u8
    requires request { IsRequest request.now }
    requires spelled { IsSpelledCommand 2 request.now }
    ensures version { result ≡ spelled_for request.now }
    ensures one_or_two { IsOneOrTwo result }
    ensures spelled { IsSpelledCommand result request.now }
    ensures not_bad { (number : ℕ) → request.now ≢ Bad number }
{
    match request {
        Command::Request { chairs, .. } if *chairs == 0 => 1,
        Command::Request { .. } => 2,
        _ => unreachable!(),
    }
}
