//! A feed gives few commands.
ghost use Rattle.std.specs.Prelude.{◌≤◌, ℕ, List, length};
ghost use Rattle.ride_model.specs.declared.command.Command.{Command};
ghost use Rattle.line_text.specs.line_reader.Limits.{IsWithinLimits};
ghost use Rattle.command_lines.specs.declared.forms.FeedForm.{FeedForm};
ghost use Rattle.command_lines.specs.Commands.{commands_of};
ghost use Rattle.command_lines.specs.Limits.{AreFirst, ended_commands, limits_of};

/// The first commands of a feed within its limits are no more than it may have lines, and so are those of the lines that an
/// LF ends within them, however long the feed is.
pub fn feeds_give_few_commands()
    ensures whole { (form : FeedForm) (bytes : List ℕ) (commands : List Command)
        → IsWithinLimits (limits_of form.lines) bytes
        → AreFirst commands (commands_of form.log bytes) → length commands ≤ form.lines }
    ensures ended { (form : FeedForm) (bytes : List ℕ) (commands : List Command)
        → AreFirst commands (ended_commands form bytes) → length commands ≤ form.lines }
{}
