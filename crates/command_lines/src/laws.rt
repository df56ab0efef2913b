//! What is printed reads back.
ghost use Rattle.std.specs.Prelude.{◌≡◌, ◌≢◌, ℕ, Some};
ghost use Rattle.ride_model.specs.declared.command.Command.{Command};
ghost use Rattle.ride_model.specs.declared.command.Command.TheVariants.{Bad};
ghost use Rattle.ride_model.specs.Text.{IsOneOrTwo, IsSpelledCommand};
ghost use Rattle.command_lines.specs.Commands.{spelling_of};
ghost use Rattle.command_lines.specs.inner.Commands.{command_of};

/// The canonical spelling of a command spells it.
pub fn printed_commands_read_back()
    ensures { (log : ℕ) (command : Command) → IsOneOrTwo log → ((number : ℕ) → command ≢ Bad number)
        → IsSpelledCommand log command → command_of log (spelling_of log command) ≡ Some command }
{}
