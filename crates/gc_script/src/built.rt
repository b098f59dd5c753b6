//! What is a command.

ghost use Rattle.std.specs.Prelude.{◌≡◌};
ghost use Rattle.gc_script.specs.Built.{is_built};

use gc_commands::Command;

/// Whether a command is one, and not a line that is none.
#[inline(always)]
pub(crate) fn is_built(command: &Command) -> bool
    ensures { result ≡ is_built command.now }
{
    !matches!(command, Command::Bad)
}
