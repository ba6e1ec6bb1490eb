//! A law of the commands of journals. It is the contract of a function that does nothing.

ghost use Rattle.gate_journal.specs.AllowedCommands.{CommandsAreAllowed};

/// The limits of a journal allow each command that is within its own limits, and a removal only
/// where they allow removals.
pub fn commands_are_allowed()
    ensures { CommandsAreAllowed }
{}
