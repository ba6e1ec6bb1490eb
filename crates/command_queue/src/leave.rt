//! The leave to refuse commands.

ghost use Rattle.std.specs.Prelude.{◌≡◌, true};

use crate::history::QueueName;
use path_db::Command;
use std::marker::{Model, PhantomData};

/// The leave to say of any command that it was refused. Each queue has one, and nothing outside
/// this crate can use it: contracts see nothing of it. It has no bytes.
#[derive(Drop)]
pub(crate) struct Leave<J: QueueName> {
    of: PhantomData<J>,
}

impl<J: QueueName> Model for Leave<J> {
    ghost use Rattle.std.specs.Prelude.{◌≡◌, true, Option};
    ghost use Rattle.group_core.specs.declared.submit_error.SubmitError.{SubmitError};
    ghost use Rattle.path_db.specs.declared.command.Command.{Command};

    ghost Value = { Unit {0} };

    ghost view = { λ _. tt };

    ghost invariant = { λ _. (command : Command) (why : Option SubmitError) → J.refused command why ≡ true };
}

impl<J: QueueName> Leave<J> {
    ghost use Rattle.std.specs.Prelude.{Option};
    ghost use Rattle.group_core.specs.declared.submit_error.SubmitError.{SubmitError};
    ghost use Rattle.path_db.specs.declared.command.Command.{Command};

    /// The leave of the queue whose name is picked so.
    pub(crate) fn new() -> Leave<J>
        requires { (command : Command) (why : Option SubmitError) → J.refused command why ≡ true }
    {
        Leave { of: PhantomData }
    }

    /// A command is refused, for any reason.
    pub(crate) fn refuse(&self, command: &Command)
        ensures { (why : Option SubmitError) → J.refused command.now why ≡ true }
    {
        let _of = &self.of;
        let _ = command;
    }
}
