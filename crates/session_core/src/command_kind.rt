//! The kinds of commands.

ghost use Rattle.std.specs.Prelude.{◌≡◌};
ghost use Rattle.session_core.specs.Commands.{command_kind};
ghost use Rattle.session_core.specs.Front.{message_at};

use crate::message::Message;

/// The kinds of commands: the messages whose replies are acknowledgements.
#[derive(Clone, Copy, Debug, PartialEq, Eq)]
pub enum CommandKind {
    /// A registration.
    Register,
    /// A purge.
    Purge,
    /// A removal.
    Remove,
}

impl CommandKind {
    /// The kind of a command. A lookup has none, and neither has a list.
    pub fn of(message: &Message<&[u8]>) -> Option<CommandKind>
        ensures { result ≡ command_kind (message_at message.now) }
    {
        match message {
            Message::Register(_) => Some(CommandKind::Register),
            Message::Lookup(_) => None,
            Message::Purge(_) => Some(CommandKind::Purge),
            Message::Remove(_, _) => Some(CommandKind::Remove),
            Message::List(_) => None,
        }
    }
}
