//! The kinds of replies.

ghost use Rattle.std.specs.Prelude.{◌≡◌};
ghost use Rattle.session_core.specs.Commands.{reply_to_kind};
ghost use Rattle.session_core.specs.Service.{reply_to_list, reply_to_lookup};
ghost use Rattle.status_server.specs.Kinds.{kind_of_reply};

use seg_core::{SegType, Segment};
use session_core::{Acknowledges, Code, CommandKind, Listing};

/// The kind of a reply, by which it is counted.
#[derive(Clone, Copy, Debug, PartialEq, Eq)]
pub enum ReplyKind {
    /// A registration was accepted.
    Registered,
    /// A lookup was answered.
    Found,
    /// A purge was accepted.
    Purged,
    /// A removal was accepted.
    Removed,
    /// A list was answered.
    Listed,
    /// A message was refused with this code.
    Refused(u8),
}

/// The kind of the reply to a command.
pub(crate) fn kind_to_command<A: Acknowledges>(
    kind: CommandKind,
    answered: &Result<A, Code>,
) -> ReplyKind
    ensures { result ≡ kind_of_reply (reply_to_kind A.says kind answered.now) }
{
    match answered {
        Ok(_) => match kind {
            CommandKind::Register => ReplyKind::Registered,
            CommandKind::Purge => ReplyKind::Purged,
            CommandKind::Remove => ReplyKind::Removed,
        },
        Err(code) => ReplyKind::Refused(code.0),
    }
}

/// The kind of the reply to a lookup.
pub(crate) fn kind_to_lookup(answered: &Result<(SegType, Vec<Segment>), Code>) -> ReplyKind
    ensures { result ≡ kind_of_reply (reply_to_lookup answered.now) }
{
    match answered {
        Ok(_) => ReplyKind::Found,
        Err(code) => ReplyKind::Refused(code.0),
    }
}

/// The kind of the reply to a list.
pub(crate) fn kind_to_list(answered: &Result<Listing, Code>) -> ReplyKind
    ensures { result ≡ kind_of_reply (reply_to_list answered.now) }
{
    match answered {
        Ok(_) => ReplyKind::Listed,
        Err(code) => ReplyKind::Refused(code.0),
    }
}
