//! The refusal of a message, where a hub refused its call.

ghost use Rattle.std.specs.Prelude.{◌≡◌};
ghost use Rattle.reply_codes.specs.Replies.{reply_to_command};
ghost use Rattle.session_core.specs.Commands.{reply_to_kind};
ghost use Rattle.session_core.specs.declared.command_kind.CommandKind.{CommandKind};
ghost use Rattle.path_session.specs.Refused.{hub_refusal, reader_refusal};
ghost use Rattle.path_session.specs.UnderWay.{reply_with};

use crate::hub_ack::HubAck;
use hub_claims::{HubError, HubName};
use hub_readers::ReaderError;
use reply_codes::Refusal;
use session_core::Code;

/// The refusal of a message whose call of the hub was refused.
pub(crate) fn refusal_of(error: HubError) -> Refusal
    ensures { result ≡ hub_refusal error }
{
    match error {
        HubError::NoMemory => Refusal::NoMemory,
        HubError::NoReader => Refusal::NoReader,
        HubError::Stopped(_) => Refusal::Stopped,
        HubError::Submit(error) => Refusal::Submit(error),
        HubError::NotAwaited => Refusal::NotAwaited,
    }
}

/// The refusal of a lookup whose call of the reader was refused.
pub(crate) fn reader_refusal_of(error: ReaderError) -> Refusal
    ensures { result ≡ reader_refusal error }
{
    match error {
        ReaderError::NoMemory => Refusal::NoMemory,
        ReaderError::NoReader => Refusal::NoReader,
    }
}

/// The answer to a command, with the code of a refusal.
pub(crate) fn coded<N: HubName>(answered: Result<HubAck<N>, Refusal>) -> Result<HubAck<N>, Code>
    ensures { (kind : CommandKind) → reply_to_kind (λ ack. ack) kind result ≡ reply_to_command (reply_with kind) answered }
{
    Ok(answered?)
}
