//! Why a message is refused before the service below is asked.

use group_core::SubmitError;
use reply_codes::Refusal;
use seg_core::SegError;
use session_core::Code;

/// Why a message is refused before the service below is asked.
#[derive(Clone, Copy, Debug, PartialEq, Eq)]
pub enum Limit {
    /// Memory was refused where the segments of a registration were read.
    NoMemory,
    /// A time lies too far in the future.
    Future,
    /// As many sessions have commands under way as may have some.
    NoRoom,
    /// The session takes no commands. One that cannot be read is refused by this error.
    NoCommands(Option<SegError>),
}

impl Limit {
    ghost use Rattle.std.specs.Prelude.{◌≡◌};
    ghost use Rattle.session_limits.specs.Limits.{limit_code};

    /// The code of the refusal in a reply.
    pub(crate) fn code(self) -> Code
        ensures { result.0 ≡ limit_code self }
    {
        match self {
            Limit::NoMemory => Refusal::NoMemory.code(),
            Limit::Future => Refusal::Future.code(),
            Limit::NoRoom => Refusal::Submit(SubmitError::Busy).code(),
            Limit::NoCommands(None) => Refusal::NoCommands.code(),
            Limit::NoCommands(Some(error)) => Refusal::Message(error).code(),
        }
    }
}
