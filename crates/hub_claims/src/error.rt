//! Why a hub refused.

use group_core::SubmitError;
use std::alloc::AllocError;
use thiserror::Error;

/// Why a call of a hub was refused.
#[derive(Clone, Copy, Debug, PartialEq, Eq, Error)]
pub enum HubError {
    /// Memory was refused, or a thread of an actor was not given.
    #[error("out of memory")]
    NoMemory,
    /// All 64 readers are taken, or the library gave none.
    #[error("no reader is left")]
    NoReader,
    /// The state stopped before the command of this place was committed. It is not known whether
    /// the store keeps the command.
    #[error("the state stopped before place {0}")]
    Stopped(u64),
    /// The command was not accepted.
    #[error("{0}")]
    Submit(SubmitError),
    /// Who waited for the answer has left. The command is committed or refused as any other.
    #[error("nobody waits for the answer")]
    NotAwaited,
}

impl From<AllocError> for HubError {
    ghost use Rattle.std.specs.Prelude.{◌≡◌};
    ghost use Rattle.hub_claims.specs.declared.error.HubError.TheVariants.{NoMemory};

    ghost from_gives = { λ _ e. e ≡ NoMemory };

    fn from(_refused: AllocError) -> HubError {
        HubError::NoMemory
    }
}
