//! Why a command is not applied.

ghost use Rattle.std.specs.Prelude.{◌≡◌};
ghost use Rattle.path_db.specs.declared.error.ApplyError.TheVariants.{NoMemory};

use std::alloc::AllocError;
use thiserror::Error;

/// Why a command is not applied. The variants are numbered from 0 in this order.
#[derive(Clone, Copy, Debug, PartialEq, Eq, Error)]
pub enum ApplyError {
    /// Memory was refused. The command may be applied later.
    #[error("out of memory")]
    NoMemory,
    /// The rows would take more bytes than the limit.
    #[error("the rows would take too many bytes")]
    Full,
}

impl From<AllocError> for ApplyError {
    ghost from_gives = { λ _ e. e ≡ NoMemory };

    fn from(_refused: AllocError) -> ApplyError {
        ApplyError::NoMemory
    }
}
