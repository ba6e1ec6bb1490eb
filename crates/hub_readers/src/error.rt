//! Why a reader refused.

use std::alloc::AllocError;
use thiserror::Error;

/// Why a lookup was refused, or the readers of a hub were not made.
#[derive(Clone, Copy, Debug, PartialEq, Eq, Error)]
pub enum ReaderError {
    /// Memory was refused.
    #[error("out of memory")]
    NoMemory,
    /// The library gave no reader, or nothing is published that is new enough for the reader.
    #[error("no reader is left")]
    NoReader,
}

impl From<AllocError> for ReaderError {
    ghost use Rattle.std.specs.Prelude.{◌≡◌};
    ghost use Rattle.hub_readers.specs.declared.error.ReaderError.TheVariants.{NoMemory};

    ghost from_gives = { λ _ e. e ≡ NoMemory };

    fn from(_refused: AllocError) -> ReaderError {
        ReaderError::NoMemory
    }
}
