//! Why the next piece of a checkpoint is not made.

ghost use Rattle.std.specs.Prelude.{◌≡◌};
ghost use Rattle.ckpt_stream.specs.declared.error.PieceError.TheVariants.{Fault};

use sector_dev::DevError;
use thiserror::Error;

/// Why the next piece of a checkpoint is not made.
#[derive(Clone, Copy, Debug, PartialEq, Eq, Error)]
pub enum PieceError {
    /// The device failed.
    #[error("the device failed")]
    Fault,
    /// Sectors of the old area were read that are not those that were planned. No byte of them is
    /// made.
    #[error("the old area reads otherwise than before")]
    Damaged,
}

impl From<DevError> for PieceError {
    ghost from_gives = { λ _ e. e ≡ Fault };

    fn from(_failed: DevError) -> PieceError {
        PieceError::Fault
    }
}
