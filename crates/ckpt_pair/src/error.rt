//! Why a pair of halves is refused.

ghost use Rattle.std.specs.Prelude.{◌≡◌};

use thiserror::Error;

/// Why the halves of a store are refused. The variants are numbered from 0 in this order.
#[derive(Clone, Copy, Debug, PartialEq, Eq, Error)]
pub enum PairError {
    /// Memory was refused. The halves may be valid or not.
    #[error("out of memory")]
    NoMemory,
    /// No half is open.
    #[error("no half is open")]
    NoHalf,
    /// Both halves are open, and have the same epoch.
    #[error("both halves have the same epoch")]
    SameEpoch,
    /// An open half has no valid head, or the rows of the chosen half are out of order or not as
    /// many as its front has.
    #[error("a checkpoint is not well-formed")]
    BadCheckpoint,
    /// The chosen half's journal is sealed while the other half is open, or the other journal is
    /// sealed too.
    #[error("a half is sealed beside an open or a sealed one")]
    SealedNewer,
    /// The version of an open half is above `LATEST`.
    #[error("version {0} of the format is not known")]
    NewerFormat(u32),
}

impl PairError {
    ghost use Rattle.ckpt_pair.specs.ErrorNumber.{pair_error_number};

    /// The number of the error.
    pub fn number(self) -> u8
        ensures { result ≡ pair_error_number self }
    {
        match self {
            PairError::NoMemory => 0,
            PairError::NoHalf => 1,
            PairError::SameEpoch => 2,
            PairError::BadCheckpoint => 3,
            PairError::SealedNewer => 4,
            PairError::NewerFormat(_) => 5,
        }
    }
}
