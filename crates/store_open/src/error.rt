//! Why a device is not opened, a sealed half is not read, and no checkpoint is made.

ghost use Rattle.std.specs.Prelude.{◌≡◌};
ghost use Rattle.store_open.specs.declared.error.OpenError.TheVariants.{Device, NoMemory};
ghost use Rattle.store_open.specs.Refusals.{error_of_journal, error_of_pair};
ghost use Rattle.store_open.specs.declared.error.SealedError.TheVariants.{NoMemory as IsNoMemory};
ghost use Rattle.store_open.specs.Sealed.{sealed_error_of};

use ckpt_pair::PairError;
use gate_journal::JournalError;
use sector_dev::DevError;
use std::alloc::{AllocError, AllocFailed};
use thiserror::Error;

/// Why a device is not opened. The variants are numbered from 1 in this order.
#[derive(Clone, Copy, Debug, PartialEq, Eq, Error)]
pub enum OpenError {
    /// The device is too small for a store, or its sector 0 is not that of a store.
    #[error("the device is no store")]
    NotAStore,
    /// A call of the device failed. The store may be valid or not.
    #[error("the device failed")]
    Device,
    /// The halves are refused. `NoMemory` never occurs here.
    #[error("{}", *.0)]
    Pair(PairError),
    /// A journal is refused. `NoMemory` never occurs here.
    #[error("{}", *.0)]
    Journal(JournalError),
    /// Memory was refused. The store may be valid or not.
    #[error("out of memory")]
    NoMemory,
}

impl OpenError {
    ghost use Rattle.store_open.specs.ErrorNumbers.{open_error_number};

    /// The number of the error.
    pub fn number(self) -> u8
        ensures { result ≡ open_error_number self }
    {
        match self {
            OpenError::NotAStore => 1,
            OpenError::Device => 2,
            OpenError::Pair(_) => 3,
            OpenError::Journal(_) => 4,
            OpenError::NoMemory => 5,
        }
    }
}

impl From<DevError> for OpenError {
    ghost from_gives = { λ _ e. e ≡ Device };

    fn from(_failed: DevError) -> OpenError {
        OpenError::Device
    }
}

impl From<AllocError> for OpenError {
    ghost from_gives = { λ _ e. e ≡ NoMemory };

    fn from(_refused: AllocError) -> OpenError {
        OpenError::NoMemory
    }
}

impl<T: Drop> From<AllocFailed<T>> for OpenError {
    ghost from_gives = { λ _ e. e ≡ NoMemory };

    fn from(_refused: AllocFailed<T>) -> OpenError {
        OpenError::NoMemory
    }
}

impl From<JournalError> for OpenError {
    ghost from_gives = { λ refused e. e ≡ error_of_journal refused };

    fn from(refused: JournalError) -> OpenError {
        match refused {
            JournalError::NoMemory => OpenError::NoMemory,
            _ => OpenError::Journal(refused),
        }
    }
}

impl From<PairError> for OpenError {
    ghost from_gives = { λ refused e. e ≡ error_of_pair refused };

    fn from(refused: PairError) -> OpenError {
        match refused {
            PairError::NoMemory => OpenError::NoMemory,
            _ => OpenError::Pair(refused),
        }
    }
}

/// Why no checkpoint is made at rest. The error is the first that applies, in this order: `Broken`,
/// `Sealed`, `Exhausted`, `Unfit`, and then `Fault` or `NoMemory`.
#[derive(Clone, Copy, Debug, PartialEq, Eq, Error)]
pub enum StoreError {
    /// A call of the device failed. The store is broken for good: its device has to be opened
    /// again.
    #[error("the device failed")]
    Fault = 1,
    /// The journal is sealed. Only a checkpointer at work folds a sealed journal.
    #[error("the journal is sealed")]
    Sealed = 2,
    /// Memory was refused, and nothing was written.
    #[error("out of memory")]
    NoMemory = 3,
    /// The epoch is 2^64 - 1.
    #[error("no epoch is left")]
    Exhausted = 4,
    /// The rows have more bytes than a checkpoint area has room for.
    #[error("the rows do not fit the checkpoint area")]
    Unfit = 5,
    /// An earlier checkpoint of this store has failed.
    #[error("an earlier checkpoint failed")]
    Broken = 6,
}

/// Why a sealed half is not read.
#[derive(Clone, Copy, Debug, PartialEq, Eq, Error)]
pub enum SealedError {
    /// The device failed.
    #[error("the device failed")]
    Fault,
    /// Memory was refused.
    #[error("out of memory")]
    NoMemory,
    /// The half is not a checkpoint with a journal that ends with a seal.
    #[error("the half is damaged")]
    Damaged,
}

impl From<OpenError> for SealedError {
    ghost from_gives = { λ refused e. e ≡ sealed_error_of refused };

    fn from(refused: OpenError) -> SealedError {
        match refused {
            OpenError::Device => SealedError::Fault,
            OpenError::NoMemory => SealedError::NoMemory,
            _ => SealedError::Damaged,
        }
    }
}

impl From<AllocError> for SealedError {
    ghost from_gives = { λ _ e. e ≡ IsNoMemory };

    fn from(_refused: AllocError) -> SealedError {
        SealedError::NoMemory
    }
}
