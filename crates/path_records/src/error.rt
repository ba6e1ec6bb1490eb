//! Why bytes are not a record.

ghost use Rattle.std.specs.Prelude.{◌≡◌};
ghost use Rattle.path_records.specs.declared.error.DbError.TheVariants.{NoMemory};

use std::alloc::{AllocError, AllocFailed};
use thiserror::Error;

/// Why bytes are not a record, or not records. The variants are numbered from 0 in this order.
#[derive(Clone, Copy, Debug, PartialEq, Eq, Error)]
pub enum DbError {
    /// Memory was refused. The bytes may be valid or not.
    #[error("out of memory")]
    NoMemory,
    /// Bytes are missing or left over, a number is out of its range, or a segment's bytes cannot be
    /// read or are not its one encoding.
    #[error("a record is not well-formed")]
    BadRecord,
    /// The key of a row is not strictly above the key of the row before.
    #[error("rows are not in the order of their keys")]
    Order,
}

impl From<AllocError> for DbError {
    ghost from_gives = { λ _ e. e ≡ NoMemory };

    fn from(_refused: AllocError) -> DbError {
        DbError::NoMemory
    }
}

impl<T: Drop> From<AllocFailed<T>> for DbError {
    ghost from_gives = { λ _ e. e ≡ NoMemory };

    fn from(_refused: AllocFailed<T>) -> DbError {
        DbError::NoMemory
    }
}
