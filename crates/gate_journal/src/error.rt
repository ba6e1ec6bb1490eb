//! Why a journal is refused.

ghost use Rattle.std.specs.Prelude.{◌≡◌};
ghost use Rattle.gate_journal.specs.declared.error.JournalError.TheVariants.{NoMemory};

use path_records::DbError;
use std::alloc::{AllocError, AllocFailed};
use thiserror::Error;

/// Why a journal is refused. The variants are numbered from 0 in this order.
#[derive(Clone, Copy, Debug, PartialEq, Eq, Error)]
pub enum JournalError {
    /// Memory was refused. The bytes may be valid or not.
    #[error("out of memory")]
    NoMemory,
    /// The header after an open gate is neither that of a group nor that of a seal.
    #[error("a payload has no header")]
    BadHeader,
    /// The records of a group are not exactly as many commands as its header has, in exactly as
    /// many bytes, or padding is not zero.
    #[error("a group has a bad record")]
    BadRecord,
    /// A payload has another place than this one, which was expected.
    #[error("place {} is missing", *.0)]
    Gap(u64),
    /// A payload would begin after the journal's end, or a group has no room.
    #[error("a payload goes past the end")]
    PastEnd,
}

impl JournalError {
    ghost use Rattle.gate_journal.specs.ErrorNumber.{journal_error_number};

    /// The number of the error.
    pub fn number(self) -> u8
        ensures { result ≡ journal_error_number self }
    {
        match self {
            JournalError::NoMemory => 0,
            JournalError::BadHeader => 1,
            JournalError::BadRecord => 2,
            JournalError::Gap(_) => 3,
            JournalError::PastEnd => 4,
        }
    }
}

impl From<AllocError> for JournalError {
    ghost from_gives = { λ _ e. e ≡ NoMemory };

    fn from(_refused: AllocError) -> JournalError {
        JournalError::NoMemory
    }
}

impl<T: Drop> From<AllocFailed<T>> for JournalError {
    ghost from_gives = { λ _ e. e ≡ NoMemory };

    fn from(_refused: AllocFailed<T>) -> JournalError {
        JournalError::NoMemory
    }
}

impl From<DbError> for JournalError {
    ghost use Rattle.gate_journal.specs.RecordError.{error_of_record};

    ghost from_gives = { λ refused e. e ≡ error_of_record refused };

    fn from(refused: DbError) -> JournalError {
        match refused {
            DbError::NoMemory => JournalError::NoMemory,
            _ => JournalError::BadRecord,
        }
    }
}
