//! Why bytes are not a message, or not a segment.

ghost use Rattle.std.specs.Prelude.{◌≡◌};
ghost use Rattle.seg_core.specs.declared.error.SegError.TheVariants.{NoMemory, Wire};

use pw_wire::WireError;
use std::alloc::{AllocError, AllocFailed};
use std::error::Error;
use std::fmt;

/// The first check that a message fails. Nothing of a refused message is kept.
///
/// The variants are numbered from 0 in this order. A reply's code is 0x20 plus that number, except
/// that the code of `Wire` is 0x10 plus the number of the wire error, and the code of `NoMemory` is
/// 0x01.
#[derive(Clone, Copy, Debug, PartialEq, Eq)]
pub enum SegError {
    /// Memory was refused. The message may be valid or not.
    NoMemory,
    /// The bytes are not fields of the protobuf wire format.
    Wire(WireError),
    /// A known field has another wire type than its own.
    KindOfField,
    /// A message that may occur once in another, or a key of a map, occurs twice.
    RepeatedMessage,
    /// A required message is missing.
    MissingField,
    /// A number is out of its range, an ISD-AS has a zero part, or a MAC does not have 6 bytes.
    Range,
    /// Two neighbouring entries do not fit together, the first entry has an ingress, or the last
    /// entry does not end the path.
    Chain,
    /// An AS occurs twice.
    Loop,
    /// A segment has no entry, or more than 64.
    Entries,
    /// A type of segments is not 1, 2 or 3.
    BadType,
    /// A segment is above 16,384 bytes, or a registration above 131,072 bytes or 16 segments.
    TooLarge,
}

impl fmt::Display for SegError {
    fn fmt<W: fmt::Write>(&self, f: &mut fmt::Formatter<W>) -> fmt::Result {
        let text = match self {
            SegError::NoMemory => "out of memory",
            SegError::Wire(fault) => return write!(f, "{fault}"),
            SegError::KindOfField => "a field has another wire type than its own",
            SegError::RepeatedMessage => "a message stands twice",
            SegError::MissingField => "a message is missing",
            SegError::Range => "a number is out of range",
            SegError::Chain => "the entries do not form a chain",
            SegError::Loop => "an AS stands twice",
            SegError::Entries => "a segment has not 1 to 64 entries",
            SegError::BadType => "a type of segments is unknown",
            SegError::TooLarge => "a message is too large",
        };
        f.write_str(text)
    }
}

impl Error for SegError {}

impl From<WireError> for SegError {
    ghost from_gives = { λ wire e. e ≡ Wire wire };

    fn from(wire: WireError) -> SegError {
        SegError::Wire(wire)
    }
}

impl From<AllocError> for SegError {
    ghost from_gives = { λ _ e. e ≡ NoMemory };

    fn from(_refused: AllocError) -> SegError {
        SegError::NoMemory
    }
}

impl<T: Drop> From<AllocFailed<T>> for SegError {
    ghost from_gives = { λ _ e. e ≡ NoMemory };

    fn from(_refused: AllocFailed<T>) -> SegError {
        SegError::NoMemory
    }
}
